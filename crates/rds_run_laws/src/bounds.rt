//! Laws of the journals of a run. Each clause is a theorem.
ghost use Rattle.std.specs.Prelude.{◌≡◌, ◌<◌, ◌≤◌, ◌+◌, ◌*◌, ℕ, List, length, true};
ghost use Rattle.rds_model.specs.declared.entry.Entry.{Entry};
ghost use Rattle.rds_model.specs.declared.journal.TheConstants.{MAX_ENTRIES};
ghost use Rattle.rds_model.specs.Bounded.{map_pulls, most_entries};
ghost use Rattle.rds_model.specs.Sums.{orders};
ghost use Rattle.rds_script.specs.declared.script.Placed.{Placed};
ghost use Rattle.rds_run_hosts.specs.Streams.{cuts_between, streams_between};
ghost use Rattle.rds_run_threads.specs.Causes.{IsFullJournal, IsOfCommands};
ghost use Rattle.rds_run_laws.specs.Few.{HoldAll, PullsNoPort, own_commands};
ghost use Rattle.rds_run_laws.specs.Put.{own_sum};
ghost use Rattle.rds_run_laws.specs.Weights.{by_length, orders_sum};

use crate::sums::sums_of_journals;
use rds_model::laws::{bounded_of_all, few_map_pulls, few_streams, pulled_maps};

/// In a journal that is of the script's commands stand at most as many orders as commands are the host's own, with at most as many bytes as
/// these send: a command puts at most one on the routes to one peer.
pub fn few_orders()
    ensures bytes { (hosts host peer : ℕ) (commands : List Placed) (past : List Entry) → host < hosts → peer < hosts → (peer ≡ host → ⊥) →
        IsOfCommands hosts host peer commands past → orders_sum by_length (orders past) ≤ own_sum by_length host commands }
    ensures count { (hosts host peer : ℕ) (commands : List Placed) (past : List Entry) → host < hosts → peer < hosts → (peer ≡ host → ⊥) →
        IsOfCommands hosts host peer commands past → length (orders past) ≤ own_commands host commands }
{}

/// How many entries a journal has that is full, by the commands of its script, the streams that are prepared for them, and the maps that it
/// and the journal of its peer pulled, where ends tell their bytes.
pub fn few_entries()
    ensures { (limit hosts host peer entries : ℕ) (commands : List Placed) (own other : List Entry) →
        IsFullJournal true limit hosts commands host peer entries own other →
        entries ≤ most_entries (length commands) (2 * streams_between host peer commands) (map_pulls own + map_pulls other) }
{
    few_orders();
    bounded_of_all();
    few_streams();
}

/// Within the limits of a script, and where ends tell their bytes, no journal of a run fills but by maps: more than 3,000,000,000 of them
/// were pulled, and one with a port was among them.
pub fn full_by_maps()
    ensures many { (hosts host peer entries : ℕ) (commands : List Placed) (own other : List Entry) →
        IsFullJournal true MAX_ENTRIES hosts commands host peer entries own other → length commands ≤ 200000 → cuts_between host peer commands ≤ 1024 →
        3000000000 < map_pulls own + map_pulls other }
    ensures ports { (hosts host peer entries : ℕ) (commands : List Placed) (own other : List Entry) →
        IsFullJournal true MAX_ENTRIES hosts commands host peer entries own other → length commands ≤ 200000 → cuts_between host peer commands ≤ 1024 →
        PullsNoPort own → PullsNoPort other → ⊥ }
{
    few_entries();
    few_streams();
    few_map_pulls();
    pulled_maps();
}

/// Of two hosts alone no journal fills, where each receive buffer has room for all that the other host's commands send, and ends tell their
/// bytes: a condition on the script and on nothing else. So a run of it over memory never answers 7.
pub fn none_full_of_two()
    ensures { (host peer entries : ℕ) (commands : List Placed) (own other : List Entry) →
        IsFullJournal true MAX_ENTRIES 2 commands host peer entries own other → length commands ≤ 200000 → cuts_between host peer commands ≤ 1024 →
        HoldAll host peer commands → ⊥ }
{
    full_by_maps();
    sums_of_journals();
}
