//! How the lines of a run get their streams.
ghost use Rattle.std.specs.Prelude.{◌≡◌, ◌≤◌, ℕ, All, List, length};
ghost use Rattle.rds_text.specs.declared.host.TheConstants.{MAX_HOSTS};
ghost use Rattle.rds_line_channel.specs.Channel.{IsNewChannel};
ghost use Rattle.rds_line_channel.specs.Streams.{AreNumbered, IsUnused};
ghost use Rattle.rds_run_callers.specs.Places.{CallerView};
ghost use Rattle.rds_host.specs.Held.{ends_of_all};
ghost use Rattle.rds_host.specs.Keeping.{LinesKeep};
ghost use Rattle.rds_run_rounds.specs.Connection.{AreHosts};
ghost use Rattle.rds_run_rounds.specs.Grid.{rows_of};
ghost use Rattle.rds_script.specs.declared.script.Placed.{Placed};
ghost use Rattle.rds_run_hosts.specs.Giving.{AreGiven, HaveNewLines};
ghost use Rattle.rds_run_hosts.specs.Held.{ends_prepared};
ghost use Rattle.rds_run_hosts.specs.Parties.{AreParties, HaveNotLooked};
ghost use Rattle.rds_run_hosts.specs.Preparing.{AreAllCounted, AreAllPrepared, HaveCounted, HaveStreamsOf};

use crate::streams::Ends;
use rds_fmap::Writer;
use rds_host::laws::lines_keep;
use rds_line::Line;
use rds_link::End;
use rds_run_rounds::Lines;
use rds_run_settling::laws::tied_keeps;

/// Gives each line of each host the ends of its streams that were prepared. The lines are new, and have no streams. It takes no
/// memory.
pub fn give_streams<E: End>(lines: &mut Lines<E>, streams: Vec<Vec<Ends<E>>>)
    requires new { (limit : ℕ) × HaveNewLines limit (length (rows_of lines.old.items)) (rows_of lines.old.items) }
    requires streams { AreAllPrepared E.means (length (rows_of lines.old.items)) (rows_of streams.items) }
    ensures parties { (hosts : ℕ) (callers : List CallerView) → AreParties hosts callers (rows_of lines.old.items) →
        AreParties hosts callers (rows_of lines.new.items) }
    ensures hosts { (limit hosts : ℕ) → hosts ≤ MAX_HOSTS → HaveNewLines limit hosts (rows_of lines.old.items) →
        AreHosts E.means limit hosts (rows_of lines.new.items) }
    ensures looks { HaveNotLooked (rows_of lines.new.items) }
    ensures counted { (commands : List Placed) (before after : ℕ) → AreAllCounted commands before after (rows_of streams.items) →
        HaveCounted commands before after (rows_of lines.new.items) }
    ensures numbered { HaveStreamsOf (rows_of streams.items) (rows_of lines.new.items) }
    ensures ends { ends_of_all (rows_of lines.new.items) ≡ ends_prepared (rows_of streams.items) }
{
    tied_keeps::<E>();
    let mut host = 0;
    for row in streams {
        give_row(&mut lines[host], row);
        host += 1;
    }
}

// Gives each line of a host the ends in its place.
fn give_row<E: End>(lines: &mut Vec<Line<E, Writer>>, streams: Vec<Ends<E>>)
    requires count { length streams.items ≡ length lines.old.items }
    requires new { All (λ line. IsNewChannel line.channel) lines.old.items }
    requires numbered { All (λ list. AreNumbered list.items) streams.items }
    requires unused { All (λ list. All (λ stream. IsUnused E.means stream.1) list.items) streams.items }
    ensures given { AreGiven streams.items lines.old.items lines.new.items }
    ensures keeps { LinesKeep lines.old.items lines.new.items }
{
    lines_keep::<E>();
    let mut place = 0;
    for ends in streams {
        lines[place].give_streams(ends);
        place += 1;
    }
}
