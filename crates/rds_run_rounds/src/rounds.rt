//! The last rounds of a run, on one thread.
ghost use Rattle.std.specs.Prelude.{◌≡◌, ◌≢◌, ◌≤◌, ◌<◌, ℕ, Bool, All, false, true, Some, length, max, min};
ghost use Rattle.rds_text.specs.declared.host.TheConstants.{MAX_HOSTS};
ghost use Rattle.rds_run_rounds.specs.Causes.{AreClosed, AreLeftWell, AreUnacked, HaveRoom, HostsMissStream, NoneEndsBefore, OweNothing, alive_in_rows};
ghost use Rattle.rds_run_rounds.specs.Connection.{AreHosts, IsFullHost};
ghost use Rattle.rds_run_rounds.specs.Done.{AreDone};
ghost use Rattle.rds_run_rounds.specs.Drained.{AreDrainedLines};
ghost use Rattle.rds_run_rounds.specs.Grid.{AreRows, EachRow, rows_of};
ghost use Rattle.rds_run_rounds.specs.Quiet.{AreQuiet, IsQuietEnd, LinesGoOn};
ghost use Rattle.rds_run_rounds.specs.Sweep.{AreWritten};
ghost use Rattle.rds_run_rounds.specs.declared.rounds.Rounds.{Rounds as RoundsView};
ghost use Rattle.rds_run_rounds.specs.declared.rounds.Rounds.TheVariants as ended;
ghost use Rattle.rds_run_rounds.specs.declared.verdict.Round.TheVariants as round;

use crate::counting::{are_closed, are_written, unacked};
use crate::sweeping::round_of_all;
use crate::verdict::{Round, Wanted};
use rds_fmap::Writer;
use rds_line::Line;
use rds_link::{End, Wire};
use std::sync::Wait;
use std::thread::yield_now;

/// The lines of each host, by host: those of one host have its peers in ascending order.
pub type Lines<E> = Vec<Vec<Line<E, Writer>>>;

// After how many quiet rounds it is looked whether a stream is open.
const STRANDED: u64 = 1_000;

/// How the last rounds ended.
#[derive(Clone, Copy, Debug, PartialEq, Eq)]
pub enum Rounds {
    /// Nothing is left to move, and no datagram is left unacknowledged.
    Done,
    /// So many datagrams aren't acknowledged. Where nothing is unwritten, no line owes a frame; where the hosts aren't connected, no
    /// stream is open between two of them.
    Unfinished {
        count: u64,
        unwritten: bool,
        connected: bool,
    },
    /// The line of one of these two hosts with the other has no stream left, and the two should have one.
    Fault {
        low: u8,
        high: u8,
    },
    /// The journal of this host with that peer has so many entries, and two more would pass its limit.
    Spent {
        host: u8,
        peer: u8,
        entries: u32,
    },
    /// Memory ran out.
    Memory,
}

/// Turns all lines in rounds: in each the two lines of each two hosts meet, have a turn each, and meet again. Where the first one's
/// turn ends the rounds, the second has none. Over ends that tell their bytes the rounds stop after an idle one that left nothing to be
/// written. Over others they stop once rounds were quiet and all is acknowledged, as many were quiet as the budget allows, or some were and no
/// stream is open. Where the
/// lines of several two hosts end them by a fault, a full journal or a lack of memory, the first in ascending order tells how. `lowest`
/// and `lowest_full` say so of faults and full journals: no line of two hosts that come before lacks a stream that they should have,
/// unless it took an order in the call, and the journal of none was full when the call began.
/// `wanted` has for each two hosts what is to be known of them, in the row of the lower one, at the place of the line between them.
pub fn last_rounds<W: Wire, R: Wait>(
    rt: &R,
    wire: &W,
    wanted: &[Vec<Wanted>],
    budget: u64,
    lines: &mut Lines<W::End>,
) -> Rounds
    requires { (limit hosts : ℕ) × AreHosts W.End.means limit hosts (rows_of lines.old.items) }
    ensures done { (limit hosts : ℕ) → AreHosts W.End.means limit hosts (rows_of lines.old.items) →
        AreDone W.End.means limit hosts (rows_of lines.new.items) }
    ensures rows { EachRow LinesGoOn (rows_of lines.old.items) (rows_of lines.new.items) }
    ensures quiet { IsQuietEnd result → All AreQuiet (rows_of lines.new.items) }
    ensures room { IsQuietEnd result → All HaveRoom (rows_of lines.new.items) }
    ensures left { IsQuietEnd result → AreLeftWell W.End.means.tells (rows_of wanted.now) (rows_of lines.new.items) }
    ensures drained { W.End.means.tells ≡ true → result ≡ ended.Done → AreDrainedLines (rows_of lines.new.items) }
    ensures acknowledged { result ≡ ended.Done → alive_in_rows (rows_of lines.new.items) ≡ 0 }
    ensures fault { (low high : ℕ) → result ≡ ended.Fault low high → (low < high) × (high < length lines.new.items) }
    ensures misses { (low high : ℕ) → result ≡ ended.Fault low high →
        HostsMissStream W.End.means.tells (rows_of wanted.now) low high (rows_of lines.new.items) }
    ensures lowest { (low high : ℕ) → result ≡ ended.Fault low high →
        NoneEndsBefore W.End.means.tells (rows_of wanted.now) low high (rows_of lines.old.items) (rows_of lines.new.items) }
    ensures unfinished { (count : ℕ) (unwritten connected : Bool) → result ≡ ended.Unfinished count unwritten connected →
        AreUnacked W.End.means.tells count (rows_of lines.new.items) }
    ensures owes { (count : ℕ) (connected : Bool) → result ≡ ended.Unfinished count false connected → All OweNothing (rows_of lines.new.items) }
    ensures closed { (count : ℕ) (unwritten : Bool) → result ≡ ended.Unfinished count unwritten false → All AreClosed (rows_of lines.new.items) }
    ensures spent { (host peer entries : ℕ) → result ≡ ended.Spent host peer entries → IsFullHost host peer entries (rows_of lines.new.items) }
    ensures lowest_full { (host peer entries : ℕ) → result ≡ ended.Spent host peer entries →
        NoneEndsBefore W.End.means.tells (rows_of wanted.now) (min host peer) (max host peer) (rows_of lines.old.items) (rows_of lines.new.items) }
{
    let mut quiet = 0u64;
    for _ in rt.forever() {
        let came = round_of_all(rt, wire, wanted, lines);
        quiet = quiet_after(came, quiet, lines);
        if let Some(end) = end_after(came, wire.tells(), quiet, budget, lines) {
            return end;
        }
        rest_after(came);
    }
    unreachable!()
}

// After a round in which nothing moved, other threads get their turn: those that read and write sockets.
fn rest_after(came: Round) {
    if came == Round::Idle {
        yield_now();
    }
}

// How many rounds in a row were quiet. After so many it is looked once whether a stream is open at all. Without one nothing comes any more,
// however long the rounds go on, so it is as if they had.
fn quiet_after<E: End>(came: Round, quiet: u64, lines: &Lines<E>) -> u64 {
    if came != Round::Idle {
        return 0;
    }
    if quiet == STRANDED && are_closed(lines) {
        return u64::MAX;
    }
    quiet.saturating_add(1)
}

// How the rounds end after this one, if they do.
fn end_after<E: End>(
    came: Round,
    tells: bool,
    quiet: u64,
    budget: u64,
    lines: &Lines<E>,
) -> Option<Rounds>
    requires { (hosts : ℕ) × (hosts ≤ MAX_HOSTS) × AreRows hosts (rows_of lines.now.items) }
    ensures fault { (low high : ℕ) → result ≡ Some (ended.Fault low high) → came ≡ round.Fault low high }
    ensures spent { (host peer entries : ℕ) → result ≡ Some (ended.Spent host peer entries) → came ≡ round.Spent host peer entries }
    ensures unfinished { (count : ℕ) (unwritten connected : Bool) → result ≡ Some (ended.Unfinished count unwritten connected) →
        AreUnacked tells count (rows_of lines.now.items) }
    ensures left { (count : ℕ) (connected : Bool) → result ≡ Some (ended.Unfinished count false connected) →
        All AreWritten (rows_of lines.now.items) }
    ensures closed { (count : ℕ) (unwritten : Bool) → result ≡ Some (ended.Unfinished count unwritten false) →
        All AreClosed (rows_of lines.now.items) }
    ensures quiet { (end : RoundsView) → result ≡ Some end → IsQuietEnd end → came ≡ round.Idle }
    ensures written { tells ≡ true → result ≡ Some ended.Done → All AreWritten (rows_of lines.now.items) }
    ensures acknowledged { tells ≡ false → result ≡ Some ended.Done → alive_in_rows (rows_of lines.now.items) ≡ 0 }
{
    match came {
        Round::Moved => None,
        Round::Idle => after_idle(tells, quiet, budget, lines),
        Round::Fault { low, high } => Some(Rounds::Fault { low, high }),
        Round::Spent {
            host,
            peer,
            entries,
        } => Some(Rounds::Spent {
            host,
            peer,
            entries,
        }),
        Round::Memory => Some(Rounds::Memory),
    }
}

// Whether the rounds stop after so many quiet ones.
fn after_idle<E: End>(tells: bool, quiet: u64, budget: u64, lines: &Lines<E>) -> Option<Rounds>
    requires { (hosts : ℕ) × (hosts ≤ MAX_HOSTS) × AreRows hosts (rows_of lines.now.items) }
    ensures unfinished { (count : ℕ) (unwritten connected : Bool) → result ≡ Some (ended.Unfinished count unwritten connected) →
        AreUnacked tells count (rows_of lines.now.items) }
    ensures left { (count : ℕ) (connected : Bool) → result ≡ Some (ended.Unfinished count false connected) →
        All AreWritten (rows_of lines.now.items) }
    ensures closed { (count : ℕ) (unwritten : Bool) → result ≡ Some (ended.Unfinished count unwritten false) →
        All AreClosed (rows_of lines.now.items) }
    ensures never_fault { (low high : ℕ) → result ≢ Some (ended.Fault low high) }
    ensures never_spent { (host peer entries : ℕ) → result ≢ Some (ended.Spent host peer entries) }
    ensures written { tells ≡ true → result ≡ Some ended.Done → All AreWritten (rows_of lines.now.items) }
    ensures acknowledged { tells ≡ false → result ≡ Some ended.Done → alive_in_rows (rows_of lines.now.items) ≡ 0 }
{
    if tells {
        return if are_written(lines) {
            Some(Rounds::Done)
        } else {
            None
        };
    }
    let count = unacked(lines);
    if count == 0 {
        return Some(Rounds::Done);
    }
    if quiet >= budget {
        return Some(Rounds::Unfinished {
            count,
            unwritten: !are_written(lines),
            connected: !are_closed(lines),
        });
    }
    None
}
