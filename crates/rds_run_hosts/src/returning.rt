//! Ends of streams that are of no more use.
ghost use Rattle.std.specs.Prelude.{◌≡◌, ◌-◌, ◌≤◌, length};
ghost use Rattle.rds_run_rounds.specs.Grid.{rows_of};
ghost use Rattle.rds_run_hosts.specs.Growing.{IsCount};
ghost use Rattle.rds_run_hosts.specs.Held.{ends_of_row, ends_prepared};

use crate::streams::Ends;
use rds_link::Wire;
use std::sync::Wait;

/// Gives every end of the streams of all hosts back to the wire.
pub(crate) fn give_back_rows<W: Wire, R: Wait>(rt: &R, wire: &mut W, rows: Vec<Vec<Ends<W::End>>>)
    ensures out { W.out wire.new ≡ W.out wire.old - ends_prepared (rows_of rows.items) }
    ensures faults { (W.counted wire.old).faults ≤ (W.counted wire.new).faults }
{
    for row in rows {
        give_back_row(rt, wire, row);
    }
}

/// Gives every end of a host's streams back to the wire.
pub(crate) fn give_back_row<W: Wire, R: Wait>(rt: &R, wire: &mut W, row: Vec<Ends<W::End>>)
    ensures out { W.out wire.new ≡ W.out wire.old - ends_of_row row.items }
    ensures faults { (W.counted wire.old).faults ≤ (W.counted wire.new).faults }
{
    for ends in row {
        give_back_ends(rt, wire, ends);
    }
}

/// Gives a host's ends of the streams to a peer back to the wire.
pub(crate) fn give_back_ends<W: Wire, R: Wait>(rt: &R, wire: &mut W, ends: Ends<W::End>)
    ensures out { W.out wire.new ≡ W.out wire.old - length ends.items }
    ensures faults { (W.counted wire.old).faults ≤ (W.counted wire.new).faults }
{
    for (_, end) in ends {
        give_back_end(rt, wire, end);
    }
}

// Gives an end back to the wire.
fn give_back_end<W: Wire, R: Wait>(rt: &R, wire: &mut W, end: W::End)
    ensures out { W.out wire.new ≡ W.out wire.old - 1 }
    ensures faults { (W.counted wire.old).faults ≤ (W.counted wire.new).faults }
{
    // Called for its promise alone: the count of faults is a number of 64 bits.
    faults_of(wire);
    wire.give_back(rt, end);
}

/// How many faults the wire has counted, which is a number of 64 bits.
pub(crate) fn faults_of<W: Wire>(wire: &W) -> u64
    ensures value { result ≡ (W.counted wire.now).faults }
    ensures fits { IsCount (W.counted wire.now).faults }
{
    wire.counts().faults
}
