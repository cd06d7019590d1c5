//! The ends of lines that are of no more use.
ghost use Rattle.std.specs.Prelude.{◌≡◌, ◌-◌};
ghost use Rattle.rds_host_end.specs.Risen.{StaysRisen};
ghost use Rattle.rds_host.specs.Held.{ends_in, ends_of_all};
ghost use Rattle.rds_run_rounds.specs.Grid.{rows_of};

use rds_fmap::Writer;
use rds_host_end::end_line;
use rds_line::Line;
use rds_link::Wire;
use rds_run_rounds::Lines;
use std::sync::Wait;

/// Gives every end of the lines of all hosts back to the wire.
pub(crate) fn end_lines<W: Wire, R: Wait>(rt: &R, wire: &mut W, lines: Lines<W::End>)
    ensures out { W.out wire.new ≡ W.out wire.old - ends_of_all (rows_of lines.items) }
    ensures risen { StaysRisen (W.counted wire.old).faults (W.counted wire.new).faults }
{
    for row in lines {
        end_row(rt, wire, row);
    }
}

/// Gives every end of a host's lines back to the wire.
pub(crate) fn end_row<W: Wire, R: Wait>(rt: &R, wire: &mut W, row: Vec<Line<W::End, Writer>>)
    ensures out { W.out wire.new ≡ W.out wire.old - ends_in row.items }
    ensures risen { StaysRisen (W.counted wire.old).faults (W.counted wire.new).faults }
{
    for line in row {
        end_line(rt, wire, line);
    }
}
