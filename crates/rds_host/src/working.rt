//! The worker of lines of a host.
ghost use Rattle.rds_host.specs.Lines.{AreTurned, pair_of};

use crate::resting::{Idle, rest};
use crate::stop::Stop;
use rds_fmap::Writer;
use rds_line::{Line, Turn};
use rds_link::End;
use std::sync::Wait;

/// Turns each line in order, round after round, until the stop flag is set, no line moved for a while, and before the last round every
/// worker with this flag had found nothing to do: a worker that still finds something may have bytes for these lines yet. After a round
/// in which no line moved this worker rests. The lines come back in the same order.
pub fn work<E: End, R: Wait>(
    rt: &R,
    mut lines: Vec<Line<E, Writer>>,
    stop: &Stop,
) -> Vec<Line<E, Writer>>
    ensures { AreTurned E.means pair_of lines.items result.items }
{
    let mut idle = Idle::new();
    stop.begin();
    for _ in rt.forever() {
        let is_told = stop.is_set();
        let others_rest = stop.is_quiet();
        let moved = turn_all(rt, &mut lines);
        if !moved && is_told && others_rest && idle.is_long() {
            break;
        }
        rest(rt, &lines, moved, stop, is_told, &mut idle);
    }
    lines
}

// Turns each line once, and answers whether one moved.
fn turn_all<E: End, R: Wait>(rt: &R, lines: &mut [Line<E, Writer>]) -> bool
    ensures { AreTurned E.means pair_of lines.old lines.new }
{
    let mut moved = false;
    for i in 0..lines.len() {
        let line = &mut lines[i];
        moved |= line.turn(rt) == Turn::Moved;
    }
    moved
}
