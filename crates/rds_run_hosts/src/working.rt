//! The workers of a run: one for each line.
ghost use Rattle.std.specs.Prelude.{◌≡◌, ◌∷◌, [], length};
ghost use Rattle.rds_host.specs.Lines.{AreTurned, pair_of};
ghost use Rattle.rds_line.specs.Stays.{LineStays};
ghost use Rattle.rds_run_rounds.specs.Grid.{EachRow, rows_of};

use core::mem::replace_with;
use rds_beside::for_each_mut;
use rds_fmap::Writer;
use rds_host::{Stop, work};
use rds_line::Line;
use rds_link::End;
use rds_run_rounds::Lines;
use std::alloc::Global;
use std::sync::Wait;
use std::thread;
use std::thread::Threads;

/// The workers of all lines. Those of a host are made by a thread of its own. They end some time after the flag is set.
pub(crate) fn work_all<E: End + Send, R: Threads + Wait + Sync>(
    rt: &R,
    alloc: Global,
    mut lines: Lines<E>,
    stop: &Stop,
) -> Lines<E>
    ensures { EachRow (AreTurned E.means pair_of) (rows_of lines.items) (rows_of result.items) }
{
    let turn = |_host: usize, row: &mut Vec<Line<E, Writer>>|
        ensures { AreTurned E.means pair_of row.entry.now.items row.exit.now.items }
    { work_row(rt, alloc, row, stop) };
    for_each_mut(rt, &mut lines, &turn);
    lines
}

// A worker for each line of a host, beside the others: it turns the line until the flag is set and no worker finds anything to do.
fn work_row<E: End + Send, R: Threads + Wait + Sync>(
    rt: &R,
    alloc: Global,
    row: &mut Vec<Line<E, Writer>>,
    stop: &Stop,
)
    ensures { AreTurned E.means pair_of row.old.items row.new.items }
{
    let threads = row.len().max(1);
    let turn = |_place: usize, line: &mut Line<E, Writer>|
        ensures { LineStays E.means pair_of line.entry.now line.exit.now }
    { replace_with(line, (rt, alloc, stop), worked) };
    thread::for_each_mut(rt, row, threads, &turn);
}

// The line once its worker has ended. Where there is no memory for its list it has one turn, and the last rounds do the rest.
fn worked<E: End, R: Wait>(
    line: Line<E, Writer>,
    with: (&R, Global, &Stop),
) -> (Line<E, Writer>, ())
    ensures { LineStays E.means pair_of line result.0 }
{
    let (rt, alloc, stop) = with;
    let mut list = Vec::new(alloc);
    match list.push(line) {
        Ok(()) => (only(work(rt, list, stop)), ()),
        Err(refused) => (turned(rt, refused.value), ()),
    }
}

// The line of a list of one.
fn only<E: End>(mut list: Vec<Line<E, Writer>>) -> Line<E, Writer>
    requires { length list.items ≡ 1 }
    ensures { list.items ≡ result ∷ [] }
{
    let Some(line) = list.pop() else {
        unreachable!()
    };
    line
}

// The line after a turn.
fn turned<E: End, R: Wait>(rt: &R, mut line: Line<E, Writer>) -> Line<E, Writer>
    ensures { LineStays E.means pair_of line result }
{
    line.turn(rt);
    line
}
