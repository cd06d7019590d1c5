//! A run.
ghost use Rattle.std.specs.Prelude.{◌≡◌, ◌≤◌, ◌-◌, ℕ, List, IfOk, OnErr, length, true};
ghost use Rattle.rds_link.specs.Seen.{sink_seen};
ghost use Rattle.rds_model.specs.declared.journal.TheConstants.{MAX_ENTRIES, MIN_ENTRIES};
ghost use Rattle.rds_script.specs.Script.{IsScript};
ghost use Rattle.rds_run_rounds.specs.Connection.{AreHosts};
ghost use Rattle.rds_run_rounds.specs.Grid.{rows_of};
ghost use Rattle.rds_script.specs.declared.script.Placed.{Placed};
ghost use Rattle.rds_host.specs.Held.{ends_of_all};
ghost use Rattle.rds_run_threads.specs.Begun.{BeginsAtFault};
ghost use Rattle.rds_run_threads.specs.Counted.{IsCountedEnd};
ghost use Rattle.rds_run_threads.specs.Cuts.{IsCutEnd};
ghost use Rattle.rds_run_threads.specs.Ends.{IsEndOfRun};
ghost use Rattle.rds_run_threads.specs.Known.{AreKnownOf};
ghost use Rattle.rds_run_threads.specs.Settled.{AreToldBelow, HaveDoneLed, IsToldOf};
ghost use Rattle.rds_run_hosts.specs.Parties.{AreParties};
ghost use Rattle.rds_run_hosts.specs.Preparing.{HaveCounted};
ghost use Rattle.rds_run_settling.specs.Tied.{AreTied};

use crate::ending::end_run;
use crate::form::{Form, RunEnd};
use crate::giving::end_lines;
use rds_fmap::Writer;
use rds_line::Line;
use rds_link::{End, Gate, Sink, Start, Wire};
use rds_run_callers::Caller;
use rds_run_hosts::laws::counted_keeps;
use rds_run_hosts::{Prepared, give_streams, parties, play, prepare};
use rds_run_rounds::laws::connected_keeps;
use rds_run_rounds::{Lines, Wanted, last_rounds};
use rds_run_settling::laws::tied_keeps;
use rds_run_settling::settle_lines;
use rds_script::Script;
use rds_wire::Memory;
use std::alloc::Global;
use std::net::Net;
use std::sync::Wait;
use std::thread::Threads;

/// Runs a script over the wire: a caller for each host does its commands beside a worker for each of its lines. Then all lines turn
/// until nothing moves any more, all that waits at open sockets is received, every end is given back to the wire, and the text of
/// this form is written to the sink. Before each command its caller asks the gate. A journal is full where two more entries would
/// pass `limit`. Over ends that don't tell their bytes, the last rounds stop after `budget` quiet ones.
pub fn run<K: Sink, W: Wire, G: Gate + Sync, R: Threads + Wait + Net + Sync>(
    rt: &R,
    alloc: Global,
    script: &Script,
    wire: &mut W,
    gate: &G,
    form: Form,
    limit: u32,
    budget: u64,
    sink: &mut K,
) -> RunEnd
where
    W::End: Send,
    requires script { IsScript script.now }
    requires least { MIN_ENTRIES ≤ limit }
    requires most { limit ≤ MAX_ENTRIES }
    ensures end { IsEndOfRun form W.End.means.tells limit script.now.hosts script.now.commands.items
        (sink_seen K.held K.faults sink.old sink.new)
        result }
    ensures counted { IsCountedEnd W.End.means.tells (W.may_fail wire.old) budget script.now.commands.items
        (W.counted wire.old)
        (W.counted wire.new) result }
    ensures cut { IsCutEnd script.now.commands.items (W.counted wire.old).faults (W.counted wire.new).faults result }
    // Where the sink failed, it took a beginning of what the run had to write at an end that the wire's counts tell of, and of cuts as well.
    ensures begun { BeginsAtFault form W.End.means.tells limit script.now.hosts script.now.commands.items
        (IsCountedEnd W.End.means.tells (W.may_fail wire.old) budget script.now.commands.items
        (W.counted wire.old)
        (W.counted wire.new))
        (W.counted wire.old).faults (W.counted wire.new).faults (K.held sink.old) (K.held sink.new) result }
    ensures given_back { W.out wire.new ≤ W.out wire.old }
{
    match ended(rt, alloc, script, wire, gate, form, limit, budget, sink) {
        Ok(end) => end,
        Err(Memory) => RunEnd::Memory,
    }
}

// How a run ends.
fn ended<K: Sink, W: Wire, G: Gate + Sync, R: Threads + Wait + Net + Sync>(
    rt: &R,
    alloc: Global,
    script: &Script,
    wire: &mut W,
    gate: &G,
    form: Form,
    limit: u32,
    budget: u64,
    sink: &mut K,
) -> Result<RunEnd, Memory>
where
    W::End: Send,
    requires script { IsScript script.now }
    requires least { MIN_ENTRIES ≤ limit }
    requires most { limit ≤ MAX_ENTRIES }
    ensures end { IfOk result (IsEndOfRun form W.End.means.tells limit script.now.hosts script.now.commands.items
        (sink_seen K.held K.faults sink.old sink.new)) }
    ensures counted { IfOk result (IsCountedEnd W.End.means.tells (W.may_fail wire.old) budget script.now.commands.items
        (W.counted wire.old)
        (W.counted wire.new)) }
    ensures cut { IfOk result (IsCutEnd script.now.commands.items (W.counted wire.old).faults (W.counted wire.new).faults) }
    ensures begun { IfOk result (BeginsAtFault form W.End.means.tells limit script.now.hosts script.now.commands.items
        (IsCountedEnd W.End.means.tells (W.may_fail wire.old) budget script.now.commands.items
        (W.counted wire.old)
        (W.counted wire.new))
        (W.counted wire.old).faults (W.counted wire.new).faults (K.held sink.old) (K.held sink.new)) }
    ensures memory { OnErr result (K.held sink.new ≡ K.held sink.old) }
    ensures out { W.out wire.new ≤ W.out wire.old }
{
    let start = Start::of(wire, budget);
    let (callers, mut lines) = parties(rt, alloc, script, limit)?;
    let Prepared { streams, wanted } = prepare(rt, alloc, wire, script)?;
    give_streams(&mut lines, streams);
    let (callers, lines) = play(rt, alloc, script, gate, callers, lines);
    let Ok(callers) = callers else {
        end_lines(rt, wire, lines);
        return Err(Memory);
    };
    let wanted = wanted.as_slice();
    finish(rt, alloc, wire, form, wanted, start, callers, lines, sink)
}

// What a run comes to whose callers have done their commands.
fn finish<K: Sink, W: Wire, R: Threads + Wait + Sync>(
    rt: &R,
    alloc: Global,
    wire: &mut W,
    form: Form,
    wanted: &[Vec<Wanted>],
    start: Start,
    mut callers: Vec<Caller>,
    mut lines: Lines<W::End>,
    sink: &mut K,
) -> Result<RunEnd, Memory>
    requires hosts { (limit hosts : ℕ) × AreHosts W.End.means limit hosts (rows_of lines.items) }
    requires parties { (hosts : ℕ) × (2 ≤ hosts) × AreParties hosts callers.items (rows_of lines.items) }
    ensures end { (limit hosts : ℕ) (commands : List Placed) (before after : ℕ) → AreHosts W.End.means limit hosts (rows_of lines.items) →
        HaveDoneLed hosts commands callers.items (rows_of lines.items) → HaveCounted commands before after (rows_of lines.items) →
        AreKnownOf (rows_of wanted.now) commands (rows_of lines.items) → IfOk result (IsEndOfRun form W.End.means.tells limit hosts commands
        (sink_seen K.held K.faults sink.old sink.new)) }
    ensures counted { (commands : List Placed) → AreKnownOf (rows_of wanted.now) commands (rows_of lines.items) →
        IfOk result (IsCountedEnd W.End.means.tells (start.can_fail ≡ true) start.budget commands start.counts
        (W.counted wire.new)) }
    ensures cut { (limit hosts : ℕ) (commands : List Placed) → AreHosts W.End.means limit hosts (rows_of lines.items) →
        HaveDoneLed hosts commands callers.items (rows_of lines.items) → HaveCounted commands start.counts.faults (W.counted wire.old).faults (rows_of lines.items) →
        AreKnownOf (rows_of wanted.now) commands (rows_of lines.items) → IfOk result (IsCutEnd commands start.counts.faults (W.counted wire.new).faults) }
    ensures begun { (limit hosts : ℕ) (commands : List Placed) → AreHosts W.End.means limit hosts (rows_of lines.items) →
        HaveDoneLed hosts commands callers.items (rows_of lines.items) → HaveCounted commands start.counts.faults (W.counted wire.old).faults (rows_of lines.items) →
        AreKnownOf (rows_of wanted.now) commands (rows_of lines.items) → IfOk result (BeginsAtFault form W.End.means.tells limit hosts commands
        (IsCountedEnd W.End.means.tells (start.can_fail ≡ true) start.budget commands start.counts
        (W.counted wire.new))
        start.counts.faults (W.counted wire.new).faults (K.held sink.old) (K.held sink.new)) }
    ensures memory { OnErr result (K.held sink.new ≡ K.held sink.old) }
    ensures out { W.out wire.new ≡ W.out wire.old - ends_of_all (rows_of lines.items) }
{
    tell_all(&mut callers, &mut lines);
    connected_keeps::<W::End>();
    counted_keeps::<W::End>();
    tied_keeps::<W::End>();
    let end = last_rounds(rt, wire, wanted, start.budget, &mut lines);
    end_run(rt, alloc, wire, form, start, end, callers, lines, sink)
}

// Gives up the slots of all hosts that no socket had, and tells the lines of each host all orders that its slots have put.
fn tell_all<E: End>(callers: &mut Vec<Caller>, lines: &mut Lines<E>)
    requires { (hosts : ℕ) × AreParties hosts callers.old.items (rows_of lines.old.items) }
    ensures { AreToldBelow (length callers.old.items) callers.old.items callers.new.items (rows_of lines.old.items) (rows_of lines.new.items) }
{
    for host in 0..callers.len() {
        tell_lines(&mut callers[host], &mut lines[host]);
    }
}

// Gives up the slots of a host that no socket had, and tells its lines all orders that its slots have put.
fn tell_lines<E: End>(caller: &mut Caller, lines: &mut Vec<Line<E, Writer>>)
    requires { AreTied caller.old.places lines.old.items }
    ensures { IsToldOf caller.old.places caller.new.places lines.old.items lines.new.items }
{
    settle_lines(caller, lines);
}
