//! How a run ends, and what is written then.
ghost use Rattle.std.specs.Prelude.{◌≡◌, ◌<◌, ◌-◌, ◌^◌, ℕ, Bool, List, All, IfOk, OnErr, length, true, false};
ghost use Rattle.rds_link.specs.Seen.{sink_seen};
ghost use Rattle.rds_host.specs.Held.{ends_of_all};
ghost use Rattle.rds_run_hosts.specs.Preparing.{HaveCounted};
ghost use Rattle.rds_run_rounds.specs.Causes.{AreClosed, AreUnacked, HaveRoom, OweNothing, alive_in_rows};
ghost use Rattle.rds_run_rounds.specs.Connection.{IsFullHost};
ghost use Rattle.rds_run_rounds.specs.Done.{AreDone};
ghost use Rattle.rds_run_rounds.specs.Drained.{AreDrainedLines};
ghost use Rattle.rds_run_rounds.specs.Grid.{rows_of};
ghost use Rattle.rds_run_rounds.specs.Quiet.{IsQuietEnd};
ghost use Rattle.rds_run_rounds.specs.declared.rounds.Rounds.TheVariants as rounds;
ghost use Rattle.rds_script.specs.declared.script.Placed.{Placed};
ghost use Rattle.rds_run_threads.specs.Begun.{BeginsAtFault};
ghost use Rattle.rds_run_threads.specs.Counted.{IsCountedEnd};
ghost use Rattle.rds_run_threads.specs.Cuts.{IsCutEnd};
ghost use Rattle.rds_run_threads.specs.Ends.{IsEndOfRun};
ghost use Rattle.rds_run_threads.specs.Known.{AreOpenOrUsed, MissAtFault};
ghost use Rattle.rds_run_threads.specs.Settled.{HaveDoneSpared, HaveSettled};
ghost use Rattle.rds_run_threads.specs.Taking.{HaveSameStreams, HaveTied};

use crate::answers::{end_by_fault, end_by_report, end_by_spent, end_unfinished};
use crate::form::{Form, RunEnd};
use crate::giving::end_lines;
use crate::leaving::host_ends;
use crate::taking::journals;
use rds_link::{Sink, Start, Wire};
use rds_run_callers::Caller;
use rds_run_rounds::{Lines, Rounds};
use rds_wire::Memory;
use std::alloc::Global;
use std::sync::Wait;
use std::thread::Threads;

/// Writes what a run that ended so has to write.
pub(crate) fn end_run<K: Sink, W: Wire, R: Threads + Wait + Sync>(
    rt: &R,
    alloc: Global,
    wire: &mut W,
    form: Form,
    start: Start,
    end: Rounds,
    callers: Vec<Caller>,
    lines: Lines<W::End>,
    sink: &mut K,
) -> Result<RunEnd, Memory>
    requires done { (limit hosts : ℕ) × AreDone W.End.means limit hosts (rows_of lines.items) }
    requires tied { HaveTied callers.items (rows_of lines.items) }
    requires settled { IsQuietEnd end → HaveSettled callers.items (rows_of lines.items) }
    requires room { IsQuietEnd end → All HaveRoom (rows_of lines.items) }
    requires drained { W.End.means.tells ≡ true → end ≡ rounds.Done → AreDrainedLines (rows_of lines.items) }
    requires acknowledged { end ≡ rounds.Done → alive_in_rows (rows_of lines.items) ≡ 0 }
    requires fault { (low high : ℕ) → end ≡ rounds.Fault low high → (low < high) × (high < length lines.items) }
    requires streams { HaveSameStreams (rows_of lines.items) }
    requires unacked { (count : ℕ) (unwritten connected : Bool) → end ≡ rounds.Unfinished count unwritten connected →
        AreUnacked W.End.means.tells count (rows_of lines.items) }
    requires owe { (count : ℕ) (connected : Bool) → end ≡ rounds.Unfinished count false connected → All OweNothing (rows_of lines.items) }
    requires closed { (count : ℕ) (unwritten : Bool) → end ≡ rounds.Unfinished count unwritten false → All AreClosed (rows_of lines.items) }
    requires spent { (host peer entries : ℕ) → end ≡ rounds.Spent host peer entries → IsFullHost host peer entries (rows_of lines.items) }
    ensures end { (limit hosts : ℕ) (commands : List Placed) (before after : ℕ) → AreDone W.End.means limit hosts (rows_of lines.items) →
        HaveDoneSpared hosts commands callers.items (rows_of lines.items) → HaveCounted commands before after (rows_of lines.items) →
        MissAtFault W.End.means.tells commands end (rows_of lines.items) → IfOk result (IsEndOfRun form W.End.means.tells limit hosts commands
        (sink_seen K.held K.faults sink.old sink.new)) }
    ensures counted { (commands : List Placed) → (IsQuietEnd end → AreOpenOrUsed commands (rows_of lines.items)) →
        IfOk result (IsCountedEnd W.End.means.tells (start.can_fail ≡ true) start.budget commands start.counts
        (W.counted wire.new)) }
    ensures cut { (limit hosts : ℕ) (commands : List Placed) (before : ℕ) → AreDone W.End.means limit hosts (rows_of lines.items) →
        HaveDoneSpared hosts commands callers.items (rows_of lines.items) → HaveCounted commands before (W.counted wire.old).faults (rows_of lines.items) →
        MissAtFault W.End.means.tells commands end (rows_of lines.items) →
        (IsQuietEnd end → AreOpenOrUsed commands (rows_of lines.items)) → before < 2 ^ 64 → IfOk result (IsCutEnd commands before (W.counted wire.new).faults) }
    ensures begun { (limit hosts : ℕ) (commands : List Placed) (before : ℕ) → AreDone W.End.means limit hosts (rows_of lines.items) →
        HaveDoneSpared hosts commands callers.items (rows_of lines.items) → HaveCounted commands before (W.counted wire.old).faults (rows_of lines.items) →
        MissAtFault W.End.means.tells commands end (rows_of lines.items) →
        (IsQuietEnd end → AreOpenOrUsed commands (rows_of lines.items)) → before < 2 ^ 64 →
        IfOk result (BeginsAtFault form W.End.means.tells limit hosts commands
        (IsCountedEnd W.End.means.tells (start.can_fail ≡ true) start.budget commands start.counts
        (W.counted wire.new))
        before (W.counted wire.new).faults (K.held sink.old) (K.held sink.new)) }
    ensures memory { OnErr result (K.held sink.new ≡ K.held sink.old) }
    ensures out { W.out wire.new ≡ W.out wire.old - ends_of_all (rows_of lines.items) }
{
    match end {
        Rounds::Done => {
            let ends = host_ends(rt, alloc, wire, callers, lines)?;
            end_by_report(rt, alloc, form, ends, sink)
        }
        Rounds::Unfinished {
            count,
            unwritten,
            connected,
        } => {
            let ends = host_ends(rt, alloc, wire, callers, lines)?;
            if !start.has_waited(unwritten, connected, wire.counts()) {
                return Err(Memory);
            }
            end_unfinished(alloc, count, ends, sink)
        }
        Rounds::Fault { low, high } => {
            let (one, other) = journals(rt, alloc, wire, callers, lines, low, high)?;
            if !start.has_faulted(wire.tells(), wire.counts()) {
                return Err(Memory);
            }
            end_by_fault(alloc, low, high, one, other, sink)
        }
        Rounds::Spent {
            host,
            peer,
            entries,
        } => {
            let (own, other) = journals(rt, alloc, wire, callers, lines, host, peer)?;
            end_by_spent(alloc, host, peer, entries, own, other, sink)
        }
        Rounds::Memory => {
            end_lines(rt, wire, lines);
            Err(Memory)
        }
    }
}
