//! What is left of the hosts of a run.
ghost use Rattle.std.specs.Prelude.{◌≡◌, ◌≤◌, ◌-◌, ◌∷◌, ◌++◌, [], ℕ, List, All, IfOk, Ok, OnOk, Some, length, slice_get, true};
ghost use Rattle.rds_text.specs.declared.host.TheConstants.{MAX_HOSTS};
ghost use Rattle.rds_host.specs.Held.{ends_in, ends_of_all};
ghost use Rattle.rds_text.specs.declared.final_state.HostEnd.{HostEnd as EndView};
ghost use Rattle.rds_text.specs.Hosts.{address_of};
ghost use Rattle.rds_text.specs.FinalViews.{AreFinalHosts, host_views};
ghost use Rattle.rds_run_rounds.specs.Causes.{AreClosed, HaveRoom, OweNothing, alive_in_rows};
ghost use Rattle.rds_run_rounds.specs.Done.{AreDone};
ghost use Rattle.rds_run_rounds.specs.Drained.{AreDrainedLines};
ghost use Rattle.rds_run_rounds.specs.Grid.{rows_of};
ghost use Rattle.rds_run_callers.specs.Places.{CallerView, IsUsed, Place};
ghost use Rattle.rds_run_settling.specs.Tied.{AreSlotsTold, AreTied, PlacesHear, holdings};
ghost use Rattle.rds_script.specs.declared.script.Placed.{Placed};
ghost use Rattle.rds_run_threads.specs.Causes.{alive_in_ends};
ghost use Rattle.rds_run_threads.specs.Counted.{EndsOweNothing, HaveAllUsedUp};
ghost use Rattle.rds_run_threads.specs.Cuts.{AreCutsOfEnds};
ghost use Rattle.rds_run_threads.specs.Ends.{AreAcknowledged, AreEnds, AreSettledHosts, NoneFull};
ghost use Rattle.rds_run_threads.specs.Known.{AreOpenOrUsed};
ghost use Rattle.rds_run_threads.specs.Taking.{HaveTied};
ghost use Rattle.rds_run_threads.specs.Settled.{AreLeftOf, HasEnded, HasHeard, HasSettled, HaveDoneSpared, HaveEnded, HaveHeardBelow, HaveSettled, IsLeftOf};

use crate::giving::{end_lines, end_row};
use rds_beside::map_vec;
use rds_fmap::{Reader, Writer};
use rds_host_end::gather;
use rds_line::Line;
use rds_link::{End, Wire};
use rds_model::laws::accounted_of_all;
use rds_run_callers::Caller;
use rds_run_rounds::Lines;
use rds_run_settling::laws::tied_ends;
use rds_run_settling::settle_slots;
use rds_socket::Closed;
use rds_text::{HostEnd, Kept, address};
use rds_wire::Memory;
use std::alloc::Global;
use std::sync::Wait;
use std::thread::Threads;

// What the sockets of a host have, and the ends of its slots.
type Left = (Vec<Kept>, Vec<Closed<Reader>>);

/// What is left of all hosts, once all that waits at open sockets is received. Every end is given back, after a memory error too.
pub(crate) fn host_ends<W: Wire, R: Threads + Wait + Sync>(
    rt: &R,
    alloc: Global,
    wire: &mut W,
    callers: Vec<Caller>,
    lines: Lines<W::End>,
) -> Result<Vec<HostEnd>, Memory>
    requires done { (limit hosts : ℕ) × AreDone W.End.means limit hosts (rows_of lines.items) }
    requires settled { HaveSettled callers.items (rows_of lines.items) }
    ensures ends { (limit hosts : ℕ) (commands : List Placed) → AreDone W.End.means limit hosts (rows_of lines.items) →
        HaveDoneSpared hosts commands callers.items (rows_of lines.items) → IfOk result (λ ends. AreEnds W.End.means.tells hosts commands (host_views ends.items)) }
    ensures cut { (limit hosts : ℕ) (commands : List Placed) → AreDone W.End.means limit hosts (rows_of lines.items) →
        HaveDoneSpared hosts commands callers.items (rows_of lines.items) → AreOpenOrUsed commands (rows_of lines.items) →
        IfOk result (λ ends. AreCutsOfEnds commands (host_views ends.items)) }
    ensures hosts { IfOk result (λ ends. AreFinalHosts (host_views ends.items)) }
    ensures settled { (limit hosts : ℕ) (commands : List Placed) → AreDone W.End.means limit hosts (rows_of lines.items) →
        HaveDoneSpared hosts commands callers.items (rows_of lines.items) → W.End.means.tells ≡ true → AreDrainedLines (rows_of lines.items) →
        IfOk result (λ ends. AreSettledHosts (host_views ends.items)) }
    ensures acknowledged { (limit hosts : ℕ) (commands : List Placed) → AreDone W.End.means limit hosts (rows_of lines.items) →
        HaveDoneSpared hosts commands callers.items (rows_of lines.items) → alive_in_rows (rows_of lines.items) ≡ 0 →
        IfOk result (λ ends. AreAcknowledged (host_views ends.items)) }
    ensures alive { IfOk result (λ ends. alive_in_ends (host_views ends.items) ≡ alive_in_rows (rows_of lines.items)) }
    ensures room { (limit hosts : ℕ) → AreDone W.End.means limit hosts (rows_of lines.items) → All HaveRoom (rows_of lines.items) →
        IfOk result (λ ends. NoneFull limit (host_views ends.items)) }
    ensures owe { All OweNothing (rows_of lines.items) → IfOk result (λ ends. EndsOweNothing (host_views ends.items)) }
    ensures used { (commands : List Placed) → All AreClosed (rows_of lines.items) → AreOpenOrUsed commands (rows_of lines.items) →
        IfOk result (λ ends. HaveAllUsedUp commands (host_views ends.items)) }
    ensures out { W.out wire.new ≡ W.out wire.old - ends_of_all (rows_of lines.items) }
{
    accounted_of_all();
    all_ends(rt, alloc, wire, callers, lines)
}

// What is left of each host, in order. The sockets of all hosts receive what waits at them beside one another. After a memory error all
// hosts are ended still.
fn all_ends<W: Wire, R: Threads + Wait + Sync>(
    rt: &R,
    alloc: Global,
    wire: &mut W,
    mut callers: Vec<Caller>,
    mut lines: Lines<W::End>,
) -> Result<Vec<HostEnd>, Memory>
    requires few { length lines.items ≤ MAX_HOSTS }
    requires settled { HaveSettled callers.items (rows_of lines.items) }
    ensures left { IfOk result (λ ends. AreLeftOf callers.items (rows_of lines.items) ends.items) }
    ensures out { W.out wire.new ≡ W.out wire.old - ends_of_all (rows_of lines.items) }
{
    tell_all_slots(&mut callers, &mut lines);
    let Ok(left) = end_beside(rt, alloc, callers) else {
        end_lines(rt, wire, lines);
        return Err(Memory);
    };
    gather_all(rt, alloc, wire, left, lines)
}

// Tells the mailboxes of the slots of each host all datagrams that its lines have put there.
fn tell_all_slots<E: End>(callers: &mut Vec<Caller>, lines: &mut Lines<E>)
    requires { HaveSettled callers.old.items (rows_of lines.old.items) }
    ensures heard { HaveHeardBelow (length callers.old.items) callers.old.items callers.new.items (rows_of lines.old.items) }
    ensures lines { rows_of lines.new.items ≡ rows_of lines.old.items }
{
    for host in 0..callers.len() {
        tell_slots(&mut callers[host], &mut lines[host]);
    }
}

// Tells the mailbox of each slot of a host all datagrams that its lines have put there.
fn tell_slots<E: End>(caller: &mut Caller, lines: &mut Vec<Line<E, Writer>>)
    requires tied { AreTied caller.old.places lines.old.items }
    requires used { (slot : ℕ) (p : Place) → slice_get caller.old.places slot ≡ Some p → IsUsed p }
    ensures places { PlacesHear caller.old.places caller.new.places }
    ensures told { AreSlotsTold (holdings caller.new.places) lines.new.items }
    ensures lines { lines.new.items ≡ lines.old.items }
    ensures tied { AreTied caller.new.places lines.new.items }
{
    settle_slots(caller, lines);
}

// What is left of the slots of each host, in order, each by a thread of its own.
fn end_beside<R: Threads + Wait + Sync>(
    rt: &R,
    alloc: Global,
    callers: Vec<Caller>,
) -> Result<Vec<Result<Left, Memory>>, Memory>
    ensures { IfOk result (λ left. HaveEnded callers.items left.items) }
{
    let end = |caller: Caller| -> Result<Left, Memory>
        ensures { IfOk result (HasEnded caller.places) }
    { caller.end(rt, alloc) };
    let left = map_vec(rt, callers, &end)?;
    Ok(left)
}

// What is left of each host whose slots have ended, in order. After a memory error all hosts that are left are ended still.
fn gather_all<W: Wire, R: Wait>(
    rt: &R,
    alloc: Global,
    wire: &mut W,
    left: Vec<Result<Left, Memory>>,
    lines: Lines<W::End>,
) -> Result<Vec<HostEnd>, Memory>
    requires few { length lines.items ≤ MAX_HOSTS }
    requires ended { (told : List CallerView) × HaveTied told (rows_of lines.items) × HaveEnded told left.items }
    ensures left { (callers told : List CallerView) → HaveSettled callers (rows_of lines.items) →
        HaveHeardBelow (length callers) callers told (rows_of lines.items) → HaveEnded told left.items →
        IfOk result (λ ends. AreLeftOf callers (rows_of lines.items) ends.items) }
    ensures out { W.out wire.new ≡ W.out wire.old - ends_of_all (rows_of lines.items) }
{
    let mut ends = Vec::new(alloc);
    let mut all: Result<(), Memory> = Ok(());
    let mut host = 0u8;
    for (slots, row) in left.into_iter().zip(lines) {
        let end = host_end(rt, alloc, wire, address(host), slots, row);
        all = all.and(add(&mut ends, end));
        host += 1;
    }
    all?;
    Ok(ends)
}

// Adds what is left of one more host, if there was memory for it.
fn add(ends: &mut Vec<HostEnd>, end: Result<HostEnd, Memory>) -> Result<(), Memory>
    ensures { OnOk result ((one : EndView) × (end ≡ Ok one) × (ends.new.items ≡ ends.old.items ++ one ∷ [])) }
{
    ends.push(end?)?;
    Ok(())
}

// What is left of a host whose slots have ended. Every end of its lines is given back, after a memory error too.
fn host_end<W: Wire, R: Wait>(
    rt: &R,
    alloc: Global,
    wire: &mut W,
    addr: u32,
    slots: Result<Left, Memory>,
    lines: Vec<Line<W::End, Writer>>,
) -> Result<HostEnd, Memory>
    requires { (told : List Place) × AreTied told lines.items × IfOk slots (HasEnded told) }
    ensures left { (host : ℕ) (places told : List Place) → addr ≡ address_of host → HasSettled places lines.items →
        HasHeard places told lines.items → IfOk slots (HasEnded told) → IfOk result (IsLeftOf host places lines.items) }
    ensures out { W.out wire.new ≡ W.out wire.old - ends_in lines.items }
{
    let Ok((kept, closed)) = slots else {
        end_row(rt, wire, lines);
        return Err(Memory);
    };
    tied_ends::<W::End>();
    gather(rt, alloc, wire, addr, kept, closed, lines)
}
