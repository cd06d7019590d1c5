//! The journals of two hosts' lines to each other, taken out of all that hosts have.
ghost use Rattle.std.specs.Prelude.{◌≡◌, ◌≢◌, ◌<◌, ◌-◌, ℕ, IfOk, Ok, OnOk, Some, length, slice_get};
ghost use Rattle.rds_fmap.specs.Readers.{WriterView};
ghost use Rattle.rds_line.specs.Line.{LineView};
ghost use Rattle.rds_host.specs.Held.{ends_in, ends_of_all};
ghost use Rattle.rds_run_callers.specs.Places.{CallerView};
ghost use Rattle.rds_host_end.specs.Grounded.{AreMapsGrounded};
ghost use Rattle.rds_host_end.specs.Risen.{StaysRisen};
ghost use Rattle.rds_run_rounds.specs.Done.{AreDone};
ghost use Rattle.rds_run_rounds.specs.Grid.{rows_of};
ghost use Rattle.rds_run_settling.specs.Tied.{AreTied, holdings};
ghost use Rattle.rds_run_threads.specs.Taking.{HasOrders, HasOrdersAt, HaveTied, IsGroundedAt, IsJournalOf, IsJournalOfLine};

use crate::giving::{end_lines, end_row};
use rds_fmap::Writer;
use rds_host_end::gather;
use rds_line::Line;
use rds_link::Wire;
use rds_model::Journal;
use rds_run_callers::Caller;
use rds_run_rounds::Lines;
use rds_run_settling::laws::tied_ends;
use rds_text::address;
use rds_wire::Memory;
use std::alloc::Global;
use std::sync::Wait;

// Ends a host, and answers the journal of its line at a place. Every end of its lines is given back, after a memory error too.
fn end_host<W: Wire, R: Wait>(
    rt: &R,
    alloc: Global,
    wire: &mut W,
    addr: u32,
    caller: Caller,
    lines: Vec<Line<W::End, Writer>>,
    place: usize,
) -> Result<Journal, Memory>
    requires place { place < length lines.items }
    requires tied { AreTied caller.places lines.items }
    ensures journal { (line : LineView W.End WriterView) → slice_get lines.items place ≡ Some line →
        IfOk result (λ journal. IsJournalOfLine line journal.past) }
    ensures orders { IfOk result (λ journal. HasOrdersAt place caller.places journal.past) }
    ensures grounded { OnOk result (AreMapsGrounded (holdings caller.places) lines.items) }
    ensures risen { StaysRisen (W.counted wire.old).faults (W.counted wire.new).faults }
    ensures out { W.out wire.new ≡ W.out wire.old - ends_in lines.items }
{
    let line = &lines[place];
    line.known();
    // A journal never has more entries than its limit.
    let _ = line.journal().len();
    let Ok((kept, closed)) = caller.end(rt, alloc) else {
        end_row(rt, wire, lines);
        return Err(Memory);
    };
    tied_ends::<W::End>();
    let mut end = gather(rt, alloc, wire, addr, kept, closed, lines)?;
    let (_, journal) = end.journals.swap_remove(place);
    Ok(journal)
}

// Both of two journals, unless memory ran out for one.
fn both(
    own: Result<Journal, Memory>,
    other: Result<Journal, Memory>,
) -> Result<(Journal, Journal), Memory>
    ensures own { IfOk result (λ journals. own ≡ Ok journals.0) }
    ensures other { IfOk result (λ journals. other ≡ Ok journals.1) }
{
    Ok((own?, other?))
}

// The journals of two hosts' lines to each other, the lower host first.
fn low_and_high<W: Wire, R: Wait>(
    rt: &R,
    alloc: Global,
    wire: &mut W,
    mut callers: Vec<Caller>,
    mut lines: Lines<W::End>,
    low: u8,
    high: u8,
) -> Result<(Journal, Journal), Memory>
    requires done { (limit hosts : ℕ) × AreDone W.End.means limit hosts (rows_of lines.items) }
    requires tied { HaveTied callers.items (rows_of lines.items) }
    requires ordered { low < high }
    requires known { high < length lines.items }
    ensures low { IfOk result (λ journals. IsJournalOf (rows_of lines.items) low high journals.0.past) }
    ensures high { IfOk result (λ journals. IsJournalOf (rows_of lines.items) high low journals.1.past) }
    ensures low_orders { (caller : CallerView) → slice_get callers.items low ≡ Some caller →
        IfOk result (λ journals. HasOrders low high caller.places journals.0.past) }
    ensures high_orders { (caller : CallerView) → slice_get callers.items high ≡ Some caller →
        IfOk result (λ journals. HasOrders high low caller.places journals.1.past) }
    ensures low_grounded { OnOk result (IsGroundedAt callers.items (rows_of lines.items) low) }
    ensures high_grounded { OnOk result (IsGroundedAt callers.items (rows_of lines.items) high) }
    ensures risen { StaysRisen (W.counted wire.old).faults (W.counted wire.new).faults }
    ensures out { W.out wire.new ≡ W.out wire.old - ends_of_all (rows_of lines.items) }
{
    let one = usize::from(low);
    let two = usize::from(high);
    let caller = callers.swap_remove(two);
    let row = lines.swap_remove(two);
    let other = end_host(rt, alloc, wire, address(high), caller, row, one);
    let caller = callers.swap_remove(one);
    let row = lines.swap_remove(one);
    let own = end_host(rt, alloc, wire, address(low), caller, row, two - 1);
    end_lines(rt, wire, lines);
    both(own, other)
}

/// The journals of two hosts' lines to each other: that of `host`, and that of `peer`. Every end of all lines is given back, after a memory
/// error too.
pub(crate) fn journals<W: Wire, R: Wait>(
    rt: &R,
    alloc: Global,
    wire: &mut W,
    callers: Vec<Caller>,
    lines: Lines<W::End>,
    host: u8,
    peer: u8,
) -> Result<(Journal, Journal), Memory>
    requires done { (limit hosts : ℕ) × AreDone W.End.means limit hosts (rows_of lines.items) }
    requires tied { HaveTied callers.items (rows_of lines.items) }
    requires host { host < length lines.items }
    requires peer { peer < length lines.items }
    requires apart { peer ≢ host }
    ensures own { IfOk result (λ journals. IsJournalOf (rows_of lines.items) host peer journals.0.past) }
    ensures other { IfOk result (λ journals. IsJournalOf (rows_of lines.items) peer host journals.1.past) }
    ensures own_orders { (caller : CallerView) → slice_get callers.items host ≡ Some caller →
        IfOk result (λ journals. HasOrders host peer caller.places journals.0.past) }
    ensures other_orders { (caller : CallerView) → slice_get callers.items peer ≡ Some caller →
        IfOk result (λ journals. HasOrders peer host caller.places journals.1.past) }
    ensures own_grounded { OnOk result (IsGroundedAt callers.items (rows_of lines.items) host) }
    ensures other_grounded { OnOk result (IsGroundedAt callers.items (rows_of lines.items) peer) }
    ensures risen { StaysRisen (W.counted wire.old).faults (W.counted wire.new).faults }
    ensures out { W.out wire.new ≡ W.out wire.old - ends_of_all (rows_of lines.items) }
{
    if host < peer {
        return low_and_high(rt, alloc, wire, callers, lines, host, peer);
    }
    let (other, own) = low_and_high(rt, alloc, wire, callers, lines, peer, host)?;
    Ok((own, other))
}
