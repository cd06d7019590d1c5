//! What is left of a host, taken apart and told beside its journals.
ghost use Rattle.std.specs.Prelude.{◌≡◌, ◌-◌, IfOk, OnOk, map};
ghost use Rattle.rds_text.specs.FinalViews.{side_view};
ghost use Rattle.rds_host.specs.Held.{ends_in};
ghost use Rattle.rds_host.specs.Passes.{AreAllPasses};
ghost use Rattle.rds_host.specs.Ties.{AreOfHost};
ghost use Rattle.rds_host_end.specs.Cuts.{AreCutsOfSlots};
ghost use Rattle.rds_host_end.specs.Grounded.{AreMapsGrounded};
ghost use Rattle.rds_host_end.specs.Joined.{AreJoined, AreLooksOfJournals};
ghost use Rattle.rds_host_end.specs.Owned.{AreFound, AreOwned};
ghost use Rattle.rds_host_end.specs.Risen.{StaysRisen};
ghost use Rattle.rds_host_end.specs.Sides.{line_side};

use crate::grounds::find_grounds;
use crate::lines::take_lines;
use crate::orders::join_all_orders;
use crate::owners::find_owners;
use crate::receipts::join_all_receipts;
use crate::slots::take_slots;
use rds_fmap::{Reader, Writer};
use rds_line::Line;
use rds_link::Wire;
use rds_socket::Closed;
use rds_text::{HostEnd, Kept};
use rds_wire::Memory;
use std::alloc::Global;
use std::sync::Wait;

/// Takes the slots and the lines of a host apart, gives every end back to the wire, joins all putters of each order queue and of
/// each mailbox into its getter, all readers of each map into its writer and all seats at the meter into one, tells the slots' seats
/// at the port table what the lines looked up there, and answers the journals beside what was kept.
///
/// # Errors
///
/// Where there is no memory for the lists of what is left. All ends are given back then too.
pub fn gather<W: Wire, R: Wait>(
    rt: &R,
    alloc: Global,
    wire: &mut W,
    addr: u32,
    kept: Vec<Kept>,
    closed: Vec<Closed<Reader>>,
    lines: Vec<Line<W::End, Writer>>,
) -> Result<HostEnd, Memory>
    requires host { AreOfHost closed.items lines.items }
    requires passes { AreAllPasses closed.items lines.items }
    ensures addr { IfOk result (λ end. end.addr ≡ addr) }
    ensures journals { IfOk result (λ end. map side_view end.journals.items ≡ map line_side lines.items) }
    ensures kept { IfOk result (λ end. end.kept ≡ kept) }
    ensures joined { OnOk result (AreJoined closed.items lines.items) }
    ensures looks { OnOk result (AreLooksOfJournals closed.items lines.items) }
    ensures owned { OnOk result (AreOwned closed.items lines.items) }
    ensures found { OnOk result (AreFound closed.items lines.items) }
    ensures grounded { OnOk result (AreMapsGrounded closed.items lines.items) }
    ensures cut { OnOk result (AreCutsOfSlots closed.items lines.items) }
    ensures risen { StaysRisen (W.counted wire.old).faults (W.counted wire.new).faults }
    ensures out { W.out wire.new ≡ W.out wire.old - ends_in lines.items }
{
    let mut left = take_lines(rt, alloc, wire, lines)?;
    let mut slots = take_slots(alloc, closed)?;
    find_owners(left.ports, slots.ports);
    find_grounds(slots.words, left.words)?;
    join_all_orders(rt, alloc, left.orders, &mut slots.routes)?;
    join_all_receipts(rt, alloc, slots.inboxes, &mut left.boxes)?;
    Ok(HostEnd {
        addr,
        journals: left.journals,
        kept,
    })
}
