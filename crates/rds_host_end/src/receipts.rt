//! The joins of the mailboxes of a host's slots.
ghost use Rattle.std.specs.Prelude.{◌≡◌, ◌++◌, IfOk, OnOk, Option, drop, map};
ghost use Rattle.std.specs.Option.{option_to_list};
ghost use Rattle.rds_host_end.specs.Joins.{IsFrom, sender_in};
ghost use Rattle.rds_host_end.specs.Columns.{AtEachPlace, column, rows_left};
ghost use Rattle.rds_host_end.specs.Shown.{ArePuttersOf, ShowsAllPuts};

use crate::join_receipts;
use rds_line_parts::SlotBox;
use rds_mail::PutPass;
use rds_model::Datagram;
use rds_socket_parts::Inbox;
use rds_wire::Memory;
use std::alloc::Global;
use std::sync::Wait;
use std::vec::IntoIter;

/// Joins the putters of each slot's mailbox into its getter. The putters of each line stand in the order of the slots.
pub(crate) fn join_all_receipts<R: Wait>(
    rt: &R,
    alloc: Global,
    inboxes: Vec<Inbox>,
    boxes: &mut [IntoIter<SlotBox>],
) -> Result<(), Memory>
    requires putters { AtEachPlace ArePuttersOf (map (λ b. b.get) inboxes.items) (rows_left boxes.old) }
    ensures shown { OnOk result (AtEachPlace (ShowsAllPuts sender_in IsFrom) (map (λ b. b.get) inboxes.items) (rows_left boxes.old)) }
{
    for own in inboxes {
        let passes = next_passes(alloc, boxes)?;
        join_slot(rt, own, passes);
    }
    Ok(())
}

// Takes the next putter of each line.
fn next_passes(
    alloc: Global,
    boxes: &mut [IntoIter<SlotBox>],
) -> Result<Vec<PutPass<Datagram>>, Memory>
    ensures next { IfOk result (λ passes. passes.items ≡ column 0 (rows_left boxes.old)) }
    ensures left { OnOk result (rows_left boxes.new ≡ map (drop 1) (rows_left boxes.old)) }
{
    let mut passes = Vec::with_capacity(alloc, boxes.len())?;
    for i in 0..boxes.len() {
        let held = boxes[i].next();
        add_pass(&mut passes, held)?;
    }
    Ok(passes)
}

// Adds the putter at a mailbox, if there is one.
fn add_pass(passes: &mut Vec<PutPass<Datagram>>, held: Option<SlotBox>) -> Result<(), Memory>
    ensures { OnOk result (passes.new.items ≡ passes.old.items ++ option_to_list held) }
{
    if let Some(held) = held {
        let (_mail, pass) = held.into_parts();
        passes.push(pass)?;
    }
    Ok(())
}

// Joins all putters of a slot's mailbox into its getter. A host without lines has no putter.
fn join_slot<R: Wait>(rt: &R, own: Inbox, passes: Vec<PutPass<Datagram>>)
    requires putters { ArePuttersOf own.get passes.items }
    ensures shown { ShowsAllPuts sender_in IsFrom own.get passes.items }
{
    if passes.is_empty() {
        return;
    }
    let (mail, mut get) = own.into_parts();
    join_receipts(rt, &mail, &mut get, passes);
}
