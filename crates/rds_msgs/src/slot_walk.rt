ghost use Rattle.std.specs.Prelude.{◌≡◌, ◌≤◌, ◌+◌, None, cond, length, IfSome, OnOk, [], ◌∷◌, ◌++◌};
ghost use Rattle.rds_msgs_lists.specs.Lists.{IsOn};
ghost use Rattle.rds_msgs.specs.Messages.{after_cancel, bytes_of, covered_messages, messages_from, message_numbers};
ghost use Rattle.rds_msgs.specs.Kept.{HasSlot, IsKept, seen, messages_at};

use crate::Steps;
use crate::items::{bytes, message};
use crate::marks::take_off;
use crate::slots::{has_slot, list_of};
use rds_model::{Msg, Target};
use rds_msgs_lists::{Index, Lists};
use rds_wire::Memory;
use std::sync::ledger::Ledger;

/// The first of the messages that a cancellation left that isn't pulled, and how many bytes it took.
#[derive(Drop)]
pub(crate) struct Withdrawn {
    pub(crate) mark: Option<Index>,
    pub(crate) bytes: u64,
}

/// Takes out what a cancellation by a slot takes. It visits the messages of the slot alone.
pub(crate) fn withdraw<L: Ledger>(
    lists: &mut Lists,
    items: &[Msg],
    mark: Option<Index>,
    slots: u16,
    slot: u16,
    target: Target,
    steps: &mut Steps<L>,
) -> Withdrawn
    requires kept { IsKept lists.old items.now mark slots }
    requires slot { HasSlot slots slot }
    ensures kept { IsKept lists.new items.now result.mark slots }
    ensures left { seen lists.new items.now result.mark slots ≡ after_cancel slot target (seen lists.old items.now mark slots) }
    ensures bytes { result.bytes ≡ bytes_of (covered_messages slot target (messages_at items.now lists.old.places)) }
    ensures fewer { length lists.new.places ≤ length lists.old.places }
    ensures cost { steps.new ≤ steps.old + length (messages_from slot (messages_at items.now lists.old.places)) + 1 }
{
    steps.tick();
    let mut left = Withdrawn { mark, bytes: 0 };
    let mut next = lists.first_of(list_of(slots, slot));
    while let Some(at) = next {
        steps.tick();
        next = lists.after_of(at);
        let m = message(items, at);
        if target.covers(m.dport) {
            left.bytes += bytes(m);
            left.mark = take_off(lists, left.mark, at);
        }
    }
    left
}

/// Adds the numbers of what such a cancellation would take.
pub(crate) fn push_covered(
    lists: &Lists,
    items: &[Msg],
    slots: u16,
    slot: u16,
    target: Target,
    out: &mut Vec<u64>,
) -> Result<(), Memory>
    requires kept { IsKept lists.now items.now None slots }
    ensures ok { OnOk result (out.new.items ≡ out.old.items ++ message_numbers (covered_messages slot target (messages_at items.now lists.now.places))) }
{
    if !has_slot(slots, slot) {
        return Ok(());
    }
    let mut next = lists.first_of(list_of(slots, slot));
    while let Some(at) = next {
        let behind = lists.after_of(at);
        let m = message(items, at);
        push_where(out, m.num, target.covers(m.dport))?;
        next = behind;
    }
    Ok(())
}

/// Adds a number where it is wanted.
fn push_where(out: &mut Vec<u64>, number: u64, wanted: bool) -> Result<(), Memory>
    ensures ok { OnOk result (out.new.items ≡ out.old.items ++ cond wanted (number ∷ []) []) }
{
    if wanted {
        out.push(number)?;
    }
    Ok(())
}
