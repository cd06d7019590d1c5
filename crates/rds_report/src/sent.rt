//! The items of what a host sent.
ghost use Rattle.std.specs.Prelude.{◌≡◌, ◌++◌, ℕ, Bool, Ok, List, OnOk, false, length, option_copied, take, true};
ghost use Rattle.rds_model.specs.Past.{accepted};
ghost use Rattle.rds_report.specs.Item.{Item as Piece};
ghost use Rattle.rds_report.specs.Items.{acceptance_items, acceptance_pair, accepted_items, flags, has_cancellation, is_cancellation as cancels, is_lost, past_in, sent_items};

use crate::flags::flag;
use crate::item::{Group, Item, What};
use crate::lost::lost;
use rds_model::{Entry, Journal};
use rds_wire::Memory;
use std::alloc::Global;

/// The items of what a host sent, by its journal and that of the peer. A journal without cancellations is walked once.
pub fn add_sent(
    alloc: Global,
    items: &mut Vec<Item<'_>>,
    from: u32,
    to: u32,
    journal: &Journal,
    back: Option<&Journal>,
) -> Result<(), Memory>
    ensures { OnOk result (items.new.items ≡ items.old.items ++ sent_items from to
        (is_lost journal.now.past (past_in (option_copied back.entry))) journal.now.past) }
{
    let before = items.len();
    let is_whole = add_unless_cancelled(items, from, to, journal)?;
    if is_whole {
        return Ok(());
    }
    items.truncate(before);
    let lost = lost(alloc, journal, back)?;
    add_acceptances(items, from, to, journal, &lost)
}

// The items of what a host sent, as long as nothing was taken back, and whether its journal has no cancellation.
fn add_unless_cancelled(
    items: &mut Vec<Item<'_>>,
    from: u32,
    to: u32,
    journal: &Journal,
) -> Result<bool, Memory>
    ensures whole { result ≡ Ok true → (has_cancellation journal.now.past ≡ false) ×
        (items.new.items ≡ items.old.items ++ sent_items from to (λ n. false) journal.now.past) }
    ensures broken { result ≡ Ok false → (has_cancellation journal.now.past ≡ true) ×
        (take (length items.old.items) items.new.items ≡ items.old.items) }
{
    for entry in journal.entries() {
        if is_cancellation(entry) {
            return Ok(false);
        }
        add_acceptance(items, from, to, entry)?;
    }
    Ok(true)
}

// Whether an entry is a cancellation.
fn is_cancellation(entry: &Entry) -> bool
    ensures { result ≡ cancels entry.now }
{
    matches!(entry, Entry::Cancel { .. })
}

// The item of an entry, where it is an acceptance, which isn't lost.
fn add_acceptance(
    items: &mut Vec<Item<'_>>,
    from: u32,
    to: u32,
    entry: &Entry,
) -> Result<(), Memory>
    ensures { OnOk result (items.new.items ≡ items.old.items ++ acceptance_items from to entry.now) }
{
    if let Some(group) = accepted_group(entry, from, to) {
        add_accepted(items, group, false)?;
    }
    Ok(())
}

// The items of what a host sent, where such numbers are lost, counted from 1.
fn add_acceptances(
    items: &mut Vec<Item<'_>>,
    from: u32,
    to: u32,
    journal: &Journal,
    lost: &[bool],
) -> Result<(), Memory>
    ensures { (test : ℕ → Bool) → lost.now ≡ flags test (accepted journal.now.past) →
        OnOk result (items.new.items ≡ items.old.items ++ sent_items from to test journal.now.past) }
{
    let mut n = 0u32;
    for entry in journal.entries() {
        if let Some(group) = accepted_group(entry, from, to) {
            add_accepted(items, group, flag(lost, n))?;
            n += 1;
        }
    }
    Ok(())
}

// The group of an entry, where it is an acceptance.
fn accepted_group(entry: &Entry, from: u32, to: u32) -> Option<Group>
    ensures { result ≡ acceptance_pair from to entry.now }
{
    match entry {
        Entry::Accept { sport, dport, .. } => Some(Group {
            to,
            dport: *dport,
            from,
            sport: *sport,
        }),
        _ => None,
    }
}

// The items of an acceptance, which is lost or not.
fn add_accepted(items: &mut Vec<Item<'_>>, group: Group, is_lost: bool) -> Result<(), Memory>
    ensures { OnOk result (items.new.items ≡ items.old.items ++ accepted_items group.from group.to group.sport group.dport is_lost) }
{
    items.push(Item {
        group,
        what: What::Accepted,
    })?;
    if is_lost {
        items.push(Item {
            group,
            what: What::Cancelled,
        })?;
    }
    Ok(())
}
