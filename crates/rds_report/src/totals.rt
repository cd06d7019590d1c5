ghost use Rattle.std.specs.Prelude.{◌≡◌, ◌+◌, ◌*◌, ◌^◌, ◌≤◌, ◌<◌, [], length};
ghost use Rattle.rds_report.specs.ItemReport.{IsUp, tally};
ghost use Rattle.rds_report.specs.Summary.{plus as together};
ghost use Rattle.rds_report.specs.ItemTotals.{bytes_of, count_all, grouped, payload_bytes, seen_counts, with_accepted};

use crate::counts::Counts;
use crate::grouping::first_run;
use crate::item::{Item, What};

/// What the items of some groups come to: how many there are of each kind, and how many payload bytes were received.
#[derive(Clone, Copy)]
pub struct Totals {
    pub counts: Counts,
    pub bytes: u128,
}

impl Totals {
    /// The totals of items, which stand in the order of their groups. A group without an accepted item is left out.
    pub fn of(items: &[Item<'_>]) -> Totals
        requires up { IsUp items.now }
        ensures counts { seen_counts result.counts ≡ tally (grouped items.now) }
        ensures bytes { result.bytes ≡ bytes_of (grouped items.now) }
        ensures few { count_all (seen_counts result.counts) ≤ length items.now }
        ensures small { result.bytes ≤ length items.now * 2 ^ 32 }
    {
        let mut totals = Totals::none();
        let mut rest = items;
        while let Some((_group, run)) = first_run(rest) {
            totals = totals.plus(run);
            rest = &rest[run.len()..];
        }
        totals
    }

    /// The totals of no items.
    pub fn none() -> Totals
        ensures counts { seen_counts result.counts ≡ tally [] }
        ensures bytes { result.bytes ≡ 0 }
    {
        Totals {
            counts: Counts::none(),
            bytes: 0,
        }
    }

    /// These totals and others together.
    pub fn with(self, more: Totals) -> Totals
        requires counts { count_all (seen_counts self.counts) + count_all (seen_counts more.counts) < 2 ^ 128 }
        requires bytes { self.bytes + more.bytes < 2 ^ 128 }
        ensures counts { seen_counts result.counts ≡ together (seen_counts self.counts) (seen_counts more.counts) }
        ensures bytes { result.bytes ≡ self.bytes + more.bytes }
    {
        Totals {
            counts: self.counts.plus(more.counts),
            bytes: self.bytes + more.bytes,
        }
    }

    // With the items of one more group, unless none was accepted.
    fn plus(self, items: &[Item<'_>]) -> Totals
        requires counts { count_all (seen_counts self.counts) + length items.now < 2 ^ 128 }
        requires bytes { self.bytes + length items.now * 2 ^ 32 < 2 ^ 128 }
        ensures counts { seen_counts result.counts ≡ together (seen_counts self.counts) (tally (with_accepted items.now)) }
        ensures bytes { result.bytes ≡ self.bytes + bytes_of (with_accepted items.now) }
        ensures limit { result.bytes ≤ self.bytes + length items.now * 2 ^ 32 }
    {
        let counts = Counts::of(items);
        if counts.accepted == 0 {
            return self;
        }
        Totals {
            counts: self.counts.plus(counts),
            bytes: self.bytes + received_bytes(items),
        }
    }
}

// How many payload bytes were received.
fn received_bytes(items: &[Item<'_>]) -> u128
    ensures bytes { result ≡ bytes_of items.now }
    ensures limit { result ≤ length items.now * 2 ^ 32 }
{
    let mut bytes = 0u128;
    for item in items {
        bytes += u128::from(received_length(item));
    }
    bytes
}

fn received_length(item: &Item<'_>) -> u32
    ensures { result ≡ payload_bytes item.now.what }
{
    match &item.what {
        What::Received(payload) => payload.len(),
        _ => 0,
    }
}
