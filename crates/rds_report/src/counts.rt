ghost use Rattle.std.specs.Prelude.{◌≡◌, ◌-◌, ◌+◌, ◌^◌, ◌<◌, [], ◌∷◌, length};
ghost use Rattle.rds_report.specs.ItemReport.{count_of, is_accepted, is_received, is_unread, is_dropped, is_port0, is_cancelled_item, tally};
ghost use Rattle.rds_report.specs.Summary.{plus as together};
ghost use Rattle.rds_report.specs.ItemTotals.{count_all, seen_counts};

use crate::item::{Item, What};

/// How many of a group's items are of each kind.
#[derive(Clone, Copy)]
pub struct Counts {
    pub accepted: u128,
    pub received: u128,
    pub unread: u128,
    pub dropped: u128,
    pub port0: u128,
    pub cancelled: u128,
}

impl Counts {
    /// Counts the items of a group.
    pub fn of(items: &[Item<'_>]) -> Counts
        ensures accepted { result.accepted ≡ count_of is_accepted items.now }
        ensures received { result.received ≡ count_of is_received items.now }
        ensures unread { result.unread ≡ count_of is_unread items.now }
        ensures dropped { result.dropped ≡ count_of is_dropped items.now }
        ensures port0 { result.port0 ≡ count_of is_port0 items.now }
        ensures cancelled { result.cancelled ≡ count_of is_cancelled_item items.now }
        ensures all { count_all (seen_counts result) ≡ length items.now }
    {
        let mut counts = Counts::none();
        for item in items {
            counts.add(item);
        }
        counts
    }

    // One more item.
    fn add(&mut self, item: &Item<'_>)
        requires { count_all (seen_counts self.old) + 1 < 2 ^ 128 }
        ensures { seen_counts self.new ≡ together (seen_counts self.old) (tally (item.now ∷ [])) }
    {
        match &item.what {
            What::Accepted => self.accepted += 1,
            What::Received(_) => self.received += 1,
            What::Unread => self.unread += 1,
            What::Dropped => self.dropped += 1,
            What::Port0 => self.port0 += 1,
            What::Cancelled => self.cancelled += 1,
        }
    }

    /// No item was counted yet.
    pub fn none() -> Counts
        ensures { seen_counts result ≡ tally [] }
    {
        Counts {
            accepted: 0,
            received: 0,
            unread: 0,
            dropped: 0,
            port0: 0,
            cancelled: 0,
        }
    }

    /// The counts of the items of both.
    pub fn plus(self, more: Counts) -> Counts
        requires { count_all (seen_counts self) + count_all (seen_counts more) < 2 ^ 128 }
        ensures { seen_counts result ≡ together (seen_counts self) (seen_counts more) }
    {
        Counts {
            accepted: self.accepted + more.accepted,
            received: self.received + more.received,
            unread: self.unread + more.unread,
            dropped: self.dropped + more.dropped,
            port0: self.port0 + more.port0,
            cancelled: self.cancelled + more.cancelled,
        }
    }

    /// The accepted datagrams that are in none of the other counts.
    pub fn pending(&self) -> u128
        ensures { result ≡ self.now.accepted - (self.now.received + self.now.unread + self.now.dropped + self.now.port0 + self.now.cancelled) }
    {
        self.accepted
            .saturating_sub(self.received)
            .saturating_sub(self.unread)
            .saturating_sub(self.dropped)
            .saturating_sub(self.port0)
            .saturating_sub(self.cancelled)
    }
}
