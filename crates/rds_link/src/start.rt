//! What is known of a wire when a run begins, and what its later counts show.
ghost use Rattle.std.specs.Prelude.{◌≡◌, ◌↔◌, true};
ghost use Rattle.rds_link.specs.Streaming.{HasRisen, HasRisenBy};

use crate::{Wire, WireCounts};

/// What is known of a wire before a run, and how many quiet rounds the run waits.
#[derive(Clone, Copy, Debug, PartialEq, Eq)]
pub struct Start {
    /// What the wire had counted.
    pub counts: WireCounts,
    /// Whether an opening of the wire, or a call of one of its ends, can fail.
    pub can_fail: bool,
    /// How many answers `Nothing` the run waits for before it gives up.
    pub budget: u64,
}

impl Start {
    /// What is known of the wire now.
    pub fn of<W: Wire>(wire: &W, budget: u64) -> Start
        ensures counts { result.counts ≡ W.counted wire.now }
        ensures can_fail { result.can_fail ≡ true ↔ W.may_fail wire.now }
        ensures budget { result.budget ≡ budget }
    {
        Start {
            counts: wire.counts(),
            can_fail: wire.can_fail(),
            budget,
        }
    }

    /// Whether the wire, which has counted so much now, can fail and had faults enough for two hosts to lack a stream: at least three
    /// where its ends tell their bytes, since each two hosts have three streams more than cuts.
    pub fn has_faulted(self, tells: bool, now: WireCounts) -> bool
        ensures { result ≡ true ↔ (self.can_fail ≡ true) × HasRisen self.counts.faults now.faults
            × (tells ≡ true → HasRisenBy 3 self.counts.faults now.faults) }
    {
        let least = if tells { 3 } else { 1 };
        self.can_fail && has_risen_by(least, self.counts.faults, now.faults)
    }

    /// Whether the wire, which has counted so much now, kept the hosts waiting for the whole budget: where bytes are unwritten, an end
    /// had no room, and where hosts are connected, ends had nothing to give.
    pub fn has_waited(self, unwritten: bool, connected: bool, now: WireCounts) -> bool
        ensures { result ≡ true ↔ (unwritten ≡ true → HasRisen self.counts.fulls now.fulls)
            × (connected ≡ true → HasRisenBy self.budget self.counts.nothings now.nothings) }
    {
        let was_full = !unwritten || has_risen_by(1, self.counts.fulls, now.fulls);
        let was_idle = !connected || has_risen_by(self.budget, self.counts.nothings, now.nothings);
        was_full && was_idle
    }
}

// Whether a count rose by at least so many. One that stands at its last value counts as risen.
fn has_risen_by(least: u64, old: u64, new: u64) -> bool
    ensures { result ≡ true ↔ HasRisenBy least old new }
{
    new == u64::MAX || (old <= new && least <= new - old)
}
