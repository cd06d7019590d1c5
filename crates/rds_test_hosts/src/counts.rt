//! What a line holds of a host's meter.
ghost use Rattle.std.specs.Prelude.{◌≡◌, ◌+◌, ◌≤◌, ℕ, nat_le, Some, IfOk};
ghost use Rattle.std.specs.Arc.{arc_value};
ghost use Rattle.rds_meter.specs.Places.{part};
ghost use Rattle.rds_meter.specs.Seats.{newcomer, first_view};

use rds_meter::{Meter, MeterSeat};
use rds_wire::Memory;
use std::alloc::Global;
use std::sync::Arc;

/// The slot of a host's only socket.
const SLOT: u16 = 0;

/// As many bytes as one seat may add to a word.
const MOST_OF_A_SEAT: u64 = 1 << 52;

/// Counts the bytes that reached a host's socket, and those of its own that the peer has acknowledged.
pub struct LineCounts {
    meter: Arc<Meter>,
    seat: MeterSeat,
    // How many bytes it has added to all words.
    added: u64,
    ghost tied: { seat.table ≡ arc_value meter },
    ghost bounded: { (word : ℕ) → part word seat.view.steps ≤ added },
}

// By hand, so that one call drops it wherever it is let go, and no function that owns one drops each field.
impl Drop for LineCounts {
    fn drop(self) {
        let Self {
            meter: _meter,
            seat: _seat,
            added: _,
        } = self;
    }
}

impl LineCounts {
    ghost use Rattle.rds_test_hosts.specs.declared.counts.TheConstants.{MOST_OF_A_SEAT};

    /// A new meter with one slot, the seat that owns it, and the line's counts.
    pub(crate) fn new(alloc: Global) -> Result<(Arc<Meter>, MeterSeat, LineCounts), Memory>
        ensures table { IfOk result (λ r. r.1.table ≡ arc_value r.0) }
        ensures slot { IfOk result (λ r. r.1.slot ≡ Some 0) }
        ensures seat { IfOk result (λ r. r.1.view ≡ newcomer (first_view 1)) }
    {
        let (meter, mut seat) = Meter::new(alloc, 1)?;
        let mut own = meter.split(&mut seat);
        meter.own(&mut own, SLOT);
        let meter = Arc::new(alloc, meter)?;
        let counts = LineCounts {
            meter: Arc::try_clone(&meter)?,
            seat,
            added: 0,
        };
        Ok((meter, own, counts))
    }

    /// Counts bytes that were put into the socket's mailbox.
    pub fn count_put(&mut self, bytes: u32) {
        if self.has_room(bytes) {
            self.meter.put_add(&mut self.seat, SLOT, bytes);
            self.added += u64::from(bytes);
        }
    }

    /// Counts bytes of the socket that its peer has acknowledged.
    pub fn count_freed(&mut self, bytes: u32) {
        if self.has_room(bytes) {
            self.meter.free_add(&mut self.seat, SLOT, bytes);
            self.added += u64::from(bytes);
        }
    }

    // Whether the seat may add so many bytes.
    fn has_room(&self, bytes: u32) -> bool
        ensures { result ≡ nat_le (self.now.added + bytes) MOST_OF_A_SEAT }
    {
        self.added <= MOST_OF_A_SEAT - u64::from(bytes)
    }
}
