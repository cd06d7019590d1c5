//! The steps of a slot on the meter.
ghost use Rattle.std.specs.Prelude.{◌≡◌, ◌<◌, ◌≤◌, ℕ, Some};
ghost use Rattle.rds_model.specs.declared.entry.TheConstants.{MAX_SLOTS};
ghost use Rattle.std.specs.Arc.{arc_value};
ghost use Rattle.rds_meter.specs.Places.{freed_word, taken_word, part};
ghost use Rattle.rds_meter.specs.Seats.{after_load, after_store};
ghost use Rattle.rds_socket_parts.specs.Words.{purse_with, after_taking, after_relief, after_clearing, IsReceipt};

use rds_meter::{Mark, Meter, MeterSeat};
use std::marker::Model;
use std::sync::Arc;

/// As many bytes as one seat may add to a word.
const MOST_OF_A_SEAT: u64 = 4503599627370496;

/// A slot's seat at the meter, beside the meter. Contracts see the slot and the seat.
#[derive(Drop)]
pub struct Words {
    meter: Arc<Meter>,
    seat: MeterSeat,
    slot: u16,
    // What the seat has added to the slot's taken word.
    added: u64,
}

impl Model for Words {
    ghost use Rattle.std.specs.Prelude.{◌≡◌, ◌<◌, ◌≤◌, Some};
    ghost use Rattle.rds_model.specs.declared.entry.TheConstants.{MAX_SLOTS};
    ghost use Rattle.std.specs.Arc.{arc_value};
    ghost use Rattle.rds_meter.specs.Places.{taken_word, part};
    ghost use Rattle.rds_socket_parts.specs.Words.{Purse};

    ghost Value = { Purse };

    ghost view = { λ w. record { slot = w.slot; seat = w.seat } };

    ghost invariant = { λ w. (w.seat.table ≡ arc_value w.meter) × (w.seat.slot ≡ Some w.slot) × (w.slot < MAX_SLOTS) × (w.added ≡ part (taken_word w.slot) w.seat.view.steps) × (w.added ≤ 4503599627370496) };
}

impl Words {
    /// The seat of a slot that has taken nothing yet, with its meter.
    pub fn new(meter: Arc<Meter>, seat: MeterSeat, slot: u16) -> Words
        requires table { seat.table ≡ arc_value meter }
        requires slot { (seat.slot ≡ Some slot) × (slot < MAX_SLOTS) }
        requires part { part (taken_word slot) seat.view.steps ≡ 0 }
        ensures { result ≡ record { slot = slot; seat = seat } }
    {
        Words {
            meter,
            seat,
            slot,
            added: 0,
        }
    }

    /// The meter and the seat.
    pub fn into_parts(self) -> (Arc<Meter>, MeterSeat)
        ensures seat { result.1 ≡ self.seat }
        ensures table { self.seat.table ≡ arc_value result.0 }
    {
        let Words { meter, seat, .. } = self;
        (meter, seat)
    }

    /// The slot.
    pub fn slot(&self) -> u16
        ensures slot { result ≡ self.now.slot }
        ensures small { result < MAX_SLOTS }
    {
        self.slot
    }

    /// Sets the slot's receive limit.
    pub fn set_limit(&mut self, limit: u32)
        ensures { self.new ≡ purse_with self.old (after_store self.old.seat.view self.old.slot limit) }
    {
        self.meter.limit_set(&mut self.seat, self.slot, limit);
    }

    /// The bytes of the slot that were freed.
    pub fn freed(&mut self) -> u64
        ensures words { self.new ≡ purse_with self.old (after_load self.old.seat.view (freed_word self.old.slot) result) }
        ensures most { result ≤ 18442240474082181120 }
    {
        self.meter.freed(&mut self.seat, self.slot)
    }

    /// Counts a receipt of n bytes at a port with this receive limit, and lowers the port's bit where it is set and fewer bytes
    /// are queued than half the limit.
    pub fn receive(&mut self, port: u16, limit: u32, n: u32)
        ensures { IsReceipt port limit n self.old self.new }
    {
        let taken = self.take(n);
        let put = self.meter.put(&mut self.seat, self.slot);
        let limit = u64::from(limit);
        let mark = Mark {
            port,
            set: false,
            put,
            taken,
            limit,
        };
        if mark.is_below_half() {
            self.relieve(port);
        }
    }

    // The taken word after n bytes were added to it, or as it is where the seat may not add them.
    fn take(&mut self, n: u32) -> u64
        ensures { self.new ≡ purse_with self.old (after_taking self.old.seat.view self.old.slot n result) }
    {
        if self.added + u64::from(n) > MOST_OF_A_SEAT {
            return self.meter.taken(&mut self.seat, self.slot);
        }
        self.added += u64::from(n);
        self.meter.take_add(&mut self.seat, self.slot, n)
    }

    // Lowers the port's bit where a load finds it set.
    fn relieve(&mut self, port: u16)
        ensures { (bits : ℕ) × (change : ℕ) × (self.new ≡ purse_with self.old (after_relief self.old.seat.view port bits change)) }
    {
        let word = self.meter.word(&mut self.seat, usize::from(port / 64));
        if word >> (port % 64) & 1 == 1 {
            self.clear(port);
        }
    }

    /// Lowers the bit of a port whose word the slot has changed, and counts the change.
    pub fn clear(&mut self, port: u16)
        ensures { (change : ℕ) × (self.new ≡ purse_with self.old (after_clearing self.old.seat.view port change)) }
    {
        self.meter.lower_changed(&mut self.seat, port);
        self.meter.bump(&mut self.seat);
    }
}
