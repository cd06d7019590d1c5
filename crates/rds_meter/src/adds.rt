//! What is stored and added for a slot.
ghost use Rattle.std.specs.Prelude.{◌≡◌, ◌+◌, ◌<◌, ◌≤◌, ◌^◌, Some};
ghost use Rattle.rds_model.specs.declared.entry.TheConstants.{MAX_SLOTS};
ghost use Rattle.rds_meter.specs.Seats.{knowing, after_add, after_store};
ghost use Rattle.rds_meter.specs.Places.{freed_word, put_word, taken_word, part};

use crate::meter::Meter;
use crate::places::{FREED, PUT, TAKEN};
use crate::plays::{Add, Limit};
use crate::seat::MeterSeat;

impl Meter {
    /// Sets the receive limit of the slot that the seat owns, by one store.
    pub fn limit_set(&self, seat: &mut MeterSeat, slot: u16, limit: u32)
        requires table { seat.old.table ≡ self.now }
        requires slot { seat.old.slot ≡ Some slot }
        ensures { seat.new ≡ knowing seat.old (after_store seat.old.view slot limit) }
    {
        let shared = &self.table.shared;
        shared.store::<Limit>(&mut seat.seat, usize::from(slot), u64::from(limit));
    }

    // The word after one fetch and add.
    fn add(&self, seat: &mut MeterSeat, word: usize, n: u32) -> u64
        requires table { seat.old.table ≡ self.now }
        requires word { (1024 ≤ word) × (word < 4096) }
        requires part { part word seat.old.view.steps + n ≤ 2 ^ 52 }
        ensures seat { seat.new ≡ knowing seat.old (after_add seat.old.view word n result) }
        ensures part { part word seat.old.view.steps + n ≤ result }
    {
        let shared = &self.table.shared;
        let n = u64::from(n);
        shared.fetch_add::<Add>(&mut seat.seat, word, n) + n
    }

    /// Adds to the bytes freed of a slot by one fetch and add, and answers the word after it.
    pub fn free_add(&self, seat: &mut MeterSeat, slot: u16, n: u32) -> u64
        requires table { seat.old.table ≡ self.now }
        requires slot { slot < MAX_SLOTS }
        requires part { part (freed_word slot) seat.old.view.steps + n ≤ 2 ^ 52 }
        ensures seat { seat.new ≡ knowing seat.old (after_add seat.old.view (freed_word slot) n result) }
        ensures part { part (freed_word slot) seat.old.view.steps + n ≤ result }
    {
        self.add(seat, FREED + usize::from(slot), n)
    }

    /// Adds to the bytes put into a slot's mailbox by one fetch and add, and answers the word after it.
    pub fn put_add(&self, seat: &mut MeterSeat, slot: u16, n: u32) -> u64
        requires table { seat.old.table ≡ self.now }
        requires slot { slot < MAX_SLOTS }
        requires part { part (put_word slot) seat.old.view.steps + n ≤ 2 ^ 52 }
        ensures seat { seat.new ≡ knowing seat.old (after_add seat.old.view (put_word slot) n result) }
        ensures part { part (put_word slot) seat.old.view.steps + n ≤ result }
    {
        self.add(seat, PUT + usize::from(slot), n)
    }

    /// Adds to the bytes taken out of a slot's mailbox by one fetch and add, and answers the word after it.
    pub fn take_add(&self, seat: &mut MeterSeat, slot: u16, n: u32) -> u64
        requires table { seat.old.table ≡ self.now }
        requires slot { slot < MAX_SLOTS }
        requires part { part (taken_word slot) seat.old.view.steps + n ≤ 2 ^ 52 }
        ensures seat { seat.new ≡ knowing seat.old (after_add seat.old.view (taken_word slot) n result) }
        ensures part { part (taken_word slot) seat.old.view.steps + n ≤ result }
    {
        self.add(seat, TAKEN + usize::from(slot), n)
    }
}
