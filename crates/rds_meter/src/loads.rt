//! What one load of a word finds.
ghost use Rattle.std.specs.Prelude.{◌≡◌, ◌+◌, ◌<◌, ◌≤◌};
ghost use Rattle.rds_model.specs.declared.entry.TheConstants.{MAX_SLOTS};
ghost use Rattle.rds_meter.specs.Seats.{knowing, after_load};
ghost use Rattle.rds_meter.specs.Places.{limit_word, freed_word, put_word, taken_word, change_word, part};

use crate::meter::Meter;
use crate::places::{CHANGE, FREED, MAP, PUT, TAKEN};
use crate::plays::Load;
use crate::seat::MeterSeat;

impl Meter {
    fn load(&self, seat: &mut MeterSeat, word: usize) -> u64
        requires table { seat.old.table ≡ self.now }
        requires word { word < 5121 }
        ensures seat { seat.new ≡ knowing seat.old (after_load seat.old.view word result) }
        ensures part { 1024 ≤ word → word < 4096 → part word seat.old.view.steps ≤ result }
        ensures most { 1024 ≤ word → word < 4096 → result ≤ 18442240474082181120 }
    {
        let shared = &self.table.shared;
        shared.load::<Load>(&mut seat.seat, word)
    }

    /// The receive limit of a slot, or 0 where none was set.
    pub fn limit(&self, seat: &mut MeterSeat, slot: u16) -> u64
        requires table { seat.old.table ≡ self.now }
        requires slot { slot < MAX_SLOTS }
        ensures { seat.new ≡ knowing seat.old (after_load seat.old.view (limit_word slot) result) }
    {
        self.load(seat, usize::from(slot))
    }

    /// The bytes freed of a slot.
    pub fn freed(&self, seat: &mut MeterSeat, slot: u16) -> u64
        requires table { seat.old.table ≡ self.now }
        requires slot { slot < MAX_SLOTS }
        ensures seat { seat.new ≡ knowing seat.old (after_load seat.old.view (freed_word slot) result) }
        ensures part { part (freed_word slot) seat.old.view.steps ≤ result }
        ensures most { result ≤ 18442240474082181120 }
    {
        self.load(seat, FREED + usize::from(slot))
    }

    /// The bytes put into a slot's mailbox.
    pub fn put(&self, seat: &mut MeterSeat, slot: u16) -> u64
        requires table { seat.old.table ≡ self.now }
        requires slot { slot < MAX_SLOTS }
        ensures seat { seat.new ≡ knowing seat.old (after_load seat.old.view (put_word slot) result) }
        ensures part { part (put_word slot) seat.old.view.steps ≤ result }
        ensures most { result ≤ 18442240474082181120 }
    {
        self.load(seat, PUT + usize::from(slot))
    }

    /// The bytes taken out of a slot's mailbox.
    pub fn taken(&self, seat: &mut MeterSeat, slot: u16) -> u64
        requires table { seat.old.table ≡ self.now }
        requires slot { slot < MAX_SLOTS }
        ensures seat { seat.new ≡ knowing seat.old (after_load seat.old.view (taken_word slot) result) }
        ensures part { part (taken_word slot) seat.old.view.steps ≤ result }
        ensures most { result ≤ 18442240474082181120 }
    {
        self.load(seat, TAKEN + usize::from(slot))
    }

    /// A word of the host's congestion map: port p is bit p mod 64 of word p div 64.
    pub fn word(&self, seat: &mut MeterSeat, i: usize) -> u64
        requires table { seat.old.table ≡ self.now }
        requires word { i < 1024 }
        ensures { seat.new ≡ knowing seat.old (after_load seat.old.view (4096 + i) result) }
    {
        self.load(seat, MAP + i)
    }

    /// The change number.
    pub fn change(&self, seat: &mut MeterSeat) -> u64
        requires { seat.old.table ≡ self.now }
        ensures { seat.new ≡ knowing seat.old (after_load seat.old.view change_word result) }
    {
        self.load(seat, CHANGE)
    }
}
