//! The bits of the congestion map, and the number of its changes.
ghost use Rattle.std.specs.Prelude.{◌≡◌, ◌+◌, ◌/◌, ◌<◌};
ghost use Rattle.rds_meter.specs.Seats.{knowing, after_raise, after_lower, after_bump, OpensWith};

use crate::mark::Mark;
use crate::meter::Meter;
use crate::places::{CHANGE, place_of};
use crate::plays::{Bump, Lower, Raise};
use crate::seat::MeterSeat;

impl Meter {
    /// Sets the port's bit by one fetch and or. The mark is the seat's latest check, which then is closed.
    pub fn raise(&self, seat: &mut MeterSeat, mark: &Mark)
        requires table { seat.old.table ≡ self.now }
        requires check { OpensWith seat.old.view mark.now }
        ensures { seat.new ≡ knowing seat.old (after_raise seat.old.view mark.now.port) }
    {
        let (word, bit) = place_of(mark.port);
        let shared = &self.table.shared;
        shared.fetch_or::<Raise>(&mut seat.seat, word, bit);
    }

    /// Clears the port's bit by one fetch and and, since fewer bytes are queued than half the limit.
    pub fn lower(&self, seat: &mut MeterSeat, mark: &Mark)
        requires table { seat.old.table ≡ self.now }
        requires ground { mark.now.put < mark.now.taken + mark.now.limit / 2 }
        ensures { seat.new ≡ knowing seat.old (after_lower seat.old.view mark.now.port) }
    {
        self.clear(seat, mark.port);
    }

    /// Clears the port's bit by one fetch and and, for a caller whose own step on the port table has shown that the port's
    /// word changed. The meter doesn't see that step: it stands in the caller's contract.
    pub fn lower_changed(&self, seat: &mut MeterSeat, port: u16)
        requires { seat.old.table ≡ self.now }
        ensures { seat.new ≡ knowing seat.old (after_lower seat.old.view port) }
    {
        self.clear(seat, port);
    }

    fn clear(&self, seat: &mut MeterSeat, port: u16)
        requires { seat.old.table ≡ self.now }
        ensures { seat.new ≡ knowing seat.old (after_lower seat.old.view port) }
    {
        let (word, bit) = place_of(port);
        let shared = &self.table.shared;
        shared.fetch_and::<Lower>(&mut seat.seat, word, !bit);
    }

    /// Adds 1 to the change number modulo 2^64 by one fetch and add, and answers the number after it.
    pub fn bump(&self, seat: &mut MeterSeat) -> u64
        requires { seat.old.table ≡ self.now }
        ensures { seat.new ≡ knowing seat.old (after_bump seat.old.view result) }
    {
        let shared = &self.table.shared;
        let found = shared.fetch_add::<Bump>(&mut seat.seat, CHANGE, 1);
        found.wrapping_add(1)
    }
}
