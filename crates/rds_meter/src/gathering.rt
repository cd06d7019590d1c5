//! What all seats of a meter show together.
ghost use Rattle.std.specs.Prelude.{◌≡◌, All};
ghost use Rattle.rds_meter.specs.Grounds.{AreAllSeats, AreRaisedAmong};
ghost use Rattle.rds_meter.specs.Joining.{IsJoinOf};

use crate::meter::Meter;
use crate::seat::MeterSeat;

impl Meter {
    /// Ends all seats of the meter. Where one of them had found a bit of the map set, a check of one of them had raised it, since
    /// they have put more for its slot than a limit that one of them has stored.
    pub fn gather(&self, mut seats: Vec<MeterSeat>)
        requires tables { All (λ seat. seat.table ≡ self.now) seats.items }
        requires all { AreAllSeats seats.items }
        ensures { AreRaisedAmong seats.items }
    {
        let Some(mut last) = seats.pop() else {
            return;
        };
        self.join_all(&mut last, seats);
        self.learn(&mut last);
    }

    // All seats but the first end. The first has also what they knew.
    fn join_all(&self, into: &mut MeterSeat, seats: Vec<MeterSeat>)
        requires table { into.old.table ≡ self.now }
        requires tables { All (λ seat. seat.table ≡ self.now) seats.items }
        ensures { IsJoinOf into.old seats.items into.new }
    {
        for seat in seats {
            self.join(into, seat);
        }
    }
}
