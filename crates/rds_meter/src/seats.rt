//! Seats that are cut off and joined, and what the last of them knows.
ghost use Rattle.std.specs.Prelude.{◌≡◌, ◌+◌, ◌<◌, ◌≤◌, Some, None};
ghost use Rattle.rds_meter.specs.Seats.{MeterSeat, knowing, after_split, newcomer, joined, owning};
ghost use Rattle.rds_meter.specs.Shared.{Taught, Alone};

use crate::meter::Meter;
use crate::plays::{Joining, Learn, Seating};
use crate::seat::MeterSeat;

impl Meter {
    /// The seat owns the slot from now on, and may set its limit.
    pub fn own(&self, seat: &mut MeterSeat, slot: u16)
        requires table { seat.old.table ≡ self.now }
        requires owns { seat.old.slot ≡ None }
        requires slot { slot < self.now.slots }
        ensures { seat.new ≡ owning seat.old slot }
    {
        prove!(slot < self.slots);
        seat.slot = Some(slot);
    }

    /// A new seat that owns no slot.
    pub fn split(&self, seat: &mut MeterSeat) -> MeterSeat
        requires table { seat.old.table ≡ self.now }
        requires splits { 1 ≤ seat.old.view.splits }
        ensures seat { seat.new ≡ knowing seat.old (after_split seat.old.view) }
        ensures new { result ≡ record { table = seat.old.table; slot = None; view = newcomer seat.old.view } }
    {
        let new = self.table.shared.split_seat::<Seating>(&mut seat.seat);
        MeterSeat {
            seat: new,
            slot: None,
        }
    }

    /// The second seat ends. The first keeps its slot, and has also what the second knew.
    pub fn join(&self, into: &mut MeterSeat, from: MeterSeat)
        requires { (into.old.table ≡ self.now) × (from.table ≡ self.now) }
        ensures { into.new ≡ knowing into.old (joined into.old.view from.view) }
    {
        let MeterSeat { seat, .. } = from;
        let shared = &self.table.shared;
        shared.join_seat::<Joining>(&mut into.seat, seat);
    }

    /// A load that changes nothing, after which the seat's view is known to stand among views that keep the rule.
    /// A seat into which all others were joined knows that its view alone keeps it.
    pub fn learn(&self, seat: &mut MeterSeat)
        requires { seat.old.table ≡ self.now }
        ensures same { seat.new ≡ seat.old }
        ensures rule { Taught seat.new.view }
        ensures alone { seat.new.view.weight + seat.new.view.splits ≡ 4095 → Alone seat.new.view }
    {
        let shared = &self.table.shared;
        shared.load::<Learn>(&mut seat.seat, 0);
    }

    /// Ends the meter. The last seat's view stands among views that keep the rule, and alone where all others were joined into it.
    pub fn close(self, seat: MeterSeat)
        requires { seat.table ≡ self }
        ensures rule { Taught seat.view }
        ensures alone { seat.view.weight + seat.view.splits ≡ 4095 → Alone seat.view }
    {
        let MeterSeat { seat, .. } = seat;
        let Meter { table, .. } = self;
        table.close_with(seat).free();
    }
}
