//! Seats that are cut off and joined, and what one seat tells another.
ghost use Rattle.std.specs.Prelude.{◌≡◌, ◌≤◌, IsSome, None};
ghost use Rattle.rds_bindtab.specs.Seats.{knowing, after_split, newcomer, without_slot, with_slot_of, note_of, note_of_steps, joined};
ghost use Rattle.rds_bindtab.specs.Shared.{Taught};

use crate::plays::{Handing, Joining, Learn, Noting, NotingSteps, Seating};
use crate::seat::{BindNote, BindSeat};
use crate::table::BindTable;

impl BindTable {
    /// A new seat without a slot.
    pub fn split(&self, seat: &mut BindSeat) -> BindSeat
        requires table { seat.old.table ≡ self.now }
        requires splits { 1 ≤ seat.old.view.splits }
        ensures seat { seat.new ≡ knowing seat.old (after_split seat.old.view) }
        ensures new { result ≡ knowing seat.old (newcomer seat.old.view) }
    {
        let new = self.table.shared.split_seat::<Seating>(&mut seat.seat);
        BindSeat {
            seat: new,
            slot: None,
            port: None,
        }
    }

    /// A new seat that takes the slot over from the seat which drew it, so that this one may draw again. The new one neither
    /// draws nor splits.
    pub fn split_slot(&self, seat: &mut BindSeat) -> BindSeat
        requires table { seat.old.table ≡ self.now }
        requires drawn { 1 ≤ seat.old.view.weight }
        requires slot { IsSome seat.old.view.slot }
        requires port { seat.old.view.port ≡ None }
        ensures seat { seat.new ≡ knowing seat.old (without_slot seat.old.view) }
        ensures new { result ≡ knowing seat.old (with_slot_of seat.old.view) }
    {
        let new = self.table.shared.split_seat::<Handing>(&mut seat.seat);
        let slot = seat.slot;
        seat.slot = None;
        BindSeat {
            seat: new,
            slot,
            port: None,
        }
    }

    /// A note of the port that the seat holds, its slot and how often it has released a port.
    pub fn note(&self, of: &mut BindSeat) -> BindNote
        requires table { of.old.table ≡ self.now }
        requires port { IsSome of.old.view.port }
        ensures same { of.new ≡ of.old }
        ensures note { result ≡ knowing of.old (note_of of.old.view) }
    {
        let seat = self.table.shared.split_seat::<Noting>(&mut of.seat);
        BindNote { seat }
    }

    /// A note of all steps of the seat, which a seat that hears it can compare with its own port.
    pub fn note_steps(&self, of: &mut BindSeat) -> BindNote
        requires { of.old.table ≡ self.now }
        ensures same { of.new ≡ of.old }
        ensures note { result ≡ knowing of.old (note_of_steps of.old.view) }
    {
        let seat = self.table.shared.split_seat::<NotingSteps>(&mut of.seat);
        BindNote { seat }
    }

    /// The seat keeps from now on what the note says.
    pub fn hear(&self, to: &mut BindSeat, note: BindNote)
        requires table { to.old.table ≡ self.now }
        requires note { note.table ≡ self.now }
        ensures { to.new ≡ knowing to.old (joined to.old.view note.view) }
    {
        let BindNote { seat } = note;
        let shared = &self.table.shared;
        shared.join_seat::<Joining>(&mut to.seat, seat);
    }

    /// The first seat is told of the port that the second holds.
    pub fn tell(&self, to: &mut BindSeat, of: &mut BindSeat)
        requires table { (to.old.table ≡ self.now) × (of.old.table ≡ self.now) }
        requires port { IsSome of.old.view.port }
        ensures told { to.new ≡ knowing to.old (joined to.old.view (note_of of.old.view)) }
        ensures same { of.new ≡ of.old }
    {
        let note = self.note(of);
        self.hear(to, note);
    }

    /// The second seat ends. The first keeps its slot and its port, and has also what the second knew.
    pub fn join(&self, into: &mut BindSeat, from: BindSeat)
        requires table { (into.old.table ≡ self.now) × (from.table ≡ self.now) }
        requires port { from.view.port ≡ None }
        ensures { into.new ≡ knowing into.old (joined into.old.view from.view) }
    {
        let BindSeat { seat, .. } = from;
        let shared = &self.table.shared;
        shared.join_seat::<Joining>(&mut into.seat, seat);
    }

    /// A load that changes nothing, after which the seat's view is known to stand among views that keep the rule.
    pub fn learn(&self, seat: &mut BindSeat)
        requires { seat.old.table ≡ self.now }
        ensures same { seat.new ≡ seat.old }
        ensures rule { Taught self.now.slots seat.new.view }
    {
        let shared = &self.table.shared;
        shared.load::<Learn>(&mut seat.seat, 0);
    }

    /// Ends the table. The last seat's view stands among views that keep the rule.
    pub fn close(self, seat: BindSeat)
        requires { seat.table ≡ self }
        ensures { Taught self.slots seat.view }
    {
        let BindSeat { seat, .. } = seat;
        let BindTable { table, .. } = self;
        table.close_with(seat).free();
    }
}
