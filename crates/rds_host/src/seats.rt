//! The seats of a host at its port table and its meter.
ghost use Rattle.std.specs.Prelude.{◌≡◌, ◌<◌, ◌≤◌, ◌-◌, ◌+◌, [], Some, All, IfOk, OnOk};
ghost use Rattle.std.specs.Arc.{arc_value};
ghost use Rattle.rds_model.specs.declared.entry.TheConstants.{MAX_SLOTS};
ghost use Rattle.rds_bindtab.specs.Shared.{IsAlone};
ghost use Rattle.rds_meter.specs.Grounds.{seats_of};
ghost use Rattle.rds_bindtab.specs.Seats.{slot_of};
ghost use Rattle.rds_socket_parts.specs.Lanes.{Ascend, peers_of};
ghost use Rattle.rds_host.specs.Seats.{AreFree, AreOfSlot};

use rds_bindtab::{BindSeat, BindTable};
use rds_fmap::Reader;
use rds_line_parts::{LinePorts, LineWords};
use rds_mail::{GetPass, Mail};
use rds_meter::{Meter, MeterSeat};
use rds_model::Datagram;
use rds_socket::{Route, Vacant};
use rds_wire::Memory;
use std::alloc::Global;
use std::sync::Arc;

/// A seat at the port table and one at the meter, beside the two tables. Neither seat has a slot: both are a line's, or those that all
/// other seats are split off.
pub(crate) struct Seats {
    table: Arc<BindTable>,
    seat: BindSeat,
    meter: Arc<Meter>,
    own: MeterSeat,
    ghost free: { AreFree (arc_value table) seat (arc_value meter) own },
}

// By hand, so that one call drops it wherever it is let go, and no function that owns one drops each field.
impl Drop for Seats {
    fn drop(self) {
        let Self {
            table: _table,
            seat: _seat,
            meter: _meter,
            own: _own,
        } = self;
    }
}

impl Seats {
    /// The first seats of new tables with so many slots. All others are split off them.
    pub(crate) fn new(alloc: Global, slots: u16) -> Result<Seats, Memory>
        requires { (1 ≤ slots) × (slots ≤ MAX_SLOTS) }
        ensures slots { IfOk result (λ s. (arc_value s.table).slots ≡ slots) }
        ensures alone { IfOk result (λ s. IsAlone s.seat.view) }
        ensures draws { IfOk result (λ s. s.seat.view.draws ≡ 0) }
        ensures seats { IfOk result (λ s. s.seat.view.splits ≡ 4094) }
        ensures words { IfOk result (λ s. s.own.view.splits ≡ 4094) }
        ensures stand { IfOk result (λ s. seats_of s.own.view ≡ 4095) }
    {
        let (table, seat) = BindTable::new(alloc, slots)?;
        let (meter, own) = Meter::new(alloc, slots)?;
        Ok(Seats {
            table: Arc::new(alloc, table)?,
            seat,
            meter: Arc::new(alloc, meter)?,
            own,
        })
    }

    /// New seats.
    pub(crate) fn split(&mut self) -> Result<Seats, Memory>
        requires seats { 1 ≤ self.old.seat.view.splits }
        requires words { 1 ≤ self.old.own.view.splits }
        ensures table { arc_value self.new.table ≡ arc_value self.old.table }
        ensures meter { arc_value self.new.meter ≡ arc_value self.old.meter }
        ensures seats { OnOk result (self.new.seat.view.splits ≡ self.old.seat.view.splits - 1) }
        ensures words { OnOk result (self.new.own.view.splits ≡ self.old.own.view.splits - 1) }
        ensures same_table { IfOk result (λ s. arc_value s.table ≡ arc_value self.old.table) }
        ensures same_meter { IfOk result (λ s. arc_value s.meter ≡ arc_value self.old.meter) }
        ensures looks { IfOk result (λ s. s.seat.view.steps ≡ []) }
        ensures stand { IfOk result (λ s. seats_of self.new.own.view + seats_of s.own.view ≡ seats_of self.old.own.view) }
    {
        let (table, meter) = self.tables()?;
        let seat = self.table.split(&mut self.seat);
        let own = self.meter.split(&mut self.own);
        Ok(Seats {
            table,
            seat,
            meter,
            own,
        })
    }

    /// A new seat at the port table, and the one at the meter itself, which stands for all that wasn't split off it.
    pub(crate) fn last(self) -> Seats
        requires seats { 1 ≤ self.seat.view.splits }
        ensures table { arc_value result.table ≡ arc_value self.table }
        ensures meter { arc_value result.meter ≡ arc_value self.meter }
        ensures looks { result.seat.view.steps ≡ [] }
        ensures own { result.own ≡ self.own }
    {
        let Seats {
            table,
            mut seat,
            meter,
            own,
        } = self;
        let new = table.split(&mut seat);
        Seats {
            table,
            seat: new,
            meter,
            own,
        }
    }

    /// The seats of the port table's next slot.
    pub(crate) fn draw(&mut self) -> Result<SlotSeats, Memory>
        requires alone { IsAlone self.old.seat.view }
        requires draws { self.old.seat.view.draws < (arc_value self.old.table).slots }
        requires weight { 1 ≤ self.old.seat.view.weight }
        requires words { 1 ≤ self.old.own.view.splits }
        ensures table { arc_value self.new.table ≡ arc_value self.old.table }
        ensures meter { arc_value self.new.meter ≡ arc_value self.old.meter }
        ensures weight { OnOk result (self.new.seat.view.weight ≡ self.old.seat.view.weight) }
        ensures seats { OnOk result (self.new.seat.view.splits ≡ self.old.seat.view.splits) }
        ensures draws { OnOk result (self.new.seat.view.draws ≡ self.old.seat.view.draws + 1) }
        ensures words { OnOk result (self.new.own.view.splits ≡ self.old.own.view.splits - 1) }
        ensures slot { IfOk result (λ s. s.seat.view.slot ≡ Some self.old.seat.view.draws) }
        ensures stand { IfOk result (λ s. seats_of self.new.own.view + seats_of s.own.view ≡ seats_of self.old.own.view) }
        ensures same_table { IfOk result (λ s. arc_value s.table ≡ arc_value self.old.table) }
        ensures same_meter { IfOk result (λ s. arc_value s.meter ≡ arc_value self.old.meter) }
    {
        let (table, meter) = self.tables()?;
        let Ok(slot) = self.table.draw(&mut self.seat) else {
            unreachable!()
        };
        let seat = self.table.split_slot(&mut self.seat);
        let mut own = self.meter.split(&mut self.own);
        self.meter.own(&mut own, slot);
        Ok(SlotSeats {
            table,
            seat,
            meter,
            own,
        })
    }

    // The two tables, once more.
    fn tables(&self) -> Result<(Arc<BindTable>, Arc<Meter>), Memory>
        ensures table { IfOk result (λ t. arc_value t.0 ≡ arc_value self.now.table) }
        ensures meter { IfOk result (λ t. arc_value t.1 ≡ arc_value self.now.meter) }
    {
        let table = Arc::try_clone(&self.table)?;
        Ok((table, Arc::try_clone(&self.meter)?))
    }

    /// The seats as those of a line.
    pub(crate) fn into_line(self) -> (LinePorts, LineWords)
        ensures ports { result.0.table ≡ arc_value self.table }
        ensures words { result.1.table ≡ arc_value self.meter }
        ensures few { result.0.table.slots ≤ MAX_SLOTS }
        ensures looks { result.0.view.steps ≡ self.seat.view.steps }
        ensures steps { result.1.view.steps ≡ [] }
        ensures own { result.1 ≡ self.own }
        ensures checks { result.1.view.checks ≡ [] }
    {
        let Seats {
            table,
            seat,
            meter,
            own,
        } = self;
        (LinePorts::new(table, seat), LineWords::new(meter, own))
    }
}

/// The seats of a slot, beside the tables.
pub(crate) struct SlotSeats {
    table: Arc<BindTable>,
    seat: BindSeat,
    meter: Arc<Meter>,
    own: MeterSeat,
    ghost of_slot: { AreOfSlot (arc_value table) seat (arc_value meter) own },
}

// By hand, so that one call drops it wherever it is let go, and no function that owns one drops each field.
impl Drop for SlotSeats {
    fn drop(self) {
        let Self {
            table: _table,
            seat: _seat,
            meter: _meter,
            own: _own,
        } = self;
    }
}

impl SlotSeats {
    /// The slot with these seats, this mailbox and these routes.
    pub(crate) fn into_vacant(
        self,
        mail: Arc<Mail<Datagram>>,
        get: GetPass<Datagram>,
        routes: Vec<Route<Reader>>,
    ) -> Vacant<Reader>
        requires mail { get.mail ≡ (arc_value mail).line }
        requires put { All (λ lane. lane.pass.put ≡ []) routes.items }
        requires ascend { Ascend (peers_of routes.items) }
        ensures slot { result.words.slot ≡ slot_of self.seat.view }
        ensures routes { result.routes ≡ routes.items }
        ensures get { result.inbox.get ≡ get }
        ensures table { result.ports.table ≡ arc_value self.table }
        ensures meter { result.words.seat.table ≡ arc_value self.meter }
        ensures own { result.words.seat ≡ self.own }
        ensures steps { result.words.seat.view.steps ≡ [] }
        ensures total { result.total ≡ 0 }
    {
        let SlotSeats {
            table,
            seat,
            meter,
            own,
        } = self;
        Vacant::of(table, seat, meter, own, mail, get, routes)
    }
}
