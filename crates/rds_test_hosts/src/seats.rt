//! The seats of a slot.
ghost use Rattle.std.specs.Prelude.{◌≡◌, ◌∷◌, ℕ, [], Some, None, IfOk};
ghost use Rattle.std.specs.Arc.{arc_value};
ghost use Rattle.rds_socket_parts.specs.Lanes.{peers_of, ArePutOf};
ghost use Rattle.rds_socket_parts.specs.Ports.{HasClaimedOnly};
ghost use Rattle.rds_meter.specs.Seats.{newcomer, first_view};

use crate::counts::LineCounts;
use rds_bindtab::{BindSeat, BindTable};
use rds_fmap::Reader;
use rds_mail::{GetPass, Mail};
use rds_meter::{Meter, MeterSeat};
use rds_model::Datagram;
use rds_socket::{Route, Vacant};
use rds_wire::Memory;
use std::alloc::Global;
use std::sync::Arc;

/// The seats of slot 0 at its host's port table and meter.
pub(crate) struct Seats {
    pub(crate) table: Arc<BindTable>,
    pub(crate) seat: BindSeat,
    pub(crate) meter: Arc<Meter>,
    pub(crate) own: MeterSeat,
    ghost table_of: { seat.table ≡ arc_value table },
    ghost slot: { seat.view.slot ≡ Some 0 },
    ghost port: { seat.view.port ≡ None },
    ghost claimed: { HasClaimedOnly None seat.view },
    ghost meter_of: { own.table ≡ arc_value meter },
    ghost owner: { own.slot ≡ Some 0 },
    ghost idle: { own.view ≡ newcomer (first_view 1) },
}

// By hand, so that one call drops it wherever it is let go, and no function that owns one drops each field.
impl Drop for Seats {
    fn drop(self) {
        let Self {
            table: _table,
            seat: _seat,
            meter: _meter,
            own: _own,
        } = self;
    }
}

impl Seats {
    /// New seats, and the counts of a line.
    pub(crate) fn new(alloc: Global) -> Result<(Seats, LineCounts), Memory> {
        let (table, seat) = port_table(alloc)?;
        let (meter, own, counts) = LineCounts::new(alloc)?;
        let seats = Seats {
            table,
            seat,
            meter,
            own,
        };
        Ok((seats, counts))
    }

    /// The slot with these seats, this mailbox and these routes.
    pub(crate) fn into_vacant(
        self,
        mail: Arc<Mail<Datagram>>,
        get: GetPass<Datagram>,
        routes: Vec<Route<Reader>>,
    ) -> Vacant<Reader>
        requires mail { get.mail ≡ (arc_value mail).line }
        requires put { ArePutOf 0 routes.items }
        requires peers { (peer : ℕ) × (peers_of routes.items ≡ peer ∷ []) }
    {
        let Seats {
            table,
            seat,
            meter,
            own,
        } = self;
        Vacant::of(table, seat, meter, own, mail, get, routes)
    }
}

// A port table with one slot, and the seat that has drawn it.
fn port_table(alloc: Global) -> Result<(Arc<BindTable>, BindSeat), Memory>
    ensures table { IfOk result (λ r. r.1.table ≡ arc_value r.0) }
    ensures slot { IfOk result (λ r. r.1.view.slot ≡ Some 0) }
    ensures port { IfOk result (λ r. r.1.view.port ≡ None) }
    ensures claimed { IfOk result (λ r. HasClaimedOnly None r.1.view) }
{
    let (table, mut seat) = BindTable::new(alloc, 1)?;
    let Ok(_slot) = table.draw(&mut seat) else {
        return Err(Memory);
    };
    Ok((Arc::new(alloc, table)?, seat))
}
