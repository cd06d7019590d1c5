ghost use Rattle.std.specs.Prelude.{◌≡◌};

use crate::view::View;
use atomic_table::Seat;
use std::marker::Model;

/// A caller's token of the table. Contracts see its table and its view.
#[derive(Drop)]
pub struct BindSeat {
    pub(crate) seat: Seat<(), View>,
    pub(crate) slot: Option<u16>,
    pub(crate) port: Option<u16>,
}

impl Model for BindSeat {
    ghost use Rattle.std.specs.Prelude.{◌≡◌, ◌≤◌, [], None};
    ghost use Rattle.rds_bindtab.specs.Seats.{PortSeat, port_seat};

    ghost Value = { PortSeat };

    ghost view = { λ s. port_seat s.seat.table_id s.seat.me.0 };

    ghost invariant = { λ s. (s.slot ≡ s.seat.me.0.slot) × (s.port ≡ s.seat.me.0.port) × (s.slot ≡ None → 1 ≤ s.seat.me.0.weight) × (s.seat.me.1 ≡ []) × (s.slot ≡ None → s.port ≡ None) };
}

/// What a seat tells another. It has no slot and no port of its own.
#[derive(Drop)]
pub struct BindNote {
    pub(crate) seat: Seat<(), View>,
}

impl Model for BindNote {
    ghost use Rattle.std.specs.Prelude.{◌≡◌, [], None};
    ghost use Rattle.rds_bindtab.specs.Seats.{PortSeat, port_seat};

    ghost Value = { PortSeat };

    ghost view = { λ n. port_seat n.seat.table_id n.seat.me.0 };

    ghost invariant = { λ n. (n.seat.me.1 ≡ []) × (n.seat.me.0.port ≡ None) };
}

impl BindSeat {
    /// The slot that it drew.
    pub fn slot(&self) -> Option<u16>
        ensures { result ≡ self.now.view.slot }
    {
        self.slot
    }

    /// The port that it holds.
    pub fn port(&self) -> Option<u16>
        ensures { result ≡ self.now.view.port }
    {
        self.port
    }
}
