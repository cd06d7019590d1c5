//! The steps of a line on the port table.
ghost use Rattle.std.specs.Prelude.{◌≡◌, ◌<◌, IfSome};
ghost use Rattle.std.specs.Arc.{arc_value};
ghost use Rattle.rds_bindtab.specs.Seats.{knowing, after_look, joined};

use rds_bindtab::{BindNote, BindSeat, BindTable};
use std::marker::Model;
use std::sync::Arc;

/// A line's seat at its host's port table, beside the table. Contracts see the seat.
#[derive(Drop)]
pub struct LinePorts {
    table: Arc<BindTable>,
    seat: BindSeat,
}

impl Model for LinePorts {
    ghost use Rattle.std.specs.Prelude.{◌≡◌};
    ghost use Rattle.std.specs.Arc.{arc_value};
    ghost use Rattle.rds_bindtab.specs.Seats.{PortSeat};

    ghost Value = { PortSeat };

    ghost view = { λ p. p.seat };

    ghost invariant = { λ p. p.seat.table ≡ arc_value p.table };
}

impl LinePorts {
    /// The port table, and a seat that is at it.
    pub fn new(table: Arc<BindTable>, seat: BindSeat) -> LinePorts
        requires { seat.table ≡ arc_value table }
        ensures { result ≡ seat }
    {
        LinePorts { table, seat }
    }

    /// Both, as they are now.
    pub fn into_parts(self) -> (Arc<BindTable>, BindSeat)
        ensures seat { result.1 ≡ self }
        ensures table { self.table ≡ arc_value result.0 }
    {
        let LinePorts { table, seat } = self;
        (table, seat)
    }

    /// The slot of the socket that holds the port, or `None` where one load found that none does.
    pub fn look(&mut self, port: u16) -> Option<u16>
        ensures slot { IfSome result (λ slot. slot < self.old.table.slots) }
        ensures seat { self.new ≡ knowing self.old (after_look self.old.view port result) }
    {
        self.table.look(&mut self.seat, port)
    }

    /// The seat is told of a port that a socket holds.
    pub fn hear(&mut self, note: BindNote)
        requires { note.table ≡ self.old.table }
        ensures { self.new ≡ knowing self.old (joined self.old.view note.view) }
    {
        self.table.hear(&mut self.seat, note);
    }
}
