//! The steps of a slot on the port table.
ghost use Rattle.std.specs.Prelude.{◌≡◌, ◌≤◌, IsSome, None};
ghost use Rattle.std.specs.Arc.{arc_value};
ghost use Rattle.rds_bindtab.specs.Seats.{knowing, after_release, note_of};
ghost use Rattle.rds_bindtab.specs.Answers.{ClaimFits, after_claim};
ghost use Rattle.rds_socket_parts.specs.Ports.{first_port, port_after, SearchFits};

use rds_bindtab::{BindError, BindNote, BindSeat, BindTable};
use std::marker::Model;
use std::sync::Arc;

/// How many ports can be bound.
const PORTS: u32 = 65534;

/// A slot's seat at the port table, beside the table. Contracts see the seat.
#[derive(Drop)]
pub struct Ports {
    table: Arc<BindTable>,
    seat: BindSeat,
}

impl Model for Ports {
    ghost use Rattle.std.specs.Prelude.{◌≡◌};
    ghost use Rattle.std.specs.Arc.{arc_value};
    ghost use Rattle.rds_bindtab.specs.Seats.{PortSeat};

    ghost Value = { PortSeat };

    ghost view = { λ p. p.seat };

    ghost invariant = { λ p. p.seat.table ≡ arc_value p.table };
}

impl Ports {
    /// The seat of a slot, with its table.
    pub fn new(table: Arc<BindTable>, seat: BindSeat) -> Ports
        requires { seat.table ≡ arc_value table }
        ensures { result ≡ seat }
    {
        Ports { table, seat }
    }

    /// The table and the seat.
    pub fn into_parts(self) -> (Arc<BindTable>, BindSeat)
        ensures seat { result.1 ≡ self }
        ensures table { self.table ≡ arc_value result.0 }
    {
        let Ports { table, seat } = self;
        (table, seat)
    }

    /// Claims a port for the slot.
    ///
    /// # Errors
    ///
    /// As `BindTable::claim`: the port is reserved, or its word was found with another slot in it. Nothing was claimed.
    pub fn claim(&mut self, port: u16) -> Result<(), BindError>
        requires slot { IsSome self.old.view.slot }
        requires port { self.old.view.port ≡ None }
        ensures answer { ClaimFits port result }
        ensures seat { self.new ≡ knowing self.old (after_claim self.old.view port result) }
    {
        self.table.claim(&mut self.seat, port)
    }

    /// Claims ports from `start` upward, round past 65,535, until a claim succeeds. `None` where each port was found in use.
    pub fn search(&mut self, start: u16) -> Option<u16>
        requires slot { IsSome self.old.view.slot }
        requires port { self.old.view.port ≡ None }
        ensures { SearchFits self.old (first_port start) result self.new }
    {
        let mut port = if start < 2 { 2 } else { start };
        for _ in 0..PORTS {
            if self.claim(port).is_ok() {
                return Some(port);
            }
            port = next_port(port);
        }
        None
    }

    /// Gives the port back.
    pub fn release(&mut self)
        requires { IsSome self.old.view.port }
        ensures { self.new ≡ knowing self.old (after_release self.old.view) }
    {
        self.table.release(&mut self.seat);
    }

    /// A note of the port that the slot holds.
    pub fn note(&mut self) -> BindNote
        requires { IsSome self.old.view.port }
        ensures same { self.new ≡ self.old }
        ensures note { result ≡ knowing self.old (note_of self.old.view) }
    {
        self.table.note(&mut self.seat)
    }
}

// The port that a search claims after this one.
fn next_port(port: u16) -> u16
    requires { 2 ≤ port }
    ensures { result ≡ port_after port 1 }
{
    if port == u16::MAX { 2 } else { port + 1 }
}
