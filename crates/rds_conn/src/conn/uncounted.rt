ghost use Rattle.std.specs.Prelude.{◌≡◌, ℕ, ◌+◌, ◌<◌, IsSome, IfSome};
ghost use Rattle.rds_model.specs.Reading.{verdict_of as verdict_after};
ghost use Rattle.rds_conn.specs.Connection.{IsReady, freed_bytes_of};
ghost use Rattle.rds_conn.specs.Released.{released_bytes};
ghost use Rattle.rds_conn.specs.Orders.{IsOrderFor, after_order, accepted_bytes};
ghost use Rattle.rds_conn.specs.Passing.{Matches, Passes};
ghost use Rattle.rds_model.specs.Alive.{alive_bytes};

use super::{Conn, Found};
use rds_model::Order;
use rds_msgs::Steps;
use std::marker::Brand;
use std::sync::ledger::{Blank, Ledger};

impl Conn {
    /// Takes an order of a socket, as `order` does, for a caller that counts no steps.
    pub fn order_uncounted(&mut self, order: Order)
        requires ready { IsReady self.old }
        requires allowed { IsOrderFor self.old.slots order }
        ensures entry { self.new ≡ record (after_order order self.old) { freed = self.new.freed } }
        ensures freed { (slot : ℕ) → slot < self.old.slots →
            freed_bytes_of slot self.new + released_bytes slot self.old.log.past ≡ freed_bytes_of slot self.old + released_bytes slot self.new.log.past }
        ensures conserved { (slot : ℕ) → slot < self.old.slots → freed_bytes_of slot self.new + alive_bytes slot self.new.log.past
            ≡ freed_bytes_of slot self.old + alive_bytes slot self.old.log.past + accepted_bytes slot order }
    {
        order_by::<Brand>(self, order, Blank::new(1))
    }

    /// Passes the frame that waits, as `pass` does, for a caller that counts no steps.
    pub fn pass_uncounted(&mut self, found: Found)
        requires ready { IsReady self.old }
        requires waiting { IsSome self.old.waiting }
        requires found { IfSome self.old.waiting (λ f. Matches self.old.slots (verdict_after self.old.log.past f.header) found) }
        ensures passes { Passes found self.old self.new }
    {
        pass_by::<Brand>(self, found, Blank::new(1))
    }
}

fn order_by<L: Ledger>(conn: &mut Conn, order: Order, blank: Blank)
    requires name { blank.name ≡ L.name }
    requires parts { blank.parts ≡ L.parts }
    requires whole { 0 < L.parts }
    requires ready { IsReady conn.old }
    requires allowed { IsOrderFor conn.old.slots order }
    ensures entry { conn.new ≡ record (after_order order conn.old) { freed = conn.new.freed } }
    ensures freed { (slot : ℕ) → slot < conn.old.slots →
        freed_bytes_of slot conn.new + released_bytes slot conn.old.log.past ≡ freed_bytes_of slot conn.old + released_bytes slot conn.new.log.past }
    ensures conserved { (slot : ℕ) → slot < conn.old.slots → freed_bytes_of slot conn.new + alive_bytes slot conn.new.log.past
        ≡ freed_bytes_of slot conn.old + alive_bytes slot conn.old.log.past + accepted_bytes slot order }
{
    let mut steps = Steps::<L>::new(blank);
    conn.order(order, &mut steps);
}

fn pass_by<L: Ledger>(conn: &mut Conn, found: Found, blank: Blank)
    requires name { blank.name ≡ L.name }
    requires parts { blank.parts ≡ L.parts }
    requires whole { 0 < L.parts }
    requires ready { IsReady conn.old }
    requires waiting { IsSome conn.old.waiting }
    requires found { IfSome conn.old.waiting (λ f. Matches conn.old.slots (verdict_after conn.old.log.past f.header) found) }
    ensures passes { Passes found conn.old conn.new }
{
    let mut steps = Steps::<L>::new(blank);
    conn.pass(found, &mut steps);
}
