//! The orders of a line.
ghost use Rattle.std.specs.Prelude.{◌≡◌, IfSome, IfNone};
ghost use Rattle.std.specs.Arc.{arc_value};
ghost use Rattle.rds_mail.specs.Numbers.{Number};
ghost use Rattle.rds_mail.specs.Passes.{after_get, after_none, after_note};
ghost use Rattle.rds_mail.specs.Learning.{AllGot};
ghost use Rattle.rds_mail.specs.Orders.{IsAsked};

use rds_mail::{Asked, GetPass, Mail, Note};
use rds_model::Order;
use std::marker::Model;
use std::sync::{Arc, Wait};

/// The queue of a line's orders and its getter. Contracts see the getter.
#[derive(Drop)]
pub struct LineOrders {
    orders: Arc<Mail<Asked>>,
    get: GetPass<Asked>,
}

impl Model for LineOrders {
    ghost use Rattle.std.specs.Prelude.{◌≡◌};
    ghost use Rattle.std.specs.Arc.{arc_value};
    ghost use Rattle.rds_model.specs.declared.order.Order.{Order};
    ghost use Rattle.rds_mail.specs.Passes.{Getter};

    ghost Value = { Getter Order };

    ghost view = { λ i. i.get };

    ghost invariant = { λ i. i.get.mail ≡ (arc_value i.orders).line };
}

impl LineOrders {
    /// The queue of a line's orders, and the getter that is of it.
    pub fn new(orders: Arc<Mail<Asked>>, get: GetPass<Asked>) -> LineOrders
        requires { get.mail ≡ (arc_value orders).line }
        ensures { result ≡ get }
    {
        LineOrders { orders, get }
    }

    /// Both, as they are now.
    pub fn into_parts(self) -> (Arc<Mail<Asked>>, GetPass<Asked>)
        ensures get { result.1 ≡ self }
        ensures orders { self.mail ≡ (arc_value result.0).line }
    {
        let LineOrders { orders, get } = self;
        (orders, get)
    }

    /// Takes the first order. `None` where its own step found the queue empty, which is counted, and which shows that all orders
    /// that it was told of were got.
    pub fn take_order<W: Wait>(&mut self, rt: &W) -> Option<Order>
        ensures got { IfSome result (λ order. (number : Number) × (self.new ≡ after_get self.old number order)) }
        ensures asked { IfSome result IsAsked }
        ensures counted { IfNone result (self.new ≡ after_none self.old) }
        ensures empty { IfNone result (AllGot self.old) }
    {
        let asked = self.orders.get_counted(rt, &mut self.get)?;
        Some(asked.order())
    }

    /// The getter is told of what a putter had put.
    pub fn hear(&mut self, note: Note<Asked>)
        requires { note.mail ≡ self.old.mail }
        ensures { self.new ≡ after_note self.old note }
    {
        self.orders.learn(&mut self.get, note);
    }
}
