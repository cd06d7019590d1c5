ghost use Rattle.std.specs.Prelude.{◌≡◌};
ghost use Rattle.rds_mail.specs.Orders.{IsAsked};

use rds_model::Order;
use std::marker::Model;

/// An order as it stands on a host's queues: its slot, where it has one, is below 1,024, and its payload has at most
/// 1,048,576 bytes. Contracts see the order.
#[derive(Drop)]
pub struct Asked {
    order: Order,
}

impl Model for Asked {
    ghost use Rattle.rds_model.specs.declared.order.Order.{Order};
    ghost use Rattle.rds_mail.specs.Orders.{IsAsked};

    ghost Value = { Order };

    ghost view = { λ a. a.order };

    ghost invariant = { λ a. IsAsked a.order };
}

impl Asked {
    /// An order that may be asked for: of a slot, with a payload that isn't too long.
    pub fn new(order: Order) -> Asked
        requires { IsAsked order }
        ensures { result ≡ order }
    {
        Asked { order }
    }

    /// The order.
    pub fn order(self) -> Order
        ensures order { result ≡ self }
        ensures asked { IsAsked result }
    {
        let Asked { order } = self;
        order
    }
}
