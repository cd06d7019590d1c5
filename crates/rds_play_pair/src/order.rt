ghost use Rattle.std.specs.Prelude.{◌≡◌, IfOk};
ghost use Rattle.rds_play_pair.specs.Changes.{is_allowed as allows};

use rds_model::Order;
use rds_wire::{MAX_LENGTH, Memory};

/// Whether an end with so many slots takes the order.
pub(crate) fn is_allowed(slots: u16, order: &Order) -> bool
    ensures { result ≡ allows slots order.now }
{
    match order {
        Order::Send { slot, payload, .. } => *slot < slots && payload.len() <= MAX_LENGTH,
        Order::Cancel { slot, .. } => *slot < slots,
        Order::CloseSocket { slot } => *slot < slots,
        Order::Cut => false,
    }
}

/// The same order, with another owner of its payload.
pub(crate) fn copied(order: &Order) -> Result<Order, Memory>
    ensures { IfOk result (λ copy. copy ≡ order.now) }
{
    Ok(match order {
        Order::Send {
            slot,
            sport,
            dport,
            payload,
        } => Order::Send {
            slot: *slot,
            sport: *sport,
            dport: *dport,
            payload: payload.share()?,
        },
        Order::Cancel { slot, dport } => Order::Cancel {
            slot: *slot,
            dport: *dport,
        },
        Order::CloseSocket { slot } => Order::CloseSocket { slot: *slot },
        Order::Cut => Order::Cut,
    })
}
