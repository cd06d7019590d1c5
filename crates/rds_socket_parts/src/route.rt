use rds_fmap::MapReader;
use rds_mail::{Asked, Mail, PutPass};
use std::marker::Model;
use std::sync::Arc;

/// The way to a peer: its address, the order queue of the connection with it, the right to put there, and a reader of the peer's
/// congestion map. The pass is of the queue beside it.
#[derive(Drop)]
pub struct Route<R: MapReader> {
    pub peer: u32,
    pub orders: Arc<Mail<Asked>>,
    pub pass: PutPass<Asked>,
    pub map: R,
}

impl<R: MapReader> Model for Route<R> {
    ghost use Rattle.std.specs.Prelude.{◌≡◌};
    ghost use Rattle.std.specs.Arc.{arc_value};
    ghost use Rattle.rds_socket_parts.specs.Lanes.{Lane};

    ghost Value = { Lane R };

    ghost view = { λ r. record { peer = r.peer; pass = r.pass; reader = r.map } };

    ghost invariant = { λ r. r.pass.mail ≡ (arc_value r.orders).line };
}
