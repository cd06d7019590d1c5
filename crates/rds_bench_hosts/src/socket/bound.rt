//! A host with a bound socket.
ghost use Rattle.std.specs.Prelude.{◌≡◌, None, IfSome};

use rds_test_hosts::{Bound, HandmadeHost};
use std::alloc::Global;

/// The only peer.
pub const PEER: u32 = 2;

/// As much as a send or a receive buffer can hold.
const BUFFER: u32 = 16_777_216;

/// A host whose socket is bound to port 4000. `None` where memory runs out.
pub fn bound(alloc: Global) -> Option<Bound>
    ensures { IfSome result (λ b. b.socket.told ≡ None) }
{
    let Ok(host) = HandmadeHost::new(alloc, 1, PEER) else {
        return None;
    };
    match host.bind(4000, BUFFER, BUFFER) {
        Ok(bound) => Some(bound),
        Err(_) => None,
    }
}
