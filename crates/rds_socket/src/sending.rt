//! How a datagram is sent.
ghost use Rattle.std.specs.Prelude.{◌≡◌, ◌+◌, ◌<◌, ◌≤◌, length, None, IfOk, IfErr, OnOk, OnErr};
ghost use Rattle.rds_wire.specs.declared.kind.TheConstants.{MAX_LENGTH};
ghost use Rattle.rds_socket_parts.specs.Lanes.{LeadsTo, IsPutAt};
ghost use Rattle.rds_socket.specs.Sends.{SendFits, RefusalFits, FindsPortClear, FitsBuffer, after_put, order_of, IsSend, IsSendOf};
ghost use Rattle.rds_socket.specs.Holding.{most_sent};
ghost use Rattle.rds_socket.specs.Stays.{Stays};
ghost use Rattle.rds_socket.specs.declared.error.SendError.TheVariants as refusal;

use crate::error::SendError;
use crate::socket::Socket;
use rds_fmap::MapReader;
use rds_mail::Asked;
use rds_model::Order;
use rds_wire::{MAX_LENGTH, Payload};
use std::sync::Wait;

impl<R: MapReader> Socket<R> {
    /// Puts a datagram on the order queue of the connection with the peer. It doesn't wait.
    ///
    /// # Errors
    ///
    /// The payload is handed back with the first of these reasons that holds: the datagram is too long, no connection
    /// leads to the peer, the port is congested, the send buffer is too full, memory runs out.
    pub fn send<W: Wait>(
        &mut self,
        rt: &W,
        peer: u32,
        dport: u16,
        payload: Payload,
    ) -> Result<(), (Payload, SendError)>
        requires { self.old.told ≡ None }
        ensures answer { SendFits R.is_look peer dport payload self.old result self.new }
        ensures stays { Stays R.pair R.has_seen self.old self.new }
    {
        let place = match self.check(peer, dport, &payload) {
            Ok(place) => place,
            Err(error) => return Err((payload, error)),
        };
        self.put(rt, place, dport, payload)
    }

    // The place of the peer's route, where a datagram to the port would be accepted.
    fn check(&mut self, peer: u32, dport: u16, payload: &Payload) -> Result<usize, SendError>
        ensures clear { IfOk result (λ place. FindsPortClear R.is_look peer dport payload.now self.old self.new.own.routes) }
        ensures place { IfOk result (λ place. LeadsTo self.new.own.routes peer place) }
        ensures fits { IfOk result (λ _. FitsBuffer (length payload.now) self.old self.new) }
        ensures refused { IfErr result (λ e. RefusalFits R.is_look peer dport payload.now self.old e self.new) }
        ensures stays { Stays R.pair R.has_seen self.old self.new }
    {
        let len = payload.len();
        let limit = self.sndbuf.min(MAX_LENGTH);
        if len > limit {
            return Err(SendError::TooLong { len, limit });
        }
        let Some(place) = self.routes.find(peer) else {
            return Err(SendError::NoRoute { peer });
        };
        let seen = self.routes.look(place, dport);
        if seen.set {
            return Err(SendError::Congested {
                port: dport,
                version: seen.version,
            });
        }
        let queued = self.total.saturating_sub(self.words.freed());
        let limit = self.sndbuf;
        let is_full = queued + u64::from(len) > u64::from(limit);
        if is_full {
            return Err(SendError::SendFull { queued, len, limit });
        }
        Ok(place)
    }

    // Puts a datagram on the queue of the route at this place, and then counts its bytes.
    fn put<W: Wait>(
        &mut self,
        rt: &W,
        place: usize,
        dport: u16,
        payload: Payload,
    ) -> Result<(), (Payload, SendError)>
        requires len { length payload ≤ MAX_LENGTH }
        requires place { place < length self.old.own.routes }
        requires total { self.old.own.total + length payload ≤ most_sent }
        ensures put { OnOk result (IsPutAt place (order_of self.old dport payload) self.old.own.routes self.new.own.routes) }
        ensures counted { OnOk result (self.new ≡ after_put self.old self.new.own.routes (length payload)) }
        ensures back { IfErr result (λ r. (r.0 ≡ payload) × (r.1 ≡ refusal.Memory)) }
        ensures same { OnErr result (self.new ≡ self.old) }
        ensures stays { Stays R.pair R.has_seen self.old self.new }
    {
        let len = payload.len();
        let item = Asked::new(Order::Send {
            slot: self.words.slot(),
            sport: self.port,
            dport,
            payload,
        });
        if let Err(item) = self.routes.put(rt, place, item) {
            return Err((payload_of(item), SendError::Memory));
        }
        self.total += u64::from(len);
        Ok(())
    }
}

// The payload of a datagram that was handed back.
fn payload_of(item: Asked) -> Payload
    requires { IsSend item }
    ensures { IsSendOf item result }
{
    let Order::Send { payload, .. } = item.order() else {
        unreachable!()
    };
    payload
}
