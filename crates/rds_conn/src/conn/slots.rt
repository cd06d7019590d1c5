//! What a connection does for the slots of sockets.
ghost use Rattle.std.specs.Prelude.{◌≡◌, ◌↔◌, OnOk, OnErr, IfSome, IfNone, IsNone, sum};
ghost use Rattle.rds_model.specs.Alive.{covered};
ghost use Rattle.rds_conn.specs.Freeing.{HandsOutFreed};

use super::Conn;
use crate::freed::Freed;
use rds_model::Target;
use rds_wire::Memory;

impl Conn {
    /// Replaces `out` by the numbers of the datagrams that a cancellation by this socket would take back now, ascending.
    ///
    /// # Errors
    ///
    /// Where there is no memory for them. `out` is as before.
    pub fn covered(&self, slot: u16, target: &Target, out: &mut Vec<u64>) -> Result<(), Memory>
        ensures ok { OnOk result (out.new.items ≡ covered slot target.now self.now.log.past) }
        ensures err { OnErr result (out.new.items ≡ out.old.items) }
    {
        self.store.covered(slot, target, out)
    }

    /// Takes out freed bytes of one socket: bytes of its datagrams that were acknowledged or taken back, so that the
    /// socket may send as many again. At most 1,048,576 at a time, from the lowest slot that has any; `None` where no slot
    /// has.
    pub fn take_freed(&mut self) -> Option<Freed>
        ensures none { IsNone result ↔ (sum self.old.freed ≡ 0) }
        ensures some { IfSome result (HandsOutFreed self.old.freed self.new.freed) }
        ensures same { IfNone result (self.new ≡ self.old) }
        ensures rest { self.new ≡ record self.old { freed = self.new.freed } }
    {
        match self.freed.take() {
            Some(freed) => {
                self.charges.take(freed.slot, freed.bytes);
                Some(freed)
            }
            None => None,
        }
    }
}
