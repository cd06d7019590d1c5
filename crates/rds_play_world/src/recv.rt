ghost use Rattle.std.specs.Prelude.{◌≡◌, ℕ, ◌<◌, true, false, [], ◌∷◌, IfOk, List, OnOk};
ghost use Rattle.rds_model.specs.declared.order.Datagram.{Datagram};
ghost use Rattle.rds_history.specs.Events.{Event, Received};
ghost use Rattle.rds_history.specs.Mark.{update_mark};
ghost use Rattle.rds_history.specs.Recv.{recv};
ghost use Rattle.rds_history.specs.Sockets.{next_slot, queue};
ghost use Rattle.rds_play_world.specs.Coming.{Comes};
ghost use Rattle.rds_play_world.specs.Readiness.{LacksMemory};
ghost use Rattle.rds_play_world.specs.Telling.{Tells, state};

use crate::stop::Stop;
use crate::world::World;
use rds_text::{Refusal, recv_none_line};

impl World {
    /// Receives the datagram that has waited longest at the socket at a port of a host.
    ///
    /// # Errors
    ///
    /// What stops the run: `Memory` where there is none, and `Spent` where a journal that it adds to is full.
    pub fn recv(&mut self, host: u8, port: u16) -> Result<(), Stop>
        requires host { host < self.old.count }
        ensures count { self.new.count ≡ self.old.count }
        ensures course { (limit hosts : ℕ) (past : List Event) → Tells limit hosts past (state self.old) →
            Comes limit hosts (recv host port past) result (state self.new) }
    {
        let Some(slot) = self.hosts[usize::from(host)].holder(port) else {
            return self.refuse_socket("recv", host, port, Refusal::NoSocket);
        };
        if self.hand_out(host, port, slot)? {
            return self.mark(host, port, slot);
        }
        recv_none_line(&mut self.text, host, port)?;
        Ok(())
    }

    // Hands out the datagram that has waited longest in a slot, and prints it. Answers whether there was one.
    fn hand_out(&mut self, host: u8, port: u16, slot: u16) -> Result<bool, Stop>
        requires host { host < self.old.count }
        ensures count { self.new.count ≡ self.old.count }
        ensures none { (limit hosts : ℕ) (past : List Event) → slot < next_slot host past → Tells limit hosts past (state self.old) →
            queue host slot past ≡ [] → IfOk result (λ some. (some ≡ false) × Tells limit hosts past (state self.new)) }
        ensures some { (limit hosts : ℕ) (past : List Event) → slot < next_slot host past → Tells limit hosts past (state self.old) →
            (d : Datagram) (waiting : List Datagram) → queue host slot past ≡ d ∷ waiting →
            IfOk result (λ some. (some ≡ true) × Tells limit hosts (Received host port slot d ∷ past) (state self.new)) }
        ensures stop { LacksMemory result }
    {
        let some = self.hosts[usize::from(host)].hand_out(&mut self.text, host, port, slot)?;
        Ok(some)
    }

    // Sets or clears the congestion bit of a slot's port by what is queued there, and prints the change.
    fn mark(&mut self, host: u8, port: u16, slot: u16) -> Result<(), Stop>
        requires host { host < self.old.count }
        ensures count { self.new.count ≡ self.old.count }
        ensures marked { (limit hosts : ℕ) (past : List Event) → slot < next_slot host past → Tells limit hosts past (state self.old) →
            OnOk result (Tells limit hosts (update_mark host port slot past) (state self.new)) }
        ensures stop { LacksMemory result }
    {
        self.hosts[usize::from(host)].mark(&mut self.text, host, port, slot)?;
        Ok(())
    }
}
