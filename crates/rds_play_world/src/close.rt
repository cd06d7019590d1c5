ghost use Rattle.std.specs.Prelude.{◌≡◌, ◌<◌, ◌==◌, ℕ, if◌then◌else◌, List, Ok, OnOk};
ghost use Rattle.rds_model.specs.declared.entry.Entry.TheVariants.{Cancel};
ghost use Rattle.rds_model.specs.declared.entry.Target.TheVariants.{All};
ghost use Rattle.rds_model.specs.declared.entry.TheConstants.{MAX_SLOTS};
ghost use Rattle.rds_history.specs.Cancel.{close, unbind};
ghost use Rattle.rds_history.specs.Courses.{and_then, appends, each};
ghost use Rattle.rds_history.specs.Events.{Event};
ghost use Rattle.rds_history.specs.Journals.{peers};
ghost use Rattle.rds_history.specs.Sockets.{next_slot};
ghost use Rattle.rds_play_world.specs.Coming.{Comes};
ghost use Rattle.rds_play_world.specs.Readiness.{LacksMemory};
ghost use Rattle.rds_play_world.specs.Telling.{Tells, state};

use crate::stop::Stop;
use crate::world::World;
use rds_model::Target;
use rds_text::Refusal;

impl World {
    /// Closes the socket at a port of a host: what it sent is taken back, and the port is free again.
    ///
    /// # Errors
    ///
    /// What stops the run: `Memory` where there is none, and `Spent` where a journal that it adds to is full.
    pub fn close(&mut self, host: u8, port: u16) -> Result<(), Stop>
        requires host { host < self.old.count }
        ensures count { self.new.count ≡ self.old.count }
        ensures course { (limit hosts : ℕ) (past : List Event) → Tells limit hosts past (state self.old) →
            Comes limit hosts (close limit hosts host port past) result (state self.new) }
    {
        match self.hosts[usize::from(host)].holder(port) {
            Some(slot) => self.close_slot(host, port, slot),
            None => self.refuse_socket("close", host, port, Refusal::NoSocket),
        }
    }

    // Closes the socket of a slot, which has this port.
    fn close_slot(&mut self, host: u8, port: u16, slot: u16) -> Result<(), Stop>
        requires host { host < self.old.count }
        requires slot { slot < MAX_SLOTS }
        ensures count { self.new.count ≡ self.old.count }
        ensures course { (limit hosts : ℕ) (past : List Event) → Tells limit hosts past (state self.old) → slot < next_slot host past →
            Comes limit hosts (and_then (each (peers hosts host) (λ k. appends limit host k (Cancel slot All)) past)
            (λ later. Ok (unbind host port slot later))) result (state self.new) }
    {
        self.take_all_back(host, slot)?;
        self.free(host, port, slot)
    }

    // Frees the port of a slot's socket, and prints that.
    fn free(&mut self, host: u8, port: u16, slot: u16) -> Result<(), Stop>
        requires host { host < self.old.count }
        ensures count { self.new.count ≡ self.old.count }
        ensures told { (limit hosts : ℕ) (past : List Event) → Tells limit hosts past (state self.old) → slot < next_slot host past →
            OnOk result (Tells limit hosts (unbind host port slot past) (state self.new)) }
        ensures stop { LacksMemory result }
    {
        self.hosts[usize::from(host)].unbind(&mut self.text, host, port, slot)?;
        Ok(())
    }

    // Takes back all datagrams of a slot, at each peer.
    fn take_all_back(&mut self, host: u8, slot: u16) -> Result<(), Stop>
        requires host { host < self.old.count }
        requires slot { slot < MAX_SLOTS }
        ensures count { self.new.count ≡ self.old.count }
        ensures course { (limit hosts : ℕ) (past : List Event) → Tells limit hosts past (state self.old) →
            Comes limit hosts (each (peers hosts host) (λ k. appends limit host k (Cancel slot All)) past) result (state self.new) }
    {
        for peer in 0..self.count {
            self.take_back_at(host, peer, slot)?;
        }
        Ok(())
    }

    // Takes back all datagrams of a slot to a peer. There are none to the host itself.
    fn take_back_at(&mut self, host: u8, peer: u8, slot: u16) -> Result<(), Stop>
        requires host { host < self.old.count }
        requires peer { peer < self.old.count }
        requires slot { slot < MAX_SLOTS }
        ensures count { self.new.count ≡ self.old.count }
        ensures course { (limit hosts : ℕ) (past : List Event) → Tells limit hosts past (state self.old) →
            Comes limit hosts (if peer == host then Ok past else appends limit host peer (Cancel slot All) past) result (state self.new) }
    {
        if peer == host {
            return Ok(());
        }
        self.take_back(host, peer, slot, Target::All)
    }
}
