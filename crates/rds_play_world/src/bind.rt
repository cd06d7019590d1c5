ghost use Rattle.std.specs.Prelude.{◌≡◌, ℕ, ◌≤◌, ◌<◌, ◌∷◌, List, OnOk, get_or, vec_len};
ghost use Rattle.rds_history.specs.Bind.{bind, bind_any};
ghost use Rattle.rds_history.specs.Courses.{prints};
ghost use Rattle.rds_history.specs.Events.{Event, Bound};
ghost use Rattle.rds_history.specs.Sockets.{next_slot};
ghost use Rattle.rds_text.specs.Refusals.{refusal_text, socket_refused_line as line_of_refused};
ghost use Rattle.rds_model.specs.declared.entry.TheConstants.{MAX_SLOTS};
ghost use Rattle.rds_play_hosts.specs.declared.host.ScriptHost.{ScriptHost};
ghost use Rattle.rds_play_world.specs.Coming.{Comes};
ghost use Rattle.rds_play_world.specs.Readiness.{LacksMemory};
ghost use Rattle.rds_play_world.specs.Telling.{Tells, state};

use crate::stop::Stop;
use crate::world::World;
use rds_text::{Refusal, bind_line, socket_refused_line};

impl World {
    /// Binds a socket of a host to a port.
    ///
    /// # Errors
    ///
    /// What stops the run: `Memory` where there is none, and `Spent` where a journal that it adds to is full.
    pub fn bind(&mut self, host: u8, port: u16, sndbuf: u32, rcvbuf: u32) -> Result<(), Stop>
        requires host { host < self.old.count }
        requires roomy { 2 ≤ rcvbuf }
        ensures count { self.new.count ≡ self.old.count }
        ensures course { (limit hosts : ℕ) (past : List Event) → Tells limit hosts past (state self.old) →
            Comes limit hosts (bind host port sndbuf rcvbuf past) result (state self.new) }
    {
        match self.hosts[usize::from(host)].bind_refusal(port) {
            Some(why) => self.refuse_socket("bind", host, port, why),
            None => self.add_socket(host, port, sndbuf, rcvbuf),
        }
    }

    // Binds a socket to a port that is free, and prints that.
    fn add_socket(&mut self, host: u8, port: u16, sndbuf: u32, rcvbuf: u32) -> Result<(), Stop>
        requires host { host < self.old.count }
        requires roomy { 2 ≤ rcvbuf }
        requires room { (x : ScriptHost) → x ≡ get_or self.old.hosts.items host x → vec_len x.sockets < MAX_SLOTS }
        ensures count { self.new.count ≡ self.old.count }
        ensures bound { (limit hosts : ℕ) (past : List Event) → Tells limit hosts past (state self.old) → OnOk result
            (Tells limit hosts (Bound host port (next_slot host past) sndbuf rcvbuf ∷ past) (state self.new)) }
        ensures stop { LacksMemory result }
    {
        let alloc = self.alloc;
        let slot = self.hosts[usize::from(host)].add(alloc, port, sndbuf, rcvbuf)?;
        bind_line(&mut self.text, host, port, slot)?;
        Ok(())
    }

    /// Binds a socket of a host to the first free port from `start` upward, and round the top to 2.
    ///
    /// # Errors
    ///
    /// What stops the run: `Memory` where there is none, and `Spent` where a journal that it adds to is full.
    pub fn bind_any(&mut self, host: u8, start: u16, sndbuf: u32, rcvbuf: u32) -> Result<(), Stop>
        requires host { host < self.old.count }
        requires roomy { 2 ≤ rcvbuf }
        ensures count { self.new.count ≡ self.old.count }
        ensures course { (limit hosts : ℕ) (past : List Event) → Tells limit hosts past (state self.old) →
            Comes limit hosts (bind_any host start sndbuf rcvbuf past) result (state self.new) }
    {
        let port = self.hosts[usize::from(host)].free_port(start);
        self.bind(host, port.unwrap_or(start), sndbuf, rcvbuf)
    }

    /// Prints why a command on a socket is refused.
    pub(crate) fn refuse_socket(
        &mut self,
        verb: &str,
        host: u8,
        port: u16,
        why: Refusal,
    ) -> Result<(), Stop>
        requires host { host < self.old.count }
        ensures count { self.new.count ≡ self.old.count }
        ensures course { (limit hosts : ℕ) (past : List Event) → Tells limit hosts past (state self.old) →
            Comes limit hosts (prints (line_of_refused verb.now host port (refusal_text why)) past) result (state self.new) }
    {
        socket_refused_line(&mut self.text, verb, host, port, why)?;
        Ok(())
    }
}
