ghost use Rattle.std.specs.Prelude.{◌≡◌, ◌≢◌, ◌<◌, ◌∷◌, ℕ, Some, None, List, OnOk};
ghost use Rattle.rds_wire.specs.declared.frame.Frame.{Frame};
ghost use Rattle.rds_model.specs.declared.entry.Entry.TheVariants.{Read};
ghost use Rattle.rds_model.specs.declared.entry.Outcome.TheVariants as outcomes;
ghost use Rattle.rds_model.specs.declared.entry.Verdict.TheVariants as verdicts;
ghost use Rattle.rds_model.specs.Past.{open_stream};
ghost use Rattle.rds_model.specs.Reading.{verdict_of};
ghost use Rattle.rds_play_mesh.specs.Ends.{end_at};
ghost use Rattle.rds_history.specs.Events.{Event, Appended};
ghost use Rattle.rds_history.specs.Journals.{journal};
ghost use Rattle.rds_history.specs.Mark.{update_mark};
ghost use Rattle.rds_history.specs.PullAndRead.{read, read_on};
ghost use Rattle.rds_history.specs.Sockets.{next_slot};
ghost use Rattle.rds_play_world.specs.Happening.{FrameWaits, IsRead, outcome_here, IsOnlyPassed};
ghost use Rattle.rds_play_world.specs.Readiness.{LacksMemory};
ghost use Rattle.rds_play_world.specs.Telling.{HostsTell, PeersTell, Tells, state};

use crate::opening::or_memory;
use crate::printing::print;
use crate::stop::Stop;
use crate::world::{World, place};
use rds_model::Verdict;
use rds_wire::Memory;

impl World {
    /// A host reads the frame from a peer that has come whole, if one has: a datagram goes to the socket that holds its port.
    pub(crate) fn read(&mut self, host: u8, peer: u8) -> Result<(), Stop>
        requires host { host < self.old.count }
        requires peer { peer < self.old.count }
        requires apart { peer ≢ host }
        ensures count { self.new.count ≡ self.old.count }
        ensures told { (limit hosts stream : ℕ) (f : Frame) (past : List Event) → FrameWaits limit hosts host peer stream f past (state self.old) →
            OnOk result (Tells limit hosts (read host peer past) (state self.new)) }
        ensures stop { LacksMemory result }
    {
        let Some(verdict) = self.mesh.verdict(host, peer) else {
            return Ok(());
        };
        match verdict {
            Verdict::Deliver { dport } => self.read_datagram(host, peer, dport),
            Verdict::Ping => self.read_ping(host, peer),
            Verdict::Map => self.read_map(host, peer),
            Verdict::Old | Verdict::Void | Verdict::AckOnly | Verdict::OddMap => {
                self.read_quietly(host, peer)
            }
        }
    }

    // Reads a datagram to a port.
    fn read_datagram(&mut self, host: u8, peer: u8, port: u16) -> Result<(), Stop>
        requires host { host < self.old.count }
        requires peer { peer < self.old.count }
        requires apart { peer ≢ host }
        ensures count { self.new.count ≡ self.old.count }
        ensures told { (limit hosts stream : ℕ) (f : Frame) (past : List Event) → FrameWaits limit hosts host peer stream f past (state self.old) →
            verdict_of (journal host peer past) f.header ≡ verdicts.Deliver port →
            OnOk result (Tells limit hosts (read_on host peer stream f past) (state self.new)) }
        ensures stop { LacksMemory result }
    {
        let Some(slot) = self.hosts[usize::from(host)].holder(port) else {
            return self.read_quietly(host, peer);
        };
        self.deliver(host, peer, slot)?;
        self.mark_port(host, port, slot)
    }

    // Reads a datagram to the socket of a slot.
    fn deliver(&mut self, host: u8, peer: u8, slot: u16) -> Result<(), Stop>
        requires host { host < self.old.count }
        requires peer { peer < self.old.count }
        requires apart { peer ≢ host }
        ensures count { self.new.count ≡ self.old.count }
        ensures told { (limit hosts stream : ℕ) (f : Frame) (past : List Event) → FrameWaits limit hosts host peer stream f past (state self.old) →
            outcome_here (Some slot) (end_at host peer self.old.mesh) f ≡ outcomes.Slot slot → slot < next_slot host past →
            OnOk result (Tells limit hosts (Appended host peer (Read stream f (outcomes.Slot slot)) ∷ past) (state self.new)) }
        ensures stop { LacksMemory result }
    {
        self.take_in(host, peer, slot)?;
        self.pass(host, peer, Some(slot))
    }

    // Queues the datagram that waits at the socket of a slot.
    fn take_in(&mut self, host: u8, peer: u8, slot: u16) -> Result<(), Memory>
        requires host { host < self.old.count }
        requires peer { peer < self.old.count }
        requires apart { peer ≢ host }
        ensures count { self.new.count ≡ self.old.count }
        ensures queued { (limit hosts stream : ℕ) (f : Frame) (past : List Event) → FrameWaits limit hosts host peer stream f past (state self.old) →
            slot < next_slot host past →
            OnOk result (HostsTell hosts (Appended host peer (Read stream f (outcomes.Slot slot)) ∷ past) (state self.new).hosts) }
        ensures rest { state self.new ≡ record (state self.old) { hosts = (state self.new).hosts } }
    {
        match self.mesh.waiting(host, peer) {
            Some(frame) => self.hosts[usize::from(host)].take_in(peer, frame, slot),
            None => Ok(()),
        }
    }

    // Sets or clears the congestion bit of the port of a slot, and prints the change.
    fn mark_port(&mut self, host: u8, port: u16, slot: u16) -> Result<(), Stop>
        requires host { host < self.old.count }
        ensures count { self.new.count ≡ self.old.count }
        ensures told { (limit hosts : ℕ) (past : List Event) → Tells limit hosts past (state self.old) → slot < next_slot host past →
            OnOk result (Tells limit hosts (update_mark host port slot past) (state self.new)) }
        ensures stop { LacksMemory result }
    {
        self.hosts[usize::from(host)].mark(&mut self.text, host, port, slot)?;
        Ok(())
    }

    // Reads a frame that goes to no socket, and that nothing answers.
    fn read_quietly(&mut self, host: u8, peer: u8) -> Result<(), Stop>
        requires host { host < self.old.count }
        requires peer { peer < self.old.count }
        requires apart { peer ≢ host }
        ensures count { self.new.count ≡ self.old.count }
        ensures told { (limit hosts stream : ℕ) (f : Frame) (past : List Event) → FrameWaits limit hosts host peer stream f past (state self.old) →
            IsOnlyPassed (outcome_here None (end_at host peer self.old.mesh) f) →
            OnOk result (Tells limit hosts (Appended host peer (Read stream f (outcome_here None (end_at host peer self.old.mesh) f)) ∷ past) (state self.new)) }
        ensures stop { LacksMemory result }
    {
        self.pass(host, peer, None)
    }

    // Reads a ping, and answers it at once.
    fn read_ping(&mut self, host: u8, peer: u8) -> Result<(), Stop>
        requires host { host < self.old.count }
        requires peer { peer < self.old.count }
        requires apart { peer ≢ host }
        ensures count { self.new.count ≡ self.old.count }
        ensures told { (limit hosts stream : ℕ) (f : Frame) (past : List Event) → FrameWaits limit hosts host peer stream f past (state self.old) →
            verdict_of (journal host peer past) f.header ≡ verdicts.Ping →
            OnOk result (Tells limit hosts (read_on host peer stream f past) (state self.new)) }
        ensures stop { LacksMemory result }
    {
        self.pass(host, peer, None)?;
        self.print_newest(host, peer)
    }

    // Reads the congestion map of a peer, and keeps it.
    fn read_map(&mut self, host: u8, peer: u8) -> Result<(), Stop>
        requires host { host < self.old.count }
        requires peer { peer < self.old.count }
        requires apart { peer ≢ host }
        ensures count { self.new.count ≡ self.old.count }
        ensures told { (limit hosts stream : ℕ) (f : Frame) (past : List Event) → FrameWaits limit hosts host peer stream f past (state self.old) →
            verdict_of (journal host peer past) f.header ≡ verdicts.Map →
            OnOk result (Tells limit hosts (read_on host peer stream f past) (state self.new)) }
        ensures stop { LacksMemory result }
    {
        self.keep_map(host, peer)?;
        self.pass(host, peer, None)
    }

    // Keeps the congestion map that waits.
    fn keep_map(&mut self, host: u8, peer: u8) -> Result<(), Memory>
        requires host { host < self.old.count }
        requires peer { peer < self.old.count }
        requires apart { peer ≢ host }
        ensures count { self.new.count ≡ self.old.count }
        ensures kept { (limit hosts stream : ℕ) (f : Frame) (past : List Event) → FrameWaits limit hosts host peer stream f past (state self.old) →
            verdict_of (journal host peer past) f.header ≡ verdicts.Map →
            OnOk result (PeersTell hosts (Appended host peer (Read stream f outcomes.Map) ∷ past) (state self.new).peers) }
        ensures rest { state self.new ≡ record (state self.old) { peers = (state self.new).peers } }
    {
        self.mesh.known(host, peer);
        let _entries = self.mesh.journal(host, peer).len();
        let Some(frame) = self.mesh.waiting(host, peer) else {
            return Ok(());
        };
        match frame.payload.as_slice().first_chunk::<8192>() {
            Some(bytes) => self.peers[place(host, peer)].keep(self.alloc, bytes),
            None => Ok(()),
        }
    }

    // Passes the frame that waits, and prints its line.
    fn pass(&mut self, host: u8, peer: u8, slot: Option<u16>) -> Result<(), Stop>
        requires host { host < self.old.count }
        requires peer { peer < self.old.count }
        requires apart { peer ≢ host }
        ensures count { self.new.count ≡ self.old.count }
        ensures read { (stream : ℕ) (f : Frame) → (end_at host peer self.old.mesh).waiting ≡ Some f →
            open_stream (end_at host peer self.old.mesh).past ≡ Some stream →
            OnOk result (IsRead host peer stream f (outcome_here slot (end_at host peer self.old.mesh) f) (state self.old) (state self.new)) }
        ensures stop { LacksMemory result }
    {
        let first = self.mesh.journal(host, peer).len();
        or_memory(self.mesh.pass(host, peer, slot))?;
        print(&mut self.text, &self.mesh, host, peer, first)?;
        Ok(())
    }
}
