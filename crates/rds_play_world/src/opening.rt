ghost use Rattle.std.specs.Prelude.{◌≡◌, ◌≢◌, ◌<◌, ◌∷◌, ◌++◌, ℕ, None, Some, IsSome, List, OnOk, length};
ghost use Rattle.rds_model.specs.declared.entry.Entry.{Entry};
ghost use Rattle.rds_model.specs.Past.{accepted, open_stream};
ghost use Rattle.rds_text.specs.Lines.{cut_line as line_of_cut};
ghost use Rattle.rds_text.specs.Refusals.{pair_refused_line as line_of_refused, refusal_text};
ghost use Rattle.rds_play_mesh.specs.Ends.{end_at};
ghost use Rattle.rds_history.specs.Courses.{if_room, prints};
ghost use Rattle.rds_history.specs.Events.{Event};
ghost use Rattle.rds_history.specs.Journals.{in_flight, journal};
ghost use Rattle.rds_history.specs.Open.{cut, open_both, open_pair};
ghost use Rattle.rds_history.specs.Transcript.{entry_line};
ghost use Rattle.rds_play_world.specs.Coming.{Comes, ComesWaiting};
ghost use Rattle.rds_play_world.specs.Happening.{both_opened, both_shut, shut_both};
ghost use Rattle.rds_play_world.specs.Printing.{PrintsAlone};
ghost use Rattle.rds_play_world.specs.Readiness.{LacksMemory, or_memory};
ghost use Rattle.rds_play_world.specs.Telling.{Tells, TellsWaiting, Waiting, state};

use crate::printing::print;
use crate::stop::{Full, Stop};
use crate::world::World;
use rds_play_mesh::PairError;
use rds_text::{Refusal, cut_line, pair_refused_line};

/// Where there is room in the journals, a step fails for want of memory alone.
pub(crate) fn or_memory<T: Drop>(tried: Result<T, PairError>) -> Result<T, Stop>
    ensures { result ≡ or_memory tried }
{
    match tried {
        Ok(value) => Ok(value),
        Err(_) => Err(Stop::Memory),
    }
}

impl World {
    /// Opens a stream between two hosts.
    ///
    /// # Errors
    ///
    /// What stops the run: `Memory` where there is none, and `Spent` where a journal that it adds to is full.
    pub fn open(&mut self, host: u8, peer: u8) -> Result<(), Stop>
        requires host { host < self.old.count }
        requires peer { peer < self.old.count }
        requires apart { peer ≢ host }
        ensures count { self.new.count ≡ self.old.count }
        ensures course { (limit hosts : ℕ) (past : List Event) → Tells limit hosts past (state self.old) →
            Comes limit hosts (open_pair limit host peer past) result (state self.new) }
    {
        if self.mesh.stream(host, peer).is_some() {
            return self.refuse_pair("open", host, peer, Refusal::Open);
        }
        self.open_both(host, peer)
    }

    /// Opens a stream between two hosts that have none.
    pub(crate) fn open_both(&mut self, host: u8, peer: u8) -> Result<(), Stop>
        requires host { host < self.old.count }
        requires peer { peer < self.old.count }
        requires apart { peer ≢ host }
        ensures count { self.new.count ≡ self.old.count }
        ensures course { (limit hosts : ℕ) (past : List Event) → Tells limit hosts past (state self.old) →
            open_stream (journal host peer past) ≡ None → Comes limit hosts (open_both limit host peer past) result (state self.new) }
    {
        self.ready(host, peer)?;
        self.ready(peer, host)?;
        self.open_ends(host, peer)
    }

    // Opens the next stream at both ends, where none is open, and prints that.
    fn open_ends(&mut self, host: u8, peer: u8) -> Result<(), Stop>
        requires host { host < self.old.count }
        requires peer { peer < self.old.count }
        requires apart { peer ≢ host }
        ensures count { self.new.count ≡ self.old.count }
        ensures told { (limit hosts : ℕ) (past : List Event) → Tells limit hosts past (state self.old) →
            open_stream (journal host peer past) ≡ None → OnOk result (Tells limit hosts (both_opened host peer past) (state self.new)) }
        ensures stop { LacksMemory result }
    {
        self.mesh.known(host, peer);
        or_memory(self.mesh.open(host, peer))?;
        self.print_newest(host, peer)?;
        self.print_newest(peer, host)
    }

    /// Cuts the stream between two hosts: what is in flight is lost.
    ///
    /// # Errors
    ///
    /// What stops the run: `Memory` where there is none, and `Spent` where a journal that it adds to is full.
    pub fn cut(&mut self, host: u8, peer: u8) -> Result<(), Stop>
        requires host { host < self.old.count }
        requires peer { peer < self.old.count }
        requires apart { peer ≢ host }
        ensures count { self.new.count ≡ self.old.count }
        ensures course { (limit hosts : ℕ) (past : List Event) → Tells limit hosts past (state self.old) →
            Comes limit hosts (cut limit host peer past) result (state self.new) }
    {
        if self.mesh.stream(host, peer).is_none() {
            return self.refuse_pair("cut", host, peer, Refusal::Down);
        }
        self.tell_loss(host, peer)?;
        self.cut_both(host, peer)
    }

    // Prints how many bytes are in flight between two hosts.
    fn tell_loss(&mut self, host: u8, peer: u8) -> Result<(), Stop>
        requires host { host < self.old.count }
        requires peer { peer < self.old.count }
        requires apart { peer ≢ host }
        ensures count { self.new.count ≡ self.old.count }
        ensures course { (limit hosts : ℕ) (past : List Event) → Tells limit hosts past (state self.old) → Comes limit hosts
            (prints (line_of_cut host peer (length (in_flight host peer past)) (length (in_flight peer host past))) past)
            result (state self.new) }
    {
        let forth = self.mesh.in_flight(host, peer).len();
        let back = self.mesh.in_flight(peer, host).len();
        cut_line(&mut self.text, host, peer, forth, back)?;
        Ok(())
    }

    // Shuts the stream that is open between two hosts at both ends.
    fn cut_both(&mut self, host: u8, peer: u8) -> Result<(), Stop>
        requires host { host < self.old.count }
        requires peer { peer < self.old.count }
        requires apart { peer ≢ host }
        ensures count { self.new.count ≡ self.old.count }
        ensures course { (limit hosts : ℕ) (past : List Event) → Tells limit hosts past (state self.old) →
            IsSome (open_stream (journal host peer past)) →
            Comes limit hosts (shut_both limit host peer past) result (state self.new) }
    {
        self.mesh.known(host, peer);
        self.ready(host, peer)?;
        self.ready(peer, host)?;
        self.shut_ends(host, peer)
    }

    // Shuts the stream at both ends, and prints that.
    fn shut_ends(&mut self, host: u8, peer: u8) -> Result<(), Stop>
        requires host { host < self.old.count }
        requires peer { peer < self.old.count }
        requires apart { peer ≢ host }
        ensures count { self.new.count ≡ self.old.count }
        ensures told { (limit hosts : ℕ) (past : List Event) (stream : ℕ) → Tells limit hosts past (state self.old) →
            open_stream (journal host peer past) ≡ Some stream →
            OnOk result (Tells limit hosts (both_shut host peer stream past) (state self.new)) }
        ensures stop { LacksMemory result }
    {
        self.mesh.known(host, peer);
        or_memory(self.mesh.cut(host, peer))?;
        self.print_newest(host, peer)?;
        self.print_newest(peer, host)
    }

    /// Sees that the journal that a host keeps with a peer has room for two entries more.
    pub(crate) fn ready(&mut self, host: u8, peer: u8) -> Result<(), Stop>
        requires host { host < self.old.count }
        requires peer { peer < self.old.count }
        requires apart { peer ≢ host }
        ensures count { self.new.count ≡ self.old.count }
        ensures course { (waiting : Waiting) (limit hosts : ℕ) (past : List Event) → TellsWaiting waiting limit hosts past (state self.old) →
            ComesWaiting waiting limit hosts (if_room limit host peer past) result (state self.new) }
        ensures same { state self.new ≡ state self.old }
    {
        match self.mesh.reserve(host, peer) {
            Ok(()) => Ok(()),
            Err(PairError::Spent { entries }) => Err(Stop::Spent(Full {
                host,
                peer,
                entries,
            })),
            Err(PairError::Memory) => Err(Stop::Memory),
        }
    }

    /// Prints the newest entry of the journal that a host keeps with a peer.
    pub(crate) fn print_newest(&mut self, host: u8, peer: u8) -> Result<(), Stop>
        requires host { host < self.old.count }
        requires peer { peer < self.old.count }
        requires apart { peer ≢ host }
        ensures count { self.new.count ≡ self.old.count }
        ensures line { OnOk result ((e : Entry) (before : List Entry) → (end_at host peer self.old.mesh).past ≡ e ∷ before →
            PrintsAlone (accepted (e ∷ before)) before e →
            state self.new ≡ record (state self.old) { text = (state self.old).text ++ entry_line host peer before e }) }
        ensures stop { LacksMemory result }
    {
        let newest = self.mesh.journal(host, peer).len().saturating_sub(1);
        print(&mut self.text, &self.mesh, host, peer, newest)?;
        Ok(())
    }

    /// Prints why a command on two hosts is refused.
    pub(crate) fn refuse_pair(
        &mut self,
        verb: &str,
        host: u8,
        peer: u8,
        why: Refusal,
    ) -> Result<(), Stop>
        requires host { host < self.old.count }
        requires peer { peer < self.old.count }
        ensures count { self.new.count ≡ self.old.count }
        ensures course { (limit hosts : ℕ) (past : List Event) → Tells limit hosts past (state self.old) →
            Comes limit hosts (prints (line_of_refused verb.now host peer (refusal_text why)) past) result (state self.new) }
    {
        pair_refused_line(&mut self.text, verb, host, peer, why)?;
        Ok(())
    }
}
