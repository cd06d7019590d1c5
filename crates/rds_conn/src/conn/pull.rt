ghost use Rattle.std.specs.Prelude.{◌≡◌, ◌≢◌, ◌↔◌, ℕ, ◌<◌, List, [], false, true, None, Some, IfOk, IfErr, IfSome, IsSome, OnOk, OnErr, length};
ghost use Rattle.rds_wire.specs.declared.frame.Frame.{Frame};
ghost use Rattle.rds_model.specs.Past.{Accepted, datagram};
ghost use Rattle.rds_model.specs.Streams.{was_pulled as pulled_before};
ghost use Rattle.rds_model.specs.Alive.{due_numbers, is_alive};
ghost use Rattle.rds_model.specs.Owed.{asks_with, data_frame as owed_data, header_of as owed_header, is_last_map, last_map, map_frame as owed_map, owed_frame, owed_after_map};
ghost use Rattle.rds_conn.specs.Choosing.{IsFirstDue, IsMessage, IsNextDue};
ghost use Rattle.rds_conn.specs.Connection.{IsReady, stream_of};
ghost use Rattle.rds_conn.specs.Pulling.{Pulls, PullsFrame, is_frame};
ghost use Rattle.rds_conn.specs.declared.conn.Pulled.TheVariants as pulled;
ghost use Rattle.rds_conn.specs.declared.conn.ConnError.TheVariants as errors;

use super::{Conn, ConnError, Pulled};
use crate::Out;
use crate::header::{ack_frame, data_flags, header_of, map_frame};
use rds_cong::PortMap;
use rds_model::{Entry, Msg};
use rds_wire::{Frame, Memory};

impl Conn {
    /// Pulls the frame that is owed to the open stream, where the host's own map is `map`: it goes to the journal, and
    /// its bytes to the end of `out`. The map comes first where it isn't the one pulled last on the stream, then the
    /// datagrams that are alive, in the order of their numbers, then an acknowledgement if one is owed.
    ///
    /// # Errors
    ///
    /// `Memory` where there is none for the bytes or for a map: nothing was pulled, and `out` is as before.
    pub fn pull(&mut self, map: &PortMap, out: &mut Out) -> Result<Pulled, ConnError>
        requires { IsReady self.old }
        ensures down { (result ≡ Ok pulled.Down) ↔ (stream_of self.old ≡ None) }
        ensures still { stream_of self.old ≡ None → (self.new ≡ self.old) × (out.new ≡ out.old) }
        ensures owed { IfSome (stream_of self.old) (λ s.
            IfOk result (Pulls s (owed_frame s self.old.log.past map.now) self.old self.new out.old out.new)) }
        ensures some { IfOk result (λ came. is_frame came ≡ true → out.new ≢ []) }
        ensures stream { stream_of self.new ≡ stream_of self.old }
        ensures behind { IfSome (stream_of self.old) (λ s. OnOk result (last_map s self.new.log.past ≡ Some map.now)) }
        ensures err { OnErr result ((self.new ≡ self.old) × (out.new ≡ out.old)) }
        ensures memory { IfErr result (λ e. e ≡ errors.Memory) }
    {
        let Some(stream) = self.stream else {
            return Ok(Pulled::Down);
        };
        if !self.has_pulled(map) {
            return self.pull_map(stream, map, out);
        }
        self.pull_behind(out)
    }

    /// Pulls the frame that is owed to the open stream, where the host's own map is the one that was pulled last on it.
    /// It does what `pull` does with that map, without a look at its 65,536 bits.
    ///
    /// # Errors
    ///
    /// `Memory` where there is none for the bytes: nothing was pulled, and `out` is as before.
    pub fn pull_behind(&mut self, out: &mut Out) -> Result<Pulled, ConnError>
        requires ready { IsReady self.old }
        requires on { IsSome (stream_of self.old) }
        requires behind { IfSome (stream_of self.old) (λ s. IsSome (last_map s self.old.log.past)) }
        ensures owed { (s : ℕ) (map : List ℕ) → stream_of self.old ≡ Some s → last_map s self.old.log.past ≡ Some map →
            IfOk result (Pulls s (owed_frame s self.old.log.past map) self.old self.new out.old out.new) }
        ensures some { IfOk result (λ came. is_frame came ≡ true → out.new ≢ []) }
        ensures stream { stream_of self.new ≡ stream_of self.old }
        ensures map { (s : ℕ) → stream_of self.old ≡ Some s → last_map s self.new.log.past ≡ last_map s self.old.log.past }
        ensures err { OnErr result ((self.new ≡ self.old) × (out.new ≡ out.old)) }
        ensures memory { IfErr result (λ e. e ≡ errors.Memory) }
    {
        let Some(stream) = self.stream else {
            unreachable!()
        };
        match self.next_due() {
            Some(msg) => self.pull_data(stream, msg, out),
            None => self.pull_ack(stream, out),
        }
    }

    // Whether the map was pulled last on the open stream.
    fn has_pulled(&self, map: &PortMap) -> bool
        ensures { (s : ℕ) → stream_of self.now ≡ Some s → result ≡ is_last_map (last_map s self.now.log.past) map.now }
    {
        self.mapped && self.map.same(map)
    }

    fn next_due(&self) -> Option<Msg>
        ensures { (s : ℕ) → stream_of self.now ≡ Some s → IsNextDue s self.now.log.past result }
    {
        self.store.next_to_pull().copied()
    }

    fn pull_map(&mut self, stream: u32, map: &PortMap, out: &mut Out) -> Result<Pulled, ConnError>
        requires ready { IsReady self.old }
        requires on { stream_of self.old ≡ Some stream }
        requires new { is_last_map (last_map stream self.old.log.past) map.now ≡ false }
        ensures owed { IfOk result (PullsFrame stream (owed_map self.old.log.past map.now) self.old self.new out.old out.new) }
        ensures err { OnErr result ((self.new ≡ self.old) × (out.new ≡ out.old)) }
        ensures memory { IfErr result (λ e. e ≡ errors.Memory) }
    {
        map.known();
        let frame = map_frame(self.alloc, self.last, map)?;
        out.append(&frame)?;
        self.journal.push(Entry::Pull { stream, frame });
        self.spare -= 1;
        self.mapped = true;
        self.map.copy_from(map);
        self.asking = self.asking.after_map();
        Ok(Pulled::Map)
    }

    fn pull_data(&mut self, stream: u32, msg: Msg, out: &mut Out) -> Result<Pulled, ConnError>
        requires ready { IsReady self.old }
        requires on { stream_of self.old ≡ Some stream }
        requires behind { IsSome (last_map stream self.old.log.past) }
        requires due { IsFirstDue stream self.old.log.past msg }
        ensures owed { (d : Accepted) → datagram self.old.log.past msg.num ≡ Some d →
            IfOk result (PullsFrame stream (owed_data stream self.old.log.past msg.num d) self.old self.new out.old out.new) }
        ensures err { OnErr result ((self.new ≡ self.old) × (out.new ≡ out.old)) }
        ensures memory { IfErr result (λ e. e ≡ errors.Memory) }
    {
        self.map.known();
        let asks = self.has_to_ask(stream, msg);
        let frame = self.data_frame(msg, data_flags(self.was_pulled(msg), asks))?;
        out.append(&frame)?;
        self.journal.push(Entry::Pull { stream, frame });
        self.spare -= 1;
        self.store.mark_pulled();
        self.highest = self.highest.max(msg.num);
        self.asking = self.asking.after_datagram(msg.len, asks);
        Ok(Pulled::Data)
    }

    // Whether a datagram was pulled on an earlier stream.
    fn was_pulled(&self, msg: Msg) -> bool
        requires { is_alive self.now.log.past msg.num ≡ true }
        ensures { result ≡ pulled_before self.now.log.past msg.num }
    {
        msg.num <= self.highest
    }

    // Whether a datagram has to ask for an acknowledgement, by the flag ACK_REQUIRED: it was pulled before, or enough datagrams went unasked, or
    // it is the last one.
    fn has_to_ask(&self, stream: u32, msg: Msg) -> bool
        requires on { stream_of self.now ≡ Some stream }
        requires due { IsFirstDue stream self.now.log.past msg }
        ensures { (d : Accepted) → datagram self.now.log.past msg.num ≡ Some d →
            result ≡ asks_with stream self.now.log.past msg.num d }
    {
        self.was_pulled(msg) || (self.asking.is_due(msg.len) || self.store.is_last())
    }

    fn pull_ack(&mut self, stream: u32, out: &mut Out) -> Result<Pulled, ConnError>
        requires ready { IsReady self.old }
        requires on { stream_of self.old ≡ Some stream }
        requires behind { IsSome (last_map stream self.old.log.past) }
        requires none { due_numbers stream self.old.log.past ≡ [] }
        ensures owed { IfOk result (Pulls stream (owed_after_map stream self.old.log.past []) self.old self.new out.old out.new) }
        ensures err { OnErr result ((self.new ≡ self.old) × (out.new ≡ out.old)) }
        ensures memory { IfErr result (λ e. e ≡ errors.Memory) }
    {
        if !self.asking.owes() {
            return Ok(Pulled::Nothing);
        }
        self.map.known();
        let frame = ack_frame(self.alloc, self.last, self.asking.must_ask)?;
        out.append(&frame)?;
        self.journal.push(Entry::Pull { stream, frame });
        self.spare -= 1;
        self.asking = self.asking.after_acknowledgement();
        Ok(Pulled::Ack)
    }

    // The frame of a message, with the ports and the payload that its `Accept` has.
    fn data_frame(&self, msg: Msg, flags: u8) -> Result<Frame, Memory>
        requires { IsMessage self.now.log.past msg }
        ensures { IfOk result (λ f. (d : Accepted) → datagram self.now.log.past msg.num ≡ Some d → f ≡ record {
          header = owed_header self.now.log.past msg.num (length d.payload) d.sport d.dport flags;
          payload = d.payload;
        }) }
    {
        let Some(entry) = self.journal.at(msg.place) else {
            unreachable!()
        };
        match entry {
            Entry::Accept {
                sport,
                dport,
                payload,
                ..
            } => {
                let payload = payload.share()?;
                let header = header_of(self.last, msg.num, msg.len, *sport, *dport, flags);
                Ok(Frame { header, payload })
            }
            _ => unreachable!(),
        }
    }
}
