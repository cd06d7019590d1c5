//! How a channel pulls the frame that is owed and writes it to its open stream.
ghost use Rattle.std.specs.Prelude.{◌≡◌, ◌≢◌, ◌≤◌, ℕ, true, Some, IfErr, IfOk, IfSome, IsSome, OnErr, OnOk, List, [], drop, length, take};
ghost use Rattle.rds_link.specs.declared.end.Put.TheVariants as put;
ghost use Rattle.rds_link.specs.Answers.{bytes_put};
ghost use Rattle.rds_model.specs.Owed.{last_map, owed_frame};
ghost use Rattle.rds_conn.specs.Connection.{IsReady, stream_of};
ghost use Rattle.rds_conn.specs.Pulling.{Pulls, is_frame};
ghost use Rattle.rds_line_channel.specs.StreamChanges.{ChangesAt, Sends};
ghost use Rattle.rds_line_channel.specs.Streams.{EndAt, HasSaidOver, newest_place, with_list};

use super::Channel;
use rds_cong::PortMap;
use rds_conn::Pulled;
use rds_link::{End, Put};
use rds_wire::Memory;

impl<E: End> Channel<E> {
    /// Pulls the frame that is owed to the open stream, where the host's own map is `map`.
    ///
    /// # Errors
    ///
    /// Where there is no memory for it. The channel is as before.
    pub fn pull(&mut self, map: &PortMap) -> Result<Pulled, Memory>
        requires ready { IsReady self.old.conn }
        requires open { self.old.streams.is_open ≡ true }
        ensures owed { IfSome (stream_of self.old.conn) (λ s.
            IfOk result (Pulls s (owed_frame s self.old.conn.log.past map.now) self.old.conn self.new.conn self.old.out self.new.out)) }
        ensures some { IfOk result (λ came. is_frame came ≡ true → self.new.out ≢ []) }
        ensures behind { IfSome (stream_of self.old.conn) (λ s. OnOk result (last_map s self.new.conn.log.past ≡ Some map.now)) }
        ensures err { OnErr result (self.new ≡ self.old) }
        ensures rest { self.new ≡ record self.old { conn = self.new.conn; out = self.new.out } }
    {
        self.streams.known();
        match self.conn.pull(map, &mut self.out) {
            Ok(pulled) => Ok(pulled),
            Err(_) => Err(Memory),
        }
    }

    /// Pulls the frame that is owed to the open stream, where the host's own map is the one that was pulled last on it, without
    /// a look at the map.
    ///
    /// # Errors
    ///
    /// Where there is no memory for it. The channel is as before.
    pub fn pull_behind(&mut self) -> Result<Pulled, Memory>
        requires ready { IsReady self.old.conn }
        requires open { self.old.streams.is_open ≡ true }
        requires behind { IfSome (stream_of self.old.conn) (λ s. IsSome (last_map s self.old.conn.log.past)) }
        ensures owed { (s : ℕ) (map : List ℕ) → stream_of self.old.conn ≡ Some s → last_map s self.old.conn.log.past ≡ Some map →
            IfOk result (Pulls s (owed_frame s self.old.conn.log.past map) self.old.conn self.new.conn self.old.out self.new.out) }
        ensures some { IfOk result (λ came. is_frame came ≡ true → self.new.out ≢ []) }
        ensures map { (s : ℕ) → stream_of self.old.conn ≡ Some s → last_map s self.new.conn.log.past ≡ last_map s self.old.conn.log.past }
        ensures err { OnErr result (self.new ≡ self.old) }
        ensures rest { self.new ≡ record self.old { conn = self.new.conn; out = self.new.out } }
    {
        self.streams.known();
        match self.conn.pull_behind(&mut self.out) {
            Ok(pulled) => Ok(pulled),
            Err(_) => Err(Memory),
        }
    }

    /// Writes once to the open stream what is to be written, which is something.
    pub fn write(&mut self) -> Put
        requires open { self.old.streams.is_open ≡ true }
        requires some { self.old.out ≢ [] }
        ensures count { (n : ℕ) → result ≡ put.Took n → (1 ≤ n) × (n ≤ length self.old.out) }
        ensures sent { ChangesAt (Sends E.means result (take (bytes_put result) self.old.out)) (newest_place self.old.streams) self.old.streams.list self.new.streams.list }
        ensures over { result ≡ put.Over → EndAt (HasSaidOver E.means) (newest_place self.new.streams) self.new.streams.list }
        ensures rest { self.new ≡ record self.old {
          out = drop (bytes_put result) self.old.out;
          streams = with_list self.old.streams self.new.streams.list;
        } }
    {
        let put = self.streams.send(self.out.rest());
        if let Put::Took(n) = put {
            self.out.took(n);
        }
        put
    }
}
