//! How a channel reads from its open stream and takes what came.
ghost use Rattle.std.specs.Prelude.{◌≡◌, ◌≢◌, ◌≤◌, ◌↔◌, ℕ, true, false, Ok, OnErr, [], length};
ghost use Rattle.rds_link.specs.declared.end.Got.TheVariants as got;
ghost use Rattle.rds_conn.specs.Connection.{IsReady};
ghost use Rattle.rds_line_channel.specs.StreamChanges.{ChangesAt, Receives};
ghost use Rattle.rds_line_channel.specs.Streams.{EndAt, HasSaidOver, newest_place, with_list};
ghost use Rattle.rds_line_channel.specs.declared.channel.Taken.TheVariants as taken;
ghost use Rattle.rds_line_channel.specs.Changes.{EndsRefused, TakesBytes};

use super::{Channel, Taken, give_up};
use rds_conn::ConnError;
use rds_link::{End, Got};
use rds_wire::Memory;

impl<E: End> Channel<E> {
    /// Reads once from the open stream, at most `MAX_READ` bytes, where all that came before was taken.
    pub fn receive(&mut self) -> Got
        requires open { self.old.streams.is_open ≡ true }
        requires empty { self.old.piece ≡ [] }
        ensures count { (n : ℕ) → result ≡ got.Bytes n → (1 ≤ n) × (length self.new.piece ≡ n) }
        ensures none { ((n : ℕ) → result ≢ got.Bytes n) → self.new.piece ≡ [] }
        ensures received { ChangesAt (Receives E.means result self.new.piece) (newest_place self.old.streams) self.old.streams.list self.new.streams.list }
        ensures over { result ≡ got.Over → EndAt (HasSaidOver E.means) (newest_place self.new.streams) self.new.streams.list }
        ensures rest { self.new ≡ record self.old { piece = self.new.piece; streams = with_list self.old.streams self.new.streams.list } }
    {
        self.piece.receive(&mut self.streams)
    }

    /// Takes bytes that came, until a frame is whole or none is left. A malformed header ends the stream.
    ///
    /// # Errors
    ///
    /// Where there is no memory for a payload. The channel is as before.
    pub fn take(&mut self) -> Result<Taken, Memory>
        requires ready { IsReady self.old.conn }
        requires open { self.old.streams.is_open ≡ true }
        ensures frame { result ≡ Ok taken.Frame → TakesBytes true self.old self.new }
        ensures part { result ≡ Ok taken.Part → TakesBytes false self.old self.new × (self.new.piece ≡ []) }
        ensures refused { result ≡ Ok taken.Refused → EndsRefused E.means self.old self.new }
        ensures err { OnErr result (self.new ≡ self.old) }
    {
        self.known();
        match self.conn.feed(self.piece.bytes()) {
            Ok(fed) => {
                self.piece.took(fed.used);
                Ok(if fed.waiting {
                    Taken::Frame
                } else {
                    Taken::Part
                })
            }
            Err(ConnError::Malformed(_)) => {
                give_up(&mut self.out, &mut self.piece, &mut self.streams);
                Ok(Taken::Refused)
            }
            Err(_) => Err(Memory),
        }
    }
}
