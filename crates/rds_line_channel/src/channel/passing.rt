//! How a channel passes the frame that waits, and hands out what was freed.
ghost use Rattle.std.specs.Prelude.{◌≡◌, ◌+◌, ◌≤◌, ◌<◌, ◌^◌, ℕ, IfOk, IfSome, IsSome, IsOk, length, sum, None};
ghost use Rattle.rds_wire.specs.declared.kind.TheConstants.{MAP_LENGTH, MAX_LENGTH};
ghost use Rattle.rds_meter.specs.Places.{freed_word, part};
ghost use Rattle.rds_model.specs.Reading.{verdict_of};
ghost use Rattle.rds_model.specs.Deliveries.{datagram_from};
ghost use Rattle.rds_conn.specs.Connection.{IsReady, freed_bytes_of};
ghost use Rattle.rds_conn.specs.Passing.{Matches, Passes};
ghost use Rattle.rds_line_parts.specs.Relief.{IsRelief};
ghost use Rattle.rds_line_channel.specs.Channel.{with_conn};

use super::Channel;
use rds_conn::Found;
use rds_line_parts::{LineWords, relieve};
use rds_link::End;
use rds_model::Datagram;
use rds_wire::Memory;

impl<E: End> Channel<E> {
    /// The datagram of the frame that waits, as a socket receives it. It shares the frame's bytes.
    ///
    /// # Errors
    ///
    /// Where there is no memory for the share.
    pub fn datagram(&self) -> Result<Datagram, Memory>
        requires { IsSome self.now.conn.waiting }
        ensures { IfOk result (λ d. IfSome self.now.conn.waiting (λ f. d ≡ datagram_from self.now.conn.peer f)) }
    {
        let Some(frame) = self.conn.waiting() else {
            unreachable!()
        };
        Ok(Datagram {
            from: self.conn.peer(),
            sport: frame.header.sport,
            dport: frame.header.dport,
            payload: frame.payload.share()?,
        })
    }

    /// Passes the frame that waits, with what the port table says of its port: `Unasked` unless the verdict is `Deliver`.
    pub fn pass(&mut self, found: Found)
        requires ready { IsReady self.old.conn }
        requires waiting { IsSome self.old.conn.waiting }
        requires found { IfSome self.old.conn.waiting (λ f. Matches self.old.conn.slots (verdict_of self.old.conn.log.past f.header) found) }
        ensures passes { Passes found self.old.conn self.new.conn }
        ensures rest { self.new ≡ with_conn self.old self.new.conn }
    {
        self.conn.known();
        self.streams.known();
        self.conn.pass_uncounted(found);
    }

    /// Adds to the freed word of each slot all freed bytes that the connection holds.
    pub fn relieve(&mut self, words: &mut LineWords)
        requires { (slot : ℕ) → slot < self.old.conn.slots →
            part (freed_word slot) words.old.view.steps + freed_bytes_of slot self.old.conn ≤ 2 ^ 52 }
        ensures none { sum self.new.conn.freed ≡ 0 }
        ensures rest { self.new ≡ with_conn self.old (record self.old.conn { freed = self.new.conn.freed }) }
        ensures words { IsRelief self.old.conn.freed words.old words.new }
    {
        relieve(&mut self.conn, words);
    }
}
