ghost use Rattle.std.specs.Prelude.{◌≡◌, ◌≢◌, ℕ, ◌-◌, ◌≤◌, ◌↔◌, ◌∷◌, None, IfOk, IsSome, IfSome, OnOk};
ghost use Rattle.rds_frame.specs.Holding.{nothing_held};
ghost use Rattle.rds_frame.specs.Splitting.{IsClear};
ghost use Rattle.rds_model.specs.declared.entry.Entry.TheVariants as entry;
ghost use Rattle.rds_model.specs.Past.{highest_pulled};
ghost use Rattle.rds_wire.specs.declared.kind.Malformed.{Malformed};
ghost use Rattle.rds_conn.specs.Connection.{IsReady, stream_of, taken_bytes};
ghost use Rattle.rds_conn.specs.Feeding.{Feeds, RefusesHeader};
ghost use Rattle.rds_conn.specs.declared.conn.ConnError.TheVariants as errors;

use super::{Conn, ConnError, Fed};
use rds_frame::{FrameError, Splitter};
use rds_model::{Entry, Journal};
use rds_wire::Malformed;

impl Conn {
    /// Takes bytes of the open stream from the front of a piece, until the piece ends or a frame is whole. It takes none
    /// where a frame waits. A header is checked as soon as its 48 bytes are there.
    ///
    /// # Errors
    ///
    /// `Closed` where no stream is open, and `Memory` where there is none for a payload: nothing was taken. `Malformed`
    /// where a header is malformed: it goes to the journal, the stream is over, and what was taken of it is given up.
    pub fn feed(&mut self, piece: &[u8]) -> Result<Fed, ConnError>
        requires { IsReady self.old }
        ensures ok { IfOk result (Feeds piece.now self.old self.new) }
        ensures clear { OnOk result (IsClear (highest_pulled self.old.log.past) 0 (taken_bytes self.new)) }
        ensures waited { IsSome self.old.waiting → OnOk result (self.new ≡ self.old) }

        ensures closed { (result ≡ Err errors.Closed) ↔ (stream_of self.old ≡ None) }
        ensures closed_still { stream_of self.old ≡ None → self.new ≡ self.old }
        ensures malformed { (fault : Malformed) → result ≡ Err (errors.Malformed fault) → RefusesHeader piece.now fault self.old self.new }
        ensures memory { result ≡ Err errors.Memory → self.new ≡ self.old }
        ensures spent { (entries : ℕ) → result ≢ Err (errors.Spent entries) }
    {
        let Some(stream) = self.stream else {
            return Err(ConnError::Closed);
        };
        match self.splitter.take(piece, self.highest, 0) {
            Ok(took) => Ok(Fed {
                used: took.used,
                waiting: took.ready,
            }),
            Err(FrameError::Malformed(fault)) => {
                refuse(&mut self.journal, &mut self.splitter, stream, fault);
                self.spare -= 1;
                self.stream = None;
                self.store.reset();
                Err(ConnError::Malformed(fault))
            }
            Err(FrameError::Memory) => Err(ConnError::Memory),
            Err(FrameError::Closed) => unreachable!(),
        }
    }
}

// Records the header that was refused, and forgets it.
fn refuse(journal: &mut Journal, splitter: &mut Splitter, stream: u32, fault: Malformed)
    requires room { 1 ≤ journal.old.spare }
    requires refused { IsSome splitter.old.refused }
    ensures entry { IfSome splitter.old.refused (λ h. journal.new ≡
        record journal.old { past = entry.Bad stream h fault ∷ journal.old.past; spare = journal.old.spare - 1 }) }
    ensures fresh { splitter.new ≡ nothing_held }
{
    let Some(header) = splitter.refused() else {
        unreachable!()
    };
    journal.push(Entry::Bad {
        stream,
        header: *header,
        cause: fault,
    });
    splitter.wipe();
}
