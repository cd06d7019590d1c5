ghost use Rattle.std.specs.Prelude.{◌≡◌, ◌≢◌, ℕ, ◌+◌, ◌<◌, [], ◌↔◌, OnOk, OnErr, IfSome, IsSome, IsTrue, length};
ghost use Rattle.rds_wire.specs.declared.kind.Malformed.{Malformed};
ghost use Rattle.rds_conn.specs.Connection.{IsReady, with_room};
ghost use Rattle.rds_conn.specs.Readying.{unready_as};
ghost use Rattle.rds_conn.specs.declared.conn.ConnError.TheVariants as errors;

use super::{Conn, ConnError};
use rds_model::JournalError;
use rds_wire::{Memory, Payload};
use std::alloc::Global;

impl Conn {
    /// Makes the connection ready for one more call: room for two entries and a message, and the payload of a pong.
    ///
    /// # Errors
    ///
    /// `Spent` exactly where two more entries would pass the limit of the journal, and `Memory` where there is none. The
    /// connection is as before.
    pub fn reserve(&mut self) -> Result<(), ConnError>
        ensures ok { OnOk result (self.new ≡ with_room self.old) }
        ensures err { OnErr result (self.new ≡ self.old) }
        ensures spent { (entries : ℕ) → result ≡ Err (errors.Spent entries) →
            (entries ≡ length self.old.log.past) × (self.old.log.limit < length self.old.log.past + 2) }
        ensures full { self.old.log.limit < length self.old.log.past + 2 → result ≡ Err (errors.Spent (length self.old.log.past)) }
        ensures closed { result ≢ Err errors.Closed }
        ensures malformed { (fault : Malformed) → result ≢ Err (errors.Malformed fault) }
    {
        if self.is_ready() {
            return Ok(());
        }
        match self.journal.reserve(2) {
            Ok(()) => {}
            Err(error) => return Err(unready(error)),
        }
        if self.store.reserve(1).is_err() {
            return Err(ConnError::Memory);
        }
        if keep_pong(self.alloc, &mut self.pong).is_err() {
            return Err(ConnError::Memory);
        }
        self.spare = self.spare.max(2);
        self.store_spare = self.store_spare.max(1);
        Ok(())
    }

    fn is_ready(&self) -> bool
        ensures { IsTrue result ↔ IsReady self.now }
    {
        self.spare >= 2 && self.store_spare >= 1 && self.pong.is_some()
    }
}

fn unready(error: JournalError) -> ConnError
    ensures { result ≡ unready_as error }
{
    match error {
        JournalError::Memory => ConnError::Memory,
        JournalError::Spent { entries } => ConnError::Spent { entries },
    }
}

// Makes the empty payload of a pong, if there is none yet.
fn keep_pong(alloc: Global, pong: &mut Option<Payload>) -> Result<(), Memory>
    ensures ok { OnOk result (IsSome pong.new) }
    ensures err { OnErr result (pong.new ≡ pong.old) }
    ensures empty { IfSome pong.old (λ bytes. bytes ≡ []) → IfSome pong.new (λ bytes. bytes ≡ []) }
{
    if pong.is_none() {
        *pong = Some(Payload::copy_of(alloc, &[])?);
    }
    Ok(())
}
