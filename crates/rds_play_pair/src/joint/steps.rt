ghost use Rattle.std.specs.Prelude.{◌≡◌};
ghost use Rattle.rds_play_pair.specs.Ends.{other_end};

use super::Joint;
use crate::{PairEnd, PairError};
use rds_cong::PortMap;
use rds_model::Order;

impl Joint {
    ghost use Rattle.std.specs.Prelude.{◌≡◌, ℕ, Err, OnOk, OnErr, IfOk, min, length};
    ghost use Rattle.rds_play_pair.specs.declared.error.PairError.TheVariants as errors;
    ghost use Rattle.rds_play_pair.specs.Ends.{HasFull, IsFull, at_both, facing, of_end, with_end};
    ghost use Rattle.rds_play_pair.specs.Steps.{fed, opened, ordered, passed, pulled, stream_shut};

    /// A socket of an end gives an order, which the end takes if it is allowed: its slot is one of the host's, its payload
    /// isn't too long, and it is no cut.
    ///
    /// # Errors
    ///
    /// `Memory`, and `Spent` where the journal is full. The joint is as before.
    pub fn order(&mut self, end: PairEnd, order: &Order) -> Result<(), PairError>
        ensures ok { OnOk result (self.new ≡ with_end end (ordered order.now) self.old) }
        ensures err { OnErr result (self.new ≡ self.old) }
        ensures spent { (entries : ℕ) → result ≡ Err (errors.Spent entries) → IsFull entries (of_end end self.old) }
    {
        self.pair.order(end, order)
    }

    /// Opens the next stream at both ends, if none is open.
    ///
    /// # Errors
    ///
    /// `Memory`, and `Spent` where one of the journals is full. The joint is as before.
    pub fn open(&mut self) -> Result<(), PairError>
        ensures ok { OnOk result (self.new ≡ at_both opened self.old) }
        ensures err { OnErr result (self.new ≡ self.old) }
        ensures spent { (entries : ℕ) → result ≡ Err (errors.Spent entries) → HasFull entries self.old }
    {
        self.pair.reading();
        self.pair.open()
    }

    /// Shuts the open stream at both ends, if one is. What was on its way is lost.
    ///
    /// # Errors
    ///
    /// `Memory`, and `Spent` where one of the journals is full. The joint is as before.
    pub fn cut(&mut self) -> Result<(), PairError>
        ensures ok { OnOk result (self.new ≡ at_both stream_shut self.old) }
        ensures err { OnErr result (self.new ≡ self.old) }
        ensures spent { (entries : ℕ) → result ≡ Err (errors.Spent entries) → HasFull entries self.old }
    {
        self.pair.reading();
        self.pair.cut()
    }

    /// An end, whose host's own congestion map is `map`, pulls the frame that it owes to the open stream, if one is. It does
    /// so only where none of its bytes is in flight, and no frame waits at the other end.
    ///
    /// # Errors
    ///
    /// `Memory`, and `Spent` where the journal is full. The joint is as before.
    pub fn pull(&mut self, end: PairEnd, map: &PortMap) -> Result<(), PairError>
        ensures ok { OnOk result (self.new ≡ with_end end (pulled map.now (facing end self.old).waiting) self.old) }
        ensures err { OnErr result (self.new ≡ self.old) }
        ensures spent { (entries : ℕ) → result ≡ Err (errors.Spent entries) → IsFull entries (of_end end self.old) }
    {
        if !self.pair.in_flight(end).is_empty() {
            return Ok(());
        }
        if self.pair.waiting(other(end)).is_some() {
            return Ok(());
        }
        self.pair.pull(end, map)
    }

    /// Gives to an end what is in flight to it, at most `bytes`, and answers how many bytes that were: as many as were
    /// asked for, or all. With the last of them the frame waits that the other end pulled last.
    ///
    /// # Errors
    ///
    /// `Memory`, and `Spent` where the journal is full. The joint is as before.
    pub fn feed(&mut self, to: PairEnd, bytes: usize) -> Result<usize, PairError>
        ensures used { IfOk result (λ used. used ≡ min bytes (length (facing to self.old).flying)) }
        ensures ok { IfOk result (λ used. self.new ≡ fed to used self.old) }
        ensures err { OnErr result (self.new ≡ self.old) }
        ensures spent { (entries : ℕ) → result ≡ Err (errors.Spent entries) → IsFull entries (of_end to self.old) }
    {
        if self.pair.in_flight(other(to)).is_empty() {
            return Ok(0);
        }
        self.pair.known();
        let moved = self.pair.move_bytes(to, bytes);
        self.pair.reading();
        moved
    }

    /// An end passes the frame that waits, if one does: a datagram goes to the socket of `slot`, or no socket holds its
    /// port. Where a ping is passed its pong is accepted.
    ///
    /// # Errors
    ///
    /// `Memory`, and `Spent` where the journal is full. The joint is as before.
    pub fn pass(&mut self, end: PairEnd, slot: Option<u16>) -> Result<(), PairError>
        ensures ok { OnOk result (self.new ≡ with_end end (passed slot) self.old) }
        ensures err { OnErr result (self.new ≡ self.old) }
        ensures spent { (entries : ℕ) → result ≡ Err (errors.Spent entries) → IsFull entries (of_end end self.old) }
    {
        self.pair.pass(end, slot)
    }
}

// The end that an end faces.
fn other(end: PairEnd) -> PairEnd
    ensures { result ≡ other_end end }
{
    match end {
        PairEnd::First => PairEnd::Second,
        PairEnd::Second => PairEnd::First,
    }
}
