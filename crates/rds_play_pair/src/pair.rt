ghost use Rattle.std.specs.Prelude.{◌≡◌, ℕ, Err, OnOk, OnErr};
ghost use Rattle.rds_play_pair.specs.declared.error.PairError.TheVariants as errors;
ghost use Rattle.rds_model.specs.Legal.{IsWhole};
ghost use Rattle.rds_play_pair.specs.Changes.{shut_one as shut_side, without_flight};
ghost use Rattle.rds_play_pair.specs.Half.{side_of};
ghost use Rattle.rds_play_pair.specs.Sides.{IsFull};

mod ends;

use crate::error::PairError;
use crate::half::Half;
use crate::moving::move_bytes;
use crate::step::PairEnd;
use rds_cong::PortMap;
use rds_model::{Journal, Order, laws};
use rds_wire::Memory;
use std::alloc::Global;
use std::marker::Model;

/// Two connections, and what is in flight between them. Contracts see both ends.
#[derive(Drop)]
pub struct ConnPair {
    first: Half,
    second: Half,
    // How many streams were opened.
    streams: u32,
}

impl Model for ConnPair {
    ghost use Rattle.rds_play_pair.specs.Sides.{Sides};

    ghost Value = { Sides };

    ghost use Rattle.rds_play_pair.specs.Invariant.{PairInvariant, pair_view};

    ghost view = { pair_view };

    ghost invariant = { PairInvariant };
}

impl ConnPair {
    ghost use Rattle.std.specs.Prelude.{◌≤◌, IfOk};
    ghost use Rattle.rds_model.specs.declared.entry.TheConstants.{MAX_SLOTS};
    ghost use Rattle.rds_model.specs.Legal.{IsLegal};
    ghost use Rattle.rds_model.specs.Honest.{IsHonest};
    ghost use Rattle.rds_model.specs.Fifo.{HasNoBad};
    ghost use Rattle.rds_model.specs.Pairs.{IsDeliveredOnce};
    ghost use Rattle.rds_model.specs.declared.journal.TheConstants.{MIN_ENTRIES, MAX_ENTRIES};
    ghost use Rattle.rds_play_pair.specs.Sides.{HasFull, with_end, blank, of_end};
    ghost use Rattle.rds_play_pair.specs.Joined.{Flows};
    ghost use Rattle.rds_play_pair.specs.Changes.{ordered, pulled, passed, opened_at_both, shut_at, cut_pair, MovesTo};

    /// Two ends of a connection between two hosts, given by their IPv4 addresses, of which nothing has happened. The slots
    /// of sockets are below `slots`, and each journal may have `limit` entries.
    ///
    /// # Errors
    ///
    /// Where there is no memory for its tables.
    pub fn new(
        alloc: Global,
        first: u32,
        second: u32,
        slots: u16,
        limit: u32,
    ) -> Result<ConnPair, Memory>
        requires slots { slots ≤ MAX_SLOTS }
        requires least { MIN_ENTRIES ≤ limit }
        requires most { limit ≤ MAX_ENTRIES }
        ensures { IfOk result (λ pair. pair ≡ record { first = blank slots limit; second = blank slots limit }) }
    {
        Ok(ConnPair {
            first: Half::new(alloc, first, second, slots, limit)?,
            second: Half::new(alloc, second, first, slots, limit)?,
            streams: 0,
        })
    }

    /// A socket of an end gives an order, which the end takes if it is allowed.
    ///
    /// # Errors
    ///
    /// `Spent` only where the journal of the end has no room for two more entries, and `Memory` where there is none.
    /// The pair is as before.
    pub fn order(&mut self, end: PairEnd, order: &Order) -> Result<(), PairError>
        ensures ok { OnOk result (self.new ≡ with_end end (ordered order.now) self.old) }
        ensures err { OnErr result (self.new ≡ self.old) }
        ensures spent { (entries : ℕ) → result ≡ Err (errors.Spent entries) → IsFull entries (of_end end self.old) }
    {
        match end {
            PairEnd::First => self.first.order(order),
            PairEnd::Second => self.second.order(order),
        }
    }

    /// Opens the next stream at both ends, if none is open at either.
    ///
    /// # Errors
    ///
    /// `Spent` only where a journal has no room for two more entries, and `Memory` where there is none. The pair is as
    /// before.
    pub fn open(&mut self) -> Result<(), PairError>
        ensures ok { OnOk result (self.new ≡ opened_at_both self.old) }
        ensures err { OnErr result (self.new ≡ self.old) }
        ensures spent { (entries : ℕ) → result ≡ Err (errors.Spent entries) → HasFull entries self.old }
    {
        self.first.ready()?;
        self.second.ready()?;
        if self.first.conn.stream().is_some() || self.second.conn.stream().is_some() {
            return Ok(());
        }
        self.first.conn.known();
        self.second.conn.known();
        self.streams += 1;
        self.first.open(self.streams);
        self.second.open(self.streams);
        Ok(())
    }

    /// Shuts one end. What is in flight to it is lost; the other end goes on.
    ///
    /// # Errors
    ///
    /// `Spent` only where the journal of the end has no room for two more entries, and `Memory` where there is none.
    /// The pair is as before.
    pub fn shut(&mut self, end: PairEnd) -> Result<(), PairError>
        ensures ok { OnOk result (self.new ≡ shut_at end self.old) }
        ensures err { OnErr result (self.new ≡ self.old) }
        ensures spent { (entries : ℕ) → result ≡ Err (errors.Spent entries) → IsFull entries (of_end end self.old) }
    {
        match end {
            PairEnd::First => shut(&mut self.first, &mut self.second),
            PairEnd::Second => shut(&mut self.second, &mut self.first),
        }
    }

    /// Shuts both ends. What is in flight is lost.
    ///
    /// # Errors
    ///
    /// `Spent` only where a journal has no room for two more entries, and `Memory` where there is none. The pair is as
    /// before.
    pub fn cut(&mut self) -> Result<(), PairError>
        ensures ok { OnOk result (self.new ≡ cut_pair self.old) }
        ensures err { OnErr result (self.new ≡ self.old) }
        ensures spent { (entries : ℕ) → result ≡ Err (errors.Spent entries) → HasFull entries self.old }
    {
        self.first.ready()?;
        self.second.ready()?;
        self.first.shut();
        self.second.shut();
        self.first.lose();
        self.second.lose();
        Ok(())
    }

    /// An end pulls the frame that it owes, where its host's own congestion map is `map`.
    ///
    /// # Errors
    ///
    /// `Spent` only where the journal of the end has no room for two more entries, and `Memory` where there is none.
    /// The pair is as before.
    pub fn pull(&mut self, end: PairEnd, map: &PortMap) -> Result<(), PairError>
        ensures ok { OnOk result (self.new ≡ with_end end (pulled map.now) self.old) }
        ensures err { OnErr result (self.new ≡ self.old) }
        ensures spent { (entries : ℕ) → result ≡ Err (errors.Spent entries) → IsFull entries (of_end end self.old) }
    {
        match end {
            PairEnd::First => self.first.pull(map),
            PairEnd::Second => self.second.pull(map),
        }
    }

    /// Gives bytes that are in flight to an end to it, at most `bytes`. Answers how many. No header is ever refused.
    ///
    /// # Errors
    ///
    /// `Spent` only where the journal of the end has no room for two more entries, and `Memory` where there is none.
    /// The pair is as before.
    pub fn move_bytes(&mut self, to: PairEnd, bytes: usize) -> Result<usize, PairError>
        ensures ok { IfOk result (λ used. MovesTo to bytes used self.old self.new) }
        ensures err { OnErr result (self.new ≡ self.old) }
        ensures spent { (entries : ℕ) → result ≡ Err (errors.Spent entries) → IsFull entries (of_end to self.old) }
    {
        match to {
            PairEnd::First => move_bytes(&mut self.second, &mut self.first, bytes),
            PairEnd::Second => move_bytes(&mut self.first, &mut self.second, bytes),
        }
    }

    /// An end passes the frame that waits, if one does: a datagram goes to the socket of `slot`, or no socket holds its
    /// port.
    ///
    /// # Errors
    ///
    /// `Spent` only where the journal of the end has no room for two more entries, and `Memory` where there is none.
    /// The pair is as before.
    pub fn pass(&mut self, end: PairEnd, slot: Option<u16>) -> Result<(), PairError>
        ensures ok { OnOk result (self.new ≡ with_end end (passed slot) self.old) }
        ensures err { OnErr result (self.new ≡ self.old) }
        ensures spent { (entries : ℕ) → result ≡ Err (errors.Spent entries) → IsFull entries (of_end end self.old) }
    {
        match end {
            PairEnd::First => self.first.pass(slot),
            PairEnd::Second => self.second.pass(slot),
        }
    }

    /// What every pair keeps: both journals are legal, and no byte was lost or made on an open stream. So the journals are
    /// honest, each datagram was delivered at most once, and no header was refused.
    pub fn known(&self)
        ensures whole_first { IsWhole self.now.first.past }
        ensures whole_second { IsWhole self.now.second.past }
        ensures flows_forth { Flows self.now.first self.now.second }
        ensures flows_back { Flows self.now.second self.now.first }

        ensures honest { IsHonest self.now.first.past self.now.second.past }
        ensures forth { (sport dport : ℕ) → IsDeliveredOnce sport dport self.now.first.past self.now.second.past }
        ensures back { (sport dport : ℕ) → IsDeliveredOnce sport dport self.now.second.past self.now.first.past }
        ensures none_refused { HasNoBad self.now.first.past × HasNoBad self.now.second.past }
    {
        let first = self.first.conn.journal();
        let second = self.second.conn.journal();
        laws::headline(first, second);
        laws::no_bad(first, second);
    }

    /// The journal of an end.
    pub fn journal(&self, end: PairEnd) -> &Journal
        ensures { result.now.past ≡ (of_end end self.now).past }
    {
        match end {
            PairEnd::First => self.first.conn.journal(),
            PairEnd::Second => self.second.conn.journal(),
        }
    }

    /// Both journals.
    pub fn into_journals(self) -> (Journal, Journal)
        ensures first { result.0.past ≡ self.first.past }
        ensures second { result.1.past ≡ self.second.past }

        ensures legal { IsLegal result.0.past × IsLegal result.1.past }
        ensures honest { IsHonest result.0.past result.1.past }
    {
        self.known();
        (self.first.into_journal(), self.second.into_journal())
    }
}

// Shuts one end of a pair. What is in flight to it is lost.
fn shut(half: &mut Half, other: &mut Half) -> Result<(), PairError>
    ensures ok { OnOk result ((side_of half.new ≡ shut_side (side_of half.old)) × (side_of other.new ≡ without_flight (side_of other.old))) }
    ensures err { OnErr result ((side_of half.new ≡ side_of half.old) × (side_of other.new ≡ side_of other.old)) }
    ensures spent { (entries : ℕ) → result ≡ Err (errors.Spent entries) → IsFull entries (side_of half.old) }
    ensures whole { IsWhole half.new.conn.log.past }
{
    half.ready()?;
    half.shut();
    other.lose();
    Ok(())
}
