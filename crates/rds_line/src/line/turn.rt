//! A turn of a line: its steps in their order, and what it answers.
ghost use Rattle.std.specs.Prelude.{◌≡◌, ◌⊎◌, ◌<◌, ◌+◌, nat_lt, ℕ, true, Err, IfOk, OnOk, length, sum};
ghost use Rattle.rds_model.specs.declared.journal.JournalError.TheVariants as errors;
ghost use Rattle.rds_line.specs.Line.{IsFull, line_past, pulls_in};
ghost use Rattle.rds_line.specs.Stays.{LineStays};
ghost use Rattle.rds_line.specs.Steps.{StaysQuiet};
ghost use Rattle.rds_line.specs.Turns.{HasMoved, IsIdleTurn, IsOverTurn, LooksForOrder, PullsOwn, TakesOrder, WentThrough};
ghost use Rattle.rds_line.specs.Doing.{Did, IsRelieved, answer_of};
ghost use Rattle.rds_line.specs.declared.outcome.Turn.TheVariants as turn;

use super::Line;
use crate::outcome::{Done, Turn};
use rds_fmap::MapWriter;
use rds_link::End;
use rds_model::JournalError;
use std::sync::Wait;

impl<E: End, M: MapWriter> Line<E, M> {
    /// Does what there is to do, once: opens the next stream where none is open, takes one order, reads at most `MAX_READ` bytes and
    /// passes every whole frame, writes what is to be written or else pulls a frame and writes that, and counts all freed bytes.
    /// It answers `Moved`, `Idle` or `Over` only where it looked at the queue of orders. After `Spent` and `Memory` nothing is lost.
    pub fn turn<W: Wait>(&mut self, rt: &W) -> Turn
        ensures stays { LineStays E.means M.pair self.old self.new }
        ensures pulls { (pulls_in (line_past self.new) ≡ pulls_in (line_past self.old)) ⊎ PullsOwn self.old self.new }
        ensures moved { result ≡ turn.Moved → HasMoved E.means self.old self.new }
        ensures idle { result ≡ turn.Idle → IsIdleTurn E.means self.old self.new }
        ensures over { result ≡ turn.Over → IsOverTurn self.old self.new }
        ensures ordered { WentThrough result → LooksForOrder self.old.orders self.new.orders }
        ensures at_most { LooksForOrder self.old.orders self.new.orders ⊎ (self.new.orders ≡ self.old.orders) }
        ensures goes_on { (result ≡ turn.Moved) ⊎ (result ≡ turn.Idle) →
            TakesOrder self.old.orders self.new.orders ⊎ ((self.new.channel.streams.is_open ≡ true)
            ⊎ (self.new.channel.streams.opened < length self.new.channel.streams.list)) }
        ensures spent { (entries : ℕ) → result ≡ turn.Spent entries → IsFull entries self.new }
        ensures full { self.old.channel.conn.log.limit < length (line_past self.old) + 2 → result ≡ turn.Spent (length (line_past self.old)) }
        ensures freed { WentThrough result → sum self.new.channel.conn.freed ≡ 0 }
    {
        let before = self.channel.journal().len();
        match self.steps(rt) {
            Ok(done) => {
                self.known();
                self.judged(done, before)
            }
            Err(JournalError::Spent { entries }) => Turn::Spent { entries },
            Err(JournalError::Memory) => Turn::Memory,
        }
    }

    // The steps of a turn, in their order.
    fn steps<W: Wait>(&mut self, rt: &W) -> Result<Done, JournalError>
        ensures stays { LineStays E.means M.pair self.old self.new }
        ensures pulls { (pulls_in (line_past self.new) ≡ pulls_in (line_past self.old)) ⊎ PullsOwn self.old self.new }
        ensures did { IfOk result (Did E.means self.old self.new) }
        ensures at_most { LooksForOrder self.old.orders self.new.orders ⊎ (self.new.orders ≡ self.old.orders) }
        ensures spent { (entries : ℕ) → result ≡ Err (errors.Spent entries) → IsFull entries self.new }
        ensures full { self.old.channel.conn.log.limit < length (line_past self.old) + 2 → result ≡ Err (errors.Spent (length (line_past self.old))) }
        ensures freed { OnOk result (sum self.new.channel.conn.freed ≡ 0) }
    {
        self.open_next()?;
        let took = self.take_order(rt)?;
        let heard = self.receive(rt)?;
        let sent = self.send()?;
        self.relieve();
        Ok(Done { took, heard, sent })
    }

    // Counts all freed bytes.
    fn relieve(&mut self)
        ensures quiet { StaysQuiet E.means M.pair self.old self.new }
        ensures freed { sum self.new.channel.conn.freed ≡ 0 }
        ensures alone { IsRelieved self.old self.new }
    {
        self.channel.known();
        self.channel.relieve(&mut self.words);
    }

    // What a turn answers whose steps did this, where the journal had so many entries before the turn.
    fn judged(&self, done: Done, before: u32) -> Turn
        ensures { result ≡ answer_of done self.now.channel.streams.is_open
            (nat_lt self.now.channel.streams.opened (length self.now.channel.streams.list)) (nat_lt before (length (line_past self.now))) }
    {
        if !done.took && !self.channel.is_open() && !self.channel.has_next() {
            return Turn::Over;
        }
        if done.moved() || self.channel.journal().len() > before {
            return Turn::Moved;
        }
        Turn::Idle
    }
}
