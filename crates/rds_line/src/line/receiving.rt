//! How a turn reads, and passes what came.
ghost use Rattle.std.specs.Prelude.{◌≡◌, ◌≢◌, ◌<◌, ◌*◌, ℕ, true, false, None, Ok, Err, IfErr, IsSome, [], length, OnOk};
ghost use Rattle.rds_model.specs.declared.entry.Verdict.TheVariants as verdict;
ghost use Rattle.rds_model.specs.declared.journal.JournalError.TheVariants as errors;
ghost use Rattle.rds_conn.specs.Connection.{IsReady};
ghost use Rattle.rds_line_channel.specs.Streams.{newest_place};
ghost use Rattle.rds_line_channel.specs.declared.channel.Taken.TheVariants as taken;
ghost use Rattle.rds_line.specs.Line.{IsFull, line_past};
ghost use Rattle.rds_line.specs.Steps.{IsWaiting, KeepsArrived, KeepsOut, KeepsUnwritten, PassesOne, StaysQuiet, left_to_take};
ghost use Rattle.rds_line.specs.Turns.{GetsBytes, HearsNothing, HoldsMore};
ghost use Rattle.rds_line.specs.declared.outcome.Heard.TheVariants as heard;

use super::Line;
use crate::outcome::Heard;
use rds_conn::Found;
use rds_fmap::MapWriter;
use rds_line_channel::Taken;
use rds_link::{End, Got};
use rds_model::{JournalError, Verdict};
use std::sync::Wait;

impl<E: End, M: MapWriter> Line<E, M> {
    // Passes what came in earlier turns, reads once, and passes what came.
    pub(super) fn receive<W: Wait>(&mut self, rt: &W) -> Result<Heard, JournalError>
        ensures quiet { StaysQuiet E.means M.pair self.old self.new }
        ensures closed { result ≡ Ok heard.Closed → (self.old.channel.streams.is_open ≡ false) × (self.new ≡ self.old) }
        ensures nothing { result ≡ Ok heard.Nothing → HearsNothing E.means self.old.channel self.new.channel }
        ensures on { result ≡ Ok heard.Nothing → self.new.channel.streams.is_open ≡ true }
        ensures bytes { result ≡ Ok heard.Bytes →
            GetsBytes E.means (newest_place self.old.channel.streams) self.old.channel.streams.list self.new.channel.streams.list }
        ensures more { result ≡ Ok heard.Bytes → HoldsMore self.old.channel self.new.channel }
        ensures unwritten { OnOk result (KeepsUnwritten self.old.channel self.new.channel) }
        ensures out { OnOk result (KeepsOut self.old.channel self.new.channel) }
        ensures ended { result ≡ Ok heard.Ended → length (line_past self.old) < length (line_past self.new) }
        ensures spent { (entries : ℕ) → result ≡ Err (errors.Spent entries) → IsFull entries self.new }
    {
        if !self.channel.is_open() {
            return Ok(Heard::Closed);
        }
        if !self.pass_all(rt)? {
            return Ok(Heard::Ended);
        }
        self.channel.reserve()?;
        match self.channel.receive() {
            Got::Nothing => Ok(Heard::Nothing),
            Got::Over => {
                self.channel.known();
                self.channel.end_over();
                Ok(Heard::Ended)
            }
            Got::Bytes(_) => {
                self.pass_all(rt)?;
                Ok(Heard::Bytes)
            }
        }
    }

    // Takes all bytes that came and passes every whole frame. Answers whether the stream is still open, which a malformed header
    // ends.
    fn pass_all<W: Wait>(&mut self, rt: &W) -> Result<bool, JournalError>
        requires open { self.old.channel.streams.is_open ≡ true }
        ensures quiet { StaysQuiet E.means M.pair self.old self.new }
        ensures streams { result ≡ Ok true → self.new.channel.streams ≡ self.old.channel.streams }
        ensures none_waits { result ≡ Ok true → self.new.channel.conn.waiting ≡ None }
        ensures none_left { result ≡ Ok true → self.new.channel.piece ≡ [] }
        ensures arrived { OnOk result (KeepsArrived self.old.channel self.new.channel) }
        ensures unwritten { OnOk result (KeepsUnwritten self.old.channel self.new.channel) }
        ensures out { OnOk result (KeepsOut self.old.channel self.new.channel) }
        ensures refused { result ≡ Ok false → length (line_past self.old) < length (line_past self.new) }
        ensures spent { (entries : ℕ) → result ≡ Err (errors.Spent entries) → IsFull entries self.new }
    {
        let mut taken = self.take()?;
        while taken == Taken::Frame {
            self.pass(rt)?;
            taken = self.take()?;
        }
        Ok(taken == Taken::Part)
    }

    // Takes bytes that came, until a frame is whole or none is left.
    fn take(&mut self) -> Result<Taken, JournalError>
        requires open { self.old.channel.streams.is_open ≡ true }
        ensures quiet { StaysQuiet E.means M.pair self.old self.new }
        ensures ready { result ≡ Ok taken.Frame → IsReady self.new.channel.conn }
        ensures frame { result ≡ Ok taken.Frame → IsSome self.new.channel.conn.waiting }
        ensures part { result ≡ Ok taken.Part → (self.new.channel.conn.waiting ≡ None) × (self.new.channel.piece ≡ []) }
        ensures streams { result ≢ Ok taken.Refused → self.new.channel.streams ≡ self.old.channel.streams }
        ensures arrived { KeepsArrived self.old.channel self.new.channel }
        ensures unwritten { KeepsUnwritten self.old.channel self.new.channel }
        ensures out { KeepsOut self.old.channel self.new.channel }
        ensures refused { result ≡ Ok taken.Refused → length (line_past self.old) < length (line_past self.new) }
        ensures fewer { result ≡ Ok taken.Frame → 2 * length self.new.channel.piece < left_to_take self.old.channel }
        ensures spent { (entries : ℕ) → result ≡ Err (errors.Spent entries) → IsFull entries self.new }
    {
        self.channel.reserve()?;
        match self.channel.take() {
            Ok(taken) => Ok(taken),
            Err(_) => Err(JournalError::Memory),
        }
    }

    // Passes the frame that waits. Where memory runs out it waits on.
    fn pass<W: Wait>(&mut self, rt: &W) -> Result<(), JournalError>
        requires ready { IsReady self.old.channel.conn }
        requires waits { IsSome self.old.channel.conn.waiting }
        ensures quiet { StaysQuiet E.means M.pair self.old self.new }
        ensures passed { OnOk result (PassesOne self.old.channel self.new.channel) }
        ensures err { IfErr result (λ error. error ≡ errors.Memory) }
    {
        let Some(verdict) = self.channel.verdict() else {
            unreachable!()
        };
        match verdict {
            Verdict::Deliver { dport } => self.deliver(rt, dport),
            Verdict::Map => self.publish(rt),
            _ => {
                self.channel.pass(Found::Unasked);
                Ok(())
            }
        }
    }

    // Passes a datagram to the socket that holds its port, or to none.
    fn deliver<W: Wait>(&mut self, rt: &W, port: u16) -> Result<(), JournalError>
        requires ready { IsReady self.old.channel.conn }
        requires waits { IsWaiting (verdict.Deliver port) self.old.channel.conn }
        ensures quiet { StaysQuiet E.means M.pair self.old self.new }
        ensures passed { OnOk result (PassesOne self.old.channel self.new.channel) }
        ensures err { IfErr result (λ error. error ≡ errors.Memory) }
    {
        self.channel.known();
        let Some(slot) = self.ports.look(port) else {
            self.channel.pass(Found::NoSocket);
            return Ok(());
        };
        let Ok(datagram) = self.channel.datagram() else {
            return Err(JournalError::Memory);
        };
        let bytes = datagram.payload.len();
        if self.boxes.put(rt, slot, datagram).is_err() {
            return Err(JournalError::Memory);
        }
        self.channel.pass(Found::Slot(slot));
        self.words.deliver(&mut self.ports, slot, port, bytes);
        self.boxes.ring(rt, slot);
        Ok(())
    }

    // Publishes a map of the peer's, and passes it.
    fn publish<W: Wait>(&mut self, rt: &W) -> Result<(), JournalError>
        requires ready { IsReady self.old.channel.conn }
        requires waits { IsWaiting verdict.Map self.old.channel.conn }
        ensures quiet { StaysQuiet E.means M.pair self.old self.new }
        ensures passed { OnOk result (PassesOne self.old.channel self.new.channel) }
        ensures err { IfErr result (λ error. error ≡ errors.Memory) }
    {
        self.channel.known();
        let Some(frame) = self.channel.waiting() else {
            unreachable!()
        };
        let Some(bytes) = frame.payload.as_slice().first_chunk::<8192>() else {
            unreachable!()
        };
        self.peer_map.of_bytes(bytes);
        if self.map.publish(rt, &self.peer_map).is_err() {
            return Err(JournalError::Memory);
        }
        self.channel.pass(Found::Unasked);
        Ok(())
    }
}
