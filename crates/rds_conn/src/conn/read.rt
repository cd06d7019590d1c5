ghost use Rattle.std.specs.Prelude.{◌≡◌, ℕ, ◌+◌, ◌-◌, ◌<◌, ◌≤◌, ◌^◌, None, Some, IsSome, IfSome, length, sum};
ghost use Rattle.std.specs.Option.{option_map, option_copied};
ghost use Rattle.rds_wire.specs.declared.frame.Frame.{Frame};
ghost use Rattle.rds_model.specs.declared.entry.Entry.TheVariants as entry;
ghost use Rattle.rds_model.specs.declared.entry.Outcome.TheVariants as outcomes;
ghost use Rattle.rds_model.specs.declared.entry.Verdict.TheVariants as verdict;
ghost use Rattle.rds_model.specs.Legal.{pong_for};
ghost use Rattle.rds_model.specs.Reading.{verdict_of as verdict_after, Obeys};
ghost use Rattle.rds_msgs.specs.Messages.{bytes_of};
ghost use Rattle.rds_conn.specs.Connection.{IsReady, freed_bytes_of, stream_of};
ghost use Rattle.rds_conn.specs.Costs.{acked_numbers};
ghost use Rattle.rds_conn.specs.Freeing.{Frees, acknowledged};
ghost use Rattle.rds_conn.specs.Released.{released_bytes};
ghost use Rattle.rds_conn.specs.Passing.{Matches, Passes, outcome_of as outcome_after, after_pass};

use super::order::accept;
use super::{Conn, Found};
use crate::freed::FreedBytes;
use crate::verdict::{outcome_of, passed_after, verdict_of};
use rds_model::{Entry, NO_SLOT, Outcome, Verdict};
use rds_msgs::{Steps, Store};
use rds_wire::Frame;
use std::sync::ledger::Ledger;

impl Conn {
    /// The whole frame that was taken of the open stream and isn't passed, if there is one.
    pub fn waiting(&self) -> Option<&Frame>
        ensures { option_copied result ≡ self.now.waiting }
    {
        self.splitter.ready()
    }

    /// What has to become of the frame that waits, or `None` where none does: a datagram is `Old` where it is marked as
    /// pulled before and its number isn't above the last one that was passed; else `Deliver` to its port, and at port 0
    /// `Ping` from another port and `Void` from port 0 (rds(7) sends from no socket at port 0). `AckOnly` is an
    /// acknowledgement without data, `Map` the peer's congestion map, `OddMap` one of a wrong length.
    pub fn verdict(&self) -> Option<Verdict>
        ensures { result ≡ option_map (λ (f : Frame). verdict_after self.now.log.past f.header) self.now.waiting }
    {
        match self.splitter.ready() {
            Some(frame) => Some(verdict_of(self.last, &frame.header)),
            None => None,
        }
    }

    /// Passes the frame that waits, with what the port table says of its port: it goes to the journal, what it
    /// acknowledges is freed, and where it is a ping, its pong is accepted behind it. `found` is `Unasked` unless the
    /// verdict is `Deliver`. The frame leaves the connection for the journal. Each message that is visited is a step.
    pub fn pass<L: Ledger>(&mut self, found: Found, steps: &mut Steps<L>)
        requires ready { IsReady self.old }
        requires waiting { IsSome self.old.waiting }
        requires found { IfSome self.old.waiting (λ f. Matches self.old.slots (verdict_after self.old.log.past f.header) found) }
        ensures passes { Passes found self.old self.new }
        ensures few { IfSome self.old.waiting (λ f. steps.new ≡ steps.old + length (acked_numbers f.header.ack self.old.log.past) + 1) }
    {
        self.known();
        self.pass_found(found, steps);
        self.known();
    }

    fn pass_found<L: Ledger>(&mut self, found: Found, steps: &mut Steps<L>)
        requires ready { IsReady self.old }
        requires waiting { IsSome self.old.waiting }
        requires found { IfSome self.old.waiting (λ f. Matches self.old.slots (verdict_after self.old.log.past f.header) found) }
        ensures entry { (s : ℕ) (f : Frame) → stream_of self.old ≡ Some s → self.old.waiting ≡ Some f →
            self.new ≡ record (after_pass s f (outcome_after (verdict_after self.old.log.past f.header) found) self.old)
            { freed = self.new.freed } }
        ensures freed { (slot : ℕ) → slot < self.old.slots →
            freed_bytes_of slot self.new + released_bytes slot self.old.log.past ≡ freed_bytes_of slot self.old + released_bytes slot self.new.log.past }
        ensures on { IsSome (stream_of self.old) }
        ensures few { IfSome self.old.waiting (λ f. steps.new ≡ steps.old + length (acked_numbers f.header.ack self.old.log.past) + 1) }
    {
        self.known();
        let Some(verdict) = self.verdict() else {
            unreachable!()
        };
        match verdict {
            Verdict::Ping => self.pass_ping(steps),
            _ => self.pass_as(outcome_of(verdict, found), steps),
        }
    }

    fn pass_as<L: Ledger>(&mut self, outcome: Outcome, steps: &mut Steps<L>)
        requires ready { IsReady self.old }
        requires waiting { IsSome self.old.waiting }
        requires lawful { IfSome self.old.waiting (λ f. Obeys (verdict_after self.old.log.past f.header) outcome) }
        requires no_pong { (port : ℕ) → pong_for outcome port ≡ None }
        ensures entry { (s : ℕ) (f : Frame) → stream_of self.old ≡ Some s → self.old.waiting ≡ Some f →
            self.new ≡ record (after_pass s f outcome self.old) { freed = self.new.freed } }
        ensures freed { (slot : ℕ) → slot < self.old.slots →
            freed_bytes_of slot self.new + released_bytes slot self.old.log.past ≡ freed_bytes_of slot self.old + released_bytes slot self.new.log.past }
        ensures on { IsSome (stream_of self.old) }
        ensures few { IfSome self.old.waiting (λ f. steps.new ≡ steps.old + length (acked_numbers f.header.ack self.old.log.past) + 1) }
    {
        let Some(stream) = self.stream else {
            unreachable!()
        };
        let Some(frame) = self.splitter.done() else {
            unreachable!()
        };
        let header = frame.header;
        self.journal.push(Entry::Read {
            stream,
            frame,
            outcome,
        });
        self.spare -= 1;
        self.last = passed_after(self.last, header.sequence, outcome);
        self.asking = self.asking.after_read(&header);
        acknowledge(&mut self.store, &mut self.freed, header.ack, steps);
    }

    fn pass_ping<L: Ledger>(&mut self, steps: &mut Steps<L>)
        requires ready { IsReady self.old }
        requires waiting { IfSome self.old.waiting (λ f. verdict_after self.old.log.past f.header ≡ verdict.Ping) }
        requires one { IsSome self.old.waiting }
        ensures entry { (s : ℕ) (f : Frame) → stream_of self.old ≡ Some s → self.old.waiting ≡ Some f →
            self.new ≡ record (after_pass s f outcomes.Ping self.old) { freed = self.new.freed } }
        ensures freed { (slot : ℕ) → slot < self.old.slots →
            freed_bytes_of slot self.new + released_bytes slot self.old.log.past ≡ freed_bytes_of slot self.old + released_bytes slot self.new.log.past }
        ensures on { IsSome (stream_of self.old) }
        ensures few { IfSome self.old.waiting (λ f. steps.new ≡ steps.old + length (acked_numbers f.header.ack self.old.log.past) + 1) }
    {
        let Some(stream) = self.stream else {
            unreachable!()
        };
        let Some(frame) = self.splitter.done() else {
            unreachable!()
        };
        let Some(pong) = self.pong.take() else {
            unreachable!()
        };
        let header = frame.header;
        self.journal.push(Entry::Read {
            stream,
            frame,
            outcome: Outcome::Ping,
        });
        self.spare -= 1;
        self.last = header.sequence;
        self.asking = self.asking.after_read(&header);
        acknowledge(&mut self.store, &mut self.freed, header.ack, steps);
        self.accepted += 1;
        accept(
            &mut self.journal,
            &mut self.store,
            self.accepted,
            NO_SLOT,
            0,
            header.sport,
            pong,
        );
        self.spare -= 1;
        self.store_spare -= 1;
    }
}

// Frees the messages up to an acknowledged number.
fn acknowledge<L: Ledger>(
    store: &mut Store,
    freed: &mut FreedBytes,
    upto: u64,
    steps: &mut Steps<L>,
)
    requires marked { store.old.mark ≤ length store.old.messages }
    requires fits { sum freed.old + bytes_of store.old.messages < 2 ^ 64 }
    ensures store { store.new ≡ acknowledged upto store.old }
    ensures freed { Frees store.old store.new freed.old freed.new }
    ensures few { steps.new + length store.new.messages ≡ steps.old + length store.old.messages + 1 }
{
    while let Some(msg) = store.pop_acked(upto, steps) {
        freed.add(msg.slot, u64::from(msg.len));
    }
}
