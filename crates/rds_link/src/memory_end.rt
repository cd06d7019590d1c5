//! An end of a stream whose bytes stay in memory.
ghost use Rattle.std.specs.Prelude.{◌≡◌, ◌↔◌, false, IsSome, IsTrue, IsFalse, Some};
ghost use Rattle.rds_link.specs.Failing.{next_call, NextFails};
ghost use Rattle.rds_link.specs.Standing.{standing as standing_of, IsOver, GoesOn, Failed};

use crate::calls::Calls;
use crate::{End, Got, Put, ROOM, Standing};
use rtrb::{Consumer, Producer};
use std::sync::Wait;
use std::thread;

/// How many bytes are taken at once out of a ring that is let go.
const PIECE: usize = 4_096;

/// An end of a stream in memory. The ring that it reads from is taken out for each read, so that the loop which copies bytes keeps the
/// ring's address at hand, and copies many at once.
#[derive(Drop)]
pub struct MemEnd {
    pub(crate) out: Producer<u8>,
    pub(crate) inp: Option<Consumer<u8>>,
    pub(crate) standing: Standing,
    pub(crate) calls: Calls,
    pub(crate) nothings: u64,
    pub(crate) fulls: u64,
    ghost there: { IsSome inp },
}

impl MemEnd {
    pub(crate) fn new(
        out: Producer<u8>,
        inp: Consumer<u8>,
        standing: Standing,
        fail: Vec<u32>,
    ) -> MemEnd
        ensures out { result.out ≡ out }
        ensures inp { result.inp ≡ Some inp }
        ensures standing { result.standing ≡ standing }
        ensures calls { result.calls ≡ record { fail = fail.items; made = 0 } }
        ensures counts { (result.nothings ≡ 0) × (result.fulls ≡ 0) }
    {
        MemEnd {
            out,
            inp: Some(inp),
            standing,
            calls: Calls::new(fail),
            nothings: 0,
            fulls: 0,
        }
    }

    // Counts a read or a write, and whether the stream is over.
    fn is_over(&mut self) -> bool
        ensures same { self.new ≡ record self.old { standing = self.new.standing; calls = self.new.calls } }
        ensures stream { self.new.standing ≡ standing_of self.old.standing self.new.standing.stand }
        ensures over { IsTrue result → IsOver self.old.standing.stand self.new.standing.stand }
        ensures goes { IsFalse result → GoesOn self.old.standing.stand self.new.standing.stand }
        ensures calls { self.new.calls ≡ record self.old.calls { made = next_call self.old.calls.made } }
        ensures fails { self.old.standing.stand.is_shut ≡ false → NextFails self.old.calls.fail self.old.calls.made ↔ Failed self.old.standing.stand self.new.standing.stand }
    {
        let fails = self.calls.fails();
        if fails && !self.standing.is_shut() {
            self.standing.fail_before_a_look();
            return true;
        }
        self.standing.is_over()
    }
}

impl End for MemEnd {
    ghost use Rattle.rds_link.specs.Memory.{memory_means};

    ghost means = { memory_means };

    fn read(&mut self, buf: &mut [u8]) -> Got {
        if self.is_over() {
            return Got::Over;
        }
        let Some(mut ring) = self.inp.take() else {
            unreachable!()
        };
        let count = ring.pop_partial_slice(buf);
        self.inp = Some(ring);
        if count == 0 {
            self.nothings = self.nothings.saturating_add(1);
            return Got::Nothing;
        }
        Got::Bytes(count)
    }

    fn write(&mut self, piece: &[u8]) -> Put {
        if self.is_over() {
            return Put::Over;
        }
        let (taken, _) = self.out.push_partial_slice(piece);
        if taken.is_empty() {
            self.fulls = self.fulls.saturating_add(1);
            return Put::Full;
        }
        Put::Took(taken.len())
    }

    fn shut(&mut self) {
        self.standing.shut();
    }

    fn finish<R: Wait>(mut self, _rt: &R) {
        self.standing.shut();
        if let Some(ring) = &mut self.inp {
            empty(ring);
        }
    }

    fn rest<R: Wait>(&self, _rt: &R) {
        thread::yield_now();
    }
}

// Takes out what waits in a ring, by pieces: a ring that is dropped lets go of one byte after another, which takes longer.
fn empty(ring: &mut Consumer<u8>) {
    let mut piece = [0; PIECE];
    for _ in 0..2 * ROOM / PIECE {
        if ring.pop_partial_slice(&mut piece) == 0 {
            return;
        }
    }
}
