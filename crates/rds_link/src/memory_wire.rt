//! The wire whose streams stay in memory.
ghost use Rattle.std.specs.Prelude.{◌≡◌, ◌≤◌, ◌+◌, ◌↔◌, [], IfOk, IsErrOf, OnErr, true};
ghost use Rattle.rds_link.specs.declared.wire.WireError.TheVariants as errors;
ghost use Rattle.rds_link.specs.Ends.{IsFresh, RisesBy};
ghost use Rattle.rds_link.specs.Failing.{next_call, NextFails};
ghost use Rattle.rds_link.specs.Memory.{memory_means, MayFail};
ghost use Rattle.rds_link.specs.Streaming.{HasRisen};

use crate::calls::Calls;
use crate::{End, MemEnd, Standing, Wire, WireCounts, WireError};
use rds_wire::Memory;
use rtrb::RingBuffer;
use std::alloc::Global;
use std::marker::Model;
use std::net::Net;
use std::sync::Wait;
use std::thread::Threads;

/// How many bytes wait in a direction of a stream at most.
pub const ROOM: usize = 65_536;

/// A wire whose streams stay in memory. Some of its openings fail, and some calls of each end.
#[derive(Drop)]
pub struct MemWire {
    alloc: Global,
    calls: Calls,
    fail_end: Vec<u32>,
    faults: u64,
    nothings: u64,
    fulls: u64,
    out: u64,
}

impl Model for MemWire {
    ghost use Rattle.rds_link.specs.Memory.{WireView};

    ghost Value = { WireView };

    ghost view = { λ w. record { openings = w.calls; fail_end = w.fail_end.items; faults = w.faults; nothings = w.nothings; fulls = w.fulls; out = w.out } };
}

impl MemWire {
    /// The openings whose numbers, from 1, stand in `fail_open` fail, and so do the calls of `read` and `write` of each
    /// end whose numbers stand in `fail_end`.
    pub fn new(alloc: Global, fail_open: Vec<u32>, fail_end: Vec<u32>) -> MemWire
        ensures { result ≡ record { openings = record { fail = fail_open.items; made = 0 }; fail_end = fail_end.items; faults = 0; nothings = 0; fulls = 0; out = 0 } }
    {
        MemWire {
            alloc,
            calls: Calls::new(fail_open),
            fail_end,
            faults: 0,
            nothings: 0,
            fulls: 0,
            out: 0,
        }
    }

    /// How many faults there were, of openings and of ends that were given back.
    pub fn faults(&self) -> u64
        ensures { result ≡ self.now.faults }
    {
        self.faults
    }

    /// How many answers `Nothing` the ends that were given back had counted.
    pub fn nothings(&self) -> u64
        ensures { result ≡ self.now.nothings }
    {
        self.nothings
    }

    /// How many answers `Full` the ends that were given back had counted.
    pub fn fulls(&self) -> u64
        ensures { result ≡ self.now.fulls }
    {
        self.fulls
    }

    fn pair(&self) -> Result<(MemEnd, MemEnd), Memory>
        ensures fresh { IfOk result (λ ends. IsFresh memory_means ends.0 × IsFresh memory_means ends.1) }
        ensures pair { IfOk result (λ ends. memory_means.meets ends.0 ends.1) }
        ensures fail { IfOk result (λ ends. (memory_means.fail ends.0 ≡ self.now.fail_end) × (memory_means.fail ends.1 ≡ self.now.fail_end)) }
        ensures room { IfOk result (λ ends. (memory_means.room ends.0 ≡ 65536) × (memory_means.room ends.1 ≡ 65536)) }
    {
        let (low, high) = Standing::pair(self.alloc)?;
        let (to_high, from_low) = RingBuffer::new(self.alloc, ROOM)?;
        let (to_low, from_high) = RingBuffer::new(self.alloc, ROOM)?;
        let first = MemEnd::new(to_high, from_high, low, self.fail_end.clone()?);
        let second = MemEnd::new(to_low, from_low, high, self.fail_end.clone()?);
        Ok((first, second))
    }
}

impl Wire for MemWire {
    type End = MemEnd;

    ghost counted = { λ w. record { faults = w.faults; nothings = w.nothings; fulls = w.fulls } };

    ghost out = { λ w. w.out };

    ghost may_fail = { λ w. MayFail w };

    fn tells(&self) -> bool {
        true
    }

    fn can_fail(&self) -> bool {
        self.calls.can_fail() || !self.fail_end.is_empty()
    }

    fn counts(&self) -> WireCounts {
        WireCounts {
            faults: self.faults,
            nothings: self.nothings,
            fulls: self.fulls,
        }
    }

    fn open<R: Threads + Wait + Net>(
        &mut self,
        _rt: &R,
        _low: u32,
        _high: u32,
        _stream: u32,
    ) -> Result<(MemEnd, MemEnd), WireError>
        ensures fresh { IfOk result (λ ends. IsFresh memory_means ends.0 × IsFresh memory_means ends.1) }
        ensures pair { IfOk result (λ ends. memory_means.meets ends.0 ends.1) }
        ensures room { IfOk result (λ ends. (memory_means.room ends.0 ≡ 65536) × (memory_means.room ends.1 ≡ 65536)) }
        ensures fail { IfOk result (λ ends. (memory_means.fail ends.0 ≡ self.old.fail_end) × (memory_means.fail ends.1 ≡ self.old.fail_end)) }
        ensures fault { IsErrOf result errors.Fault → HasRisen self.old.faults self.new.faults }
        ensures once { IsErrOf result errors.Fault → RisesBy 1 self.old.faults self.new.faults }
        ensures short { IsErrOf result errors.Memory → self.new.faults ≡ self.old.faults }
        ensures quiet { IfOk result (λ _. self.new.faults ≡ self.old.faults) }
        ensures number { IsErrOf result errors.Fault ↔ NextFails self.old.openings.fail self.old.openings.made }
        ensures counts { self.new ≡ record self.old { openings = record self.old.openings { made = next_call self.old.openings.made }; faults = self.new.faults; out = self.new.out } }
        ensures faults { self.old.faults ≤ self.new.faults }
        ensures out { IfOk result (λ _. self.new.out ≤ self.old.out + 2) }
        ensures opened { IfOk result (λ _. RisesBy 2 self.old.out self.new.out) }
        ensures none { OnErr result (self.new.out ≡ self.old.out) }
    {
        if self.calls.fails() {
            self.faults = self.faults.saturating_add(1);
            return Err(WireError::Fault);
        }
        match self.pair() {
            Ok(ends) => {
                self.out = self.out.saturating_add(2);
                Ok(ends)
            }
            Err(Memory) => Err(WireError::Memory),
        }
    }

    fn meet(a: &mut MemEnd, b: &mut MemEnd) {
        Standing::meet(&mut a.standing, &mut b.standing);
        let Some(ring) = &mut a.inp else {
            unreachable!()
        };
        ring.slots_beside(&mut b.out);
        let Some(ring) = &mut b.inp else {
            unreachable!()
        };
        ring.slots_beside(&mut a.out);
    }

    fn give_back<R: Wait>(&mut self, rt: &R, end: MemEnd) {
        self.faults = self.faults.saturating_add(end.standing.faults());
        self.nothings = self.nothings.saturating_add(end.nothings);
        self.fulls = self.fulls.saturating_add(end.fulls);
        self.out = self.out.saturating_sub(1);
        end.finish(rt);
    }
}
