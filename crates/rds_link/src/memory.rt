ghost use Rattle.std.specs.Prelude.{◌≡◌, ◌<◌, ◌≤◌, ◌↔◌, ◌++◌, [], Some, min, length, take, IfOk, OnOk, OnErr, IsErr, Ok};
ghost use Rattle.rds_link.specs.Failing.{next_call, NextFails};
ghost use Rattle.rds_link.specs.Streaming.{HasRisen};

use crate::calls::Calls;
use crate::{Failed, Sink, Source};
use std::alloc::Global;
use std::marker::Model;

/// A text in memory, some of whose reads fail.
#[derive(Drop)]
pub struct MemSource {
    text: Vec<u8>,
    taken: usize,
    calls: Calls,
    faults: u64,
}

impl Model for MemSource {
    ghost use Rattle.std.specs.Prelude.{◌≤◌, length, drop};
    ghost use Rattle.rds_link.specs.Streaming.{Supply};

    ghost Value = { Supply };

    ghost view = { λ s. record { left = drop s.taken s.text.items; faults = s.faults; calls = s.calls } };

    ghost invariant = { λ s. s.taken ≤ length s.text.items };
}

impl MemSource {
    /// A source of `text`. The reads whose numbers, from 1, stand in `fail` fail.
    pub fn new(text: Vec<u8>, fail: Vec<u32>) -> MemSource
        ensures { result ≡ record { left = text.items; faults = 0; calls = record { fail = fail.items; made = 0 } } }
    {
        MemSource {
            text,
            taken: 0,
            calls: Calls::new(fail),
            faults: 0,
        }
    }

    /// How many reads have failed.
    pub fn faults(&self) -> u64
        ensures { result ≡ self.now.faults }
    {
        self.faults
    }
}

impl Source for MemSource {
    ghost left = { λ s. Some s.left };

    ghost faults = { λ s. s.faults };

    fn read(&mut self, buf: &mut [u8]) -> Result<usize, Failed>
        requires { 0 < length buf.old }
        ensures count { IfOk result (λ n. n ≡ min (length buf.old) (length self.old.left)) }
        ensures bytes { IfOk result (λ n. self.old.left ≡ take n buf.new ++ self.new.left) }
        ensures end { result ≡ Ok 0 → self.old.left ≡ [] }
        ensures kept { OnErr result (self.new.left ≡ self.old.left) }
        ensures failed { OnErr result (HasRisen self.old.faults self.new.faults) }
        ensures quiet { OnOk result (self.new.faults ≡ self.old.faults) }
        ensures counts { self.old.faults ≤ self.new.faults }
        ensures number { IsErr result ↔ NextFails self.old.calls.fail self.old.calls.made }
        ensures calls { self.new.calls ≡ record self.old.calls { made = next_call self.old.calls.made } }
    {
        if self.calls.fails() {
            self.faults = self.faults.saturating_add(1);
            return Err(Failed);
        }
        let (_, rest) = self.text.split_at(self.taken);
        let count = copy_front(rest, buf);
        self.taken += count;
        Ok(count)
    }
}

// Copies as much from the front of one slice to the front of the other as fits.
fn copy_front(from: &[u8], to: &mut [u8]) -> usize
    ensures count { result ≡ min (length from.now) (length to.old) }
    ensures front { take result to.new ≡ take result from.now }
{
    let count = from.len().min(to.len());
    to[..count].copy_from_slice(&from[..count]);
    count
}

/// A sink that keeps what it takes in memory, and some of whose writes fail.
#[derive(Drop)]
pub struct MemSink {
    held: Vec<u8>,
    calls: Calls,
    faults: u64,
}

impl Model for MemSink {
    ghost use Rattle.rds_link.specs.Streaming.{Pile};

    ghost Value = { Pile };

    ghost view = { λ s. record { held = s.held.items; faults = s.faults; calls = s.calls } };
}

impl MemSink {
    /// A sink that holds nothing. The writes whose numbers, from 1, stand in `fail` fail.
    pub fn new(alloc: Global, fail: Vec<u32>) -> MemSink
        ensures { result ≡ record { held = []; faults = 0; calls = record { fail = fail.items; made = 0 } } }
    {
        MemSink {
            held: Vec::new(alloc),
            calls: Calls::new(fail),
            faults: 0,
        }
    }

    /// The bytes that it holds.
    pub fn held(&self) -> &[u8]
        ensures { result.now ≡ self.now.held }
    {
        self.held.as_slice()
    }

    /// How many writes have failed.
    pub fn faults(&self) -> u64
        ensures { result ≡ self.now.faults }
    {
        self.faults
    }
}

impl Sink for MemSink {
    ghost held = { λ s. Some s.held };

    ghost faults = { λ s. s.faults };

    fn write(&mut self, piece: &[u8]) -> Result<usize, Failed>
        requires { 0 < length piece.now }
        ensures count { IfOk result (λ n. n ≡ length piece.now) }
        ensures bytes { OnOk result (self.new.held ≡ self.old.held ++ piece.now) }
        ensures kept { OnErr result (self.new.held ≡ self.old.held) }
        ensures failed { OnErr result (HasRisen self.old.faults self.new.faults) }
        ensures quiet { OnOk result (self.new.faults ≡ self.old.faults) }
        ensures counts { self.old.faults ≤ self.new.faults }
        ensures number { NextFails self.old.calls.fail self.old.calls.made → IsErr result }
        ensures calls { self.new.calls ≡ record self.old.calls { made = next_call self.old.calls.made } }
    {
        if self.calls.fails() || self.held.extend_from_slice(piece).is_err() {
            self.faults = self.faults.saturating_add(1);
            return Err(Failed);
        }
        Ok(piece.len())
    }
}
