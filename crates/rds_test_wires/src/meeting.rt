//! A wire in memory on which host A's first write to one of its two peers waits for its first write to the other one.
use rds_link::{End, Got, MemEnd, MemWire, Put, Wire, WireCounts, WireError};
use rds_text::address;
use std::alloc::Global;
use std::marker::Model;
use std::net::Net;
use std::sync::Wait;
use std::sync::atomic::{AtomicBool, Ordering};
use std::thread;
use std::thread::Threads;

/// How many turns a first write waits at most.
const TURNS: u32 = 50_000_000;

/// To which of its two peers host A has begun to write, and whether one of these writes waited for the other in vain.
#[derive(Drop)]
pub struct Meeting {
    to_b: AtomicBool,
    to_c: AtomicBool,
    in_vain: AtomicBool,
}

impl Meeting {
    /// Nothing was written yet.
    pub fn new() -> Meeting {
        Meeting {
            to_b: AtomicBool::new(false),
            to_c: AtomicBool::new(false),
            in_vain: AtomicBool::new(false),
        }
    }

    /// Whether host A has begun to write to both, while the other write waited.
    pub fn is_met(&self) -> bool {
        self.to_b.load(Ordering::SeqCst)
            && self.to_c.load(Ordering::SeqCst)
            && !self.in_vain.load(Ordering::SeqCst)
    }
}

/// What an end of host A does in its first write: it says that it has begun, and waits until one to the other peer has.
#[derive(Clone, Copy, Drop)]
struct Start<'a> {
    own: &'a AtomicBool,
    other: &'a AtomicBool,
    in_vain: &'a AtomicBool,
}

impl Start<'_> {
    fn wait(self) {
        self.own.store(true, Ordering::SeqCst);
        for _ in 0..TURNS {
            if self.other.load(Ordering::SeqCst) {
                return;
            }
            thread::yield_now();
        }
        self.in_vain.store(true, Ordering::SeqCst);
    }
}

// The start that is still to be made, if any.
fn begin(start: &mut Option<Start>) {
    if let Some(start) = start.take() {
        start.wait();
    }
}

/// An end in memory, whose first write waits if it is one of host A's.
#[derive(Drop)]
pub struct MeetingEnd<'a> {
    own: MemEnd,
    start: Option<Start<'a>>,
}

impl End for MeetingEnd<'_> {
    ghost use Rattle.std.specs.Prelude.{true};
    ghost use Rattle.rds_link.specs.Memory.{memory_means};

    ghost means = { record {
      tells = true;
      sent = λ e. memory_means.sent e.own;
      got = λ e. memory_means.got e.own;
      known = λ e. memory_means.known e.own;
      room = λ e. memory_means.room e.own;
      calls = λ e. memory_means.calls e.own;
      fail = λ e. memory_means.fail e.own;
      stand = λ e. memory_means.stand e.own;
      nothings = λ e. memory_means.nothings e.own;
      fulls = λ e. memory_means.fulls e.own;
      meets = λ a b. memory_means.meets a.own b.own;
    } };

    fn read(&mut self, buf: &mut [u8]) -> Got {
        self.own.read(buf)
    }

    fn write(&mut self, piece: &[u8]) -> Put {
        begin(&mut self.start);
        self.own.write(piece)
    }

    fn shut(&mut self) {
        self.own.shut();
    }

    fn finish<R: Wait>(self, rt: &R) {
        let MeetingEnd { own, start: _ } = self;
        own.finish(rt);
    }

    fn rest<R: Wait>(&self, rt: &R) {
        self.own.rest(rt);
    }
}

/// A wire in memory between three hosts, on which the first writes of host A meet.
#[derive(Drop)]
pub struct MeetingWire<'a> {
    own: MemWire,
    meeting: &'a Meeting,
}

impl<'a> MeetingWire<'a> {
    /// A wire on which they meet there.
    pub fn new(alloc: Global, meeting: &'a Meeting) -> MeetingWire<'a> {
        MeetingWire {
            own: MemWire::new(alloc, Vec::new(alloc), Vec::new(alloc)),
            meeting,
        }
    }

    // What the lower end of a stream between two hosts does in its first write.
    fn start(&self, low: u32, high: u32) -> Option<Start<'a>> {
        if low != address(0) {
            return None;
        }
        let Meeting {
            to_b,
            to_c,
            in_vain,
        } = self.meeting;
        let (own, other) = if high == address(1) {
            (to_b, to_c)
        } else {
            (to_c, to_b)
        };
        Some(Start {
            own,
            other,
            in_vain,
        })
    }
}

impl<'a> Wire for MeetingWire<'a> {
    type End = MeetingEnd<'a>;

    ghost counted = { λ w. record { faults = w.own.faults; nothings = w.own.nothings; fulls = w.own.fulls } };

    ghost out = { λ w. w.own.out };

    ghost may_fail = { λ w. Unit {0} };

    fn tells(&self) -> bool {
        true
    }

    fn can_fail(&self) -> bool {
        true
    }

    fn counts(&self) -> WireCounts {
        self.own.counts()
    }

    fn open<R: Threads + Wait + Net>(
        &mut self,
        rt: &R,
        low: u32,
        high: u32,
        stream: u32,
    ) -> Result<(MeetingEnd<'a>, MeetingEnd<'a>), WireError> {
        let start = self.start(low, high);
        let (first, second) = self.own.open(rt, low, high, stream)?;
        let one = MeetingEnd { own: first, start };
        let other = MeetingEnd {
            own: second,
            start: None,
        };
        Ok((one, other))
    }

    fn meet(a: &mut MeetingEnd<'a>, b: &mut MeetingEnd<'a>) {
        MemWire::meet(&mut a.own, &mut b.own);
    }

    fn give_back<R: Wait>(&mut self, rt: &R, end: MeetingEnd<'a>) {
        let MeetingEnd { own, start: _ } = end;
        self.own.give_back(rt, own);
    }
}
