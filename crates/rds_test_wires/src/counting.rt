//! A wire in memory, of which the ends of the lower host count the bytes that they take.
use rds_link::{End, Got, MemEnd, MemWire, Put, Wire, WireCounts, WireError};
use std::alloc::Global;
use std::marker::Model;
use std::net::Net;
use std::sync::Wait;
use std::sync::atomic::{AtomicUsize, Ordering};
use std::thread::Threads;

/// An end in memory that adds the bytes that it takes to a count, if it has one.
#[derive(Drop)]
pub struct CountingEnd<'a> {
    own: MemEnd,
    taken: Option<&'a AtomicUsize>,
}

impl CountingEnd<'_> {
    // Adds what was taken.
    fn count(&self, put: Put) {
        if let (Put::Took(bytes), Some(taken)) = (put, self.taken) {
            taken.fetch_add(bytes, Ordering::SeqCst);
        }
    }
}

impl End for CountingEnd<'_> {
    ghost use Rattle.std.specs.Prelude.{true};
    ghost use Rattle.rds_link.specs.Memory.{memory_means};

    ghost means = { record {
      tells = true;
      sent = λ e. memory_means.sent e.own;
      got = λ e. memory_means.got e.own;
      known = λ e. memory_means.known e.own;
      room = λ e. memory_means.room e.own;
      calls = λ e. memory_means.calls e.own;
      fail = λ e. memory_means.fail e.own;
      stand = λ e. memory_means.stand e.own;
      nothings = λ e. memory_means.nothings e.own;
      fulls = λ e. memory_means.fulls e.own;
      meets = λ a b. memory_means.meets a.own b.own;
    } };

    fn read(&mut self, buf: &mut [u8]) -> Got {
        self.own.read(buf)
    }

    fn write(&mut self, piece: &[u8]) -> Put {
        let put = self.own.write(piece);
        self.count(put);
        put
    }

    fn shut(&mut self) {
        self.own.shut();
    }

    fn finish<R: Wait>(self, rt: &R) {
        let CountingEnd { own, taken: _ } = self;
        own.finish(rt);
    }

    fn rest<R: Wait>(&self, rt: &R) {
        self.own.rest(rt);
    }
}

/// A wire in memory whose lower ends count the bytes that they take, all in one count.
#[derive(Drop)]
pub struct CountingWire<'a> {
    own: MemWire,
    taken: &'a AtomicUsize,
}

impl<'a> CountingWire<'a> {
    /// A wire that adds to this count.
    pub fn new(alloc: Global, taken: &'a AtomicUsize) -> CountingWire<'a> {
        CountingWire {
            own: MemWire::new(alloc, Vec::new(alloc), Vec::new(alloc)),
            taken,
        }
    }
}

impl<'a> Wire for CountingWire<'a> {
    type End = CountingEnd<'a>;

    ghost counted = { λ w. record { faults = w.own.faults; nothings = w.own.nothings; fulls = w.own.fulls } };

    ghost out = { λ w. w.own.out };

    ghost may_fail = { λ w. Unit {0} };

    fn tells(&self) -> bool {
        true
    }

    fn can_fail(&self) -> bool {
        true
    }

    fn counts(&self) -> WireCounts {
        self.own.counts()
    }

    fn open<R: Threads + Wait + Net>(
        &mut self,
        rt: &R,
        low: u32,
        high: u32,
        stream: u32,
    ) -> Result<(CountingEnd<'a>, CountingEnd<'a>), WireError> {
        let (first, second) = self.own.open(rt, low, high, stream)?;
        let counting = CountingEnd {
            own: first,
            taken: Some(self.taken),
        };
        let other = CountingEnd {
            own: second,
            taken: None,
        };
        Ok((counting, other))
    }

    fn meet(a: &mut CountingEnd<'a>, b: &mut CountingEnd<'a>) {
        MemWire::meet(&mut a.own, &mut b.own);
    }

    fn give_back<R: Wait>(&mut self, rt: &R, end: CountingEnd<'a>) {
        let CountingEnd { own, taken: _ } = end;
        self.own.give_back(rt, own);
    }
}
