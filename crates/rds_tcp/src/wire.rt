//! What opens streams over TCP.
ghost use Rattle.std.specs.Prelude.{◌≡◌, ◌≤◌, ◌+◌, IfOk, IfSome, IsErrOf, OnErr, Some, Err};
ghost use Rattle.std.specs.Result.{result_err};
ghost use Rattle.rds_link.specs.Ends.{IsFresh, RisesBy};
ghost use Rattle.rds_link.specs.Streaming.{HasRisen};
ghost use Rattle.rds_tcp.specs.Tcp.{tcp_means, new_wire, HasMovedNothing};

use crate::crew::Crew;
use crate::end::TcpEnd;
use crate::rings::rings;
use crate::standing::TcpStanding;
use rds_link::{End, Standing, Wire, WireCounts, WireError};
use rds_wire::Memory;
use std::alloc::Global;
use std::marker::Model;
use std::net::{Net, TcpListener, TcpStream};
use std::sync::Wait;
use std::thread::Threads;

/// A wire whose streams go over TCP from this machine to itself. Only `finish`, which joins its threads, lets it go.
pub struct TcpWire {
    alloc: Global,
    crew: Result<Crew, WireError>,
    faults: u64,
    nothings: u64,
    fulls: u64,
    out: u64,
}

impl Model for TcpWire {
    ghost use Rattle.std.specs.Result.{result_err};
    ghost use Rattle.rds_tcp.specs.Tcp.{WireView};

    ghost Value = { WireView };

    ghost view = { λ w. record { refused = result_err w.crew; faults = w.faults; nothings = w.nothings; fulls = w.fulls; out = w.out } };
}

impl TcpWire {
    /// Starts the thread that opens streams. Where that thread is refused, each opening is refused for the same cause: no memory, or a
    /// fault.
    pub fn new<
        R: Threads + Wait + Net<Listener = TcpListener, Stream = TcpStream> + Copy + Send + 'static,
    >(rt: &R, alloc: Global) -> TcpWire
        ensures { result ≡ new_wire result.refused }
    {
        TcpWire::of(alloc, Crew::new(rt, alloc))
    }

    /// A wire that starts no thread, for where no stream is to be opened: each opening is a fault.
    pub fn idle(alloc: Global) -> TcpWire
        ensures { result ≡ new_wire (Some WireError.Fault) }
    {
        TcpWire::of(alloc, Err(WireError::Fault))
    }

    // A wire with this crew, or with this cause why it has none.
    pub(crate) fn of(alloc: Global, crew: Result<Crew, WireError>) -> TcpWire
        ensures { result ≡ new_wire (result_err crew) }
    {
        TcpWire {
            alloc,
            crew,
            faults: 0,
            nothings: 0,
            fulls: 0,
            out: 0,
        }
    }

    /// How many faults there were, of openings and of ends that were given back.
    pub fn faults(&self) -> u64
        ensures { result ≡ self.now.faults }
    {
        self.faults
    }

    /// How many answers `Nothing` the ends that were given back had counted.
    pub fn nothings(&self) -> u64
        ensures { result ≡ self.now.nothings }
    {
        self.nothings
    }

    /// How many answers `Full` the ends that were given back had counted.
    pub fn fulls(&self) -> u64
        ensures { result ≡ self.now.fulls }
    {
        self.fulls
    }

    /// Returns once all threads have ended. The threads of an end do so once the end was given back, has shut or was dropped.
    pub fn finish<R: Threads>(self, rt: &R) {
        let TcpWire {
            alloc: _,
            crew,
            faults: _,
            nothings: _,
            fulls: _,
            out: _,
        } = self;
        if let Ok(crew) = crew {
            crew.finish(rt);
        }
    }

    // Both ends of a new stream, or why there is none.
    fn pair<R: Wait>(&self, rt: &R) -> Result<(TcpEnd, TcpEnd), WireError>
        ensures refused { IfSome self.now.refused (λ cause. result ≡ Err cause) }
        ensures fresh { IfOk result (λ ends. IsFresh tcp_means ends.0 × IsFresh tcp_means ends.1) }
        ensures pair { IfOk result (λ ends. tcp_means.meets ends.0 ends.1) }
        ensures empty { IfOk result (λ ends. HasMovedNothing ends.0 × HasMovedNothing ends.1) }
    {
        let crew = match &self.crew {
            Ok(crew) => crew,
            Err(cause) => return Err(*cause),
        };
        let Ok((low, high)) = Standing::pair(self.alloc) else {
            return Err(WireError::Memory);
        };
        let Ok((near, far)) = rings(self.alloc) else {
            return Err(WireError::Memory);
        };
        let Ok((high_near, high_far)) = rings(self.alloc) else {
            return Err(WireError::Memory);
        };
        let (pipe, high_pipe) = crew.open(rt, (far, high_far))?;
        let first = TcpEnd::new(pipe, near, low);
        let second = TcpEnd::new(high_pipe, high_near, high);
        Ok((first, second))
    }
}

impl Wire for TcpWire {
    type End = TcpEnd;

    ghost counted = { λ w. record { faults = w.faults; nothings = w.nothings; fulls = w.fulls } };

    ghost out = { λ w. w.out };

    ghost may_fail = { λ w. Unit {0} };

    fn tells(&self) -> bool {
        false
    }

    fn can_fail(&self) -> bool {
        true
    }

    fn counts(&self) -> WireCounts {
        WireCounts {
            faults: self.faults,
            nothings: self.nothings,
            fulls: self.fulls,
        }
    }

    fn open<R: Threads + Wait + Net>(
        &mut self,
        rt: &R,
        _low: u32,
        _high: u32,
        _stream: u32,
    ) -> Result<(TcpEnd, TcpEnd), WireError>
        ensures fresh { IfOk result (λ ends. IsFresh tcp_means ends.0 × IsFresh tcp_means ends.1) }
        ensures pair { IfOk result (λ ends. tcp_means.meets ends.0 ends.1) }
        ensures refused { IfSome self.old.refused (λ cause. result ≡ Err cause) }
        ensures kept { self.new.refused ≡ self.old.refused }
        ensures fault { IsErrOf result WireError.Fault → HasRisen self.old.faults self.new.faults }
        ensures once { IsErrOf result WireError.Fault → RisesBy 1 self.old.faults self.new.faults }
        ensures short { IsErrOf result WireError.Memory → self.new.faults ≡ self.old.faults }
        ensures quiet { IfOk result (λ _. self.new.faults ≡ self.old.faults) }
        ensures faults { self.old.faults ≤ self.new.faults }
        ensures nothings { self.new.nothings ≡ self.old.nothings }
        ensures fulls { self.new.fulls ≡ self.old.fulls }
        ensures out { IfOk result (λ _. self.new.out ≤ self.old.out + 2) }
        ensures opened { IfOk result (λ _. RisesBy 2 self.old.out self.new.out) }
        ensures none { OnErr result (self.new.out ≡ self.old.out) }
    {
        match self.pair(rt) {
            Ok(ends) => {
                self.out = self.out.saturating_add(2);
                Ok(ends)
            }
            Err(WireError::Memory) => Err(WireError::Memory),
            Err(WireError::Fault) => {
                self.faults = self.faults.saturating_add(1);
                Err(WireError::Fault)
            }
        }
    }

    fn meet(a: &mut TcpEnd, b: &mut TcpEnd) {
        TcpStanding::meet(&mut a.standing, &mut b.standing);
    }

    fn give_back<R: Wait>(&mut self, rt: &R, end: TcpEnd) {
        self.faults = self.faults.saturating_add(end.standing.faults());
        self.nothings = self.nothings.saturating_add(end.nothings);
        self.fulls = self.fulls.saturating_add(end.fulls);
        self.out = self.out.saturating_sub(1);
        end.finish(rt);
    }
}
