ghost use Rattle.std.specs.Prelude.{◌≡◌, ◌≤◌, ◌+◌, ◌-◌, ◌↔◌, ℕ, IfOk, IsErrOf, OnErr, true};
ghost use Rattle.rds_link.specs.Ends.{Remains, MovesNothing, CountsStay, IsFresh, HasAll, RisesBy};
ghost use Rattle.rds_link.specs.Standing.{LearnsOther, HaveCause, HaveFirst};
ghost use Rattle.rds_link.specs.Streaming.{HasRisen};
ghost use Rattle.rds_link.specs.declared.wire.WireCounts.{WireCounts};
ghost use Rattle.rds_link.specs.declared.wire.WireError.TheVariants as errors;

use crate::End;
use std::net::Net;
use std::sync::Wait;
use std::thread::Threads;

/// Why a stream wasn't opened.
#[derive(Clone, Copy, Debug, PartialEq, Eq)]
pub enum WireError {
    /// A call of the system failed. The wire has counted it.
    Fault,
    /// Memory ran out.
    Memory,
}

/// What a wire has counted.
#[derive(Clone, Copy, Debug, PartialEq, Eq)]
pub struct WireCounts {
    /// Faults, of openings and of ends that were given back.
    pub faults: u64,
    /// Answers `Nothing` of ends that were given back.
    pub nothings: u64,
    /// Answers `Full` of ends that were given back.
    pub fulls: u64,
}

/// What opens streams between hosts.
pub trait Wire {
    /// The ends of its streams.
    type End: End;

    /// What it has counted.
    ghost counted: { Self → WireCounts };

    /// How many ends of its streams are out: an opening handed them out, and they weren't given back.
    ghost out: { Self → ℕ };

    /// An opening of it or a call of one of its ends may fail.
    ghost may_fail: { Self → Type 0 };

    /// Whether its ends tell their bytes.
    fn tells(&self) -> bool
        ensures { result ≡ Self.End.means.tells };

    /// Whether an opening of it, or a call of one of its ends, can fail.
    fn can_fail(&self) -> bool
        ensures { result ≡ true ↔ may_fail self.now };

    /// What it has counted so far.
    fn counts(&self) -> WireCounts
        ensures { result ≡ counted self.now };

    /// Opens the stream with this number between two hosts, the lower of which gets the first end.
    fn open<R: Threads + Wait + Net>(
        &mut self,
        rt: &R,
        low: u32,
        high: u32,
        stream: u32,
    ) -> Result<(Self::End, Self::End), WireError>
        ensures fresh { IfOk result (λ ends. IsFresh Self.End.means ends.0 × IsFresh Self.End.means ends.1) }
        ensures pair { IfOk result (λ ends. Self.End.means.meets ends.0 ends.1) }
        ensures fault { IsErrOf result errors.Fault → HasRisen (counted self.old).faults (counted self.new).faults }
        ensures once { IsErrOf result errors.Fault → RisesBy 1 (counted self.old).faults (counted self.new).faults }
        ensures short { IsErrOf result errors.Memory → (counted self.new).faults ≡ (counted self.old).faults }
        ensures quiet { IfOk result (λ _. (counted self.new).faults ≡ (counted self.old).faults) }
        ensures faults { (counted self.old).faults ≤ (counted self.new).faults }
        ensures nothings { (counted self.new).nothings ≡ (counted self.old).nothings }
        ensures fulls { (counted self.new).fulls ≡ (counted self.old).fulls }
        ensures out { IfOk result (λ _. out self.new ≤ out self.old + 2) }
        ensures opened { IfOk result (λ _. RisesBy 2 (out self.old) (out self.new)) }
        ensures none { OnErr result (out self.new ≡ out self.old) };

    /// Each of the two ends of a stream is told all that the other sent and whether it has shut.
    fn meet(a: &mut Self::End, b: &mut Self::End)
        requires { Self.End.means.meets a.old b.old }
        ensures pair { Self.End.means.meets a.new b.new }
        ensures first { LearnsOther (Self.End.means.stand a.old) (Self.End.means.stand a.new) (Self.End.means.stand b.old) }
        ensures second { LearnsOther (Self.End.means.stand b.old) (Self.End.means.stand b.new) (Self.End.means.stand a.old) }
        ensures causes { HaveCause (Self.End.means.stand a.new) (Self.End.means.stand b.new) }
        ensures order { HaveFirst (Self.End.means.stand a.new) (Self.End.means.stand b.new) }
        ensures one { MovesNothing Self.End.means a.old a.new × CountsStay Self.End.means a.old a.new × Remains Self.End.means a.old a.new }
        ensures other { MovesNothing Self.End.means b.old b.new × CountsStay Self.End.means b.old b.new × Remains Self.End.means b.old b.new }
        ensures there { HasAll Self.End.means a.new b.new }
        ensures back { HasAll Self.End.means b.new a.new };

    /// Takes an end back and finishes it. The wire's counts grow by the end's.
    fn give_back<R: Wait>(&mut self, rt: &R, end: Self::End)
        ensures faults { RisesBy (Self.End.means.stand end).faults (counted self.old).faults (counted self.new).faults }
        ensures nothings { RisesBy (Self.End.means.nothings end) (counted self.old).nothings (counted self.new).nothings }
        ensures fulls { RisesBy (Self.End.means.fulls end) (counted self.old).fulls (counted self.new).fulls }
        ensures out { out self.new ≡ out self.old - 1 };
}
