//! How an end over TCP stands. What shows that its TCP stream broke is handed to the one call that counts a fault, which looks only then.
ghost use Rattle.std.specs.Prelude.{◌≡◌, ◌⊎◌, IsTrue, IsFalse, false};
ghost use Rattle.rds_link.specs.Standing.{standing as standing_of, AreTwoEnds, HadShut, Failed, Saw, GoesOn, IsOver, Shuts, LearnsOther, HaveCause, HaveFirst};

use crate::broken::Break;
use rds_link::Standing;
use std::marker::Model;

/// A `Standing` that nothing outside this module reaches, so that no other call counts a fault but `fail`.
#[derive(Drop)]
pub(crate) struct TcpStanding {
    standing: Standing,
}

impl Model for TcpStanding {
    ghost use Rattle.rds_link.specs.Standing.{StandingView};

    ghost Value = { StandingView };

    ghost view = { λ s. s.standing };
}

impl TcpStanding {
    /// An end over TCP that stands so.
    pub(crate) fn new(standing: Standing) -> TcpStanding
        ensures { result ≡ standing }
    {
        TcpStanding { standing }
    }

    /// How many faults the end has had: 0 or 1.
    pub(crate) fn faults(&self) -> u64
        ensures { result ≡ self.now.stand.faults }
    {
        self.standing.faults()
    }

    /// Whether the end has shut, or one load finds that the other end has.
    pub(crate) fn is_over(&mut self) -> bool
        ensures stream { self.new ≡ standing_of self.old self.new.stand }
        ensures over { IsTrue result → IsOver self.old.stand self.new.stand }
        ensures goes { IsFalse result → GoesOn self.old.stand self.new.stand }
    {
        self.standing.is_over()
    }

    /// Looks whether the stream is over, and where it isn't counts the end's first fault, which shuts the end. Answers whether a fault was
    /// counted. `broken` shows that the TCP stream broke before that look. An end shuts before it ends its TCP stream; so where the other
    /// end's shut broke the TCP stream, the look finds that shut.
    pub(crate) fn fail(&mut self, broken: &Break) -> bool
        ensures stream { self.new ≡ standing_of self.old self.new.stand }
        ensures failed { IsTrue result → (self.old.stand.other_shut ≡ false) × Failed self.old.stand self.new.stand }
        ensures over { IsFalse result → HadShut self.old.stand self.new.stand ⊎ Saw self.old.stand self.new.stand }
    {
        let _ = broken;
        if self.standing.is_over() {
            return false;
        }
        self.standing.fail();
        true
    }

    /// Shuts the end, which changes nothing where it had shut.
    pub(crate) fn shut(&mut self)
        ensures stream { self.new ≡ standing_of self.old self.new.stand }
        ensures shut { Shuts self.old.stand self.new.stand }
    {
        self.standing.shut();
    }

    /// Each of the two ends is told whether the other has shut.
    pub(crate) fn meet(a: &mut TcpStanding, b: &mut TcpStanding)
        requires { AreTwoEnds a.old b.old }
        ensures streams { (a.new ≡ standing_of a.old a.new.stand) × (b.new ≡ standing_of b.old b.new.stand) }
        ensures first { LearnsOther a.old.stand a.new.stand b.old.stand }
        ensures second { LearnsOther b.old.stand b.new.stand a.old.stand }
        ensures causes { HaveCause a.new.stand b.new.stand }
        ensures order { HaveFirst a.new.stand b.new.stand }
    {
        Standing::meet(&mut a.standing, &mut b.standing);
    }
}
