//! How an end stands towards the end of its stream: the same for every kind of end.
ghost use Rattle.std.specs.Prelude.{◌≡◌, ◌⊎◌, IfOk, IsTrue, IsFalse, false};
ghost use Rattle.rds_link.specs.Standing.{fresh_stand, standing, AreTwoEnds, HadShut, Failed, Saw, GoesOn, Shuts, LearnsOther, HaveCause, HaveFirst};

use crate::words::EndSeat;
use rds_wire::Memory;
use std::alloc::Global;
use std::marker::Model;

/// Whether an end has shut, and what it knows of the other. Contracts see which stream, and how the end stands.
#[derive(Drop)]
pub struct Standing {
    seat: EndSeat,
    is_shut: bool,
    saw: bool,
    other_shut: bool,
    faults: u64,
}

impl Model for Standing {
    ghost use Rattle.std.specs.Prelude.{◌≡◌, ◌≤◌, ◌⊎◌, true};
    ghost use Rattle.rds_link.specs.Seats.{KnowsOther};
    ghost use Rattle.rds_link.specs.Standing.{StandingView, stand_of};

    ghost Value = { StandingView };

    ghost view = { λ s. record { words = s.seat.words; number = s.seat.view.number; stand = stand_of s.seat.view s.saw s.other_shut s.faults } };

    ghost invariant = { λ s. (s.is_shut ≡ s.seat.view.shut) × (s.faults ≤ 1) × (1 ≤ s.faults → s.is_shut ≡ true) × (s.saw ≡ true → KnowsOther s.seat.view) × (s.other_shut ≡ true → (1 ≤ s.seat.view.first) ⊎ (1 ≤ s.seat.view.told)) };
}

impl Standing {
    fn new(seat: EndSeat) -> Standing
        requires first { seat.view.first ≡ 0 }
        requires shut { seat.view.shut ≡ false }
        ensures { result ≡ record { words = seat.words; number = seat.view.number; stand = fresh_stand } }
    {
        Standing {
            seat,
            is_shut: false,
            saw: false,
            other_shut: false,
            faults: 0,
        }
    }

    /// How the two ends of a new stream stand.
    ///
    /// # Errors
    ///
    /// Where there is no memory for the word that both share.
    pub fn pair(alloc: Global) -> Result<(Standing, Standing), Memory>
        ensures pair { IfOk result (λ r. AreTwoEnds r.0 r.1) }
        ensures fresh { IfOk result (λ r. (r.0.stand ≡ fresh_stand) × (r.1.stand ≡ fresh_stand)) }
    {
        let (first, second) = EndSeat::pair(alloc)?;
        Ok((Standing::new(first), Standing::new(second)))
    }

    /// Whether the end has shut.
    pub fn is_shut(&self) -> bool
        ensures { result ≡ self.now.stand.is_shut }
    {
        self.is_shut
    }

    /// How many faults the end has had: 0 or 1.
    pub fn faults(&self) -> u64
        ensures { result ≡ self.now.stand.faults }
    {
        self.faults
    }

    /// Whether the end has shut, or one load finds that the other end has.
    pub fn is_over(&mut self) -> bool
        ensures stream { self.new ≡ standing self.old self.new.stand }
        ensures over { IsTrue result → HadShut self.old.stand self.new.stand ⊎ Saw self.old.stand self.new.stand }
        ensures goes { IsFalse result → GoesOn self.old.stand self.new.stand }
    {
        if self.is_shut {
            return true;
        }
        let saw = self.seat.look();
        if saw {
            self.saw = true;
            self.other_shut = true;
        }
        saw
    }

    /// Counts the end's first fault, and shuts it. An end that knows that the other has shut has no fault: its stream is over.
    pub fn fail(&mut self)
        requires shut { self.old.stand.is_shut ≡ false }
        requires other { self.old.stand.other_shut ≡ false }
        ensures stream { self.new ≡ standing self.old self.new.stand }
        ensures failed { Failed self.old.stand self.new.stand }
    {
        self.fail_before_a_look();
    }

    // The same for a call that is asked to fail, which it does before it looks whether the other end has shut.
    pub(crate) fn fail_before_a_look(&mut self)
        requires { self.old.stand.is_shut ≡ false }
        ensures stream { self.new ≡ standing self.old self.new.stand }
        ensures failed { Failed self.old.stand self.new.stand }
    {
        let faults = self.faults + 1;
        self.shut();
        self.faults = faults;
    }

    /// Shuts the end by one compare and exchange, which changes nothing where it had shut.
    pub fn shut(&mut self)
        ensures stream { self.new ≡ standing self.old self.new.stand }
        ensures shut { Shuts self.old.stand self.new.stand }
    {
        self.seat.shut();
        self.is_shut = true;
    }

    /// Each of the two ends is told whether the other has shut.
    pub fn meet(a: &mut Standing, b: &mut Standing)
        requires { AreTwoEnds a.old b.old }
        ensures streams { (a.new ≡ standing a.old a.new.stand) × (b.new ≡ standing b.old b.new.stand) }
        ensures first { LearnsOther a.old.stand a.new.stand b.old.stand }
        ensures second { LearnsOther b.old.stand b.new.stand a.old.stand }
        ensures causes { HaveCause a.new.stand b.new.stand }
        ensures order { HaveFirst a.new.stand b.new.stand }
    {
        EndSeat::meet(&mut a.seat, &mut b.seat);
        a.other_shut = b.is_shut;
        b.other_shut = a.is_shut;
    }
}
