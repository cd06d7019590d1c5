use crate::{ConnPair, PairError, PairStep};

impl ConnPair {
    ghost use Rattle.std.specs.Prelude.{◌≡◌, ℕ, Err, OnOk, OnErr};
    ghost use Rattle.rds_model.specs.Legal.{IsWhole};
    ghost use Rattle.rds_model.specs.Honest.{IsHonest};
    ghost use Rattle.rds_model.specs.Pairs.{IsDeliveredOnce};
    ghost use Rattle.rds_play_pair.specs.declared.error.PairError.TheVariants as errors;
    ghost use Rattle.rds_play_pair.specs.Sides.{HasFull};
    ghost use Rattle.rds_play_pair.specs.Playing.{Does, DoesAll, Stops};

    /// Does the steps, one after another, whatever they are.
    ///
    /// # Errors
    ///
    /// What the first step that couldn't be done answers. The steps before it were done, and no other.
    pub fn run(&mut self, steps: &[PairStep]) -> Result<(), PairError>
        ensures ok { OnOk result (DoesAll steps.now self.old self.new) }
        ensures err { OnErr result (Stops steps.now self.old self.new) }
        ensures spent { (entries : ℕ) → result ≡ Err (errors.Spent entries) → HasFull entries self.new }

        ensures whole_first { IsWhole self.new.first.past }
        ensures whole_second { IsWhole self.new.second.past }
        ensures honest { IsHonest self.new.first.past self.new.second.past }
        ensures forth { (sport dport : ℕ) → IsDeliveredOnce sport dport self.new.first.past self.new.second.past }
        ensures back { (sport dport : ℕ) → IsDeliveredOnce sport dport self.new.second.past self.new.first.past }
    {
        let done = self.do_all(steps);
        self.known();
        done
    }

    // Does the steps, one after another.
    fn do_all(&mut self, steps: &[PairStep]) -> Result<(), PairError>
        ensures ok { OnOk result (DoesAll steps.now self.old self.new) }
        ensures err { OnErr result (Stops steps.now self.old self.new) }
        ensures spent { (entries : ℕ) → result ≡ Err (errors.Spent entries) → HasFull entries self.new }
    {
        for step in steps {
            self.step(step)?;
        }
        Ok(())
    }

    /// Does one step.
    ///
    /// # Errors
    ///
    /// `Spent` only where a journal has no room for two more entries, and `Memory` where there is none. The pair is as
    /// before.
    pub fn step(&mut self, step: &PairStep) -> Result<(), PairError>
        ensures ok { OnOk result (Does step.now self.old self.new) }
        ensures err { OnErr result (self.new ≡ self.old) }
        ensures spent { (entries : ℕ) → result ≡ Err (errors.Spent entries) → HasFull entries self.old }
    {
        match step {
            PairStep::Order { end, order } => self.order(*end, order),
            PairStep::Open => self.open(),
            PairStep::Shut { end } => self.shut(*end),
            PairStep::Cut => self.cut(),
            PairStep::Pull { end, map } => self.pull(*end, map),
            PairStep::Move { to, bytes } => self.move_bytes(*to, *bytes).map(|_| ()),
            PairStep::Pass { end, slot } => self.pass(*end, *slot),
        }
    }
}
