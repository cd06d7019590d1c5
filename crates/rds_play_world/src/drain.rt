ghost use Rattle.std.specs.Prelude.{◌≡◌, ◌<◌, ◌||◌, ℕ, List};
ghost use Rattle.rds_history.specs.Courses.{again, each};
ghost use Rattle.rds_history.specs.Drain.{both_ways, drain, open_if_closed, pairs, round, rounds};
ghost use Rattle.rds_history.specs.Events.{Event};
ghost use Rattle.rds_play_world.specs.Coming.{Comes, ComesRight};
ghost use Rattle.rds_play_world.specs.Draining.{SaysMoved, pairs_above};
ghost use Rattle.rds_play_world.specs.Telling.{Tells, none_waits, state};

use crate::stop::Stop;
use crate::world::World;
use rds_history::laws::moves_go_forward;
use rds_text::{MAX_HOSTS, drained_line};

impl World {
    /// Opens all pairs, and moves bytes both ways between all until none is left to move.
    ///
    /// # Errors
    ///
    /// What stops the run: `Memory` where there is none, and `Spent` where a journal that it adds to is full.
    pub fn drain(&mut self) -> Result<(), Stop>
        ensures count { self.new.count ≡ self.old.count }
        ensures course { (limit hosts : ℕ) (past : List Event) → Tells limit hosts past (state self.old) →
            Comes limit hosts (drain limit hosts past) result (state self.new) }
    {
        self.open_all()?;
        self.all_rounds()?;
        drained_line(&mut self.text)?;
        Ok(())
    }

    // Opens all closed pairs.
    fn open_all(&mut self) -> Result<(), Stop>
        ensures count { self.new.count ≡ self.old.count }
        ensures course { (limit hosts : ℕ) (past : List Event) → Tells limit hosts past (state self.old) →
            Comes limit hosts (each (pairs hosts) (open_if_closed limit) past) result (state self.new) }
    {
        for low in 0..self.count {
            self.open_above(low)?;
        }
        Ok(())
    }

    // Opens the closed pairs of a host with those above it.
    fn open_above(&mut self, low: u8) -> Result<(), Stop>
        requires { low < self.old.count }
        ensures count { self.new.count ≡ self.old.count }
        ensures course { (limit hosts : ℕ) (past : List Event) → Tells limit hosts past (state self.old) →
            Comes limit hosts (each (pairs_above low hosts) (open_if_closed limit) past) result (state self.new) }
    {
        for high in low + 1..self.count {
            self.open_if_closed(low, high)?;
        }
        Ok(())
    }

    // Opens a stream between two hosts, if none is open.
    fn open_if_closed(&mut self, low: u8, high: u8) -> Result<(), Stop>
        requires low { low < high }
        requires high { high < self.old.count }
        ensures count { self.new.count ≡ self.old.count }
        ensures course { (limit hosts : ℕ) (past : List Event) → Tells limit hosts past (state self.old) →
            Comes limit hosts (open_if_closed limit (record { low = low; high = high }) past) result (state self.new) }
    {
        if self.mesh.stream(low, high).is_some() {
            return Ok(());
        }
        self.open_both(low, high)
    }

    // Rounds over all pairs, until one moves no byte.
    fn all_rounds(&mut self) -> Result<(), Stop>
        ensures count { self.new.count ≡ self.old.count }
        ensures course { (limit hosts : ℕ) (past : List Event) → Tells limit hosts past (state self.old) →
            Comes limit hosts (again (rounds limit) (round limit hosts) past) result (state self.new) }
    {
        for _ in 0..rounds(self.limit) {
            let moved = self.round()?;
            if !moved {
                return Ok(());
            }
        }
        Ok(())
    }

    // One round over all pairs. Answers whether a byte moved.
    fn round(&mut self) -> Result<bool, Stop>
        ensures count { self.new.count ≡ self.old.count }
        ensures course { (limit hosts : ℕ) (past : List Event) → Tells limit hosts past (state self.old) →
            ComesRight (SaysMoved past) none_waits limit hosts (round limit hosts past) result (state self.new) }
    {
        let mut moved = false;
        for low in 0..self.count {
            let more = self.round_above(low)?;
            moved = either(moved, more);
        }
        Ok(moved)
    }

    // The part of a round between a host and those above it.
    fn round_above(&mut self, low: u8) -> Result<bool, Stop>
        requires { low < self.old.count }
        ensures count { self.new.count ≡ self.old.count }
        ensures course { (limit hosts : ℕ) (past : List Event) → Tells limit hosts past (state self.old) →
            ComesRight (SaysMoved past) none_waits limit hosts (each (pairs_above low hosts) (both_ways limit) past) result (state self.new) }
    {
        let mut moved = false;
        for high in low + 1..self.count {
            let more = self.both_ways(low, high)?;
            moved = either(moved, more);
        }
        Ok(moved)
    }

    // Bytes go without limit between two hosts, and back. Answers whether a byte moved.
    fn both_ways(&mut self, low: u8, high: u8) -> Result<bool, Stop>
        requires low { low < high }
        requires high { high < self.old.count }
        ensures count { self.new.count ≡ self.old.count }
        ensures course { (limit hosts : ℕ) (past : List Event) → Tells limit hosts past (state self.old) →
            ComesRight (SaysMoved past) none_waits limit hosts (both_ways limit (record { low = low; high = high }) past) result (state self.new) }
    {
        moves_go_forward();
        let forth = self.move_up_to(low, high, None)?;
        let back = self.move_up_to(high, low, None)?;
        Ok(either(forth > 0, back > 0))
    }
}

// How many rounds of a drain there are at most.
fn rounds(limit: u32) -> u64
    ensures { result ≡ rounds limit }
{
    u64::from(MAX_HOSTS) * u64::from(MAX_HOSTS) * u64::from(limit) + 1
}

// Whether one of both holds.
fn either(one: bool, other: bool) -> bool
    ensures { result ≡ (one || other) }
{
    one || other
}
