ghost use Rattle.std.specs.Prelude.{◌≡◌, ◌≢◌, ◌<◌, ◌≤◌, ◌+◌, ◌-◌, ◌∷◌, ℕ, min, Some, [], List, IfOk, OnOk, length};
ghost use Rattle.std.specs.Option.{option_map};
ghost use Rattle.rds_history.specs.Events.{Event, Moved};
ghost use Rattle.rds_history.specs.Journals.{in_flight, moved_in_all};
ghost use Rattle.rds_history.specs.Move.{arrive, move, move_piece, move_up_to, portion, pull_if_idle, turn};
ghost use Rattle.rds_history.specs.PullAndRead.{pull};
ghost use Rattle.rds_play_world.specs.Coming.{Comes, ComesRight};
ghost use Rattle.rds_play_world.specs.Happening.{BytesCame};
ghost use Rattle.rds_play_world.specs.Readiness.{LacksMemory};
ghost use Rattle.rds_play_world.specs.Telling.{Tells, none_waits, state};

use crate::opening::or_memory;
use crate::printing::print;
use crate::stop::Stop;
use crate::world::World;
use rds_text::{Refusal, move_line};

// How many of `count` bytes may go where `left` are left; `None` is no limit.
fn portion(left: Option<u64>, count: usize) -> usize
    ensures { result ≡ portion left count }
{
    match left {
        Some(most) => usize::try_from(most).unwrap_or(usize::MAX).min(count),
        None => count,
    }
}

// How many bytes are left of `most`, where so many were moved; `None` is no limit.
fn left_of(most: Option<u64>, moved: u64) -> Option<u64>
    ensures left { result ≡ option_map (λ n. n - moved) most }
    ensures fits { (n : ℕ) → most ≡ Some n → n ≤ 18446744073709551615 }
{
    match most {
        Some(most) => Some(most.saturating_sub(moved)),
        None => None,
    }
}

impl World {
    /// Moves at most `bytes` bytes from a host to a peer, and prints how many went.
    ///
    /// # Errors
    ///
    /// What stops the run: `Memory` where there is none, and `Spent` where a journal that it adds to is full.
    pub fn move_bytes(&mut self, host: u8, peer: u8, bytes: u32) -> Result<(), Stop>
        requires host { host < self.old.count }
        requires peer { peer < self.old.count }
        requires apart { peer ≢ host }
        ensures count { self.new.count ≡ self.old.count }
        ensures course { (limit hosts : ℕ) (past : List Event) → Tells limit hosts past (state self.old) →
            Comes limit hosts (move limit host peer bytes past) result (state self.new) }
    {
        if self.mesh.stream(host, peer).is_none() {
            return self.refuse_pair("move", host, peer, Refusal::Down);
        }
        let moved = self.move_up_to(host, peer, Some(u64::from(bytes)))?;
        move_line(&mut self.text, host, peer, moved)?;
        Ok(())
    }

    /// Moves bytes from a host to a peer until `most` were moved, or nothing is owed; `None` is no limit. Answers how many,
    /// as far as 64 bits count them.
    pub(crate) fn move_up_to(&mut self, from: u8, to: u8, most: Option<u64>) -> Result<u64, Stop>
        requires from { from < self.old.count }
        requires to { to < self.old.count }
        requires apart { to ≢ from }
        ensures count { self.new.count ≡ self.old.count }
        ensures course { (limit hosts : ℕ) (past : List Event) → Tells limit hosts past (state self.old) →
            ComesRight (λ later n. n ≡ min 18446744073709551615 (moved_in_all later - moved_in_all past)) none_waits limit hosts
            (move_up_to limit from to (option_map (λ n. moved_in_all past + n) most) past) result (state self.new) }
        ensures within { (n : ℕ) → most ≡ Some n → IfOk result (λ moved. moved ≤ n) }
    {
        let turns = u64::from(self.limit) + 1;
        self.take_turns(from, to, most, turns)
    }

    // Takes so many turns of a move at most, until `most` bytes were moved, or one moves none. Answers how many bytes went, as
    // far as 64 bits count them.
    fn take_turns(&mut self, from: u8, to: u8, most: Option<u64>, turns: u64) -> Result<u64, Stop>
        requires from { from < self.old.count }
        requires to { to < self.old.count }
        requires apart { to ≢ from }
        ensures count { self.new.count ≡ self.old.count }
        ensures course { (limit hosts : ℕ) (past : List Event) → Tells limit hosts past (state self.old) → turns ≡ limit + 1 →
            ComesRight (λ later n. n ≡ min 18446744073709551615 (moved_in_all later - moved_in_all past)) none_waits limit hosts
            (move_up_to limit from to (option_map (λ n. moved_in_all past + n) most) past) result (state self.new) }
        ensures within { (n : ℕ) → most ≡ Some n → IfOk result (λ moved. moved ≤ n) }
    {
        let mut moved: u64 = 0;
        for _turn in 0..turns {
            let more = self.turn(from, to, left_of(most, moved))?;
            if more == 0 {
                return Ok(moved);
            }
            moved = moved.saturating_add(more);
        }
        Ok(moved)
    }

    // One turn: pulls a frame where nothing is in flight, and moves what is in flight, as far as `left` allows. Answers how
    // many bytes that were.
    fn turn(&mut self, from: u8, to: u8, left: Option<u64>) -> Result<u64, Stop>
        requires from { from < self.old.count }
        requires to { to < self.old.count }
        requires apart { to ≢ from }
        ensures count { self.new.count ≡ self.old.count }
        ensures course { (limit hosts : ℕ) (past : List Event) → Tells limit hosts past (state self.old) →
            ComesRight (λ later n. moved_in_all later ≡ moved_in_all past + n) none_waits limit hosts
            (turn limit from to left past) result (state self.new) }
        ensures within { (n : ℕ) → left ≡ Some n → IfOk result (λ moved. moved ≤ n) }
    {
        if left == Some(0) {
            return Ok(0);
        }
        self.pull_if_idle(from, to)?;
        self.arrive(from, to, left)
    }

    // Pulls the frame that a host owes to a peer, where nothing is in flight.
    fn pull_if_idle(&mut self, from: u8, to: u8) -> Result<(), Stop>
        requires from { from < self.old.count }
        requires to { to < self.old.count }
        requires apart { to ≢ from }
        ensures count { self.new.count ≡ self.old.count }
        ensures course { (limit hosts : ℕ) (past : List Event) → Tells limit hosts past (state self.old) →
            Comes limit hosts (pull_if_idle limit from to past) result (state self.new) }
    {
        if !self.mesh.in_flight(from, to).is_empty() {
            return Ok(());
        }
        self.ready(from, to)?;
        self.pull(from, to)
    }

    // Pulls the frame that a host owes to a peer where nothing is in flight, and prints that.
    fn pull(&mut self, from: u8, to: u8) -> Result<(), Stop>
        requires from { from < self.old.count }
        requires to { to < self.old.count }
        requires apart { to ≢ from }
        ensures count { self.new.count ≡ self.old.count }
        ensures told { (limit hosts : ℕ) (past : List Event) → Tells limit hosts past (state self.old) →
            in_flight from to past ≡ [] → OnOk result (Tells limit hosts (pull from to past) (state self.new)) }
        ensures stop { LacksMemory result }
    {
        let first = self.mesh.journal(from, to).len();
        let map = self.hosts[usize::from(from)].map();
        or_memory(self.mesh.pull(from, to, map))?;
        print(&mut self.text, &self.mesh, from, to, first)?;
        Ok(())
    }

    // What is in flight comes to the peer, as far as `left` allows; with the last of it the peer reads the frame.
    fn arrive(&mut self, from: u8, to: u8, left: Option<u64>) -> Result<u64, Stop>
        requires from { from < self.old.count }
        requires to { to < self.old.count }
        requires apart { to ≢ from }
        ensures count { self.new.count ≡ self.old.count }
        ensures course { (limit hosts : ℕ) (past : List Event) → Tells limit hosts past (state self.old) →
            ComesRight (λ later n. moved_in_all later ≡ moved_in_all past + n) none_waits limit hosts
            (arrive limit from to left past) result (state self.new) }
        ensures within { (n : ℕ) → left ≡ Some n → IfOk result (λ moved. moved ≤ n) }
    {
        let flight = self.mesh.in_flight(from, to).len();
        if flight == 0 {
            return Ok(0);
        }
        self.ready(to, from)?;
        let count = portion(left, flight);
        self.move_piece(from, to, count)?;
        Ok(count as u64)
    }

    // So many of the bytes in flight come to the peer; with the last of them it reads the frame.
    fn move_piece(&mut self, from: u8, to: u8, count: usize) -> Result<(), Stop>
        requires from { from < self.old.count }
        requires to { to < self.old.count }
        requires apart { to ≢ from }
        ensures count { self.new.count ≡ self.old.count }
        ensures told { (limit hosts : ℕ) (past : List Event) → Tells limit hosts past (state self.old) →
            0 < length (in_flight from to past) → count ≤ length (in_flight from to past) →
            OnOk result (Tells limit hosts (move_piece from to count past) (state self.new)) }
        ensures stop { LacksMemory result }
    {
        self.feed(from, to, count)?;
        if !self.mesh.in_flight(from, to).is_empty() {
            return Ok(());
        }
        self.read(to, from)
    }

    // So many of the bytes in flight come to the peer.
    fn feed(&mut self, from: u8, to: u8, count: usize) -> Result<(), Stop>
        requires from { from < self.old.count }
        requires to { to < self.old.count }
        requires apart { to ≢ from }
        ensures count { self.new.count ≡ self.old.count }
        ensures told { (limit hosts : ℕ) (past : List Event) → Tells limit hosts past (state self.old) →
            0 < length (in_flight from to past) → count ≤ length (in_flight from to past) →
            OnOk result (BytesCame limit hosts from to (Moved from to count ∷ past) (state self.new)) }
        ensures stop { LacksMemory result }
    {
        self.mesh.known(from, to);
        or_memory(self.mesh.feed(from, to, count))?;
        Ok(())
    }
}
