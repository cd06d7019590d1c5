//! How a worker rests, and where it sleeps, while none of its lines has anything to do.
use crate::stop::Stop;
use rds_fmap::Writer;
use rds_line::Line;
use rds_link::End;
use std::sync::Wait;
use std::time::Duration;

/// After how many idle rounds in a row a worker sleeps. In the rounds before, its lines only rest.
const ROUNDS_AWAKE: u32 = 32;

/// After how many idle rounds since it was told to stop a worker that has nothing left to do sleeps.
const ROUNDS_AWAKE_AT_STOP: u32 = 2;

/// After how many idle rounds since it was told to stop a worker that has nothing left to do may stop.
const ROUNDS_BEFORE_STOP: u32 = 2;

/// After how many idle rounds since it was told to stop a worker has nothing left to do even where a line has bytes to write: nobody
/// reads them.
const ROUNDS_FOR_READERS: u32 = 96;

/// For how many microseconds a worker sleeps the first time.
const FIRST_SLEEP: u64 = 50;

/// For how many microseconds a worker sleeps at most. Nothing but the stop flag wakes it, so this is how late it may see an order.
const LONGEST_SLEEP: u64 = 50_000;

/// For how many microseconds a worker sleeps at most once it is told to stop.
const LONGEST_SLEEP_AT_STOP: u64 = 100;

/// For how long a worker has been idle.
#[derive(Drop)]
pub(crate) struct Idle {
    // How many idle rounds in a row it has had.
    rounds: u32,
    // How many of these came since it was told to stop.
    rounds_told: u32,
    // Whether the stop flag counts it as a worker that has nothing to do.
    is_done: bool,
    // For how many microseconds it sleeps next.
    next_sleep: u64,
}

impl Idle {
    /// No round was idle yet.
    pub(crate) fn new() -> Idle {
        Idle {
            rounds: 0,
            rounds_told: 0,
            is_done: false,
            next_sleep: FIRST_SLEEP,
        }
    }

    /// Whether the worker has been idle for so long that it may stop.
    pub(crate) fn is_long(&self) -> bool {
        self.is_done && self.rounds_told >= ROUNDS_BEFORE_STOP
    }

    // Begins anew, since a line moved. Where the worker had nothing to do, it has again.
    fn restart(&mut self, stop: &Stop) {
        if self.is_done {
            stop.begin();
        }
        *self = Idle::new();
    }

    // Counts one idle round more. With the first since the worker was told to stop it has nothing left to do, unless a line has bytes to
    // write.
    fn add_round(&mut self, stop: &Stop, is_told: bool, is_written: bool) {
        self.rounds = self.rounds.saturating_add(1);
        if !is_told {
            return;
        }
        self.rounds_told = self.rounds_told.saturating_add(1);
        if !self.is_done && (is_written || self.rounds_told > ROUNDS_FOR_READERS) {
            stop.pause();
            self.is_done = true;
        }
    }

    // Whether there were so many idle rounds that the worker sleeps.
    fn is_sleepy(&self) -> bool {
        if self.is_done {
            self.rounds_told > ROUNDS_AWAKE_AT_STOP
        } else {
            self.rounds > ROUNDS_AWAKE
        }
    }

    // The worker sleeps, each time twice as long.
    fn sleep<R: Wait>(&mut self, rt: &R, stop: &Stop, is_told: bool) {
        let longest = if is_told {
            LONGEST_SLEEP_AT_STOP
        } else {
            LONGEST_SLEEP
        };
        let time = self.next_sleep.min(longest);
        stop.sleep(rt, is_told, Duration::from_micros(time));
        self.next_sleep = time.saturating_mul(2);
    }
}

/// What a worker does after a round in which no line moved: each line rests, or after many such rounds the worker sleeps.
pub(crate) fn rest<E: End, R: Wait>(
    rt: &R,
    lines: &[Line<E, Writer>],
    moved: bool,
    stop: &Stop,
    is_told: bool,
    idle: &mut Idle,
) {
    if moved {
        idle.restart(stop);
        return;
    }
    idle.add_round(stop, is_told, are_written(lines));
    if idle.is_sleepy() {
        idle.sleep(rt, stop, is_told);
        return;
    }
    for line in lines {
        line.rest(rt);
    }
}

// Whether no line has bytes to write.
fn are_written<E: End>(lines: &[Line<E, Writer>]) -> bool {
    for line in lines {
        if line.unwritten() > 0 {
            return false;
        }
    }
    true
}
