//! The flag that tells the workers of lines to stop, on which they also sleep.
use std::sync::Wait;
use std::sync::atomic::{AtomicU64, AtomicUsize, Ordering};
use std::time::Duration;

/// A flag that tells workers to stop, and how many of the workers that have begun have something to do, or haven't seen the flag. No
/// clause rests on either: a worker that sees the flag late, or stops early, turns its lines more or less often.
#[derive(Drop)]
pub struct Stop {
    // 1 once it is set, and 0 before.
    flag: AtomicU64,
    // How many workers have something to do, or haven't seen the flag.
    busy: AtomicUsize,
}

impl Stop {
    /// A flag that isn't set, and no worker.
    pub fn new() -> Stop {
        Stop {
            flag: AtomicU64::new(0),
            busy: AtomicUsize::new(0),
        }
    }

    /// Sets the flag, for good, and wakes the workers that sleep.
    pub fn set(&self) {
        self.flag.store(1, Ordering::SeqCst);
        self.flag.wake_all();
    }

    /// Whether the flag is set.
    pub fn is_set(&self) -> bool {
        self.flag.load(Ordering::SeqCst) == 1
    }

    /// A worker sleeps here: for so long at most, and only where the flag is as the worker saw it. The sleep ends once the flag is set.
    pub(crate) fn sleep<R: Wait>(&self, rt: &R, was_set: bool, time: Duration) {
        self.flag.park_timeout(rt, u32::from(was_set), time);
    }

    /// One worker more has something to do.
    pub(crate) fn begin(&self) {
        self.busy.fetch_add(1, Ordering::SeqCst);
    }

    /// One worker fewer has something to do, and it has seen that the flag is set. Where it was the last one, the workers that sleep wake,
    /// since they may stop.
    pub(crate) fn pause(&self) {
        if self.busy.fetch_sub(1, Ordering::SeqCst) == 1 {
            self.flag.wake_all();
        }
    }

    /// Whether no worker has anything to do.
    pub(crate) fn is_quiet(&self) -> bool {
        self.busy.load(Ordering::SeqCst) == 0
    }
}
