use crate::frame::refused;
use crate::frame::work::Work;
use std::fmt;
use std::time::{CpuClock, Duration};

/// The least processor time of some rounds.
pub fn best(clock: &impl CpuClock, rounds: u32, work: &mut impl Work) -> anyhow::Result<Duration> {
    let mut best = Duration::MAX;
    for _ in 0..rounds {
        let start = clock.thread_cpu_time()?;
        work.run().map_err(refused)?;
        let spent = clock.thread_cpu_time()?.saturating_sub(start);
        best = best.min(spent);
    }
    Ok(best)
}

/// Nanoseconds for each of a number of things, in hundredths.
#[derive(Clone, Copy)]
pub struct Rate(u128);

impl Rate {
    pub fn new(time: Duration, count: u64) -> Rate {
        Rate(time.as_nanos() * 100 / u128::from(count.max(1)))
    }
}

impl fmt::Display for Rate {
    fn fmt<W: fmt::Write>(&self, f: &mut fmt::Formatter<W>) -> fmt::Result {
        let whole = self.0 / 100;
        let part = self.0 % 100;
        write!(f, "{whole}.{part:02}")
    }
}
