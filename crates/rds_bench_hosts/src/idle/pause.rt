use rds_link::Gate;
use std::thread;
use std::time::{Clock, Duration};

/// A gate at which each caller waits for so long before each of its commands.
#[derive(Drop)]
pub struct Pause<'a, R: Clock> {
    pub rt: &'a R,
    pub time: Duration,
}

impl<R: Clock> Gate for Pause<'_, R> {
    fn at(&self, _point: u32, _turn: u32) -> bool {
        thread::sleep(self.rt, self.time);
        true
    }
}
