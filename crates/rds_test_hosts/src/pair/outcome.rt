//! What a run of two lines comes to.
use crate::LineHost;
use crate::pair::{Both, Way, take_next, turns};
use rds_line::Turn;
use rds_link::End;
use std::sync::Wait;

/// How many turns a line has at the end of a run at most.
const LAST_TURNS: u32 = 4_000;

/// How many datagrams a host takes at the end of a run at most.
const LAST_TAKES: u32 = 100_000;

/// What a run came to, once nothing moves any more.
#[derive(Clone, Copy)]
pub struct Outcome {
    /// What went each of the two ways, and what came.
    pub ways: [Way; 2],
    /// Whether a stream is left to both lines.
    pub is_left: bool,
    /// How many datagrams are neither acknowledged nor taken back.
    pub unacked: u32,
}

impl Outcome {
    /// Whether what came both ways was sent, and came in order and each once. Where a stream is left, all came that nothing took back.
    pub fn is_right(&self) -> bool {
        let [forth, back] = &self.ways;
        if self.is_left {
            return forth.is_whole() && back.is_whole() && self.unacked == 0;
        }
        forth.is_right() && back.is_right()
    }

    /// Whether a stream is left, and all came that nothing took back.
    pub fn is_whole(&self) -> bool {
        self.is_left && self.is_right()
    }

    /// Whether datagrams came both ways.
    pub fn has_come(&self) -> bool {
        self.ways[0].came > 0 && self.ways[1].came > 0
    }
}

/// Both lines turn until nothing moves any more, and both hosts take all that came.
pub fn run_out<E: End>(rt: &impl Wait, both: &mut Both<E>, mut ways: [Way; 2]) -> Outcome {
    let last = last_turns(rt, both);
    take_all(rt, &mut both.1, &mut ways[0]);
    take_all(rt, &mut both.0, &mut ways[1]);
    Outcome {
        ways,
        is_left: last.0 != Turn::Over && last.1 != Turn::Over,
        unacked: both.0.unacked().saturating_add(both.1.unacked()),
    }
}

// Both lines turn until neither moves any more. What their last turns answered.
fn last_turns<E: End>(rt: &impl Wait, both: &mut Both<E>) -> (Turn, Turn) {
    let mut last = turns(rt, both, 1);
    for _ in 0..LAST_TURNS {
        if last.0 != Turn::Moved && last.1 != Turn::Moved {
            return last;
        }
        last = turns(rt, both, 1);
    }
    last
}

// The host takes all datagrams that wait.
fn take_all<E: End>(rt: &impl Wait, host: &mut LineHost<E>, way: &mut Way) {
    for _ in 0..LAST_TAKES {
        if !take_next(rt, host, way) {
            return;
        }
    }
}
