//! Wires in memory that are made for tests of runs: one whose ends count the bytes that they take, one whose ends never hear
//! anything, and one on which the first writes of a host wait for each other.
#![tactic(auto)]

mod counting;
mod deaf;
mod meeting;

pub use counting::{CountingEnd, CountingWire};
pub use deaf::{DeafEnd, DeafWire};
pub use meeting::{Meeting, MeetingEnd, MeetingWire};
