//! What the sockets of a host have been sent and have taken, and its congestion map, in words that threads share without a lock.
#![tactic(auto)]

mod adds;
mod gathering;
mod loads;
mod map;
mod mark;
mod meter;
mod places;
mod plays;
mod rule;
mod seat;
mod seats;
#[cfg(test)]
mod tests;
mod view;

pub use mark::Mark;
pub use meter::Meter;
pub use seat::MeterSeat;
pub use view::{Check, Stage, Step, View};
