//! The congestion map of a host, and when a port is congested.
#![tactic(auto)]

mod limit;
mod map;

pub use limit::hysteresis;
pub use map::{MAP_BYTES, PortMap, WORDS};
