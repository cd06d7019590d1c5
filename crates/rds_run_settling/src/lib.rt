//! What the slots and the lines of a host of a run are told of each other.
#![tactic(auto)]

pub mod laws;
mod settling;

pub use settling::{settle_lines, settle_ports, settle_slots};
