//! The datagrams of a connection that are accepted and not acknowledged, in the order of their numbers.
#![tactic(auto)]

mod items;
mod marks;
mod slot_walk;
mod slots;
mod steps;
mod store;

pub use rds_model::Msg;
pub use steps::Steps;
pub use store::{MAX_MESSAGES, Store};
