//! The callers of a script's hosts: each does its host's commands on sockets.
#![tactic(auto)]

mod binding;
mod caller;
mod calls;
mod commands;
mod ending;
mod finding;
mod former;
mod settling;
mod slots;
mod spare;
mod state;
mod tenant;

pub use caller::Caller;
pub use commands::{host_of, is_bind};
