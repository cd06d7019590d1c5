//! The hosts that a script is played on: their sockets, the ports that those hold, what waits at them and what they handed
//! out, and each host's congestion map.
//!
//! Each contract says of what past of a script a host tells before a call, and of what past after it. After an error, which
//! is always one of memory, nothing is promised of the host and of the text.
#![tactic(auto)]

mod bind;
mod close;
mod ending;
mod host;
pub mod laws;
mod recv;
mod take_in;

pub use host::{Arrived, ScriptHost, ScriptSocket};
