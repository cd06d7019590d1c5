//! All that a script has made: its hosts, the connections between them, and the transcript. Each command of a script is a
//! call, which does what the history of the script says.
#![tactic(auto)]

mod bind;
mod cancel;
mod close;
mod drain;
mod ending;
mod memory;
mod moving;
mod opening;
mod peer_map;
mod printing;
mod reading;
mod recv;
mod send;
mod stop;
mod world;

pub use stop::{Full, Stop};
pub use world::World;
