//! The hosts of a run: how they are made, and how the caller of each does its commands beside the workers, one of which turns each line.
#![tactic(auto)]

mod counts;
mod giving;
pub mod laws;
mod leading;
mod making;
mod playing;
mod returning;
mod streams;
mod working;

pub use counts::prepared_streams;
pub use giving::give_streams;
pub use making::parties;
pub use playing::play;
pub use streams::{Ends, Prepared, prepare};
