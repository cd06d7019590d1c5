//! Lines: one connection of a host with a peer, over streams, driven by one worker.
#![tactic(auto)]

mod line;
mod meeting;
mod outcome;
mod parts;

pub use line::Line;
pub use meeting::meet;
pub use outcome::Turn;
pub use parts::LineParts;
