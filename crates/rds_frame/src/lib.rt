//! A stream of bytes, cut into any pieces, as the frames that it spells.
#![tactic(auto)]

mod body;
mod head;
mod laws;
mod plain;
mod splitter;
mod stream;
mod took;

pub use laws::one_split;
pub use plain::frames_in;
pub use splitter::Splitter;
pub use stream::frames_of;
pub use took::{FrameError, Took};
