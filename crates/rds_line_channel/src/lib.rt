//! The streams of a line, and the connection that they carry. `Streams` has every end that the line was given and knows which of them
//! it has opened; a `Channel` is a connection with its streams. Two of either kind meet once nothing moves any more.
#![tactic(auto)]

mod channel;
mod cuts;
mod meeting;
mod piece;
mod places;
mod stream_meeting;
mod streams;

pub use channel::{Channel, Taken};
pub use meeting::meet;
pub use piece::MAX_READ;
pub use stream_meeting::meet_streams;
pub use streams::Streams;
