//! Hosts of one slot whose parts are put together by hand, for tests, benchmarks and examples: `HandmadeHost` has a socket, `LineHost` a
//! line to one peer, `pair` two such hosts with a line between them, and `channels` only the channels of two hosts.
#![tactic(auto)]

pub mod channels;
mod counts;
mod host;
mod line;
mod line_host;
pub mod pair;
mod queues;
mod seats;

pub use counts::LineCounts;
pub use host::{Bound, HandmadeHost};
pub use line::LineEnd;
pub use line_host::{LineHost, PORT};
pub use queues::{Deliverer, Orders};
