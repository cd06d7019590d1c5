//! A connection between two hosts as one of them sees it: each call appends its lawful entry to the journal.
#![tactic(auto)]

mod asking;
mod charges;
mod conn;
mod freed;
mod header;
mod out;
mod verdict;

pub use conn::{Conn, ConnError, Fed, Found, Pulled};
pub use freed::Freed;
pub use out::Out;
pub use rds_model::Verdict;
