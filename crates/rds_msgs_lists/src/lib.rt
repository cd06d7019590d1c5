//! Indexes that each stand on two lists at once: the list of all, and the list of one socket.
#![tactic(auto)]

mod index;
mod link;
mod lists;
mod node;
mod placing;

pub use index::Index;
pub use lists::{Lists, MAX_INDEXES};
