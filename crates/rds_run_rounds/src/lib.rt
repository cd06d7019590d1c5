//! The last rounds of a run: the lines of its hosts turn on one thread until nothing moves any more.
#![tactic(auto)]

mod counting;
pub mod laws;
mod meeting;
mod rounds;
mod sweeping;
mod turning;
mod verdict;

pub use rounds::{Lines, Rounds, last_rounds};
pub use verdict::{Wanted, last_stream};
