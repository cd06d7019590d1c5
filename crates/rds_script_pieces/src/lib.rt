//! The reader of long scripts: a text is cut into pieces at ends of lines, and threads read the pieces.
#![tactic(auto)]

mod counting;
mod cutting;
mod joining;
mod part;
mod piece;
mod reading;

pub use reading::read_by_threads;
