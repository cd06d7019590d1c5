//! The report at the end of a transcript, and its summary: what became of the datagrams of each port pair, and of all together.
#![tactic(auto)]

mod acknowledgements;
mod cancellations;
mod collect;
mod counts;
mod flags;
mod grouping;
mod item;
pub mod laws;
mod lists;
mod lost;
mod print;
mod reporting;
mod sent;
mod summing;
mod taken;
mod texts;
mod totals;

pub use reporting::{report, report_parts};
pub use summing::summary;
