//! The one history of a script: what its commands do, the transcript and the report.
#![tactic(auto)]

mod obey;
mod playing;
mod texting;

pub use playing::{PlayEnd, play};
