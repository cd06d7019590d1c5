//! The script that `rds gen` makes by itself, from a number of sends and a seed.
#![tactic(auto)]

mod draws;
mod filling;
mod listing;
mod making;
mod route;

pub use making::{MAX_SENDS, generate};
