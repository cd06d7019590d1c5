//! Which socket holds which port of a host: one word for each port, which threads share without a lock.
#![tactic(auto)]

mod error;
mod plays;
mod rule;
mod seat;
mod steps;
mod table;
mod telling;
#[cfg(test)]
mod tests;
mod view;

pub use error::{BindError, NoSlot};
pub use seat::{BindNote, BindSeat};
pub use table::BindTable;
pub use view::{Step, Telling, View};
