//! The script language of RDS: the reader of a text, with the line and the cause where it is refused.
#![tactic(auto)]

mod cause;
mod command;
mod draft;
mod fault;
pub mod laws;
mod line;
mod name;
mod payload;
mod place;
mod reading;
mod rooms;
mod script;

pub use cause::{Cause, ScriptError};
pub use reading::read;
pub use script::{Command, MAX_CUTS, MAX_LINES, MAX_PAYLOAD, MAX_TEXT, MAX_TOTAL, Placed, Script};
