//! The program: from the words of the command line to the exit status.
#![tactic(auto)]

mod answer;
mod gen_command;
mod gen_words;
mod play_command;
mod play_words;
mod reading;
mod run_command;
mod run_words;
mod running;
mod status;
mod top_call;
mod wire;
mod work;

pub use top_call::rds_main;
pub use wire::RunWire;
pub use work::{Work, work_of};
