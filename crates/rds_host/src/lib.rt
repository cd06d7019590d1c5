//! Hosts: the slots and lines of one host, made over its tables; the worker that turns its lines; what is told between them
//! when both are done; and laws of what stays.
#![tactic(auto)]

mod column;
mod host_lines;
pub mod laws;
mod making;
mod resting;
mod seats;
mod settling;
mod stop;
mod working;

pub use making::make;
pub use settling::settle;
pub use stop::Stop;
pub use working::work;
