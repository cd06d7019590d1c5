//! Scripts of up to eight hosts, run by threads: a caller for each host beside a worker for each line.
#![tactic(auto)]

mod answers;
mod ending;
mod form;
mod giving;
mod leaving;
mod running;
mod taking;
mod writing;

pub use form::{Form, RunEnd};
pub use running::run;
