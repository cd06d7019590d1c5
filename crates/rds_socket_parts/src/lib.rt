//! What a socket holds: its seats at the host's port table and meter, its mailbox, and its routes to the peers.
#![tactic(auto)]

mod error;
mod inbox;
mod ports;
mod route;
mod routes;
mod words;

pub use error::{CancelError, NoRoute};
pub use inbox::Inbox;
pub use ports::Ports;
pub use route::Route;
pub use routes::Routes;
pub use words::Words;
