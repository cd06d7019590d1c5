//! Sockets: what a program holds in its hand to bind a port, send and receive datagrams, cancel and close.
#![tactic(auto)]

mod buffers;
mod closed;
mod error;
mod polling;
mod sending;
mod socket;
mod vacant;

pub use buffers::MAX_BUFFER;
pub use closed::{Closed, SocketParts};
pub use error::SendError;
pub use rds_bindtab::BindError;
pub use rds_socket_parts::{CancelError, NoRoute, Route};
pub use socket::Socket;
pub use vacant::Vacant;
