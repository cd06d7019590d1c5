//! Streams between hosts over TCP on this machine: each end of a stream has a thread that reads and a thread that writes.
#![tactic(auto)]

mod broken;
mod crew;
mod dialing;
mod end;
mod handles;
mod pipe;
mod pumps;
mod rings;
mod standing;
mod wire;

pub use end::TcpEnd;
pub use wire::TcpWire;

#[cfg(test)]
mod tests;
