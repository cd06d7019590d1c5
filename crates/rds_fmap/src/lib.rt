//! The congestion maps of a host's peers, which one thread publishes and others look up without a lock.
#![tactic(auto)]

pub mod copies;
mod maps;
mod seen;
mod words;

pub use maps::{MapReader, MapWriter};
pub use seen::Seen;
pub use words::{Look, Reader, View, Writer, close, pair};
