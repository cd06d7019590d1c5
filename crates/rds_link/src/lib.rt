//! Where bytes come from and go to, and count their faults: sources and sinks, and the ends of streams with the wires that open them.
//! The streams in memory stand here, those over TCP in rds_tcp.
#![tactic(auto)]

mod calls;
mod end;
mod gate;
mod memory;
mod memory_end;
mod memory_wire;
mod sink;
mod source;
mod standard;
mod standing;
mod start;
mod wire;
mod words;

pub use end::{End, Got, Put};
pub use gate::{Gate, OpenGate};
pub use memory::{MemSink, MemSource};
pub use memory_end::MemEnd;
pub use memory_wire::{MemWire, ROOM};
pub use sink::{Sink, write_all};
pub use source::{ReadError, Source, read_all};
pub use standard::{StdSink, StdSource};
pub use standing::Standing;
pub use start::Start;
use std::fmt;
pub use wire::{Wire, WireCounts, WireError};
pub use words::{EndSeat, View};

/// A read or a write failed, and the count of faults has risen.
#[derive(Clone, Copy, Debug, PartialEq, Eq)]
pub struct Failed;

impl fmt::Display for Failed {
    fn fmt<W: fmt::Write>(&self, f: &mut fmt::Formatter<W>) -> fmt::Result {
        f.write_str("a read or a write failed")
    }
}

impl std::error::Error for Failed {}
