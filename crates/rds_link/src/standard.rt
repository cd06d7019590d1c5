ghost use Rattle.std.specs.Prelude.{◌≡◌};

use crate::{Failed, Sink, Source};
use std::io::{Read, Write};
use std::marker::Model;

/// Standard input, or any other reader. It tells of content what the reader tells, which is nothing at standard input.
/// Contracts see the reader and the count of faults.
#[derive(Drop)]
pub struct StdSource<R: Read + Drop> {
    reader: R,
    faults: u64,
}

impl<R: Read + Drop> Model for StdSource<R> {
    ghost use Rattle.rds_link.specs.Streaming.{WithFaults};

    ghost Value = { WithFaults R };

    ghost view = { λ s. record { inner = s.reader; faults = s.faults } };
}

impl<R: Read + Drop> StdSource<R> {
    /// A source that reads from there, and has had no fault.
    pub fn new(reader: R) -> StdSource<R>
        ensures { result ≡ record { inner = reader; faults = 0 } }
    {
        StdSource { reader, faults: 0 }
    }
}

impl<R: Read + Drop> Source for StdSource<R> {
    ghost left = { λ s. R.remaining s.inner };

    ghost faults = { λ s. s.faults };

    fn read(&mut self, buf: &mut [u8]) -> Result<usize, Failed> {
        match self.reader.read(buf) {
            Ok(count) => Ok(count),
            Err(_) => {
                self.faults = self.faults.saturating_add(1);
                Err(Failed)
            }
        }
    }
}

/// Standard output, or any other writer. It tells of content what the writer tells, which is nothing at standard output.
/// Contracts see the writer and the count of faults.
#[derive(Drop)]
pub struct StdSink<W: Write + Drop> {
    writer: W,
    faults: u64,
}

impl<W: Write + Drop> Model for StdSink<W> {
    ghost use Rattle.rds_link.specs.Streaming.{WithFaults};

    ghost Value = { WithFaults W };

    ghost view = { λ s. record { inner = s.writer; faults = s.faults } };
}

impl<W: Write + Drop> StdSink<W> {
    /// A sink that writes there, and has had no fault.
    pub fn new(writer: W) -> StdSink<W>
        ensures { result ≡ record { inner = writer; faults = 0 } }
    {
        StdSink { writer, faults: 0 }
    }
}

impl<W: Write + Drop> Sink for StdSink<W> {
    ghost held = { λ s. W.contents s.inner };

    ghost faults = { λ s. s.faults };

    // A writer that takes nothing has failed.
    fn write(&mut self, piece: &[u8]) -> Result<usize, Failed> {
        match self.writer.write(piece) {
            Ok(count) if count > 0 => Ok(count),
            _ => {
                self.faults = self.faults.saturating_add(1);
                Err(Failed)
            }
        }
    }
}
