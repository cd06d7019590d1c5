ghost use Rattle.std.specs.Prelude.{◌≡◌, ◌≤◌, [], ◌++◌, length, drop, IfOk, OnOk, OnErr};
ghost use Rattle.rds_wire.specs.Bytes.{frame_bytes};

use rds_wire::{Frame, Memory, encode};
use std::alloc::Global;
use std::marker::Model;

/// Bytes that are to be written to a stream, the first first.
#[derive(Drop)]
pub struct Out {
    bytes: Vec<u8>,
    // How many of them, from the front, were written.
    written: usize,
}

impl Model for Out {
    ghost use Rattle.std.specs.Prelude.{List, ℕ, ◌≤◌, drop, length};

    ghost Value = { List ℕ };

    ghost view = { λ o. drop o.written o.bytes.items };

    ghost invariant = { λ o. o.written ≤ length o.bytes.items };
}

impl Out {
    /// No bytes.
    ///
    /// # Errors
    ///
    /// Where there is no memory for it.
    pub fn new(alloc: Global) -> Result<Out, Memory>
        ensures { IfOk result (λ out. out ≡ []) }
    {
        Ok(Out {
            bytes: Vec::new(alloc),
            written: 0,
        })
    }

    /// What is left to be written.
    pub fn rest(&self) -> &[u8]
        ensures { result.now ≡ self.now }
    {
        &self.bytes[self.written..]
    }

    /// The first `n` of the rest were written.
    pub fn took(&mut self, n: usize)
        requires { n ≤ length self.old }
        ensures { self.new ≡ drop n self.old }
    {
        self.written += n;
        if self.written == self.bytes.len() {
            self.wipe();
        }
    }

    /// Gives up what is left.
    pub fn wipe(&mut self)
        ensures { self.new ≡ [] }
    {
        self.bytes.clear();
        self.written = 0;
    }

    /// Adds the bytes of a frame.
    pub(crate) fn append(&mut self, frame: &Frame) -> Result<(), Memory>
        ensures ok { OnOk result (self.new ≡ self.old ++ frame_bytes frame.now) }
        ensures err { OnErr result (self.new ≡ self.old) }
    {
        let payload = frame.payload.as_slice();
        self.bytes.reserve(48 + payload.len())?;
        self.bytes.extend_from_slice(&encode(&frame.header))?;
        self.bytes.extend_from_slice(payload)?;
        Ok(())
    }
}
