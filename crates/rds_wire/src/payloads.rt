ghost use Rattle.std.specs.Prelude.{◌≡◌, ◌≤◌, [], length, IfOk};

use crate::{Memory, Payload};
use bytes::BytesMut;
use std::alloc::Global;

// Payloads up to this length are shares of blocks of the other.
const SHORT: usize = 2048;

const BLOCK: usize = 32_768;

/// Room that the payloads of many datagrams share: a short payload is a share of a block of 32,768 bytes, and takes memory
/// only where a new block does; one of more than 2,048 bytes has a buffer of its own.
#[derive(Drop)]
pub struct Payloads {
    block: BytesMut,
    ghost empty: { block.items ≡ [] },
}

impl Payloads {
    /// No room yet. It takes no memory.
    pub fn new(alloc: Global) -> Payloads {
        Payloads {
            block: BytesMut::new(alloc),
        }
    }

    /// A payload with a copy of these bytes, at most 2,097,152 of them.
    ///
    /// # Errors
    ///
    /// Where there is no memory for them, or for the next block.
    pub fn copy_of(&mut self, b: &[u8]) -> Result<Payload, Memory>
        requires { length b.now ≤ 2097152 }
        ensures { IfOk result (λ p. p ≡ b.now) }
    {
        if b.len() > SHORT {
            return Payload::copy_of(*self.block.allocator(), b);
        }
        short(&mut self.block, b)
    }

    /// A payload of these bytes, at most 2,097,152 of them: many without a copy, few with one.
    ///
    /// # Errors
    ///
    /// Where there is no memory for the next block, or for the count of owners. The bytes are lost.
    pub fn of_vec(&mut self, bytes: Vec<u8>) -> Result<Payload, Memory>
        requires { length bytes.items ≤ 2097152 }
        ensures { IfOk result (λ p. p ≡ bytes.items) }
    {
        if bytes.len() <= SHORT {
            return short(&mut self.block, &bytes);
        }
        match Payload::from_vec(bytes) {
            Ok(payload) => Ok(payload),
            Err(_) => Err(Memory),
        }
    }

    /// Where the memory of the blocks comes from.
    pub fn allocator(&self) -> Global {
        *self.block.allocator()
    }
}

// A payload at the end of a block that holds no other bytes now. Only a new block takes memory.
fn short(block: &mut BytesMut, b: &[u8]) -> Result<Payload, Memory>
    requires limit { length b.now ≤ 2097152 }
    requires empty { block.old.items ≡ [] }
    ensures payload { IfOk result (λ p. p ≡ b.now) }
    ensures empty { block.new.items ≡ [] }
{
    if block.capacity() < b.len() {
        block.reserve(BLOCK)?;
    }
    block.extend_from_slice(b)?;
    match block.freeze_to(block.len()) {
        Ok(bytes) => Ok(Payload::from_bytes(bytes)),
        Err(_) => {
            block.clear();
            Err(Memory)
        }
    }
}
