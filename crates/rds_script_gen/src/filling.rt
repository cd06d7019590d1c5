//! The payloads of the sends.

ghost use Rattle.std.specs.Prelude.{◌≡◌, ◌%◌, IfOk};
ghost use Rattle.rds_script.specs.Reading.{counting};

use crate::route::HOSTS;
use rds_wire::{Memory, Payload, Payloads};
use std::alloc::Global;
use std::array;

/// The lengths of the payloads go from 0 to one less, and then begin again.
const LENGTHS: u8 = 64;

/// A room for the payloads of each host, and the longest of them. No two hosts share a block of memory, as in a script that is read.
#[derive(Drop)]
pub(crate) struct Filling {
    rooms: [Payloads; HOSTS as usize],
    longest: Vec<u8>,
    ghost counts: { longest.items ≡ counting 63 },
}

impl Filling {
    pub(crate) fn new(alloc: Global) -> Result<Filling, Memory> {
        Ok(Filling {
            rooms: array::from_fn(|_: usize| Payloads::new(alloc)),
            longest: longest(alloc)?,
        })
    }

    /// The payload of the send of this number, which the host makes: bytes that count up from 0.
    pub(crate) fn payload(&mut self, host: u8, i: u32) -> Result<Payload, Memory>
        ensures { IfOk result (λ p. p ≡ counting (i % 64)) }
    {
        let len = (i % u32::from(LENGTHS)) as usize;
        self.rooms[usize::from(host % HOSTS)].copy_of(&self.longest[..len])
    }
}

fn longest(alloc: Global) -> Result<Vec<u8>, Memory>
    ensures { IfOk result (λ v. v.items ≡ counting 63) }
{
    let mut bytes = Vec::new(alloc);
    for byte in 0..LENGTHS - 1 {
        bytes.push(byte)?;
    }
    Ok(bytes)
}
