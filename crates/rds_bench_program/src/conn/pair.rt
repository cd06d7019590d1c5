ghost use Rattle.std.specs.Prelude.{◌≤◌, length};
ghost use Rattle.rds_wire.specs.declared.kind.TheConstants.{MAX_LENGTH};

use crate::conn::end::BenchEnd;
use rds_conn::ConnError;
use rds_wire::Payloads;
use std::alloc::Global;

/// The two ends of a connection, and the bytes of each datagram.
pub struct BenchPair {
    payloads: Payloads,
    bytes: Vec<u8>,
    near: BenchEnd,
    far: BenchEnd,
    ghost short: { length bytes.items ≤ MAX_LENGTH },
}

// By hand, so that one call drops it wherever it is let go, and no function that owns one drops each field.
impl Drop for BenchPair {
    fn drop(self) {
        let Self {
            payloads: _payloads,
            bytes: _bytes,
            near: _near,
            far: _far,
        } = self;
    }
}

impl BenchPair {
    /// Two hosts, with no stream, whose datagrams have so many bytes, at most 1,048,576.
    pub fn new(alloc: Global, length: usize) -> Result<BenchPair, ConnError> {
        let Ok(mut bytes) = vec![in alloc; 7u8; length] else {
            return Err(ConnError::Memory);
        };
        bytes.truncate(1_048_576);
        let near = BenchEnd::new(alloc, 1, 2)?;
        let far = BenchEnd::new(alloc, 2, 1)?;
        Ok(BenchPair {
            payloads: Payloads::new(alloc),
            bytes,
            near,
            far,
        })
    }

    /// Opens the first stream.
    pub fn open(&mut self) -> Result<(), ConnError> {
        self.near.open()?;
        self.far.open()
    }

    /// How many datagrams arrived.
    pub fn delivered(&self) -> u64 {
        self.far.delivered
    }

    /// How many bytes of datagrams were acknowledged.
    pub fn freed(&self) -> u64 {
        self.near.freed
    }

    /// Sends so many datagrams from the near end to the far one, in batches.
    pub fn send(&mut self, count: u64, batch: u64) -> Result<(), ConnError> {
        let batch = batch.max(1);
        for _ in 0..count / batch {
            self.send_batch(batch)?;
        }
        self.send_batch(count % batch)
    }

    fn send_batch(&mut self, count: u64) -> Result<(), ConnError> {
        for _ in 0..count {
            let payload = self.payloads.copy_of(&self.bytes)?;
            self.near.send(payload)?;
        }
        self.settle()
    }

    // Carries both ways until nothing moves.
    fn settle(&mut self) -> Result<(), ConnError> {
        for _ in 0..u64::MAX {
            let going = carry(&mut self.near, &mut self.far)?;
            let coming = carry(&mut self.far, &mut self.near)?;
            self.near.take_freed();
            if !going && !coming {
                break;
            }
        }
        Ok(())
    }
}

// Carries what one end owes to the other. Answers whether there was any.
fn carry(from: &mut BenchEnd, to: &mut BenchEnd) -> Result<bool, ConnError> {
    let moving = from.pull_all()?;
    to.take_from(from)?;
    Ok(moving)
}
