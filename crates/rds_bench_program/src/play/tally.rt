ghost use Rattle.std.specs.Prelude.{None};

use rds_link::{Failed, Sink};

/// A sink that counts the bytes that it takes, and keeps none.
#[derive(Default, Drop)]
pub struct Tally {
    bytes: u64,
}

impl Tally {
    pub fn bytes(&self) -> u64 {
        self.bytes
    }
}

impl Sink for Tally {
    ghost held = { λ _. None };

    ghost faults = { λ _. 0 };

    fn write(&mut self, piece: &[u8]) -> Result<usize, Failed> {
        self.bytes = self.bytes.saturating_add(piece.len() as u64);
        Ok(piece.len())
    }
}
