//! A map of 1,024 plain atomic words, without versions and without a rule.
ghost use Rattle.std.specs.Prelude.{◌≡◌, ◌<◌, length, IfOk};

use rds_cong::{PortMap, WORDS};
use rds_wire::Memory;
use std::alloc::Global;
use std::sync::atomic::{AtomicU64, Ordering};

#[derive(Drop)]
pub struct Plain {
    words: Vec<AtomicU64>,
    ghost sized: { length words.items ≡ 1024 },
}

impl Plain {
    pub fn new(alloc: Global) -> Result<Plain, Memory> {
        let mut words = Vec::with_capacity(alloc, WORDS)?;
        for _ in 0..WORDS {
            words.push(AtomicU64::new(0))?;
        }
        Ok(Plain { words })
    }

    pub fn publish(&self, map: &PortMap) {
        for i in 0..WORDS {
            self.words[i].store(map.word(i), Ordering::SeqCst);
        }
    }

    pub fn bit(&self, port: u16) -> bool {
        let word = self.words[usize::from(port / 64)].load(Ordering::SeqCst);
        word >> (port % 64) & 1 == 1
    }
}
