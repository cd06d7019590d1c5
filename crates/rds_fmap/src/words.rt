//! Maps kept as 2,048 words of an atomic table. Each word has a version in its upper 32 bits and 32 ports in its lower ones.
mod pairing;
mod plays;
mod reader;
mod rule;
mod view;
mod writer;

pub use pairing::{close, pair};
pub use reader::Reader;
pub use view::{Look, View};
pub use writer::Writer;

/// How many words there are. Word j has the ports from 32 j on, port 32 j + b as bit b.
pub(crate) const WORDS: usize = 2048;

/// How many ports a word has.
pub(crate) const PORTS: u16 = 32;
