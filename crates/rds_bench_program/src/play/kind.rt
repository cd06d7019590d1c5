use std::alloc::{AllocError, Global};

/// A kind of scripts.
#[derive(Clone, Copy, Debug, PartialEq, Eq)]
pub enum ScriptKind {
    /// Sends, a cancellation, a drain and a receive by turns, and a cut every 200 lines.
    Mixed,
    /// A send and its cancellation by turns.
    Cancelled,
}

const HEAD: &str =
    "hosts 2\nbind A 4000 16777216 65536\nbind A 4001 16777216 65536\nbind B 4001 65536 16777216\n";

const MIXED: [&str; 5] = [
    "send A 4000 B 4001 f:60\n",
    "send A 4001 B 4001 f:60\n",
    "cancel A 4001 B 4001\n",
    "drain\n",
    "recv B 4001\n",
];

const CANCELLED: [&str; 2] = ["send A 4000 B 4001 f:60\n", "cancel A 4000 B 4001\n"];

/// A cut stands in place of every so manieth line.
const CUT_EVERY: u32 = 200;

impl ScriptKind {
    /// The kind with this name.
    pub fn named(word: &str) -> Option<ScriptKind> {
        match word {
            "mixed" => Some(ScriptKind::Mixed),
            "cancelled" => Some(ScriptKind::Cancelled),
            _ => None,
        }
    }

    /// A script of this kind with so many lines, its head among them.
    pub fn script(self, alloc: Global, lines: u32) -> Result<String, AllocError> {
        let mut text = String::from_str(alloc, HEAD)?;
        for number in 4..lines {
            text.push_str(self.line(number))?;
        }
        Ok(text)
    }

    fn line(self, number: u32) -> &'static str {
        match self {
            ScriptKind::Mixed if number % CUT_EVERY == 0 => "cut A B\n",
            ScriptKind::Mixed => MIXED[(number % 5) as usize],
            ScriptKind::Cancelled => CANCELLED[(number % 2) as usize],
        }
    }
}
