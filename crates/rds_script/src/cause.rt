ghost use Rattle.std.specs.Prelude.{Some};
ghost use Rattle.rds_script.specs.Cause.{cause_text};

use std::fmt;

/// Why a text is refused.
#[derive(Clone, Copy, Debug, PartialEq, Eq)]
pub enum Cause {
    /// The text has more than 16,777,216 bytes.
    TooLarge,
    /// The text has more than 200,000 lines.
    Lines,
    /// A byte is neither a tab nor 0x20 to 0x7E.
    Text,
    /// The first word is no command, or `hosts` isn't the first command and the only `hosts`.
    Command,
    /// There are too few or too many words.
    Words,
    /// A word is no host.
    Host,
    /// The second host is the first one.
    SameHost,
    /// A word is no number in range.
    Number,
    /// A word is no payload.
    Payload,
    /// All payloads together have more than 16,777,216 bytes.
    Total,
    /// There are more than 1,024 cuts.
    Cuts,
    /// The text has no command.
    Empty,
}

impl fmt::Display for Cause {
    ghost output = { λ c. Some (cause_text c) };

    fn fmt<W: fmt::Write>(&self, f: &mut fmt::Formatter<W>) -> fmt::Result {
        f.write_str(match self {
            Cause::TooLarge => "too large",
            Cause::Lines => "lines",
            Cause::Text => "text",
            Cause::Command => "command",
            Cause::Words => "words",
            Cause::Host => "host",
            Cause::SameHost => "same host",
            Cause::Number => "number",
            Cause::Payload => "payload",
            Cause::Total => "total",
            Cause::Cuts => "cuts",
            Cause::Empty => "empty",
        })
    }
}

/// Why a text gave no script.
#[derive(Clone, Copy, Debug, PartialEq, Eq)]
pub enum ScriptError {
    /// The text is refused at this line, counted from 1, or as a whole at line 0.
    BadLine { line: u32, cause: Cause },
    /// There is no memory.
    Memory,
}
