//! What the limits of a script count.

ghost use Rattle.std.specs.Prelude.{◌≡◌, ◌+◌, ◌≤◌, length};
ghost use Rattle.std.specs.Str.Lines.{lines};
ghost use Rattle.std.specs.List.{count_by};
ghost use Rattle.rds_script.specs.declared.script.TheConstants.{MAX_CUTS, MAX_TEXT, MAX_TOTAL};
ghost use Rattle.rds_script.specs.Script.{payload_len, payload_total, cut_count, cut_total};
ghost use Rattle.rds_script.specs.Text.{is_end};

use rds_script::{Command, Placed};

/// How many lines a text has.
pub(crate) fn line_count(text: &[u8]) -> u32
    requires { length text.now ≤ MAX_TEXT }
    ensures count { result ≡ length (lines text.now) }
    ensures few { result ≤ MAX_TEXT + 1 }
{
    let ends = end_count(text);
    let Some(last) = text.last() else {
        return ends;
    };
    if *last == b'\n' { ends } else { ends + 1 }
}

/// How many bytes of a text are LF.
fn end_count(text: &[u8]) -> u32
    requires { length text.now ≤ MAX_TEXT }
    ensures count { result ≡ count_by is_end text.now }
    ensures few { result ≤ MAX_TEXT }
{
    let mut count = 0;
    for byte in text {
        if *byte == b'\n' {
            count += 1;
        }
    }
    count
}

/// How many bytes all payloads together have.
pub(crate) fn payload_sum(commands: &[Placed]) -> u32
    requires { payload_total commands.now ≤ MAX_TOTAL }
    ensures { result ≡ payload_total commands.now }
{
    let mut sum = 0;
    for placed in commands {
        sum += payload_bytes(&placed.command);
    }
    sum
}

/// How many cuts there are.
pub(crate) fn cut_sum(commands: &[Placed]) -> u32
    requires { cut_total commands.now ≤ MAX_CUTS }
    ensures { result ≡ cut_total commands.now }
{
    let mut sum = 0;
    for placed in commands {
        sum += cuts(&placed.command);
    }
    sum
}

fn payload_bytes(command: &Command) -> u32
    ensures { result ≡ payload_len command.now }
{
    match command {
        Command::Send { payload, .. } => payload.len(),
        _ => 0,
    }
}

fn cuts(command: &Command) -> u32
    ensures { result ≡ cut_count command.now }
{
    match command {
        Command::Cut { .. } => 1,
        _ => 0,
    }
}
