ghost use Rattle.std.specs.Prelude.{◌≡◌, ℕ, IfOk, Ok};
ghost use Rattle.std.specs.Str.Lines.{lines};
ghost use Rattle.rds_script.specs.declared.cause.Cause.{Cause as Why};
ghost use Rattle.rds_script.specs.Script.{IsScript};
ghost use Rattle.rds_script.specs.Grammar.{Meaning, meaning, nothing, Spells};
ghost use Rattle.rds_script.specs.Refusal.{Refused};
ghost use Rattle.rds_script.specs.Answer.{IsUnlessMemory, IfRefused, IsRefusedUnlessMemory};
ghost use Rattle.rds_script.specs.Reading.{Reads, lines_at, text_at};

use crate::draft::Draft;
use crate::line::first_line;
use crate::script::{MAX_LINES, MAX_TEXT};
use crate::{Cause, Script, ScriptError};
use std::alloc::Global;

/// The script that the text spells, or the first line at which it is refused and why.
///
/// It takes time linear in the text, copies the bytes of a payload once, and keeps nothing of the text.
///
/// # Errors
///
/// `BadLine` with that line and cause, where the text spells no script, and `Memory` where there is none.
pub fn read(alloc: Global, text: &[u8]) -> Result<Script, ScriptError>
    // What is read is spelled by the text.
    ensures found { IfOk result (λ s. Spells text.now (meaning s)) }
    // A text that spells a script gives that script.
    ensures only { (s : Meaning) → Spells text.now s → IsUnlessMemory result s }
    // The text is refused there for that cause.
    ensures refused { IfRefused result (Refused text.now) }
    // A text that is refused gives that line and cause.
    ensures refuses { (line : ℕ) (cause : Why) → Refused text.now line cause
        → IsRefusedUnlessMemory result line cause }
    // Each host, port, buffer and payload is in range.
    ensures known { IfOk result IsScript }
{
    read_text(alloc, text)
}

#[tactic(auto, unfolding(crate::specs::Reading::text_at))]
fn read_text(alloc: Global, text: &[u8]) -> Result<Script, ScriptError>
    ensures { Reads meaning result (text_at text.now) }
{
    if text.len() > MAX_TEXT {
        return Err(refused(0, Cause::TooLarge));
    }
    let script = read_lines(alloc, text)?;
    if script.hosts == 0 {
        return Err(refused(0, Cause::Empty));
    }
    Ok(script)
}

/// The script of all lines of the text; it has 0 hosts where there is no command.
fn read_lines(alloc: Global, text: &[u8]) -> Result<Script, ScriptError>
    ensures { Reads meaning result (lines_at nothing 0 (lines text.now)) }
{
    let Ok(mut draft) = Draft::with_room(alloc, line_count(text)) else {
        return Err(ScriptError::Memory);
    };
    let mut rest = text;
    let mut number = 0;
    while !rest.is_empty() {
        let (line, after) = first_line(rest);
        if number == MAX_LINES {
            return Err(refused(number + 1, Cause::Lines));
        }
        number += 1;
        if let Err(fault) = draft.read_line(number, line) {
            return Err(fault.at(number));
        }
        rest = after;
    }
    Ok(draft.script)
}

/// How many lines of a text end, but no more than a text may have: so many commands are made room for.
fn line_count(text: &[u8]) -> usize {
    let ends = text.iter().filter(|byte| **byte == b'\n').count();
    ends.min(MAX_LINES as usize)
}

fn refused(line: u32, cause: Cause) -> ScriptError
    ensures { result ≡ ScriptError.BadLine line cause }
{
    ScriptError::BadLine { line, cause }
}
