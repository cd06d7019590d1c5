//! What was read of pieces is put together.

ghost use Rattle.std.specs.Prelude.{◌≡◌, ◌+◌, ◌≤◌, ◌++◌, ℕ, List, All, length, map, IfSome};
ghost use Rattle.std.specs.List.{AllByRecursion, concat};
ghost use Rattle.rds_script.specs.declared.script.TheConstants.{MAX_TEXT};
ghost use Rattle.rds_script.specs.Script.{IsScript};
ghost use Rattle.rds_script.specs.Grammar.{meaning, Spells};
ghost use Rattle.rds_script_pieces.specs.Pieces.{EndsLine};
ghost use Rattle.rds_script_pieces.specs.Parts.{AreInLines, AreRead, IsAlike, IsHead, IsPart, continued, lowered};

use crate::part::Part;
use rds_script::laws::one_script;
use rds_script::{MAX_CUTS, MAX_LINES, MAX_TOTAL, Placed, Script};

/// The script of a whole text, from what was read of its head and of each of its pieces, where the head has so many lines;
/// or none, where a limit is passed or memory runs out.
pub(crate) fn joined(first: Part, head_lines: u32, parts: Vec<Part>) -> Option<Script>
    requires head { head_lines ≤ MAX_TEXT + 1 }
    requires lines { AllByRecursion (λ p. AreInLines p.script.commands.items) parts.items }
    ensures { IfSome result (λ script. (head : List ℕ) (pieces : List (List ℕ)) → AreRead head head_lines pieces first parts.items
        → Spells (head ++ concat pieces) (meaning script) × IsScript script) }
{
    let mut whole = with_room(first, command_count(parts.as_slice()))?;
    for part in parts {
        whole = followed(whole, head_lines, part)?;
    }
    Some(whole.script)
}

/// How many commands all parts have together.
fn command_count(parts: &[Part]) -> usize {
    let mut count: usize = 0;
    for part in parts {
        count = count.saturating_add(part.script.commands.len());
    }
    count
}

/// The part as it is, with room for so many commands more.
fn with_room(part: Part, count: usize) -> Option<Part>
    ensures { IfSome result (IsAlike part) }
{
    let script = script_with_room(part.script, count)?;
    Some(Part {
        script,
        lines: part.lines,
        bytes: part.bytes,
        cuts: part.cuts,
    })
}

fn script_with_room(script: Script, count: usize) -> Option<Script>
    ensures { IfSome result (λ s. meaning s ≡ meaning script) }
{
    let mut commands = script.commands;
    commands.reserve(count).ok()?;
    Some(Script {
        hosts: script.hosts,
        hosts_line: script.hosts_line,
        commands,
    })
}

/// What was read of two pieces, one behind the other, of a text whose head has so many lines; or none, where a limit is
/// passed or memory runs out.
fn followed(whole: Part, head_lines: u32, part: Part) -> Option<Part>
    requires head { head_lines ≤ MAX_TEXT + 1 }
    requires lines { AreInLines part.script.commands.items }
    ensures { IfSome result (λ both. (head done piece : List ℕ) → IsHead head head_lines → EndsLine (head ++ done)
        → length (head ++ (done ++ piece)) ≤ MAX_TEXT → IsPart head done whole → IsPart head piece part
        → IsPart head (done ++ piece) both) }
{
    one_script();
    let lines = whole.lines + part.lines;
    let bytes = whole.bytes + part.bytes;
    let cuts = whole.cuts + part.cuts;
    if head_lines + lines > MAX_LINES || bytes > MAX_TOTAL || cuts > MAX_CUTS {
        return None;
    }
    let script = appended(whole.script, whole.lines, part.script)?;
    Some(Part {
        script,
        lines,
        bytes,
        cuts,
    })
}

/// The first script with the commands of the other one behind its own, so many lines further down.
fn appended(first: Script, by: u32, other: Script) -> Option<Script>
    requires by { by ≤ MAX_TEXT + 1 }
    requires lines { AreInLines other.commands.items }
    ensures { IfSome result (λ both. meaning both ≡ continued (meaning first) by other.commands.items) }
{
    let mut commands = other.commands;
    lower(commands.as_mut_slice(), by);
    let mut all = first.commands;
    all.append(&mut commands).ok()?;
    Some(Script {
        hosts: first.hosts,
        hosts_line: first.hosts_line,
        commands: all,
    })
}

/// Moves each command so many lines further down.
fn lower(commands: &mut [Placed], by: u32)
    requires by { by ≤ MAX_TEXT + 1 }
    requires lines { AreInLines commands.old }
    ensures { commands.new ≡ map (lowered by) commands.old }
{
    for placed in commands.iter_mut() {
        placed.line += by;
    }
}
