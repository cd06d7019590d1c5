ghost use Rattle.std.specs.Prelude.{◌≡◌, ◌+◌, ◌<◌, ◌≤◌, ℕ, [], IfOk, IfSome};
ghost use Rattle.std.specs.List.{AllZip};
ghost use Rattle.rds_script.specs.declared.cause.Cause.{Cause as Why};
ghost use Rattle.rds_script.specs.Script.{IsScript};
ghost use Rattle.rds_script.specs.Grammar.{Meaning, meaning, Spells};
ghost use Rattle.rds_script.specs.Refusal.{Refused};
ghost use Rattle.rds_script.specs.Answer.{IsUnlessMemory, IfRefused, IsRefusedUnlessMemory};
ghost use Rattle.rds_script_pieces.specs.Pieces.{EndsLine, contents};
ghost use Rattle.rds_script_pieces.specs.Parts.{IsHead, IsPart};

use crate::counting::line_count;
use crate::cutting::{PIECE, cut, head_and_rest};
use crate::joining::joined;
use crate::part::Part;
use crate::piece::read_piece;
use rayon::prelude::*;
use rds_script::laws::{one_script, spelled_or_refused};
use rds_script::{MAX_TEXT, Script, ScriptError, read};
use std::alloc::{AllocError, Global};
use std::thread;
use std::thread::Threads;

/// How many groups of pieces are read beside one another at most.
const GROUPS: usize = 4;

/// How many pieces each thread of a group reads at least, where more than one thread reads the group.
const LEAST: usize = 8;

/// The script that the text spells, or the first line at which it is refused and why, as `rds_script::read` gives it. A
/// long text is cut into pieces at ends of lines, and groups of them are read by threads beside one another.
///
/// # Errors
///
/// `BadLine` with that line and cause, where the text spells no script, and `Memory` where there is none.
pub fn read_by_threads<R: Threads + Sync>(
    rt: &R,
    alloc: Global,
    text: &[u8],
) -> Result<Script, ScriptError>
    // What is read is spelled by the text.
    ensures found { IfOk result (λ s. Spells text.now (meaning s)) }
    // A text that spells a script gives that script.
    ensures only { (s : Meaning) → Spells text.now s → IsUnlessMemory result s }
    // The text is refused there for that cause.
    ensures refused { IfRefused result (Refused text.now) }
    // A text that is refused gives that line and cause.
    ensures refuses { (line : ℕ) (cause : Why) → Refused text.now line cause
        → IsRefusedUnlessMemory result line cause }
    // Each host, port, buffer and payload is in range.
    ensures known { IfOk result IsScript }
{
    one_script();
    spelled_or_refused();
    match read_in_pieces(rt, alloc, text) {
        Some(script) => Ok(script),
        None => read(alloc, text),
    }
}

/// The script that a long text spells; or none, where the text is short, it has no usual head, a piece is refused, a limit
/// is passed or memory runs out.
fn read_in_pieces<R: Threads + Sync>(rt: &R, alloc: Global, text: &[u8]) -> Option<Script>
    ensures found { IfSome result (λ s. Spells text.now (meaning s)) }
    ensures known { IfSome result IsScript }
{
    if text.len() < 2 * PIECE || text.len() > MAX_TEXT {
        return None;
    }
    let (head, rest) = head_and_rest(text)?;
    if head.len() > PIECE {
        return None;
    }
    let (first, head_lines) = read_head(alloc, head)?;
    let pieces = cut(alloc, rest).ok()?;
    let parts = read_each(rt, alloc, head, pieces.as_slice())?;
    joined(first, head_lines, parts)
}

/// What is read of the head alone, and how many lines it has; or none, where it has a command beside `hosts`.
fn read_head(alloc: Global, head: &[u8]) -> Option<(Part, u32)>
    requires { EndsLine head.now }
    ensures alone { IfSome result (λ r. IsPart head.now [] r.0) }
    ensures head { IfSome result (λ r. IsHead head.now r.1) }
    ensures few { IfSome result (λ r. r.1 ≤ MAX_TEXT + 1) }
{
    let first = read_piece(alloc, head, &[]).ok()?;
    if !first.script.commands.is_empty() {
        return None;
    }
    Some((first, line_count(head)))
}

/// What is read of each piece, in at most `GROUPS` groups beside one another.
fn read_each<R: Threads + Sync>(
    rt: &R,
    alloc: Global,
    head: &[u8],
    pieces: &[&[u8]],
) -> Option<Vec<Part>>
    ensures { IfSome result (λ parts. AllZip (IsPart head.now) (contents pieces.now) parts.items) }
{
    let size = pieces.len().div_ceil(GROUPS).max(1);
    read_groups(rt, alloc, head, pieces, size)
}

/// What is read of each piece, where each group of so many pieces, one behind another, has a thread of its own.
///
/// The calling thread reads none of them: it makes the threads and then only waits. A kernel may place a new thread on its
/// maker's processor as long as only the maker runs there, so a group would wait while the maker read another one.
#[cycle(groups)]
fn read_groups<R: Threads + Sync>(
    rt: &R,
    alloc: Global,
    head: &[u8],
    pieces: &[&[u8]],
    size: usize,
) -> Option<Vec<Part>>
    requires { 0 < size }
    ensures { IfSome result (λ parts. AllZip (IsPart head.now) (contents pieces.now) parts.items) }
{
    if pieces.is_empty() {
        return Some(Vec::new(alloc));
    }
    let (group, others) = pieces.split_at(size.min(pieces.len()));
    let first = || -> Option<Vec<Part>>
        ensures { IfSome result (λ parts. AllZip (IsPart head.entry.now) (contents group.entry.now) parts.items) }
    { read_group(rt, alloc, head, group) };
    let rest = || -> Option<Vec<Part>>
        requires { 0 < size }
        ensures { IfSome result (λ parts. AllZip (IsPart head.entry.now) (contents others.entry.now) parts.items) }
    { read_groups(rt, alloc, head, others, size) };
    let (front, back) = thread::join(rt, first, rest);
    let mut parts = front?;
    parts.append(&mut back?).ok()?;
    Some(parts)
}

/// What is read of each piece of a group, by one thread, or by more where the group has many pieces.
fn read_group<R: Threads + Sync>(
    rt: &R,
    alloc: Global,
    head: &[u8],
    pieces: &[&[u8]],
) -> Option<Vec<Part>>
    ensures { IfSome result (λ parts. AllZip (IsPart head.now) (contents pieces.now) parts.items) }
{
    let read: Result<Result<Vec<Part>, ScriptError>, AllocError> = pieces
        .par_iter()
        .with_min_len(LEAST)
        .map(
            |piece: &&[u8]| -> Result<Part, ScriptError>
                ensures { IfOk result (IsPart head.entry.now piece.now.now) }
            { read_piece(alloc, head, piece) },
        )
        .collect(rt, alloc);
    let Ok(parts) = read else {
        return None;
    };
    parts.ok()
}
