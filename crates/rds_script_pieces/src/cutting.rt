//! A text is cut at ends of lines.

ghost use Rattle.std.specs.Prelude.{◌≡◌, ◌<◌, ◌≤◌, ◌++◌, ℕ, List, length, take, map, IfOk, IfSome};
ghost use Rattle.std.specs.List.{concat};
ghost use Rattle.rds_script_pieces.specs.Pieces.{EndsLine, AreCut, contents};

use std::alloc::{AllocError, Global};

/// About how many bytes a piece has: few enough that the C library takes the memory for its copy out of a heap, and doesn't ask the
/// kernel for it by itself.
pub(crate) const PIECE: usize = 65_536;

/// The beginning of a text up to the end of its first line with a command, and the rest.
pub(crate) fn head_and_rest(text: &[u8]) -> Option<(&[u8], &[u8])>
    ensures whole { IfSome result (λ r. r.0.now ++ r.1.now ≡ text.now) }
    ensures ended { IfSome result (λ r. EndsLine r.0.now) }
{
    let mut from = 0;
    while let Some(end) = line_end(text, from) {
        if has_command(&text[from..end]) {
            return Some(text.split_at(end));
        }
        from = end;
    }
    None
}

/// Whether the first byte of a line that isn't blank is something other than #.
fn has_command(line: &[u8]) -> bool {
    for byte in line {
        match *byte {
            b' ' | b'\t' | b'\r' | b'\n' => {}
            other => return other != b'#',
        }
    }
    false
}

/// The place behind the first LF that doesn't stand before `from`.
fn line_end(text: &[u8], from: usize) -> Option<usize>
    requires { from ≤ length text.now }
    ensures after { IfSome result (λ end. from < end) }
    ensures within { IfSome result (λ end. end ≤ length text.now) }
    ensures ended { IfSome result (λ end. EndsLine (take end text.now)) }
{
    for (place, byte) in text[from..].iter().enumerate() {
        if *byte == b'\n' {
            return Some(from + place + 1);
        }
    }
    None
}

/// The text in pieces of about `PIECE` bytes, each of which ends behind a LF, but the last.
pub(crate) fn cut(alloc: Global, text: &[u8]) -> Result<Vec<&[u8]>, AllocError>
    ensures whole { IfOk result (λ pieces. concat (contents pieces.items) ≡ text.now) }
    ensures ended { IfOk result (λ pieces. AreCut (contents pieces.items)) }
{
    let mut pieces = Vec::with_capacity(alloc, text.len() / PIECE + 1)?;
    let mut rest = text;
    while rest.len() > PIECE {
        let Some(end) = line_end(rest, PIECE - 1) else {
            break;
        };
        let (piece, more) = rest.split_at(end);
        pieces.push(piece)?;
        rest = more;
    }
    pieces.push(rest)?;
    Ok(pieces)
}
