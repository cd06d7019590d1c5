ghost use Rattle.std.specs.Prelude.{◌≡◌, ◌++◌, IfOk};
ghost use Rattle.rds_script_pieces.specs.Parts.{IsPart};

use crate::counting::{cut_sum, line_count, payload_sum};
use crate::part::Part;
use rds_script::{ScriptError, read};
use std::alloc::{AllocError, Global};

/// What is read of a piece, with the head in front of it.
pub(crate) fn read_piece(alloc: Global, head: &[u8], piece: &[u8]) -> Result<Part, ScriptError>
    ensures { IfOk result (IsPart head.now piece.now) }
{
    let Ok(text) = text_of(alloc, head, piece) else {
        return Err(ScriptError::Memory);
    };
    let script = read(alloc, text.as_slice())?;
    let lines = line_count(piece);
    let bytes = payload_sum(script.commands.as_slice());
    let cuts = cut_sum(script.commands.as_slice());
    Ok(Part {
        script,
        lines,
        bytes,
        cuts,
    })
}

fn text_of(alloc: Global, head: &[u8], piece: &[u8]) -> Result<Vec<u8>, AllocError>
    ensures { IfOk result (λ text. text.items ≡ head.now ++ piece.now) }
{
    let mut text = Vec::with_capacity(alloc, head.len() + piece.len())?;
    text.extend_from_slice(head)?;
    text.extend_from_slice(piece)?;
    Ok(text)
}
