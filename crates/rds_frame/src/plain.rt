ghost use Rattle.std.specs.Prelude.{◌≡◌, List, ℕ, ◌+◌, ◌++◌, ◌≤◌, All, length, drop, IfOk, MatchOption, IsErrOf};
ghost use Rattle.rds_wire.specs.declared.frame.Frame.{Frame};
ghost use Rattle.rds_wire.specs.declared.kind.Malformed.{Malformed};
ghost use Rattle.rds_wire.specs.Bytes.{frame_bytes};
ghost use Rattle.rds_frame.specs.Splitting.{BeginsMalformed, IsClear, IsMalformed, IsPartial, IsSound, Splits};

use crate::FrameError;
use rds_wire::{Frame, Payload, check, decode};
use std::alloc::Global;

/// The frames of a whole list of bytes, read off one after another as the definition says: what `frames_of` gives,
/// with no state between pieces.
///
/// # Errors
///
/// `Malformed` at the first header that is malformed, and `Memory` where there is none. It never answers `Closed`.
pub fn frames_in(
    alloc: Global,
    bytes: &[u8],
    highest: u64,
    known: u32,
) -> Result<Vec<Frame>, FrameError>
    // And what is left then begins with no malformed header.
    ensures split { IfOk result (λ frames. (rest : List ℕ) × Splits bytes.now frames.items rest × IsClear highest known rest) }
    ensures only { IfOk result (λ frames. (others : List Frame) (rest : List ℕ) →
        Splits bytes.now others rest → frames.items ≡ others) }
    ensures sound { IfOk result (λ frames. All (IsSound highest known) frames.items) }
    ensures malformed { (fault : Malformed) → result ≡ Err (FrameError.Malformed fault)
        → IsMalformed highest known bytes.now fault }
    ensures never_closed { IsErrOf result FrameError.Closed → ⊥ }
{
    let mut frames = Vec::new(alloc);
    let mut rest = bytes;
    while let Some(frame) = first_frame(alloc, rest, highest, known)? {
        rest = &rest[48 + frame.payload.len() as usize..];
        frames.push(frame)?;
    }
    Ok(frames)
}

fn first_frame(
    alloc: Global,
    bytes: &[u8],
    highest: u64,
    known: u32,
) -> Result<Option<Frame>, FrameError>
    ensures found { IfOk result (λ found. MatchOption found (IsPartial bytes.now)
        (λ f. IsSound highest known f × (48 + length f.payload ≤ length bytes.now)
        × (bytes.now ≡ frame_bytes f ++ drop (48 + length f.payload) bytes.now))) }
    ensures clear { IfOk result (λ found. MatchOption found (IsClear highest known bytes.now) (λ _. Unit {0})) }
    ensures malformed { (fault : Malformed) → result ≡ Err (FrameError.Malformed fault)
        → BeginsMalformed highest known bytes.now fault }
    ensures never_closed { IsErrOf result FrameError.Closed → ⊥ }
{
    let Some((head, body)) = bytes.split_first_chunk::<48>() else {
        return Ok(None);
    };
    let header = decode(head);
    if let Err(fault) = check(&header, highest, known) {
        return Err(FrameError::Malformed(fault));
    }
    let len = header.len as usize;
    if body.len() < len {
        return Ok(None);
    }
    let payload = Payload::copy_of(alloc, &body[..len])?;
    Ok(Some(Frame { header, payload }))
}
