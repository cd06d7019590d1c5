ghost use Rattle.std.specs.Prelude.{◌≡◌, ◌≢◌, List, ℕ, ◌++◌, All, IfOk, IsErrOf, OnOk};
ghost use Rattle.std.specs.List.{flat_map};
ghost use Rattle.rds_wire.specs.declared.frame.Frame.{Frame};
ghost use Rattle.rds_wire.specs.declared.kind.Malformed.{Malformed};
ghost use Rattle.rds_frame.specs.Splitting.{IsClear, IsMalformed, IsSound, Splits};
ghost use Rattle.rds_frame.specs.Holding.{IsFed};

use crate::{FrameError, Splitter};
use rds_wire::Frame;
use std::alloc::Global;

/// The frames of a stream that comes in these pieces, where the reader has pulled no number above `highest` and read no
/// generation above `known`.
///
/// # Errors
///
/// `Malformed` at the first header that is malformed, and `Memory` where there is none. It never answers `Closed`.
pub fn frames_of(
    alloc: Global,
    pieces: &[Vec<u8>],
    highest: u64,
    known: u32,
) -> Result<Vec<Frame>, FrameError>
    // Up to less than a whole frame, which begins with no malformed header, the stream is these frames.
    ensures split { IfOk result (λ frames. (rest : List ℕ) ×
        Splits (flat_map (λ piece. piece.items) pieces.now) frames.items rest × IsClear highest known rest) }
    // It is no others, so it doesn't matter how the stream was cut.
    ensures only { IfOk result (λ frames. (others : List Frame) (rest : List ℕ) →
        Splits (flat_map (λ piece. piece.items) pieces.now) others rest → frames.items ≡ others) }
    ensures sound { IfOk result (λ frames. All (IsSound highest known) frames.items) }
    ensures malformed { (fault : Malformed) → result ≡ Err (FrameError.Malformed fault)
        → IsMalformed highest known (flat_map (λ piece. piece.items) pieces.now) fault }
    ensures never_closed { IsErrOf result FrameError.Closed → ⊥ }
{
    let mut frames = Vec::new(alloc);
    let mut splitter = Splitter::new(alloc)?;
    for piece in pieces {
        feed(&mut splitter, &mut frames, piece, highest, known)?;
    }
    Ok(frames)
}

fn feed(
    splitter: &mut Splitter,
    frames: &mut Vec<Frame>,
    piece: &[u8],
    highest: u64,
    known: u32,
) -> Result<(), FrameError>
    ghost bytes: { List ℕ }
    requires none_waits { splitter.old.waiting ≡ None }
    requires fed { IsFed highest known bytes frames.old.items splitter.old }
    ensures none_waits { OnOk result (splitter.new.waiting ≡ None) }
    ensures fed { OnOk result (IsFed highest known (bytes ++ piece.now) frames.new.items splitter.new) }
    ensures malformed { (fault : Malformed) → result ≡ Err (FrameError.Malformed fault)
        → IsMalformed highest known (bytes ++ piece.now) fault }
    ensures not_closed { IsErrOf result FrameError.Closed → ⊥ }
{
    let mut left = piece;
    loop {
        let took = splitter.take(left, highest, known)?;
        let Some(frame) = splitter.done() else {
            return Ok(());
        };
        frames.push(frame)?;
        left = &left[took.used..];
    }
}
