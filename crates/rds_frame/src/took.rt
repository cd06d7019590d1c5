ghost use Rattle.std.specs.Prelude.{◌≡◌};
ghost use Rattle.rds_frame.specs.declared.took.FrameError.TheVariants as errors;

use rds_wire::{Malformed, Memory};
use std::alloc::AllocFailed;

/// What a splitter took of a piece.
#[derive(Clone, Copy, Debug, PartialEq, Eq)]
pub struct Took {
    /// How many bytes of the piece, from its front.
    pub used: usize,
    /// Whether a whole frame waits now.
    pub ready: bool,
}

/// Why a splitter took nothing, or closed.
#[derive(Clone, Copy, Debug, PartialEq, Eq)]
pub enum FrameError {
    /// A header became whole and is refused.
    Malformed(Malformed),
    /// A header was refused before.
    Closed,
    /// There is no memory for the payload.
    Memory,
}

impl From<Memory> for FrameError {
    ghost from_gives = { λ _ e. e ≡ errors.Memory };

    fn from(_error: Memory) -> FrameError {
        FrameError::Memory
    }
}

impl<T: Drop> From<AllocFailed<T>> for FrameError {
    ghost from_gives = { λ _ e. e ≡ errors.Memory };

    fn from(_error: AllocFailed<T>) -> FrameError {
        FrameError::Memory
    }
}
