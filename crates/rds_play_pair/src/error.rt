ghost use Rattle.std.specs.Prelude.{◌≡◌};
ghost use Rattle.rds_play_pair.specs.declared.error.PairError.TheVariants as errors;

use rds_wire::Memory;

/// Why a step of a pair did nothing.
#[derive(Clone, Copy, Debug, PartialEq, Eq)]
pub enum PairError {
    Memory,
    /// The journal of an end has this many entries, and two more would pass its limit.
    Spent { entries: u32 },
}

impl From<Memory> for PairError {
    ghost from_gives = { λ _ e. e ≡ errors.Memory };

    fn from(_error: Memory) -> PairError {
        PairError::Memory
    }
}
