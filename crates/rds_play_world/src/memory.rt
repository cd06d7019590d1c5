ghost use Rattle.std.specs.Prelude.{◌≡◌};
ghost use Rattle.rds_play_world.specs.declared.stop.Stop.TheVariants as stops;

use crate::stop::Stop;
use rds_wire::Memory;
use std::alloc::{AllocError, AllocFailed};

impl From<Memory> for Stop {
    ghost from_gives = { λ _ s. s ≡ stops.Memory };

    fn from(_error: Memory) -> Stop {
        Stop::Memory
    }
}

impl From<AllocError> for Stop {
    ghost from_gives = { λ _ s. s ≡ stops.Memory };

    fn from(_error: AllocError) -> Stop {
        Stop::Memory
    }
}

impl<T: Drop> From<AllocFailed<T>> for Stop {
    ghost from_gives = { λ _ s. s ≡ stops.Memory };

    fn from(_error: AllocFailed<T>) -> Stop {
        Stop::Memory
    }
}
