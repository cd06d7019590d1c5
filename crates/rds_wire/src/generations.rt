ghost use Rattle.std.specs.Prelude.{◌≡◌, ◌≤◌, drop};
ghost use Rattle.rds_wire.specs.Generations.{first_generation as first_number, generation as generation_of};

use crate::{Ext, Header, next_ext};

/// The first generation number that a header carries, or 0 where its writer wrote none.
#[tactic(auto, unfolding(crate::specs::Generations::generation))]
pub fn generation(h: &Header) -> u32
    ensures { result ≡ generation_of h.now }
{
    first_generation(&h.ext, 0)
}

// The first generation number in the extensions from a place on.
fn first_generation(area: &[u8; 16], pos: usize) -> u32
    requires { pos ≤ 16 }
    ensures { result ≡ first_number 0 (drop pos area.now) }
{
    let Some((ext, after)) = next_ext(area, pos) else {
        return 0;
    };
    match ext {
        Ext::Generation(generation) => generation,
        Ext::Version(_) | Ext::RdmaKey(_) | Ext::RdmaDest { .. } | Ext::Paths(_) => {
            first_generation(area, after)
        }
    }
}
