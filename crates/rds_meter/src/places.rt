// Where the words stand.
ghost use Rattle.std.specs.Prelude.{◌≡◌};
ghost use Rattle.rds_meter.specs.Places.{map_word, mask_of};

pub(crate) const FREED: usize = 1024;

pub(crate) const PUT: usize = 2048;

pub(crate) const TAKEN: usize = 3072;

pub(crate) const MAP: usize = 4096;

pub(crate) const CHANGE: usize = 5120;

// The word of a port's bit, and the bit in it.
pub(crate) fn place_of(port: u16) -> (usize, u64)
    ensures { (result.0 ≡ map_word port) × (result.1 ≡ mask_of port) }
{
    (MAP + usize::from(port / 64), 1 << (port % 64))
}
