ghost use Rattle.std.specs.Prelude.{◌≡◌, ◌+◌, ◌-◌, ◌≤◌, ◌<◌, ◌++◌, None, length, min, take};
ghost use Rattle.rds_wire.specs.Kinds.{cause};

use rds_wire::{Header, Malformed, check};

// Puts the front of a piece after the bytes of a header that came before, and says how many that were.
pub(crate) fn fill(head: &mut [u8; 48], came: usize, piece: &[u8]) -> usize
    requires { came ≤ 48 }
    ensures used { result ≡ min (48 - came) (length piece.now) }
    ensures came { take (came + result) head.new ≡ take came head.old ++ take result piece.now }
    ensures len { length head.new ≡ 48 }
{
    let used = piece.len().min(48 - came);
    head[came..came + used].copy_from_slice(&piece[..used]);
    used
}

// The fault of a header that became whole with this piece. One that was whole before has passed.
pub(crate) fn fault_of(header: &Header, came: usize, highest: u64, known: u32) -> Option<Malformed>
    ensures new { came < 48 → result ≡ cause header.now highest known }
    ensures passed { 48 ≤ came → result ≡ None }
{
    if came < 48 {
        check(header, highest, known).err()
    } else {
        None
    }
}
