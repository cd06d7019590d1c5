ghost use Rattle.std.specs.Prelude.{◌≡◌};
ghost use Rattle.rds_conn.specs.Passing.{IsLookedUp, Matches};
ghost use Rattle.rds_play_pair.specs.Changes.{found_for as found_after, found_slot as holder_of};

use rds_conn::{Found, Verdict};

/// What the port table says where the socket of `slot` holds a datagram's port, or none, at a host with so many slots.
pub(crate) fn found_for(slots: u16, verdict: Verdict, slot: Option<u16>) -> Found
    ensures found { result ≡ found_after slots slot verdict }
    ensures matches { Matches slots verdict result }
{
    match verdict {
        Verdict::Deliver { .. } => holder(slots, slot),
        _ => Found::Unasked,
    }
}

// The socket of a slot, if a host has it.
fn holder(slots: u16, slot: Option<u16>) -> Found
    ensures holder { result ≡ holder_of slots slot }
    ensures looked_up { IsLookedUp slots result }
{
    match slot {
        Some(slot) if slot < slots => Found::Slot(slot),
        _ => Found::NoSocket,
    }
}
