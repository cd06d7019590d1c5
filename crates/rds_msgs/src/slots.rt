ghost use Rattle.std.specs.Prelude.{◌≡◌, ◌<◌, ◌+◌, min, IsTrue, ◌↔◌};
ghost use Rattle.rds_msgs.specs.Kept.{HasSlot};

use rds_model::NO_SLOT;

/// Whether a slot may have messages.
pub(crate) fn has_slot(slots: u16, slot: u16) -> bool
    ensures { IsTrue result ↔ HasSlot slots slot }
{
    slot < slots || slot == NO_SLOT
}

/// The list of a slot. Pongs, which have no slot, have the last one.
pub(crate) fn list_of(slots: u16, slot: u16) -> u32
    ensures list { result ≡ min slot slots }
    ensures within { result < slots + 1 }
{
    u32::from(slot.min(slots))
}
