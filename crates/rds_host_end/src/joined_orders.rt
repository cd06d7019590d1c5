//! The join of all putters of a line's order queue.
ghost use Rattle.std.specs.Prelude.{◌≡◌, ◌++◌, ℕ, All, map};
ghost use Rattle.rds_seats.specs.Views.{Each};
ghost use Rattle.rds_mail.specs.Numbers.{Number};
ghost use Rattle.rds_mail.specs.Shared.{IsPart};
ghost use Rattle.rds_mail.specs.Passes.{with_joined, account_of};
ghost use Rattle.rds_mail.specs.Merging.{AreAll, IsMerged, KeysBegin};
ghost use Rattle.rds_socket_parts.specs.Lanes.{IsOf};
ghost use Rattle.rds_host_end.specs.Joins.{slot_of_order, AreMarked, PutsAreTold, KeysAre};

use rds_mail::{Asked, GetPass, Mail, PutPass};
use std::sync::Wait;

/// Ends all putters of a line's order queue, one of each slot. What the line got of each slot's orders, in order, begins what the
/// slot's socket has put, and is all of that where the line was told of all that the sockets put, and then found its queue empty.
pub fn join_orders<W: Wait>(
    rt: &W,
    mail: &Mail<Asked>,
    get: &mut GetPass<Asked>,
    puts: Vec<PutPass<Asked>>,
)
    requires get { get.old.mail ≡ mail.now.line }
    requires puts { All (λ p. p.mail ≡ mail.now.line) puts.items }
    requires all { AreAll (get.old.joined ++ map account_of puts.items) }
    ensures joined { get.new ≡ with_joined get.old (map account_of puts.items) }
    ensures merged { IsMerged get.new.got get.new.joined }
    ensures begin { (slot_at : Number → ℕ) → AreMarked IsOf slot_at get.new.joined →
        KeysBegin slot_of_order slot_at get.new.got get.new.joined }
    ensures emptied { (slot_at : Number → ℕ) → AreMarked IsOf slot_at get.new.joined → Each get.new.told (IsPart get.new.got) →
        PutsAreTold get.new.told get.new.joined → KeysAre slot_of_order slot_at get.new.got get.new.joined }
{
    mail.gather_keyed(rt, get, puts);
}
