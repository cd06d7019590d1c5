//! The join of all putters of a slot's mailbox.
ghost use Rattle.std.specs.Prelude.{◌≡◌, ◌++◌, ℕ, All, map};
ghost use Rattle.rds_seats.specs.Views.{Each};
ghost use Rattle.rds_mail.specs.Numbers.{Number};
ghost use Rattle.rds_mail.specs.Shared.{IsPart};
ghost use Rattle.rds_mail.specs.Passes.{with_joined, account_of};
ghost use Rattle.rds_mail.specs.Merging.{AreAll, IsMerged, KeysBegin};
ghost use Rattle.rds_host_end.specs.Joins.{sender_in, IsFrom, AreMarked, PutsAreTold, KeysAre};

use rds_mail::{GetPass, Mail, PutPass};
use rds_model::Datagram;
use std::sync::Wait;

/// Ends all putters of a slot's mailbox, one of each line. What the slot's socket got from each host, in order, begins what the line
/// to that host has put, and is all of that where the socket was told of all that the lines put, and then found its mailbox empty.
pub fn join_receipts<W: Wait>(
    rt: &W,
    mail: &Mail<Datagram>,
    get: &mut GetPass<Datagram>,
    puts: Vec<PutPass<Datagram>>,
)
    requires get { get.old.mail ≡ mail.now.line }
    requires puts { All (λ p. p.mail ≡ mail.now.line) puts.items }
    requires all { AreAll (get.old.joined ++ map account_of puts.items) }
    ensures joined { get.new ≡ with_joined get.old (map account_of puts.items) }
    ensures merged { IsMerged get.new.got get.new.joined }
    ensures begin { (host_at : Number → ℕ) → AreMarked IsFrom host_at get.new.joined →
        KeysBegin sender_in host_at get.new.got get.new.joined }
    ensures emptied { (host_at : Number → ℕ) → AreMarked IsFrom host_at get.new.joined → Each get.new.told (IsPart get.new.got) →
        PutsAreTold get.new.told get.new.joined → KeysAre sender_in host_at get.new.got get.new.joined }
{
    mail.gather_keyed(rt, get, puts);
}
