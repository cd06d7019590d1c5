ghost use Rattle.std.specs.Prelude.{◌≡◌, ◌∷◌, List, IfOk};
ghost use Rattle.rds_model.specs.declared.entry.Entry.{Entry as Event};
ghost use Rattle.rds_model.specs.Past.{highest_ack as acked_in};
ghost use Rattle.rds_report.specs.TakenBackWalk.{acknowledgements as acknowledgements_of};

use rds_model::{Entry, Journal};
use rds_wire::Memory;
use std::alloc::Global;

/// What was acknowledged before each entry of a journal, by the oldest first.
pub fn acknowledgements(alloc: Global, journal: &Journal) -> Result<Vec<u64>, Memory>
    ensures { IfOk result (λ acks. acks.items ≡ acknowledgements_of journal.now.past) }
{
    let mut acks = Vec::new(alloc);
    let mut acked = 0u64;
    for entry in journal.entries() {
        acks.push(acked)?;
        acked = acknowledged(acked, entry);
    }
    Ok(acks)
}

// What is acknowledged after an entry.
fn acknowledged(acked: u64, entry: &Entry) -> u64
    ensures { (past : List Event) → acked ≡ acked_in past → result ≡ acked_in (entry.now ∷ past) }
{
    match entry {
        Entry::Read { frame, .. } => acked.max(frame.header.ack),
        _ => acked,
    }
}
