ghost use Rattle.std.specs.Prelude.{◌≡◌, ◌∷◌, ℕ, false, List, IfOk, OnOk};
ghost use Rattle.rds_model.specs.declared.entry.Entry.{Entry as Event};
ghost use Rattle.rds_model.specs.declared.entry.Entry.TheVariants as entries;
ghost use Rattle.rds_model.specs.Past.{accepted, highest_ack as acked_in};
ghost use Rattle.rds_model.specs.Alive.{was_taken_back};
ghost use Rattle.rds_report.specs.Items.{flags};
ghost use Rattle.rds_report.specs.TakenBackWalk.{IsWalk};

use crate::acknowledgements::acknowledgements;
use crate::cancellations::Cancellations;
use crate::flags::set_flag;
use rds_model::{Entry, Journal};
use rds_wire::Memory;
use std::alloc::Global;

/// A walk over a journal, from its newest entry back. It holds how many datagrams were accepted up to where it is, the
/// cancellations behind that, and which of the later numbers were taken back.
#[derive(Drop)]
pub struct Walk {
    pub taken: Vec<bool>,
    pub accepted: u64,
    pub cancellations: Cancellations,
}

/// For each number of a journal from 1 on, whether a cancellation covered it while it was alive. The first
/// cancellation behind it that covers it decides, since what is acknowledged only rises.
pub fn taken_back(alloc: Global, journal: &Journal) -> Result<Vec<bool>, Memory>
    ensures { IfOk result (λ taken. taken.items ≡ flags (was_taken_back journal.now.past) (accepted journal.now.past)) }
{
    let mut walk = start(alloc, journal)?;
    let mut acks = acknowledgements(alloc, journal)?;
    let mut i = journal.len();
    while let Some(acked) = acks.pop() {
        i -= 1;
        let Some(entry) = journal.at(i) else {
            unreachable!()
        };
        walk.pass(entry, acked)?;
    }
    Ok(walk.taken)
}

// The walk before its first step.
fn start(alloc: Global, journal: &Journal) -> Result<Walk, Memory>
    ensures { IfOk result (λ walk. IsWalk journal.now.past walk journal.now.past) }
{
    let taken = none(alloc, journal)?;
    Ok(Walk {
        accepted: taken.len() as u64,
        taken,
        cancellations: Cancellations::new(alloc),
    })
}

// A flag that isn't set for each number of a journal.
fn none(alloc: Global, journal: &Journal) -> Result<Vec<bool>, Memory>
    ensures { IfOk result (λ none. none.items ≡ flags (λ n. false) (accepted journal.now.past)) }
{
    let mut none = Vec::new(alloc);
    for entry in journal.entries() {
        count(&mut none, entry)?;
    }
    Ok(none)
}

// One flag more that isn't set, where an entry is an acceptance.
fn count(none: &mut Vec<bool>, entry: &Entry) -> Result<(), Memory>
    ensures { OnOk result ((past : List Event) → none.old.items ≡ flags (λ n. false) (accepted past) →
        none.new.items ≡ flags (λ n. false) (accepted (entry.now ∷ past))) }
{
    if let Entry::Accept { .. } = entry {
        none.push(false)?;
    }
    Ok(())
}

impl Walk {
    // A step back over an entry, before which the numbers up to `acked` were acknowledged.
    fn pass(&mut self, entry: &Entry, acked: u64) -> Result<(), Memory>
        ensures { OnOk result ((all past : List Event) → IsWalk all self.old (entry.now ∷ past) → acked ≡ acked_in past → IsWalk all self.new past) }
    {
        match entry {
            Entry::Accept { slot, dport, .. } => {
                self.accept(*slot, *dport);
                Ok(())
            }
            Entry::Cancel { slot, target } => self.cancellations.add(*slot, *target, acked),
            _ => Ok(()),
        }
    }

    fn accept(&mut self, slot: u16, dport: u16)
        ensures { (all past : List Event) (sport : ℕ) (payload : List ℕ) →
            IsWalk all self.old (entries.Accept slot sport dport payload ∷ past) → IsWalk all self.new past }
    {
        let is_taken = self.cancellations.take(slot, dport, self.accepted);
        set_flag(&mut self.taken, self.accepted, is_taken);
        self.accepted = self.accepted.saturating_sub(1);
    }
}
