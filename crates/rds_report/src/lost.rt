ghost use Rattle.std.specs.Prelude.{◌≡◌, ◌&&◌, not, ℕ, Bool, IfOk, option_copied};
ghost use Rattle.rds_model.specs.Past.{accepted};
ghost use Rattle.rds_model.specs.Streams.{was_passed};
ghost use Rattle.rds_report.specs.Items.{flags, is_lost, past_in, passes_number};

use crate::flags::set_flag;
use crate::taken::taken_back;
use rds_model::{Entry, Journal};
use rds_wire::Memory;
use std::alloc::Global;

/// For each number of a journal from 1 on, whether it was taken back and never arrived, by the journal of the peer.
pub fn lost(alloc: Global, journal: &Journal, back: Option<&Journal>) -> Result<Vec<bool>, Memory>
    ensures { IfOk result (λ lost. lost.items ≡ flags (is_lost journal.now.past (past_in (option_copied back.entry))) (accepted journal.now.past)) }
{
    let mut lost = taken_back(alloc, journal)?;
    if let Some(back) = back {
        clear_arrived(&mut lost, back);
    }
    Ok(lost)
}

// Clears the numbers that have a passed read in a journal.
fn clear_arrived(lost: &mut [bool], journal: &Journal)
    ensures { (test : ℕ → Bool) (m : ℕ) → lost.old ≡ flags test m →
        lost.new ≡ flags (λ n. test n && not (was_passed journal.now.past n)) m }
{
    for entry in journal.entries() {
        clear(lost, entry);
    }
}

// Clears the number of a passed read.
fn clear(lost: &mut [bool], entry: &Entry)
    ensures { (test : ℕ → Bool) (m : ℕ) → lost.old ≡ flags test m →
        lost.new ≡ flags (λ n. test n && not (passes_number entry.now n)) m }
{
    if let Entry::Read { frame, outcome, .. } = entry {
        if outcome.passes() {
            set_flag(lost, frame.header.sequence, false);
        }
    }
}
