ghost use Rattle.std.specs.Prelude.{◌≡◌, ◌≤◌, ◌<◌, ◌+◌, ◌-◌, ◌==◌, ℕ, max, [], ◌∷◌, length, reverse, slice_get, vec_capacity, IfOk, OnOk, OnErr, option_copied};
ghost use Rattle.rds_model.specs.declared.journal.JournalError.TheVariants as errors;

use crate::Entry;
use rds_wire::Memory;
use std::alloc::{AllocError, Global};
use std::marker::Model;

/// The least limit of a journal.
pub const MIN_ENTRIES: u32 = 4;

/// The greatest limit of a journal.
pub const MAX_ENTRIES: u32 = 4_294_967_294;

/// Why a journal has no room for more entries.
#[derive(Clone, Copy, Debug, PartialEq, Eq)]
pub enum JournalError {
    /// There is no memory for them.
    Memory,
    /// More entries would pass the journal's limit.
    Spent {
        /// How many entries it has.
        entries: u32,
    },
}

/// The list of what happened on a connection, as one end saw it. Contracts see the past, newest entry first, the number
/// of further entries for which there is room, and the limit.
#[derive(Drop)]
pub struct Journal {
    entries: Vec<Entry>,
    spare: u32,
    limit: u32,
}

impl Model for Journal {
    ghost use Rattle.std.specs.Prelude.{◌+◌, ◌≤◌, reverse, length, vec_capacity};
    ghost use Rattle.rds_model.specs.Log.{Log};
    ghost use Rattle.rds_model.specs.declared.journal.TheConstants.{MIN_ENTRIES, MAX_ENTRIES};

    ghost Value = { Log };

    ghost view = { λ j. record { past = reverse j.entries.items; spare = j.spare; limit = j.limit } };

    ghost invariant = { λ j. (length j.entries.items + j.spare ≤ vec_capacity j.entries) × (length j.entries.items + j.spare ≤ j.limit) × (j.limit ≤ MAX_ENTRIES) };
}

impl Journal {
    /// A journal without entries, which may have at most `limit`.
    ///
    /// # Errors
    ///
    /// Where there is no memory for it.
    pub fn new(alloc: Global, limit: u32) -> Result<Journal, Memory>
        requires least { MIN_ENTRIES ≤ limit }
        requires most { limit ≤ MAX_ENTRIES }
        ensures empty { IfOk result (λ j. j ≡ record { past = []; spare = 0; limit = limit }) }
    {
        Ok(Journal {
            entries: Vec::new(alloc),
            spare: 0,
            limit,
        })
    }

    /// Makes room for `n` more entries, so that the next `n` calls of `push` may follow. Nothing is appended.
    ///
    /// # Errors
    /// `Spent` exactly where the entries and `n` more pass the limit, whatever memory there is. `Memory` where there is no
    /// memory for them. Either leaves the journal as it was.
    pub fn reserve(&mut self, n: u32) -> Result<(), JournalError>
        ensures ok { OnOk result (self.new ≡ record self.old { spare = max self.old.spare n }) }
        ensures err { OnErr result (self.new ≡ self.old) }
        ensures spent { (entries : ℕ) → result ≡ Err (errors.Spent entries) →
            (entries ≡ length self.old.past) × (self.old.limit < length self.old.past + n) }
        ensures full { self.old.limit < length self.old.past + n → result ≡ Err (errors.Spent (length self.old.past)) }
        ensures limit { self.old.limit ≤ MAX_ENTRIES }
    {
        let entries = self.len();
        if n > self.limit - entries {
            return Err(JournalError::Spent { entries });
        }
        if grow(&mut self.entries, n as usize).is_err() {
            return Err(JournalError::Memory);
        }
        self.spare = self.spare.max(n);
        Ok(())
    }

    /// Appends an entry.
    pub fn push(&mut self, entry: Entry)
        requires { 1 ≤ self.old.spare }
        ensures { self.new ≡ record self.old { past = entry ∷ self.old.past; spare = self.old.spare - 1 } }
    {
        match self.entries.push(entry) {
            Ok(()) => self.spare -= 1,
            Err(_) => unreachable!(),
        }
    }

    /// How many entries there are.
    pub fn len(&self) -> u32
        ensures len { result ≡ length self.now.past }
        ensures limit { length self.now.past + self.now.spare ≤ self.now.limit }
        ensures most { self.now.limit ≤ MAX_ENTRIES }
    {
        self.entries.len() as u32
    }

    /// Whether there is none.
    pub fn is_empty(&self) -> bool
        ensures { result ≡ (length self.now.past == 0) }
    {
        self.entries.is_empty()
    }

    /// The entries, the oldest first.
    pub fn entries(&self) -> &[Entry]
        ensures list { result.now ≡ reverse self.now.past }
        ensures most { length self.now.past ≤ MAX_ENTRIES }
    {
        &self.entries
    }

    /// The entry at a place, counted from 0, the oldest first.
    pub fn at(&self, i: u32) -> Option<&Entry>
        ensures { option_copied result ≡ slice_get (reverse self.now.past) i }
    {
        self.entries.get(i as usize)
    }
}

// Makes room for `n` more entries. A list that has to grow gets room for four times as many, where there is memory for that: each
// growth copies all entries, and memory that no entry has reached yet costs next to nothing.
fn grow(entries: &mut Vec<Entry>, n: usize) -> Result<(), AllocError>
    ensures items { entries.new.items ≡ entries.old.items }
    ensures room { OnOk result (length entries.new.items + n ≤ vec_capacity entries.new) }
    ensures capacity { vec_capacity entries.old ≤ vec_capacity entries.new }
{
    let len = entries.len();
    if n <= entries.capacity() - len {
        return Ok(());
    }
    if entries
        .reserve(len.saturating_mul(3).saturating_add(n))
        .is_ok()
    {
        return Ok(());
    }
    entries.reserve(n)
}
