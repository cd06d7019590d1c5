//! What a connection is: the journal that each end keeps of it, the definitions over journals, and their laws.
#![tactic(auto)]

mod entry;
mod journal;
pub mod laws;
mod order;
mod owed;

pub use entry::{Entry, MAX_SLOTS, Msg, NO_SLOT, Outcome, Target, Verdict};
pub use journal::{Journal, JournalError, MAX_ENTRIES, MIN_ENTRIES};
pub use order::{Datagram, Order, Pair};
pub use owed::{MAX_UNASKED, MAX_UNASKED_BYTES};
