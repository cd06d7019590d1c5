//! Mailboxes: unbounded queues that many put into and one gets from, each with a bell that wakes the one who waits.
#![tactic(auto)]

mod asked;
mod bell;
mod closing;
mod mail;
mod pass;
mod plays;
mod polling;
mod rule;
mod telling;
mod view;

pub use asked::Asked;
pub use bell::Bell;
pub use mail::Mail;
pub use pass::{GetPass, Note, PutPass};
pub use view::{Account, View};
