//! What follows of a run from what its contracts say: laws over the journals that its hosts have in the end.
#![tactic(auto)]

pub mod bounds;
pub mod calm;
pub mod sums;
