//! What is left of a host when its sockets have ended and its lines don't turn any more: `gather` joins the passes of its queues and the
//! seats of its tables, so that what the sockets put and got is told beside the journals.
#![tactic(auto)]

mod gathering;
mod grounds;
mod joined_orders;
mod joined_receipts;
mod lines;
mod orders;
mod owners;
mod receipts;
mod slots;

pub use gathering::gather;
pub use joined_orders::join_orders;
pub use joined_receipts::join_receipts;
pub use lines::end_line;
