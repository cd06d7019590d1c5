//! What a line holds beside its connection: the getter of its orders, its seats at the host's port table and meter, the host's
//! own congestion map as it last read it, and the mailboxes that it delivers to.
#![tactic(auto)]

mod boxes;
mod count;
mod orders;
mod own;
mod ports;
mod relief;
mod slot_box;
mod words;

pub use boxes::Boxes;
pub use orders::LineOrders;
pub use own::OwnMap;
pub use ports::LinePorts;
pub use relief::relieve;
pub use slot_box::SlotBox;
pub use words::LineWords;
