//! Two connections whose bytes are moved from one to the other: whatever the moves and the cuts, each datagram is delivered at most
//! once. A `ConnPair` has any number of frames on its way; a `Joint` at most one in each direction, as the playing of a script has, and
//! each of its calls says exactly what it does to both ends.
#![tactic(auto)]

mod error;
mod found;
mod half;
mod joint;
mod moving;
mod order;
mod pair;
mod run;
mod step;

pub use error::PairError;
pub use joint::Joint;
pub use pair::ConnPair;
pub use step::{PairEnd, PairStep};
