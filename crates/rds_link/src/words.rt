//! The two words that the ends of one stream share: one numbers the ends, the other says which of them shut first.
mod meeting;
mod plays;
mod rule;
mod seat;
mod view;

pub use seat::EndSeat;
pub use view::View;
