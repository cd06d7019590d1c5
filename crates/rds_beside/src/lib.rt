//! Calls that threads make beside one another, while the calling thread only waits.
//!
//! A kernel may place a new thread on its maker's processor as long as only the maker runs there, and it then waits for milliseconds until the
//! maker sleeps. `std::thread`'s calls of the same names give a part of the work to the calling thread; these make a thread for each call.
#![tactic(auto)]

mod jobs;
mod numbers;
mod places;

pub use jobs::map_vec;
pub use numbers::map_indices;
pub use places::for_each_mut;
