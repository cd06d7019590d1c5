//! The connections between up to eight hosts: a joint for each two of them, found by the two hosts.
#![tactic(auto)]

mod final_journals;
mod mesh;
mod place;
mod steps;

pub use mesh::Mesh;
pub use rds_play_pair::PairError;
