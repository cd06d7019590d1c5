//! The history of a script: the events that its commands make, and the text that is printed of them.
#![tactic(auto)]

pub mod laws;
