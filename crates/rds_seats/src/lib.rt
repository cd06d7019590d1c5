//! The words in which tables of shared words are spoken of: lists of what their seats know.
#![tactic(auto)]
