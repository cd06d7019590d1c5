//! Tests of a connection and of what it stands on: journal, congestion map, indexes on two lists, store of messages.
#![tactic(auto)]

#[cfg(test)]
mod headers;
#[cfg(test)]
mod journal;
#[cfg(test)]
mod lists;
#[cfg(test)]
mod map;
#[cfg(test)]
mod steps;
#[cfg(test)]
mod store;
#[cfg(test)]
mod streams;
#[cfg(test)]
mod upper;
