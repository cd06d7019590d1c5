//! Tests of sources, sinks and streams in memory, in one thread and between two.
#![tactic(auto)]

#[cfg(test)]
mod carrying;
#[cfg(test)]
mod shutting;
#[cfg(test)]
mod sources;
#[cfg(test)]
mod streams;
