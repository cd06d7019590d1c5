//! Tests of two connections, of two with at most one frame on its way each way, and of the connections of several hosts.
#![tactic(auto)]

#[cfg(test)]
mod joining;
#[cfg(test)]
mod meshing;
#[cfg(test)]
mod running;
