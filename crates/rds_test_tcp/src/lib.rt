//! Tests of streams over TCP, on real sockets.
#![tactic(auto)]

#[cfg(test)]
mod streams;
