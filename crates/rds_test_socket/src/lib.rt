//! Tests of sockets on hosts that are put together by hand: what each call answers by the state just written.
#![tactic(auto)]

#[cfg(test)]
mod closing;
#[cfg(test)]
mod polling;
#[cfg(test)]
mod refusals;
