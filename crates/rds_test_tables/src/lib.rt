//! Tests of mailboxes, in one thread and between threads, and of the maps that a line publishes and reads.
#![tactic(auto)]

#[cfg(test)]
mod gathering;
#[cfg(test)]
mod maps;
#[cfg(test)]
mod polled;
#[cfg(test)]
mod ringing;
#[cfg(test)]
mod single;
#[cfg(test)]
mod threads;
