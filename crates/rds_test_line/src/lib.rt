//! Tests of a line and of what it stands on: its streams, its channel, what it holds beside its connection; and of two lines that a
//! seed drives, on one thread and on two.
#![tactic(auto)]

#[cfg(test)]
mod carrying;
#[cfg(test)]
mod delivering;
#[cfg(test)]
mod driving;
#[cfg(test)]
mod parts;
#[cfg(test)]
mod putting;
#[cfg(test)]
mod relieving;
#[cfg(test)]
mod streams;
#[cfg(test)]
mod talking;
#[cfg(test)]
mod threads;
