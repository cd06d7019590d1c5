//! Tests of runs by threads, by whole texts and over wires that are made for tests, and of the program's top call.
#![tactic(auto)]

#[cfg(test)]
mod answering;
#[cfg(test)]
mod beside;
#[cfg(test)]
mod gates;
#[cfg(test)]
mod hello;
#[cfg(test)]
mod texts;
#[cfg(test)]
mod unfinished;
#[cfg(test)]
mod writes;
#[cfg(test)]
mod written;
