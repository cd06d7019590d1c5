//! Tests of the readers of scripts and of the generator.
#![tactic(auto)]

#[cfg(test)]
mod comparing;
#[cfg(test)]
mod piece_reading;
#[cfg(test)]
mod reading;
#[cfg(test)]
mod scripts;
