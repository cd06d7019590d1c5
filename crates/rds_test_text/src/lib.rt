//! Tests of printed lines and of reports.
#![tactic(auto)]

#[cfg(test)]
mod lines;
#[cfg(test)]
mod reporting;
