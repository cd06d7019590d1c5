//! Tests of headers, payloads and the splitter of frames, among them headers that a Linux kernel wrote.
#![tactic(auto)]

#[cfg(test)]
mod headers;
#[cfg(test)]
mod splitting;
