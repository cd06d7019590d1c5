//! Two hosts with one socket each, in one thread: bind, wait, send, receive, be refused, close. Each step is printed.
#![tactic(auto)]

mod hosts;
mod steps;
mod story;
mod waiting;

use hosts::two_hosts;

fn main(rt: HostRuntime) -> anyhow::Result<()> {
    let (a, b) = two_hosts(rt.alloc())?;
    story::tell(&rt, a, b)
}
