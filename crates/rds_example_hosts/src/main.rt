//! Two hosts made by hand over one stream in memory, with a socket each and a worker thread each. A sends to B, B answers, and
//! both hosts end. What the sockets receive is printed, and how many datagrams each host accepted.
#![tactic(auto)]

mod ending;
mod hosts;
mod talking;
mod working;

use ending::end_host;
use hosts::{A, B, two_hosts};
use rds_link::MemWire;
use working::run;

fn main(rt: HostRuntime) -> anyhow::Result<()> {
    let alloc = rt.alloc();
    let mut wire = MemWire::new(alloc, Vec::new(alloc), Vec::new(alloc));
    let (a, b) = two_hosts(&rt, &mut wire)?;
    let (a, b) = run(&rt, a, b)?;
    end_host(&rt, &mut wire, A, a)?;
    end_host(&rt, &mut wire, B, b)
}
