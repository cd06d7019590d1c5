//! Two threads that shut the two ends of a stream at once.
ghost use Rattle.rds_link.specs.Ends.{Remains};
ghost use Rattle.rds_link.specs.Memory.{memory_means};

use rds_link::*;
use std::net::Net;
use std::sync::Wait;
use std::test::*;
use std::thread;
use std::thread::Threads;

fn shutting<E: End>(mut end: E) -> E
    ensures { Remains E.means end result }
{
    end.shut();
    end
}

// What the ends of a stream answer once they have met.
fn met<W: Wire>(a: &mut W::End, b: &mut W::End) -> (Got, Put)
    requires { W.End.means.meets a.old b.old }
{
    W::meet(a, b);
    (a.read(&mut [0; 8]), b.write(&[1]))
}

// The same once both have been shut at once.
fn race<R: Threads + Sync>(rt: &R, a: MemEnd, b: MemEnd) -> (Got, Put)
    requires { memory_means.meets a b }
{
    let (mut a, mut b) = thread::join(
        rt,
        move || -> MemEnd
            ensures { Remains memory_means a result }
        { shutting(a) },
        move || -> MemEnd
            ensures { Remains memory_means b result }
        { shutting(b) },
    );
    met::<MemWire>(&mut a, &mut b)
}

fn raced<R: Threads + Wait + Net + Sync>(rt: &R, wire: &mut MemWire) -> Option<(Got, Put)> {
    let Ok((a, b)) = wire.open(rt, 1, 2, 1) else {
        return None;
    };
    Some(race(rt, a, b))
}

#[test]
fn both_ends_shut_at_once(rt: HostRuntime) {
    let alloc = rt.alloc();
    let mut wire = MemWire::new(alloc, Vec::new(alloc), Vec::new(alloc));
    for _ in 0..20 {
        assert!(rt; raced(&rt, &mut wire) == Some((Got::Over, Put::Over)));
    }
}
