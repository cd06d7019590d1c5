//! Additions to one word.
ghost use Rattle.std.specs.Prelude.{◌≡◌};
ghost use Rattle.rds_bench_tables.specs.Seats.{New};

use rds_meter::{Meter, MeterSeat};
use std::alloc::Global;
use std::thread;
use std::thread::Threads;

fn adds(meter: &Meter, mut seat: MeterSeat, rounds: u32) -> MeterSeat
    requires { New meter.now seat }
    ensures { result.table ≡ meter.now }
{
    for _ in 0..rounds {
        meter.put_add(&mut seat, 0, 1);
    }
    seat
}

fn by_two<R: Threads + Sync>(
    rt: &R,
    meter: &Meter,
    first: MeterSeat,
    second: MeterSeat,
    rounds: u32,
) -> MeterSeat
    requires { New meter.now first × New meter.now second }
    ensures { result.table ≡ meter.now }
{
    let (mut one, other) = thread::join(
        rt,
        move || adds(meter, first, rounds),
        move || adds(meter, second, rounds),
    );
    meter.join(&mut one, other);
    one
}

/// The word after so many additions of 1 by one thread, or `None` where memory runs out.
pub fn by_one(alloc: Global, rounds: u32) -> Option<u64> {
    let (meter, seat) = Meter::new(alloc, 1).ok()?;
    let mut seat = adds(&meter, seat, rounds);
    Some(meter.put(&mut seat, 0))
}

/// The same after those of four threads.
pub fn by_four<R: Threads + Sync>(rt: &R, alloc: Global, rounds: u32) -> Option<u64> {
    let (meter, mut first) = Meter::new(alloc, 1).ok()?;
    let second = meter.split(&mut first);
    let third = meter.split(&mut first);
    let fourth = meter.split(&mut first);
    let shared = &meter;
    let (mut one, other) = thread::join(
        rt,
        move || -> MeterSeat
            requires { New shared.now first × New shared.now second }
            ensures { result.table ≡ shared.entry.now }
        { by_two(rt, shared, first, second, rounds) },
        move || -> MeterSeat
            requires { New shared.now third × New shared.now fourth }
            ensures { result.table ≡ shared.entry.now }
        { by_two(rt, shared, third, fourth, rounds) },
    );
    meter.join(&mut one, other);
    Some(meter.put(&mut one, 0))
}
