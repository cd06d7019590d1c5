//! Looks at a port that is held.
ghost use Rattle.std.specs.Prelude.{◌≡◌, ◌*◌, ◌≤◌, IfSome};

use rds_bindtab::{BindSeat, BindTable};
use std::alloc::Global;
use std::thread;
use std::thread::Threads;

const PORT: u16 = 4000;

// How often the port was found held.
fn looks(table: &BindTable, mut seat: BindSeat, rounds: u32) -> u64
    requires { seat.table ≡ table.now }
    ensures { result ≤ rounds }
{
    let mut held = 0;
    for _ in 0..rounds {
        if table.look(&mut seat, PORT).is_some() {
            held += 1;
        }
    }
    held
}

fn by_two<R: Threads + Sync>(
    rt: &R,
    table: &BindTable,
    first: BindSeat,
    second: BindSeat,
    rounds: u32,
) -> u64
    requires { (first.table ≡ table.now) × (second.table ≡ table.now) }
    ensures { result ≤ 2 * rounds }
{
    let (one, other) = thread::join(
        rt,
        move || looks(table, first, rounds),
        move || looks(table, second, rounds),
    );
    one + other
}

// A table with a seat that holds the port.
fn held(alloc: Global) -> Option<(BindTable, BindSeat)>
    ensures table { IfSome result (λ r. r.1.table ≡ r.0) }
    ensures splits { IfSome result (λ r. r.1.view.splits ≡ 4094) }
{
    let (table, mut seat) = BindTable::new(alloc, 1).ok()?;
    table.draw(&mut seat).ok()?;
    table.claim(&mut seat, PORT).ok()?;
    Some((table, seat))
}

/// How often one thread finds the port held in so many looks, or `None` where memory runs out.
pub fn by_one(alloc: Global, rounds: u32) -> Option<u64>
    ensures { IfSome result (λ n. n ≤ rounds) }
{
    let (table, seat) = held(alloc)?;
    Some(looks(&table, seat, rounds))
}

/// The same of four threads, added up.
pub fn by_four<R: Threads + Sync>(rt: &R, alloc: Global, rounds: u32) -> Option<u64>
    ensures { IfSome result (λ n. n ≤ 4 * rounds) }
{
    let (table, mut first) = held(alloc)?;
    let second = table.split(&mut first);
    let third = table.split(&mut first);
    let fourth = table.split(&mut first);
    let shared = &table;
    let (one, other) = thread::join(
        rt,
        move || -> u64
            requires { (first.table ≡ shared.now) × (second.table ≡ shared.now) }
            ensures { result ≤ 2 * rounds }
        { by_two(rt, shared, first, second, rounds) },
        move || -> u64
            requires { (third.table ≡ shared.now) × (fourth.table ≡ shared.now) }
            ensures { result ≤ 2 * rounds }
        { by_two(rt, shared, third, fourth, rounds) },
    );
    Some(one + other)
}
