//! Claims of a port, each followed by its release.
ghost use Rattle.std.specs.Prelude.{◌*◌, ◌≤◌, ◌<◌, IfSome};
ghost use Rattle.rds_bench_tables.specs.Seats.{Free};

use rds_bindtab::{BindSeat, BindTable};
use std::alloc::Global;
use std::thread;
use std::thread::Threads;

const PORT: u16 = 4000;

// How often the port was free.
fn claims(table: &BindTable, mut seat: BindSeat, port: u16, rounds: u32) -> u64
    requires { Free table.now seat }
    ensures { result ≤ rounds }
{
    let mut free = 0;
    for _ in 0..rounds {
        if let Ok(()) = table.claim(&mut seat, port) {
            table.release(&mut seat);
            free += 1;
        }
    }
    free
}

// The same by two threads, each with a port of its own.
fn by_two<R: Threads + Sync>(
    rt: &R,
    table: &BindTable,
    first: BindSeat,
    second: BindSeat,
    port: u16,
    rounds: u32,
) -> u64
    requires seats { Free table.now first × Free table.now second }
    requires port { port < 5000 }
    ensures { result ≤ 2 * rounds }
{
    let (one, other) = thread::join(
        rt,
        move || claims(table, first, port, rounds),
        move || claims(table, second, port + 1, rounds),
    );
    one + other
}

/// How often one thread finds its port free in so many claims, or `None` where memory runs out.
pub fn by_one(alloc: Global, rounds: u32) -> Option<u64>
    ensures { IfSome result (λ n. n ≤ rounds) }
{
    let (table, mut seat) = BindTable::new(alloc, 1).ok()?;
    table.draw(&mut seat).ok()?;
    Some(claims(&table, seat, PORT, rounds))
}

/// The same of four threads, added up.
pub fn by_four<R: Threads + Sync>(rt: &R, alloc: Global, rounds: u32) -> Option<u64>
    ensures { IfSome result (λ n. n ≤ 4 * rounds) }
{
    let (table, mut first) = BindTable::new(alloc, 4).ok()?;
    let mut second = table.split(&mut first);
    let mut third = table.split(&mut first);
    let mut fourth = table.split(&mut first);
    table.draw(&mut first).ok()?;
    table.draw(&mut second).ok()?;
    table.draw(&mut third).ok()?;
    table.draw(&mut fourth).ok()?;
    let shared = &table;
    let (one, other) = thread::join(
        rt,
        move || -> u64
            requires { Free shared.now first × Free shared.now second }
            ensures { result ≤ 2 * rounds }
        { by_two(rt, shared, first, second, PORT, rounds) },
        move || -> u64
            requires { Free shared.now third × Free shared.now fourth }
            ensures { result ≤ 2 * rounds }
        { by_two(rt, shared, third, fourth, PORT + 2, rounds) },
    );
    Some(one + other)
}
