//! Two threads put and one gets.
ghost use Rattle.std.specs.Prelude.{◌≡◌, ◌≤◌};

use rds_mail::{GetPass, Mail, PutPass};
use std::sync::Wait;
use std::test::Fail;
use std::thread;
use std::thread::Threads;

const EACH: u32 = 1000;

fn puts(rt: &impl Wait, mail: &Mail<u32>, mut pass: PutPass<u32>, from: u32) -> PutPass<u32>
    requires mail { pass.mail ≡ mail.now.line }
    requires from { from ≤ 1000 }
    ensures { result.mail ≡ mail.now.line }
{
    for i in 0..EACH {
        let _ = mail.put(rt, &mut pass, from + i);
    }
    pass
}

fn next_item(rt: &impl Wait, mail: &Mail<u32>, get: &mut GetPass<u32>) -> u32
    requires { get.old.mail ≡ mail.now.line }
    ensures { get.new.mail ≡ mail.now.line }
{
    for _ in rt.forever() {
        if let Some(item) = mail.get(rt, get) {
            return item;
        }
        thread::yield_now();
    }
    unreachable!()
}

// The number after the next one, where that is the item and below the end.
fn after(next: u32, end: u32, item: u32) -> u32 {
    if item == next && next < end {
        next.wrapping_add(1)
    } else {
        next
    }
}

// Which item of each putter would come next, where all came in order.
fn gets(rt: &impl Wait, mail: &Mail<u32>, mut get: GetPass<u32>) -> (GetPass<u32>, (u32, u32))
    requires { get.mail ≡ mail.now.line }
    ensures { result.0.mail ≡ mail.now.line }
{
    let mut first = 0;
    let mut second = EACH;
    for _ in 0..2 * EACH {
        let item = next_item(rt, mail, &mut get);
        first = after(first, EACH, item);
        second = after(second, 2 * EACH, item);
    }
    (get, (first, second))
}

fn both<R: Threads + Wait + Sync>(
    rt: &R,
    mail: &Mail<u32>,
    put: PutPass<u32>,
    get: GetPass<u32>,
) -> (PutPass<u32>, (GetPass<u32>, (u32, u32)))
    requires put { put.mail ≡ mail.now.line }
    requires get { get.mail ≡ mail.now.line }
    ensures put { result.0.mail ≡ mail.now.line }
    ensures get { result.1.0.mail ≡ mail.now.line }
{
    thread::join(
        rt,
        move || puts(rt, mail, put, EACH),
        move || gets(rt, mail, get),
    )
}

fn ends(rt: &impl Wait, mail: &Mail<u32>, puts: (PutPass<u32>, PutPass<u32>), mut get: GetPass<u32>)
    requires first { puts.0.mail ≡ mail.now.line }
    requires second { puts.1.mail ≡ mail.now.line }
    requires get { get.mail ≡ mail.now.line }
{
    let (first, second) = puts;
    mail.join(&mut get, first);
    mail.join(&mut get, second);
    mail.compare(rt, &mut get);
}

#[test]
fn each_threads_items_come_in_order(rt: HostRuntime) -> Result<(), Fail> {
    let (mail, mut first, get) = Mail::<u32>::new(rt.alloc())?;
    let second = mail.split(&mut first);
    let mail = &mail;
    let shared = &rt;
    let (first, rest) = thread::join(
        &rt,
        move || puts(shared, mail, first, 0),
        move || -> (PutPass<u32>, (GetPass<u32>, (u32, u32)))
            requires { (second.mail ≡ mail.now.line) × (get.mail ≡ mail.now.line) }
            ensures { (result.0.mail ≡ mail.entry.now.line) × (result.1.0.mail ≡ mail.entry.now.line) }
        { both(shared, mail, second, get) },
    );
    let (second, rest) = rest;
    let (get, next) = rest;
    assert!(rt; next == (EACH, 2 * EACH));
    ends(&rt, mail, (first, second), get);
    Ok(())
}
