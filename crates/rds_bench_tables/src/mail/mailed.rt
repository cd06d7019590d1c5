//! Items through a mailbox.
ghost use Rattle.std.specs.Prelude.{◌≡◌, ◌≤◌, IfSome};

use rds_mail::{GetPass, Mail, PutPass};
use std::alloc::Global;
use std::sync::Wait;
use std::thread;
use std::thread::Threads;

fn puts(rt: &impl Wait, mail: &Mail<u32>, mut put: PutPass<u32>, rounds: u32)
    requires { put.mail ≡ mail.now.line }
{
    for i in 0..rounds {
        let _ = mail.put(rt, &mut put, i);
    }
}

// Waits for one item.
fn next_item(rt: &impl Wait, mail: &Mail<u32>, get: &mut GetPass<u32>)
    requires { get.old.mail ≡ mail.now.line }
    ensures { get.new.mail ≡ mail.now.line }
{
    for _ in rt.forever() {
        if mail.get(rt, get).is_some() {
            return;
        }
        thread::yield_now();
    }
}

// How many items were got.
fn gets(rt: &impl Wait, mail: &Mail<u32>, mut get: GetPass<u32>, rounds: u32) -> u32
    requires { get.mail ≡ mail.now.line }
    ensures { result ≤ rounds }
{
    let mut got = 0;
    for _ in 0..rounds {
        next_item(rt, mail, &mut get);
        got += 1;
    }
    got
}

// Each item is got as soon as it is put.
fn pairs(
    rt: &impl Wait,
    mail: &Mail<u32>,
    mut put: PutPass<u32>,
    mut get: GetPass<u32>,
    rounds: u32,
) -> u32
    requires put { put.mail ≡ mail.now.line }
    requires get { get.mail ≡ mail.now.line }
    ensures { result ≤ rounds }
{
    let mut got = 0;
    for i in 0..rounds {
        let _ = mail.put(rt, &mut put, i);
        if mail.get(rt, &mut get).is_some() {
            got += 1;
        }
    }
    got
}

/// How many items one thread puts and gets, or `None` where memory runs out.
pub fn by_one<R: Wait>(rt: &R, alloc: Global, rounds: u32) -> Option<u32>
    ensures { IfSome result (λ n. n ≤ rounds) }
{
    let (mail, put, get) = Mail::new(alloc).ok()?;
    Some(pairs(rt, &mail, put, get, rounds))
}

/// How many items one thread gets that another puts.
pub fn by_two<R: Threads + Wait + Sync>(rt: &R, alloc: Global, rounds: u32) -> Option<u32>
    ensures { IfSome result (λ n. n ≤ rounds) }
{
    let (mail, put, get) = Mail::new(alloc).ok()?;
    let shared = &mail;
    let (_, got) = thread::join(
        rt,
        move || puts(rt, shared, put, rounds),
        move || -> u32
            requires { get.mail ≡ shared.now.line }
            ensures { result ≤ rounds }
        { gets(rt, shared, get, rounds) },
    );
    Some(got)
}
