ghost use Rattle.std.specs.Prelude.{◌≡◌, ◌<◌, ◌≤◌, ◌+◌, ◌^◌, ℕ, IfOk, vec_len};
ghost use Rattle.std.specs.Fork.{GivesEach};
ghost use Rattle.std.specs.Fork.Halves.{GivesFrom};

use std::alloc::{AllocError, Allocator};
use std::thread;
use std::thread::Threads;

/// Calls `f(0)` to `f(count - 1)`, each call on a thread of its own where one can be made, and gives the results in order. It is meant for a
/// small count: the calling thread makes one thread after another, and then waits for all of them.
///
/// # Errors
///
/// Where memory runs out. The results are then let go of, and some calls may not have run.
pub fn map_indices<
    R: Threads + Sync,
    X: Send + Drop,
    A: Allocator + Clone + Send,
    F: Fn(usize) -> X + Sync,
>(rt: &R, alloc: A, count: usize, f: &F) -> Result<Vec<X, A>, AllocError>
    requires { (i : ℕ) → i < count → F.pre f.now i }
    ensures len { IfOk result (λ v. vec_len v ≡ count) }
    ensures each { IfOk result (λ v. GivesEach F.Fn f.now count v.items) }
{
    calls_from(rt, alloc, 0, count, f)
}

// The calls for so many numbers from this one on. The first goes to a new thread, and the calling thread makes the threads of the others.
#[cycle(calls)]
fn calls_from<
    R: Threads + Sync,
    X: Send + Drop,
    A: Allocator + Clone + Send,
    F: Fn(usize) -> X + Sync,
>(rt: &R, alloc: A, from: usize, count: usize, f: &F) -> Result<Vec<X, A>, AllocError>
    requires room { from + count < 2 ^ 64 }
    requires accepts { (i : ℕ) → from ≤ i → i < from + count → F.pre f.now i }
    ensures { IfOk result (λ v. GivesFrom F.Fn f.now from count v.items) }
{
    if count == 0 {
        return Ok(Vec::new(alloc));
    }
    let others = count - 1;
    let up = from + 1;
    let theirs = alloc.clone()?;
    let front = move || -> Result<Vec<X, A>, AllocError>
        requires { (from < 2 ^ 64) × F.pre f.now from }
        ensures { IfOk result (λ v. GivesFrom F.Fn f.entry.now from 1 v.items) }
    { call_once(theirs, from, f) };
    let back = move || -> Result<Vec<X, A>, AllocError>
        requires { (up + others < 2 ^ 64) × ((i : ℕ) → up ≤ i → i < up + others → F.pre f.now i) }
        ensures { IfOk result (λ v. GivesFrom F.Fn f.entry.now up others v.items) }
    { calls_from(rt, alloc, up, others, f) };
    let (one, more) = thread::join(rt, front, back);
    let mut all = one?;
    let mut rest = more?;
    all.append(&mut rest)?;
    Ok(all)
}

// What a call for this number gives.
fn call_once<X: Drop, A: Allocator, F: Fn(usize) -> X>(
    alloc: A,
    from: usize,
    f: &F,
) -> Result<Vec<X, A>, AllocError>
    requires { F.pre f.now from }
    ensures { IfOk result (λ v. GivesFrom F.Fn f.now from 1 v.items) }
{
    let mut one = Vec::new(alloc);
    one.push(f(from))?;
    Ok(one)
}
