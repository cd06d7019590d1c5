ghost use Rattle.std.specs.Prelude.{◌≡◌, ◌<◌, IfOk, vec_len};
ghost use Rattle.std.specs.Fork.{AcceptsJobs, GivesJobs};
ghost use Rattle.std.specs.Fork.Halves.{GivesFor};

use std::alloc::{AllocError, Allocator};
use std::thread;
use std::thread::Threads;

/// Calls `f(job)` for each job, each call on a thread of its own where one can be made, and gives the results in order. It is meant for few
/// jobs: the calling thread makes one thread after another, and then waits for all of them.
///
/// # Errors
///
/// Where memory runs out. The results are then let go of, and so may be some jobs with no call.
pub fn map_vec<
    R: Threads + Sync,
    J: Send + Drop,
    X: Send + Drop,
    A: Allocator + Clone + Send,
    F: Fn(J) -> X + Sync,
>(rt: &R, jobs: Vec<J, A>, f: &F) -> Result<Vec<X, A>, AllocError>
    requires { AcceptsJobs F.Fn f.now jobs.items }
    ensures len { IfOk result (λ v. vec_len v ≡ vec_len jobs) }
    ensures each { IfOk result (λ v. GivesJobs F.Fn f.now jobs.items v.items) }
{
    run_jobs(rt, f, jobs)
}

// What the calls for these jobs give. The first job goes to a new thread, and the calling thread makes the threads of the others.
#[cycle(jobs)]
fn run_jobs<
    R: Threads + Sync,
    J: Send + Drop,
    X: Send + Drop,
    A: Allocator + Clone + Send,
    F: Fn(J) -> X + Sync,
>(rt: &R, f: &F, mut first: Vec<J, A>) -> Result<Vec<X, A>, AllocError>
    requires { AcceptsJobs F.Fn f.now first.items }
    ensures { IfOk result (λ v. GivesFor F.Fn f.now first.items v.items) }
{
    if first.is_empty() {
        return at_most_one(f, first);
    }
    let others = first.split_off(1)?;
    let front = move || -> Result<Vec<X, A>, AllocError>
        requires { (vec_len first < 2) × AcceptsJobs F.Fn f.now first.items }
        ensures { IfOk result (λ v. GivesFor F.Fn f.entry.now first.items v.items) }
    { at_most_one(f, first) };
    let back = move || -> Result<Vec<X, A>, AllocError>
        requires { AcceptsJobs F.Fn f.now others.items }
        ensures { IfOk result (λ v. GivesFor F.Fn f.entry.now others.items v.items) }
    { run_jobs(rt, f, others) };
    let (one, more) = thread::join(rt, front, back);
    let mut all = one?;
    let mut rest = more?;
    all.append(&mut rest)?;
    Ok(all)
}

// What a call gives for the job of a list, if it has one.
fn at_most_one<J: Drop, X: Drop, A: Allocator + Clone, F: Fn(J) -> X>(
    f: &F,
    mut jobs: Vec<J, A>,
) -> Result<Vec<X, A>, AllocError>
    requires short { vec_len jobs < 2 }
    requires accepts { AcceptsJobs F.Fn f.now jobs.items }
    ensures { IfOk result (λ v. GivesFor F.Fn f.now jobs.items v.items) }
{
    let mut done = Vec::new(jobs.allocator().clone()?);
    let Some(job) = jobs.pop() else {
        return Ok(done);
    };
    done.push(f(job))?;
    Ok(done)
}
