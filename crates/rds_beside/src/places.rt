ghost use Rattle.std.specs.Prelude.{◌≡◌, length};
ghost use Rattle.std.specs.Fork.{AcceptsAt, AcceptsEach, ChangesAt, ChangesEach};
ghost use Rattle.rds_beside.specs.Places.{AllFrom, ChangesFrom};

use std::thread;
use std::thread::Threads;

/// Calls `f(place, &mut list[place])` for each place of a list, each call on a thread of its own where one can be made. It is meant for short
/// lists: the calling thread makes one thread after another, and then waits for all of them.
pub fn for_each_mut<R: Threads + Sync, T: Send, F: Fn(usize, &mut T) + Sync>(
    rt: &R,
    list: &mut [T],
    f: &F,
)
    requires { AcceptsEach F.Fn f.now list.old }
    ensures { ChangesEach F.Fn f.now list.old list.new }
{
    each_from(rt, f, 0, list);
}

// The calls at the places of a list, the first of which counts as this one. The first goes to a new thread, and the calling thread makes the
// threads of the others.
#[cycle(each)]
fn each_from<R: Threads + Sync, T: Send, F: Fn(usize, &mut T) + Sync>(
    rt: &R,
    f: &F,
    from: usize,
    list: &mut [T],
)
    requires { AllFrom (AcceptsAt F.Fn f.now) from list.old }
    ensures { ChangesFrom (ChangesAt F.Fn f.now) from list.old list.new }
{
    if list.is_empty() {
        return;
    }
    let (one, others) = list.split_at_mut(1);
    both(rt, f, from, one, from + 1, others);
}

// The call at the one place of a list, on a new thread, and those at the places of another list.
#[cycle(each)]
fn both<R: Threads + Sync, T: Send, F: Fn(usize, &mut T) + Sync>(
    rt: &R,
    f: &F,
    from: usize,
    one: &mut [T],
    up: usize,
    others: &mut [T],
)
    requires alone { length one.old ≡ 1 }
    requires one { AllFrom (AcceptsAt F.Fn f.now) from one.old }
    requires others { AllFrom (AcceptsAt F.Fn f.now) up others.old }
    ensures one { ChangesFrom (ChangesAt F.Fn f.now) from one.old one.new }
    ensures others { ChangesFrom (ChangesAt F.Fn f.now) up others.old others.new }
{
    let mut front = ||
        requires { (length one.now ≡ 1) × AllFrom (AcceptsAt F.Fn f.now) from one.now }
        ensures { ChangesFrom (ChangesAt F.Fn f.entry.now) from one.entry.now one.exit.now }
    { at_one(f, from, one) };
    let mut back = ||
        requires { AllFrom (AcceptsAt F.Fn f.now) up others.now }
        ensures { ChangesFrom (ChangesAt F.Fn f.entry.now) up others.entry.now others.exit.now }
    { each_from(rt, f, up, others) };
    thread::join_mut(rt, &mut front, &mut back);
}

// The call at the one place of a list.
fn at_one<T, F: Fn(usize, &mut T)>(f: &F, from: usize, one: &mut [T])
    requires alone { length one.old ≡ 1 }
    requires accepts { AllFrom (AcceptsAt F.Fn f.now) from one.old }
    ensures { ChangesFrom (ChangesAt F.Fn f.now) from one.old one.new }
{
    call(f, from, &mut one[0]);
}

// The call at a place.
fn call<T, F: Fn(usize, &mut T)>(f: &F, from: usize, it: &mut T)
    requires { AcceptsAt F.Fn f.now from it.old }
    ensures { ChangesAt F.Fn f.now from it.old it.new }
{
    f(from, it);
}
