//! Indexes on two lists.
ghost use Rattle.std.specs.Prelude.{◌≡◌, ◌<◌, IfOk};

use rds_msgs_lists::{Lists, MAX_INDEXES};
use rds_wire::Memory;
use std::alloc::Global;
use std::test::Fail;

/// Pushes an index for a socket.
fn push(lists: &mut Lists, socket: u32) -> Result<(), Memory>
    requires { socket < lists.old.sockets }
    ensures { lists.new.sockets ≡ lists.old.sockets }
{
    lists.reserve(1)?;
    if lists.len() < MAX_INDEXES {
        lists.push(socket);
    }
    Ok(())
}

/// Lists of two sockets, with indexes of socket 0, 1, 0, 0.
fn four(alloc: Global) -> Result<Lists, Memory>
    ensures { IfOk result (λ s. s.sockets ≡ 2) }
{
    let mut lists = Lists::new(alloc, 2)?;
    push(&mut lists, 0)?;
    push(&mut lists, 1)?;
    push(&mut lists, 0)?;
    push(&mut lists, 0)?;
    Ok(lists)
}

/// The indexes on the list of all, each plus 1, as decimal digits.
fn all(lists: &Lists) -> u32 {
    let mut digits: u32 = 0;
    let mut at = lists.first();
    for _ in 0..6 {
        let Some(i) = at else { return digits };
        digits = digits
            .wrapping_mul(10)
            .wrapping_add(i.get())
            .wrapping_add(1);
        at = lists.after(i);
    }
    digits
}

/// Those of a socket.
fn of(lists: &Lists, socket: u32) -> u32
    requires { socket < lists.now.sockets }
{
    let mut digits: u32 = 0;
    let mut at = lists.first_of(socket);
    for _ in 0..6 {
        let Some(i) = at else { return digits };
        digits = digits
            .wrapping_mul(10)
            .wrapping_add(i.get())
            .wrapping_add(1);
        at = lists.after_of(i);
    }
    digits
}

/// The digits of all, of socket 0 and of socket 1.
fn shown(lists: &Lists) -> [u32; 3]
    requires { lists.now.sockets ≡ 2 }
{
    [all(lists), of(lists, 0), of(lists, 1)]
}

/// Takes out what stands behind the first of a socket.
fn remove_second(lists: &mut Lists, socket: u32)
    requires { socket < lists.old.sockets }
    ensures { lists.new.sockets ≡ lists.old.sockets }
{
    let Some(first) = lists.first_of(socket) else {
        return;
    };
    if let Some(second) = lists.after_of(first) {
        lists.remove(second);
    }
}

#[test]
fn indexes_leave_both_lists_and_are_used_again(rt: HostRuntime) -> Result<(), Fail> {
    let mut lists = four(rt.alloc())?;
    assert_eq!(rt; shown(&lists), [1234, 134, 2]);
    remove_second(&mut lists, 0);
    assert_eq!(rt; shown(&lists), [124, 14, 2]);
    push(&mut lists, 1)?;
    assert_eq!(rt; shown(&lists), [1243, 14, 23]);
    remove_second(&mut lists, 1);
    remove_second(&mut lists, 0);
    assert_eq!(rt; shown(&lists), [12, 1, 2]);
    push(&mut lists, 0)?;
    push(&mut lists, 1)?;
    push(&mut lists, 0)?;
    assert_eq!(rt; shown(&lists), [12435, 145, 23]);
    Ok(())
}
