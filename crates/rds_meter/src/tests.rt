ghost use Rattle.std.specs.Prelude.{◌≡◌, ◌+◌, ◌<◌, ◌≤◌, ◌^◌};
ghost use Rattle.rds_meter.specs.Places.{freed_word, put_word, part};

use crate::{Mark, Meter, MeterSeat};
use std::test::Fail;
use std::thread;

// A delivery of so many bytes, after which the port's bit is raised where more is queued than the limit allows.
fn deliver(meter: &Meter, seat: &mut MeterSeat, port: u16, n: u32) -> Mark
    requires table { seat.old.table ≡ meter.now }
    requires part { part (put_word 0) seat.old.view.steps + n ≤ 2 ^ 52 }
    ensures { (seat.new.table ≡ meter.now) × (seat.new.slot ≡ seat.old.slot) }
{
    let put = meter.put_add(seat, 0, n);
    let limit = meter.limit(seat, 0);
    let taken = meter.taken(seat, 0);
    let mark = Mark {
        port,
        set: true,
        put,
        taken,
        limit,
    };
    if mark.is_over() {
        meter.raise(seat, &mark);
    }
    mark
}

#[test]
fn a_bit_is_raised_and_lowered(rt: HostRuntime) -> Result<(), Fail> {
    let (meter, mut socket) = Meter::new(rt.alloc(), 1)?;
    let mut line = meter.split(&mut socket);
    meter.own(&mut socket, 0);
    assert_eq!(rt; socket.slot(), Some(0));
    meter.limit_set(&mut socket, 0, 10);
    let full = deliver(&meter, &mut line, 4001, 11);
    assert_eq!(rt; (full.put, full.limit, full.taken), (11, 10, 0));
    assert_eq!(rt; meter.word(&mut socket, 62), 8_589_934_592);
    let mark = Mark {
        set: false,
        taken: meter.take_add(&mut socket, 0, 11),
        ..full
    };
    assert!(rt; mark.is_below_half());
    meter.lower(&mut socket, &mark);
    assert_eq!(rt; meter.word(&mut socket, 62), 0);
    meter.lower_changed(&mut socket, 4001);
    assert_eq!(rt; meter.put(&mut socket, 0), 11);
    assert_eq!(rt;
        (meter.change(&mut socket), meter.bump(&mut socket)),
        (0, 1)
    );
    Ok(())
}

fn frees(meter: &Meter, mut seat: MeterSeat) -> MeterSeat
    requires table { seat.table ≡ meter.now }
    requires part { part (freed_word 0) seat.view.steps ≡ 0 }
    ensures { result.table ≡ meter.now }
{
    meter.free_add(&mut seat, 0, 5);
    seat
}

#[test]
fn two_threads_add_to_one_word(rt: HostRuntime) -> Result<(), Fail> {
    let (meter, mut first) = Meter::new(rt.alloc(), 1)?;
    let second = meter.split(&mut first);
    let shared = &meter;
    let (mut one, other) = thread::join(
        &rt,
        move || frees(shared, first),
        move || frees(shared, second),
    );
    meter.join(&mut one, other);
    assert_eq!(rt; meter.freed(&mut one, 0), 10);
    meter.close(one);
    Ok(())
}
