// How a delivery is counted.
ghost use Rattle.std.specs.Prelude.{◌≡◌, ℕ, ◌+◌, ◌≤◌, ◌<◌, ◌^◌};
ghost use Rattle.rds_model.specs.declared.entry.TheConstants.{MAX_SLOTS};
ghost use Rattle.rds_meter.specs.Places.{put_word, part};
ghost use Rattle.rds_meter.specs.Seats.{knowing, after_raise, after_bump, OpensWith, must_raise};
ghost use Rattle.rds_line_parts.specs.Words.{IsAtRest};
ghost use Rattle.rds_line_parts.specs.Delivery.{check_of, after_check, CountsBytes};

use rds_meter::{Mark, Meter, MeterSeat};

// Adds n bytes to the put word, makes the check, and raises the port's bit where the check has to. The mark says what was found,
// and whether the bit was raised.
pub(crate) fn count_put(meter: &Meter, seat: &mut MeterSeat, slot: u16, port: u16, n: u32) -> Mark
    requires table { seat.old.table ≡ meter.now }
    requires slot { slot < MAX_SLOTS }
    requires part { part (put_word slot) seat.old.view.steps + n ≤ 2 ^ 52 }
    requires rest { IsAtRest seat.old.view }
    ensures { CountsBytes slot port n seat.old seat.new result }
{
    let mark = check(meter, seat, slot, port, n);
    if mark.set {
        raise(meter, seat, &mark);
    }
    mark
}

// Adds n bytes to the put word, and then loads the limit and the taken word. The mark is set where a limit was found and put less
// taken is above it.
fn check(meter: &Meter, seat: &mut MeterSeat, slot: u16, port: u16, n: u32) -> Mark
    requires table { seat.old.table ≡ meter.now }
    requires slot { slot < MAX_SLOTS }
    requires part { part (put_word slot) seat.old.view.steps + n ≤ 2 ^ 52 }
    ensures port { result.port ≡ port }
    ensures rule { result.set ≡ must_raise (check_of slot result) }
    ensures seat { seat.new ≡ knowing seat.old (after_check seat.old.view slot n result) }
{
    let put = meter.put_add(seat, slot, n);
    let limit = meter.limit(seat, slot);
    let taken = meter.taken(seat, slot);
    let mut mark = Mark {
        port,
        set: false,
        put,
        taken,
        limit,
    };
    mark.set = mark.is_over();
    mark
}

// Raises the bit of the mark's port, and counts the change.
fn raise(meter: &Meter, seat: &mut MeterSeat, mark: &Mark)
    requires table { seat.old.table ≡ meter.now }
    requires check { OpensWith seat.old.view mark.now }
    ensures { (number : ℕ) × (seat.new ≡ knowing seat.old (after_bump (after_raise seat.old.view mark.now.port) number)) }
{
    meter.raise(seat, mark);
    meter.bump(seat);
}
