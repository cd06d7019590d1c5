//! Why the lines of a host found bits of the host's own congestion map set.
ghost use Rattle.std.specs.Prelude.{◌≡◌, ◌+◌, ◌≤◌, ◌++◌, All, OnOk, length};
ghost use Rattle.rds_seats.specs.Views.{total};
ghost use Rattle.rds_meter.specs.Grounds.{AreRaisedAmong, seats_of};

use rds_line_parts::LineWords;
use rds_meter::MeterSeat;
use rds_wire::Memory;

/// Joins all seats at the meter of a host, the slots' and the lines'.
pub(crate) fn find_grounds(
    mut slots: Vec<MeterSeat>,
    mut lines: Vec<LineWords>,
) -> Result<(), Memory>
    requires tables { All (λ slot. All (λ line. slot.table ≡ line.table) lines.items) slots.items }
    requires all { total (λ h. seats_of h.view) slots.items + total (λ h. seats_of h.view) lines.items ≡ 4095 }
    ensures { OnOk result (1 ≤ length slots.items → 1 ≤ length lines.items → AreRaisedAmong (slots.items ++ lines.items)) }
{
    if slots.is_empty() {
        return Ok(());
    }
    let Some(last) = lines.pop() else {
        return Ok(());
    };
    add_lines(&mut slots, lines)?;
    let (meter, seat) = last.into_parts();
    slots.push(seat)?;
    meter.gather(slots);
    Ok(())
}

// Adds the seats of these lines to those of the slots.
fn add_lines(seats: &mut Vec<MeterSeat>, lines: Vec<LineWords>) -> Result<(), Memory>
    ensures { OnOk result (seats.new.items ≡ seats.old.items ++ lines.items) }
{
    for line in lines {
        let (_meter, seat) = line.into_parts();
        seats.push(seat)?;
    }
    Ok(())
}
