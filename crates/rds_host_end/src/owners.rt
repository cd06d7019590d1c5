//! Which slots had claimed the ports that a host's lines looked up, and which of them was found.
ghost use Rattle.std.specs.Prelude.{◌≡◌, All};
ghost use Rattle.rds_bindtab.specs.Seats.{joined, knowing, note_of_steps};
ghost use Rattle.rds_host_end.specs.Heard.{ClaimsNothing, FitsLooks, HasHeard};

use rds_bindtab::BindSeat;
use rds_line_parts::LinePorts;
use rds_socket_parts::Ports;

/// Tells the seat of each slot at the port table what the lines looked up there.
pub(crate) fn find_owners(mut lines: Vec<LinePorts>, slots: Vec<Ports>)
    requires tables { All (λ slot. All (λ line. slot.table ≡ line.table) lines.items) slots.items }
    requires claims { All (λ line. ClaimsNothing line.view.steps) lines.items }
    ensures { All (λ slot. All (λ line. FitsLooks line.view.steps slot.view) lines.items) slots.items }
{
    if slots.is_empty() {
        return;
    }
    if let Some(last) = lines.pop() {
        let (_table, mut seen) = last.into_parts();
        hear_lines(lines, &mut seen);
        show_slots(slots, &mut seen);
    }
}

// The seat of one line hears of the steps of the other lines' seats.
fn hear_lines(lines: Vec<LinePorts>, seen: &mut BindSeat)
    requires tables { All (λ line. seen.old.table ≡ line.table) lines.items }
    requires claims { All (λ line. ClaimsNothing line.view.steps) lines.items }
    requires own { ClaimsNothing seen.old.view.steps }
    ensures { HasHeard seen.old lines.items seen.new }
{
    for line in lines {
        hear_line(line, seen);
    }
}

// The seat of one line hears of the steps of another line's seat.
fn hear_line(line: LinePorts, seen: &mut BindSeat)
    requires { seen.old.table ≡ line.table }
    ensures { seen.new ≡ knowing seen.old (joined seen.old.view (note_of_steps line.view)) }
{
    let (table, mut seat) = line.into_parts();
    let note = table.note_steps(&mut seat);
    table.hear(seen, note);
}

// The seat of each slot hears what the lines have seen.
fn show_slots(slots: Vec<Ports>, seen: &mut BindSeat)
    requires tables { All (λ slot. slot.table ≡ seen.old.table) slots.items }
    requires claims { ClaimsNothing seen.old.view.steps }
    ensures { All (λ slot. FitsLooks seen.old.view.steps slot.view) slots.items }
{
    for slot in slots {
        show_slot(slot, seen);
    }
}

// The seat of one slot hears what the lines have seen, and a load after that shows what holds of all seats.
fn show_slot(slot: Ports, seen: &mut BindSeat)
    requires table { slot.table ≡ seen.old.table }
    requires claims { ClaimsNothing seen.old.view.steps }
    ensures fits { FitsLooks seen.old.view.steps slot.view }
    ensures same { seen.new ≡ seen.old }
{
    let (table, mut seat) = slot.into_parts();
    let note = table.note_steps(seen);
    table.hear(&mut seat, note);
    table.learn(&mut seat);
}
