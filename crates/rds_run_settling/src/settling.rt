//! What the slots and the lines of a host are told of each other.
ghost use Rattle.std.specs.Prelude.{◌≡◌, ◌<◌, ℕ, Some, length, map, slice_get, slice_set};
ghost use Rattle.rds_fmap.specs.Readers.{WriterView};
ghost use Rattle.rds_line.specs.Line.{LineView};
ghost use Rattle.rds_host.specs.Telling.{AreBoxesTold, AreOrdersTold};
ghost use Rattle.rds_run_callers.specs.Places.{IsUsed, Place, holding_of, spared};
ghost use Rattle.rds_run_settling.specs.Steps.{AreAtTable, ArePortsToldTo, CanTellLine, after_port};
ghost use Rattle.rds_run_settling.specs.Tied.{AreLinesTold, ArePortsTold, AreSlotsTold, AreTied, LineHears, LineLearnsPorts, LinesHear, LinesLearnPorts, PlaceHears, PlacesHear, holdings};

use rds_fmap::Writer;
use rds_host::laws::host_keeps;
use rds_line::Line;
use rds_link::End;
use rds_run_callers::Caller;

/// Gives up the slots that no socket had, and tells each line of a host all orders that its slots have put.
pub fn settle_lines<E: End>(caller: &mut Caller, lines: &mut [Line<E, Writer>])
    requires { AreTied caller.old.places lines.old }
    ensures places { caller.new.places ≡ map spared caller.old.places }
    ensures told { AreLinesTold (holdings caller.new.places) lines.new }
    ensures used { (slot : ℕ) (p : Place) → slice_get caller.new.places slot ≡ Some p → IsUsed p }
    ensures lines { LinesHear lines.old lines.new }
    ensures tied { AreTied caller.new.places lines.new }
{
    host_keeps::<E>();
    caller.leave_vacants();
    for place in 0..lines.len() {
        tell_line(caller, place, &mut lines[place]);
    }
}

// Tells a line all orders that the slots have put on its queue, which is that of their route at this place.
fn tell_line<E: End>(caller: &mut Caller, place: usize, line: &mut Line<E, Writer>)
    requires { CanTellLine caller.old.places place line.old }
    ensures same { caller.new.places ≡ caller.old.places }
    ensures told { AreOrdersTold (holdings caller.old.places) place line.new }
    ensures line { LineHears line.old line.new }
{
    for slot in 0..caller.slots() {
        line.hear_orders(caller.order_note(slot, place));
    }
}

/// Tells the mailbox of each slot of a host all datagrams that its lines have put there.
pub fn settle_slots<E: End>(caller: &mut Caller, lines: &mut [Line<E, Writer>])
    requires tied { AreTied caller.old.places lines.old }
    requires used { (slot : ℕ) (p : Place) → slice_get caller.old.places slot ≡ Some p → IsUsed p }
    ensures places { PlacesHear caller.old.places caller.new.places }
    ensures told { AreSlotsTold (holdings caller.new.places) lines.new }
    ensures lines { lines.new ≡ lines.old }
    ensures tied { AreTied caller.new.places lines.new }
{
    host_keeps::<E>();
    for slot in 0..caller.slots() {
        tell_slot(caller, slot, lines);
    }
}

// Tells the mailbox of a slot all datagrams that the lines have put there.
fn tell_slot<E: End>(caller: &mut Caller, slot: u16, lines: &mut [Line<E, Writer>])
    requires tied { AreTied caller.old.places lines.old }
    requires used { (p : Place) × (slice_get caller.old.places slot ≡ Some p) × IsUsed p }
    ensures places { (p : Place) → slice_get caller.old.places slot ≡ Some p → (q : Place) × (caller.new.places ≡ slice_set caller.old.places slot q)
        × PlaceHears p q × AreBoxesTold (holding_of q) lines.new }
    ensures lines { lines.new ≡ lines.old }
{
    for place in 0..lines.len() {
        caller.hear(slot, lines[place].inbox_note(slot));
    }
}

/// Tells the seat at the port table of each line of a host the port of each socket that is bound.
pub fn settle_ports<E: End>(caller: &mut Caller, lines: &mut [Line<E, Writer>])
    requires { AreTied caller.old.places lines.old }
    ensures places { caller.new.places ≡ caller.old.places }
    ensures told { ArePortsTold caller.new.places lines.new }
    ensures lines { LinesLearnPorts lines.old lines.new }
    ensures tied { AreTied caller.new.places lines.new }
{
    host_keeps::<E>();
    for place in 0..lines.len() {
        tell_ports(caller, &mut lines[place]);
    }
}

// Tells a line's seat the port of each socket that is bound.
fn tell_ports<E: End>(caller: &mut Caller, line: &mut Line<E, Writer>)
    requires { AreAtTable caller.old.places line.old }
    ensures same { caller.new.places ≡ caller.old.places }
    ensures told { ArePortsToldTo (length caller.old.places) caller.old.places line.new }
    ensures line { LineLearnsPorts line.old line.new }
{
    for slot in 0..caller.slots() {
        tell_port(caller, slot, line);
    }
}

// Tells a line's seat the port of a slot's socket, if one is bound.
fn tell_port<E: End>(caller: &mut Caller, slot: u16, line: &mut Line<E, Writer>)
    requires table { (p : Place) × (slice_get caller.old.places slot ≡ Some p) × ((holding_of p).ports.table ≡ line.old.ports.table) }
    ensures same { caller.new.places ≡ caller.old.places }
    ensures told { (p : Place) → slice_get caller.old.places slot ≡ Some p → line.new ≡ after_port p line.old }
{
    if let Some(note) = caller.port_note(slot) {
        line.hear_port(note);
    }
}
