//! How a slot is found and taken in hand.
ghost use Rattle.std.specs.Prelude.{◌≡◌, ◌<◌, ℕ, Some, false, true, IfSome, IfNone, slice_get, slice_set, vec_len};
ghost use Rattle.rds_run_callers.specs.declared.state.State.{State as StateView};
ghost use Rattle.rds_run_callers.specs.declared.state.State.TheVariants as state;
ghost use Rattle.rds_run_callers.specs.States.{AreNot, is_vacant, is_port, holds_port};

use crate::slots::Slots;
use crate::state::State;
use crate::tenant::Tenant;
use rds_fmap::Reader;
use rds_socket::Vacant;

/// The slot of the socket that holds the port, and the socket, which is taken out of its place.
pub(crate) fn lift_bound(slots: &mut Slots, port: u16) -> Option<(usize, Tenant)>
    ensures none { IfNone result (AreNot (holds_port port) slots.old.states.items) }
    ensures same { IfNone result (slots.new ≡ slots.old) }
    ensures port { IfSome result (λ r. r.1.socket.port ≡ port) }
    ensures was { IfSome result (λ r. slice_get slots.old.states.items r.0 ≡ Some (state.Bound r.1)) }
    ensures lifted { IfSome result (λ r. slots.new.states.items ≡ slice_set slots.old.states.items r.0 state.Away) }
    ensures within { IfSome result (λ r. r.0 < vec_len slots.new.states) }
{
    let slot = find_bound(slots, port)?;
    match slots.replace(slot, State::Away) {
        State::Bound(tenant) => Some((slot, tenant)),
        _ => unreachable!(),
    }
}

/// The first vacant slot, which is taken out of its place.
pub(crate) fn lift_vacant(slots: &mut Slots) -> Option<(usize, Vacant<Reader>)>
    ensures none { IfNone result (AreNot is_vacant slots.old.states.items) }
    ensures same { IfNone result (slots.new ≡ slots.old) }
    ensures first { IfSome result (λ r. (slot : ℕ) (x : StateView) → slice_get slots.old.states.items slot ≡ Some x → slot < r.0 →
        is_vacant x ≡ false) }
    ensures was { IfSome result (λ r. slice_get slots.old.states.items r.0 ≡ Some (state.Vacant r.1)) }
    ensures lifted { IfSome result (λ r. slots.new.states.items ≡ slice_set slots.old.states.items r.0 state.Away) }
    ensures within { IfSome result (λ r. r.0 < vec_len slots.new.states) }
{
    let slot = find_vacant(slots)?;
    match slots.replace(slot, State::Away) {
        State::Vacant(vacant) => Some((slot, vacant)),
        _ => unreachable!(),
    }
}

/// The slot of the socket that holds the port.
pub(crate) fn find_bound(slots: &Slots, port: u16) -> Option<usize>
    ensures none { IfNone result (AreNot (holds_port port) slots.now.states.items) }
    ensures found { IfSome result (λ slot. (x : StateView) × (slice_get slots.now.states.items slot ≡ Some x) × (holds_port port x ≡ true)) }
    ensures within { IfSome result (λ slot. slot < vec_len slots.now.states) }
{
    if port == 0 {
        return None;
    }
    place_of(&slots.ports, port)
}

// The first place of a port in the list.
fn place_of(ports: &Vec<u16>, port: u16) -> Option<usize>
    ensures none { IfNone result (AreNot (is_port port) ports.now.items) }
    ensures found { IfSome result (λ place. (held : ℕ) × (slice_get ports.now.items place ≡ Some held) × (is_port port held ≡ true)) }
{
    for place in 0..ports.len() {
        if ports[place] == port {
            return Some(place);
        }
    }
    None
}

// The first vacant slot.
fn find_vacant(slots: &Slots) -> Option<usize>
    ensures none { IfNone result (AreNot is_vacant slots.now.states.items) }
    ensures first { IfSome result (λ found. (slot : ℕ) (x : StateView) → slice_get slots.now.states.items slot ≡ Some x → slot < found →
        is_vacant x ≡ false) }
    ensures found { IfSome result (λ slot. (x : StateView) × (slice_get slots.now.states.items slot ≡ Some x) × (is_vacant x ≡ true)) }
    ensures within { IfSome result (λ slot. slot < vec_len slots.now.states) }
{
    for slot in 0..slots.len() {
        if slots.states[slot].is_vacant() {
            return Some(slot);
        }
    }
    None
}
