//! What is left of a caller.
ghost use Rattle.std.specs.Prelude.{◌≡◌, ◌++◌, IfOk, OnOk};
ghost use Rattle.std.specs.Option.{option_to_list};
ghost use Rattle.rds_run_callers.specs.Ends.{AreEndsOf, AreLeft, HaveTheirPorts};
ghost use Rattle.rds_run_callers.specs.States.{AreSlots, shown_all};

use crate::caller::Caller;
use crate::state::State;
use rds_fmap::Reader;
use rds_socket::Closed;
use rds_text::Kept;
use rds_wire::Memory;
use std::alloc::Global;
use std::mem;
use std::sync::Wait;

// What sockets have, and the ends of slots.
type Left = (Vec<Kept>, Vec<Closed<Reader>>);

impl Caller {
    /// Receives all that open sockets still hold, takes out what is unread at ended ones, and answers what each socket has, by
    /// slot, and every slot's end.
    ///
    /// # Errors
    ///
    /// Where there is no memory for the lists.
    pub fn end<R: Wait>(
        self,
        rt: &R,
        alloc: Global,
    ) -> Result<(Vec<Kept>, Vec<Closed<Reader>>), Memory>
        ensures slots { IfOk result (λ r. AreEndsOf self.places r.1.items) }
        ensures kept { IfOk result (λ r. AreLeft self.places r.1.items r.0.items) }
        ensures ports { IfOk result (λ r. HaveTheirPorts self.places r.1.items) }
    {
        end_all(rt, alloc, self.into_states())
    }
}

// What the sockets of these slots have, and every slot's end.
fn end_all<R: Wait>(rt: &R, alloc: Global, mut states: Vec<State>) -> Result<Left, Memory>
    requires { AreSlots states.items }
    ensures slots { IfOk result (λ r. AreEndsOf (shown_all states.items) r.1.items) }
    ensures kept { IfOk result (λ r. AreLeft (shown_all states.items) r.1.items r.0.items) }
    ensures ports { IfOk result (λ r. HaveTheirPorts (shown_all states.items) r.1.items) }
{
    let mut all_kept = Vec::new(alloc);
    let mut all_closed = Vec::with_capacity(alloc, states.len())?;
    for slot in 0..states.len() {
        let state = mem::replace(&mut states[slot], State::Away);
        let (kept, closed) = state.end(rt, alloc)?;
        all_closed.push(closed)?;
        keep(&mut all_kept, kept)?;
    }
    Ok((all_kept, all_closed))
}

// Keeps what a socket has, if there was one.
fn keep(all: &mut Vec<Kept>, kept: Option<Kept>) -> Result<(), Memory>
    ensures { OnOk result (all.new.items ≡ all.old.items ++ option_to_list kept) }
{
    if let Some(kept) = kept {
        all.push(kept)?;
    }
    Ok(())
}
