//! The slots of a caller, and beside them the ports that they hold.
ghost use Rattle.std.specs.Prelude.{◌≡◌, map};
ghost use Rattle.rds_run_callers.specs.States.{port_mark};

use crate::state::State;
use rds_fmap::Reader;
use rds_socket::Vacant;
use rds_wire::Memory;
use std::alloc::Global;
use std::mem;

/// What became of each slot, and beside it the port of its socket, or 0 where none is bound. A search for a port reads the ports alone.
pub(crate) struct Slots {
    pub(crate) states: Vec<State>,
    pub(crate) ports: Vec<u16>,
    ghost marked: { ports.items ≡ map port_mark states.items },
}

// By hand, so that one call drops it wherever it is let go, and no function that owns one drops each field.
impl Drop for Slots {
    fn drop(self) {
        let Self {
            states: _states,
            ports: _ports,
        } = self;
    }
}

impl Slots {
    ghost use Rattle.std.specs.Prelude.{◌≤◌, ◌<◌, Some, IfOk, length, slice_get, slice_set, vec_len};
    ghost use Rattle.rds_run_callers.specs.States.{vacant_states};

    /// Slots none of which is bound.
    pub(crate) fn new(alloc: Global, vacants: Vec<Vacant<Reader>>) -> Result<Slots, Memory>
        ensures states { IfOk result (λ slots. slots.states.items ≡ vacant_states vacants.items) }
        ensures count { IfOk result (λ slots. length slots.states.items ≤ 65535) }
    {
        if vacants.len() > usize::from(u16::MAX) {
            return Err(Memory);
        }
        let mut states = Vec::with_capacity(alloc, vacants.len())?;
        let mut ports = Vec::with_capacity(alloc, vacants.len())?;
        for vacant in vacants {
            states.push(State::Vacant(vacant))?;
            ports.push(0)?;
        }
        Ok(Slots { states, ports })
    }

    /// How many there are.
    pub(crate) fn len(&self) -> usize
        ensures { result ≡ vec_len self.now.states }
    {
        self.states.len()
    }

    /// Puts a state in a slot, and gives back what was there. Each change of a slot goes by this, so that the ports stay right.
    pub(crate) fn replace(&mut self, slot: usize, state: State) -> State
        requires { slot < vec_len self.old.states }
        ensures states { self.new.states.items ≡ slice_set self.old.states.items slot state }
        ensures was { slice_get self.old.states.items slot ≡ Some result }
        ensures count { vec_len self.new.states ≡ vec_len self.old.states }
    {
        self.ports[slot] = state.port();
        mem::replace(&mut self.states[slot], state)
    }

    /// What became of each slot.
    pub(crate) fn into_states(self) -> Vec<State>
        ensures { result ≡ self.states }
    {
        let Self {
            states,
            ports: _ports,
        } = self;
        states
    }
}
