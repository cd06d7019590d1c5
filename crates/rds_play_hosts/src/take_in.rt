ghost use Rattle.std.specs.Prelude.{◌≡◌, ℕ, ◌<◌, ◌∷◌, List, OnOk};
ghost use Rattle.rds_text.specs.declared.host.TheConstants.{MAX_HOSTS};
ghost use Rattle.rds_model.specs.declared.entry.Entry.TheVariants.{Read};
ghost use Rattle.rds_model.specs.declared.entry.Outcome.TheVariants as outcome;
ghost use Rattle.rds_history.specs.Events.{Event, Appended};
ghost use Rattle.rds_history.specs.Sockets.{next_slot};
ghost use Rattle.rds_play_hosts.specs.Receiving.{TakesIn};
ghost use Rattle.rds_play_hosts.specs.Telling.{TellsHost};

use crate::host::{Arrived, ScriptHost, ScriptSocket};
use rds_model::Datagram;
use rds_text::address;
use rds_wire::{Frame, Memory};

impl ScriptHost {
    /// Queues the datagram of a frame, which came from host `from`, at a slot. Its bytes are shared, not copied.
    ///
    /// # Errors
    ///
    /// Where there is no memory for it, or where 2 ^ 64 bytes would wait in the slot.
    pub fn take_in(&mut self, from: u8, frame: &Frame, slot: u16) -> Result<(), Memory>
        requires { from < MAX_HOSTS }
        ensures { (h stream : ℕ) (past : List Event) → TellsHost h past self.old → slot < next_slot h past → OnOk result
            (TellsHost h (Appended h from (Read stream frame.now (outcome.Slot slot)) ∷ past) self.new) }
    {
        let Some(socket) = self.sockets.get_mut(usize::from(slot)) else {
            return Ok(());
        };
        take_in(socket, from, frame)
    }
}

// Queues the datagram of a frame at a socket.
fn take_in(socket: &mut ScriptSocket, from: u8, frame: &Frame) -> Result<(), Memory>
    requires { from < MAX_HOSTS }
    ensures { OnOk result (TakesIn from frame.now socket.old socket.new) }
{
    let payload = frame.payload.share()?;
    let Some(queued) = socket.queued.checked_add(u64::from(payload.len())) else {
        return Err(Memory);
    };
    let datagram = Datagram {
        from: address(from),
        sport: frame.header.sport,
        dport: frame.header.dport,
        payload,
    };
    socket.queue.push_back(Arrived { from, datagram })?;
    socket.queued = queued;
    Ok(())
}
