ghost use Rattle.std.specs.Prelude.{◌≡◌, ℕ, ◌<◌, ◌∷◌, List, OnOk, length, string_bytes};
ghost use Rattle.rds_text.specs.declared.host.TheConstants.{MAX_HOSTS};
ghost use Rattle.rds_history.specs.Cancel.{unbind, unmark};
ghost use Rattle.rds_history.specs.Events.{Event, Closed};
ghost use Rattle.rds_history.specs.Sockets.{next_slot, queue};
ghost use Rattle.rds_history.specs.Transcript.{lines};
ghost use Rattle.rds_play_hosts.specs.Telling.{TellsHost};

use crate::host::ScriptHost;
use rds_text::{close_line, mark_line};
use rds_wire::Memory;

impl ScriptHost {
    /// Takes the port from the socket of a slot, and prints how many datagrams are left unread there. A port that was
    /// congested is so no more, which is printed first. `host` is this host's number, `port` the port of the slot's socket.
    ///
    /// # Errors
    ///
    /// Where there is no memory for the lines.
    pub fn unbind(
        &mut self,
        text: &mut String,
        host: u8,
        port: u16,
        slot: u16,
    ) -> Result<(), Memory>
        requires { host < MAX_HOSTS }
        ensures told { (past : List Event) → slot < next_slot host past → TellsHost host past self.old →
            OnOk result (TellsHost host (unbind host port slot past) self.new) }
        ensures text { (past : List Event) → slot < next_slot host past → TellsHost host past self.old → string_bytes text.old ≡ lines past →
            OnOk result (string_bytes text.new ≡ lines (unbind host port slot past)) }
    {
        self.unmark(text, host, port, slot)?;
        self.free(text, host, port, slot)
    }

    // Clears the congestion bit of a port, if it is set, and prints that.
    fn unmark(&mut self, text: &mut String, host: u8, port: u16, slot: u16) -> Result<(), Memory>
        requires { host < MAX_HOSTS }
        ensures told { (past : List Event) → slot < next_slot host past → TellsHost host past self.old →
            OnOk result (TellsHost host (unmark host port slot past) self.new) }
        ensures text { (past : List Event) → slot < next_slot host past → TellsHost host past self.old → string_bytes text.old ≡ lines past →
            OnOk result (string_bytes text.new ≡ lines (unmark host port slot past)) }
    {
        let Some(socket) = self.sockets.get(usize::from(slot)) else {
            return Ok(());
        };
        if !self.map.has(port) {
            return Ok(());
        }
        self.map.clear(port);
        mark_line(text, host, port, false, 0, socket.rcvbuf)
    }

    // Takes the port from the socket of a slot, and prints how many datagrams are left there.
    fn free(&mut self, text: &mut String, host: u8, port: u16, slot: u16) -> Result<(), Memory>
        requires { host < MAX_HOSTS }
        ensures told { (past : List Event) → slot < next_slot host past → TellsHost host past self.old →
            OnOk result (TellsHost host (Closed host port slot (length (queue host slot past)) ∷ past) self.new) }
        ensures text { (past : List Event) → slot < next_slot host past → TellsHost host past self.old → string_bytes text.old ≡ lines past →
            OnOk result (string_bytes text.new ≡ lines (Closed host port slot (length (queue host slot past)) ∷ past)) }
    {
        let Some(socket) = self.sockets.get(usize::from(slot)) else {
            return Ok(());
        };
        self.holders.remove(&port);
        close_line(text, host, port, usize::from(slot), socket.queue.len())
    }
}
