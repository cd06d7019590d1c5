ghost use Rattle.std.specs.Prelude.{◌≡◌, ℕ, ◌<◌, true, false, [], ◌∷◌, ◌==◌, IfOk, List, OnOk, if◌then◌else◌, string_bytes};
ghost use Rattle.rds_cong.specs.Map.{has_port, with_port, without_port};
ghost use Rattle.rds_text.specs.declared.host.TheConstants.{MAX_HOSTS};
ghost use Rattle.rds_model.specs.declared.order.Datagram.{Datagram};
ghost use Rattle.rds_history.specs.Events.{Event, Received};
ghost use Rattle.rds_history.specs.Mark.{update_mark};
ghost use Rattle.rds_history.specs.Sockets.{next_slot, queue};
ghost use Rattle.rds_history.specs.Transcript.{lines};
ghost use Rattle.rds_play_hosts.specs.declared.host.Arrived.{Arrived as ArrivedAt};
ghost use Rattle.rds_play_hosts.specs.Receiving.{HandsOut, KeepsAll};
ghost use Rattle.rds_play_hosts.specs.Telling.{TellsHost};

use crate::host::{Arrived, ScriptHost, ScriptSocket};
use rds_cong::{PortMap, hysteresis};
use rds_text::{mark_line, recv_line};
use rds_wire::Memory;

impl ScriptHost {
    /// Hands out the datagram that has waited longest in a slot, and prints it. Answers whether there was one. `host` is this
    /// host's number, `port` the port of the slot's socket.
    ///
    /// # Errors
    ///
    /// Where there is no memory for the line, or to keep the datagram.
    pub fn hand_out(
        &mut self,
        text: &mut String,
        host: u8,
        port: u16,
        slot: u16,
    ) -> Result<bool, Memory>
        requires { host < MAX_HOSTS }
        ensures none { (past : List Event) → slot < next_slot host past → TellsHost host past self.old → queue host slot past ≡ [] →
            IfOk result (λ some. (some ≡ false) × TellsHost host past self.new) }
        ensures none_text { (past : List Event) → slot < next_slot host past → TellsHost host past self.old → queue host slot past ≡ [] →
            OnOk result (string_bytes text.new ≡ string_bytes text.old) }
        ensures some { (past : List Event) (d : Datagram) (waiting : List Datagram) → slot < next_slot host past →
            TellsHost host past self.old → queue host slot past ≡ d ∷ waiting →
            IfOk result (λ some. (some ≡ true) × TellsHost host (Received host port slot d ∷ past) self.new) }
        ensures some_text { (past : List Event) (d : Datagram) (waiting : List Datagram) → slot < next_slot host past →
            TellsHost host past self.old → queue host slot past ≡ d ∷ waiting → string_bytes text.old ≡ lines past →
            OnOk result (string_bytes text.new ≡ lines (Received host port slot d ∷ past)) }
    {
        let Some(socket) = self.sockets.get_mut(usize::from(slot)) else {
            return Ok(false);
        };
        hand_out(text, socket, host, port)
    }

    /// Sets or clears the congestion bit of a slot's port by what is queued there, and prints the change. `host` is this
    /// host's number.
    ///
    /// # Errors
    ///
    /// Where there is no memory for the line.
    pub fn mark(&mut self, text: &mut String, host: u8, port: u16, slot: u16) -> Result<(), Memory>
        requires { host < MAX_HOSTS }
        ensures told { (past : List Event) → slot < next_slot host past → TellsHost host past self.old →
            OnOk result (TellsHost host (update_mark host port slot past) self.new) }
        ensures text { (past : List Event) → slot < next_slot host past → TellsHost host past self.old → string_bytes text.old ≡ lines past →
            OnOk result (string_bytes text.new ≡ lines (update_mark host port slot past)) }
    {
        let Some(socket) = self.sockets.get(usize::from(slot)) else {
            return Ok(());
        };
        let was = self.map.has(port);
        let is = hysteresis(was, socket.queued, u64::from(socket.rcvbuf));
        if was == is {
            return Ok(());
        }
        set_mark(&mut self.map, port, is);
        mark_line(text, host, port, is, socket.queued, socket.rcvbuf)
    }
}

// Hands out the datagram that has waited longest at a socket, and prints it. Answers whether there was one.
fn hand_out(
    text: &mut String,
    socket: &mut ScriptSocket,
    host: u8,
    port: u16,
) -> Result<bool, Memory>
    requires { host < MAX_HOSTS }
    ensures none { socket.old.queue.items ≡ [] →
        IfOk result (λ some. (some ≡ false) × KeepsAll socket.old socket.new (string_bytes text.old) (string_bytes text.new)) }
    ensures some { (a : ArrivedAt) (waiting : List ArrivedAt) → socket.old.queue.items ≡ a ∷ waiting → IfOk result (λ some.
        (some ≡ true) × HandsOut host port a waiting socket.old socket.new (string_bytes text.old) (string_bytes text.new)) }
{
    let Some(arrived) = socket.queue.pop_front() else {
        return Ok(false);
    };
    let Arrived { from, datagram } = arrived;
    socket.queued = socket
        .queued
        .saturating_sub(u64::from(datagram.payload.len()));
    recv_line(
        text,
        host,
        port,
        from,
        datagram.sport,
        datagram.payload.as_slice(),
    )?;
    socket.got.push(datagram)?;
    Ok(true)
}

// Puts a port in a map, or takes it out.
fn set_mark(map: &mut PortMap, port: u16, is: bool)
    ensures value { map.new ≡ (if is then with_port map.old port else without_port map.old port) }
    ensures ports { (q : ℕ) → has_port map.new q ≡ (if q == port then is else has_port map.old q) }
{
    if is {
        map.set(port);
    } else {
        map.clear(port);
    }
}
