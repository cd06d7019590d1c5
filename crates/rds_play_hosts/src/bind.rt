ghost use Rattle.std.specs.Prelude.{◌≡◌, ℕ, ◌<◌, ◌≤◌, ◌-◌, ◌∷◌, find, IfNone, IfOk, List, OnOk, vec_len};
ghost use Rattle.std.specs.List.{range_with_len};
ghost use Rattle.std.specs.Option.{option_map};
ghost use Rattle.rds_history.specs.Bind.{bind_refusal, free_port, is_free};
ghost use Rattle.rds_history.specs.Events.{Event, Bound};
ghost use Rattle.rds_history.specs.Sockets.{next_slot};
ghost use Rattle.rds_text.specs.Refusals.{refusal_text};
ghost use Rattle.rds_play_hosts.specs.Telling.{TellsHost};

use crate::host::{ScriptHost, ScriptSocket};
use rds_model::MAX_SLOTS;
use rds_text::Refusal;
use rds_wire::Memory;
use std::alloc::Global;
use std::collections::VecDeque;

impl ScriptHost {
    /// Binds a socket to a free port, in the next slot. Answers which that is.
    ///
    /// # Errors
    ///
    /// Where there is no memory for it.
    pub fn add(&mut self, alloc: Global, port: u16, sndbuf: u32, rcvbuf: u32) -> Result<u16, Memory>
        requires room { vec_len self.old.sockets < MAX_SLOTS }
        requires roomy { 2 ≤ rcvbuf }
        ensures told { (h : ℕ) (past : List Event) → TellsHost h past self.old → OnOk result
            (TellsHost h (Bound h port (next_slot h past) sndbuf rcvbuf ∷ past) self.new) }
        ensures slot { (h : ℕ) (past : List Event) → TellsHost h past self.old → IfOk result (λ slot. slot ≡ next_slot h past) }
    {
        let slot = self.sockets.len() as u16;
        self.sockets.push(ScriptSocket {
            slot,
            port,
            sndbuf,
            rcvbuf,
            queue: VecDeque::new(alloc),
            queued: 0,
            got: Vec::new(alloc),
        })?;
        self.holders.insert(port, slot)?;
        Ok(slot)
    }

    /// Why a port can't be bound, if it can't. Where it can, there is room for one more socket.
    pub fn bind_refusal(&self, port: u16) -> Option<Refusal>
        ensures room { IfNone result (vec_len self.now.sockets < MAX_SLOTS) }
        ensures why { (h : ℕ) (past : List Event) → TellsHost h past self.now →
            option_map refusal_text result ≡ bind_refusal h port past }
    {
        if self.sockets.len() >= usize::from(MAX_SLOTS) {
            return Some(Refusal::NoSlot);
        }
        if port < 2 {
            return Some(Refusal::Reserved);
        }
        match self.holder(port) {
            Some(slot) => Some(Refusal::InUse {
                word: u64::from(slot) + 1,
            }),
            None => None,
        }
    }

    /// The first port from `start` upward, and round the top to 2, that no socket holds, where the host may bind one more.
    pub fn free_port(&self, start: u16) -> Option<u16>
        ensures { (h : ℕ) (past : List Event) → TellsHost h past self.now → result ≡ free_port h start past }
    {
        if self.sockets.len() >= usize::from(MAX_SLOTS) {
            return None;
        }
        match self.free_within(u32::from(start), 65536) {
            Some(port) => Some(port),
            None => self.free_within(0, u32::from(start)),
        }
    }

    // The first port from `first` to below `end` that no socket holds.
    fn free_within(&self, first: u32, end: u32) -> Option<u16>
        requires { end ≤ 65536 }
        ensures { (h : ℕ) (past : List Event) → TellsHost h past self.now →
            result ≡ find (is_free h past) (range_with_len first (end - first)) }
    {
        for port in first..end {
            if self.is_free(port as u16) {
                return Some(port as u16);
            }
        }
        None
    }

    // Whether a socket could be bound to the port.
    fn is_free(&self, port: u16) -> bool
        ensures { (h : ℕ) (past : List Event) → TellsHost h past self.now → result ≡ is_free h past port }
    {
        port >= 2 && self.holder(port).is_none()
    }
}
