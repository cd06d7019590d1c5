ghost use Rattle.std.specs.Prelude.{◌≡◌, ℕ, ◌≤◌, ◌<◌, vec_len, Some};
ghost use Rattle.std.specs.BTreeMap as tree;
ghost use Rattle.std.specs.Ordering.{nat_cmp};
ghost use Rattle.rds_text.specs.declared.host.TheConstants.{MAX_HOSTS};
ghost use Rattle.rds_model.specs.declared.entry.TheConstants.{MAX_SLOTS};
ghost use Rattle.rds_text.specs.Hosts.{address_of};

use rds_cong::PortMap;
use rds_model::Datagram;
use rds_wire::Memory;
use std::alloc::Global;
use std::collections::{BTreeMap, VecDeque};

/// A datagram in a socket's queue, and the host that sent it.
#[derive(Drop)]
pub struct Arrived {
    pub from: u8,
    pub datagram: Datagram,
    ghost sender: { from < MAX_HOSTS },
    ghost addressed: { datagram.from ≡ address_of from },
}

/// A socket of a host, bound to a port.
#[derive(Drop)]
pub struct ScriptSocket {
    pub slot: u16,
    pub port: u16,
    /// The limits of the two buffers in bytes.
    pub sndbuf: u32,
    pub rcvbuf: u32,
    /// What was delivered and not received, and how many bytes that is.
    pub queue: VecDeque<Arrived>,
    pub queued: u64,
    /// What was received.
    pub got: Vec<Datagram>,
    ghost roomy: { 2 ≤ rcvbuf },
}

/// A host: its sockets by slot, which of them holds which port, and its congestion map.
#[derive(Drop)]
pub struct ScriptHost {
    pub sockets: Vec<ScriptSocket>,
    pub holders: BTreeMap<u16, u16>,
    pub map: PortMap,
    ghost few: { vec_len sockets ≤ MAX_SLOTS },
    ghost held: { (port slot : ℕ) → tree.get nat_cmp holders port ≡ Some slot → slot < vec_len sockets },
}

impl ScriptHost {
    ghost use Rattle.std.specs.Prelude.{[], IfOk, IfSome, List};
    ghost use Rattle.rds_history.specs.Events.{Event};
    ghost use Rattle.rds_history.specs.Journals.{own_map};
    ghost use Rattle.rds_history.specs.Sockets.{holder, next_slot, send_buffer};
    ghost use Rattle.rds_play_hosts.specs.Telling.{TellsHost};

    /// A host without sockets.
    ///
    /// # Errors
    ///
    /// Where there is no memory for its congestion map.
    pub fn new(alloc: Global) -> Result<ScriptHost, Memory>
        ensures { IfOk result (λ host. (h : ℕ) → TellsHost h [] host) }
    {
        Ok(ScriptHost {
            sockets: Vec::new(alloc),
            holders: BTreeMap::new(alloc),
            map: PortMap::new(alloc)?,
        })
    }

    /// The slot of the socket that holds a port, if one does.
    pub fn holder(&self, port: u16) -> Option<u16>
        ensures holder { (h : ℕ) (past : List Event) → TellsHost h past self.now → result ≡ holder h port past }
        ensures bound { (h : ℕ) (past : List Event) → TellsHost h past self.now → IfSome result (λ slot. slot < next_slot h past) }
        ensures slot { IfSome result (λ slot. slot < MAX_SLOTS) }
    {
        self.holders.get(&port).copied()
    }

    /// The bytes of the send buffer of a slot's socket. It is 0 where the slot has no socket.
    pub fn sndbuf(&self, slot: u16) -> u32
        ensures { (h : ℕ) (past : List Event) → TellsHost h past self.now → slot < next_slot h past →
            result ≡ send_buffer h slot past }
    {
        match self.sockets.get(usize::from(slot)) {
            Some(socket) => socket.sndbuf,
            None => 0,
        }
    }

    /// The host's congestion map.
    pub fn map(&self) -> &PortMap
        ensures { (h : ℕ) (past : List Event) → TellsHost h past self.now → result.now ≡ own_map h past }
    {
        &self.map
    }
}
