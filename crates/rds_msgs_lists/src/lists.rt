ghost use Rattle.std.specs.Prelude.{◌≡◌, ℕ, ◌≤◌, ◌<◌, ◌+◌, ◌-◌, max, Some, None, set, get_or, List, [], ◌∷◌, ◌++◌, length, filter, IfOk, IfSome, OnOk, OnErr};
ghost use Rattle.std.specs.List.{All};
ghost use Rattle.rds_msgs_lists.specs.Lists.{Place, IsOn, AtEach, IsDistinct, first_index, of_socket, after_push};

use crate::index::Index;
use crate::link::Link;
use crate::node::{Neighbours, Node};
use crate::placing::{put, take_node, take_off};
use rds_wire::Memory;
use std::alloc::Global;
use std::marker::Model;

/// How many indexes may be made.
pub const MAX_INDEXES: u32 = 4_294_967_294;

/// Indexes, each of which stands on the list of all and on the list of one socket. Contracts see the indexes on the
/// lists in the order of the list of all, each with its socket; how many sockets there are; for how many more indexes
/// there is room; and how many were ever made.
#[derive(Drop)]
pub struct Lists {
    nodes: Vec<Node>,
    sockets: Vec<Neighbours>,
    ends: Neighbours,
    free: Link,
    used: u32,
    spare: u32,
}

impl Model for Lists {
    ghost use Rattle.std.specs.Vec.{vec_capacity};
    ghost use Rattle.rds_msgs_lists.specs.Lists.{ListsView, IsLists, view_of};

    ghost Value = { ListsView };

    ghost view = { λ s. view_of (record { nodes = s.nodes.items; sockets = s.sockets.items; ends = s.ends; free = s.free }) s.used s.spare };

    ghost invariant = { λ s. IsLists (record { nodes = s.nodes.items; sockets = s.sockets.items; ends = s.ends; free = s.free }) s.used s.spare (vec_capacity s.nodes) };
}

impl Lists {
    /// Empty lists for so many sockets.
    ///
    /// # Errors
    ///
    /// Where there is no memory for their ends.
    pub fn new(alloc: Global, sockets: u32) -> Result<Lists, Memory>
        ensures empty { IfOk result (λ s. s ≡ record { places = []; sockets = sockets; spare = 0; made = 0 }) }
    {
        let mut ends = Vec::new(alloc);
        ends.resize(sockets as usize, Neighbours::none())?;
        Ok(Lists {
            nodes: Vec::new(alloc),
            sockets: ends,
            ends: Neighbours::none(),
            free: Link::none(),
            used: 0,
            spare: 0,
        })
    }

    /// Makes room for `n` more indexes.
    ///
    /// # Errors
    ///
    /// Where there is no memory for them. The lists are as before.
    pub fn reserve(&mut self, n: u32) -> Result<(), Memory>
        ensures ok { OnOk result (self.new ≡ record self.old { spare = max self.old.spare n }) }
        ensures err { OnErr result (self.new ≡ self.old) }
    {
        let free = self.nodes.len() as u32 - self.used;
        self.nodes.reserve(n.saturating_sub(free) as usize)?;
        self.spare = self.spare.max(n);
        Ok(())
    }

    /// How many indexes are on the lists.
    pub fn len(&self) -> u32
        ensures len { result ≡ length self.now.places }
        ensures distinct { IsDistinct self.now.places }
        ensures within { (k : ℕ) → IsOn self.now.places k → k < self.now.made }
        ensures owned { All (λ (p : Place). p.socket < self.now.sockets) self.now.places }
        ensures used { length self.now.places ≤ self.now.made }
        ensures most { self.now.made ≤ MAX_INDEXES }
    {
        self.used
    }

    /// Puts an index that is on no list at the end of the list of all and of a socket's: one that was on them before,
    /// or where there is none the least that never was.
    pub fn push(&mut self, socket: u32) -> Index
        requires room { 1 ≤ self.old.spare }
        requires socket { socket < self.old.sockets }
        requires few { length self.old.places < MAX_INDEXES }
        ensures pushed { self.new ≡ after_push result socket self.old }
        ensures off { IsOn self.old.places result → ⊥ }
        ensures next { result ≤ self.old.made }
        ensures all_used { result ≡ self.old.made → length self.old.places ≡ self.old.made }
    {
        let at = take_node(&mut self.nodes, &mut self.free, socket);
        put(
            &mut self.nodes,
            &mut self.sockets,
            &mut self.ends,
            socket,
            at,
        );
        self.used += 1;
        self.spare -= 1;
        Index::to(at)
    }

    /// Takes an index off both lists.
    pub fn remove(&mut self, at: Index)
        requires on { IsOn self.old.places at }
        ensures removed { AtEach self.old.places at (λ before p rest. self.new ≡ record self.old { places = before ++ rest }) }
        ensures rest { self.new ≡ record self.old { places = self.new.places } }
    {
        take_off(
            &mut self.nodes,
            &mut self.sockets,
            &mut self.ends,
            &mut self.free,
            at.get(),
        );
        self.used -= 1;
    }

    /// The first index on the list of all.
    pub fn first(&self) -> Option<Index>
        ensures first { result ≡ first_index self.now.places }
        ensures on { IfSome result (IsOn self.now.places) }
    {
        index(self.ends.next)
    }

    /// What stands behind an index on the list of all.
    pub fn after(&self, at: Index) -> Option<Index>
        requires on { IsOn self.now.places at }
        ensures next { AtEach self.now.places at (λ before p rest. result ≡ first_index rest) }
        ensures on { IfSome result (IsOn self.now.places) }
    {
        index(self.nodes[at.get() as usize].connection.next)
    }

    /// The first index on the list of a socket.
    pub fn first_of(&self, socket: u32) -> Option<Index>
        requires socket { socket < self.now.sockets }
        ensures first { result ≡ first_index (of_socket socket self.now.places) }
        ensures on { IfSome result (IsOn self.now.places) }
    {
        index(self.sockets[socket as usize].next)
    }

    /// What stands behind an index on the list of its socket.
    pub fn after_of(&self, at: Index) -> Option<Index>
        requires on { IsOn self.now.places at }
        ensures next { AtEach self.now.places at (λ before p rest. result ≡ first_index (of_socket p.socket rest)) }
        ensures on { IfSome result (IsOn self.now.places) }
    {
        index(self.nodes[at.get() as usize].socket.next)
    }
}

/// The index of a link.
fn index(at: Link) -> Option<Index>
    ensures { result ≡ at }
{
    Some(Index::to(at.get()?))
}
