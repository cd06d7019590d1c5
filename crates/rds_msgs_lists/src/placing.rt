ghost use Rattle.std.specs.Prelude.{◌≡◌, ◌<◌, Some, None, set, get_or, length};
ghost use Rattle.std.specs.Vec.{vec_capacity};
ghost use Rattle.rds_msgs_lists.specs.Nodes.{CanLeave, CanCome, IsWithin, node_at, no_ends, off_ring, on_ring, index_from, placed_nodes, free_from, freed, short_ring, socket_left, off_both, end_ring, on_both};

use crate::link::{Link, NO_INDEX};
use crate::lists::MAX_INDEXES;
use crate::node::{Neighbours, Node, Side, link, unlink};

/// Takes an index off both lists, and puts it among the free ones.
pub(crate) fn take_off(
    nodes: &mut [Node],
    sockets: &mut [Neighbours],
    ends: &mut Neighbours,
    free: &mut Link,
    at: u32,
)
    requires few { at < NO_INDEX }
    requires can { CanLeave at nodes.old sockets.old }
    ensures ends { ends.new ≡ (short_ring at nodes.old ends.old).ends }
    ensures nodes { nodes.new ≡ freed at free.old (off_both at nodes.old sockets.old ends.old).nodes }
    ensures sockets { sockets.new ≡ set sockets.old (socket_left at nodes.old ends.old) (off_both at nodes.old sockets.old ends.old).ends }
    ensures free { free.new ≡ Some at }
{
    unlink(Side::Connection, nodes, ends, at);
    take_off_socket(nodes, sockets, at);
    free_node(nodes, free, at);
}

/// Takes an index off the list of its socket.
fn take_off_socket(nodes: &mut [Node], sockets: &mut [Neighbours], at: u32)
    requires within { at < length nodes.old }
    requires owned { (node_at nodes.old at).list < length sockets.old }
    requires next { IsWithin (node_at nodes.old at).socket.next nodes.old }
    requires previous { IsWithin (node_at nodes.old at).socket.previous nodes.old }
    ensures nodes { nodes.new ≡ (off_ring at nodes.old sockets.old).nodes }
    ensures ends { sockets.new ≡ set sockets.old (node_at nodes.old at).list (off_ring at nodes.old sockets.old).ends }
{
    let list = nodes[at as usize].list as usize;
    let mut ends = sockets[list];
    unlink(Side::Socket, nodes, &mut ends, at);
    sockets[list] = ends;
}

/// Puts a node on the list of the free ones.
fn free_node(nodes: &mut [Node], free: &mut Link, at: u32)
    requires within { at < length nodes.old }
    requires few { at < NO_INDEX }
    ensures nodes { nodes.new ≡ freed at free.old nodes.old }
    ensures free { free.new ≡ Some at }
{
    let mut node = nodes[at as usize];
    node.connection = Neighbours {
        next: *free,
        previous: Link::none(),
    };
    nodes[at as usize] = node;
    *free = Link::to(at);
}

/// A node for a socket: a free one, or else a new one.
pub(crate) fn take_node(nodes: &mut Vec<Node>, free: &mut Link, socket: u32) -> u32
    requires within { IsWithin free.old nodes.old.items }
    requires few { free.old ≡ None → length nodes.old.items < MAX_INDEXES }
    requires room { free.old ≡ None → length nodes.old.items < vec_capacity nodes.old }
    ensures at { result ≡ index_from free.old nodes.old.items }
    ensures nodes { nodes.new.items ≡ placed_nodes free.old socket nodes.old.items }
    ensures free { free.new ≡ free_from free.old nodes.old.items }
    ensures capacity { vec_capacity nodes.new ≡ vec_capacity nodes.old }
{
    let Some(at) = free.get() else {
        let at = nodes.len() as u32;
        nodes.push_reserved(Node::of(socket));
        return at;
    };
    *free = nodes[at as usize].connection.next;
    nodes[at as usize] = Node::of(socket);
    at
}

/// Puts a node at the end of the list of all and of a socket's.
pub(crate) fn put(
    nodes: &mut [Node],
    sockets: &mut [Neighbours],
    ends: &mut Neighbours,
    socket: u32,
    at: u32,
)
    requires few { at < NO_INDEX }
    requires can { CanCome socket at nodes.old sockets.old ends.old }
    ensures ends { ends.new ≡ (end_ring at nodes.old ends.old).ends }
    ensures nodes { nodes.new ≡ (on_both socket at nodes.old sockets.old ends.old).nodes }
    ensures sockets { sockets.new ≡ set sockets.old socket (on_both socket at nodes.old sockets.old ends.old).ends }
{
    link(Side::Connection, nodes, ends, at);
    put_on_socket(nodes, sockets, socket, at);
}

/// Puts a node at the end of the list of a socket.
fn put_on_socket(nodes: &mut [Node], sockets: &mut [Neighbours], socket: u32, at: u32)
    requires within { at < length nodes.old }
    requires few { at < NO_INDEX }
    requires owned { socket < length sockets.old }
    requires last { IsWithin (get_or sockets.old socket no_ends).previous nodes.old }
    ensures nodes { nodes.new ≡ (on_ring socket at nodes.old sockets.old).nodes }
    ensures ends { sockets.new ≡ set sockets.old socket (on_ring socket at nodes.old sockets.old).ends }
{
    let mut ends = sockets[socket as usize];
    link(Side::Socket, nodes, &mut ends, at);
    sockets[socket as usize] = ends;
}
