ghost use Rattle.std.specs.Prelude.{◌≡◌, ◌<◌, length};
ghost use Rattle.rds_msgs_lists.specs.Nodes.{IsWithin, neighbours, with_neighbours, node_at, no_ends, fresh, ring_of, ring_next, ring_previous, unlinked, linked};

use crate::link::{Link, NO_INDEX};

/// The two lists that a node stands on.
#[derive(Clone, Copy)]
pub(crate) enum Side {
    Connection,
    Socket,
}

/// Those before and behind a node on a list; of a list, its first and its last.
#[derive(Clone, Copy)]
pub(crate) struct Neighbours {
    pub(crate) next: Link,
    pub(crate) previous: Link,
}

/// An index on the list of all and on the list of a socket. Of a free one `connection.next` is the next free one.
#[derive(Clone, Copy)]
pub(crate) struct Node {
    pub(crate) connection: Neighbours,
    pub(crate) socket: Neighbours,
    pub(crate) list: u32,
}

const _: () = prove!(size_of::<Node>() == 20);

impl Neighbours {
    pub(crate) fn none() -> Neighbours
        ensures { result ≡ no_ends }
    {
        Neighbours {
            next: Link::none(),
            previous: Link::none(),
        }
    }
}

impl Node {
    /// A node on no list yet, for the list of a socket.
    pub(crate) fn of(list: u32) -> Node
        ensures { result ≡ fresh list }
    {
        Node {
            connection: Neighbours::none(),
            socket: Neighbours::none(),
            list,
        }
    }

    fn at(&self, side: Side) -> Neighbours
        ensures { result ≡ neighbours side self.now }
    {
        match side {
            Side::Connection => self.connection,
            Side::Socket => self.socket,
        }
    }

    fn with(&self, side: Side, by: Neighbours) -> Node
        ensures { result ≡ with_neighbours side by self.now }
    {
        match side {
            Side::Connection => Node {
                connection: by,
                ..*self
            },
            Side::Socket => Node {
                socket: by,
                ..*self
            },
        }
    }
}

fn set_next(side: Side, nodes: &mut [Node], ends: &mut Neighbours, at: Link, next: Link)
    requires { IsWithin at nodes.old }
    ensures ring { ring_of nodes.new ends.new ≡ ring_next side at next (ring_of nodes.old ends.old) }
{
    match at.get() {
        None => ends.next = next,
        Some(k) => {
            let node = nodes[k as usize];
            let mut by = node.at(side);
            by.next = next;
            nodes[k as usize] = node.with(side, by);
        }
    }
}

fn set_previous(side: Side, nodes: &mut [Node], ends: &mut Neighbours, at: Link, previous: Link)
    requires { IsWithin at nodes.old }
    ensures ring { ring_of nodes.new ends.new ≡ ring_previous side at previous (ring_of nodes.old ends.old) }
{
    match at.get() {
        None => ends.previous = previous,
        Some(k) => {
            let node = nodes[k as usize];
            let mut by = node.at(side);
            by.previous = previous;
            nodes[k as usize] = node.with(side, by);
        }
    }
}

#[tactic(auto, unfolding(crate::specs::Nodes::unlinked))]
/// Takes a node off its list: its neighbours become one another's.
pub(crate) fn unlink(side: Side, nodes: &mut [Node], ends: &mut Neighbours, at: u32)
    requires within { at < length nodes.old }
    requires next { IsWithin (neighbours side (node_at nodes.old at)).next nodes.old }
    requires previous { IsWithin (neighbours side (node_at nodes.old at)).previous nodes.old }
    ensures ring { ring_of nodes.new ends.new ≡ unlinked side at (ring_of nodes.old ends.old) }
{
    let by = nodes[at as usize].at(side);
    set_next(side, nodes, ends, by.previous, by.next);
    set_previous(side, nodes, ends, by.next, by.previous);
}

#[tactic(auto, unfolding(crate::specs::Nodes::linked))]
/// Puts a node at the end of a list.
pub(crate) fn link(side: Side, nodes: &mut [Node], ends: &mut Neighbours, at: u32)
    requires within { at < length nodes.old }
    requires few { at < NO_INDEX }
    requires last { IsWithin ends.old.previous nodes.old }
    ensures ring { ring_of nodes.new ends.new ≡ linked side at (ring_of nodes.old ends.old) }
{
    let last = ends.previous;
    set_next(side, nodes, ends, last, Link::to(at));
    set_previous(side, nodes, ends, Link::none(), Link::to(at));
    let by = Neighbours {
        next: Link::none(),
        previous: last,
    };
    nodes[at as usize] = nodes[at as usize].with(side, by);
}
