//! What a line is made of.
use rds_fmap::MapWriter;
use rds_line_parts::{Boxes, LineOrders, LinePorts, LineWords};
use rds_link::End;

/// What a line is made of, and what it gives back.
#[derive(Drop)]
pub struct LineParts<E: End, M: MapWriter> {
    /// The IPv4 address of this host.
    pub me: u32,
    /// The IPv4 address of the peer.
    pub peer: u32,
    /// The streams in the order in which they are opened, each with its number and this host's end.
    pub streams: Vec<(u32, E)>,
    /// The queue of the orders that sockets have for the peer.
    pub orders: LineOrders,
    /// The mailboxes of the host's slots, from slot 0 upward.
    pub inboxes: Boxes,
    /// The host's port table.
    pub ports: LinePorts,
    /// The host's meter.
    pub words: LineWords,
    /// Who publishes the peer's congestion map.
    pub map: M,
}
