use rds_cong::PortMap;
use rds_model::Order;

/// One of the two ends of a pair.
#[derive(Clone, Copy, Debug, PartialEq, Eq)]
pub enum PairEnd {
    First,
    Second,
}

/// One step of a pair. A step that can't be done is passed over.
#[derive(Drop)]
pub enum PairStep {
    /// A socket of an end gives an order. A cut isn't one that an end takes.
    Order { end: PairEnd, order: Order },
    /// The next stream is opened at both ends, if none is open at either.
    Open,
    /// One end is shut, and what is in flight to it is lost. The other goes on with its stream until it is shut too.
    Shut { end: PairEnd },
    /// Both ends are shut, and what is in flight is lost.
    Cut,
    /// An end, whose host's own congestion map is `map`, pulls the frame that it owes.
    Pull { end: PairEnd, map: PortMap },
    /// At most so many bytes that are in flight to an end are given to it.
    Move { to: PairEnd, bytes: usize },
    /// An end passes the frame that waits: a datagram goes to the socket of `slot`, or no socket holds its port.
    Pass { end: PairEnd, slot: Option<u16> },
}
