ghost use Rattle.std.specs.Prelude.{◌≡◌};

use rds_wire::Payload;
use std::marker::Model;

/// A port pair, in the order of the report: from port `sport` of the host at `from` to port `dport` of the host at `to`.
#[derive(Clone, Copy, Debug, PartialEq, Eq, PartialOrd, Ord)]
pub struct Group {
    pub to: u32,
    pub dport: u16,
    pub from: u32,
    pub sport: u16,
}

/// What the report counts of one datagram. The bytes are those that a host keeps.
#[derive(Drop)]
pub enum What<'a> {
    Accepted,
    Received(&'a Payload),
    Unread,
    Dropped,
    Port0,
    Cancelled,
}

/// One datagram of a port pair, counted once.
#[derive(Drop)]
pub struct Item<'a> {
    pub group: Group,
    pub what: What<'a>,
}

impl<'a> Model for Item<'a> {
    ghost use Rattle.rds_report.specs.Item.{Item as Piece};
    ghost use Rattle.rds_report.specs.Held.{counted};

    ghost Value = { Piece };

    ghost view = { λ i. record { group = i.group; what = counted i.what } };
}

impl<'a> Item<'a> {
    /// The port pair of the item.
    pub fn group(&self) -> Group
        ensures { result ≡ self.now.group }
    {
        self.group
    }
}
