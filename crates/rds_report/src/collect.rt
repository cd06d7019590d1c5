ghost use Rattle.std.specs.Prelude.{◌≡◌, ◌++◌, IfOk, OnOk, filter, map, option_copied};
ghost use Rattle.std.specs.List.{flat_map};
ghost use Rattle.rds_model.specs.declared.order.Datagram.{Datagram as Message};
ghost use Rattle.rds_report.specs.Item as what;
ghost use Rattle.rds_text.specs.FinalState.{past_of, past_with};
ghost use Rattle.rds_text.specs.FinalViews.{host_view, host_views, side_view, socket_view};
ghost use Rattle.rds_report.specs.Items.{is_to, item, items_to as items_of, host_items, side_items, came_items, read_items, arrival_items, socket_items, past_in};

use crate::item::{Group, Item, What};
use crate::sent::add_sent;
use rds_model::{Datagram, Entry, Journal, Outcome};
use rds_text::{HostEnd, Kept};
use rds_wire::Memory;
use std::alloc::Global;

/// The items of the port pairs to the host at an address.
pub fn items_to<'a>(alloc: Global, hosts: &'a [HostEnd], to: u32) -> Result<Vec<Item<'a>>, Memory>
    ensures { IfOk result (λ found. found.items ≡ items_of to (host_views hosts.now)) }
{
    let mut items = Vec::new(alloc);
    items.reserve(about(hosts, to).saturating_mul(2))?;
    for host in hosts {
        add_host(alloc, &mut items, hosts, host, to)?;
    }
    Ok(items)
}

// About how many items the host at an address has of the pairs to it, and the senders too: what came to a socket was accepted.
fn about(hosts: &[HostEnd], to: u32) -> usize {
    for host in hosts {
        if host.addr == to {
            return came(&host.kept);
        }
    }
    0
}

// How many datagrams came to sockets.
fn came(sockets: &[Kept]) -> usize {
    let mut count = 0usize;
    for kept in sockets {
        count = count
            .saturating_add(kept.got.len())
            .saturating_add(kept.unread.len());
    }
    count
}

// The items of a host of the pairs to the host at an address.
fn add_host<'a>(
    alloc: Global,
    items: &mut Vec<Item<'a>>,
    hosts: &[HostEnd],
    host: &'a HostEnd,
    to: u32,
) -> Result<(), Memory>
    ensures { OnOk result (items.new.items ≡ items.old.items ++ filter (is_to to) (host_items (host_views hosts.now) (host_view host.now))) }
{
    for (peer, journal) in &host.journals {
        add_journal(alloc, items, hosts, host.addr, *peer, journal, to)?;
    }
    if host.addr == to {
        add_sockets(items, to, &host.kept)?;
    }
    Ok(())
}

// The items of a host's journal of its connection with a peer, of the pairs to the host at an address.
fn add_journal(
    alloc: Global,
    items: &mut Vec<Item<'_>>,
    hosts: &[HostEnd],
    host: u32,
    peer: u32,
    journal: &Journal,
    to: u32,
) -> Result<(), Memory>
    ensures { OnOk result (items.new.items ≡ items.old.items ++ filter (is_to to)
        (side_items (host_views hosts.now) host (record { peer = peer; past = journal.now.past }))) }
{
    if peer == to {
        let back = journal_of(hosts, peer, host);
        add_sent(alloc, items, host, peer, journal, back)?;
    }
    if host == to {
        add_came(items, peer, host, journal)?;
    }
    Ok(())
}

// The journal that a host keeps of its connection with a peer.
fn journal_of(hosts: &[HostEnd], addr: u32, peer: u32) -> Option<&Journal>
    ensures { past_in (option_copied result) ≡ past_of addr peer (host_views hosts.now) }
{
    for host in hosts {
        if host.addr == addr {
            return journal_with(&host.journals, peer);
        }
    }
    None
}

fn journal_with(journals: &[(u32, Journal)], peer: u32) -> Option<&Journal>
    ensures { past_in (option_copied result) ≡ past_with peer (map side_view journals.now) }
{
    for (with, journal) in journals {
        if *with == peer {
            return Some(journal);
        }
    }
    None
}

// The items of what came from a peer to a host and went to no socket.
fn add_came(items: &mut Vec<Item<'_>>, from: u32, to: u32, journal: &Journal) -> Result<(), Memory>
    ensures { OnOk result (items.new.items ≡ items.old.items ++ came_items from to journal.now.past) }
{
    for entry in journal.entries() {
        add_read(items, from, to, entry)?;
    }
    Ok(())
}

// The items of an entry, where it is a read of what went to no socket.
fn add_read(items: &mut Vec<Item<'_>>, from: u32, to: u32, entry: &Entry) -> Result<(), Memory>
    ensures { OnOk result (items.new.items ≡ items.old.items ++ arrival_items from to entry.now) }
{
    if let Entry::Read { frame, outcome, .. } = entry {
        let group = Group {
            to,
            dport: frame.header.dport,
            from,
            sport: frame.header.sport,
        };
        add_outcome(items, group, *outcome)?;
    }
    Ok(())
}

// The items of a datagram that was read.
fn add_outcome(items: &mut Vec<Item<'_>>, group: Group, outcome: Outcome) -> Result<(), Memory>
    ensures { OnOk result (items.new.items ≡ items.old.items ++ read_items group.to group.dport group.from group.sport outcome) }
{
    match outcome {
        Outcome::NoSocket => items.push(Item {
            group,
            what: What::Dropped,
        })?,
        Outcome::Ping | Outcome::Void => items.push(Item {
            group,
            what: What::Port0,
        })?,
        _ => {}
    }
    Ok(())
}

// The items of the sockets of the host at an address.
fn add_sockets<'a>(items: &mut Vec<Item<'a>>, addr: u32, sockets: &'a [Kept]) -> Result<(), Memory>
    ensures { OnOk result (items.new.items ≡ items.old.items ++ flat_map (socket_items addr) (map socket_view sockets.now)) }
{
    for kept in sockets {
        add_received(items, addr, &kept.got)?;
        add_unread(items, addr, &kept.unread)?;
    }
    Ok(())
}

// The items of what a socket received.
fn add_received<'a>(items: &mut Vec<Item<'a>>, addr: u32, got: &'a [Datagram]) -> Result<(), Memory>
    ensures { OnOk result (items.new.items ≡ items.old.items ++ map
        (λ (d : Message). item addr d.dport d.from d.sport (what.Received d.payload)) got.now) }
{
    for datagram in got {
        let received = Item {
            group: group_of(addr, datagram),
            what: What::Received(&datagram.payload),
        };
        items.push(received)?;
    }
    Ok(())
}

// The items of what a socket left unread.
fn add_unread(items: &mut Vec<Item<'_>>, addr: u32, unread: &[Datagram]) -> Result<(), Memory>
    ensures { OnOk result (items.new.items ≡ items.old.items ++ map (λ (d : Message). item addr d.dport d.from d.sport what.Unread) unread.now) }
{
    for datagram in unread {
        items.push(Item {
            group: group_of(addr, datagram),
            what: What::Unread,
        })?;
    }
    Ok(())
}

fn group_of(addr: u32, datagram: &Datagram) -> Group
    ensures { result ≡ record { to = addr; dport = datagram.now.dport; from = datagram.now.from; sport = datagram.now.sport } }
{
    Group {
        to: addr,
        dport: datagram.dport,
        from: datagram.from,
        sport: datagram.sport,
    }
}
