//! The tables of a new line.
ghost use Rattle.std.specs.Prelude.{◌≡◌, ◌≤◌, All, IfOk, None};
ghost use Rattle.rds_cong.specs.Map.{no_ports};
ghost use Rattle.rds_model.specs.declared.entry.TheConstants.{MAX_SLOTS};
ghost use Rattle.rds_model.specs.declared.journal.TheConstants.{MIN_ENTRIES, MAX_ENTRIES};
ghost use Rattle.rds_line_channel.specs.Channel.{new_channel};
ghost use Rattle.rds_line_channel.specs.Streams.{AreNumbered, IsUnused};

use rds_cong::PortMap;
use rds_line_channel::Channel;
use rds_line_parts::OwnMap;
use rds_link::End;
use rds_model::MAX_SLOTS;
use rds_wire::Memory;
use std::alloc::Global;

// A connection without a past over these streams, and the maps of both hosts, not read yet.
pub(super) fn tables<E: End>(
    alloc: Global,
    me: u32,
    peer: u32,
    streams: Vec<(u32, E)>,
    limit: u32,
) -> Result<(Channel<E>, OwnMap, PortMap), Memory>
    requires least { MIN_ENTRIES ≤ limit }
    requires most { limit ≤ MAX_ENTRIES }
    requires numbered { AreNumbered streams.items }
    requires unused { All (λ stream. IsUnused E.means stream.1) streams.items }
    ensures channel { IfOk result (λ made. made.0 ≡ new_channel me peer MAX_SLOTS limit streams.items) }
    ensures own { IfOk result (λ made. made.1 ≡ record { map = no_ports; change = None }) }
{
    let own = OwnMap::new(alloc)?;
    let peer_map = PortMap::new(alloc)?;
    let channel = Channel::new(alloc, me, peer, MAX_SLOTS, limit, streams)?;
    Ok((channel, own, peer_map))
}
