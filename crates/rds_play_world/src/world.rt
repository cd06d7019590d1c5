ghost use Rattle.std.specs.Prelude.{◌≡◌, ◌≤◌, ◌<◌, ◌*◌, ◌+◌, IfOk, vec_len};
ghost use Rattle.std.specs.List.{All};
ghost use Rattle.rds_play_world.specs.Fresh.{IsNewHost, IsUnread};
ghost use Rattle.rds_text.specs.declared.host.TheConstants.{MAX_HOSTS};
ghost use Rattle.rds_model.specs.declared.journal.TheConstants.{MIN_ENTRIES, MAX_ENTRIES};

use crate::peer_map::PeerMap;
use rds_play_hosts::ScriptHost;
use rds_play_mesh::Mesh;
use rds_text::MAX_HOSTS;
use rds_wire::Memory;
use std::alloc::Global;

/// All that a script has made: hosts, the connections between them, what they know of one another's congestion, and the
/// transcript.
#[derive(Drop)]
pub struct World {
    pub alloc: Global,
    pub count: u8,
    pub limit: u32,
    pub hosts: Vec<ScriptHost>,
    pub mesh: Mesh,
    pub peers: Vec<PeerMap>,
    pub text: String,
    ghost few: { count ≤ MAX_HOSTS },
    ghost housed: { vec_len hosts ≡ count },
    ghost meshed: { mesh.count ≡ count },
    ghost known: { vec_len peers ≡ MAX_HOSTS * MAX_HOSTS },
}

/// Where what a host knows of a peer's congestion stands.
pub fn place(host: u8, peer: u8) -> usize
    requires host { host < MAX_HOSTS }
    requires peer { peer < MAX_HOSTS }
    ensures is { result ≡ MAX_HOSTS * host + peer }
    ensures within { result < MAX_HOSTS * MAX_HOSTS }
{
    usize::from(MAX_HOSTS) * usize::from(host) + usize::from(peer)
}

// So many hosts, of which nothing has happened.
fn hosts(alloc: Global, count: u8) -> Result<Vec<ScriptHost>, Memory>
    ensures count { IfOk result (λ hosts. vec_len hosts ≡ count) }
    ensures new { IfOk result (λ hosts. All IsNewHost hosts.items) }
{
    let mut hosts = Vec::new(alloc);
    for _ in 0..count {
        hosts.push(ScriptHost::new(alloc)?)?;
    }
    Ok(hosts)
}

// No host has read a map.
fn peers(alloc: Global) -> Result<Vec<PeerMap>, Memory>
    ensures count { IfOk result (λ peers. vec_len peers ≡ MAX_HOSTS * MAX_HOSTS) }
    ensures new { IfOk result (λ peers. All IsUnread peers.items) }
{
    let mut peers = Vec::new(alloc);
    for _ in 0..MAX_HOSTS * MAX_HOSTS {
        peers.push(PeerMap::new())?;
    }
    Ok(peers)
}

impl World {
    ghost use Rattle.std.specs.Prelude.{[]};
    ghost use Rattle.rds_play_world.specs.Telling.{Tells, state};

    /// So many hosts, of which nothing has happened. Each journal may have `limit` entries.
    ///
    /// # Errors
    ///
    /// Where there is no memory for them.
    pub fn new(alloc: Global, count: u8, limit: u32) -> Result<World, Memory>
        requires few { count ≤ MAX_HOSTS }
        requires least { MIN_ENTRIES ≤ limit }
        requires most { limit ≤ MAX_ENTRIES }
        ensures count { IfOk result (λ world. world.count ≡ count) }
        ensures told { IfOk result (λ world. Tells limit count [] (state world)) }
    {
        Ok(World {
            alloc,
            count,
            limit,
            hosts: hosts(alloc, count)?,
            mesh: Mesh::new(alloc, count, limit)?,
            peers: peers(alloc)?,
            text: String::new(alloc),
        })
    }
}
