//! How the hosts of a run are made.
ghost use Rattle.std.specs.Prelude.{◌≡◌, ◌≤◌, ◌<◌, ℕ, All, IfOk, [], filter, length, map};
ghost use Rattle.rds_text.specs.declared.host.TheConstants.{MAX_HOSTS};
ghost use Rattle.rds_model.specs.declared.entry.TheConstants.{MAX_SLOTS};
ghost use Rattle.rds_model.specs.declared.journal.TheConstants.{MAX_ENTRIES, MIN_ENTRIES};
ghost use Rattle.rds_text.specs.Hosts.{address_of};
ghost use Rattle.rds_script.specs.Script.{IsScript};
ghost use Rattle.rds_run_rounds.specs.Grid.{others, peer_at, rows_of};
ghost use Rattle.rds_run_hosts.specs.Giving.{HasNewLines, HaveNewLines};
ghost use Rattle.rds_run_hosts.specs.Making.{AreMadeBeside, IsParty};
ghost use Rattle.rds_run_hosts.specs.Obeyed.{AreNewPlaces, is_bind_of as is_bind_of_host, slot_count};
ghost use Rattle.rds_run_hosts.specs.Parties.{AreNewCallers, AreParties};
ghost use Rattle.rds_run_settling.specs.Tied.{AreTied};

use crate::streams::Ends;
use rds_beside::map_indices;
use rds_fmap::Writer;
use rds_host::make;
use rds_line::Line;
use rds_link::End;
use rds_model::MAX_SLOTS;
use rds_run_callers::{Caller, host_of, is_bind};
use rds_run_rounds::Lines;
use rds_run_settling::laws::tied_keeps;
use rds_script::{Placed, Script};
use rds_text::address;
use rds_wire::Memory;
use std::alloc::Global;
use std::thread::Threads;

// Whether the command binds a socket of the host.
fn is_bind_of(placed: &Placed, host: u8) -> bool
    ensures { result ≡ is_bind_of_host host placed.now }
{
    is_bind(&placed.command) && host_of(&placed.command) == Some(host)
}

// How many of the commands bind a socket of the host.
fn binds_of(commands: &[Placed], host: u8) -> usize
    ensures { result ≡ length (filter (is_bind_of_host host) commands.now) }
{
    commands
        .iter()
        .filter(|placed| is_bind_of(placed, host))
        .count()
}

// How many slots a host gets: one for each socket that it may bind, but at least one and at most 1,024.
fn slots(script: &Script, host: u8) -> u16
    ensures some { (1 ≤ result) × (result ≤ MAX_SLOTS) }
    ensures count { result ≡ slot_count host script.now.commands.items }
{
    let binds = binds_of(script.commands.as_slice(), host);
    if binds < 1 {
        return 1;
    }
    if binds > usize::from(MAX_SLOTS) {
        return MAX_SLOTS;
    }
    binds as u16
}

/// The callers of the hosts of a script, and their lines to each other, which have no streams yet.
///
/// # Errors
///
/// Where memory runs out.
pub fn parties<E: End + Send, R: Threads + Sync>(
    rt: &R,
    alloc: Global,
    script: &Script,
    limit: u32,
) -> Result<(Vec<Caller>, Lines<E>), Memory>
    requires script { IsScript script.now }
    requires least { MIN_ENTRIES ≤ limit }
    requires most { limit ≤ MAX_ENTRIES }
    ensures parties { IfOk result (λ p. AreParties script.now.hosts p.0.items (rows_of p.1.items)) }
    ensures new { IfOk result (λ p. AreNewCallers script.now.hosts script.now.commands.items p.0.items) }
    ensures lines { IfOk result (λ p. HaveNewLines limit script.now.hosts (rows_of p.1.items)) }
{
    let mut callers = Vec::new(alloc);
    let mut lines = Vec::new(alloc);
    for party in made_beside(rt, alloc, script, limit)? {
        let (caller, row) = party?;
        callers.push(caller)?;
        lines.push(row)?;
    }
    Ok((callers, lines))
}

// The caller of a host, and its lines.
type Party<E> = (Caller, Vec<Line<E, Writer>>);

// The party of each host, made by a thread of its own.
fn made_beside<E: End + Send, R: Threads + Sync>(
    rt: &R,
    alloc: Global,
    script: &Script,
    limit: u32,
) -> Result<Vec<Result<Party<E>, Memory>>, Memory>
    requires script { IsScript script.now }
    requires least { MIN_ENTRIES ≤ limit }
    requires most { limit ≤ MAX_ENTRIES }
    ensures { IfOk result (λ made. AreMadeBeside limit script.now.hosts script.now.commands.items made.items) }
{
    let make = |host: usize| -> Result<Party<E>, Memory>
        requires { (host < script.now.hosts) × (2 ≤ script.now.hosts) × (script.now.hosts ≤ MAX_HOSTS) × (MIN_ENTRIES ≤ limit) ×
            (limit ≤ MAX_ENTRIES) }
        ensures { IfOk result (IsParty limit script.entry.now.hosts host script.entry.now.commands.items) }
    { party_of(alloc, script, host, limit) };
    let made = map_indices(rt, alloc, usize::from(script.hosts), &make)?;
    Ok(made)
}

// The party of the host with this number.
fn party_of<E: End>(
    alloc: Global,
    script: &Script,
    host: usize,
    limit: u32,
) -> Result<Party<E>, Memory>
    requires host { host < script.now.hosts }
    requires hosts { (2 ≤ script.now.hosts) × (script.now.hosts ≤ MAX_HOSTS) }
    requires least { MIN_ENTRIES ≤ limit }
    requires most { limit ≤ MAX_ENTRIES }
    ensures { IfOk result (IsParty limit script.now.hosts host script.now.commands.items) }
{
    party(alloc, script, host as u8, limit)
}

// The caller of a host, and its lines, a line to each other host.
fn party<E: End>(alloc: Global, script: &Script, host: u8, limit: u32) -> Result<Party<E>, Memory>
    requires hosts { (2 ≤ script.now.hosts) × (script.now.hosts ≤ MAX_HOSTS) }
    requires host { host < script.now.hosts }
    requires least { MIN_ENTRIES ≤ limit }
    requires most { limit ≤ MAX_ENTRIES }
    ensures count { IfOk result (λ p. length p.0.places ≡ slot_count host script.now.commands.items) }
    ensures slots { IfOk result (λ p. AreNewPlaces script.now.hosts host p.0.places) }
    ensures tied { IfOk result (λ p. AreTied p.0.places p.1.items) }
    ensures lines { IfOk result (λ p. HasNewLines limit script.now.hosts host p.1.items) }
{
    let peers = peers(alloc, script.hosts, host)?;
    let slots = slots(script, host);
    let none = no_streams(alloc, peers.len())?;
    let (vacants, lines) = make(alloc, address(host), &peers, slots, none, limit)?;
    tied_keeps::<E>();
    Ok((Caller::new(alloc, host, vacants)?, lines))
}

// No streams to each of so many peers.
fn no_streams<E: End>(alloc: Global, peers: usize) -> Result<Vec<Ends<E>>, Memory>
    ensures count { IfOk result (λ lists. length lists.items ≡ peers) }
    ensures none { IfOk result (λ lists. All (λ list. list.items ≡ []) lists.items) }
{
    let mut lists = Vec::new(alloc);
    for _ in 0..peers {
        lists.push(Vec::new(alloc))?;
    }
    Ok(lists)
}

// The addresses of the other hosts, ascending.
fn peers(alloc: Global, hosts: u8, host: u8) -> Result<Vec<u32>, Memory>
    requires { (1 ≤ hosts) × (hosts ≤ MAX_HOSTS) }
    ensures { IfOk result (λ peers. peers.items ≡ map address_of (others hosts host)) }
{
    let mut peers = Vec::new(alloc);
    for place in 0..hosts - 1 {
        peers.push(address(peer_at(host, place)))?;
    }
    Ok(peers)
}

// The host that a place in a host's row stands for.
fn peer_at(host: u8, place: u8) -> u8
    requires { place < 255 }
    ensures { result ≡ peer_at host place }
{
    if place < host { place } else { place + 1 }
}
