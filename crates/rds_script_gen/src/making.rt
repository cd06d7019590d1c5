//! The script of a number of sends and a seed.

ghost use Rattle.std.specs.Prelude.{◌≡◌, ◌≤◌, ◌<◌, ◌+◌, ◌*◌, ◌++◌, [], IfOk, length};
ghost use Rattle.rds_script.specs.Script.{IsScript};
ghost use Rattle.rds_script.specs.Grammar.{meaning};
ghost use Rattle.rds_script_gen.specs.Generator.{binds, binds_of, generated, state_after, turn, turns};
ghost use Rattle.rds_script_gen.specs.declared.listing.TheConstants.{MAX_COMMANDS};
ghost use Rattle.rds_script_gen.specs.declared.making.TheConstants.{MAX_SENDS};

use crate::draws::Draws;
use crate::filling::Filling;
use crate::listing::{HOSTS_LINE, Listing};
use crate::route::{FIRST_PORT, HOSTS, Route, SOCKETS};
use rds_script::{Command, Script};
use rds_wire::Memory;
use std::alloc::Global;

/// The most sends that a script may be made of.
pub const MAX_SENDS: u32 = 100_000;

/// The limit of each buffer of each socket, in bytes.
const BUFFER: u32 = 16_777_216;

/// After so many sends stands a cut.
const CUT_EVERY: u32 = 500;

/// The script of so many sends, 1 to 100,000, that this seed gives. It binds 4 sockets on each of 8 hosts, sends from sockets
/// to sockets of other hosts as the seed's draws say, and after each 500th send cuts the stream between its two hosts.
/// Commands have the lines that they would have in a text, where `hosts 8` is line 1.
///
/// It takes time linear in the sends. The payloads of a host share their memory, and count up from 0 with 0 to 63 bytes.
///
/// # Errors
///
/// Where there is no memory for the commands or their payloads.
pub fn generate(alloc: Global, sends: u32, seed: u64) -> Result<Script, Memory>
    requires least { 1 ≤ sends }
    requires most { sends ≤ MAX_SENDS }
    ensures script { IfOk result (λ script. meaning script ≡ generated sends seed) }
    // Each host, port, buffer and payload is in range.
    ensures known { IfOk result IsScript }
{
    let mut listing = Listing::with_room(alloc, command_count(sends))?;
    add_binds(&mut listing)?;
    add_turns(&mut listing, alloc, sends, seed)?;
    Ok(Script {
        hosts: HOSTS,
        hosts_line: HOSTS_LINE,
        commands: listing.into_placed(),
    })
}

/// How many commands the script of so many sends has.
fn command_count(sends: u32) -> usize {
    let binds = usize::from(HOSTS) * usize::from(SOCKETS);
    binds + sends as usize + (sends / CUT_EVERY) as usize
}

/// Adds the binds of all hosts.
fn add_binds(listing: &mut Listing) -> Result<(), Memory>
    requires { listing.old ≡ [] }
    ensures { IfOk result (λ _. listing.new ≡ binds) }
{
    for host in 0..HOSTS {
        add_binds_of(listing, host)?;
    }
    Ok(())
}

/// Adds the binds of a host.
fn add_binds_of(listing: &mut Listing, host: u8) -> Result<(), Memory>
    requires few { length listing.old + 4 ≤ MAX_COMMANDS }
    ensures { IfOk result (λ _. listing.new ≡ listing.old ++ binds_of host) }
{
    for socket in 0..SOCKETS {
        listing.add(Command::Bind {
            host,
            port: FIRST_PORT + u16::from(socket),
            sndbuf: BUFFER,
            rcvbuf: BUFFER,
        })?;
    }
    Ok(())
}

/// Adds all sends and the cuts.
fn add_turns(listing: &mut Listing, alloc: Global, sends: u32, seed: u64) -> Result<(), Memory>
    requires few { length listing.old ≤ 32 }
    requires most { sends ≤ MAX_SENDS }
    ensures { IfOk result (λ _. listing.new ≡ listing.old ++ turns sends seed) }
{
    let mut draws = Draws::new(seed);
    let mut filling = Filling::new(alloc)?;
    for i in 0..sends {
        add_turn(listing, &mut draws, &mut filling, i)?;
    }
    Ok(())
}

/// Adds the send of this number, and a cut if one stands after it.
fn add_turn(
    listing: &mut Listing,
    draws: &mut Draws,
    filling: &mut Filling,
    i: u32,
) -> Result<(), Memory>
    requires few { length listing.old + 2 ≤ MAX_COMMANDS }
    requires number { i < MAX_SENDS }
    ensures state { IfOk result (λ _. draws.new.state ≡ state_after 4 draws.old.state) }
    ensures turn { IfOk result (λ _. listing.new ≡ listing.old ++ turn draws.old.state i) }
{
    let Route {
        host,
        port,
        to,
        dport,
    } = Route::next(draws);
    let payload = filling.payload(host, i)?;
    listing.add(Command::Send {
        host,
        port,
        to,
        dport,
        payload,
    })?;
    if (i + 1) % CUT_EVERY == 0 {
        listing.add(Command::Cut { host, to })?;
    }
    Ok(())
}
