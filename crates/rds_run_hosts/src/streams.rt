//! The streams of a run.
ghost use Rattle.std.specs.Prelude.{◌≡◌, ℕ, ◌+◌, ◌-◌, ◌≤◌, ◌<◌, [], ◌∷◌, ◌++◌, IfOk, OnErr, OnOk, length};
ghost use Rattle.rds_link.specs.Streaming.{HasRisenBy};
ghost use Rattle.rds_line_channel.specs.Streams.{numbers};
ghost use Rattle.rds_run_rounds.specs.Grid.{rows_of};
ghost use Rattle.rds_script.specs.Grammar.{meaning};
ghost use Rattle.rds_script.specs.Script.{IsScript};
ghost use Rattle.rds_run_hosts.specs.Cuts.{AreFewCuts};
ghost use Rattle.rds_run_hosts.specs.Growing.{AreMissingBeside, AreRowsKnown, GrowsBy, HasRoom, HasThoseBelow, IsCount, LosesNone};
ghost use Rattle.rds_run_hosts.specs.Held.{ends_of_row, ends_prepared};
ghost use Rattle.rds_run_hosts.specs.Preparing.{AreAllCounted, AreAllKnown, AreAllPrepared, ArePrepared};
ghost use Rattle.rds_run_hosts.specs.Streams.{AreAllUnlessLacking, AreAllUnlessRisen, AreMissing, AreNumbersOf, prepared_streams, streams_below, streams_between};

use crate::counts::{MORE_STREAMS, cuts_between, cuts_of};
use crate::returning::{faults_of, give_back_ends, give_back_row, give_back_rows};
use rds_link::{End, Wire, WireError};
use rds_run_rounds::Wanted;
use rds_script::{Placed, Script};
use rds_text::address;
use rds_wire::Memory;
use std::alloc::Global;
use std::net::Net;
use std::sync::Wait;
use std::thread::Threads;

/// A host's ends of the streams to a peer, each with its number.
pub type Ends<E> = Vec<(u32, E)>;

/// The streams of all hosts: for each host its ends to each other one, in ascending order. And what the last rounds have to know of
/// each two hosts, in the rows of both, at the same place as their ends.
#[derive(Drop)]
pub struct Prepared<E: End> {
    pub streams: Vec<Vec<Ends<E>>>,
    pub wanted: Vec<Vec<Wanted>>,
}

// What a host has for the hosts below it.
#[derive(Drop)]
struct Row<E: End> {
    streams: Vec<Ends<E>>,
    wanted: Vec<Wanted>,
}

// The ends of the streams between two hosts, the lower of which has the first, and whether one wasn't opened.
#[derive(Drop)]
struct Opened<E: End> {
    low: Ends<E>,
    high: Ends<E>,
    lacks: bool,
}

impl<E: End> Opened<E> {
    // Makes room for the ends of a stream.
    fn reserve(&mut self) -> Result<(), Memory>
        ensures low { self.new.low.items ≡ self.old.low.items }
        ensures high { self.new.high.items ≡ self.old.high.items }
        ensures lacks { self.new.lacks ≡ self.old.lacks }
        ensures room { OnOk result (HasRoom self.new.low × HasRoom self.new.high) }
    {
        self.low.reserve(1)?;
        self.high.reserve(1)?;
        Ok(())
    }

    // Adds the ends of a stream, for which there is room.
    fn add(&mut self, number: u32, first: E, second: E)
        requires { HasRoom self.old.low × HasRoom self.old.high }
        ensures low { self.new.low.items ≡ self.old.low.items ++ (number, first) ∷ [] }
        ensures high { self.new.high.items ≡ self.old.high.items ++ (number, second) ∷ [] }
        ensures lacks { self.new.lacks ≡ self.old.lacks }
    {
        self.low.push_reserved((number, first));
        self.high.push_reserved((number, second));
    }
}

/// For each two hosts opens as many streams as the script has cuts between them, and three more, numbered from 1. One that fails is
/// left out.
///
/// # Errors
///
/// Where memory runs out. Every end of the streams that were opened is given back to the wire.
pub fn prepare<W: Wire, R: Threads + Wait + Net>(
    rt: &R,
    alloc: Global,
    wire: &mut W,
    script: &Script,
) -> Result<Prepared<W::End>, Memory>
    requires { IsScript script.now }
    ensures prepared { IfOk result (λ p. AreAllPrepared W.End.means script.now.hosts (rows_of p.streams.items)) }
    ensures counted { IfOk result (λ p. AreAllCounted script.now.commands.items (W.counted wire.old).faults (W.counted wire.new).faults (rows_of p.streams.items)) }
    ensures wanted { IfOk result (λ p. AreAllKnown script.now.commands.items (rows_of p.wanted.items) (rows_of p.streams.items)) }
    ensures missing { IfOk result (λ p. AreMissing (prepared_streams (meaning script.now)) (ends_prepared (rows_of p.streams.items))
        (W.counted wire.old).faults (W.counted wire.new).faults) }
    ensures grows { (W.counted wire.old).faults ≤ (W.counted wire.new).faults }
    ensures out { IfOk result (λ p. W.out wire.new ≤ W.out wire.old + ends_prepared (rows_of p.streams.items)) }
    ensures memory { OnErr result (W.out wire.new ≤ W.out wire.old) }
{
    let cuts = cuts_of(alloc, script)?;
    let mut prepared = Prepared {
        streams: Vec::new(alloc),
        wanted: Vec::new(alloc),
    };
    for host in 0..script.hosts {
        let Ok(()) = add_host(rt, alloc, wire, cuts.as_slice(), host, &mut prepared) else {
            give_back_rows(rt, wire, prepared.streams);
            return Err(Memory);
        };
    }
    // Called for its promise alone: the count of faults is a number of 64 bits.
    faults_of(wire);
    Ok(prepared)
}

// Opens the streams between this host and each one below it. Those are all that were prepared so far.
fn add_host<W: Wire, R: Threads + Wait + Net>(
    rt: &R,
    alloc: Global,
    wire: &mut W,
    all_cuts: &[Placed],
    host: u8,
    prepared: &mut Prepared<W::End>,
) -> Result<(), Memory>
    requires cuts { AreFewCuts all_cuts.now }
    requires prepared { AreAllPrepared W.End.means host (rows_of prepared.old.streams.items) }
    requires wanted { AreRowsKnown all_cuts.now (rows_of prepared.old.streams.items) (rows_of prepared.old.wanted.items) }
    ensures prepared { OnOk result (AreAllPrepared W.End.means (host + 1) (rows_of prepared.new.streams.items)) }
    ensures wanted { OnOk result (AreRowsKnown all_cuts.now (rows_of prepared.new.streams.items) (rows_of prepared.new.wanted.items)) }
    ensures counted { (before : ℕ) → before ≤ (W.counted wire.old).faults → IsCount (W.counted wire.new).faults →
        AreAllCounted all_cuts.now before (W.counted wire.old).faults (rows_of prepared.old.streams.items) →
        OnOk result (AreAllCounted all_cuts.now before (W.counted wire.new).faults (rows_of prepared.new.streams.items)) }
    ensures missing { IsCount (W.counted wire.new).faults → OnOk result (AreMissingBeside (streams_below host all_cuts.now)
        (ends_prepared (rows_of prepared.old.streams.items)) (ends_prepared (rows_of prepared.new.streams.items)) (W.counted wire.old).faults (W.counted wire.new).faults) }
    ensures grows { (W.counted wire.old).faults ≤ (W.counted wire.new).faults }
    ensures out { LosesNone (W.out wire.old) (ends_prepared (rows_of prepared.old.streams.items)) (W.out wire.new)
        (ends_prepared (rows_of prepared.new.streams.items)) }
{
    let mut row = Row {
        streams: Vec::new(alloc),
        wanted: Vec::new(alloc),
    };
    for low in 0..host {
        let Ok(()) = add_pair(rt, alloc, wire, all_cuts, low, host, prepared, &mut row) else {
            give_back_row(rt, wire, row.streams);
            return Err(Memory);
        };
    }
    add_row(rt, wire, prepared, row)?;
    Ok(())
}

// Puts the row of a host behind those of the others. Where there is no memory for it, its ends are given back to the wire.
fn add_row<W: Wire, R: Wait>(
    rt: &R,
    wire: &mut W,
    prepared: &mut Prepared<W::End>,
    row: Row<W::End>,
) -> Result<(), Memory>
    ensures streams { OnOk result (prepared.new.streams.items ≡ prepared.old.streams.items ++ row.streams ∷ []) }
    ensures wanted { OnOk result (prepared.new.wanted.items ≡ prepared.old.wanted.items ++ row.wanted ∷ []) }
    ensures same { OnOk result (wire.new ≡ wire.old) }
    ensures faults { (W.counted wire.old).faults ≤ (W.counted wire.new).faults }
    ensures out { LosesNone (W.out wire.old) (ends_prepared (rows_of prepared.old.streams.items) + ends_of_row row.streams.items)
        (W.out wire.new) (ends_prepared (rows_of prepared.new.streams.items)) }
{
    if prepared.streams.reserve(1).is_err() {
        give_back_row(rt, wire, row.streams);
        return Err(Memory);
    }
    prepared.streams.push_reserved(row.streams);
    prepared.wanted.push(row.wanted)?;
    Ok(())
}

// Opens the streams between two hosts. The ends of the lower one go behind those that it has, and those of the higher one into `row`.
fn add_pair<W: Wire, R: Threads + Wait + Net>(
    rt: &R,
    alloc: Global,
    wire: &mut W,
    all_cuts: &[Placed],
    low: u8,
    high: u8,
    prepared: &mut Prepared<W::End>,
    row: &mut Row<W::End>,
) -> Result<(), Memory>
    requires cuts { AreFewCuts all_cuts.now }
    requires streams { low < length prepared.old.streams.items }
    requires below { HasThoseBelow low high (rows_of prepared.old.streams.items) }
    requires known { AreRowsKnown all_cuts.now (rows_of prepared.old.streams.items) (rows_of prepared.old.wanted.items) }
    requires wanted { low < length prepared.old.wanted.items }
    ensures grows { OnOk result (GrowsBy W.End.means low (streams_between low high all_cuts.now) (W.counted wire.old).faults (W.counted wire.new).faults
        (rows_of prepared.old.streams.items) (rows_of prepared.new.streams.items) row.old.streams.items row.new.streams.items) }
    ensures missing { IsCount (W.counted wire.new).faults → OnOk result (AreMissingBeside (streams_between low high all_cuts.now)
        (ends_prepared (rows_of prepared.old.streams.items) + ends_of_row row.old.streams.items)
        (ends_prepared (rows_of prepared.new.streams.items) + ends_of_row row.new.streams.items) (W.counted wire.old).faults (W.counted wire.new).faults) }
    ensures known { OnOk result (AreRowsKnown all_cuts.now (rows_of prepared.new.streams.items) (rows_of prepared.new.wanted.items)) }
    ensures row { OnOk result (length row.new.wanted.items ≡ length row.old.wanted.items + 1) }
    ensures faults { (W.counted wire.old).faults ≤ (W.counted wire.new).faults }
    ensures out { LosesNone (W.out wire.old) (ends_prepared (rows_of prepared.old.streams.items) + ends_of_row row.old.streams.items)
        (W.out wire.new) (ends_prepared (rows_of prepared.new.streams.items) + ends_of_row row.new.streams.items) }
{
    let cuts = cuts_between(all_cuts, low, high);
    let place = usize::from(low);
    let stood = &mut prepared.streams[place];
    stood.reserve(1)?;
    row.streams.reserve(1)?;
    let opened = open_all(rt, alloc, wire, low, high, cuts + MORE_STREAMS)?;
    let lacks = opened.lacks;
    stood.push_reserved(opened.low);
    row.streams.push_reserved(opened.high);
    prepared.wanted[place].push(Wanted { lacks, cuts })?;
    row.wanted.push(Wanted { lacks, cuts })?;
    Ok(())
}

// Opens so many streams between two hosts, numbered from 1. One that fails is left out.
fn open_all<W: Wire, R: Threads + Wait + Net>(
    rt: &R,
    alloc: Global,
    wire: &mut W,
    low: u8,
    high: u8,
    count: u32,
) -> Result<Opened<W::End>, Memory>
    ensures prepared { IfOk result (λ opened. (newest : ℕ) × ArePrepared W.End.means newest opened.low.items opened.high.items) }
    ensures lacks { IfOk result (λ opened. AreAllUnlessLacking count opened.lacks (numbers opened.low.items)) }
    ensures counted { IsCount (W.counted wire.new).faults → IfOk result
        (λ opened. AreNumbersOf count (W.counted wire.old).faults (W.counted wire.new).faults (numbers opened.low.items)) }
    ensures grows { (W.counted wire.old).faults ≤ (W.counted wire.new).faults }
    ensures out { IfOk result (λ opened. W.out wire.new ≤ W.out wire.old + (length opened.low.items + length opened.high.items)) }
    ensures memory { OnErr result (W.out wire.new ≤ W.out wire.old) }
{
    let mut opened = Opened {
        low: Vec::new(alloc),
        high: Vec::new(alloc),
        lacks: false,
    };
    for before in 0..count {
        let Ok(()) = open_next(rt, wire, low, high, &mut opened, before) else {
            give_back_ends(rt, wire, opened.low);
            give_back_ends(rt, wire, opened.high);
            return Err(Memory);
        };
    }
    Ok(opened)
}

// Opens the stream behind so many. One that fails is left out.
fn open_next<W: Wire, R: Threads + Wait + Net>(
    rt: &R,
    wire: &mut W,
    low: u8,
    high: u8,
    opened: &mut Opened<W::End>,
    before: u32,
) -> Result<(), Memory>
    requires room { before < 4294967295 }
    requires prepared { ArePrepared W.End.means before opened.old.low.items opened.old.high.items }
    ensures prepared { OnOk result (ArePrepared W.End.means (before + 1) opened.new.low.items opened.new.high.items) }
    ensures lacks { AreAllUnlessLacking before opened.old.lacks (numbers opened.old.low.items) →
        OnOk result (AreAllUnlessLacking (before + 1) opened.new.lacks (numbers opened.new.low.items)) }
    ensures whole { (first : ℕ) → first ≤ (W.counted wire.old).faults → AreAllUnlessRisen before first (W.counted wire.old).faults (numbers opened.old.low.items) →
        OnOk result (AreAllUnlessRisen (before + 1) first (W.counted wire.new).faults (numbers opened.new.low.items)) }
    ensures missing { (first : ℕ) → IsCount (W.counted wire.new).faults →
        HasRisenBy (before - length (numbers opened.old.low.items)) first (W.counted wire.old).faults →
        OnOk result (HasRisenBy (before + 1 - length (numbers opened.new.low.items)) first (W.counted wire.new).faults) }
    ensures grows { (W.counted wire.old).faults ≤ (W.counted wire.new).faults }
    ensures out { LosesNone (W.out wire.old) (length opened.old.low.items + length opened.old.high.items)
        (W.out wire.new) (length opened.new.low.items + length opened.new.high.items) }
{
    opened.reserve()?;
    let number = before + 1;
    match wire.open(rt, address(low), address(high), number) {
        Ok((first, second)) => {
            opened.add(number, first, second);
            Ok(())
        }
        Err(WireError::Fault) => {
            opened.lacks = true;
            Ok(())
        }
        Err(WireError::Memory) => Err(Memory),
    }
}
