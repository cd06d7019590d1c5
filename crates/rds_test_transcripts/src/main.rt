//! Plays the scripts of `data/`, and compares what is printed with the whole text that stands beside each of them. Those of
//! `runs.cases` are run by threads, and more than one text may be right there; those of `lacking.cases` are run over a wire that opens no
//! stream.
//!
//! The texts of what is played were made by another program, from the documents of the script language alone.
#![tactic(auto)]

mod case;
mod expected;
mod playing;
mod tally;

use crate::case::{Case, cases};
use crate::playing::{answer_to, played_within};
use crate::tally::Tally;
use std::alloc::Global;
use std::fs;
use std::io::Print;
use std::net::Net;
use std::process::ExitCode;
use std::rt::Files;
use std::sync::Wait;
use std::thread::Threads;

/// The files of cases, each named for what its scripts show.
const FILES: [&str; 16] = [
    "binds.cases",
    "sends.cases",
    "receives.cases",
    "moves.cases",
    "cuts.cases",
    "cut_at_each_byte.cases",
    "cut_within_the_map.cases",
    "cancellations.cases",
    "closes.cases",
    "congestion.cases",
    "pings.cases",
    "hosts.cases",
    "full_journals.cases",
    "each_limit.cases",
    "refused_texts.cases",
    "malformed.cases",
];

/// Scripts that are run by threads, and how often each is.
const RUNS: &str = "runs.cases";

const TIMES: u32 = 5;

/// Scripts that are run over a wire that opens no stream. None of them has more streams than this.
const LACKING: &str = "lacking.cases";

const STREAMS: u32 = 96;

/// The examples, each a script `NAME.rds` with its printed text `NAME.txt`.
const EXAMPLES: [&str; 7] = [
    "hello",
    "retransmission",
    "cancellation",
    "congestion",
    "ping",
    "three_hosts",
    "full_send_buffer",
];

fn main(rt: HostRuntime) -> anyhow::Result<ExitCode> {
    let mut tally = Tally::default();
    for file in FILES {
        try_cases(&rt, rt.alloc(), file, &mut tally)?;
    }
    try_runs(&rt, rt.alloc(), &mut tally)?;
    try_lacking(&rt, rt.alloc(), &mut tally)?;
    for name in EXAMPLES {
        try_example(&rt, rt.alloc(), name, &mut tally)?;
    }
    println!(rt; "{tally}")?;
    Ok(tally.status())
}

// Plays each case of a file.
fn try_cases<R: Files + Print + Threads + Wait + Net + Sync>(
    rt: &R,
    alloc: Global,
    file: &str,
    tally: &mut Tally,
) -> anyhow::Result<()>
where
    R: AllocGlobal,
{
    let text = fs::read_to_string(rt, file)?;
    for case in cases(alloc, text.as_str())? {
        try_case(rt, alloc, file, &case, tally)?;
    }
    Ok(())
}

// Plays a case by the program's own call, or by `play` with each of its limits.
fn try_case<R: Files + Print + Threads + Wait + Net + Sync>(
    rt: &R,
    alloc: Global,
    file: &str,
    case: &Case,
    tally: &mut Tally,
) -> anyhow::Result<()>
where
    R: AllocGlobal,
{
    let script = case.script.as_bytes();
    let Some(limits) = case.limits else {
        let found = answer_to(rt, alloc, &["play"], Vec::new(alloc), script)?;
        return tally.count(rt, file, case.name.as_str(), case.expects(&found));
    };
    for limit in u64::from(limits.least)..=u64::from(limits.most) {
        let found = played_within(alloc, script, u32::try_from(limit).unwrap_or(u32::MAX))?;
        let name = format!(in alloc; "{} {limit}", case.name)?;
        tally.count(rt, file, name.as_str(), case.expects(&found))?;
    }
    Ok(())
}

// Runs each case of the file of runs, several times.
fn try_runs<R: Files + Print + Threads + Wait + Net + Sync>(
    rt: &R,
    alloc: Global,
    tally: &mut Tally,
) -> anyhow::Result<()>
where
    R: AllocGlobal,
{
    let text = fs::read_to_string(rt, RUNS)?;
    for case in cases(alloc, text.as_str())? {
        for _ in 0..TIMES {
            let found = answer_to(rt, alloc, &["run"], Vec::new(alloc), case.script.as_bytes())?;
            tally.count(rt, RUNS, case.name.as_str(), case.expects(&found))?;
        }
    }
    Ok(())
}

// Runs each case of the file of scripts that lack their streams.
fn try_lacking<R: Files + Print + Threads + Wait + Net + Sync>(
    rt: &R,
    alloc: Global,
    tally: &mut Tally,
) -> anyhow::Result<()>
where
    R: AllocGlobal,
{
    let text = fs::read_to_string(rt, LACKING)?;
    for case in cases(alloc, text.as_str())? {
        let fail = (1..=STREAMS).collect(alloc)?;
        let found = answer_to(
            rt,
            alloc,
            &["run", "--wire", "tcp"],
            fail,
            case.script.as_bytes(),
        )?;
        tally.count(rt, LACKING, case.name.as_str(), case.expects(&found))?;
    }
    Ok(())
}

// Plays an example by the program's own call.
fn try_example<R: Files + Print + Threads + Wait + Net + Sync>(
    rt: &R,
    alloc: Global,
    name: &str,
    tally: &mut Tally,
) -> anyhow::Result<()>
where
    R: AllocGlobal,
{
    let script = fs::read_to_string(rt, format!(in alloc; "examples/{name}.rds")?)?;
    let expected = fs::read_to_string(rt, format!(in alloc; "examples/{name}.txt")?)?;
    let found = answer_to(rt, alloc, &["play"], Vec::new(alloc), script.as_bytes())?;
    tally.count(
        rt,
        "examples",
        name,
        found.as_slice() == expected.as_bytes(),
    )
}
