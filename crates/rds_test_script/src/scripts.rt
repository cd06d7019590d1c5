//! Scripts that are made of a number and a seed.
use rds_script::{Command, Placed, Script};
use rds_script_gen::*;
use std::alloc::{AllocError, Global};
use std::process::Abort;
use std::test::Fail;

/// A command and its line, with the hosts as numbers and the bytes of a payload one by one.
fn told(alloc: Global, placed: &Placed) -> Result<String, AllocError> {
    let line = placed.line;
    match &placed.command {
        Command::Bind {
            host,
            port,
            sndbuf,
            rcvbuf,
        } => format!(in alloc; "{line} bind {host} {port} {sndbuf} {rcvbuf}"),
        Command::Send {
            host,
            port,
            to,
            dport,
            payload,
        } => {
            let bytes = payload.as_slice();
            format!(in alloc; "{line} send {host} {port} {to} {dport} {bytes:?}")
        }
        Command::Cut { host, to } => format!(in alloc; "{line} cut {host} {to}"),
        _ => format!(in alloc; "{line} another command"),
    }
}

/// The script has so many commands, and these stand at these places.
fn compare(
    rt: &impl Abort,
    alloc: Global,
    script: &Script,
    count: usize,
    rows: &[(usize, &str)],
) -> Result<(), Fail> {
    assert_eq!(rt; script.hosts, 8);
    assert_eq!(rt; script.hosts_line, 1);
    assert_eq!(rt; script.commands.len(), count);
    for (place, expected) in rows {
        let placed = script.commands.get(*place).ok_or("a command")?;
        let found = told(alloc, placed)?;
        assert_eq!(rt; found.as_str(), *expected);
    }
    Ok(())
}

/// Places and commands of 1,000 sends and seed 7, as a program in another language has them.
const SEED_7: [(usize, &str); 14] = [
    (0, "2 bind 0 4000 16777216 16777216"),
    (3, "5 bind 0 4003 16777216 16777216"),
    (4, "6 bind 1 4000 16777216 16777216"),
    (31, "33 bind 7 4003 16777216 16777216"),
    (32, "34 send 6 4003 1 4001 []"),
    (33, "35 send 1 4003 2 4000 [0]"),
    (34, "36 send 3 4002 2 4003 [0, 1]"),
    (35, "37 send 0 4000 4 4002 [0, 1, 2]"),
    (36, "38 send 5 4003 4 4003 [0, 1, 2, 3]"),
    (37, "39 send 0 4001 4 4002 [0, 1, 2, 3, 4]"),
    (38, "40 send 5 4000 2 4001 [0, 1, 2, 3, 4, 5]"),
    (96, "98 send 6 4002 0 4002 []"),
    (532, "534 cut 7 5"),
    (1033, "1035 cut 2 5"),
];

/// The same of the most sends and the greatest seed.
const LIMITS: [(usize, &str); 6] = [
    (32, "34 send 0 4003 4 4002 []"),
    (33, "35 send 0 4003 7 4003 [0]"),
    (34, "36 send 0 4000 3 4002 [0, 1]"),
    (96, "98 send 6 4000 2 4002 []"),
    (97, "99 send 1 4001 0 4002 [0]"),
    (100_231, "100233 cut 6 7"),
];

#[test]
fn commands(rt: HostRuntime) -> Result<(), Fail> {
    let script = generate(rt.alloc(), 1000, 7).ok().ok_or("memory")?;
    compare(&rt, rt.alloc(), &script, 1034, &SEED_7)
}

#[test]
fn limits(rt: HostRuntime) -> Result<(), Fail> {
    let script = generate(rt.alloc(), MAX_SENDS, u64::MAX)
        .ok()
        .ok_or("memory")?;
    compare(&rt, rt.alloc(), &script, 100_232, &LIMITS)?;
    let script = generate(rt.alloc(), 1, 0).ok().ok_or("memory")?;
    compare(&rt, rt.alloc(), &script, 33, &[])
}

/// How many payload bytes the script sends.
fn payload_bytes(script: &Script) -> u64 {
    let mut total: u64 = 0;
    for placed in &script.commands {
        if let Command::Send { payload, .. } = &placed.command {
            total = total.saturating_add(u64::from(payload.len()));
        }
    }
    total
}

#[test]
fn payloads(rt: HostRuntime) -> Result<(), Fail> {
    let script = generate(rt.alloc(), 10_000, 3).ok().ok_or("memory")?;
    // 156 times 0 to 63, and then 0 to 15.
    assert_eq!(rt; payload_bytes(&script), 314_616);
    Ok(())
}
