use crate::comparing::{payload, words};
use rds_script::*;
use std::alloc::{AllocError, Global};
use std::process::Abort;
use std::test::Fail;

/// `LINE CAUSE` where the text is refused, `ok` where it is read.
fn answer(alloc: Global, text: &[u8]) -> Result<String, AllocError> {
    match read(alloc, text) {
        Ok(_) => String::from_str(alloc, "ok"),
        Err(ScriptError::BadLine { line, cause }) => format!(in alloc; "{line} {cause}"),
        Err(ScriptError::Memory) => String::from_str(alloc, "memory"),
    }
}

/// These bytes, so many times.
fn repeated(alloc: Global, bytes: &[u8], times: usize) -> Result<Vec<u8>, AllocError> {
    let mut all = Vec::new(alloc);
    for _ in 0..times {
        all.extend_from_slice(bytes)?;
    }
    Ok(all)
}

/// Two parts, the second so many times.
fn joined(alloc: Global, front: &[u8], back: &[u8], times: usize) -> Result<Vec<u8>, AllocError> {
    let mut all = Vec::from_slice(alloc, front)?;
    all.extend_from_slice(repeated(alloc, back, times)?.as_slice())?;
    Ok(all)
}

/// Texts, with `/` for each LF, and what they answer.
const TEXTS: &str = "\
/ | 0 empty\n\
/\r/ # only notes/ | 0 empty\n\
hosts 2 | ok\n\
hosts 8/ | ok\n\
\t hosts\t2 \r/ | ok\n\
hosts 0000000002 | ok\n\
hosts 00000000002 | 1 number\n\
hosts 1 | 1 number\n\
hosts 9 | 1 number\n\
hosts | 1 words\n\
hosts 2 2 | 1 words\n\
Hosts 2 | 1 command\n\
drain/hosts 2 | 1 command\n\
flush | 1 command\n\
hosts 2/hosts 2 | 2 command\n\
#//hosts 2/drain/hosts | 5 command\n\
hosts 2/# \u{7f} | 2 text\n\
hosts 2/#\té | 2 text\n\
hosts 2/\u{b} | 2 text\n\
hosts 2\r | 1 text\n\
hosts 2\r\r/ | 1 text\n\
hosts 2/hosts \u{1} | 2 text\n\
hosts 2/flush 1 2/drain 1 | 2 command\n\
hosts 2/drain//drain now/flush | 4 words\n\
hosts 2/  #drain/# | ok\n\
hosts 2/drain# | 2 command";

/// Lines after `hosts 3`, and what they answer at line 2.
const LINES: &str = "\
bind A 0 1 2 | ok\n\
bind C 65535 16777216 16777216 | ok\n\
bind D 1 1 2 | 2 host\n\
bind a 1 1 2 | 2 host\n\
bind @ 1 1 2 | 2 host\n\
bind AA 1 1 2 | 2 host\n\
bind A 65536 1 2 | 2 number\n\
bind A 1 0 2 | 2 number\n\
bind A 1 16777217 2 | 2 number\n\
bind A 1 1 1 | 2 number\n\
bind A 1 1 16777217 | 2 number\n\
bind A 1 1 | 2 words\n\
bind A 1 1 2 3 | 2 words\n\
bindany B 1 1 2 | ok\n\
bindany B +1 1 2 | 2 number\n\
recv A 1 | ok\n\
recv A | 2 words\n\
recv A -1 | 2 number\n\
recv 1 A | 2 host\n\
cancel A 1 A 2 | ok\n\
cancel A 1 D 2 | 2 host\n\
cancel A x D 2 | 2 number\n\
cancel A 1 B 99999 | 2 number\n\
close B 0000065535 | ok\n\
close B 00000065535 | 2 number\n\
close B 1 1 | 2 words\n\
open A B | ok\n\
open B B | 2 same host\n\
open D D | 2 host\n\
open B D | 2 host\n\
move A B 1 | ok\n\
move A B 4294967295 | ok\n\
move A B 4294967296 | 2 number\n\
move A B 9999999999 | 2 number\n\
move A B 0 | 2 number\n\
move A A 0 | 2 same host\n\
move Z A 0 | 2 host\n\
cut C A | ok\n\
cut C C | 2 same host\n\
cut C | 2 words\n\
drain | ok\n\
drain drain | 2 words\n\
send A 1 A 2 t: | ok\n\
send A 1 B 2 t:#t:~ | ok\n\
send A 1 B 2 t:a b | 2 words\n\
send A 1 B 2 T:a | 2 payload\n\
send A 1 B 2 t | 2 payload\n\
send A 1 B 2 : | 2 payload\n\
send A 1 B 2 x: | ok\n\
send A 1 B 2 x:0aFf | ok\n\
send A 1 B 2 x:0aF | 2 payload\n\
send A 1 B 2 x:0g | 2 payload\n\
send A 1 B 2 f:0000000003 | ok\n\
send A 1 B 2 f:00000000003 | 2 payload\n\
send A 1 B 2 f: | 2 payload\n\
send A 1 B 2 f:2097152 | ok\n\
send A 1 B 2 f:2097153 | 2 payload\n\
send A 1 B 65536 x | 2 number";

/// A part of a row, with LF for each `/`, behind this front.
fn text_of(alloc: Global, front: &str, part: &str) -> Result<Vec<u8>, AllocError> {
    let mut text = Vec::from_slice(alloc, front.as_bytes())?;
    for byte in part.as_bytes() {
        text.push(if *byte == b'/' { b'\n' } else { *byte })?;
    }
    Ok(text)
}

fn answer_of(alloc: Global, front: &str, part: &str) -> Result<String, AllocError> {
    let text = text_of(alloc, front, part)?;
    answer(alloc, text.as_slice())
}

/// Each row of a table answers what it says, behind this front.
fn compare(rt: &impl Abort, alloc: Global, front: &str, rows: &str) -> Result<(), Fail> {
    for row in rows.lines() {
        let (part, expected) = row.split_once(" | ").ok_or("two columns")?;
        let found = answer_of(alloc, front, part)?;
        assert_eq!(rt; found.as_str(), expected, "at {part:?}");
    }
    Ok(())
}

#[test]
fn answers(rt: HostRuntime) -> Result<(), Fail> {
    compare(&rt, rt.alloc(), "", TEXTS)?;
    compare(&rt, rt.alloc(), "hosts 3\n", LINES)
}

/// Texts at the limits: a front, a part so many times, an end, and what they answer.
static LIMITS: [(&str, &str, usize, &str, &str); 19] = [
    ("", "", 0, "", "0 empty"),
    ("hosts 2\n", "\n", 199_999, "", "ok"),
    ("hosts 2\n", "\n", 200_000, "", "200001 lines"),
    ("hosts 2\n", "\n", 199_999, "\u{7f}", "200001 lines"),
    ("hosts 2\n", "#\n", 199_998, "flush", "200000 command"),
    ("hosts 2\n#", "x", 16_777_207, "", "ok"),
    ("hosts 2\n#", "x", 16_777_208, "", "0 too large"),
    ("\u{1}", "x", 16_777_216, "", "0 too large"),
    ("hosts 2\n", "cut A B\n", 1024, "drain", "ok"),
    ("hosts 2\n", "cut A B\n", 1024, "cut A C", "1026 host"),
    ("hosts 2\n", "cut A B\n", 1024, "cut B A", "1026 cuts"),
    (
        "hosts 2\n",
        "send A 9 A 9 f:2097152\n",
        8,
        "send A 9 B 9 f:0",
        "ok",
    ),
    (
        "hosts 2\n",
        "send A 9 A 9 f:2097152\n",
        8,
        "send A 9 B 9 t:a",
        "10 total",
    ),
    ("hosts 2\nsend A 1 B 2 t:", "a", 2_097_152, "", "ok"),
    ("hosts 2\nsend A 1 B 2 t:", "a", 2_097_153, "", "2 payload"),
    ("hosts 2\nsend A 1 B 2 x:", "0f", 2_097_152, "", "ok"),
    ("hosts 2\nsend A 1 B 2 x:", "0f", 2_097_153, "", "2 payload"),
    ("hosts 2\ndrain", " \t", 1_000_000, "1", "2 words"),
    ("hosts 2\n", "1 ", 1_000_000, "", "2 command"),
];

fn answer_at_limit(
    alloc: Global,
    row: &(&str, &str, usize, &str, &str),
) -> Result<String, AllocError> {
    let mut text = joined(alloc, row.0.as_bytes(), row.1.as_bytes(), row.2)?;
    text.extend_from_slice(row.3.as_bytes())?;
    answer(alloc, text.as_slice())
}

#[test]
fn limits(rt: HostRuntime) -> Result<(), Fail> {
    for row in &LIMITS {
        let found = answer_at_limit(rt.alloc(), row)?;
        let front = row.0;
        let part = row.1;
        let times = row.2;
        assert_eq!(rt;
            found.as_str(),
            row.4,
            "at {front:?} and {times} of {part:?}"
        );
    }
    Ok(())
}

/// A script with each command.
const SCRIPT: &str =
    "# all of them\n\nhosts 3\r\nbind A 4000 16777216 2\n\tbindany  B 0 1 16777216\r\n\
send A 4000 C 65535 t:hi!\nsend A 4000 A 1 x:00fFa0\nsend B 7 C 8 f:4\n#\nrecv C 65535\ncancel A 4000 C 1\n\
close B 7\nopen A C\nmove C A 4294967295\ncut B C\ndrain";

/// The lines of its commands, what they are called, and their numbers with 0 behind them.
static TOLD: [(u32, &str, [u32; 4]); 12] = [
    (4, "bind", [0, 4000, 16_777_216, 2]),
    (5, "bindany", [1, 0, 1, 16_777_216]),
    (6, "send", [0, 4000, 2, 65535]),
    (7, "send", [0, 4000, 0, 1]),
    (8, "send", [1, 7, 2, 8]),
    (10, "recv", [2, 65535, 0, 0]),
    (11, "cancel", [0, 4000, 2, 1]),
    (12, "close", [1, 7, 0, 0]),
    (13, "open", [0, 2, 0, 0]),
    (14, "move", [2, 0, 4_294_967_295, 0]),
    (15, "cut", [1, 2, 0, 0]),
    (16, "drain", [0, 0, 0, 0]),
];

/// What its command at this line sends.
fn sent_at(line: u32) -> &'static [u8] {
    match line {
        6 => b"hi!".as_slice(),
        7 => b"\x00\xff\xa0".as_slice(),
        8 => b"\x00\x01\x02\x03".as_slice(),
        _ => b"".as_slice(),
    }
}

fn is_told(rt: &impl Abort, placed: &Placed, row: &(u32, &str, [u32; 4])) {
    let (name, numbers) = words(&placed.command);
    assert_eq!(rt; placed.line, row.0);
    assert_eq!(rt; name, row.1);
    assert_eq!(rt; numbers, row.2);
    assert_eq!(rt; payload(&placed.command), sent_at(placed.line));
}

fn are_told(rt: &impl Abort, commands: &[Placed]) {
    assert_eq!(rt; commands.len(), TOLD.len());
    for (placed, row) in commands.iter().zip(TOLD.iter()) {
        is_told(rt, placed, row);
    }
}

#[test]
fn commands(rt: HostRuntime) -> Result<(), Fail> {
    let script = read(rt.alloc(), SCRIPT.as_bytes())
        .ok()
        .ok_or("the script is read")?;
    assert_eq!(rt; script.hosts, 3);
    assert_eq!(rt; script.hosts_line, 3);
    are_told(&rt, &script.commands);
    Ok(())
}
