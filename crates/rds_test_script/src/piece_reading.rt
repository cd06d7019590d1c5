use crate::comparing::answer;
use std::alloc::{AllocError, Global};
use std::process::Abort;
use std::test::Fail;
use std::thread::Threads;

/// What stands before the first command, and that command.
const HEAD: &str = "\n\r\n \t\n# three hosts\r\n\thosts 3 \r\n";

/// Six lines with five commands.
const LINES: &str = "\
bind A 4000 16777216 65536\r\n\
send A 4000 B 4001 t:hello\n\
# nothing is to be done here\n\
  cancel B 4001 C 65535\t\r\n\
move C A 4294967295\n\
send B 4001 C 4000 x:0aFf\n";

/// Adds a text so many times.
fn add(text: &mut Vec<u8>, part: &str, times: u32) -> Result<(), AllocError> {
    for _ in 0..times {
        text.extend_from_slice(part.as_bytes())?;
    }
    Ok(())
}

/// A head, these parts each so many times, and an end.
fn text_of(alloc: Global, parts: &[(&str, u32)]) -> Result<Vec<u8>, AllocError> {
    let mut text = Vec::new(alloc);
    for part in parts {
        add(&mut text, part.0, part.1)?;
    }
    Ok(text)
}

/// What a text of these parts answers.
fn expect<R: Threads + Sync + Abort>(
    rt: &R,
    alloc: Global,
    parts: &[(&str, u32)],
    expected: &str,
) -> Result<(), Fail> {
    let text = text_of(alloc, parts)?;
    let found = answer(rt, alloc, text.as_slice())?;
    assert_eq!(rt; found.as_str(), expected);
    Ok(())
}

#[test]
fn scripts_are_read(rt: HostRuntime) -> Result<(), Fail> {
    // A short script, one of ten pieces whose last line lacks its end, and one that ends with a blank.
    expect(&rt, rt.alloc(), &[(HEAD, 1), (LINES, 3)], "15 commands")?;
    expect(
        &rt,
        rt.alloc(),
        &[(HEAD, 1), (LINES, 4000), ("drain", 1)],
        "20001 commands",
    )?;
    expect(
        &rt,
        rt.alloc(),
        &[(HEAD, 1), (LINES, 3000), ("\r\n", 1), (" ", 1)],
        "15000 commands",
    )
}

#[test]
fn lines_are_refused(rt: HostRuntime) -> Result<(), Fail> {
    // In the fourth piece, in the last one, in both, and in a second head.
    expect(
        &rt,
        rt.alloc(),
        &[(HEAD, 1), (LINES, 1500), ("flush\n", 1), (LINES, 2500)],
        "9006 command",
    )?;
    expect(
        &rt,
        rt.alloc(),
        &[(HEAD, 1), (LINES, 4000), ("cut A D", 1)],
        "24006 host",
    )?;
    expect(
        &rt,
        rt.alloc(),
        &[
            (HEAD, 1),
            (LINES, 1500),
            ("drain 1\n", 1),
            (LINES, 2500),
            ("?", 1),
        ],
        "9006 words",
    )?;
    expect(
        &rt,
        rt.alloc(),
        &[(HEAD, 1), (LINES, 4000), (HEAD, 1)],
        "24010 command",
    )
}

const SENDS: &str = "send A 1 B 2 f:2097152\n";

const NOTE: &str = "# one of many lines of notes that stand between the sends of this script\n";

/// Sends in three pieces, which come to the limit, or pass it where the last ones are three.
fn expect_sends<R: Threads + Sync + Abort>(
    rt: &R,
    alloc: Global,
    last: u32,
    expected: &str,
) -> Result<(), Fail> {
    let parts = [
        (HEAD, 1),
        (SENDS, 3),
        (NOTE, 2000),
        (SENDS, 3),
        (NOTE, 2000),
        (SENDS, last),
        (NOTE, 1),
    ];
    expect(rt, alloc, &parts, expected)
}

fn expect_cuts<R: Threads + Sync + Abort>(rt: &R, alloc: Global) -> Result<(), Fail> {
    let cuts = [
        (HEAD, 1),
        ("cut A B\n", 500),
        (NOTE, 4000),
        ("cut B C\n", 525),
    ];
    expect(rt, alloc, &cuts, "5030 cuts")
}

/// A head, and so many notes.
fn expect_notes<R: Threads + Sync + Abort>(
    rt: &R,
    alloc: Global,
    count: u32,
    expected: &str,
) -> Result<(), Fail> {
    expect(rt, alloc, &[(HEAD, 1), ("#\n", count)], expected)
}

#[test]
fn limits_are_kept_by_all_pieces_together(rt: HostRuntime) -> Result<(), Fail> {
    expect_sends(&rt, rt.alloc(), 2, "8 commands")?;
    expect_sends(&rt, rt.alloc(), 3, "4014 total")?;
    expect_cuts(&rt, rt.alloc())?;
    expect_notes(&rt, rt.alloc(), 199_995, "0 commands")?;
    expect_notes(&rt, rt.alloc(), 199_996, "200001 lines")
}

#[test]
fn texts_without_a_usual_head(rt: HostRuntime) -> Result<(), Fail> {
    // No end of a line, no command, many notes before the first command, and a first command that is refused.
    expect(
        &rt,
        rt.alloc(),
        &[("hosts 2 ", 1), ("          ", 30_000)],
        "0 commands",
    )?;
    expect(&rt, rt.alloc(), &[("# nothing\n", 30_000)], "0 empty")?;
    expect(
        &rt,
        rt.alloc(),
        &[
            ("# nothing\n", 20_000),
            ("hosts 2\n", 1),
            ("drain\n", 20_000),
        ],
        "20000 commands",
    )?;
    expect(&rt, rt.alloc(), &[("drain\n", 50_000)], "1 command")
}
