use rds_link::{MemSink, MemSource, MemWire, OpenGate};
use rds_run::*;
use std::alloc::Global;
use std::net::Net;
use std::sync::Wait;
use std::test::*;
use std::thread::Threads;

const BINDS: &str = "hosts 2\nbind A 4000 65536 65536\nbind B 4001 65536 65536\n";

const READ_FAULT: &str = "read fault\n";

const USAGE: &str = "usage: rds play | rds run [--wire memory|tcp] | rds gen N SEED\n";

// The program's answer for these words, source and sink.
fn main_of<R: Threads + Wait + Net + Sync>(
    rt: &R,
    alloc: Global,
    words: &[String],
    source: &mut MemSource,
    sink: &mut MemSink,
) -> u8 {
    let mut tcp = MemWire::new(alloc, Vec::new(alloc), Vec::new(alloc));
    rds_main(rt, alloc, words, source, sink, &mut tcp, &OpenGate)
}

// Whether there was memory to add each of the words.
pub(crate) fn add_words(alloc: Global, all: &mut Vec<String>, words: &[&str]) -> bool {
    for word in words {
        let Ok(text) = String::from_str(alloc, word) else {
            return false;
        };
        if all.push(text).is_err() {
            return false;
        }
    }
    true
}

// The program's answer for these words, each of which is a text of its own.
fn answer<R: Threads + Wait + Net + Sync>(
    rt: &R,
    alloc: Global,
    words: &[&str],
    source: &mut MemSource,
    sink: &mut MemSink,
) -> Option<u8> {
    let mut all = Vec::new(alloc);
    if !add_words(alloc, &mut all, words) {
        return None;
    }
    Some(main_of(rt, alloc, &all, source, sink))
}

// Whether the program answers these words by the status, and the sink then holds the text.
fn is_held<R: Threads + Wait + Net + Sync>(
    rt: &R,
    alloc: Global,
    words: &[&str],
    source: &mut MemSource,
    sink: &mut MemSink,
    status: u8,
    text: &str,
) -> bool {
    answer(rt, alloc, words, source, sink) == Some(status) && sink.held() == text.as_bytes()
}

// Whether the program answers these words and the bytes of this script by the status and the text.
fn is_answer_to<R: Threads + Wait + Net + Sync>(
    rt: &R,
    alloc: Global,
    words: &[&str],
    script: Vec<u8>,
    status: u8,
    text: &str,
) -> bool {
    let mut source = MemSource::new(script, Vec::new(alloc));
    let mut sink = MemSink::new(alloc, Vec::new(alloc));
    is_held(rt, alloc, words, &mut source, &mut sink, status, text)
}

// Whether the program answers these words and this script by the status and the text.
fn is_answer<R: Threads + Wait + Net + Sync>(
    rt: &R,
    alloc: Global,
    words: &[&str],
    script: &str,
    status: u8,
    text: &str,
) -> bool {
    let Ok(script) = script.as_bytes().to_vec(alloc) else {
        return false;
    };
    is_answer_to(rt, alloc, words, script, status, text)
}

// Whether there was memory to add the lines of a script of eight hosts with so many cuts.
fn add_cuts(script: &mut String, cuts: u32) -> bool {
    if script.push_str("hosts 8\n").is_err() {
        return false;
    }
    for _ in 0..cuts {
        if script.push_str("cut A B\n").is_err() {
            return false;
        }
    }
    true
}

// Whether the program answers these words and a script of eight hosts with so many cuts by the status and the text.
fn is_answer_to_cuts<R: Threads + Wait + Net + Sync>(
    rt: &R,
    alloc: Global,
    words: &[&str],
    cuts: u32,
    status: u8,
    text: &str,
) -> bool {
    let mut script = String::new(alloc);
    add_cuts(&mut script, cuts) && is_answer(rt, alloc, words, script.as_str(), status, text)
}

#[test]
fn no_words_are_answered_by_the_usage_line(rt: HostRuntime) {
    assert!(rt; is_answer(&rt, rt.alloc(), &[], BINDS, 2, USAGE));
}

// Whether a source whose reads with these numbers fail is answered by its fault.
fn is_read_fault<R: Threads + Wait + Net + Sync>(rt: &R, alloc: Global, fail: Vec<u32>) -> bool {
    let Ok(text) = BINDS.as_bytes().to_vec(alloc) else {
        return false;
    };
    let mut source = MemSource::new(text, fail);
    let mut sink = MemSink::new(alloc, Vec::new(alloc));
    is_held(rt, alloc, &["play"], &mut source, &mut sink, 3, READ_FAULT)
}

#[test]
fn a_failing_source(rt: HostRuntime) -> Result<(), Fail> {
    let fail = vec![in rt.alloc(); 1]?;
    assert!(rt; is_read_fault(&rt, rt.alloc(), fail));
    Ok(())
}

// Whether a sink whose writes with these numbers fail is answered by its fault.
fn is_write_fault<R: Threads + Wait + Net + Sync>(rt: &R, alloc: Global, fail: Vec<u32>) -> bool {
    let Ok(text) = BINDS.as_bytes().to_vec(alloc) else {
        return false;
    };
    let mut source = MemSource::new(text, Vec::new(alloc));
    let mut sink = MemSink::new(alloc, fail);
    is_held(rt, alloc, &["play"], &mut source, &mut sink, 4, "")
}

#[test]
fn a_failing_sink(rt: HostRuntime) -> Result<(), Fail> {
    let fail = vec![in rt.alloc(); 1]?;
    assert!(rt; is_write_fault(&rt, rt.alloc(), fail));
    Ok(())
}

#[test]
fn words_of_no_command_that_runs(rt: HostRuntime) {
    let lines: [&[&str]; 14] = [
        &["Play"],
        &["play", "hello.rds"],
        &["play", "--help"],
        &["play", "-h"],
        &["play", "--", "x"],
        &["run", "hello.rds"],
        &["run", "--wire"],
        &["run", "--wire", "pigeon"],
        &["gen", "1"],
        &["gen", "0", "1"],
        &["gen", "100001", "1"],
        &["gen", "1", "18446744073709551616"],
        &["gen", "+5", "7"],
        &["gen", "5", "07"],
    ];
    for words in lines {
        assert!(rt; is_answer(&rt, rt.alloc(), words, BINDS, 2, USAGE));
    }
}

#[test]
fn a_lone_pair_of_dashes_after_play(rt: HostRuntime) {
    assert!(rt; is_answer(&rt, rt.alloc(), &["play", "--"], "hosts 2\n", 0, "end ok\n"));
}

#[test]
fn a_run_over_each_wire(rt: HostRuntime) {
    let lines: [&[&str]; 4] = [
        &["run"],
        &["run", "--wire", "memory"],
        &["run", "--wire=memory"],
        &["run", "--wire", "tcp"],
    ];
    for words in lines {
        assert!(rt; is_answer(&rt, rt.alloc(), words, BINDS, 0, "end ok\n"));
    }
}

#[test]
fn streams_that_are_not_too_many(rt: HostRuntime) {
    let words = ["run", "--wire", "tcp"];
    assert!(rt; is_answer_to_cuts(&rt, rt.alloc(), &words, 12, 0, "end ok\n"));
}

#[test]
fn too_many_streams(rt: HostRuntime) {
    let words = ["run", "--wire", "tcp"];
    assert!(rt; is_answer_to_cuts(&rt, rt.alloc(), &words, 13, 9, "too many streams 97\n"));
}

#[test]
fn more_streams_in_memory(rt: HostRuntime) {
    assert!(rt; is_answer_to_cuts(&rt, rt.alloc(), &["run"], 13, 0, "end ok\n"));
}

#[test]
fn a_run_of_three_hosts(rt: HostRuntime) {
    let script = "hosts 3\nbind A 7 9 9\nbind C 8 9 9\nsend A 7 C 8 x:01\n";
    let text =
        "A:7>C:8 accepted 1 received 1 unread 0 dropped 0 port0 0 cancelled 0 pending 0\n data=01\nend ok\n";
    assert!(rt; is_answer(&rt, rt.alloc(), &["run"], script, 0, text));
}

#[test]
fn generated_scripts(rt: HostRuntime) {
    let one =
        "seed 0 sends 1 hosts 8 sockets 32 cuts 0 accepted 1 received 1 unread 0 dropped 0 port0 0 cancelled 0 bytes 0\nend ok\n";
    assert!(rt; is_answer(&rt, rt.alloc(), &["gen", "1", "0"], "", 0, one));
    let many =
        "seed 7 sends 10000 hosts 8 sockets 32 cuts 20 accepted 10000 received 10000 unread 0 dropped 0 port0 0 cancelled 0 bytes 314616\nend ok\n";
    assert!(rt; is_answer(&rt, rt.alloc(), &["gen", "10000", "7"], "", 0, many));
}

#[test]
fn refused_scripts(rt: HostRuntime) {
    assert!(rt; is_answer(&rt, rt.alloc(), &["play"], "", 1, "bad line 0: empty\n"));
    let script = "hosts 2\nbind A 70000 1 2\n";
    assert!(rt;
        is_answer(
            &rt,
            rt.alloc(),
            &["play"],
            script,
            1,
            "bad line 2: number\n"
        )
    );
}
