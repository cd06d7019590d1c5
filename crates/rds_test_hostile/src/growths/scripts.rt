//! A script that is read and played.
ghost use Rattle.rds_script.specs.Script.{IsScript};

use super::tried::Tried;
use rds_link::MemSink;
use rds_model::MAX_ENTRIES;
use rds_play::PlayEnd;
use rds_script::Script;
use std::alloc::Global;

pub const SCRIPT: &[u8] = b"hosts 2\nbind A 4000 65536 65536\nbind B 4001 65536 65536\n\
send A 4000 B 4001 t:hello\ndrain\nrecv B 4001\n";

pub fn read(alloc: Global) -> Option<Tried> {
    let mut again = false;
    let script = match rds_script::read(alloc, SCRIPT) {
        Ok(script) => script,
        Err(_) => {
            again = true;
            rds_script::read(alloc, SCRIPT).ok()?
        }
    };
    Some(Tried::of(again, script.commands.len()))
}

pub fn play(alloc: Global) -> Option<Tried> {
    let script = rds_script::read(alloc, SCRIPT).ok()?;
    let (end, length) = played(alloc, &script);
    if end == PlayEnd::Ok {
        return Some(Tried::of(false, length));
    }
    let (end, length) = played(alloc, &script);
    if end == PlayEnd::Ok {
        Some(Tried::of(true, length))
    } else {
        None
    }
}

// How the script ends, and how long the text is that a sink in memory took.
fn played(alloc: Global, script: &Script) -> (PlayEnd, usize)
    requires { IsScript script.now }
{
    let mut sink = MemSink::new(alloc, Vec::new(alloc));
    let end = rds_play::play(alloc, script, MAX_ENTRIES, &mut sink);
    (end, sink.held().len())
}
