//! Bytes that go one way, on one thread or from one thread to another.
ghost use Rattle.std.specs.Prelude.{◌<◌, ◌≤◌, ◌+◌, ◌^◌, length};

use crate::link::ways::{Gets, Sends};
use std::sync::Wait;
use std::thread;
use std::thread::Threads;

// Sends the piece again and again, until so many bytes are taken.
fn send_all<W: Sends, R: Wait>(rt: &R, mut way: W, piece: &[u8], total: u64) -> u64
    requires { 0 < length piece.now }
{
    let mut sent = 0u64;
    for _ in rt.forever() {
        if sent >= total {
            break;
        }
        match way.send(piece) {
            0 => thread::yield_now(),
            count => sent = sent.saturating_add(count as u64),
        }
    }
    sent
}

// Gets bytes until so many have come.
fn get_all<W: Gets, R: Wait>(rt: &R, mut way: W, buf: &mut [u8], total: u64) -> u64
    requires { 0 < length buf.old }
{
    let mut got = 0u64;
    for _ in rt.forever() {
        if got >= total {
            break;
        }
        match way.get(buf) {
            0 => thread::yield_now(),
            count => got = got.saturating_add(count as u64),
        }
    }
    got
}

// Sends the piece once, and gets back what was taken of it.
fn exchange<S: Sends, G: Gets, R: Wait>(
    rt: &R,
    from: &mut S,
    to: &mut G,
    piece: &[u8],
    buf: &mut [u8],
) -> u64
    requires { (0 < length piece.now) × (0 < length buf.old) }
{
    let sent = from.send(piece) as u64;
    let mut got = 0u64;
    for _ in rt.forever() {
        if got >= sent {
            break;
        }
        got = got.saturating_add(to.get(buf) as u64);
    }
    got
}

/// Sends and gets by turns on one thread, until so many bytes have come.
pub fn by_one<S: Sends, G: Gets, R: Wait>(
    rt: &R,
    mut from: S,
    mut to: G,
    piece: &[u8],
    buf: &mut [u8],
    total: u64,
) -> u64
    requires { (0 < length piece.now) × (0 < length buf.old) }
{
    let mut got = 0u64;
    for _ in rt.forever() {
        if got >= total {
            break;
        }
        got = got.saturating_add(exchange(rt, &mut from, &mut to, piece, buf));
    }
    got
}

/// Sends on one thread and gets on another, until so many bytes have come.
pub fn by_two<S: Sends + Send, G: Gets + Send, R: Wait + Threads + Sync>(
    rt: &R,
    from: S,
    to: G,
    piece: &[u8],
    buf: &mut [u8],
    total: u64,
) -> u64
    requires { (0 < length piece.now) × (0 < length buf.old) }
{
    let (_, got) = thread::join(
        rt,
        move || send_all(rt, from, piece, total),
        move || get_all(rt, to, buf, total),
    );
    got
}
