//! The calls up to a connection, and those of `play`.
use super::tried::Tried;
use super::{connections, payloads, scripts, stores};
use std::alloc::Global;

/// The names of the calls.
pub const CALLS: [&str; 17] = [
    "payload",
    "share",
    "splitter",
    "take",
    "port-map",
    "journal",
    "journal-reserve",
    "store",
    "store-reserve",
    "out",
    "connection",
    "connection-reserve",
    "pull",
    "feed",
    "covered",
    "read",
    "play",
];

/// What came of the call with this name, or nothing where there was no memory for what it needs.
pub fn made(alloc: Global, name: &str) -> Option<Tried> {
    match name {
        "payload" => payloads::payload(alloc),
        "share" => payloads::share(alloc),
        "splitter" => payloads::splitter(alloc),
        "take" => payloads::take(alloc),
        "port-map" => stores::port_map(alloc),
        "journal" => stores::journal(alloc),
        "journal-reserve" => stores::journal_reserve(alloc),
        "store" => stores::store(alloc),
        "store-reserve" => stores::store_reserve(alloc),
        "out" => connections::out(alloc),
        "connection" => connections::connection(alloc),
        "connection-reserve" => connections::reserve(alloc),
        "pull" => connections::pull(alloc),
        "feed" => connections::feed(alloc),
        "covered" => connections::covered(alloc),
        "read" => scripts::read(alloc),
        _ => scripts::play(alloc),
    }
}
