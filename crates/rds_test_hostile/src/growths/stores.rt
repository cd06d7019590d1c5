//! The map of ports, a journal, and a store of messages.
use super::tried::Tried;
use rds_cong::PortMap;
use rds_model::{Entry, Journal, Msg};
use rds_msgs::{MAX_MESSAGES, Store};
use std::alloc::Global;

/// For how many entries or messages room is made.
const ROOM: u32 = 1_000;

pub fn port_map(alloc: Global) -> Option<Tried> {
    let mut again = false;
    let map = match PortMap::new(alloc) {
        Ok(map) => map,
        Err(_) => {
            again = true;
            PortMap::new(alloc).ok()?
        }
    };
    Some(Tried::of(again, if map.has(4000) { 1 } else { 0 }))
}

pub fn journal(alloc: Global) -> Option<Tried> {
    let mut again = false;
    let journal = match Journal::new(alloc, 10_000) {
        Ok(journal) => journal,
        Err(_) => {
            again = true;
            Journal::new(alloc, 10_000).ok()?
        }
    };
    Some(Tried::of(again, journal.entries().len()))
}

pub fn journal_reserve(alloc: Global) -> Option<Tried> {
    let mut journal = Journal::new(alloc, 10_000).ok()?;
    let again = journal.reserve(ROOM).is_err();
    journal.reserve(ROOM).ok()?;
    journal.push(Entry::Open { stream: 1 });
    Some(Tried::of(again, journal.entries().len()))
}

pub fn store(alloc: Global) -> Option<Tried> {
    let mut again = false;
    let store = match Store::new(alloc, 7) {
        Ok(store) => store,
        Err(_) => {
            again = true;
            Store::new(alloc, 7).ok()?
        }
    };
    Some(Tried::of(again, usize::from(store.slots())))
}

pub fn store_reserve(alloc: Global) -> Option<Tried> {
    let mut store = Store::new(alloc, 7).ok()?;
    let again = store.reserve(ROOM).is_err();
    store.reserve(ROOM).ok()?;
    Some(Tried::of(again, if store.is_empty() { 0 } else { 1 }))
}
