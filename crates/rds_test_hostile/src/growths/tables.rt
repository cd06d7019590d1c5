//! Tables and queues that threads share.
use super::tried::Tried;
use rds_bindtab::BindTable;
use rds_fmap::pair;
use rds_mail::Mail;
use rds_meter::Meter;
use std::alloc::Global;

/// How many slots a table has.
const SLOTS: u16 = 8;

/// How many readers a map has.
const READERS: u32 = 3;

pub fn mail(alloc: Global) -> Option<Tried> {
    let again = Mail::<u64>::new(alloc).is_err();
    if again {
        Mail::<u64>::new(alloc).ok()?;
    }
    Some(Tried::of(again, 1))
}

pub fn port_table(alloc: Global) -> Option<Tried> {
    let mut again = false;
    let (table, mut seat) = match BindTable::new(alloc, SLOTS) {
        Ok(made) => made,
        Err(_) => {
            again = true;
            BindTable::new(alloc, SLOTS).ok()?
        }
    };
    let slot = table.draw(&mut seat).ok()?;
    Some(Tried::of(again, usize::from(slot)))
}

pub fn meter(alloc: Global) -> Option<Tried> {
    let again = Meter::new(alloc, SLOTS).is_err();
    if again {
        Meter::new(alloc, SLOTS).ok()?;
    }
    Some(Tried::of(again, 1))
}

pub fn maps(alloc: Global) -> Option<Tried> {
    let mut again = false;
    let (_writer, readers) = match pair(alloc, READERS) {
        Ok(made) => made,
        Err(_) => {
            again = true;
            pair(alloc, READERS).ok()?
        }
    };
    Some(Tried::of(again, readers.len()))
}
