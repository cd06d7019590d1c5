//! Entries of a journal.
use rds_model::{Entry, Journal, JournalError, Target, laws};
use std::test::Fail;

// Pushes two entries, and tells whether there was room for them.
fn pushes_two(journal: &mut Journal) -> bool {
    if journal.reserve(2).is_err() {
        return false;
    }
    journal.push(Entry::Open { stream: 7 });
    journal.push(Entry::Cancel {
        slot: 3,
        target: Target::All,
    });
    true
}

// Whether a journal has these two entries, in this order, and no more.
fn has_two(journal: &Journal) -> bool {
    let first = matches!(journal.at(0), Some(Entry::Open { stream: 7 }));
    let second = matches!(journal.at(1), Some(Entry::Cancel { slot: 3, .. }));
    first && second && journal.at(2).is_none() && journal.len() == 2
}

// Whether a journal of two entries has room for just two more.
fn has_room_for_two(journal: &mut Journal) -> bool {
    let spent = Err(JournalError::Spent { entries: 2 });
    journal.reserve(3) == spent && journal.reserve(2).is_ok()
}

#[test]
fn entries_stand_in_the_order_of_pushing(rt: HostRuntime) -> Result<(), Fail> {
    let mut journal = Journal::new(rt.alloc(), 4)?;
    assert!(rt; journal.is_empty() && pushes_two(&mut journal));
    assert!(rt; has_two(&journal));
    assert!(rt; has_room_for_two(&mut journal));
    Ok(())
}

#[test]
fn the_laws_hold_of_new_journals(rt: HostRuntime) -> Result<(), Fail> {
    let a = Journal::new(rt.alloc(), 4)?;
    let b = Journal::new(rt.alloc(), 4)?;
    laws::headline(&a, &b);
    laws::fifo(&a, &b);
    laws::no_bad(&a, &b);
    laws::drained(&a, &b);
    Ok(())
}
