//! Bytes that acknowledgements free.
ghost use Rattle.std.specs.Prelude.{◌≡◌, ℕ, ◌+◌, ◌≤◌, OnOk};
ghost use Rattle.rds_conn.specs.Connection.{freed_bytes_of};
ghost use Rattle.rds_meter.specs.Places.{part, freed_word};
ghost use Rattle.rds_model.specs.Alive.{alive_bytes};

use crate::parts::words;
use rds_conn::{Conn, ConnError};
use rds_line_parts::{LineWords, relieve};
use rds_model::{MIN_ENTRIES, Order};
use rds_wire::Payload;
use std::alloc::Global;
use std::test::Fail;

// Sends five bytes from the socket of slot 0, and takes them back.
fn take_back(conn: &mut Conn, alloc: Global) -> Result<(), ConnError>
    requires slots { conn.old.slots ≡ 1 }
    requires none { freed_bytes_of 0 conn.old + alive_bytes 0 conn.old.log.past ≡ 0 }
    ensures slots { conn.new.slots ≡ 1 }
    ensures freed { OnOk result (freed_bytes_of 0 conn.new ≤ 5) }
{
    let payload = Payload::copy_of(alloc, b"hello")?;
    conn.reserve()?;
    conn.order_uncounted(Order::Send {
        slot: 0,
        sport: 4000,
        dport: 4001,
        payload,
    });
    conn.reserve()?;
    conn.order_uncounted(Order::CloseSocket { slot: 0 });
    Ok(())
}

// The freed word of slot 0 once the connection's freed bytes are added.
fn freed_after(conn: &mut Conn, words: &mut LineWords) -> u64
    requires slots { conn.old.slots ≡ 1 }
    requires freed { freed_bytes_of 0 conn.old ≤ 5 }
    requires parts { (slot : ℕ) → part (freed_word slot) words.old.view.steps ≡ 0 }
{
    conn.known();
    relieve(conn, words);
    words.free(0, 0)
}

fn freed_by(words: &mut LineWords, alloc: Global) -> Result<u64, ConnError>
    requires { (slot : ℕ) → part (freed_word slot) words.old.view.steps ≡ 0 }
{
    let mut conn = Conn::new(alloc, 1, 2, 1, MIN_ENTRIES)?;
    take_back(&mut conn, alloc)?;
    Ok(freed_after(&mut conn, words))
}

fn freed(alloc: Global) -> Result<u64, ConnError> {
    let mut words = words(alloc)?;
    freed_by(&mut words, alloc)
}

#[test]
fn freed_bytes_go_to_the_meter(rt: HostRuntime) -> Result<(), Fail> {
    assert!(rt; freed(rt.alloc())? == 5);
    Ok(())
}
