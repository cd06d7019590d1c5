ghost use Rattle.std.specs.Prelude.{◌≡◌, ◌≤◌, Some, None, IsSome, IsOk, IfOk};
ghost use Rattle.rds_bindtab.specs.Seats.{first_view};

use crate::{BindError, BindSeat, BindTable, NoSlot};
use std::test::Fail;
use std::thread;

#[test]
fn three_seats_share_two_slots(rt: HostRuntime) -> Result<(), Fail> {
    let (table, mut first) = BindTable::new(rt.alloc(), 2)?;
    let mut second = table.split(&mut first);
    let mut third = table.split(&mut first);
    assert_eq!(rt; (table.draw(&mut first)?, table.draw(&mut second)?), (0, 1));
    assert_eq!(rt; table.draw(&mut third), Err(NoSlot { found: 2 }));
    assert_eq!(rt; table.claim(&mut first, 4000), Ok(()));
    assert_eq!(rt;
        table.claim(&mut second, 4000),
        Err(BindError::InUse { word: 1 })
    );
    assert_eq!(rt;
        table.claim(&mut second, 1),
        Err(BindError::Reserved { port: 1 })
    );
    Ok(())
}

// What a seat finds that was told of the port which another holds: the slot of that other.
fn found_when_told(
    table: &BindTable,
    holder: &mut BindSeat,
    other: &mut BindSeat,
    port: u16,
) -> Option<u16>
    requires tables { (holder.old.table ≡ table.now) × (other.old.table ≡ table.now) }
    requires slot { IsSome holder.old.view.slot }
    requires port { holder.old.view.port ≡ Some port }
    ensures found { result ≡ holder.old.view.slot }
    ensures tables { (holder.new.table ≡ table.now) × (other.new.table ≡ table.now) }
    ensures port { holder.new.view.port ≡ Some port }
{
    table.tell(other, holder);
    let found = table.look(other, port);
    let steps = table.note_steps(other);
    table.hear(holder, steps);
    table.learn(holder);
    found
}

#[test]
fn a_port_is_found_held_until_its_release(rt: HostRuntime) -> Result<(), Fail> {
    let (table, mut first) = BindTable::new(rt.alloc(), 2)?;
    let mut second = table.split(&mut first);
    let slot = table.draw(&mut first)?;
    table.claim(&mut first, 4000)?;
    assert_eq!(rt; (first.slot(), first.port()), (Some(slot), Some(4000)));
    assert_eq!(rt;
        found_when_told(&table, &mut first, &mut second, 4000),
        Some(0)
    );
    table.release(&mut first);
    assert_eq!(rt; table.look(&mut second, 4000), None);
    table.join(&mut second, first);
    table.close(second);
    Ok(())
}

// Two seats, of slot 0 and of slot 1, that the first seat of a table makes.
fn two_seats(table: &BindTable, first: &mut BindSeat) -> Result<(BindSeat, BindSeat), NoSlot>
    requires table { first.old.table ≡ table.now }
    requires new { first.old.view ≡ first_view table.now.slots }
    ensures slots { IfOk result (λ r. (r.0.view.slot ≡ Some 0) × (r.1.view.slot ≡ Some 1)) }
    ensures ok { 2 ≤ table.now.slots → IsOk result }
    ensures table { first.new.table ≡ table.now }
    ensures none { IfOk result (λ r. (first.new.view.slot ≡ None) × (first.new.view.draws ≡ 2)) }
{
    table.draw(first)?;
    let zero = table.split_slot(first);
    table.draw(first)?;
    let one = table.split_slot(first);
    Ok((zero, one))
}

#[test]
fn slots_are_drawn_upward(rt: HostRuntime) -> Result<(), Fail> {
    let (table, mut first) = BindTable::new(rt.alloc(), 2)?;
    let (zero, one) = two_seats(&table, &mut first)?;
    assert_eq!(rt;
        (zero.slot(), one.slot(), first.slot()),
        (Some(0), Some(1), None)
    );
    assert_eq!(rt; table.draw(&mut first), Err(NoSlot { found: 2 }));
    Ok(())
}

fn claims(table: &BindTable, mut seat: BindSeat) -> bool
    requires table { seat.table ≡ table.now }
    requires slot { IsSome seat.view.slot }
    requires port { seat.view.port ≡ None }
{
    table.claim(&mut seat, 4000).is_ok()
}

#[test]
fn one_of_two_threads_claims_a_port(rt: HostRuntime) -> Result<(), Fail> {
    for _ in 0..20 {
        let (table, mut first) = BindTable::new(rt.alloc(), 2)?;
        let mut second = table.split(&mut first);
        table.draw(&mut first)?;
        table.draw(&mut second)?;
        let table = &table;
        let (one, other) = thread::join(
            &rt,
            move || claims(table, first),
            move || claims(table, second),
        );
        assert_ne!(rt; one, other);
    }
    Ok(())
}
