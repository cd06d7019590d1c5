//! One thread puts and gets.
ghost use Rattle.std.specs.Prelude.{◌≡◌, true};
ghost use Rattle.rds_mail.specs.Passes.{after_put};

use rds_mail::{Asked, GetPass, Mail, PutPass};
use rds_model::Order;
use rds_wire::{Memory, Payload};
use std::alloc::Global;
use std::process::Abort;
use std::sync::Wait;
use std::test::Fail;

// Puts an item, and tells whether there was memory for it.
pub(crate) fn is_put<T: Drop, R: Wait>(
    rt: &R,
    mail: &Mail<T>,
    put: &mut PutPass<T>,
    item: T,
) -> bool
    requires { put.old.mail ≡ mail.now.line }
    ensures put { result ≡ true → put.new ≡ after_put put.old item }
    ensures mail { put.new.mail ≡ mail.now.line }
{
    mail.put(rt, put, item).is_ok()
}

// Gets the item of one putter, and by a note the item of the other.
fn gets_two<R: Abort + Wait>(
    rt: &R,
    mail: &Mail<u32>,
    other: &mut PutPass<u32>,
    get: &mut GetPass<u32>,
)
    requires other { other.old.mail ≡ mail.now.line }
    requires get { get.old.mail ≡ mail.now.line }
{
    let first = mail.get(rt, get);
    let note = mail.note(other);
    mail.learn(get, note);
    let second = mail.get(rt, get);
    assert!(rt; first == Some(5) && second == Some(6) && mail.get(rt, get).is_none());
}

fn come_in_order<R: Abort + Wait>(
    rt: &R,
    mail: &Mail<u32>,
    put: &mut PutPass<u32>,
    get: &mut GetPass<u32>,
)
    requires put { put.old.mail ≡ mail.now.line }
    requires get { get.old.mail ≡ mail.now.line }
{
    assert!(rt; mail.get(rt, get).is_none());
    let mut other = mail.split(put);
    assert!(rt; is_put(rt, mail, put, 5) && is_put(rt, mail, &mut other, 6));
    gets_two(rt, mail, &mut other, get);
}

#[test]
fn items_come_in_order(rt: HostRuntime) -> Result<(), Fail> {
    let (mail, mut put, mut get) = Mail::<u32>::new(rt.alloc())?;
    come_in_order(&rt, &mail, &mut put, &mut get);
    Ok(())
}

fn hello(alloc: Global) -> Result<Asked, Memory> {
    let payload = Payload::copy_of(alloc, b"hello")?;
    Ok(Asked::new(Order::Send {
        slot: 1023,
        sport: 4000,
        dport: 4001,
        payload,
    }))
}

// Puts an order, and a cut behind it.
fn puts_orders<R: Wait>(rt: &R, alloc: Global, mail: &Mail<Asked>, put: &mut PutPass<Asked>) -> bool
    requires { put.old.mail ≡ mail.now.line }
{
    let Ok(hello) = hello(alloc) else {
        return false;
    };
    is_put(rt, mail, put, hello) && is_put(rt, mail, put, Asked::new(Order::Cut))
}

fn is_hello(order: &Order) -> bool {
    matches!(
        order,
        Order::Send {
            slot: 1023,
            sport: 4000,
            dport: 4001,
            ..
        }
    )
}

// Gets an order, by a counted get.
fn next_order<R: Abort + Wait>(rt: &R, mail: &Mail<Asked>, get: &mut GetPass<Asked>) -> Order
    requires { get.old.mail ≡ mail.now.line }
    ensures { get.new.mail ≡ mail.now.line }
{
    mail.get_counted(rt, get).expect(rt, "an order").order()
}

// Gets the order, then the cut, and then none, each by a counted get.
fn gets_both<R: Abort + Wait>(rt: &R, mail: &Mail<Asked>, get: &mut GetPass<Asked>)
    requires { get.old.mail ≡ mail.now.line }
{
    assert!(rt; is_hello(&next_order(rt, mail, get)));
    assert!(rt; matches!(&next_order(rt, mail, get), Order::Cut));
    assert!(rt; mail.get_counted(rt, get).is_none());
}

#[test]
fn orders_are_items(rt: HostRuntime) -> Result<(), Fail> {
    let (mail, mut put, mut get) = Mail::<Asked>::new(rt.alloc())?;
    assert!(rt; puts_orders(&rt, rt.alloc(), &mail, &mut put));
    gets_both(&rt, &mail, &mut get);
    Ok(())
}
