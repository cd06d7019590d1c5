//! Passes that end together.
ghost use Rattle.std.specs.Prelude.{◌≡◌, [], ◌∷◌};
ghost use Rattle.rds_mail.specs.Passes.{after_put, first_putter, new_from, split_from, first_getter};

use crate::single::is_put;
use rds_mail::{GetPass, Mail, PutPass};
use std::alloc::{AllocError, Global};
use std::process::Abort;
use std::sync::Wait;
use std::test::Fail;

// Gathers a putter and the one that was split off it, each of which has put one item, and gets the first item.
fn gathered<R: Wait>(
    rt: &R,
    alloc: Global,
    mail: &Mail<u32>,
    first: PutPass<u32>,
    second: PutPass<u32>,
    get: &mut GetPass<u32>,
) -> Result<Option<u32>, AllocError>
    requires first { first ≡ after_put (split_from (first_putter mail.now.line)) 5 }
    requires second { second ≡ after_put (new_from (first_putter mail.now.line)) 6 }
    requires get { get.old ≡ first_getter mail.now.line }
{
    let puts = vec![in alloc; first, second]?;
    mail.gather_keyed(rt, get, puts);
    Ok(mail.get(rt, get))
}

// Splits a putter off the first one, and gathers both once each has put an item.
fn split_and_gathered<R: Abort + Wait>(
    rt: &R,
    alloc: Global,
    mail: &Mail<u32>,
    mut first: PutPass<u32>,
    mut get: GetPass<u32>,
) -> Result<Option<u32>, AllocError>
    requires first { first ≡ first_putter mail.now.line }
    requires get { get ≡ first_getter mail.now.line }
{
    let mut second = mail.split(&mut first);
    assert!(rt; is_put(rt, mail, &mut first, 5) && is_put(rt, mail, &mut second, 6));
    gathered(rt, alloc, mail, first, second, &mut get)
}

#[test]
fn two_putters_are_gathered(rt: HostRuntime) -> Result<(), Fail> {
    let (mail, put, get) = Mail::<u32>::new(rt.alloc())?;
    let got = split_and_gathered(&rt, rt.alloc(), &mail, put, get)?;
    assert!(rt; got == Some(5));
    Ok(())
}
