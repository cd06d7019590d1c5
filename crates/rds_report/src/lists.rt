ghost use Rattle.std.specs.Prelude.{◌≡◌, IfOk, Ok, map};
ghost use Rattle.std.specs.List.{flat_map};

use rds_wire::Memory;
use std::alloc::Global;

/// The items of all lists, in order.
pub fn joined<T: Drop>(alloc: Global, lists: Vec<Vec<T>>) -> Result<Vec<T>, Memory>
    ensures { IfOk result (λ all. all.items ≡ flat_map (λ list. list.items) lists.items) }
{
    let mut all = Vec::new(alloc);
    all.reserve(length(&lists))?;
    for mut list in lists {
        all.append(&mut list)?;
    }
    Ok(all)
}

/// What was made, where memory ran out for none of it.
pub fn all_of<T: Drop>(alloc: Global, made: Vec<Result<T, Memory>>) -> Result<Vec<T>, Memory>
    ensures { IfOk result (λ all. map Ok all.items ≡ made.items) }
{
    let mut all = Vec::new(alloc);
    for one in made {
        all.push(one?)?;
    }
    Ok(all)
}

// How many items all lists have.
fn length<T>(lists: &[Vec<T>]) -> usize {
    let mut count = 0usize;
    for list in lists {
        count = count.saturating_add(list.len());
    }
    count
}
