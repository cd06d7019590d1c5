ghost use Rattle.std.specs.Prelude.{◌≡◌, ◌++◌};
ghost use Rattle.rds_msgs_lists.specs.Lists.{IsOn, AtEach, first_index};
ghost use Rattle.rds_msgs.specs.Kept.{mark_without, mark_with};

use rds_msgs_lists::{Index, Lists};

/// The mark once an index comes to the end of the lists: that index, where all others are pulled.
pub(crate) fn marked(mark: Option<Index>, at: Index) -> Option<Index>
    ensures { result ≡ mark_with at mark }
{
    match mark {
        None => Some(at),
        Some(_) => mark,
    }
}

/// The mark once an index leaves, behind which `next` stands.
fn moved(mark: Option<Index>, at: Index, next: Option<Index>) -> Option<Index>
    ensures { result ≡ mark_without at next mark }
{
    match mark {
        Some(first) if first == at => next,
        _ => mark,
    }
}

/// Takes an index off its lists, and gives the mark then.
pub(crate) fn take_off(lists: &mut Lists, mark: Option<Index>, at: Index) -> Option<Index>
    requires on { IsOn lists.old.places at }
    ensures left { AtEach lists.old.places at (λ before p rest. lists.new ≡ record lists.old { places = before ++ rest }) }
    ensures rest { lists.new ≡ record lists.old { places = lists.new.places } }
    ensures mark { AtEach lists.old.places at (λ before p rest. result ≡ mark_without at (first_index rest) mark) }
{
    let left = moved(mark, at, lists.after(at));
    lists.remove(at);
    left
}
