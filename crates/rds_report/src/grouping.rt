ghost use Rattle.std.specs.Prelude.{◌≡◌, ◌≤◌, IfSome, OnOk, length, option_map};
ghost use Rattle.std.specs.List.{prefix_len, take_while};
ghost use Rattle.rds_text.specs.Report.{Group as Pair};
ghost use Rattle.rds_report.specs.Items.{seen};
ghost use Rattle.rds_report.specs.ItemReport.{IsUp, first_pair, is_of, of_pair};

use crate::item::{Group, Item};
use rds_wire::Memory;

/// Sorts items by their groups. Those of one group stay in their order.
pub fn sort(items: &mut Vec<Item<'_>>) -> Result<(), Memory>
    ensures up { OnOk result (IsUp items.new.items) }
    ensures stable { OnOk result ((g : Pair) → of_pair g items.new.items ≡ of_pair g items.old.items) }
{
    items.sort_by_key(
        |item: &Item<'_>| -> Group
            ensures { result ≡ item.now.group }
        { item.group() },
    )?;
    Ok(())
}

/// The group of the first item, and the items of it in front. It's `None` where there are no items.
pub fn first_run<'a, 'b>(items: &'a [Item<'b>]) -> Option<(Group, &'a [Item<'b>])>
    ensures group { option_map (λ (group, run). seen group) result ≡ first_pair items.now }
    ensures run { IfSome result (λ (group, run). run.now ≡ take_while (is_of (seen group)) items.now) }
    ensures within { IfSome result (λ (group, run). length run.now ≤ length items.now) }
{
    let group = items.first()?.group();
    let length = run_length(items, group);
    Some((group, &items[..length]))
}

// How many items of a group stand in front.
fn run_length(items: &[Item<'_>], group: Group) -> usize
    ensures run { result ≡ prefix_len (is_of (seen group)) items.now }
    ensures within { result ≤ length items.now }
{
    for i in 0..items.len() {
        if !is_in(group, &items[i]) {
            return i;
        }
    }
    items.len()
}

// Whether an item is of a group.
fn is_in(group: Group, item: &Item<'_>) -> bool
    ensures { result ≡ is_of (seen group) item.now }
{
    group == item.group()
}
