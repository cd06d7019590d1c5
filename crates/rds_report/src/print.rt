ghost use Rattle.std.specs.Prelude.{◌≡◌, ◌++◌, ◌==◌, false, OnOk, string_bytes};
ghost use Rattle.std.specs.List.{flat_map};
ghost use Rattle.rds_report.specs.Item.{Item as Piece};
ghost use Rattle.rds_text.specs.Hosts.{IsAddress};
ghost use Rattle.rds_text.specs.Report.{pair_text, counts_line};
ghost use Rattle.rds_report.specs.Items.{seen};
ghost use Rattle.rds_report.specs.ItemReport.{AreKnown, IsUp, groups_text, lines_of, data_lines, count_of, is_accepted};
ghost use Rattle.rds_report.specs.ItemTotals.{fates, seen_counts};

use crate::counts::Counts;
use crate::grouping::first_run;
use crate::item::{Group, Item, What};
use rds_text::{Hex, HostName, host_of};
use rds_wire::Memory;

/// Prints the groups of items, which stand in the order of their groups.
pub fn print_groups(text: &mut String, items: &[Item<'_>]) -> Result<(), Memory>
    requires up { IsUp items.now }
    ensures { AreKnown items.now → OnOk result (string_bytes text.new ≡ string_bytes text.old ++ groups_text items.now) }
{
    text.reserve(room(items))?;
    let mut rest = items;
    while let Some((group, run)) = first_run(rest) {
        print_group(text, group, run)?;
        rest = &rest[run.len()..];
    }
    Ok(())
}

/// About how many bytes the lines of what was received take: the digits of each payload, and the word before them.
pub fn room(items: &[Item<'_>]) -> usize {
    let mut bytes = 0usize;
    for item in items {
        bytes = bytes.saturating_add(line_length(item));
    }
    bytes
}

fn line_length(item: &Item<'_>) -> usize {
    match &item.what {
        What::Received(payload) => " data=\n".len() + 2 * payload.len() as usize,
        _ => 0,
    }
}

// Prints the items of a group, unless none was accepted.
fn print_group(text: &mut String, group: Group, items: &[Item<'_>]) -> Result<(), Memory>
    ensures { ((count_of is_accepted items.now == 0) ≡ false → IsAddress group.to × IsAddress group.from) →
        OnOk result (string_bytes text.new ≡ string_bytes text.old ++ lines_of (seen group) items.now) }
{
    let counts = Counts::of(items);
    if counts.accepted == 0 {
        return Ok(());
    }
    print_head(text, group, counts)?;
    print_received(text, items)
}

/// Prints the pair of a group, and the counts of its items.
pub fn print_head(text: &mut String, group: Group, counts: Counts) -> Result<(), Memory>
    ensures { IsAddress group.from → IsAddress group.to →
        OnOk result (string_bytes text.new ≡ string_bytes text.old ++ (pair_text (seen group) ++ counts_line (seen_counts counts))) }
{
    print_pair(text, group)?;
    print_counts(text, counts)
}

fn print_pair(text: &mut String, group: Group) -> Result<(), Memory>
    ensures { IsAddress group.from → IsAddress group.to →
        OnOk result (string_bytes text.new ≡ string_bytes text.old ++ pair_text (seen group)) }
{
    let from = HostName::new(host_of(group.from));
    let to = HostName::new(host_of(group.to));
    let sport = group.sport;
    let dport = group.dport;
    write!(text, "{from}:{sport}>{to}:{dport}")?;
    Ok(())
}

/// Prints a line for each item that was received.
pub fn print_received(text: &mut String, items: &[Item<'_>]) -> Result<(), Memory>
    ensures { OnOk result (string_bytes text.new ≡ string_bytes text.old ++ flat_map (λ (i : Piece). data_lines i.what) items.now) }
{
    for item in items {
        print_data(text, item)?;
    }
    Ok(())
}

fn print_data(text: &mut String, item: &Item<'_>) -> Result<(), Memory>
    ensures { OnOk result (string_bytes text.new ≡ string_bytes text.old ++ data_lines item.now.what) }
{
    if let What::Received(payload) = &item.what {
        let bytes = Hex(payload.as_slice());
        writeln!(text, " data={bytes}")?;
    }
    Ok(())
}

fn print_counts(text: &mut String, counts: Counts) -> Result<(), Memory>
    ensures { OnOk result (string_bytes text.new ≡ string_bytes text.old ++ counts_line (seen_counts counts)) }
{
    print_fates(text, counts)?;
    let pending = counts.pending();
    writeln!(text, " pending {pending}")?;
    Ok(())
}

/// Prints the counts, each behind its word.
pub fn print_fates(text: &mut String, counts: Counts) -> Result<(), Memory>
    ensures { OnOk result (string_bytes text.new ≡ string_bytes text.old ++ fates (seen_counts counts)) }
{
    let accepted = counts.accepted;
    let received = counts.received;
    let unread = counts.unread;
    let dropped = counts.dropped;
    let port0 = counts.port0;
    let cancelled = counts.cancelled;
    write!(
        text,
        " accepted {accepted} received {received} unread {unread} dropped {dropped} port0 {port0} cancelled {cancelled}"
    )?;
    Ok(())
}
