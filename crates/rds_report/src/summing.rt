ghost use Rattle.std.specs.Prelude.{◌≡◌, ◌≤◌, ◌++◌, ℕ, List, IfOk, OnOk, length, map, string_bytes};
ghost use Rattle.std.specs.List.{All, sum_by};
ghost use Rattle.rds_text.specs.declared.host.TheConstants.{MAX_HOSTS as most_hosts};
ghost use Rattle.rds_text.specs.Lines.{end_line};
ghost use Rattle.rds_text.specs.Hosts.{address_of};
ghost use Rattle.rds_text.specs.FinalViews.{AreFinalHosts, host_views};
ghost use Rattle.rds_report.specs.ItemTotals.{AreTotals, AreTotalsTo, IsSmall, seen_counts};
ghost use Rattle.rds_report.specs.ItemTotals.{totals_bytes, totals_counts};
ghost use Rattle.rds_report.specs.Summary.{all_counts, received_bytes, summary as summary_of, summary_line, total};

use crate::grouping::sort;
use crate::totals::Totals;
use crate::{collect, print};
use rayon::prelude::*;
use rds_text::{HostEnd, MAX_HOSTS, address};
use rds_wire::Memory;
use std::alloc::Global;
use std::thread::Threads;

/// How many hosts there are, as generated scripts have them.
const HOSTS: u8 = 8;

/// How many sockets they have together, as generated scripts have them.
const SOCKETS: u8 = 32;

/// After so many sends stands a cut, as generated scripts have it.
const CUT_EVERY: u32 = 500;

/// The summary over what the hosts have in the end, of the script that is generated for so many sends and this seed: one
/// text line with the sums over all port pairs with an accepted datagram, and `end ok`. A thread sums up what went to one of
/// the `MAX_HOSTS` hosts. It is exact where each address is that of one of them, and no host and no peer of a host stands
/// twice.
///
/// # Errors
///
/// Where there is no memory. The text then has a beginning of the summary.
pub fn summary<R: Threads + Sync>(
    rt: &R,
    alloc: Global,
    text: &mut String,
    hosts: &[HostEnd],
    seed: u64,
    sends: u32,
) -> Result<(), Memory>
    ensures exact { AreFinalHosts (host_views hosts.now) →
        OnOk result (string_bytes text.new ≡ string_bytes text.old ++ summary_of (host_views hosts.now) seed sends) }
    ensures end { OnOk result ((lines : List ℕ) × (string_bytes text.new ≡ lines ++ end_line)) }
{
    let totals = all_totals(rt, alloc, hosts)?;
    print_totals(text, seed, sends, totals)?;
    writeln!(text, "end ok")?;
    Ok(())
}

// The totals over all port pairs. Those to each host are added up by a thread of its own.
fn all_totals<R: Threads + Sync>(rt: &R, alloc: Global, hosts: &[HostEnd]) -> Result<Totals, Memory>
    ensures { AreFinalHosts (host_views hosts.now) → IfOk result
        (λ t. AreTotals t (all_counts (host_views hosts.now)) (received_bytes (host_views hosts.now))) }
{
    let each: Result<Vec<Totals>, Memory> = (0..MAX_HOSTS)
        .into_par_iter()
        .with_min_len(1)
        .map(
            |host: u8| -> Result<Totals, Memory>
                ensures { IfOk result (AreTotalsTo (host_views hosts.entry.now) (address_of host)) }
            { totals_to(alloc, hosts, address(host)) },
        )
        .collect(rt, alloc)?;
    let each = each?;
    Ok(together(&each))
}

// The totals of some hosts together.
fn together(each: &[Totals]) -> Totals
    requires few { length each.now ≤ most_hosts }
    requires small { All IsSmall each.now }
    ensures counts { seen_counts result.counts ≡ total (map totals_counts each.now) }
    ensures bytes { result.bytes ≡ sum_by totals_bytes each.now }
{
    let mut totals = Totals::none();
    for more in each {
        totals = totals.with(*more);
    }
    totals
}

// The totals over the port pairs to the host at an address.
fn totals_to(alloc: Global, hosts: &[HostEnd], to: u32) -> Result<Totals, Memory>
    ensures { IfOk result (AreTotalsTo (host_views hosts.now) to) }
{
    let mut items = collect::items_to(alloc, hosts, to)?;
    sort(&mut items)?;
    Ok(Totals::of(&items))
}

// Prints the line of totals.
fn print_totals(text: &mut String, seed: u64, sends: u32, totals: Totals) -> Result<(), Memory>
    ensures { OnOk result (string_bytes text.new ≡ string_bytes text.old ++ summary_line seed sends (seen_counts totals.counts) totals.bytes) }
{
    let cuts = sends / CUT_EVERY;
    write!(
        text,
        "seed {seed} sends {sends} hosts {HOSTS} sockets {SOCKETS} cuts {cuts}"
    )?;
    print::print_fates(text, totals.counts)?;
    let bytes = totals.bytes;
    writeln!(text, " bytes {bytes}")?;
    Ok(())
}
