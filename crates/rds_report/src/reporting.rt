ghost use Rattle.std.specs.Prelude.{◌≡◌, ◌≤◌, ◌++◌, ℕ, List, IfOk, OnOk, string_bytes};
ghost use Rattle.std.specs.List.{flat_map};
ghost use Rattle.rds_text.specs.Hosts.{address_of};
ghost use Rattle.rds_text.specs.FinalViews.{AreFinalHosts, host_views};
ghost use Rattle.rds_text.specs.Lines.{end_line};
ghost use Rattle.rds_report.specs.ItemReport.{job_end, part, parts};
ghost use Rattle.rds_text.specs.Report.{report as text_of};

use crate::grouping::sort;
use crate::lists::{all_of, joined};
use crate::texts::Texts;
use crate::{collect, print};
use rds_beside::map_indices;
use rds_model::Journal;
use rds_text::{HostEnd, MAX_HOSTS, address};
use rds_wire::Memory;
use std::alloc::Global;
use std::thread::Threads;

/// The report over what the hosts have in the end: a group for each port pair with an accepted datagram, in ascending
/// order of receiving host, receiving port, sending host and sending port, and `end ok`. It is exact where each address is
/// that of one of the `MAX_HOSTS` hosts, and no host and no peer of a host stands twice.
///
/// # Errors
///
/// Where there is no memory. The text then has a beginning of the report.
pub fn report(alloc: Global, text: &mut String, hosts: &[HostEnd]) -> Result<(), Memory>
    ensures exact { AreFinalHosts (host_views hosts.now) →
        OnOk result (string_bytes text.new ≡ string_bytes text.old ++ text_of (host_views hosts.now)) }
    ensures end { OnOk result ((lines : List ℕ) × (string_bytes text.new ≡ lines ++ end_line)) }
{
    for host in 0..MAX_HOSTS {
        add_part(alloc, text, hosts, address(host))?;
    }
    writeln!(text, "end ok")?;
    Ok(())
}

/// A report on journals with fewer entries in all is made on the calling thread: other threads would take longer to begin.
const FEW_ENTRIES: u64 = 8_192;

/// The report that `report` writes, in texts that are to be written one behind another. Where journals have many entries, what went to each host
/// is printed by a thread of its own, and the lines of a port pair with many datagrams by several.
///
/// # Errors
///
/// Where there is no memory.
pub fn report_parts<R: Threads + Sync>(
    rt: &R,
    alloc: Global,
    hosts: &[HostEnd],
) -> Result<Vec<String>, Memory>
    ensures { AreFinalHosts (host_views hosts.now) →
        IfOk result (λ texts. flat_map string_bytes texts.items ≡ text_of (host_views hosts.now)) }
{
    if entry_count(hosts) < FEW_ENTRIES {
        return one_text(alloc, hosts);
    }
    parts_beside(rt, alloc, hosts)
}

// How many entries the journals of all hosts have.
fn entry_count(hosts: &[HostEnd]) -> u64 {
    let mut count = 0u64;
    for host in hosts {
        count = count.saturating_add(entries_of(&host.journals));
    }
    count
}

// How many entries these journals have.
fn entries_of(journals: &[(u32, Journal)]) -> u64 {
    let mut count = 0u64;
    for (_, journal) in journals {
        count = count.saturating_add(u64::from(journal.len()));
    }
    count
}

// The report in one text.
fn one_text(alloc: Global, hosts: &[HostEnd]) -> Result<Vec<String>, Memory>
    ensures { AreFinalHosts (host_views hosts.now) →
        IfOk result (λ texts. flat_map string_bytes texts.items ≡ text_of (host_views hosts.now)) }
{
    let mut text = String::new(alloc);
    report(alloc, &mut text, hosts)?;
    Ok(vec![in alloc; text]?)
}

// The report in texts one behind another: the parts on the first hosts, as many as these, each by a thread of its own, and the parts on all
// others, which as a rule have nothing, by one thread more.
fn parts_beside<R: Threads + Sync>(
    rt: &R,
    alloc: Global,
    hosts: &[HostEnd],
) -> Result<Vec<String>, Memory>
    ensures { AreFinalHosts (host_views hosts.now) →
        IfOk result (λ texts. flat_map string_bytes texts.items ≡ text_of (host_views hosts.now)) }
{
    let count = hosts.len().min(usize::from(MAX_HOSTS)) as u8;
    let do_job = move |job: usize| -> Result<Vec<String>, Memory>
        requires { (job ≤ count) × (count ≤ MAX_HOSTS) }
        ensures { AreFinalHosts (host_views hosts.entry.now) →
            IfOk result (λ texts. parts (host_views hosts.entry.now) (job_end count job) ≡
            parts (host_views hosts.entry.now) job ++ flat_map string_bytes texts.items) }
    { job_texts(rt, alloc, hosts, job as u8, count) };
    let made = map_indices(rt, alloc, usize::from(count) + 1, &do_job)?;
    let mut texts = joined(alloc, all_of(alloc, made)?)?;
    texts.push(format!(in alloc; "end ok\n")?)?;
    Ok(texts)
}

// What a job prints, where one more than `count` jobs print the parts: that on the host of its number, and the last job those on all hosts
// from there on.
fn job_texts<R: Threads + Sync>(
    rt: &R,
    alloc: Global,
    hosts: &[HostEnd],
    job: u8,
    count: u8,
) -> Result<Vec<String>, Memory>
    requires { (job ≤ count) × (count ≤ MAX_HOSTS) }
    ensures { AreFinalHosts (host_views hosts.now) →
        IfOk result (λ texts. parts (host_views hosts.now) (job_end count job) ≡ parts (host_views hosts.now) job ++ flat_map string_bytes texts.items) }
{
    let to = if job < count { job + 1 } else { MAX_HOSTS };
    texts_between(rt, alloc, hosts, job, to)
}

// The parts of the report on the hosts from one up to another, in texts one behind another.
fn texts_between<R: Threads + Sync>(
    rt: &R,
    alloc: Global,
    hosts: &[HostEnd],
    from: u8,
    to: u8,
) -> Result<Vec<String>, Memory>
    requires { from ≤ to }
    ensures { AreFinalHosts (host_views hosts.now) →
        IfOk result (λ texts. parts (host_views hosts.now) to ≡ parts (host_views hosts.now) from ++ flat_map string_bytes texts.items) }
{
    let mut texts = Vec::new(alloc);
    for host in from..to {
        let mut more = part_texts(rt, alloc, hosts, host)?;
        texts.append(&mut more)?;
    }
    Ok(texts)
}

// The part of the report on what went to a host, counted from 0, in texts one behind another.
fn part_texts<R: Threads + Sync>(
    rt: &R,
    alloc: Global,
    hosts: &[HostEnd],
    host: u8,
) -> Result<Vec<String>, Memory>
    ensures { AreFinalHosts (host_views hosts.now) →
        IfOk result (λ texts. flat_map string_bytes texts.items ≡ part (host_views hosts.now) (address_of host)) }
{
    let mut items = collect::items_to(alloc, hosts, address(host))?;
    sort(&mut items)?;
    let mut texts = Texts::new(alloc);
    texts.print_groups(rt, alloc, &items)?;
    texts.into_vec()
}

// The part of the report on what went to the host at an address.
fn add_part(alloc: Global, text: &mut String, hosts: &[HostEnd], to: u32) -> Result<(), Memory>
    ensures { AreFinalHosts (host_views hosts.now) →
        OnOk result (string_bytes text.new ≡ string_bytes text.old ++ part (host_views hosts.now) to) }
{
    let mut items = collect::items_to(alloc, hosts, to)?;
    sort(&mut items)?;
    print::print_groups(text, &items)
}
