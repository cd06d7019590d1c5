ghost use Rattle.std.specs.Prelude.{◌≡◌, ◌<◌, ◌++◌, ◌==◌, [], false, IfOk, OnOk, string_bytes};
ghost use Rattle.std.specs.List.{flat_map};
ghost use Rattle.rds_text.specs.Hosts.{IsAddress};
ghost use Rattle.rds_report.specs.Item.{Item as Piece};
ghost use Rattle.rds_report.specs.Items.{seen};
ghost use Rattle.rds_report.specs.ItemReport.{AreKnown, IsUp, groups_text, lines_of, data_lines, count_of, is_accepted};
ghost use Rattle.rds_report.specs.Texts.{text_bytes};

use crate::counts::Counts;
use crate::grouping::first_run;
use crate::item::{Group, Item};
use crate::print::{print_head, print_received, room};
use rds_wire::Memory;
use std::alloc::Global;
use std::thread::Threads;
use std::{mem, thread};

/// Groups of so many items and more are printed by several threads.
const MANY: usize = 8192;

/// At most so many threads print the items of a group. Acceptances stand together, before the received ones or, where the sender is the
/// later host, behind them, and have no line. So where all was received about half of the threads have most to do.
const PRINTERS: usize = 4;

/// Texts that are to be written one behind another: those that are done, and the one that grows.
#[derive(Drop)]
pub struct Texts {
    done: Vec<String>,
    last: String,
}

impl Texts {
    /// One text, with nothing in it.
    pub fn new(alloc: Global) -> Texts
        ensures { text_bytes result ≡ [] }
    {
        Texts {
            done: Vec::new(alloc),
            last: String::new(alloc),
        }
    }

    /// All texts, in order.
    pub fn into_vec(self) -> Result<Vec<String>, Memory>
        ensures { IfOk result (λ texts. flat_map string_bytes texts.items ≡ text_bytes self) }
    {
        let mut texts = self.done;
        texts.push(self.last)?;
        Ok(texts)
    }

    /// Prints the groups of items, which stand in the order of their groups.
    pub fn print_groups<R: Threads + Sync>(
        &mut self,
        rt: &R,
        alloc: Global,
        items: &[Item<'_>],
    ) -> Result<(), Memory>
        requires up { IsUp items.now }
        ensures { AreKnown items.now → OnOk result (text_bytes self.new ≡ text_bytes self.old ++ groups_text items.now) }
    {
        let mut rest = items;
        while let Some((group, run)) = first_run(rest) {
            self.print_group(rt, alloc, group, run)?;
            rest = &rest[run.len()..];
        }
        Ok(())
    }

    // Prints the items of a group, unless none was accepted.
    fn print_group<R: Threads + Sync>(
        &mut self,
        rt: &R,
        alloc: Global,
        group: Group,
        items: &[Item<'_>],
    ) -> Result<(), Memory>
        ensures { ((count_of is_accepted items.now == 0) ≡ false → IsAddress group.to × IsAddress group.from) →
            OnOk result (text_bytes self.new ≡ text_bytes self.old ++ lines_of (seen group) items.now) }
    {
        let counts = Counts::of(items);
        if counts.accepted == 0 {
            return Ok(());
        }
        print_head(&mut self.last, group, counts)?;
        self.print_lines(rt, alloc, items)
    }

    // A line for each item that was received. Few are printed to the text that grows.
    fn print_lines<R: Threads + Sync>(
        &mut self,
        rt: &R,
        alloc: Global,
        items: &[Item<'_>],
    ) -> Result<(), Memory>
        ensures { OnOk result (text_bytes self.new ≡ text_bytes self.old ++ flat_map (λ (i : Piece). data_lines i.what) items.now) }
    {
        if items.len() < MANY {
            self.last.reserve(room(items))?;
            return print_received(&mut self.last, items);
        }
        let lines = received_texts(rt, alloc, items, items.len() / PRINTERS + 1)?;
        self.append(alloc, lines)
    }

    // Puts texts behind these, and begins a new one.
    fn append(&mut self, alloc: Global, texts: Vec<String>) -> Result<(), Memory>
        ensures { OnOk result (text_bytes self.new ≡ text_bytes self.old ++ flat_map string_bytes texts.items) }
    {
        let mut texts = texts;
        let last = mem::replace(&mut self.last, String::new(alloc));
        self.done.push(last)?;
        self.done.append(&mut texts)?;
        Ok(())
    }
}

// A line for each item that was received, in texts of so many items each, the last of what is left. Each text is made by a thread of its own,
// where one can be made; the calling thread then only makes these threads and waits.
#[cycle(printing)]
fn received_texts<R: Threads + Sync>(
    rt: &R,
    alloc: Global,
    items: &[Item<'_>],
    size: usize,
) -> Result<Vec<String>, Memory>
    requires { 0 < size }
    ensures { IfOk result (λ texts. flat_map string_bytes texts.items ≡ flat_map (λ (i : Piece). data_lines i.what) items.now) }
{
    if items.is_empty() {
        return Ok(Vec::new(alloc));
    }
    let (front, others) = items.split_at(size.min(items.len()));
    let first = || -> Result<String, Memory>
        ensures { IfOk result (λ text. string_bytes text ≡ flat_map (λ (i : Piece). data_lines i.what) front.entry.now) }
    { received_text(alloc, front) };
    let rest = || -> Result<Vec<String>, Memory>
        requires { 0 < size }
        ensures { IfOk result (λ texts. flat_map string_bytes texts.items ≡ flat_map (λ (i : Piece). data_lines i.what) others.entry.now) }
    { received_texts(rt, alloc, others, size) };
    let (text, more) = thread::join(rt, first, rest);
    let mut texts = vec![in alloc; text?]?;
    texts.append(&mut more?)?;
    Ok(texts)
}

// A line for each item that was received.
fn received_text(alloc: Global, items: &[Item<'_>]) -> Result<String, Memory>
    ensures { IfOk result (λ text. string_bytes text ≡ flat_map (λ (i : Piece). data_lines i.what) items.now) }
{
    let mut text = String::new(alloc);
    text.reserve(room(items))?;
    print_received(&mut text, items)?;
    Ok(text)
}
