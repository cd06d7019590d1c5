//! How the lines of a host are taken apart.
ghost use Rattle.std.specs.Prelude.{◌≡◌, ◌-◌, ◌∷◌, ◌++◌, [], All, IfOk, OnOk, map};
ghost use Rattle.rds_text.specs.FinalViews.{side_view};
ghost use Rattle.rds_host.specs.Held.{ends_in, ends_of};
ghost use Rattle.rds_line.specs.Keeps.{KeepsLine};
ghost use Rattle.rds_line.specs.Line.{line_past};
ghost use Rattle.rds_host_end.specs.Columns.{rows_left};
ghost use Rattle.rds_host_end.specs.Cuts.{HasCut};
ghost use Rattle.rds_host_end.specs.Risen.{StaysRisen};
ghost use Rattle.rds_host_end.specs.Sides.{line_side};

use rds_fmap::Writer;
use rds_line::{Line, LineParts};
use rds_line_parts::{Boxes, LineOrders, LinePorts, LineWords, SlotBox};
use rds_link::Wire;
use rds_model::Journal;
use rds_wire::Memory;
use std::alloc::Global;
use std::sync::Wait;
use std::vec::IntoIter;

/// What is left of the lines of a host: the journals, each beside the peer's address, the queues of their orders, each beside who
/// published the peer's map, and of each line its putters at the mailboxes and its seats at the port table and the meter.
#[derive(Drop)]
pub(crate) struct LinesLeft {
    pub(crate) journals: Vec<(u32, Journal)>,
    pub(crate) orders: Vec<(LineOrders, Writer)>,
    pub(crate) boxes: Vec<IntoIter<SlotBox>>,
    pub(crate) ports: Vec<LinePorts>,
    pub(crate) words: Vec<LineWords>,
}

// What is left of a line.
#[derive(Drop)]
struct LineLeft {
    peer: u32,
    journal: Journal,
    orders: LineOrders,
    map: Writer,
    boxes: Boxes,
    ports: LinePorts,
    words: LineWords,
}

impl LinesLeft {
    // Adds what is left of one more line.
    fn add(&mut self, line: LineLeft) -> Result<(), Memory>
        ensures journals { OnOk result (self.new.journals.items ≡ self.old.journals.items ++ (line.peer, line.journal) ∷ []) }
        ensures orders { OnOk result (self.new.orders.items ≡ self.old.orders.items ++ (line.orders, line.map) ∷ []) }
        ensures boxes { OnOk result (rows_left self.new.boxes.items ≡ rows_left self.old.boxes.items ++ line.boxes ∷ []) }
        ensures ports { OnOk result (self.new.ports.items ≡ self.old.ports.items ++ line.ports ∷ []) }
        ensures words { OnOk result (self.new.words.items ≡ self.old.words.items ++ line.words ∷ []) }
    {
        let LineLeft {
            peer,
            journal,
            orders,
            map,
            boxes,
            ports,
            words,
        } = line;
        self.journals.push((peer, journal))?;
        self.orders.push((orders, map))?;
        self.boxes.push(boxes.into_vec().into_iter())?;
        self.ports.push(ports)?;
        self.words.push(words)?;
        Ok(())
    }

    // Makes room for so many lines.
    fn reserve(&mut self, lines: usize) -> Result<(), Memory>
        ensures journals { self.new.journals.items ≡ self.old.journals.items }
        ensures orders { self.new.orders.items ≡ self.old.orders.items }
        ensures boxes { self.new.boxes.items ≡ self.old.boxes.items }
        ensures ports { self.new.ports.items ≡ self.old.ports.items }
        ensures words { self.new.words.items ≡ self.old.words.items }
    {
        let journals = self.journals.reserve(lines);
        let orders = self.orders.reserve(lines);
        let boxes = self.boxes.reserve(lines);
        let ports = self.ports.reserve(lines);
        let words = self.words.reserve(lines);
        journals.and(orders).and(boxes).and(ports).and(words)?;
        Ok(())
    }
}

/// Takes the lines of a host apart. It gives every end back to the wire, after a memory error too.
pub(crate) fn take_lines<W: Wire, R: Wait>(
    rt: &R,
    alloc: Global,
    wire: &mut W,
    lines: Vec<Line<W::End, Writer>>,
) -> Result<LinesLeft, Memory>
    ensures journals { IfOk result (λ left. map side_view left.journals.items ≡ map line_side lines.items) }
    ensures orders { IfOk result (λ left. left.orders.items ≡ map (λ line. (line.orders, line.map)) lines.items) }
    ensures boxes { IfOk result (λ left. rows_left left.boxes.items ≡ map (λ line. line.boxes) lines.items) }
    ensures ports { IfOk result (λ left. left.ports.items ≡ map (λ line. line.ports) lines.items) }
    ensures words { IfOk result (λ left. left.words.items ≡ map (λ line. line.words) lines.items) }
    ensures kept { All (KeepsLine (λ w. w.published)) lines.items }
    ensures cut { All HasCut lines.items }
    ensures risen { StaysRisen (W.counted wire.old).faults (W.counted wire.new).faults }
    ensures out { W.out wire.new ≡ W.out wire.old - ends_in lines.items }
{
    let mut left = LinesLeft {
        journals: Vec::new(alloc),
        orders: Vec::new(alloc),
        boxes: Vec::new(alloc),
        ports: Vec::new(alloc),
        words: Vec::new(alloc),
    };
    let mut all = left.reserve(lines.len());
    for line in lines {
        let own = take_line(rt, wire, line);
        all = all.and(left.add(own));
    }
    all?;
    Ok(left)
}

// Takes a line apart and gives the ends of all its streams back to the wire.
fn take_line<W: Wire, R: Wait>(rt: &R, wire: &mut W, line: Line<W::End, Writer>) -> LineLeft
    ensures peer { result.peer ≡ line.channel.conn.peer }
    ensures past { result.journal.past ≡ line_past line }
    ensures orders { result.orders ≡ line.orders }
    ensures map { result.map ≡ line.map }
    ensures boxes { result.boxes ≡ line.boxes }
    ensures ports { result.ports ≡ line.ports }
    ensures words { result.words ≡ line.words }
    ensures kept { KeepsLine (λ w. w.published) line }
    ensures cut { HasCut line }
    ensures risen { StaysRisen (W.counted wire.old).faults (W.counted wire.new).faults }
    ensures out { W.out wire.new ≡ W.out wire.old - ends_of line }
{
    line.known();
    let (journal, parts) = line.into_parts();
    let LineParts {
        me: _,
        peer,
        streams,
        orders,
        inboxes,
        ports,
        words,
        map,
    } = parts;
    for (_, end) in streams {
        wire.give_back(rt, end);
    }
    LineLeft {
        peer,
        journal,
        orders,
        map,
        boxes: inboxes,
        ports,
        words,
    }
}

/// Takes a line apart and gives the ends of all its streams back to the wire. The journal is left.
pub fn end_line<W: Wire, R: Wait>(rt: &R, wire: &mut W, line: Line<W::End, Writer>) -> Journal
    ensures past { result.past ≡ line_past line }
    ensures risen { StaysRisen (W.counted wire.old).faults (W.counted wire.new).faults }
    ensures out { W.out wire.new ≡ W.out wire.old - ends_of line }
{
    let LineLeft {
        peer: _,
        journal,
        orders: _orders,
        map: _map,
        boxes: _boxes,
        ports: _ports,
        words: _words,
    } = take_line(rt, wire, line);
    journal
}
