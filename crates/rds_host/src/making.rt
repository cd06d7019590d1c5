//! How a host is made: its tables, its slots and its lines.
ghost use Rattle.std.specs.Prelude.{◌≡◌, suc, ◌≤◌, ◌+◌, [], All, IfOk, OnOk, length, map};
ghost use Rattle.std.specs.Arc.{arc_value};
ghost use Rattle.rds_model.specs.declared.entry.TheConstants.{MAX_SLOTS};
ghost use Rattle.rds_model.specs.declared.journal.TheConstants.{MAX_ENTRIES, MIN_ENTRIES};
ghost use Rattle.rds_bindtab.specs.Shared.{IsAlone};
ghost use Rattle.rds_bindtab.specs.Seats.{slot_of};
ghost use Rattle.rds_socket_parts.specs.Lanes.{Ascend};
ghost use Rattle.rds_line_channel.specs.Streams.{AreNumbered, IsUnused};
ghost use Rattle.rds_host.specs.Lines.{AreNewLines};
ghost use Rattle.rds_host.specs.Slots.{AreInPlace, AreNewSlots};
ghost use Rattle.rds_mail.specs.Passes.{first_getter, first_putter, new_from, split_from};
ghost use Rattle.rds_host.specs.Passes.{AreAllPasses, slot_seats};
ghost use Rattle.rds_meter.specs.Grounds.{seats_of};
ghost use Rattle.rds_host.specs.Ties.{AreColumnsFilled, AreNextOf, AreOfHost, IsSlotOf, inbox_of, lane_way, new_putter, peers_to, popped, ways_of, with_boxes};

use crate::column::Column;
use crate::host_lines::lines;
use crate::seats::{Seats, SlotSeats};
use rds_fmap::{Reader, Writer};
use rds_line::Line;
use rds_line_parts::SlotBox;
use rds_link::End;
use rds_mail::{Mail, PutPass};
use rds_model::Datagram;
use rds_socket::{Route, Vacant};
use rds_wire::Memory;
use std::alloc::Global;
use std::sync::Arc;

/// The slots of a host, and its lines.
pub type Parts<E> = (Vec<Vacant<Reader>>, Vec<Line<E, Writer>>);

/// A host with this IPv4 address, so many slots, which are numbered from 0, and a line to each peer over the streams in the
/// same place. The peers' addresses ascend. A journal may have `limit` entries.
///
/// # Errors
///
/// Where there is no memory for its tables. The streams are given up, though their wire counts these ends as out: where that matters, make
/// the host with empty lists, and give each line its streams by `Line::give_streams`, which takes no memory.
pub fn make<E: End>(
    alloc: Global,
    addr: u32,
    peers: &[u32],
    slots: u16,
    streams: Vec<Vec<(u32, E)>>,
    limit: u32,
) -> Result<Parts<E>, Memory>
    requires peers { (1 ≤ length peers.now) × (length peers.now ≤ 7) }
    requires ascend { Ascend peers.now }
    requires slots { (1 ≤ slots) × (slots ≤ MAX_SLOTS) }
    requires streams { length streams.items ≡ length peers.now }
    requires numbered { All (λ list. AreNumbered list.items) streams.items }
    requires unused { All (λ list. All (λ stream. IsUnused E.means stream.1) list.items) streams.items }
    requires least { MIN_ENTRIES ≤ limit }
    requires most { limit ≤ MAX_ENTRIES }
    ensures slots { IfOk result (λ host. AreNewSlots slots peers.now host.0.items) }
    ensures host { IfOk result (λ host. AreOfHost host.0.items host.1.items) }
    ensures passes { IfOk result (λ host. AreAllPasses host.0.items host.1.items) }
    ensures lines { IfOk result (λ host. AreNewLines addr limit peers.now (map (λ list. list.items) streams.items) host.1.items) }
{
    let mut columns = columns(alloc, peers, slots)?;
    let mut seats = Seats::new(alloc, slots)?;
    let vacants = vacants(alloc, &mut seats, &mut columns, slots)?;
    let lines = lines(alloc, addr, seats, columns, streams, limit)?;
    Ok((vacants, lines))
}

// What a host of so many slots has for each peer.
fn columns(alloc: Global, peers: &[u32], slots: u16) -> Result<Vec<Column>, Memory>
    requires { 1 ≤ slots }
    ensures peers { IfOk result (λ columns. peers_to (ways_of columns.items) ≡ peers.now) }
    ensures filled { IfOk result (λ columns. AreColumnsFilled slots [] columns.items) }
{
    let mut columns = Vec::with_capacity(alloc, peers.len())?;
    add_columns(alloc, &mut columns, peers, slots)?;
    Ok(columns)
}

// Adds what a host of so many slots has for each peer.
fn add_columns(
    alloc: Global,
    columns: &mut Vec<Column>,
    peers: &[u32],
    slots: u16,
) -> Result<(), Memory>
    requires some { 1 ≤ slots }
    requires none { columns.old.items ≡ [] }
    ensures peers { OnOk result (peers_to (ways_of columns.new.items) ≡ peers.now) }
    ensures filled { OnOk result (AreColumnsFilled slots [] columns.new.items) }
{
    for peer in peers {
        columns.push(Column::new(alloc, *peer, slots)?)?;
    }
    Ok(())
}

// The slots, in the order in which the port table numbers them.
fn vacants(
    alloc: Global,
    seats: &mut Seats,
    columns: &mut [Column],
    slots: u16,
) -> Result<Vec<Vacant<Reader>>, Memory>
    requires some { 1 ≤ length columns.old }
    requires ascend { Ascend (peers_to (ways_of columns.old)) }
    requires filled { AreColumnsFilled slots [] columns.old }
    requires slots { (arc_value seats.old.table).slots ≡ slots }
    requires alone { IsAlone seats.old.seat.view }
    requires draws { seats.old.seat.view.draws ≡ 0 }
    requires seats { seats.old.seat.view.splits ≡ 4094 }
    requires words { seats.old.own.view.splits ≡ 4094 }
    ensures table { OnOk result (arc_value seats.new.table ≡ arc_value seats.old.table) }
    ensures meter { OnOk result (arc_value seats.new.meter ≡ arc_value seats.old.meter) }
    ensures seats { OnOk result (seats.new.seat.view.splits ≡ 4094) }
    ensures words { OnOk result (seats.new.own.view.splits + slots ≡ 4094) }
    ensures stand { IfOk result (λ v. slot_seats v.items + seats_of seats.new.own.view ≡ seats_of seats.old.own.view) }
    ensures ways { OnOk result (ways_of columns.new ≡ ways_of columns.old) }
    ensures filled { IfOk result (λ v. AreColumnsFilled slots (map inbox_of v.items) columns.new) }
    ensures count { IfOk result (λ v. length v.items ≡ slots) }
    ensures number { IfOk result (λ v. AreInPlace v.items) }
    ensures slot { IfOk result (λ v.
        All (IsSlotOf slots (ways_of columns.old) (arc_value seats.old.table) (arc_value seats.old.meter)) v.items) }
{
    let mut vacants = Vec::with_capacity(alloc, usize::from(slots))?;
    for _ in 0..slots {
        let own = seats.draw()?;
        vacants.push(vacant(alloc, own, columns)?)?;
    }
    Ok(vacants)
}

// The slot with these seats.
fn vacant(alloc: Global, seats: SlotSeats, columns: &mut [Column]) -> Result<Vacant<Reader>, Memory>
    requires some { 1 ≤ length columns.old }
    requires ascend { Ascend (peers_to (ways_of columns.old)) }
    ensures slot { IfOk result (λ v. v.words.slot ≡ slot_of seats.seat.view) }
    ensures columns { IfOk result (λ v. columns.new ≡ with_boxes (inbox_of v) (length columns.old) 0 (map popped columns.old)) }
    ensures ways { IfOk result (λ v. map lane_way v.routes ≡ ways_of columns.old) }
    ensures next { IfOk result (λ v. AreNextOf columns.old v.routes) }
    ensures get { IfOk result (λ v. v.inbox.get ≡ first_getter (inbox_of v)) }
    ensures ports { IfOk result (λ v. v.ports.table ≡ arc_value seats.table) }
    ensures words { IfOk result (λ v. v.words.seat.table ≡ arc_value seats.meter) }
    ensures own { IfOk result (λ v. v.words.seat ≡ seats.own) }
    ensures steps { IfOk result (λ v. v.words.seat.view.steps ≡ []) }
    ensures total { IfOk result (λ v. v.total ≡ 0) }
{
    let (mail, put, get) = Mail::new(alloc)?;
    let mail = Arc::new(alloc, mail)?;
    let routes = routes(alloc, columns)?;
    add_boxes(&mail, put, columns)?;
    Ok(seats.into_vacant(mail, get, routes))
}

// The routes of the next slot.
fn routes(alloc: Global, columns: &mut [Column]) -> Result<Vec<Route<Reader>>, Memory>
    ensures columns { OnOk result (columns.new ≡ map popped columns.old) }
    ensures next { IfOk result (λ routes. AreNextOf columns.old routes.items) }
    ensures ways { IfOk result (λ routes. map lane_way routes.items ≡ ways_of columns.old) }
    ensures put { IfOk result (λ routes. All (λ lane. lane.pass.put ≡ []) routes.items) }
{
    let mut routes = Vec::with_capacity(alloc, columns.len())?;
    for i in 0..columns.len() {
        let column = &mut columns[i];
        routes.push(column.route()?)?;
    }
    Ok(routes)
}

// Gives each line a putter at the mailbox of the next slot. The first line has the first putter.
fn add_boxes(
    mail: &Arc<Mail<Datagram>>,
    mut put: PutPass<Datagram>,
    columns: &mut [Column],
) -> Result<(), Memory>
    requires { put ≡ first_putter (arc_value mail.now).line }
    ensures { OnOk result (columns.new ≡ with_boxes (arc_value mail.now).line (length columns.old) 0 columns.old) }
{
    let Some((first, rest)) = columns.split_first_mut() else {
        return Ok(());
    };
    add_later_boxes(mail, &mut put, rest)?;
    first.add_box(SlotBox::new(Arc::try_clone(mail)?, put))
}

// Gives each of these lines, which are all but the first, a new putter at the mailbox.
fn add_later_boxes(
    mail: &Arc<Mail<Datagram>>,
    put: &mut PutPass<Datagram>,
    columns: &mut [Column],
) -> Result<(), Memory>
    requires { put.old ≡ first_putter (arc_value mail.now).line }
    ensures boxes { OnOk result (columns.new ≡ with_boxes (arc_value mail.now).line (suc (length columns.old)) 1 columns.old) }
    ensures put { OnOk result (put.new ≡ new_putter (arc_value mail.now).line (suc (length columns.old)) 0) }
{
    for i in 0..columns.len() {
        let held = new_box(mail, put)?;
        columns[i].add_box(held)?;
    }
    Ok(())
}

// A new putter at the mailbox.
fn new_box(mail: &Arc<Mail<Datagram>>, put: &mut PutPass<Datagram>) -> Result<SlotBox, Memory>
    requires { put.old.mail ≡ (arc_value mail.now).line }
    ensures put { OnOk result (put.new ≡ split_from put.old) }
    ensures new { IfOk result (λ held. held ≡ new_from put.old) }
{
    let again = Arc::try_clone(mail)?;
    Ok(SlotBox::new(again, mail.split(put)))
}
