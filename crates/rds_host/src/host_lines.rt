//! How the lines of a host are made.
ghost use Rattle.std.specs.Prelude.{◌≡◌, ◌≤◌, ◌+◌, [], All, IfOk, OnOk, length, map};
ghost use Rattle.std.specs.Arc.{arc_value};
ghost use Rattle.rds_model.specs.declared.journal.TheConstants.{MAX_ENTRIES, MIN_ENTRIES};
ghost use Rattle.rds_line_channel.specs.Streams.{AreNumbered, IsUnused};
ghost use Rattle.rds_meter.specs.Grounds.{seats_of};
ghost use Rattle.rds_host.specs.Passes.{line_seats};
ghost use Rattle.rds_host.specs.Ties.{AddsLine, AreLinesOf};

use crate::column::Column;
use crate::seats::Seats;
use rds_fmap::Writer;
use rds_line::Line;
use rds_link::End;
use rds_wire::Memory;
use std::alloc::Global;

/// The line of each column, over the streams in the same place. The last line has the first seat at the meter, and with it all that
/// weren't split off.
pub(crate) fn lines<E: End>(
    alloc: Global,
    addr: u32,
    mut seats: Seats,
    mut columns: Vec<Column>,
    mut streams: Vec<Vec<(u32, E)>>,
    limit: u32,
) -> Result<Vec<Line<E, Writer>>, Memory>
    requires some { 1 ≤ length columns.items }
    requires boxes { All (λ c. length c.boxes ≡ (arc_value seats.table).slots) columns.items }
    requires seats { length columns.items ≤ seats.seat.view.splits }
    requires words { length columns.items ≤ seats.own.view.splits }
    requires streams { length streams.items ≡ length columns.items }
    requires numbered { All (λ list. AreNumbered list.items) streams.items }
    requires unused { All (λ list. All (λ stream. IsUnused E.means stream.1) list.items) streams.items }
    requires least { MIN_ENTRIES ≤ limit }
    requires most { limit ≤ MAX_ENTRIES }
    ensures lines { IfOk result (λ lines.
        AreLinesOf addr limit (arc_value seats.table) (arc_value seats.meter) columns.items (map (λ list. list.items) streams.items) lines.items) }
    ensures stand { IfOk result (λ lines. line_seats lines.items ≡ seats_of seats.own.view) }
{
    let Some(column) = columns.pop() else {
        return Err(Memory);
    };
    let Some(list) = streams.pop() else {
        return Err(Memory);
    };
    let mut lines = first_lines(alloc, addr, &mut seats, columns, streams, limit)?;
    add_line(alloc, addr, &mut lines, seats.last(), column, list, limit)?;
    Ok(lines)
}

// The line of each of these columns, with seats that are split off, over the streams in the same place.
fn first_lines<E: End>(
    alloc: Global,
    addr: u32,
    seats: &mut Seats,
    columns: Vec<Column>,
    streams: Vec<Vec<(u32, E)>>,
    limit: u32,
) -> Result<Vec<Line<E, Writer>>, Memory>
    requires boxes { All (λ c. length c.boxes ≡ (arc_value seats.old.table).slots) columns.items }
    requires seats { length columns.items ≤ seats.old.seat.view.splits }
    requires words { length columns.items ≤ seats.old.own.view.splits }
    requires streams { length streams.items ≡ length columns.items }
    requires numbered { All (λ list. AreNumbered list.items) streams.items }
    requires unused { All (λ list. All (λ stream. IsUnused E.means stream.1) list.items) streams.items }
    requires least { MIN_ENTRIES ≤ limit }
    requires most { limit ≤ MAX_ENTRIES }
    ensures lines { IfOk result (λ lines.
        AreLinesOf addr limit (arc_value seats.old.table) (arc_value seats.old.meter) columns.items (map (λ list. list.items) streams.items) lines.items) }
    ensures table { OnOk result (arc_value seats.new.table ≡ arc_value seats.old.table) }
    ensures meter { OnOk result (arc_value seats.new.meter ≡ arc_value seats.old.meter) }
    ensures seats { OnOk result (seats.new.seat.view.splits + length columns.items ≡ seats.old.seat.view.splits) }
    ensures stand { IfOk result (λ lines. line_seats lines.items + seats_of seats.new.own.view ≡ seats_of seats.old.own.view) }
{
    let mut lines = Vec::with_capacity(alloc, columns.len())?;
    let mut streams = streams.into_iter();
    for column in columns {
        let Some(list) = streams.next() else {
            return Err(Memory);
        };
        let own = seats.split()?;
        add_line(alloc, addr, &mut lines, own, column, list, limit)?;
    }
    Ok(lines)
}

// Adds the line of a column with these seats, over these streams.
fn add_line<E: End>(
    alloc: Global,
    addr: u32,
    lines: &mut Vec<Line<E, Writer>>,
    seats: Seats,
    column: Column,
    list: Vec<(u32, E)>,
    limit: u32,
) -> Result<(), Memory>
    requires boxes { length column.boxes ≡ (arc_value seats.table).slots }
    requires looks { seats.seat.view.steps ≡ [] }
    requires numbered { AreNumbered list.items }
    requires unused { All (λ stream. IsUnused E.means stream.1) list.items }
    requires least { MIN_ENTRIES ≤ limit }
    requires most { limit ≤ MAX_ENTRIES }
    ensures line { OnOk result
        (AddsLine addr limit (arc_value seats.table) (arc_value seats.meter) column list.items lines.old.items lines.new.items) }
    ensures stand { OnOk result (line_seats lines.new.items ≡ line_seats lines.old.items + seats_of seats.own.view) }
{
    lines.push(column.into_line(alloc, addr, seats, list, limit)?)?;
    Ok(())
}
