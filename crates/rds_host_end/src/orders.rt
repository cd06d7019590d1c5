//! The joins of the order queues of a host's lines, and of the readers of the congestion maps that its slots looked at.
ghost use Rattle.std.specs.Prelude.{◌≡◌, ◌++◌, All, IfOk, OnOk, Option, drop, map};
ghost use Rattle.std.specs.Option.{option_to_list};
ghost use Rattle.rds_socket_parts.specs.Lanes.{IsOf};
ghost use Rattle.rds_host_end.specs.Joins.{slot_of_order};
ghost use Rattle.rds_host_end.specs.Columns.{AtEachPlace, column, passes_of, rows_left};
ghost use Rattle.rds_host_end.specs.Shown.{ArePuttersOf, AreReadersOf, HasLookedAt, HaveLookedAt, ShowsAllPuts};

use crate::join_orders;
use rds_fmap::{Reader, Writer, close};
use rds_line_parts::LineOrders;
use rds_mail::{Asked, PutPass};
use rds_socket::Route;
use rds_wire::Memory;
use std::alloc::Global;
use std::sync::Wait;
use std::vec::IntoIter;

/// Joins the putters of each line's order queue into its getter, and the readers of each peer's map into its writer. The routes of
/// each slot lead to the lines in their order.
pub(crate) fn join_all_orders<R: Wait>(
    rt: &R,
    alloc: Global,
    lines: Vec<(LineOrders, Writer)>,
    routes: &mut [IntoIter<Route<Reader>>],
) -> Result<(), Memory>
    requires putters { AtEachPlace (λ line lanes. ArePuttersOf line.0 (passes_of lanes)) lines.items (rows_left routes.old) }
    requires readers { AtEachPlace (λ line lanes. AreReadersOf line.1 lanes) lines.items (rows_left routes.old) }
    ensures shown { OnOk result
        (AtEachPlace (λ line lanes. ShowsAllPuts slot_of_order IsOf line.0 (passes_of lanes)) lines.items (rows_left routes.old)) }
    ensures looks { OnOk result (AtEachPlace (λ line lanes. HaveLookedAt line.1.published lanes) lines.items (rows_left routes.old)) }
{
    for line in lines {
        let (own, mut writer) = line;
        let passes = next_passes(alloc, routes, &mut writer)?;
        join_line(rt, own, passes);
    }
    Ok(())
}

// Takes the next route of each slot: the putters are left, and the readers are joined into the writer of their map.
fn next_passes(
    alloc: Global,
    routes: &mut [IntoIter<Route<Reader>>],
    writer: &mut Writer,
) -> Result<Vec<PutPass<Asked>>, Memory>
    requires { AreReadersOf writer.old (column 0 (rows_left routes.old)) }
    ensures next { IfOk result (λ passes. passes.items ≡ passes_of (column 0 (rows_left routes.old))) }
    ensures left { OnOk result (rows_left routes.new ≡ map (drop 1) (rows_left routes.old)) }
    ensures looks { OnOk result (HaveLookedAt writer.old.published (column 0 (rows_left routes.old))) }
{
    let mut passes = Vec::with_capacity(alloc, routes.len())?;
    for i in 0..routes.len() {
        let route = routes[i].next();
        add_pass(&mut passes, route, writer)?;
    }
    Ok(passes)
}

// Adds the putter of a route, if there is one, and joins the route's reader into the writer.
fn add_pass(
    passes: &mut Vec<PutPass<Asked>>,
    route: Option<Route<Reader>>,
    writer: &mut Writer,
) -> Result<(), Memory>
    requires { AreReadersOf writer.old (option_to_list route) }
    ensures passes { OnOk result (passes.new.items ≡ passes.old.items ++ passes_of (option_to_list route)) }
    ensures looks { HaveLookedAt writer.old.published (option_to_list route) }
    ensures same { writer.new ≡ writer.old }
{
    match route {
        Some(route) => {
            let pass = pass_of(route, writer);
            passes.push(pass)?;
            Ok(())
        }
        None => Ok(()),
    }
}

// The putter of a route, whose reader is joined into the writer.
fn pass_of(route: Route<Reader>, writer: &mut Writer) -> PutPass<Asked>
    requires { route.reader.pair ≡ writer.old.pair }
    ensures pass { result ≡ route.pass }
    ensures looks { HasLookedAt writer.old.published route.reader }
    ensures same { writer.new ≡ writer.old }
{
    let Route {
        peer: _,
        orders: _orders,
        pass,
        map: reader,
    } = route;
    close(writer, reader);
    pass
}

// Joins all putters of a line's order queue into its getter. A host without slots has no putter.
fn join_line<R: Wait>(rt: &R, own: LineOrders, passes: Vec<PutPass<Asked>>)
    requires putters { ArePuttersOf own passes.items }
    ensures shown { ShowsAllPuts slot_of_order IsOf own passes.items }
{
    if passes.is_empty() {
        return;
    }
    let (mail, mut get) = own.into_parts();
    join_orders(rt, &mail, &mut get, passes);
}
