//! The calls of tables, sockets, lines, hosts, reports and runs.
use super::tried::Tried;
use super::{hosts, lines, runs, sockets, tables, texts};
use std::alloc::Global;
use std::net::Net;
use std::sync::Wait;
use std::thread::Threads;

/// The names of the calls.
pub const CALLS: [&str; 16] = [
    "mail",
    "port-table",
    "meter",
    "maps",
    "send",
    "cancel",
    "cut",
    "close",
    "deliver",
    "line",
    "turn",
    "host",
    "gather",
    "report",
    "long-report",
    "run",
];

/// What came of the call with this name, or nothing where there was no memory for what it needs.
pub fn made<R: Threads + Wait + Net + Sync>(rt: &R, alloc: Global, name: &str) -> Option<Tried> {
    match name {
        "mail" => tables::mail(alloc),
        "port-table" => tables::port_table(alloc),
        "meter" => tables::meter(alloc),
        "maps" => tables::maps(alloc),
        "send" => sockets::send(rt, alloc),
        "cancel" => sockets::cancel(rt, alloc),
        "cut" => sockets::cut(rt, alloc),
        "close" => sockets::close(rt, alloc),
        "deliver" => sockets::deliver(rt, alloc),
        "line" => lines::line(rt, alloc),
        "turn" => lines::turn(rt, alloc),
        "host" => hosts::host(rt, alloc),
        "gather" => hosts::gather(rt, alloc),
        "report" => texts::report(alloc),
        "long-report" => texts::long_report(rt, alloc),
        _ => runs::run(rt, alloc),
    }
}
