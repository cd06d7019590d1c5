//! What the tests have of a host with one slot.
ghost use Rattle.std.specs.Prelude.{◌≡◌, ℕ, IfOk};
ghost use Rattle.rds_meter.specs.Places.{part, freed_word, put_word};

use rds_bindtab::BindTable;
use rds_line_parts::{LinePorts, LineWords};
use rds_meter::Meter;
use rds_wire::Memory;
use std::alloc::Global;
use std::sync::Arc;

/// A line's seat at a meter whose slot has a receive limit of 10 bytes.
pub fn words(alloc: Global) -> Result<LineWords, Memory>
    ensures put { IfOk result (λ w. part (put_word 0) w.view.steps ≡ 0) }
    ensures freed { IfOk result (λ w. (slot : ℕ) → part (freed_word slot) w.view.steps ≡ 0) }
{
    let (meter, mut seat) = Meter::new(alloc, 1)?;
    let mut socket = meter.split(&mut seat);
    meter.own(&mut socket, 0);
    meter.limit_set(&mut socket, 0, 10);
    Ok(LineWords::new(Arc::new(alloc, meter)?, seat))
}

/// A line's seat at a port table in which a socket holds port 4001.
pub fn ports(alloc: Global) -> Result<LinePorts, Memory> {
    let (table, mut holder) = BindTable::new(alloc, 1)?;
    let looker = table.split(&mut holder);
    if table.draw(&mut holder).is_ok() {
        let _claimed = table.claim(&mut holder, 4001);
    }
    Ok(LinePorts::new(Arc::new(alloc, table)?, looker))
}
