ghost use Rattle.std.specs.Prelude.{◌≡◌, ◌==◌, ◌&&◌, ◌||◌, nat_lt, ℕ, false, OnOk, option_copied};
ghost use Rattle.rds_model.specs.Alive.{aims_at};
ghost use Rattle.rds_report.specs.TakenBackWalk.{is_above, takes};

use rds_model::Target;
use rds_wire::Memory;
use std::alloc::Global;
use std::collections::BTreeMap;

/// The cancellations that follow on an entry of a journal: by slot and port, and by slot where they cover all ports, the
/// least number that was acknowledged when one came.
#[derive(Drop)]
pub struct Cancellations {
    pub ports: BTreeMap<(u16, u16), u64>,
    pub slots: BTreeMap<u16, u64>,
}

impl Cancellations {
    /// None yet.
    pub fn new(alloc: Global) -> Cancellations
        ensures { (slot dport n : ℕ) → takes result slot dport n ≡ false }
    {
        Cancellations {
            ports: BTreeMap::new(alloc),
            slots: BTreeMap::new(alloc),
        }
    }

    /// One more, which came when the numbers up to `acked` were acknowledged.
    pub fn add(&mut self, slot: u16, target: Target, acked: u64) -> Result<(), Memory>
        ensures { OnOk result ((s d n : ℕ) → takes self.new s d n ≡ takes self.old s d n || ((slot == s && aims_at target d) && nat_lt acked n)) }
    {
        match target {
            Target::Port(port) => {
                let least = least(self.ports.get(&(slot, port)), acked);
                self.ports.insert((slot, port), least)?;
            }
            Target::All => {
                let least = least(self.slots.get(&slot), acked);
                self.slots.insert(slot, least)?;
            }
        }
        Ok(())
    }

    /// Whether one of them takes back the datagram of a number.
    pub fn take(&self, slot: u16, dport: u16, number: u64) -> bool
        ensures { result ≡ takes self.now slot dport number }
    {
        above(self.ports.get(&(slot, dport)), number) || above(self.slots.get(&slot), number)
    }
}

// The lesser of two acknowledged numbers.
fn least(before: Option<&u64>, acked: u64) -> u64
    ensures { (n : ℕ) → nat_lt result n ≡ is_above (option_copied before.entry) n || nat_lt acked n }
{
    match before {
        Some(before) => acked.min(*before),
        None => acked,
    }
}

// Whether a number is above the acknowledged one, where there is one.
fn above(acked: Option<&u64>, number: u64) -> bool
    ensures { result ≡ is_above (option_copied acked.entry) number }
{
    match acked {
        Some(acked) => *acked < number,
        None => false,
    }
}
