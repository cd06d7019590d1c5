//! One round of the lines of each two hosts.
ghost use Rattle.std.specs.Prelude.{◌≡◌, ◌≤◌, ◌<◌, ◌-◌, ℕ, Some, length, slice_get};
ghost use Rattle.rds_text.specs.declared.host.TheConstants.{MAX_HOSTS};
ghost use Rattle.rds_run_rounds.specs.Causes.{known_of};
ghost use Rattle.rds_run_rounds.specs.Connection.{AreConnected, AreHosts};
ghost use Rattle.rds_run_rounds.specs.Grid.{rows_of};
ghost use Rattle.rds_run_rounds.specs.Sweep.{AreConnectedRows, AreSwept, IsPair, IsPairBelow, IsPairOf, RowsHadRound};

use crate::rounds::Lines;
use crate::turning::{either, round};
use crate::verdict::{Round, Wanted};
use rds_fmap::Writer;
use rds_line::Line;
use rds_link::{End, Wire};
use std::sync::Wait;

/// One round of the lines of each two hosts, the pairs in ascending order.
pub(crate) fn round_of_all<W: Wire, R: Wait>(
    rt: &R,
    wire: &W,
    wanted: &[Vec<Wanted>],
    lines: &mut Lines<W::End>,
) -> Round
    requires { (limit hosts : ℕ) × AreHosts W.End.means limit hosts (rows_of lines.old.items) }
    ensures { AreSwept W.End.means (rows_of wanted.now) (IsPairBelow (length lines.old.items) (length lines.old.items)) result
        (rows_of lines.old.items) (rows_of lines.new.items) }
{
    let hosts = hosts_of(lines);
    let mut came = Round::Idle;
    for low in 0..hosts {
        let of_host = round_of_host(rt, wire, wanted, low, lines);
        came = either(came, of_host);
    }
    came
}

// How many hosts there are.
fn hosts_of<E: End>(lines: &Lines<E>) -> u8
    requires { length lines.now.items ≤ MAX_HOSTS }
    ensures { result ≡ length lines.now.items }
{
    lines.len() as u8
}

// One round of the lines of a host with each higher one, and of those of the higher ones with it.
fn round_of_host<W: Wire, R: Wait>(
    rt: &R,
    wire: &W,
    wanted: &[Vec<Wanted>],
    low: u8,
    lines: &mut Lines<W::End>,
) -> Round
    requires hosts { (limit hosts : ℕ) × AreHosts W.End.means limit hosts (rows_of lines.old.items) }
    requires within { low < length lines.old.items }
    ensures { AreSwept W.End.means (rows_of wanted.now) (IsPairOf low (length lines.old.items)) result (rows_of lines.old.items)
        (rows_of lines.new.items) }
{
    let hosts = hosts_of(lines);
    let mut came = Round::Idle;
    for high in low + 1..hosts {
        let of_pair = round_of(rt, wire, wanted, low, high, lines);
        came = either(came, of_pair);
    }
    came
}

// One round of the two lines of two hosts.
fn round_of<W: Wire, R: Wait>(
    rt: &R,
    wire: &W,
    wanted: &[Vec<Wanted>],
    low: u8,
    high: u8,
    lines: &mut Lines<W::End>,
) -> Round
    requires hosts { (limit hosts : ℕ) × AreHosts W.End.means limit hosts (rows_of lines.old.items) }
    requires less { low < high }
    requires within { high < length lines.old.items }
    ensures { AreSwept W.End.means (rows_of wanted.now) (IsPair low high) result (rows_of lines.old.items) (rows_of lines.new.items) }
{
    let wanted = wanted_of(wanted, low, high);
    let (lower, higher) = lines.split_at_mut(usize::from(high));
    round_between(
        rt,
        wire,
        wanted,
        low,
        high,
        &mut lower[usize::from(low)],
        &mut higher[0],
    )
}

// What is to be known of two hosts.
fn wanted_of(wanted: &[Vec<Wanted>], low: u8, high: u8) -> Wanted
    requires { low < high }
    ensures { result ≡ known_of (rows_of wanted.now) low high }
{
    if let Some(row) = wanted.get(usize::from(low)) {
        if let Some(wanted) = row.get(usize::from(high - 1)) {
            return *wanted;
        }
    }
    Wanted {
        lacks: false,
        cuts: 0,
    }
}

// One round of the two lines of two hosts, which stand in the rows of these.
fn round_between<W: Wire, R: Wait>(
    rt: &R,
    wire: &W,
    wanted: Wanted,
    low: u8,
    high: u8,
    lower: &mut Vec<Line<W::End, Writer>>,
    higher: &mut Vec<Line<W::End, Writer>>,
) -> Round
    requires less { low < high }
    requires connected { (limit : ℕ) × AreConnectedRows W.End.means limit low high lower.old.items higher.old.items }
    ensures { RowsHadRound W.End.means wanted low high result lower.old.items higher.old.items lower.new.items higher.new.items }
{
    let one = &mut lower[usize::from(high - 1)];
    let other = &mut higher[usize::from(low)];
    round(rt, wire, wanted, low, high, one, other)
}
