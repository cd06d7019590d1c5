ghost use Rattle.std.specs.Prelude.{◌≤◌};
ghost use Rattle.rds_model.specs.declared.journal.TheConstants.{MIN_ENTRIES, MAX_ENTRIES};

use rds_cong::PortMap;
use rds_model::{Entry, Journal, Order, Outcome};
use rds_play_pair::{ConnPair, PairEnd, PairError, PairStep};
use rds_wire::{Memory, Payload};
use std::alloc::Global;
use std::process::Abort;
use std::test::Fail;

// A pair whose slots of sockets are below 4. Each test that owns one is proved the faster where one call drops it.
struct Played {
    pair: ConnPair,
}

impl Drop for Played {
    fn drop(self) {
        let Self { pair: _pair } = self;
    }
}

impl Played {
    fn into_journals(self) -> (Journal, Journal) {
        let Self { pair } = self;
        pair.into_journals()
    }
}

fn unplayed(alloc: Global, limit: u32) -> Result<Played, Memory>
    requires least { MIN_ENTRIES ≤ limit }
    requires most { limit ≤ MAX_ENTRIES }
{
    let pair = ConnPair::new(alloc, 1, 2, 4, limit)?;
    Ok(Played { pair })
}

// Runs these steps.
fn run(played: &mut Played, steps: &[PairStep]) -> Result<(), PairError> {
    played.pair.run(steps)
}

// A socket of the first end sends a datagram.
fn hello(alloc: Global) -> Result<PairStep, Fail> {
    let payload = Payload::copy_of(alloc, b"hello")?;
    Ok(PairStep::Order {
        end: PairEnd::First,
        order: Order::Send {
            slot: 0,
            sport: 4000,
            dport: 4001,
            payload,
        },
    })
}

fn pull(alloc: Global, end: PairEnd) -> Result<PairStep, Fail> {
    let map = PortMap::new(alloc)?;
    Ok(PairStep::Pull { end, map })
}

// A frame goes from one end to the other, which passes it.
fn push_frame(
    alloc: Global,
    steps: &mut Vec<PairStep>,
    from: PairEnd,
    to: PairEnd,
) -> Result<(), Fail> {
    steps.push(pull(alloc, from)?)?;
    steps.push(PairStep::Move { to, bytes: 10_000 })?;
    steps.push(PairStep::Pass {
        end: to,
        slot: Some(3),
    })?;
    Ok(())
}

// A socket of the first end sends a datagram, a stream is opened, and the congestion map goes ahead.
fn push_beginning(alloc: Global, steps: &mut Vec<PairStep>) -> Result<(), Fail> {
    steps.push(hello(alloc)?)?;
    steps.push(PairStep::Open)?;
    push_frame(alloc, steps, PairEnd::First, PairEnd::Second)
}

// What both ends wrote where a datagram was delivered.
fn assert_delivered(rt: &impl Abort, first: &Journal, second: &Journal) {
    assert_eq!(rt; first.len(), 5);
    assert!(rt;
        matches!(
            first.at(4),
            Some(Entry::Read {
                outcome: Outcome::Map,
                ..
            })
        )
    );
    assert_eq!(rt; second.len(), 4);
    assert!(rt;
        matches!(
            second.at(2),
            Some(Entry::Read {
                outcome: Outcome::Slot(3),
                ..
            })
        )
    );
}

#[test]
fn hello_is_delivered_once(rt: HostRuntime) -> Result<(), Fail> {
    let alloc = rt.alloc();
    let mut steps = Vec::new(alloc);
    push_beginning(alloc, &mut steps)?;
    push_frame(alloc, &mut steps, PairEnd::First, PairEnd::Second)?;
    push_frame(alloc, &mut steps, PairEnd::Second, PairEnd::First)?;
    let mut played = unplayed(alloc, 100)?;
    assert_eq!(rt; run(&mut played, &steps), Ok(()));
    let (first, second) = played.into_journals();
    assert_delivered(&rt, &first, &second);
    Ok(())
}

// A stream is cut in the middle of a payload, and the next one carries the datagram again.
fn push_cut(alloc: Global, steps: &mut Vec<PairStep>) -> Result<(), Fail> {
    push_beginning(alloc, steps)?;
    steps.push(pull(alloc, PairEnd::First)?)?;
    steps.push(PairStep::Move {
        to: PairEnd::Second,
        bytes: 50,
    })?;
    steps.push(PairStep::Cut)?;
    steps.push(PairStep::Open)?;
    push_frame(alloc, steps, PairEnd::First, PairEnd::Second)?;
    push_frame(alloc, steps, PairEnd::First, PairEnd::Second)
}

// What both ends wrote where the datagram was delivered on the second stream.
fn assert_delivered_later(rt: &impl Abort, first: &Journal, second: &Journal) {
    assert_eq!(rt; first.len(), 8);
    assert_eq!(rt; second.len(), 6);
    assert!(rt; matches!(second.at(2), Some(Entry::Shut { stream: 1 })));
    assert!(rt; matches!(second.at(3), Some(Entry::Open { stream: 2 })));
    assert!(rt;
        matches!(
            second.at(5),
            Some(Entry::Read {
                outcome: Outcome::Slot(3),
                ..
            })
        )
    );
}

#[test]
fn hello_is_delivered_once_over_a_cut_in_its_payload(rt: HostRuntime) -> Result<(), Fail> {
    let alloc = rt.alloc();
    let mut steps = Vec::new(alloc);
    push_cut(alloc, &mut steps)?;
    let mut played = unplayed(alloc, 100)?;
    assert_eq!(rt; run(&mut played, &steps), Ok(()));
    let pair = &played.pair;
    assert_delivered_later(
        &rt,
        pair.journal(PairEnd::First),
        pair.journal(PairEnd::Second),
    );
    Ok(())
}

// One end is shut while what it wrote is in flight, and that arrives.
fn push_shut(alloc: Global, steps: &mut Vec<PairStep>) -> Result<(), Fail> {
    push_beginning(alloc, steps)?;
    steps.push(pull(alloc, PairEnd::First)?)?;
    steps.push(PairStep::Shut {
        end: PairEnd::First,
    })?;
    steps.push(PairStep::Move {
        to: PairEnd::Second,
        bytes: 60,
    })?;
    steps.push(PairStep::Pass {
        end: PairEnd::Second,
        slot: None,
    })?;
    Ok(())
}

// What the second end wrote where the datagram arrived and no socket held its port.
fn assert_arrived(rt: &impl Abort, second: &Journal) {
    assert!(rt;
        matches!(
            second.at(2),
            Some(Entry::Read {
                outcome: Outcome::NoSocket,
                ..
            })
        )
    );
}

#[test]
fn what_one_end_wrote_arrives_after_it_was_shut(rt: HostRuntime) -> Result<(), Fail> {
    let alloc = rt.alloc();
    let mut steps = Vec::new(alloc);
    push_shut(alloc, &mut steps)?;
    let mut played = unplayed(alloc, 100)?;
    assert_eq!(rt; run(&mut played, &steps), Ok(()));
    assert_arrived(&rt, played.pair.journal(PairEnd::Second));
    Ok(())
}

#[test]
fn a_run_stops_where_a_journal_is_full(rt: HostRuntime) -> Result<(), Fail> {
    let alloc = rt.alloc();
    let mut steps = Vec::new(alloc);
    push_beginning(alloc, &mut steps)?;
    steps.push(pull(alloc, PairEnd::First)?)?;
    let mut played = unplayed(alloc, 4)?;
    let spent = Err(PairError::Spent { entries: 3 });
    assert_eq!(rt; run(&mut played, &steps), spent);
    assert_eq!(rt; played.pair.journal(PairEnd::Second).len(), 2);
    Ok(())
}
