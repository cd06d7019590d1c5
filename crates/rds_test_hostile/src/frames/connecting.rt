//! A connection beside the plain reader.
use super::chance::Chance;
use super::making::{HELD, SENT};
use super::plain::{Head, Next, Sight, front};
use super::splitting::behind;
use super::steps::{Kept, fault_at, feed, outcome_at, pass, ready};
use super::tally::Tally;
use rds_conn::{Conn, ConnError, Fed, Verdict};
use rds_model::Outcome;
use rds_wire::Malformed;
use std::alloc::Global;

/// What a connection reads: no generation is too low for it.
const SIGHT: Sight = Sight {
    highest: SENT,
    known: 0,
};

/// What a plain reader knows after the frames that it has read.
#[derive(Clone, Copy)]
struct Plain<'a> {
    unread: &'a [u8],
    last: u64,
    accepted: u64,
    acknowledged: u64,
}

/// Whether a connection on which some datagrams were sent answers on this stream, which comes in pieces, as a plain reader does.
pub fn is_taken(
    alloc: Global,
    stream: &[u8],
    chance: &mut Chance,
    tally: &mut Tally,
) -> Result<bool, ConnError> {
    let mut kept: Kept = ready(alloc, SENT)?;
    follow(&mut kept.conn, stream, chance, tally)
}

fn follow(
    conn: &mut Conn,
    stream: &[u8],
    chance: &mut Chance,
    tally: &mut Tally,
) -> Result<bool, ConnError> {
    let mut left = stream;
    let mut plain = Plain {
        unread: stream,
        last: 0,
        accepted: SENT,
        acknowledged: 0,
    };
    for _ in 0..stream.len() {
        match feed(conn, chance.piece(left)) {
            Ok(fed) => {
                left = left.get(fed.used..).unwrap_or(&[]);
                match after(conn, fed, plain, left)? {
                    Some(next) => {
                        tally.count_frame(fed.waiting);
                        plain = next;
                    }
                    None => return Ok(false),
                }
            }
            Err(ConnError::Malformed(fault)) => {
                tally.count_fault(fault);
                return Ok(is_over(conn, fault, plain));
            }
            Err(error) => return Err(error),
        }
    }
    Ok(left.is_empty() && matches!(front(plain.unread, SIGHT), Next::Part))
}

// What a plain reader knows after what the connection took, unless it answered otherwise.
fn after<'a>(
    conn: &mut Conn,
    fed: Fed,
    plain: Plain<'a>,
    left: &[u8],
) -> Result<Option<Plain<'a>>, ConnError> {
    if !fed.waiting {
        return Ok(if conn.waiting().is_none() {
            Some(plain)
        } else {
            None
        });
    }
    let Some((verdict, next)) = expected(conn, plain) else {
        return Ok(None);
    };
    if conn.verdict() != Some(verdict) || next.unread.len() != left.len() {
        return Ok(None);
    }
    let entry = conn.journal().len();
    pass(conn)?;
    let is_right = outcome_at(conn.journal(), entry) == Some(outcome(verdict)) && is_at(conn, next);
    Ok(if is_right { Some(next) } else { None })
}

// The verdict on the frame that waits, and what is known once it is passed, if it is the next one.
fn expected<'a>(conn: &Conn, plain: Plain<'a>) -> Option<(Verdict, Plain<'a>)> {
    let front = front(plain.unread, SIGHT);
    let unread = behind(conn.waiting()?, front)?;
    let Next::Frame { head, .. } = front else {
        return None;
    };
    let verdict = verdict(head, plain.last);
    let next = passed(head, verdict, Plain { unread, ..plain });
    Some((verdict, next))
}

fn verdict(head: Head<'_>, last: u64) -> Verdict {
    if head.is_map() {
        return if head.len() == 8_192 {
            Verdict::Map
        } else {
            Verdict::OddMap
        };
    }
    if head.is_acknowledgement() {
        return Verdict::AckOnly;
    }
    if head.is_repeated() && head.sequence() <= last {
        return Verdict::Old;
    }
    match (head.dport(), head.sport()) {
        (0, 0) => Verdict::Void,
        (0, _) => Verdict::Ping,
        (port, _) => Verdict::Deliver {
            dport: (port % 65_536) as u16,
        },
    }
}

// What is known once a frame with this verdict is passed.
fn passed<'a>(head: Head<'_>, verdict: Verdict, plain: Plain<'a>) -> Plain<'a> {
    let last = match verdict {
        Verdict::Deliver { .. } | Verdict::Ping | Verdict::Void => head.sequence(),
        Verdict::Old | Verdict::AckOnly | Verdict::Map | Verdict::OddMap => plain.last,
    };
    let pongs = if verdict == Verdict::Ping { 1 } else { 0 };
    Plain {
        last,
        accepted: plain.accepted.wrapping_add(pongs),
        acknowledged: plain.acknowledged.max(head.ack()),
        ..plain
    }
}

// What the journal says of a frame with this verdict.
fn outcome(verdict: Verdict) -> Outcome {
    match verdict {
        Verdict::Deliver { dport } if dport == HELD => Outcome::Slot(0),
        Verdict::Deliver { .. } => Outcome::NoSocket,
        Verdict::Old => Outcome::Old,
        Verdict::Ping => Outcome::Ping,
        Verdict::Void => Outcome::Void,
        Verdict::AckOnly => Outcome::AckOnly,
        Verdict::Map => Outcome::Map,
        Verdict::OddMap => Outcome::OddMap,
    }
}

// Whether the connection knows the same.
fn is_at(conn: &Conn, plain: Plain<'_>) -> bool {
    let unacknowledged = plain.accepted.wrapping_sub(plain.acknowledged);
    conn.last_passed() == plain.last
        && conn.accepted() == plain.accepted
        && u64::from(conn.unacked()) == unacknowledged
}

// Whether the connection refused the header at the front for this fault, and its stream is over.
fn is_over(conn: &mut Conn, fault: Malformed, plain: Plain<'_>) -> bool {
    let Next::Refused { fault: found, .. } = front(plain.unread, SIGHT) else {
        return false;
    };
    let entry = conn.journal().len().saturating_sub(1);
    found == fault
        && fault_at(conn.journal(), entry) == Some(fault)
        && conn.stream().is_none()
        && is_at(conn, plain)
        && feed(conn, &[0]) == Err(ConnError::Closed)
}
