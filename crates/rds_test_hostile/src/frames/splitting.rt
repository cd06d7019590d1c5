//! A splitter beside the plain reader.
use super::chance::Chance;
use super::plain::{Head, Next, Sight, front};
use super::tally::Tally;
use rds_frame::{FrameError, Splitter, Took};
use rds_wire::{Frame, Malformed, Memory, encode};
use std::alloc::Global;

/// What a splitter hasn't taken yet, and what the plain reader hasn't read.
#[derive(Clone, Copy)]
struct Course<'a> {
    left: &'a [u8],
    unread: &'a [u8],
}

/// Whether a splitter answers on this stream, which comes in pieces, as the plain reader does.
pub fn is_split(
    alloc: Global,
    stream: &[u8],
    sight: Sight,
    chance: &mut Chance,
    tally: &mut Tally,
) -> Result<bool, Memory> {
    let mut splitter = Splitter::new(alloc)?;
    follow(&mut splitter, stream, sight, chance, tally)
}

fn follow(
    splitter: &mut Splitter,
    stream: &[u8],
    sight: Sight,
    chance: &mut Chance,
    tally: &mut Tally,
) -> Result<bool, Memory> {
    let mut course = Course {
        left: stream,
        unread: stream,
    };
    for _ in 0..stream.len() {
        let piece = chance.piece(course.left);
        match splitter.take(piece, sight.highest, sight.known) {
            Ok(took) => match after(splitter, took, course, sight) {
                Some(next) => {
                    tally.count_frame(next.unread.len() < course.unread.len());
                    course = next;
                }
                None => return Ok(false),
            },
            Err(FrameError::Malformed(fault)) => {
                tally.count_fault(fault);
                return Ok(is_refused(splitter, fault, front(course.unread, sight)));
            }
            Err(FrameError::Memory) => return Err(Memory),
            Err(FrameError::Closed) => return Ok(false),
        }
    }
    Ok(course.left.is_empty() && matches!(front(course.unread, sight), Next::Part))
}

// The course after what the splitter took, unless a frame isn't the one that the plain reader finds there.
fn after<'a>(
    splitter: &mut Splitter,
    took: Took,
    course: Course<'a>,
    sight: Sight,
) -> Option<Course<'a>> {
    let left = course.left.get(took.used..)?;
    let Some(frame) = splitter.done() else {
        let unread = course.unread;
        return if took.ready {
            None
        } else {
            Some(Course { left, unread })
        };
    };
    let unread = behind(&frame, front(course.unread, sight))?;
    if !took.ready || unread.len() != left.len() {
        return None;
    }
    Some(Course { left, unread })
}

/// What stands behind this frame, if it is the one at the front.
pub fn behind<'a>(frame: &Frame, front: Next<'a>) -> Option<&'a [u8]> {
    let Next::Frame {
        head,
        payload,
        rest,
    } = front
    else {
        return None;
    };
    if is_head(frame, head) && frame.payload.as_slice() == payload {
        Some(rest)
    } else {
        None
    }
}

fn is_head(frame: &Frame, head: Head<'_>) -> bool {
    encode(&frame.header).as_slice() == head.bytes
}

// Whether the splitter refused the header at the front for this fault, and takes nothing from then on.
fn is_refused(splitter: &mut Splitter, fault: Malformed, front: Next<'_>) -> bool {
    let Next::Refused { head, fault: found } = front else {
        return false;
    };
    let is_header = match splitter.refused() {
        Some(header) => encode(header).as_slice() == head.bytes,
        None => false,
    };
    let answer = splitter.take(&[0], u64::MAX, 0);
    is_header && found == fault && answer == Err(FrameError::Closed)
}
