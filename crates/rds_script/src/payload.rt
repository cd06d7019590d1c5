//! The three forms of a payload.

ghost use Rattle.std.specs.Prelude.{◌≡◌, ◌≤◌, IfOk, Ok};
ghost use Rattle.rds_script.specs.Text.{words};
ghost use Rattle.rds_script.specs.Line.{the_bytes};
ghost use Rattle.rds_script.specs.Reading as reading;
ghost use Rattle.rds_script.specs.Reading.{GivesOrMemory, counting};
ghost use Rattle.std.specs.Option.{ok_or};
ghost use Rattle.rds_script.specs.declared.cause.Cause.TheVariants as cause;

use crate::Cause;
use crate::fault::Fault;
use crate::line::first_word;
use crate::place::number_of;
use crate::script::MAX_PAYLOAD;
use hex::FromHexError;
use rds_wire::{Memory, Payload, Payloads};
use std::alloc::Global;

/// How many bytes differ: after so many, a payload that counts up begins again from 0.
const BYTES: usize = 256;

/// Where the bytes of all payloads stand, and the bytes from which those that count up are copied.
#[derive(Drop)]
pub(crate) struct Room {
    payloads: Payloads,
    /// 0, 1, and so on to 255.
    table: [u8; BYTES],
    ghost counts: { table ≡ counting 256 },
}

impl Room {
    /// Room for no payload yet.
    pub(crate) fn new(alloc: Global) -> Room {
        Room {
            payloads: Payloads::new(alloc),
            table: each_byte(),
        }
    }

    /// So many bytes that count up from 0: a few from the table, and more from copies of it.
    fn count_up(&mut self, count: usize) -> Result<Payload, Memory>
        requires { count ≤ 2097152 }
        ensures { IfOk result (λ p. p ≡ counting count) }
    {
        if count <= BYTES {
            return self.payloads.copy_of(&self.table[..count]);
        }
        let bytes = tables(self.payloads.allocator(), &self.table, count)?;
        self.payloads.of_vec(bytes)
    }
}

/// Each byte in turn.
fn each_byte() -> [u8; BYTES]
    ensures { result ≡ counting 256 }
{
    let mut table = [0u8; BYTES];
    for i in 0..BYTES {
        table[i] = i as u8;
    }
    table
}

/// So many bytes of the table, which begins again where it ends.
fn tables(alloc: Global, table: &[u8], count: usize) -> Result<Vec<u8>, Memory>
    requires { table.now ≡ counting 256 }
    ensures { IfOk result (λ v. v.items ≡ counting count) }
{
    let mut bytes = Vec::with_capacity(alloc, count)?;
    for _ in 0..count / BYTES {
        bytes.extend_from_slice(table)?;
    }
    bytes.extend_from_slice(&table[..count % BYTES])?;
    Ok(bytes)
}

/// The payload that the first word of a line's rest stands for, and the rest after it.
#[tactic(auto, unfolding(crate::specs::Reading::payload_at))]
pub(crate) fn payload_at<'a>(room: &mut Room, line: &'a [u8]) -> Result<(Payload, &'a [u8]), Fault>
    ensures { GivesOrMemory (λ r. (the_bytes r.0, words r.1.now)) result
        (reading.payload_at (words line.now)) }
{
    let (word, rest) = first_word(line);
    let payload = payload_of(room, word)?;
    Ok((payload, rest))
}

#[tactic(auto, unfolding(crate::specs::Reading::payload_of))]
fn payload_of(room: &mut Room, word: &[u8]) -> Result<Payload, Fault>
    ensures { GivesOrMemory (λ p. p) result (ok_or (reading.payload_of word.now) cause.Payload) }
{
    match word {
        [form, b':', rest @ ..] => formed(room, *form, rest),
        _ => Err(Fault::Refused(Cause::Payload)),
    }
}

#[tactic(auto, unfolding(crate::specs::Reading::formed))]
fn formed(room: &mut Room, form: u8, rest: &[u8]) -> Result<Payload, Fault>
    ensures { GivesOrMemory (λ p. p) result (ok_or (reading.formed form rest.now) cause.Payload) }
{
    match form {
        b't' => plain(room, rest),
        b'x' => hexed(room, rest),
        b'f' => filled(room, rest),
        _ => Err(Fault::Refused(Cause::Payload)),
    }
}

/// The bytes themselves.
fn plain(room: &mut Room, text: &[u8]) -> Result<Payload, Fault>
    ensures { GivesOrMemory (λ p. p) result (ok_or (reading.limited text.now) cause.Payload) }
{
    if text.len() > MAX_PAYLOAD as usize {
        return Err(Fault::Refused(Cause::Payload));
    }
    Ok(room.payloads.copy_of(text)?)
}

/// A byte for each two hexadecimal digits.
#[tactic(auto, unfolding(crate::specs::Reading::hexed))]
fn hexed(room: &mut Room, digits: &[u8]) -> Result<Payload, Fault>
    ensures { GivesOrMemory (λ p. p) result (ok_or (reading.hexed digits.now) cause.Payload) }
{
    match hex::decode(room.payloads.allocator(), digits) {
        Ok(bytes) => kept(room, bytes),
        Err(FromHexError::OutOfMemory) => Err(Fault::Memory),
        Err(_) => Err(Fault::Refused(Cause::Payload)),
    }
}

/// As many bytes as the number says: 0, 1, and so on to 255, and again from 0.
#[tactic(auto, unfolding(crate::specs::Reading::filled))]
fn filled(room: &mut Room, digits: &[u8]) -> Result<Payload, Fault>
    ensures { GivesOrMemory (λ p. p) result (ok_or (reading.filled digits.now) cause.Payload) }
{
    match number_of(digits) {
        Some(count) if count <= u64::from(MAX_PAYLOAD) => Ok(room.count_up(count as usize)?),
        _ => Err(Fault::Refused(Cause::Payload)),
    }
}

/// These bytes, if they aren't too many.
fn kept(room: &mut Room, bytes: Vec<u8>) -> Result<Payload, Fault>
    ensures { GivesOrMemory (λ p. p) result (ok_or (reading.limited bytes.items) cause.Payload) }
{
    if bytes.len() > MAX_PAYLOAD as usize {
        return Err(Fault::Refused(Cause::Payload));
    }
    Ok(room.payloads.of_vec(bytes)?)
}
