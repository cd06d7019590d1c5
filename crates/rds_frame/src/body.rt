ghost use Rattle.std.specs.Prelude.{◌≡◌, ◌+◌, ◌-◌, ◌≤◌, ◌<◌, ◌++◌, [], length, take, IfOk, OnOk, OnErr, MatchOption};

use bytes::BytesMut;
use rds_wire::{Memory, Payload};
use std::alloc::Global;
use std::marker::Model;
use std::mem;

// How much room is made at least for a long payload, where that much is missing.
const LEAST_ROOM: usize = 8192;

// Payloads up to this length are gathered in blocks of the other.
const SHORT: usize = 2048;

const BLOCK: usize = 32_768;

// The part of a payload that came so far. Many short payloads stand in one block, one after another, and each is handed out
// as a share of it; a long one has a buffer of its own. One of the two is empty.
#[derive(Drop)]
pub(crate) struct Body {
    block: BytesMut,
    long: Vec<u8>,
}

impl Model for Body {
    ghost use Rattle.std.specs.Prelude.{ℕ, List, [], ◌≡◌, ◌++◌, ◌⊎◌};

    ghost Value = { List ℕ };

    ghost view = { λ b. b.block.items ++ b.long.items };

    ghost invariant = { λ b. (b.block.items ≡ []) ⊎ (b.long.items ≡ []) };
}

impl Body {
    // Nothing. It takes no memory yet.
    pub(crate) fn new(alloc: Global) -> Body
        ensures { result ≡ [] }
    {
        Body {
            block: BytesMut::new(alloc),
            long: Vec::new(alloc),
        }
    }

    pub(crate) fn len(&self) -> usize
        ensures { result ≡ length self.now }
    {
        self.block.len() + self.long.len()
    }

    // Forgets what came. The room stays.
    pub(crate) fn clear(&mut self)
        ensures { self.new ≡ [] }
    {
        self.block.clear();
        self.long.clear();
    }

    // Puts a piece after the part that came before, or hands the whole payload out, which has `len` bytes.
    pub(crate) fn advance(&mut self, len: usize, piece: &[u8]) -> Result<Option<Payload>, Memory>
        requires came { length self.old ≤ len }
        requires limit { len ≤ 1048576 }
        ensures part { IfOk result (λ whole. MatchOption whole
            ((self.new ≡ self.old ++ piece.now) × (length self.old + length piece.now < len))
            (λ p. (self.new ≡ []) × (p ≡ self.old ++ take (len - length self.old) piece.now)
            × (len ≤ length self.old + length piece.now))) }
        ensures err { OnErr result (self.new ≡ self.old) }
    {
        let missing = len - self.len();
        if piece.len() < missing {
            self.append(len, piece, missing)?;
            return Ok(None);
        }
        let payload = self.finish(len, &piece[..missing])?;
        Ok(Some(payload))
    }

    fn append(&mut self, len: usize, piece: &[u8], missing: usize) -> Result<(), Memory>
        requires { length piece.now ≤ missing }
        ensures ok { OnOk result (self.new ≡ self.old ++ piece.now) }
        ensures err { OnErr result (self.new ≡ self.old) }
    {
        if self.long.is_empty() && (len <= SHORT || !self.block.is_empty()) {
            append_short(&mut self.block, piece)
        } else {
            append_long(&mut self.long, piece, missing)
        }
    }

    fn finish(&mut self, len: usize, piece: &[u8]) -> Result<Payload, Memory>
        requires { length self.old + length piece.now ≤ 1048576 }
        ensures ok { IfOk result (λ p. (p ≡ self.old ++ piece.now) × (self.new ≡ [])) }
        ensures err { OnErr result (self.new ≡ self.old) }
    {
        if self.long.is_empty() && (len <= SHORT || !self.block.is_empty()) {
            finish_short(&mut self.block, piece)
        } else {
            finish_long(&mut self.long, piece)
        }
    }
}

fn append_short(block: &mut BytesMut, piece: &[u8]) -> Result<(), Memory>
    ensures ok { OnOk result (block.new.items ≡ block.old.items ++ piece.now) }
    ensures err { OnErr result (block.new.items ≡ block.old.items) }
{
    if block.capacity() - block.len() < piece.len() {
        block.reserve(piece.len().max(BLOCK))?;
    }
    block.extend_from_slice(piece)?;
    Ok(())
}

// The payload is a share of the block, so only a new block takes memory.
fn finish_short(block: &mut BytesMut, piece: &[u8]) -> Result<Payload, Memory>
    requires { length block.old.items + length piece.now ≤ 1048576 }
    ensures ok { IfOk result (λ p. (p ≡ block.old.items ++ piece.now) × (block.new.items ≡ [])) }
    ensures err { OnErr result (block.new.items ≡ block.old.items) }
{
    let had = block.len();
    append_short(block, piece)?;
    match block.freeze_to(block.len()) {
        Ok(bytes) => Ok(Payload::from_bytes(bytes)),
        Err(_) => {
            block.truncate(had);
            Err(Memory)
        }
    }
}

// Room grows with what has come, so that a header alone commits little, and long payloads cost linear time.
fn append_long(long: &mut Vec<u8>, piece: &[u8], missing: usize) -> Result<(), Memory>
    requires { length piece.now ≤ missing }
    ensures ok { OnOk result (long.new.items ≡ long.old.items ++ piece.now) }
    ensures err { OnErr result (long.new.items ≡ long.old.items) }
{
    if long.capacity() - long.len() < piece.len() {
        long.reserve_exact(missing.min(piece.len().max(long.len()).max(LEAST_ROOM)))?;
    }
    long.extend_from_slice(piece)?;
    Ok(())
}

fn finish_long(long: &mut Vec<u8>, piece: &[u8]) -> Result<Payload, Memory>
    requires { length long.old.items + length piece.now ≤ 1048576 }
    ensures ok { IfOk result (λ p. (p ≡ long.old.items ++ piece.now) × (long.new.items ≡ [])) }
    ensures err { OnErr result (long.new.items ≡ long.old.items) }
{
    let alloc = *long.allocator();
    if long.is_empty() {
        return Payload::copy_of(alloc, piece);
    }
    let had = long.len();
    append_long(long, piece, piece.len())?;
    match Payload::from_vec(mem::replace(long, Vec::new(alloc))) {
        Ok(payload) => Ok(payload),
        Err(whole) => {
            *long = whole;
            long.truncate(had);
            Err(Memory)
        }
    }
}
