ghost use Rattle.std.specs.Prelude.{◌≡◌, length, ℕ, ◌+◌, ◌*◌, ◌/◌, ◌%◌, ◌<◌, ◌==◌, ◌&&◌, ◌||◌, not, ◌↔◌, if◌then◌else◌, false, IsTrue, IfOk};
ghost use Rattle.std.specs.Int.{bit_at};
ghost use Rattle.rds_cong.specs.Map.{IsMap, no_ports, has_port, with_port, without_port, word_at, with_word};

use byteorder::{ByteOrder, LittleEndian};
use rds_wire::{MAP_LENGTH, Memory};
use std::alloc::Global;
use std::marker::Model;

/// How many words of 64 bits a map has.
pub const WORDS: usize = 1024;

/// How many bytes a map has on the wire.
pub const MAP_BYTES: usize = MAP_LENGTH as usize;

/// A set of ports. Contracts see its bytes on the wire.
#[derive(Drop)]
pub struct PortMap {
    words: Vec<u64>,
}

impl Model for PortMap {
    ghost use Rattle.std.specs.Prelude.{ℕ, List};
    ghost use Rattle.std.specs.List.{flat_map};
    ghost use Rattle.byteorder.specs.Endian.{little_bytes};
    ghost use Rattle.rds_cong.specs.Map.{IsWords};

    ghost Value = { List ℕ };

    ghost view = { λ m. flat_map (little_bytes 8) m.words.items };

    ghost invariant = { λ m. IsWords m.words.items };
}

impl PortMap {
    /// A map without ports.
    ///
    /// # Errors
    ///
    /// Where there is no memory for its words.
    pub fn new(alloc: Global) -> Result<PortMap, Memory>
        ensures empty { IfOk result (λ m. m ≡ no_ports) }
        ensures ports { IfOk result (λ m. (q : ℕ) → has_port m q ≡ false) }
    {
        Ok(PortMap {
            words: vec![in alloc; 0; WORDS]?,
        })
    }

    /// Puts a port in.
    pub fn set(&mut self, port: u16)
        ensures value { self.new ≡ with_port self.old port }
        ensures ports { (q : ℕ) → has_port self.new q ≡ (q == port || has_port self.old q) }
    {
        self.words[usize::from(port / 64)] |= 1 << (port % 64);
    }

    /// Takes a port out.
    pub fn clear(&mut self, port: u16)
        ensures value { self.new ≡ without_port self.old port }
        ensures ports { (q : ℕ) → has_port self.new q ≡ (not (q == port) && has_port self.old q) }
    {
        self.words[usize::from(port / 64)] &= !(1 << (port % 64));
    }

    /// Whether a port is in the map.
    pub fn has(&self, port: u16) -> bool
        ensures { result ≡ has_port self.now port }
    {
        self.words[usize::from(port / 64)] >> (port % 64) & 1 == 1
    }

    /// The ports from `64 * i` on, port `64 * i + q` as bit `q`.
    pub fn word(&self, i: usize) -> u64
        requires { i < WORDS }
        ensures value { result ≡ word_at self.now i }
        ensures ports { (q : ℕ) → q < 64 → has_port self.now (64 * i + q) ≡ (bit_at result q == 1) }
    {
        self.words[i]
    }

    /// Replaces the ports from `64 * i` on, port `64 * i + q` by bit `q`.
    pub fn put_word(&mut self, i: usize, w: u64)
        requires { i < WORDS }
        ensures value { self.new ≡ with_word self.old i w }
        ensures words { (j : ℕ) → j < WORDS → word_at self.new j ≡ (if j == i then w else word_at self.old j) }
        ensures ports { (q : ℕ) → has_port self.new q ≡
            (if q / 64 == i then bit_at w (q % 64) == 1 else has_port self.old q) }
    {
        self.words[i] = w;
    }

    /// Writes the map as it stands on the wire.
    pub fn bytes(&self, out: &mut [u8; MAP_BYTES])
        ensures { out.new ≡ self.now }
    {
        LittleEndian::write_u64_into(&self.words, out);
    }

    /// Becomes the map that came from the wire.
    pub fn of_bytes(&mut self, b: &[u8; MAP_BYTES])
        ensures { self.new ≡ b.now }
    {
        LittleEndian::read_u64_into(b, &mut self.words);
    }

    /// Whether the two have the same ports.
    pub fn same(&self, other: &PortMap) -> bool
        ensures value { IsTrue result ↔ (self.now ≡ other.now) }
        ensures ports { ((q : ℕ) → has_port self.now q ≡ has_port other.now q) → IsTrue result }
    {
        differing(&self.words, &other.words) == 0
    }

    /// Becomes like the other.
    pub fn copy_from(&mut self, other: &PortMap)
        ensures { self.new ≡ other.now }
    {
        self.words.copy_from_slice(&other.words);
    }

    /// Changes nothing: what every map is, and that a port is a bit of its word.
    pub fn known(&self)
        ensures map { IsMap self.now }
        ensures bit { (q : ℕ) → q < 65536 → has_port self.now q ≡ (bit_at (word_at self.now (q / 64)) (q % 64) == 1) }
    {
        let _ = &self.words;
    }
}

// The bits in which two lists of words differ, at any place. The loop has no way out, so that it compares many words at once.
fn differing(words: &[u64], others: &[u64]) -> u64
    requires { length words.now ≡ length others.now }
    ensures { (result ≡ 0) ↔ (words.now ≡ others.now) }
{
    let mut bits = 0;
    for i in 0..words.len() {
        bits |= words[i] ^ others[i];
    }
    bits
}
