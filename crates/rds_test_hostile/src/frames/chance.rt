//! The numbers that a seed gives.

/// A state, and each draw moves it on, as SplitMix64 does.
#[derive(Drop)]
pub struct Chance {
    state: u64,
}

impl Chance {
    pub fn new(seed: u64) -> Chance {
        Chance { state: seed }
    }

    /// A number of 64 bits.
    pub fn number(&mut self) -> u64 {
        self.state = self.state.wrapping_add(0x9E37_79B9_7F4A_7C15);
        let mut mixed = self.state;
        mixed = (mixed ^ (mixed >> 30)).wrapping_mul(0xBF58_476D_1CE4_E5B9);
        mixed = (mixed ^ (mixed >> 27)).wrapping_mul(0x94D0_49BB_1331_11EB);
        mixed ^ (mixed >> 31)
    }

    /// A number below `bound`, which is 0 for 0.
    pub fn below(&mut self, bound: u64) -> u64 {
        self.number() % bound.max(1)
    }

    /// Whether one of so many equal chances is the first.
    pub fn is_one_of(&mut self, chances: u64) -> bool {
        self.below(chances) == 0
    }

    pub fn byte(&mut self) -> u8 {
        (self.number() % 256) as u8
    }

    pub fn short(&mut self) -> u16 {
        (self.number() % 65_536) as u16
    }

    pub fn word(&mut self) -> u32 {
        (self.number() % 4_294_967_296) as u32
    }

    /// A front of the bytes: short or long, and not empty where they aren't.
    pub fn piece<'a>(&mut self, bytes: &'a [u8]) -> &'a [u8] {
        let most = if self.is_one_of(2) { 60 } else { 20_000 };
        let length = usize::try_from(self.below(most).wrapping_add(1)).unwrap_or(1);
        bytes.get(..length).unwrap_or(bytes)
    }
}
