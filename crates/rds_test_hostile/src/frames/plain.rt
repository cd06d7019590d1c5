//! A plain reader of frames: 48 bytes of header, every number big-endian, and the payload behind it.
use rds_wire::Malformed;

/// What a reader knows of its writer: the highest number that it has pulled itself, and the greatest generation that it has read.
#[derive(Clone, Copy)]
pub struct Sight {
    pub highest: u64,
    pub known: u32,
}

/// What stands at the front of a stream.
#[derive(Clone, Copy)]
pub enum Next<'a> {
    /// A whole frame, and the bytes behind it.
    Frame {
        head: Head<'a>,
        payload: &'a [u8],
        rest: &'a [u8],
    },
    /// A header that is refused.
    Refused {
        head: Head<'a>,
        fault: Malformed,
    },
    /// A part of a frame, or nothing.
    Part,
}

/// The 48 bytes of a header.
#[derive(Clone, Copy)]
pub struct Head<'a> {
    pub bytes: &'a [u8],
}

/// What stands at the front of these bytes.
pub fn front(bytes: &[u8], sight: Sight) -> Next<'_> {
    let Some((first, behind)) = parted(bytes, 48) else {
        return Next::Part;
    };
    let head = Head { bytes: first };
    if let Some(fault) = head.fault(sight) {
        return Next::Refused { head, fault };
    }
    match parted(behind, head.len()) {
        Some((payload, rest)) => Next::Frame {
            head,
            payload,
            rest,
        },
        None => Next::Part,
    }
}

// So many bytes, and those behind them, if there are as many.
fn parted(bytes: &[u8], length: u64) -> Option<(&[u8], &[u8])> {
    let length = usize::try_from(length).ok()?;
    Some((bytes.get(..length)?, bytes.get(length..)?))
}

// The number with these digits of 256.
fn number(bytes: &[u8]) -> u64 {
    let mut number = 0u64;
    for byte in bytes {
        number = number.wrapping_mul(256).wrapping_add(u64::from(*byte));
    }
    number
}

impl<'a> Head<'a> {
    fn field(self, from: usize, to: usize) -> u64 {
        number(self.bytes.get(from..to).unwrap_or(&[]))
    }

    pub fn sequence(self) -> u64 {
        self.field(0, 8)
    }

    pub fn ack(self) -> u64 {
        self.field(8, 16)
    }

    pub fn len(self) -> u64 {
        self.field(16, 20)
    }

    pub fn sport(self) -> u64 {
        self.field(20, 22)
    }

    pub fn dport(self) -> u64 {
        self.field(22, 24)
    }

    pub fn is_map(self) -> bool {
        self.field(24, 25) % 2 == 1
    }

    pub fn is_repeated(self) -> bool {
        self.field(24, 25) / 4 % 2 == 1
    }

    /// Neither a map nor a datagram.
    pub fn is_acknowledgement(self) -> bool {
        !self.is_map() && self.sequence() == 0 && self.len() == 0 && self.dport() == 0
    }

    fn is_datagram(self) -> bool {
        !self.is_map() && !self.is_acknowledgement()
    }

    // The first thing that is wrong with it.
    fn fault(self, sight: Sight) -> Option<Malformed> {
        self.fault_of_bytes().or(self.fault_of_answer(sight))
    }

    // What is wrong whoever reads it.
    fn fault_of_bytes(self) -> Option<Malformed> {
        let found = self.field(30, 32);
        let computed = self.checksum();
        if found != 0 && found != computed {
            return Some(Malformed::Sum {
                found: (found % 65_536) as u16,
                computed: (computed % 65_536) as u16,
            });
        }
        if self.len() > 1_048_576 {
            let len = (self.len() % 4_294_967_296) as u32;
            return Some(Malformed::Length { len });
        }
        let number = self.sequence();
        if self.is_datagram() && (number == 0 || number > 9_223_372_036_854_775_807) {
            return Some(Malformed::Sequence { number });
        }
        None
    }

    // What is wrong for this reader.
    fn fault_of_answer(self, sight: Sight) -> Option<Malformed> {
        let highest = sight.highest;
        let ack = self.ack();
        if ack > highest {
            return Some(Malformed::Ack { ack, highest });
        }
        let known = sight.known;
        let found = generation(self.bytes.get(32..48).unwrap_or(&[]));
        if found < known {
            return Some(Malformed::Generation { found, known });
        }
        None
    }

    // The checksum of the Internet (RFC 1071) over the words other than its own.
    fn checksum(self) -> u64 {
        let mut sum = 0u64;
        for word in self.bytes.chunks(2) {
            sum = sum.wrapping_add(number(word));
        }
        sum = sum.wrapping_sub(self.field(30, 32));
        for _ in 0..2 {
            sum = (sum % 65_536).wrapping_add(sum / 65_536);
        }
        65_535u64.wrapping_sub(sum)
    }
}

// The first generation in these extensions, or 0. Each is a byte for its kind and then its data.
fn generation(area: &[u8]) -> u32 {
    let mut rest = area;
    for _ in 0..16 {
        let Some((kind, behind)) = rest.split_first() else {
            return 0;
        };
        let Some((data, after)) = parted(behind, data_length(*kind)) else {
            return 0;
        };
        if *kind == 6 {
            return (number(data) % 4_294_967_296) as u32;
        }
        rest = after;
    }
    0
}

// How long the data of an extension are: longer than any area where there is no such kind.
fn data_length(kind: u8) -> u64 {
    match kind {
        1 | 2 | 6 => 4,
        3 => 8,
        5 => 2,
        _ => 100,
    }
}
