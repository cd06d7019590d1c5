use rds_wire::{Header, encode, sealed};
use std::alloc::{AllocError, Global};

/// How many bytes a stream has, or a little less.
const LENGTH: u64 = 4_194_304;

/// Frames with payloads of one length, one after another.
#[derive(Drop)]
pub struct FrameStream {
    pub headers: Vec<Header>,
    pub bytes: Vec<u8>,
}

impl FrameStream {
    pub fn new(alloc: Global, payload: u32) -> Result<FrameStream, AllocError> {
        let mut stream = FrameStream {
            headers: Vec::new(alloc),
            bytes: Vec::new(alloc),
        };
        for number in 1..=LENGTH / (48 + u64::from(payload)) {
            stream.add(number, payload)?;
        }
        Ok(stream)
    }

    pub fn frames(&self) -> u64 {
        self.headers.len() as u64
    }

    fn add(&mut self, sequence: u64, len: u32) -> Result<(), AllocError> {
        let header = sealed(Header {
            sequence,
            ack: 0,
            len,
            sport: 4000,
            dport: 4001,
            flags: 0,
            credit: 0,
            padding: [0; 4],
            csum: 0,
            ext: [0; 16],
        });
        self.headers.push(header)?;
        self.bytes.extend_from_slice(&encode(&header))?;
        for i in 0..len {
            self.bytes.push((i % 251) as u8)?;
        }
        Ok(())
    }
}
