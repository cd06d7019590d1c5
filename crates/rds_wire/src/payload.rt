ghost use Rattle.std.specs.Prelude.{◌≡◌, ◌≤◌, length, IfOk, IfErr, IsOk, ◌==◌};

use crate::Memory;
use bytes::Bytes;
use std::alloc::Global;
use std::marker::Model;

/// The bytes of a datagram, shared by those who hold them. Contracts see the list of the bytes.
#[derive(Drop)]
pub struct Payload {
    bytes: Bytes,
}

impl Model for Payload {
    ghost use Rattle.std.specs.Prelude.{List, ℕ, ◌≤◌, length};

    ghost Value = { List ℕ };

    ghost view = { λ p. p.bytes };

    ghost invariant = { λ p. length p.bytes ≤ 2097152 };
}

impl Payload {
    /// A payload with a copy of these bytes, at most 2,097,152 of them.
    ///
    /// # Errors
    ///
    /// Where there is no memory for the copy.
    pub fn copy_of(alloc: Global, b: &[u8]) -> Result<Payload, Memory>
        requires { length b.now ≤ 2097152 }
        ensures { IfOk result (λ p. p ≡ b.now) }
    {
        let bytes = Bytes::copy_from_slice(alloc, b)?;
        Ok(Payload { bytes })
    }

    /// A payload of these bytes, at most 2,097,152 of them, without a copy.
    ///
    /// # Errors
    ///
    /// The bytes come back where there is no memory for the count of their owners.
    pub fn from_vec(bytes: Vec<u8>) -> Result<Payload, Vec<u8>>
        requires { length bytes.items ≤ 2097152 }
        ensures ok { IfOk result (λ p. p ≡ bytes.items) }
        ensures err { IfErr result (λ b. b.items ≡ bytes.items) }
        ensures empty { length bytes.items ≡ 0 → IsOk result }
    {
        match Bytes::from_vec(bytes) {
            Ok(bytes) => Ok(Payload { bytes }),
            Err(failed) => Err(failed.value),
        }
    }

    /// A payload of bytes that others may share, at most 2,097,152 of them, without a copy.
    pub fn from_bytes(bytes: Bytes) -> Payload
        requires { length bytes ≤ 2097152 }
        ensures { result ≡ bytes }
    {
        Payload { bytes }
    }

    /// Another owner of the same bytes. Nothing is copied.
    ///
    /// # Errors
    ///
    /// Where there is no memory for the count of the owners.
    pub fn share(&self) -> Result<Payload, Memory>
        ensures { IfOk result (λ p. p ≡ self.now) }
    {
        let bytes = self.bytes.clone()?;
        Ok(Payload { bytes })
    }

    /// How many bytes there are.
    pub fn len(&self) -> u32
        ensures len { result ≡ length self.now }
        ensures limit { length self.now ≤ 2097152 }
    {
        self.bytes.len() as u32
    }

    /// Whether there is none.
    pub fn is_empty(&self) -> bool
        ensures { result ≡ (length self.now == 0) }
    {
        self.bytes.is_empty()
    }

    /// The bytes.
    pub fn as_slice(&self) -> &[u8]
        ensures { result.now ≡ self.now }
    {
        self.bytes.as_slice()
    }
}
