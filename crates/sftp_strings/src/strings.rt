//! Byte strings: contracts compare their bytes, not where they are in memory.
ghost use Rattle.std.specs.Prelude.{◌≡◌, IfOk};

use std::alloc::{AllocError, Global};
use std::marker::Model;

/// The bytes of a `string` of the protocol (draft, section 3): any bytes, at most 2^32 - 1 of them on
/// the wire.
#[derive(Debug, Drop)]
pub struct ByteString {
    bytes: Vec<u8>,
}

impl Model for ByteString {
    ghost use Rattle.std.specs.Prelude.{List, ℕ};

    ghost Value = { List ℕ };

    ghost view = { λ s. s.bytes.items };
}

impl ByteString {
    /// The byte string of these bytes. Does not allocate.
    pub fn new(bytes: Vec<u8>) -> ByteString
        ensures { result ≡ bytes.items }
    {
        ByteString { bytes }
    }

    /// A copy of these bytes.
    ///
    /// # Errors
    ///
    /// `AllocError` if memory runs out.
    pub fn from_slice(alloc: Global, bytes: &[u8]) -> Result<ByteString, AllocError>
        ensures { IfOk result (λ string. string ≡ bytes.now) }
    {
        // A copy of no bytes would still be a call.
        if bytes.is_empty() {
            return Ok(ByteString::new(Vec::new(alloc)));
        }
        Ok(ByteString {
            bytes: Vec::from_slice(alloc, bytes)?,
        })
    }

    /// The bytes.
    pub fn as_slice(&self) -> &[u8]
        ensures { result.now ≡ self.now }
    {
        self.bytes.as_slice()
    }

    /// The bytes, without a copy.
    pub fn into_vec(self) -> Vec<u8>
        ensures { result.items ≡ self }
    {
        self.bytes
    }
}

impl Clone for ByteString {
    ghost is_clone = { λ string copy. copy ≡ string };

    fn clone(&self) -> Result<ByteString, AllocError> {
        ByteString::from_slice(*self.bytes.allocator(), self.bytes.as_slice())
    }
}
