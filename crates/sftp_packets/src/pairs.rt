//! Pairs of byte strings: contracts compare their bytes, not where they are in memory.
ghost use Rattle.std.specs.Prelude.{◌≡◌};

use sftp_strings::ByteString;
use std::alloc::AllocError;
use std::marker::Model;

/// Pairs of byte strings: the names and data of extensions (draft, section 4), or the types and data of
/// extended attributes (section 5).
#[derive(Debug, Drop)]
pub struct Pairs {
    pairs: Vec<(ByteString, ByteString)>,
}

impl Model for Pairs {
    ghost use Rattle.std.specs.Prelude.{List, ℕ};

    ghost Value = { List (List ℕ × List ℕ) };

    ghost view = { λ p. p.pairs.items };
}

impl Pairs {
    /// These pairs, in this order. Does not allocate.
    pub fn new(pairs: Vec<(ByteString, ByteString)>) -> Pairs
        ensures { result ≡ pairs.items }
    {
        Pairs { pairs }
    }

    /// The pairs in their order.
    pub fn as_slice(&self) -> &[(ByteString, ByteString)]
        ensures { result.now ≡ self.now }
    {
        self.pairs.as_slice()
    }

    /// The pairs, without a copy.
    pub fn into_vec(self) -> Vec<(ByteString, ByteString)>
        ensures { result.items ≡ self }
    {
        self.pairs
    }
}

impl Clone for Pairs {
    ghost is_clone = { λ pairs copy. copy ≡ pairs };

    fn clone(&self) -> Result<Pairs, AllocError> {
        Ok(Pairs {
            pairs: self.pairs.clone()?,
        })
    }
}
