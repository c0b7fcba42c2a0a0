//! File attributes (draft, section 5).
ghost use Rattle.std.specs.Prelude.{⊤, [], ◌∷◌, codes};

use crate::pairs::Pairs;
use bitflags::{Flag, Flags, bitflag_items};

/// The attributes of a file. A field that is `None` is absent.
#[derive(Debug, Drop)]
pub struct Attrs {
    /// The size in bytes.
    pub size: Option<u64>,
    /// The numbers of the owning user and group.
    pub owner: Option<(u32, u32)>,
    /// The permissions, with the type bits of POSIX where a server sends them.
    pub permissions: Option<u32>,
    /// The times of the last access and the last modification, in seconds since 1970.
    pub times: Option<(u32, u32)>,
    /// Extended attributes as pairs of type and data.
    pub extended: Option<Pairs>,
}

/// Which fields of `Attrs` are present on the wire.
#[derive(Clone, Copy, Debug, PartialEq, Eq)]
pub struct AttrFlags(u32);

bitflag_items! {
    impl AttrFlags: u32 {
        const SIZE = 0x0000_0001;
        const OWNER = 0x0000_0002;
        const PERMISSIONS = 0x0000_0004;
        const TIMES = 0x0000_0008;
        const EXTENDED = 0x8000_0000;
    }
}

impl Flags for AttrFlags {
    type Bits = u32;

    ghost exact = { ⊤ };

    ghost table = { (codes "SIZE", 0x0000_0001) ∷ (codes "OWNER", 0x0000_0002)
        ∷ (codes "PERMISSIONS", 0x0000_0004) ∷ (codes "TIMES", 0x0000_0008) ∷ (codes "EXTENDED", 0x8000_0000) ∷ [] };

    ghost set_of = { λ flags. flags.0 };

    fn flags<'a>() -> &'a [Flag<AttrFlags>] {
        AttrFlags::FLAGS
    }

    fn bits(&self) -> u32 {
        self.0
    }

    fn from_bits_retain(bits: u32) -> AttrFlags {
        AttrFlags(bits)
    }
}
