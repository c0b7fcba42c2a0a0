//! What the rules leave free to a server.
ghost use Rattle.std.specs.Prelude.{◌<◌, ◌^◌};

/// What is free in replies, and in how they are written. Each is left free by the draft itself.
#[derive(Clone, Copy)]
pub enum Freedom {
    /// The name of a new handle: 0 to 256 bytes of any values, that of a closed handle too (section 6.3).
    Handles,
    /// Which names of a directory a reply gives, how many, and in which order (section 6.7).
    Listings,
    /// The long name of an item, a line of any layout (section 7).
    Longnames,
    /// The times in attributes: there or not, of any values (sections 5 and 7).
    Times,
    /// Extended pairs in attributes (section 5).
    Pairs,
    /// All attributes of the only name in the replies to REALPATH and READLINK, which may be dummies (sections 6.10
    /// and 6.11).
    Attributes,
    /// The code of a refusal, where several fit (section 7).
    Codes,
    /// The message and the language tag of each STATUS (section 7).
    Texts,
    /// Where the output is cut into writes (section 3: packets come in a stream).
    Cuts,
    /// The pairs of names and data in VERSION (section 4).
    Versions,
}

/// The names of the freedoms on the command line, in the order of their variants.
pub const NAMES: &[&str] = &[
    "handles",
    "listings",
    "longnames",
    "times",
    "pairs",
    "attributes",
    "codes",
    "texts",
    "cuts",
    "versions",
];

/// How a session is varied.
#[derive(Clone, Copy)]
pub struct Variation {
    /// What fixes the choices.
    pub seed: u64,
    /// What is varied.
    pub freedoms: Freedoms,
}

impl Freedom {
    /// Its place among the freedoms, from 0.
    pub(crate) fn number(self) -> u32 {
        self as u32
    }

    /// Its bit.
    fn bit(self) -> u32
        ensures { result < 2 ^ 32 }
    {
        match self {
            Freedom::Handles => 1,
            Freedom::Listings => 2,
            Freedom::Longnames => 4,
            Freedom::Times => 8,
            Freedom::Pairs => 16,
            Freedom::Attributes => 32,
            Freedom::Codes => 64,
            Freedom::Texts => 128,
            Freedom::Cuts => 256,
            Freedom::Versions => 512,
        }
    }
}

/// The bit of the freedom of this name, or 0.
fn bit_of(name: &str) -> u32 {
    let mut bit = 1u32;
    for known in NAMES {
        if *known == name {
            return bit;
        }
        bit = bit.wrapping_mul(2);
    }
    0
}

/// A set of freedoms, and whether texts and long names may be wild.
#[derive(Clone, Copy)]
pub struct Freedoms {
    bits: u32,
    wild: bool,
}

impl Freedoms {
    /// All of them.
    pub fn all() -> Freedoms {
        Freedoms {
            bits: 1023,
            wild: false,
        }
    }

    /// Those of these names.
    pub fn named(names: &[&str]) -> Freedoms {
        let mut bits = 0;
        for name in names {
            bits |= bit_of(name);
        }
        Freedoms { bits, wild: false }
    }

    /// With wild texts and long names: any bytes, which this project's rules allow and the draft does not. It wants
    /// messages in UTF-8, language tags of RFC 1766, and long names that are fit for a listing (section 7).
    pub fn with_wild(self) -> Freedoms {
        Freedoms {
            bits: self.bits,
            wild: true,
        }
    }

    /// Whether it has this one.
    pub fn has(self, freedom: Freedom) -> bool {
        self.bits & freedom.bit() != 0
    }

    /// Whether it has any that is seen in replies.
    pub fn has_any_in_replies(self) -> bool {
        self.bits != 0 && self.bits != Freedom::Cuts.bit()
    }

    /// Whether texts and long names may be wild.
    pub fn is_wild(self) -> bool {
        self.wild
    }
}
