//! The components of a path, one by one.
ghost use Rattle.std.specs.Prelude.{⊤, ◌≡◌, ◌==◌, ◌++◌, ◌∷◌, not, length, IsTrue};
ghost use Rattle.std.specs.List.{position};
ghost use Rattle.std.specs.Iterator.{YieldsFirstRef, MakesProgress, item_count};
ghost use Rattle.sftp_path.specs.Place.{begins_at_slash, parts_after};
ghost use Rattle.sftp_path.specs.Place as spec;

use bstr::ByteSlice;
use std::marker::Model;

/// The components of a path, also those that are `.` and `..`, as slices of it. Empty components are skipped.
#[derive(Debug, Drop)]
pub struct Parts<'a> {
    /// Whether the path starts at the root.
    pub absolute: bool,
    rest: &'a [u8],
}

impl<'a> Model for Parts<'a> {
    ghost use Rattle.sftp_path.specs.Place.{Split};
    ghost use Rattle.sftp_path.specs.Place.{components};

    ghost Value = { Split };

    ghost view = { λ p. record { absolute = p.absolute; left = components p.rest.now } };
}

impl<'a> Parts<'a> {
    /// The components of a path.
    pub fn new(path: &'a [u8]) -> Parts<'a>
        ensures { result ≡ record { absolute = spec.is_absolute path.now; left = spec.components path.now } }
    {
        Parts {
            absolute: is_absolute(path),
            rest: path,
        }
    }

    /// Whether no component is left.
    pub fn is_empty(&self) -> bool
        ensures { result ≡ (length self.now.left == 0) }
    {
        first_inner(self.rest).is_none()
    }
}

impl<'a> Iterator for Parts<'a> {
    type Item = &'a [u8];

    ghost next_gives = { YieldsFirstRef (λ p. p.left) };

    ghost remaining = { item_count (λ p. p.left) };

    #[tactic(auto, using(crate::proofs::PathTexts::component_steps))]
    fn next(&mut self) -> Option<&'a [u8]>
        ensures steps { YieldsFirstRef (λ p. p.left) self.old result self.new }
        ensures goes { MakesProgress (λ _. ⊤) (item_count (λ p. p.left)) self.old result self.new }
        ensures absolute { self.new.absolute ≡ self.old.absolute }
    {
        let start = first_inner(self.rest)?;
        let (component, rest) = cut(&self.rest[start..]);
        self.rest = rest;
        Some(component)
    }
}

/// Whether the path starts at the root.
pub(crate) fn is_absolute(path: &[u8]) -> bool
    ensures { result ≡ spec.is_absolute path.now }
{
    matches!(path, [b'/', ..])
}

/// The index of the first byte that is not `/`.
fn first_inner(path: &[u8]) -> Option<usize>
    ensures { result ≡ position (λ b. not (b == 47)) path.now }
{
    path.iter().position(|byte| *byte != b'/')
}

/// The bytes before the first `/`, and the bytes from that `/` on; without a `/`, all bytes and none.
#[tactic(auto, using(crate::proofs::PathTexts::part_steps))]
pub(crate) fn cut(bytes: &[u8]) -> (&[u8], &[u8])
    ensures whole { bytes.now ≡ result.0.now ++ result.1.now }
    ensures parts { spec.parts bytes.now ≡ result.0.now ∷ parts_after result.1.now }
    ensures behind { IsTrue (begins_at_slash result.1.now) }
{
    let end = bytes.find_byte(b'/').unwrap_or(bytes.len());
    bytes.split_at(end)
}
