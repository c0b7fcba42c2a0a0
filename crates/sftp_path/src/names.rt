//! Names: the components of which places are made.
ghost use Rattle.std.specs.Prelude.{◌≡◌, not, false, IfOk, IfSome, IfNone, IsTrue, refl, nat_eq, Some};
ghost use Rattle.std.specs.List.{list_all};
ghost use Rattle.std.specs.Ordering.{nat_cmp};
ghost use Rattle.std.specs.Cmp.{partial_equiv_from_equiv};
ghost use Rattle.std.specs.Cmp.Lexicographic.{pointwise, slice_cmp, nat_list_eq_equiv};
ghost use Rattle.std.specs.Cmp.Lexicographic.{nat_list_cmp_total, texts_ties, texts_po};
ghost use Rattle.sftp_path.specs.Place as spec;

use crate::errors::NoMemory;
use std::alloc::Global;
use std::cmp::Ordering;
use std::marker::Model;

/// The most bytes of a name. The limit is this profile's own.
pub(crate) const NAME_LIMIT: usize = 255;

/// The byte that no path holds.
pub(crate) const NUL: u8 = b'\0';

/// One name of a directory's entry: from 1 to 255 bytes other than 0 and `/`, but not `.` and not `..`.
#[derive(Debug, Drop)]
pub struct Name {
    bytes: Vec<u8>,
}

impl Model for Name {
    ghost use Rattle.std.specs.Prelude.{List, ℕ, IsTrue};
    ghost use Rattle.sftp_path.specs.Place.{is_name};

    ghost Value = { List ℕ };

    ghost view = { λ name. name.bytes.items };

    ghost invariant = { λ name. IsTrue (is_name name.bytes.items) };
}

impl Name {
    /// A copy of these bytes if they are a name, and `None` if they are not.
    ///
    /// # Errors
    ///
    /// `NoMemory` if memory runs out.
    pub fn from_slice(alloc: Global, bytes: &[u8]) -> Result<Option<Name>, NoMemory>
        ensures found { IfOk result (λ o. IfSome o (λ name. (name ≡ bytes.now) × IsTrue (spec.is_name bytes.now))) }
        ensures none { IfOk result (λ o. IfNone o (spec.is_name bytes.now ≡ false)) }
    {
        if !is_name(bytes) {
            return Ok(None);
        }
        Ok(Some(Name::from_component(alloc, bytes)?))
    }

    /// A copy of a component that is a name.
    ///
    /// # Errors
    ///
    /// `NoMemory` if memory runs out.
    pub fn from_component(alloc: Global, component: &[u8]) -> Result<Name, NoMemory>
        requires { IsTrue (spec.is_name component.now) }
        ensures { IfOk result (λ name. name ≡ component.now) }
    {
        Ok(Name {
            bytes: Vec::from_slice(alloc, component)?,
        })
    }

    /// The name of these bytes, without a copy.
    pub fn from_vec(bytes: Vec<u8>) -> Name
        requires { IsTrue (spec.is_name bytes.items) }
        ensures { result ≡ bytes.items }
    {
        Name { bytes }
    }

    /// The bytes of the name.
    pub fn as_slice(&self) -> &[u8]
        ensures bytes { result.now ≡ self.now }
        ensures named { IsTrue (spec.is_name self.now) }
    {
        self.bytes.as_slice()
    }

    /// The bytes of the name, without a copy.
    pub fn into_vec(self) -> Vec<u8>
        ensures { result.items ≡ self }
    {
        self.bytes
    }

    /// A copy of the name.
    ///
    /// # Errors
    ///
    /// `NoMemory` if memory runs out.
    pub fn try_clone(&self, alloc: Global) -> Result<Name, NoMemory>
        ensures { IfOk result (λ name. name ≡ self.now) }
    {
        Name::from_component(alloc, self.as_slice())
    }
}

impl PartialEq for Name {
    ghost eq = { pointwise nat_eq };

    ghost laws = { partial_equiv_from_equiv nat_list_eq_equiv };

    fn eq(&self, other: &Name) -> bool {
        self.as_slice() == other.as_slice()
    }
}

impl Eq for Name {
    ghost laws = { nat_list_eq_equiv };
}

impl PartialOrd for Name {
    ghost partial_cmp = { λ x y. Some (slice_cmp nat_cmp x y) };

    ghost laws = { texts_po };

    fn partial_cmp(&self, other: &Name) -> Option<Ordering> {
        Some(self.cmp(other))
    }
}

impl Ord for Name {
    ghost cmp = { slice_cmp nat_cmp };

    ghost total = { nat_list_cmp_total };

    ghost matches_partial_cmp = { λ x y. refl };

    ghost matches_eq = { texts_ties };

    fn cmp(&self, other: &Name) -> Ordering {
        self.as_slice().cmp(other.as_slice())
    }
}

/// Whether these bytes are a name: from 1 to 255 of them, none 0 or `/`, but not `.` and not `..`.
pub fn is_name(component: &[u8]) -> bool
    ensures { result ≡ spec.is_name component.now }
{
    if component.is_empty() || component.len() > NAME_LIMIT {
        return false;
    }
    if is_dot(component) || is_dot_dot(component) {
        return false;
    }
    are_name_bytes(component)
}

/// Whether a name may have each of these bytes.
fn are_name_bytes(bytes: &[u8]) -> bool
    ensures { result ≡ list_all spec.is_name_byte bytes.now }
{
    bytes.iter().all(|byte| *byte != NUL && *byte != b'/')
}

/// Whether the component is `.`, which stays at a place.
pub fn is_dot(component: &[u8]) -> bool
    ensures { result ≡ spec.is_dot component.now }
{
    component == b".".as_slice()
}

/// Whether the component is `..`, which goes up to the parent.
pub fn is_dot_dot(component: &[u8]) -> bool
    ensures { result ≡ spec.is_dot_dot component.now }
{
    component == b"..".as_slice()
}
