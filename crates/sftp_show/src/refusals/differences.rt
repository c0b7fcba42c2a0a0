//! How an answer differs from the one that is allowed.

use crate::quoted::Quoted;
use crate::refusals::answers::AttrsText;
use sftp_handles::{Listing, same_attributes};
use sftp_path::Name;
use sftp_tree::NoMemory;
use sftp_wire::{Attrs, NameItem};
use std::alloc::Global;
use std::fmt;

/// How bytes of a READ differ from those of the file. Positions count from 0 at the first byte of the reply.
#[derive(Clone, Copy)]
pub(crate) enum ByteDifference {
    /// The byte at this position is another one.
    At {
        position: usize,
        given: u8,
        wanted: u8,
    },
    /// The bytes agree as far as both go, but there are too few or too many.
    Count,
}

impl fmt::Display for ByteDifference {
    fn fmt<W: fmt::Write>(&self, f: &mut fmt::Formatter<W>) -> fmt::Result {
        match self {
            ByteDifference::At {
                position,
                given,
                wanted,
            } => write!(f, "byte {position} is 0x{given:02x}, not 0x{wanted:02x}"),
            ByteDifference::Count => f.write_str("all bytes that both have are the same"),
        }
    }
}

/// The first difference between the bytes of a reply and those that it should have.
pub(crate) fn first_difference(given: &[u8], wanted: &[u8]) -> ByteDifference {
    let mut position: usize = 0;
    for (given, wanted) in given.iter().zip(wanted) {
        if given != wanted {
            return ByteDifference::At {
                position,
                given: *given,
                wanted: *wanted,
            };
        }
        position = position.saturating_add(1);
    }
    ByteDifference::Count
}

/// Why a listing does not give an item of a reply.
#[derive(Clone, Copy)]
pub(crate) enum NameDifference<'a> {
    /// The name is not left to give.
    NotLeft(&'a NameItem),
    /// The name is left to give, with these attributes.
    OtherAttributes(&'a NameItem, &'a Attrs),
    /// An earlier item has the same name.
    Repeated(&'a NameItem),
}

impl fmt::Display for NameDifference<'_> {
    fn fmt<W: fmt::Write>(&self, f: &mut fmt::Formatter<W>) -> fmt::Result {
        match self {
            NameDifference::NotLeft(item) => {
                let name = Quoted(item.filename.as_slice());
                write!(f, "{name} is not one of them")
            }
            NameDifference::OtherAttributes(item, wanted) => {
                let name = Quoted(item.filename.as_slice());
                let given = AttrsText(&item.attrs);
                let wanted = AttrsText(wanted);
                write!(f, "{name} has {given}, not {wanted}")
            }
            NameDifference::Repeated(item) => {
                let name = Quoted(item.filename.as_slice());
                write!(f, "{name} comes twice")
            }
        }
    }
}

/// The first item of a reply that the listing does not give, if there is one.
///
/// # Errors
///
/// `NoMemory` if memory runs out.
pub(crate) fn first_wrong_name<'a>(
    alloc: Global,
    left: &'a Listing,
    items: &'a [NameItem],
) -> Result<Option<NameDifference<'a>>, NoMemory> {
    for (position, item) in items.iter().enumerate() {
        if has_name(items.get(..position).unwrap_or(&[]), item) {
            return Ok(Some(NameDifference::Repeated(item)));
        }
        if let Some(difference) = difference_of(alloc, left, item)? {
            return Ok(Some(difference));
        }
    }
    Ok(None)
}

/// Whether one of the items has the name of this one.
fn has_name(items: &[NameItem], item: &NameItem) -> bool {
    items.iter().any(|other| other.filename.as_slice() == item.filename.as_slice())
}

/// Why the listing does not give an item, if it does not.
///
/// # Errors
///
/// `NoMemory` if memory runs out.
fn difference_of<'a>(
    alloc: Global,
    left: &'a Listing,
    item: &'a NameItem,
) -> Result<Option<NameDifference<'a>>, NoMemory> {
    match Name::from_slice(alloc, item.filename.as_slice())? {
        Some(name) => {
            let wanted = left.find(&name);
            drop(name);
            Ok(difference_from(wanted, item))
        }
        None => Ok(Some(NameDifference::NotLeft(item))),
    }
}

/// Why a listing with these attributes for the item's name, if it has the name, does not give the item.
fn difference_from<'a>(
    wanted: Option<&'a Attrs>,
    item: &'a NameItem,
) -> Option<NameDifference<'a>> {
    match wanted {
        Some(attrs) if same_attributes(attrs, &item.attrs) => None,
        Some(attrs) => Some(NameDifference::OtherAttributes(item, attrs)),
        None => Some(NameDifference::NotLeft(item)),
    }
}
