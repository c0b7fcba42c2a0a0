//! The one absolute text of each place.
ghost use Rattle.std.specs.Prelude.{◌≡◌, IfOk, IfSome, IfNone};
ghost use Rattle.sftp_path.specs.Place as spec;
ghost use Rattle.sftp_path.specs.Place.{IsTextOf};

use crate::errors::NoMemory;
use crate::names::{Name, is_name};
use crate::parts::{cut, is_absolute};
use crate::places::Place;
use std::alloc::Global;

/// The absolute text of a place: a `/` before each name, and `/` alone for the root.
///
/// # Errors
///
/// `NoMemory` if memory runs out.
pub fn absolute(alloc: Global, names: &[Name]) -> Result<Vec<u8>, NoMemory>
    ensures { IfOk result (λ text. text.items ≡ spec.absolute names.now) }
{
    let mut text = Vec::new(alloc);
    if names.is_empty() {
        text.push(b'/')?;
        return Ok(text);
    }
    for name in names {
        text.push(b'/')?;
        text.extend_from_slice(name.as_slice())?;
    }
    Ok(text)
}

/// The names of the place whose absolute text this is, or `None` if there is none. No two places have the same text.
///
/// # Errors
///
/// `NoMemory` if memory runs out.
pub fn canonical(alloc: Global, text: &[u8]) -> Result<Option<Vec<Name>>, NoMemory>
    ensures found { IfOk result (λ o. IfSome o (λ names. IsTextOf text.now names.items)) }
    ensures none { IfOk result (λ o. IfNone o ((place : spec.Place) → IsTextOf text.now place → ⊥)) }
{
    match place_of_text(alloc, text)? {
        Some(place) => Ok(Some(place.into_names())),
        None => Ok(None),
    }
}

/// The place whose absolute text this is, or `None` if there is none: `canonical`, with the names as a place.
///
/// # Errors
///
/// `NoMemory` if memory runs out.
pub fn place_of_text(alloc: Global, text: &[u8]) -> Result<Option<Place>, NoMemory>
    ensures found { IfOk result (λ o. IfSome o (λ place. IsTextOf text.now place)) }
    ensures none { IfOk result (λ o. IfNone o ((place : spec.Place) → IsTextOf text.now place → ⊥)) }
{
    let mut place = Place::root(alloc);
    if text == b"/".as_slice() {
        return Ok(Some(place));
    }
    if !is_absolute(text) {
        return Ok(None);
    }
    let mut rest = text;
    while let [_, behind @ ..] = rest {
        let (component, next) = cut(behind);
        if !is_name(component) {
            return Ok(None);
        }
        place.enter_component(component)?;
        rest = next;
    }
    Ok(Some(place))
}
