//! The remaining entries of a listing that a reply gives, and how they are struck out (draft, section 6.7).
ghost use Rattle.std.specs.Prelude.{◌≡◌, is_some, IfOk, IfSome};
ghost use Rattle.std.specs.List.{list_all};
ghost use Rattle.sftp_path.specs.Place.{name_cmp};
ghost use Rattle.sftp_path.specs.Table.{InOrder};
ghost use Rattle.sftp_listing.specs.Left.{IsLeft};
ghost use Rattle.sftp_listing.specs.Left as replies;

use crate::attributes::same_attributes;
use crate::listing::Listing;
use sftp_packets::{NameItem, Names};
use sftp_path::{Name, NoMemory};
use std::alloc::Global;
use std::collections::BTreeSet;

impl Listing {
    /// The names of a reply, if they are one or more of those that are left, each once and with its attributes.
    ///
    /// # Errors
    ///
    /// `NoMemory` if memory runs out.
    pub fn chosen(&self, alloc: Global, names: &Names) -> Result<Option<Vec<Name>>, NoMemory>
        requires { IsLeft self.now }
        ensures given { IfOk result (λ o. IfSome o (λ given. given.items ≡ replies.names_in names.now)) }
        ensures some_left { IfOk result (λ o. is_some o ≡ replies.are_some_left self.now names.now) }
    {
        if names.as_slice().is_empty() {
            return Ok(None);
        }
        match self.all_left(alloc, names)? {
            Some(given) => {
                if are_distinct(alloc, given.as_slice())? {
                    Ok(Some(given))
                } else {
                    Ok(None)
                }
            }
            None => Ok(None),
        }
    }

    /// The names of a reply, if each of them is left, with its attributes.
    ///
    /// # Errors
    ///
    /// `NoMemory` if memory runs out.
    fn all_left(&self, alloc: Global, names: &Names) -> Result<Option<Vec<Name>>, NoMemory>
        requires { IsLeft self.now }
        ensures given { IfOk result (λ o. IfSome o (λ given. given.items ≡ replies.names_in names.now)) }
        ensures left { IfOk result (λ o. is_some o ≡ list_all (replies.is_left self.now) names.now) }
    {
        let mut given = Vec::new(alloc);
        for item in names.as_slice() {
            match self.name_left(alloc, item)? {
                Some(name) => given.push(name)?,
                None => return Ok(None),
            }
        }
        Ok(Some(given))
    }

    /// The name of an item, if it is left, with its attributes.
    ///
    /// # Errors
    ///
    /// `NoMemory` if memory runs out.
    fn name_left(&self, alloc: Global, item: &NameItem) -> Result<Option<Name>, NoMemory>
        requires { IsLeft self.now }
        ensures given { IfOk result (λ o. IfSome o (λ name. name ≡ item.now.filename)) }
        ensures left { IfOk result (λ o. is_some o ≡ replies.is_left self.now item.now) }
    {
        match Name::from_slice(alloc, item.filename.as_slice())? {
            Some(name) => {
                if self.shows(&name, item) {
                    Ok(Some(name))
                } else {
                    Ok(None)
                }
            }
            None => Ok(None),
        }
    }

    /// Whether a name is left, with the attributes of an item.
    fn shows(&self, name: &Name, item: &NameItem) -> bool
        requires { name.now ≡ item.now.filename }
        ensures { result ≡ replies.is_left self.now item.now }
    {
        match self.find(name) {
            Some(shown) => same_attributes(shown, &item.attrs),
            None => false,
        }
    }

    /// Strikes names out.
    pub fn strike_all(&mut self, names: &[Name])
        requires { InOrder name_cmp self.old }
        ensures { self.new ≡ replies.struck self.old names.now }
    {
        for name in names {
            self.strike(name);
        }
    }
}

/// Whether no name comes twice.
///
/// # Errors
///
/// `NoMemory` if memory runs out.
fn are_distinct(alloc: Global, names: &[Name]) -> Result<bool, NoMemory>
    ensures { IfOk result (λ ok. ok ≡ replies.are_distinct names.now) }
{
    let mut seen = BTreeSet::new(alloc);
    for name in names {
        if !seen.insert(name)? {
            return Ok(false);
        }
    }
    Ok(true)
}
