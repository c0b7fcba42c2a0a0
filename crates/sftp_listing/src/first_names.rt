//! The first names of a listing, as a reply gives them (draft, section 6.7).
ghost use Rattle.std.specs.Prelude.{◌≡◌, ◌≤◌, ◌++◌, [], drop, length, map, IfOk, OnOk, option_copied};
ghost use Rattle.std.specs.Option.{option_map, option_to_list};
ghost use Rattle.std.specs.Vec.{vec_capacity};
ghost use Rattle.sftp_tree.specs.Items.{entry_of};
ghost use Rattle.sftp_listing.specs.Marked as first;

use crate::listing::Listing;
use crate::marks::item_at;
use sftp_packets::{ByteString, NameItem, Names};
use sftp_path::NoMemory;
use sftp_tree::Item;
use std::alloc::Global;

impl Listing {
    /// Copies of the first names that are left, `most` or fewer.
    ///
    /// # Errors
    ///
    /// `NoMemory` if memory runs out.
    pub fn first_names(&self, alloc: Global, most: usize) -> Result<Vec<ByteString>, NoMemory>
        ensures { IfOk result (λ names. names.items ≡ first.first_names most self.now) }
    {
        let mut names = Vec::with_capacity(alloc, most.min(self.left))?;
        for place in 0..self.items.len() {
            if names.len() >= most {
                break;
            }
            push_name(&mut names, alloc, item_at(&self.items, &self.marks, place))?;
        }
        Ok(names)
    }

    /// Takes the first names that are left, one for each long name, as the items of a reply. `room` has no items yet.
    /// Does not allocate.
    pub fn take_first(&mut self, longnames: Vec<ByteString>, room: Vec<NameItem>) -> Names
        requires names { longnames.items ≡ first.first_names (length longnames.items) self.old }
        requires empty { room.items ≡ [] }
        requires room { length longnames.items ≤ vec_capacity room }
        ensures given { result ≡ first.first_items (length longnames.items) self.old }
        ensures left { self.new ≡ drop (length longnames.items) self.old }
    {
        let mut items = room;
        for longname in longnames {
            match self.take_one() {
                Some(item) => items.push_reserved(item_of(item, longname)),
                None => unreachable!(),
            }
        }
        Names::new(items)
    }
}

/// Appends a copy of the name of an item, if there is one.
///
/// # Errors
///
/// `NoMemory` if memory runs out.
fn push_name(
    names: &mut Vec<ByteString>,
    alloc: Global,
    item: Option<&Item>,
) -> Result<(), NoMemory>
    ensures { OnOk result (names.new.items ≡ names.old.items
        ++ map first.name_of (option_to_list (option_map entry_of (option_copied item.entry)))) }
{
    match item {
        Some(item) => {
            names.push(ByteString::from_slice(alloc, item.name.as_slice())?)?;
            Ok(())
        }
        None => Ok(()),
    }
}

/// An item of a reply: a name with its attributes and this long name. Does not allocate.
fn item_of(item: Item, longname: ByteString) -> NameItem
    requires { longname ≡ item.name }
    ensures { result ≡ first.item_of (entry_of item) }
{
    NameItem {
        filename: ByteString::new(item.name.into_vec()),
        longname,
        attrs: item.attrs,
    }
}
