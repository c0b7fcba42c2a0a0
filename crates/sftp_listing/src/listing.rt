//! The remaining entries of a listing of a directory.
ghost use Rattle.std.specs.Prelude.{◌≡◌, [], ◌++◌, length, IsTrue, ◌↔◌, IfNone, OnOk, OnErr, option_copied};
ghost use Rattle.std.specs.Option.{option_map, option_to_list};
ghost use Rattle.sftp_path.specs.Place.{name_cmp};
ghost use Rattle.sftp_path.specs.Table.{InOrder, get, put, without};
ghost use Rattle.sftp_tree.specs.Items.{entry_of};

use crate::hints::{Hints, find_place};
use crate::marks::{item_at, put_item, set_mark, take_unmarked};
use sftp_packets::Attrs;
use sftp_path::{Name, NoMemory};
use sftp_tree::Item;
use std::alloc::Global;
use std::collections::VecDeque;
use std::marker::Model;

/// How many items are many, so that hints are worth their memory.
const MANY: usize = 512;

/// The remaining entries of a listing, in rising order of their bytes, with their attributes. Finding a name
/// and striking it out cost a logarithm of how many there were, or about the same for any number of them once there are
/// hints, and dropping the first one a constant. None of these takes memory.
#[derive(Debug, Drop)]
pub struct Listing {
    // in rising order of their names
    pub(crate) items: VecDeque<Item>,
    // of each item, whether its name is struck out
    pub(crate) marks: VecDeque<bool>,
    // how many names are not struck out
    pub(crate) left: usize,
    // where items may be, or none
    pub(crate) hints: Hints,
}

impl Model for Listing {
    ghost use Rattle.std.specs.Prelude.{List, ℕ};
    ghost use Rattle.sftp_packets.specs.declared.attributes.Attrs.{Attrs};
    ghost use Rattle.sftp_listing.specs.Marked.{unmarked, IsMarked};

    ghost Value = { List (List ℕ × Attrs) };

    ghost view = { λ l. unmarked l.items.items l.marks.items };

    ghost invariant = { λ l. IsMarked l.items.items l.marks.items l.left };
}

impl Listing {
    /// A listing that has nothing to give.
    pub fn empty(alloc: Global) -> Listing
        ensures { result ≡ [] }
    {
        Listing {
            items: VecDeque::new(alloc),
            marks: VecDeque::new(alloc),
            left: 0,
            hints: Hints::none(alloc),
        }
    }

    /// Whether nothing is left.
    pub fn is_empty(&self) -> bool
        ensures empty { IsTrue result ↔ (self.now ≡ []) }
        ensures ordered { InOrder name_cmp self.now }
    {
        self.left == 0
    }

    /// How many names are left.
    pub fn len(&self) -> usize
        ensures { result ≡ length self.now }
    {
        self.left
    }

    /// Lets the listing give a name, with its attributes.
    ///
    /// # Errors
    ///
    /// `NoMemory` if memory runs out; the listing is unchanged.
    pub fn add(&mut self, name: Name, attrs: Attrs) -> Result<(), NoMemory>
        ensures added { OnOk result (self.new ≡ put name_cmp self.old name attrs) }
        ensures err { OnErr result (self.new ≡ self.old) }
    {
        if put_item(&mut self.items, &mut self.marks, name, attrs)? {
            self.left += 1;
        }
        Ok(())
    }

    /// The attributes of a name that is left.
    pub fn find(&self, name: &Name) -> Option<&Attrs>
        ensures { option_copied result ≡ get name_cmp self.now name.now }
    {
        match find_place(&self.items, &self.hints, name) {
            Ok(place) => match item_at(&self.items, &self.marks, place) {
                Some(item) => Some(&item.attrs),
                None => None,
            },
            Err(_) => None,
        }
    }

    /// Strikes a name out.
    pub fn strike(&mut self, name: &Name)
        ensures struck { self.new ≡ without name_cmp self.old name.now }
        ensures ordered { InOrder name_cmp self.new }
    {
        match find_place(&self.items, &self.hints, name) {
            Ok(place) => {
                if !set_mark(&mut self.marks, place, true) {
                    self.left -= 1;
                }
            }
            Err(_) => {}
        }
    }

    /// Makes hints, if the listing has many items and no hints yet. Finding a name then costs about the same however
    /// many there are. If there is no memory for hints, the listing goes without.
    pub fn make_hints(&mut self)
        ensures { self.new ≡ self.old }
    {
        if self.items.len() < MANY || !self.hints.are_none() {
            return;
        }
        let alloc = *self.items.allocator();
        match Hints::of(alloc, &self.items) {
            Ok(hints) => self.hints = hints,
            Err(_) => {}
        }
    }

    /// Takes the first name that is left, with its attributes. Does not allocate.
    pub(crate) fn take_one(&mut self) -> Option<Item>
        ensures taken { self.old ≡ option_to_list (option_map entry_of result) ++ self.new }
        ensures none { IfNone result (self.new ≡ []) }
    {
        let item = take_unmarked(&mut self.items, &mut self.marks);
        if item.is_some() {
            self.left -= 1;
        }
        item
    }
}
