//! Hints: where among items in order the one with a name may be. A hint is tried before the search, and counts only if
//! the item there has the name, so a wrong hint costs time and nothing else.
ghost use Rattle.std.specs.Prelude.{IsTrue, IfOk, IfErr, IfSome, map};
ghost use Rattle.sftp_path.specs.Place.{name_cmp};
ghost use Rattle.sftp_path.specs.Table.{InOrder};
ghost use Rattle.sftp_tree.specs.Items.{entry_of};
ghost use Rattle.sftp_listing.specs.Marked.{IsNamed, IsGap};

use crate::marks::place_of;
use sftp_path::{Name, NoMemory};
use sftp_tree::Item;
use std::alloc::Global;
use std::collections::VecDeque;

/// How many slots a name has, one after the other. The hint is in one of them, if there is one.
const STEPS: usize = 8;

/// A hint: the item of a name with this hash may be at this place.
#[derive(Clone, Copy, Debug)]
struct Hint {
    hash: u32,
    place: u32,
}

/// Hints, in slots that the hashes of names lead to.
#[derive(Debug, Drop)]
pub(crate) struct Hints {
    slots: Vec<Option<Hint>>,
}

impl Hints {
    /// No hints. Does not allocate.
    pub(crate) fn none(alloc: Global) -> Hints {
        Hints {
            slots: Vec::new(alloc),
        }
    }

    /// Whether these are no hints.
    pub(crate) fn are_none(&self) -> bool {
        self.slots.is_empty()
    }

    /// Hints for items. There are twice as many slots as items.
    ///
    /// # Errors
    ///
    /// `NoMemory` if memory runs out.
    pub(crate) fn of(alloc: Global, items: &VecDeque<Item>) -> Result<Hints, NoMemory> {
        let mut slots = Vec::new(alloc);
        slots.resize(items.len().saturating_mul(2), None)?;
        let mut hints = Hints { slots };
        let mut place: u32 = 0;
        for item in items {
            hints.put(&item.name, place);
            place = place.saturating_add(1);
        }
        Ok(hints)
    }

    /// Puts a hint for a name, if one of its slots has none. Does not allocate.
    fn put(&mut self, name: &Name, place: u32) {
        let hint = Hint {
            hash: hash_of(name),
            place,
        };
        for step in 0..STEPS {
            if self.fill(step, hint) {
                return;
            }
        }
    }

    /// Puts a hint into a slot of its hash, if that has none. Returns whether it had none.
    fn fill(&mut self, step: usize, hint: Hint) -> bool {
        let number = self.slot_of(hint.hash, step);
        match self.slots.get_mut(number) {
            Some(slot) => {
                if slot.is_some() {
                    return false;
                }
                *slot = Some(hint);
                true
            }
            None => false,
        }
    }

    /// The number of a slot of a hash.
    fn slot_of(&self, hash: u32, step: usize) -> usize {
        let count = self.slots.len();
        if count == 0 {
            return 0;
        }
        (hash as usize).wrapping_add(step) % count
    }

    /// The hint in a slot of a hash.
    fn hint(&self, hash: u32, step: usize) -> Option<Hint> {
        match self.slots.get(self.slot_of(hash, step)) {
            Some(slot) => *slot,
            None => None,
        }
    }

    /// Where the item with a name is, if a hint says it.
    fn place(&self, items: &VecDeque<Item>, name: &Name) -> Option<usize>
        ensures { IfSome result (IsNamed items.now.items name.now) }
    {
        let hash = hash_of(name);
        for step in 0..STEPS {
            let Some(hint) = self.hint(hash, step) else {
                return None;
            };
            if let Some(place) = place_at(items, name, hash, hint) {
                return Some(place);
            }
        }
        None
    }
}

/// A hash of a name: FNV-1a with 32 bits.
fn hash_of(name: &Name) -> u32 {
    let mut hash: u32 = 0x811c_9dc5;
    for byte in name.as_slice() {
        hash = (hash ^ u32::from(*byte)).wrapping_mul(0x0100_0193);
    }
    hash
}

/// The place that a hint has, if the item there has the name, of which this is the hash.
fn place_at(items: &VecDeque<Item>, name: &Name, hash: u32, hint: Hint) -> Option<usize>
    ensures { IfSome result (IsNamed items.now.items name.now) }
{
    if hint.hash != hash {
        return None;
    }
    let place = hint.place as usize;
    if is_named(items, place, name) {
        Some(place)
    } else {
        None
    }
}

/// Whether there is an item with a name at a place.
fn is_named(items: &VecDeque<Item>, place: usize, name: &Name) -> bool
    ensures { IsTrue result → IsNamed items.now.items name.now place }
{
    match items.get(place) {
        Some(item) => item.name == *name,
        None => false,
    }
}

/// Where the item with a name is. Does not allocate.
///
/// # Errors
///
/// Where an item with the name would have to be put, if there is none.
pub(crate) fn find_place(items: &VecDeque<Item>, hints: &Hints, name: &Name) -> Result<usize, usize>
    requires { InOrder name_cmp (map entry_of items.now.items) }
    ensures named { IfOk result (IsNamed items.now.items name.now) }
    ensures gap { IfErr result (IsGap items.now.items name.now) }
{
    match hints.place(items, name) {
        Some(place) => Ok(place),
        None => place_of(items, name),
    }
}
