//! The names of a directory. Where there are many, each is found by a number that is made of it, so that names are
//! hardly ever compared.

use crate::errors::Stop;
use crate::nodes::Slot;
use std::alloc::Global;
use std::collections::BTreeMap;
use std::hash::{DefaultHasher, Hasher};

/// How many names are compared one after the other; more have cells.
const FEW: usize = 8;

/// How many bytes a short name has at most.
const SHORT: usize = 16;

/// How many cells in a row are tried for a name, and how many numbers in a row of those that are made by SipHash. Names
/// of one such number are not to be found in practice.
const TRIES: u32 = 16;

/// How many cells a table has at least.
const CELLS: usize = 32;

/// A name, and what is known of it.
#[derive(Drop)]
pub(crate) struct Named {
    pub(crate) name: Vec<u8>,
    pub(crate) slot: Slot,
}

/// A name in a directory, and where it was found there, so that it is not looked for again.
#[derive(Clone, Copy)]
pub(crate) struct Spot<'n> {
    /// The number of the directory.
    pub(crate) parent: usize,
    pub(crate) name: &'n [u8],
    pub(crate) found: Place,
}

/// Where the name of an entry is: the number of the directory, and the place in its list.
#[derive(Clone, Copy)]
pub(crate) struct Seat {
    pub(crate) parent: usize,
    pub(crate) place: usize,
}

/// Where in the list of a directory a name was found.
#[derive(Clone, Copy)]
pub(crate) enum Place {
    /// There: names stay where they are.
    At(usize),
    /// Nowhere, when the list had so many names.
    Nowhere(usize),
    /// It was not looked for.
    NotSought,
}

/// A cell of a table of names: the number of a name, and its place in the list, counted from 1; 0 if the cell is free.
#[derive(Clone, Copy)]
struct Cell {
    number: u32,
    place: u32,
}

/// The names of a directory, in the order in which they came up.
#[derive(Drop)]
pub(crate) struct DirectoryNames {
    names: Vec<Named>,
    /// A table, empty for few names: each name has the cell of its number, or one of the next ones. As many as a power
    /// of two.
    cells: Vec<Cell>,
    /// The places of the names that got no cell, by another number, or one of the next ones.
    others: BTreeMap<u64, usize>,
}

/// The number of a name that says its cell: by FNV-1a, which costs least. Whoever wants to finds names of one number.
fn number_of(name: &[u8]) -> u32 {
    let mut number: u32 = 2_166_136_261;
    for byte in name {
        number = (number ^ u32::from(*byte)).wrapping_mul(16_777_619);
    }
    number ^ (number >> 16)
}

/// The number of a name that got no cell.
fn other_number_of(name: &[u8]) -> u64 {
    let mut hasher = DefaultHasher::new();
    hasher.write(name);
    hasher.finish()
}

/// Whether two names are the same. Most that are not end in other bytes. Most names are short, and those are compared
/// byte by byte, which costs least.
fn are_same(name: &[u8], other: &[u8]) -> bool {
    if name.len() != other.len() || name.last() != other.last() {
        return false;
    }
    if name.len() > SHORT {
        return name == other;
    }
    name.iter().zip(other).all(|(byte, other)| *byte == *other)
}

impl Cell {
    fn free() -> Cell {
        Cell {
            number: 0,
            place: 0,
        }
    }
}

impl DirectoryNames {
    pub(crate) fn new(alloc: Global) -> DirectoryNames {
        DirectoryNames {
            names: Vec::new(alloc),
            cells: Vec::new(alloc),
            others: BTreeMap::new(alloc),
        }
    }

    /// All names, with what is known of them.
    pub(crate) fn each(&self) -> &[Named] {
        self.names.as_slice()
    }

    /// The name at a place in the list.
    pub(crate) fn name(&self, place: usize) -> &[u8] {
        match self.names.get(place) {
            Some(named) => named.name.as_slice(),
            None => &[],
        }
    }

    /// What is known of a name.
    pub(crate) fn get(&self, spot: Spot<'_>) -> Option<&Slot> {
        let named = self.names.get(self.place_again(spot)?)?;
        Some(&named.slot)
    }

    /// Whether the list has a name.
    pub(crate) fn contains(&self, name: &[u8]) -> bool {
        self.place(name).is_some()
    }

    /// Where in the list a name is.
    pub(crate) fn find(&self, name: &[u8]) -> Place {
        match self.place(name) {
            Some(place) => Place::At(place),
            None => Place::Nowhere(self.names.len()),
        }
    }

    /// Where in the list a name is that was looked for before.
    fn place_again(&self, spot: Spot<'_>) -> Option<usize> {
        match spot.found {
            Place::At(place) => Some(place),
            Place::Nowhere(count) if count == self.names.len() => None,
            Place::Nowhere(count) if self.is_at(count, spot.name) => Some(count),
            _ => self.place(spot.name),
        }
    }

    /// Where in the list a name is, which is added if it is not there.
    pub(crate) fn seat(&mut self, alloc: Global, spot: Spot<'_>) -> Result<usize, Stop> {
        match self.place_again(spot) {
            Some(place) => Ok(place),
            None => self.add(alloc, spot.name),
        }
    }

    /// What is known of the name at a place in the list, to be changed.
    pub(crate) fn slot_at(&mut self, place: usize) -> Option<&mut Slot> {
        match self.names.get_mut(place) {
            Some(named) => Some(&mut named.slot),
            None => None,
        }
    }

    /// Where in the list a name is.
    fn place(&self, name: &[u8]) -> Option<usize> {
        if self.names.len() <= FEW {
            return self.place_of_few(name);
        }
        let number = number_of(name);
        let mut at = number as usize;
        for _ in 0..TRIES {
            let cell = self.cell(at);
            if cell.place == 0 {
                return None;
            }
            let place = (cell.place as usize).saturating_sub(1);
            if cell.number == number && self.is_at(place, name) {
                return Some(place);
            }
            at = at.wrapping_add(1);
        }
        self.place_of_other(name)
    }

    /// The cell with this number, counted on from the first one behind the last one.
    fn cell(&self, at: usize) -> Cell {
        let mask = self.cells.len().saturating_sub(1);
        match self.cells.get(at & mask) {
            Some(cell) => *cell,
            None => Cell::free(),
        }
    }

    /// Where in the list a name is that has no cell.
    fn place_of_other(&self, name: &[u8]) -> Option<usize> {
        let mut number = other_number_of(name);
        for _ in 0..TRIES {
            let place = *self.others.get(&number)?;
            if self.is_at(place, name) {
                return Some(place);
            }
            number = number.wrapping_add(1);
        }
        None
    }

    fn place_of_few(&self, name: &[u8]) -> Option<usize> {
        for place in 0..self.names.len() {
            if self.is_at(place, name) {
                return Some(place);
            }
        }
        None
    }

    fn is_at(&self, place: usize, name: &[u8]) -> bool {
        match self.names.get(place) {
            Some(named) => are_same(named.name.as_slice(), name),
            None => false,
        }
    }

    /// Adds a name of which nothing is known, and returns where it is in the list.
    fn add(&mut self, alloc: Global, name: &[u8]) -> Result<usize, Stop> {
        let added = self.names.len();
        if added == 0 {
            self.names.reserve_exact(1)?;
        }
        let name = Vec::from_slice(alloc, name)?;
        let slot = Slot::unknown();
        self.names.push(Named { name, slot })?;
        let numbered = if added >= FEW && added >= self.cells.len() / 2 {
            self.number_all()
        } else {
            self.number(added)
        };
        numbered?;
        Ok(added)
    }

    /// Makes a table of twice as many cells, and gives each name a cell.
    fn number_all(&mut self) -> Result<(), Stop> {
        let alloc = *self.names.allocator();
        let count = self.cells.len().saturating_mul(2).max(CELLS);
        self.others = BTreeMap::new(alloc);
        self.cells = Vec::new(alloc);
        self.cells = vec![in alloc; Cell::free(); count]?;
        for place in 0..self.names.len() {
            self.number(place)?;
        }
        Ok(())
    }

    /// Gives the name at this place a cell, if there is a table.
    fn number(&mut self, place: usize) -> Result<(), Stop> {
        let Some(named) = self.names.get(place) else {
            return Ok(());
        };
        if self.cells.is_empty() {
            return Ok(());
        }
        let number = number_of(named.name.as_slice());
        match u32::try_from(place.saturating_add(1)) {
            Ok(kept) => {
                let cell = Cell {
                    number,
                    place: kept,
                };
                if self.put_cell(cell) {
                    return Ok(());
                }
                self.number_other(place)
            }
            Err(_) => Err(Stop::NoMemory),
        }
    }

    /// Puts a cell where its number says, or behind that, and says whether one of those cells was free.
    fn put_cell(&mut self, cell: Cell) -> bool {
        let mask = self.cells.len().saturating_sub(1);
        let mut at = cell.number as usize;
        for _ in 0..TRIES {
            if let Some(free) = self.cells.get_mut(at & mask) {
                if free.place == 0 {
                    *free = cell;
                    return true;
                }
            }
            at = at.wrapping_add(1);
        }
        false
    }

    /// Gives the name at this place, which got no cell, another number.
    fn number_other(&mut self, place: usize) -> Result<(), Stop> {
        let mut number = other_number_of(self.name(place));
        for _ in 0..TRIES {
            if !self.others.contains_key(&number) {
                self.others.insert(number, place)?;
                return Ok(());
            }
            number = number.wrapping_add(1);
        }
        Err(Stop::NoMemory)
    }

    /// Makes of each name what it was at the start.
    pub(crate) fn rewind(&mut self) {
        for named in self.names.iter_mut() {
            named.slot.rewind();
        }
    }
}
