//! The lazy tree: what replies told so far, and what the session made of it.

use crate::choices::Take;
use crate::errors::{Clash, Stop};
use crate::facts::{Fact, Says};
use crate::handles::Handles;
use crate::marks::Marks;
use crate::names::{Seat, Spot};
use crate::nodes::{Held, Node, Slot, Sort};
use crate::refusals::Guess;
use crate::search::HEARD;
use crate::settings::Settings;
use sftp_path::NoMemory;
use std::alloc::Global;

/// How many components of a walk are as much work as a request.
const FREE_STEPS: u64 = 64;

/// How many bytes of memory a piece of a file takes, about.
const PIECE_BYTES: u64 = 40;

/// What is known in the middle of a pass.
#[derive(Drop)]
pub(crate) struct World {
    pub(crate) alloc: Global,
    /// How many bytes the session has.
    pub(crate) session_bytes: u64,
    pub(crate) settings: Settings,
    /// The entries; the first one is the root.
    pub(crate) nodes: Vec<Node>,
    /// What would be the entry of a number that none has, and what would be known of the name at such a seat.
    other: Node,
    other_slot: Slot,
    pub(crate) home: Vec<u8>,
    pub(crate) handles: Handles,
    /// Who owns what is made, and the record that told it.
    pub(crate) owner: Option<(u32, u32)>,
    /// The most bytes that a READ gave, that a file had, and the most handles that were open.
    pub(crate) most_read: u64,
    pub(crate) most_bytes: u64,
    pub(crate) most_handles: u64,
    /// How many further names the session gave to files.
    pub(crate) further: u64,
    /// Facts that this pass found, which it could follow at once.
    pub(crate) learned: Vec<Fact>,
    /// What is made up, since a reply asks for something that nothing tells.
    pub(crate) invented: Vec<Fact>,
    /// Whether the request at hand follows a last link.
    pub(crate) follows: bool,
    /// Whether refusals are taken, and whether one was passed over.
    pub(crate) hears: bool,
    pub(crate) skipped: bool,
    /// The refusals for which a reason was taken that nothing tells.
    pub(crate) guesses: Vec<Guess>,
    /// The reasons that the search wants.
    pub(crate) takes: Vec<Take>,
    /// The numbers of entries that are there no more.
    pub(crate) spare: Vec<usize>,
    /// How many passes were made.
    pub(crate) passes: u32,
    /// The entry that showed who owns what is made.
    pub(crate) owner_by: usize,
    /// The contradiction that ends the pass, and what might resolve it.
    pub(crate) clash: Option<Clash>,
    pub(crate) proposals: Vec<Fact>,
    /// The records at hand: of the request, and of its reply.
    pub(crate) asked: u64,
    pub(crate) replied: u64,
    /// The one of them that says what the exchange tells: the reply if it has more than a code or a handle.
    pub(crate) teller: u64,
    /// Whether memory ran out for a proposal: the exchange at hand ends the pass.
    pub(crate) lacks_memory: bool,
    /// The replies that say what another record says, too.
    pub(crate) marks: Marks,
    /// The steps of the pass, and how many bytes of memory its facts take, about.
    pub(crate) work: u64,
    pub(crate) taken: u64,
}

impl World {
    /// A tree of which nothing is known but its root.
    pub(crate) fn new(
        alloc: Global,
        session_bytes: u64,
        settings: Settings,
        home: &[u8],
    ) -> Result<World, NoMemory> {
        let seat = Seat {
            parent: 0,
            place: 0,
        };
        let nodes = vec![in alloc; Node::old(alloc, Sort::Directory, 0, seat)]?;
        let home = Vec::from_slice(alloc, home)?;
        Ok(World {
            alloc,
            session_bytes,
            settings,
            nodes,
            other: Node::old(alloc, Sort::Unknown, 0, seat),
            other_slot: Slot::unknown(),
            home,
            handles: Handles::new(alloc),
            owner: None,
            most_read: 0,
            most_bytes: 0,
            most_handles: 0,
            further: 0,
            learned: Vec::new(alloc),
            invented: Vec::new(alloc),
            follows: false,
            hears: false,
            skipped: false,
            guesses: Vec::new(alloc),
            takes: Vec::new(alloc),
            spare: Vec::new(alloc),
            passes: 0,
            owner_by: 0,
            clash: None,
            proposals: Vec::new(alloc),
            asked: 0,
            replied: 0,
            teller: 0,
            lacks_memory: false,
            marks: Marks::new(alloc),
            work: 0,
            taken: 0,
        })
    }

    /// What came of a step: that memory ran out, if it did on the way.
    pub(crate) fn checked(&self, step: Result<(), Stop>) -> Result<(), Stop> {
        if self.lacks_memory {
            return Err(Stop::NoMemory);
        }
        step
    }

    /// A copy of a text; `None` if memory runs out, which is noted.
    pub(crate) fn copy(&mut self, text: &[u8]) -> Option<Vec<u8>> {
        match Vec::from_slice(self.alloc, text) {
            Ok(copy) => Some(copy),
            Err(_) => {
                self.lacks_memory = true;
                None
            }
        }
    }

    /// Adds the components that a walk looked at to the work of the pass. Those of usual paths are no work of their
    /// own.
    pub(crate) fn count_steps(&mut self, steps: u64) {
        self.work = self.work.saturating_add(steps / FREE_STEPS);
    }

    /// Adds so many pieces of files to the memory of the pass.
    pub(crate) fn take_pieces(&mut self, count: u64) {
        let bytes = count.saturating_mul(PIECE_BYTES);
        self.taken = self.taken.saturating_add(bytes);
    }

    /// How far the pass came: the number of the request at hand, and more if refusals are taken.
    pub(crate) fn progress(&self) -> u64 {
        let heard = if self.hears { HEARD } else { 0 };
        self.asked.saturating_add(heard)
    }

    /// The entry with this number.
    pub(crate) fn entry(&self, at: usize) -> &Node {
        match self.nodes.get(at) {
            Some(entry) => entry,
            None => &self.other,
        }
    }

    /// The same, to be changed.
    pub(crate) fn entry_mut(&mut self, at: usize) -> &mut Node {
        match self.nodes.get_mut(at) {
            Some(entry) => entry,
            None => &mut self.other,
        }
    }

    /// The kind of an entry.
    pub(crate) fn sort(&self, at: usize) -> Sort {
        self.entry(at).sort
    }

    /// The record that told of an entry.
    pub(crate) fn told(&self, at: usize) -> u64 {
        self.entry(at).told
    }

    /// Sets the kind of an entry that was of no known kind.
    pub(crate) fn set_sort(&mut self, at: usize, sort: Sort) {
        let told = self.teller;
        let entry = self.entry_mut(at);
        if entry.sort == Sort::Unknown {
            entry.sort = sort;
            entry.told = told;
        }
    }

    /// Looks for a name in a directory.
    pub(crate) fn spot<'n>(&self, parent: usize, name: &'n [u8]) -> Spot<'n> {
        let found = self.entry(parent).names.find(name);
        Spot {
            parent,
            name,
            found,
        }
    }

    /// What is known of a name in a directory.
    pub(crate) fn slot(&self, spot: Spot<'_>) -> Slot {
        match self.entry(spot.parent).names.get(spot) {
            Some(slot) => *slot,
            None => Slot::unknown(),
        }
    }

    /// The same, to be changed. The name is added if it is not there.
    pub(crate) fn slot_mut(&mut self, spot: Spot<'_>) -> Result<&mut Slot, Stop> {
        let seat = self.seat(spot)?;
        Ok(self.slot_at(seat))
    }

    /// Where the name of a spot is, which is added if it is not there.
    fn seat(&mut self, spot: Spot<'_>) -> Result<Seat, Stop> {
        let alloc = self.alloc;
        let place = self.entry_mut(spot.parent).names.seat(alloc, spot)?;
        Ok(Seat {
            parent: spot.parent,
            place,
        })
    }

    /// What is known of the name at a seat, to be changed.
    fn slot_at(&mut self, seat: Seat) -> &mut Slot {
        match self.nodes.get_mut(seat.parent) {
            Some(entry) => match entry.names.slot_at(seat.place) {
                Some(slot) => slot,
                None => &mut self.other_slot,
            },
            None => &mut self.other_slot,
        }
    }

    /// Stores an entry of the start of which nothing else is known, and returns its number.
    fn store(&mut self, sort: Sort, seat: Seat) -> Result<usize, Stop> {
        let entry = Node::old(self.alloc, sort, self.teller, seat);
        if let Some(at) = self.spare.pop() {
            drop(std::mem::replace(self.entry_mut(at), entry));
            return Ok(at);
        }
        let at = self.nodes.len();
        self.nodes.push(entry)?;
        Ok(at)
    }

    /// Tells that the start has something at a name of which nothing is known.
    pub(crate) fn tell(&mut self, spot: Spot<'_>, sort: Sort) -> Result<usize, Stop> {
        let seat = self.seat(spot)?;
        let at = self.store(sort, seat)?;
        let told = self.teller;
        let slot = self.slot_at(seat);
        slot.start = Some(Held::Entry(at));
        slot.told = told;
        Ok(at)
    }

    /// A new entry, with the place where it is made as its first one.
    pub(crate) fn make(&mut self, sort: Sort, spot: Spot<'_>) -> Result<usize, Stop> {
        let seat = self.seat(spot)?;
        let at = self.store(sort, seat)?;
        let told = self.teller;
        self.entry_mut(at).be_new(told);
        self.change_at(seat, Held::Entry(at));
        Ok(at)
    }

    /// Moves an entry to a name, which leads to it from now on.
    pub(crate) fn seat_entry(&mut self, at: usize, spot: Spot<'_>) -> Result<(), Stop> {
        let seat = self.seat(spot)?;
        self.change_at(seat, Held::Entry(at));
        self.entry_mut(at).seat = seat;
        Ok(())
    }

    /// Has the name at a seat lead to something from now on.
    fn change_at(&mut self, seat: Seat, held: Held) {
        let changed = self.asked;
        let slot = self.slot_at(seat);
        slot.now = Some(held);
        slot.changed = changed;
    }

    /// Tells that the start has nothing at a name of which nothing is known.
    pub(crate) fn tell_nothing(&mut self, spot: Spot<'_>, is_assumed: bool) -> Result<(), Stop> {
        let told = self.teller;
        let slot = self.slot_mut(spot)?;
        if slot.start.is_none() {
            slot.start = Some(Held::Nothing);
            slot.told = told;
            slot.is_assumed = is_assumed;
        }
        Ok(())
    }

    /// Has a name lead to something from now on.
    pub(crate) fn change(&mut self, spot: Spot<'_>, held: Held) -> Result<(), Stop> {
        let seat = self.seat(spot)?;
        self.change_at(seat, held);
        Ok(())
    }

    /// Takes back that nothing was at a name at the start, if it was only assumed and still matters. The pass goes on,
    /// and a further one begins with what is learned.
    /// Returns the entry that is there.
    pub(crate) fn retract(&mut self, spot: Spot<'_>) -> Result<Option<usize>, Stop> {
        let slot = self.slot(spot);
        if !slot.is_assumed || slot.now.is_some() {
            return Ok(None);
        }
        self.slot_mut(spot)?.is_assumed = false;
        self.learn(spot.parent, spot.name, Says::There)?;
        Ok(Some(self.tell(spot, Sort::Unknown)?))
    }
}
