//! The answerer that puts times into the session's own replies.
ghost use Rattle.std.specs.Prelude.{◌≡◌};
ghost use Rattle.sftp_packets.specs.declared.packets.Packet.TheVariants.{Reply as reply_packet};
ghost use Rattle.sftp_packets.specs.Packets.{HasSpelling};
ghost use Rattle.sftp_bare.specs.Bare.{bare};

use crate::listings::{OpenListings, times_in};
use crate::places::Spot;
use crate::replies::{show_times, with_times_of_names};
use crate::tables::TimeTable;
use crate::times::{Moments, Times};
use crate::touches::{Change, Given, Touch, changes_names, has, touch_of};
use sftp_handles::{HandleTable, Session};
use sftp_server::Answerer;
use sftp_tree::{FileNo, NoMemory, Tree};
use sftp_wire::status::OK;
use sftp_wire::{Answer, Ask, Attrs, ByteString, Names, OpenFlags, Reply, Request};
use std::alloc::Global;
use std::mem;

/// The bits of permissions that say the type, and what they say of a link (POSIX, `sys/stat.h`).
const TYPE_BITS: u32 = 0o170000;

const LINK_TYPE: u32 = 0o120000;

/// Answers requests as the session itself does, with times of access and modification in each reply that shows
/// attributes.
///
/// Times are set by the requests that give some, and else by the clock: something new has the time at which it was
/// made, a file is modified by a WRITE of some bytes, by a truncation of OPEN and by a change of its length, and a
/// directory by a change of its names. Reading changes no time of access. What found no memory for its times has those
/// of the start.
///
/// A request costs, beside what the session does, a walk of each of its paths that is not kept (`TimeTable`): of the
/// path of STAT, LSTAT, OPENDIR and SETSTAT, and of the directory of a name that is made, removed or moved. No walk is
/// needed for an OPEN that makes nothing, nor for STAT, LSTAT and OPENDIR as long as nothing was given times. OPENDIR
/// costs a look-up for each name in the directory, if its names changed since it was listed.
#[derive(Drop)]
pub struct Clocked<C: Drop> {
    clock: C,
    table: TimeTable,
    listings: OpenListings,
    /// What the request that is being done does to times, if that was found before.
    touch: Touch,
}

impl<C: Moments + Drop> Clocked<C> {
    /// The answerer by this clock on a tree whose entries have the times of this table, or the time that it is now.
    pub fn new(alloc: Global, clock: C, table: TimeTable) -> Clocked<C> {
        let mut clock = clock;
        let mut table = table;
        table.start_at(Times::at(clock.now()));
        Clocked {
            clock,
            table,
            listings: OpenListings::new(alloc),
            touch: Touch::Nothing,
        }
    }

    /// The times of the entries as they are now.
    pub fn into_table(self) -> TimeTable {
        let Clocked {
            clock: _,
            table,
            listings: _,
            touch: _,
        } = self;
        table
    }
}

impl<C: Moments + Drop, T: HandleTable> Answerer<T> for Clocked<C> {
    // Inlined, since else each reply is copied once more.
    #[inline(always)]
    fn answer(&mut self, session: &mut Session<T>, request: &Request) -> Result<Reply, NoMemory> {
        if is_found_before(&request.ask) {
            self.find_touch(session, &request.ask)?;
        }
        match session.answer(request) {
            Ok(reply) => {
                let mut reply = reply;
                self.time(session, &request.ask, &mut reply);
                Ok(reply)
            }
            Err(error) => Err(error),
        }
    }
}

/// Whether a request asks for attributes alone.
fn shows_attributes(ask: &Ask) -> bool {
    match ask {
        Ask::Stat { .. } => true,
        Ask::Lstat { .. } => true,
        Ask::Fstat { .. } => true,
        _ => false,
    }
}

/// Whether what a request does to times is found before it is done: paths may lead elsewhere behind it.
fn is_found_before(ask: &Ask) -> bool {
    match ask {
        Ask::Open { pflags, .. } => {
            has(*pflags, OpenFlags::CREAT) || has(*pflags, OpenFlags::TRUNC)
        }
        Ask::Fsetstat { .. } => true,
        Ask::Setstat { .. } => true,
        _ => changes_names(ask),
    }
}

// Functions of their own, so that no request pays for the values of others.
impl<C: Moments + Drop> Clocked<C> {
    /// Finds what a request does to times.
    ///
    /// # Errors
    ///
    /// `NoMemory` if memory runs out.
    #[inline(never)]
    fn find_touch<T: HandleTable>(
        &mut self,
        session: &Session<T>,
        ask: &Ask,
    ) -> Result<(), NoMemory> {
        self.touch = touch_of(&mut self.table, session, ask)?;
        Ok(())
    }

    /// Puts times into the reply to a request that was done or refused, or notes what the request did to times.
    #[inline(never)]
    fn time<T: HandleTable>(&mut self, session: &Session<T>, ask: &Ask, reply: &mut Reply)
        ensures same_id { reply.new.id ≡ reply.old.id }
        ensures same { bare reply.new.answer ≡ bare reply.old.answer }
        ensures spelled { HasSpelling (reply_packet reply.old) → HasSpelling (reply_packet reply.new) }
    {
        match ask {
            Ask::Readdir { handle } => {
                self.show_names(session.tree().allocator(), handle.as_slice(), reply)
            }
            _ => {
                if shows_attributes(ask) {
                    self.show(session, ask, reply);
                } else {
                    self.note(session, ask, &reply.answer);
                }
            }
        }
    }
}

// What is shown.
impl<C: Moments + Drop> Clocked<C> {
    /// Gives a reply that shows attributes the times of that whose attributes they are.
    fn show<T: HandleTable>(&mut self, session: &Session<T>, ask: &Ask, reply: &mut Reply)
        ensures same_id { reply.new.id ≡ reply.old.id }
        ensures same { bare reply.new.answer ≡ bare reply.old.answer }
        ensures spelled { HasSpelling (reply_packet reply.old) → HasSpelling (reply_packet reply.new) }
    {
        if let Some(times) = self.times_of(session, ask, &reply.answer) {
            show_times(reply, times);
        }
    }

    /// The times of that whose attributes an answer shows, if it shows some.
    fn times_of<T: HandleTable>(
        &mut self,
        session: &Session<T>,
        ask: &Ask,
        answer: &Answer,
    ) -> Option<Times> {
        match (ask, answer) {
            (Ask::Stat { path }, Answer::Attrs(_)) => {
                self.table.of_path(session.tree(), path.as_slice())
            }
            (Ask::Lstat { path }, Answer::Attrs(attrs)) => {
                self.of_end(session.tree(), path.as_slice(), attrs)
            }
            (Ask::Fstat { .. }, Answer::Attrs(_)) => self.of_open(session, ask),
            _ => None,
        }
    }

    /// The times of that to which a path leads, which has these attributes.
    #[inline(never)]
    fn of_end(&mut self, tree: &Tree, path: &[u8], attrs: &Attrs) -> Option<Times> {
        if shows_link(attrs) {
            self.table.of_link(tree, path)
        } else {
            self.table.of_path(tree, path)
        }
    }

    /// The times of the file that is open under the handle of a request.
    #[inline(never)]
    fn of_open<T: HandleTable>(&mut self, session: &Session<T>, ask: &Ask) -> Option<Times> {
        if !self.table.is_touched() {
            return Some(self.table.start());
        }
        let number = session.touch(ask).file()?;
        Some(self.table.of_open(number))
    }

    /// Gives the reply to READDIR the times of the names.
    #[inline(never)]
    fn show_names(&mut self, alloc: Global, handle: &[u8], reply: &mut Reply)
        ensures same_id { reply.new.id ≡ reply.old.id }
        ensures same { bare reply.new.answer ≡ bare reply.old.answer }
        ensures spelled { HasSpelling (reply_packet reply.old) → HasSpelling (reply_packet reply.new) }
    {
        let none = Names::new(Vec::new(alloc));
        let answer = Answer::Name(none);
        let taken = mem::replace(reply, Reply { id: 0, answer });
        *reply = self.named(handle, taken);
    }

    /// The reply to READDIR, with the times of the names.
    fn named(&mut self, handle: &[u8], reply: Reply) -> Reply
        ensures same_id { result.id ≡ reply.id }
        ensures same { bare result.answer ≡ bare reply.answer }
        ensures spelled { HasSpelling (reply_packet reply) → HasSpelling (reply_packet result) }
    {
        let count = name_count(&reply.answer);
        let timed = with_times_of_names(reply, self.listings.left(handle));
        self.listings.give(handle, count);
        timed
    }
}

// What is noted of requests that were done.
impl<C: Moments + Drop> Clocked<C> {
    /// Notes what a request did to times, if it was done.
    fn note<T: HandleTable>(&mut self, session: &Session<T>, ask: &Ask, answer: &Answer) {
        match answer {
            Answer::Handle(handle) => self.note_opened(session, ask, handle.as_slice()),
            Answer::Status { code, .. } if *code == OK => self.note_done(session, ask),
            _ => {}
        }
    }

    /// Notes what a request did to times that opened something under a handle.
    fn note_opened<T: HandleTable>(&mut self, session: &Session<T>, ask: &Ask, handle: &[u8]) {
        match ask {
            Ask::Opendir { path } => self.list(session, path.as_slice(), handle),
            _ => {
                if is_found_before(ask) {
                    self.note_open(session, ask, handle);
                }
            }
        }
    }

    /// Notes what an OPEN did to times that may have made a file, or truncated one.
    #[inline(never)]
    fn note_open<T: HandleTable>(&mut self, session: &Session<T>, ask: &Ask, handle: &[u8]) {
        match (ask, self.touch.entries_before()) {
            (
                Ask::Open {
                    path,
                    pflags,
                    attrs,
                },
                Some(before),
            ) => {
                if session.tree().entry_count() > before {
                    let follow = !has(*pflags, OpenFlags::EXCL);
                    self.note_made(session, path.as_slice(), follow, attrs.times, handle);
                } else if has(*pflags, OpenFlags::TRUNC) {
                    self.note_truncated(session, handle);
                }
            }
            _ => {}
        }
    }

    /// A directory was opened: the times of its names are kept, if there is memory for them.
    #[inline(never)]
    fn list<T: HandleTable>(&mut self, session: &Session<T>, path: &[u8], handle: &[u8]) {
        if !self.table.is_touched() {
            let start = self.table.start();
            let _ = self.listings.open_alike(handle, start);
            return;
        }
        let Some(listing) = session.listing(handle) else {
            return;
        };
        if let Ok(times) = times_in(session.tree(), &mut self.table, path, listing) {
            let _ = self.listings.open(handle, times);
        }
    }

    /// An OPEN made a file.
    fn note_made<T: HandleTable>(
        &mut self,
        session: &Session<T>,
        path: &[u8],
        follow: bool,
        given: Given,
        handle: &[u8],
    ) {
        let tree = session.tree();
        let now = self.clock.now();
        if let Some(number) = file_under(session, handle) {
            self.table
                .set_file(tree, number, Times::given_or(given, now));
        }
        self.table.make_file(tree, path, follow, now);
    }

    /// An OPEN truncated a file.
    fn note_truncated<T: HandleTable>(&mut self, session: &Session<T>, handle: &[u8]) {
        let now = self.clock.now();
        if let Some(number) = file_under(session, handle) {
            self.table.modify_file(session.tree(), number, now);
        }
    }

    /// Notes what a request did to times that was done.
    fn note_done<T: HandleTable>(&mut self, session: &Session<T>, ask: &Ask) {
        match ask {
            Ask::Write { bytes, .. } => self.note_written(session, ask, bytes),
            Ask::Close { handle } => self.listings.close(handle.as_slice()),
            _ => {
                if is_found_before(ask) {
                    self.note_found(session.tree(), ask);
                }
            }
        }
    }

    /// Notes what a request did to times, as it was found before.
    #[inline(never)]
    fn note_found(&mut self, tree: &Tree, ask: &Ask) {
        match mem::replace(&mut self.touch, Touch::Nothing) {
            Touch::Nothing => self.note_set(tree, ask),
            touch => self.note_change(tree, ask, touch),
        }
    }

    /// A WRITE of some bytes modifies its file.
    fn note_written<T: HandleTable>(
        &mut self,
        session: &Session<T>,
        ask: &Ask,
        bytes: &ByteString,
    ) {
        if bytes.as_slice().is_empty() {
            return;
        }
        if let Some(number) = session.touch(ask).file() {
            let now = self.clock.now();
            self.table.modify_file(session.tree(), number, now);
        }
    }

    /// A SETSTAT gave what a path leads to these times, if it gave some.
    fn note_set(&mut self, tree: &Tree, ask: &Ask) {
        if let Ask::Setstat { path, attrs } = ask {
            if let Some(pair) = attrs.times {
                let _ = self.clock.now();
                self.table
                    .set_path(tree, path.as_slice(), Times::given(pair));
            }
        }
    }

    fn note_change(&mut self, tree: &Tree, ask: &Ask, touch: Touch) {
        let now = self.clock.now();
        match touch.of_file() {
            Some((number, change)) => {
                drop(touch);
                note_file(&mut self.table, tree, number, change, now);
            }
            None => note_entry(&mut self.table, ask, touch, now),
        }
    }
}

/// A request was done that changes a file.
fn note_file(table: &mut TimeTable, tree: &Tree, number: FileNo, change: Change, now: u32) {
    match change {
        Change::Set(times) => table.set_file(tree, number, times),
        Change::Modify => table.modify_file(tree, number, now),
    }
}

/// A request was done that changes which entries there are.
fn note_entry(table: &mut TimeTable, ask: &Ask, touch: Touch, now: u32) {
    match touch {
        Touch::Move(old, new) => table.rename(&old, new, now),
        Touch::At(spot) => note_name(table, ask, spot, now),
        Touch::File(..) => {}
        Touch::Nothing => {}
        Touch::Open(_) => {}
    }
}

/// A request was done that makes or removes what stands at a name, or gives a file this name.
fn note_name(table: &mut TimeTable, ask: &Ask, spot: Spot, now: u32) {
    match ask {
        Ask::Mkdir { attrs, .. } => table.make(spot, Times::given_or(attrs.times, now), now),
        Ask::Symlink { .. } => table.make_link(spot, now),
        Ask::Hardlink { .. } => table.name(&spot, now),
        _ => table.remove(&spot, now),
    }
}

/// The number of the file that is open under a handle.
fn file_under<T: HandleTable>(session: &Session<T>, handle: &[u8]) -> Option<FileNo> {
    let Ok(handle) = ByteString::from_slice(session.tree().allocator(), handle) else {
        return None;
    };
    let ask = Ask::Fstat { handle };
    let file = session.touch(&ask).file();
    drop(ask);
    file
}

/// Whether attributes are those of a link.
fn shows_link(attrs: &Attrs) -> bool {
    match attrs.permissions {
        Some(permissions) => permissions & TYPE_BITS == LINK_TYPE,
        None => false,
    }
}

/// How many names an answer gives.
fn name_count(answer: &Answer) -> usize {
    match answer {
        Answer::Name(names) => names.as_slice().len(),
        _ => 0,
    }
}
