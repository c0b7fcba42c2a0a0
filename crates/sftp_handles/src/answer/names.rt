//! The answers to OPEN, OPENDIR and READDIR (draft, sections 6.3 and 6.7).
ghost use Rattle.std.specs.Prelude.{◌≡◌, ◌≤◌, false, length, IfOk, IfErr, OnOk, OnErr, IsTrue};
ghost use Rattle.sftp_packets.specs.Spelling.{handle_limit};
ghost use Rattle.sftp_packets.specs.declared.requests.Ask.TheVariants as asks;
ghost use Rattle.sftp_handles.specs.State.{open_at, is_open};
ghost use Rattle.sftp_handles.specs.State as state;
ghost use Rattle.sftp_handles.specs.declared.requests.Purpose.TheVariants as variants;
ghost use Rattle.sftp_handles.specs.Payloads as purposes;
ghost use Rattle.sftp_handles.specs.Slots.{AreFirstNames, AreUpTo, names_in_reply};
ghost use Rattle.sftp_handles.specs.Slots.{IsRefusal};
ghost use Rattle.sftp_handles.specs.Payloads.{IsAnswered};

use crate::answer::forms::{new_handle, status};
use crate::not_opened::NotOpened;
use crate::open_listings::give_first;
use crate::sessions::Session;
use crate::tables::HandleTable;
use sftp_packets::status::EOF;
use sftp_packets::{Answer, Ask, ByteString};
use sftp_tree::{Cause, NoMemory, Refused};

/// How many names a reply to READDIR gives at most.
const NAMES_IN_REPLY: usize = 32;

impl<T: HandleTable> Session<T> {
    /// OPEN and OPENDIR: a new handle.
    ///
    /// # Errors
    ///
    /// `Cause` with the first cause that holds. `NoMemory` if memory runs out. On error the session is unchanged.
    pub(crate) fn answer_open(&mut self, ask: &Ask) -> Result<Answer, Refused>
        requires { purposes.purpose_of ask.now ≡ variants.Open }
        ensures done { IfOk result (λ answer. IsAnswered self.old ask.now answer self.new) }
        ensures refused { IfErr result (IsRefusal self.old ask.now) }
        ensures kept { OnErr result (self.new ≡ self.old) }
    {
        self.check_handles(ask)?;
        let want = self.free_name()?;
        match self.open_for(ask, want) {
            Ok(name) => Ok(new_handle(name)),
            Err(NotOpened::Refused(refused)) => Err(refused),
            Err(NotOpened::Taken) => unreachable!(),
        }
    }

    /// A name to want for the next handle: if the table takes it, nothing is open under it.
    ///
    /// # Errors
    ///
    /// `NoMemory` if memory runs out.
    fn free_name(&self) -> Result<Vec<u8>, NoMemory>
        requires { IsTrue (state.has_handle_left self.now) }
        ensures short { IfOk result (λ name. length name.items ≤ handle_limit) }
        ensures free { IfOk result (λ name. IsTrue T.takes_want → is_open self.now.handles name.items ≡ false) }
    {
        self.table.free_name(self.tree.allocator())
    }

    /// Whether a request that opens something finds room for one more handle.
    ///
    /// # Errors
    ///
    /// If there is none, `Cause` with the first cause that holds: one of the path's, or else `NoRoom`. `NoMemory` if
    /// memory runs out.
    fn check_handles(&self, ask: &Ask) -> Result<(), Refused>
        requires { purposes.purpose_of ask.now ≡ variants.Open }
        ensures left { OnOk result (IsTrue (state.has_handle_left self.now)) }
        ensures refused { IfErr result (IsRefusal self.now ask.now) }
    {
        if self.has_handle_left() {
            return Ok(());
        }
        self.tree.check(ask)?;
        Err(Refused::Cause(Cause::NoRoom))
    }

    /// READDIR: the first names, or the code that there are no more.
    ///
    /// # Errors
    ///
    /// The cause that holds. `NoMemory` if memory runs out. On error the session is unchanged.
    pub(crate) fn answer_list(&mut self, ask: &Ask) -> Result<Answer, Refused>
        requires { purposes.purpose_of ask.now ≡ variants.List }
        ensures done { IfOk result (λ answer. IsAnswered self.old ask.now answer self.new) }
        ensures refused { IfErr result (IsRefusal self.old ask.now) }
        ensures kept { OnErr result (self.new ≡ self.old) }
    {
        match ask {
            Ask::Readdir { handle } => self.answer_readdir(handle.as_slice()),
            _ => unreachable!(),
        }
    }

    /// READDIR: the first remaining entries of the listing, `NAMES_IN_REPLY` or fewer, each with the same long
    /// name and with its attributes; or the code that there are no more.
    ///
    /// # Errors
    ///
    /// The cause that holds. `NoMemory` if memory runs out. On error the session is unchanged.
    fn answer_readdir(&mut self, handle: &[u8]) -> Result<Answer, Refused>
        ensures done { IfOk result (λ answer. IsAnswered self.old (asks.Readdir handle.now) answer self.new) }
        ensures refused { IfErr result (IsRefusal self.old (asks.Readdir handle.now)) }
        ensures kept { OnErr result (self.new ≡ self.old) }
    {
        let longnames = self.names_up_to(handle, NAMES_IN_REPLY)?;
        let alloc = self.tree.allocator();
        if longnames.is_empty() {
            return Ok(status(alloc, EOF));
        }
        let room = Vec::with_capacity(alloc, longnames.len())?;
        let names = give_first(&mut self.table, handle, longnames, room);
        Ok(Answer::Name(names))
    }

    /// The first remaining entries of a listing: `NAMES_IN_REPLY` or fewer, in rising order of their bytes.
    ///
    /// # Errors
    ///
    /// `BadHandle` if the handle is not open, `WrongKind` if it is a file's. `NoMemory` if memory runs out.
    pub fn first_names(&self, handle: &[u8]) -> Result<Vec<ByteString>, Refused>
        ensures first { IfOk result
            (λ names. AreFirstNames names_in_reply (open_at self.now.handles handle.now) names.items) }
        ensures refused { IfErr result (IsRefusal self.now (asks.Readdir handle.now)) }
    {
        self.names_up_to(handle, NAMES_IN_REPLY)
    }

    /// The first remaining entries of a listing: `most` or fewer, in rising order of their bytes.
    ///
    /// # Errors
    ///
    /// `BadHandle` if the handle is not open, `WrongKind` if it is a file's. `NoMemory` if memory runs out.
    fn names_up_to(&self, handle: &[u8], most: usize) -> Result<Vec<ByteString>, Refused>
        ensures first { IfOk result (λ names. AreUpTo most (open_at self.now.handles handle.now) names.items) }
        ensures refused { IfErr result (IsRefusal self.now (asks.Readdir handle.now)) }
    {
        match self.listing_at(handle) {
            Ok(left) => {
                let names = left.first_names(self.tree.allocator(), most)?;
                Ok(names)
            }
            Err(cause) => Err(Refused::Cause(cause)),
        }
    }
}
