//! READDIR: the names that a listing gives, and its end (draft, section 6.7).
ghost use Rattle.std.specs.Prelude.{◌≡◌, ◌≤◌, [], Some, is_some, length, IfOk, IfSome, OnErr};
ghost use Rattle.std.specs.Borrow.{Lends, sem};
ghost use Rattle.std.specs.Vec.{vec_capacity};
ghost use Rattle.sftp_packets.specs.declared.requests.Ask.TheVariants.{Readdir};
ghost use Rattle.sftp_packets.specs.declared.replies.Answer.TheVariants as replies;
ghost use Rattle.sftp_listing.specs.contracts.Listing.{the_row};
ghost use Rattle.sftp_handles.specs.declared.opens.Open.TheVariants as opens;
ghost use Rattle.sftp_handles.specs.contracts.opens.Open as lender;
ghost use Rattle.sftp_handles.specs.Slots.{AreFirst, AreFirstNames};
ghost use Rattle.sftp_handles.specs.State.{open_at};
ghost use Rattle.sftp_handles.specs.Replies.{names_in};
ghost use Rattle.sftp_handles.specs.Slots.{IsListing, gives_names, with_struck};
ghost use Rattle.sftp_handles.specs.Slots.{IsJudged, IsJudgedCode};

use crate::opens::Open;
use crate::sessions::Session;
use crate::tables::HandleTable;
use sftp_listing::Listing;
use sftp_packets::{ByteString, NameItem, Names};
use sftp_path::Name;
use sftp_tree::NoMemory;

impl<T: HandleTable> Session<T> {
    /// READDIR: whether names are remaining entries of the listing, each once and with its attributes.
    /// If so, they are struck out.
    ///
    /// # Errors
    ///
    /// `NoMemory` if memory runs out; the session is unchanged.
    pub(crate) fn give_names(&mut self, handle: &[u8], names: &Names) -> Result<bool, NoMemory>
        ensures ok { IfOk result
            (λ ok. IsJudged self.old (Readdir handle.now) (replies.Name names.now) ok self.new) }
        ensures err { OnErr result (self.new ≡ self.old) }
    {
        match self.names_to_give(handle, names)? {
            Some(given) => {
                strike_names(&mut self.table, handle, given.as_slice());
                Ok(true)
            }
            None => Ok(false),
        }
    }

    /// The names of a reply, if a listing is open of which they are remaining entries.
    ///
    /// # Errors
    ///
    /// `NoMemory` if memory runs out.
    fn names_to_give(&self, handle: &[u8], names: &Names) -> Result<Option<Vec<Name>>, NoMemory>
        ensures given { IfOk result (λ o. IfSome o (λ given. given.items ≡ names_in names.now)) }
        ensures gives { IfOk result (λ o.
            is_some o ≡ gives_names (open_at self.now.handles handle.now) names.now) }
    {
        match self.listing_at(handle) {
            Ok(left) => left.chosen(self.tree.allocator(), names),
            Err(_) => Ok(None),
        }
    }

    /// READDIR: whether a listing is open that has nothing left to give.
    pub(crate) fn has_given_all(&self, handle: &[u8]) -> bool
        ensures { IsJudgedCode self.now (Readdir handle.now) 1 result self.now }
    {
        match self.listing_at(handle) {
            Ok(left) => left.is_empty(),
            Err(_) => false,
        }
    }
}

/// Strikes names from the listing that is open under a handle. It takes memory for hints, if there is some.
pub(crate) fn strike_names<T: HandleTable>(table: &mut T, handle: &[u8], given: &[Name])
    requires { IsListing (open_at (T.handles table.old) handle.now) }
    ensures { T.handles table.new
        ≡ with_struck (T.handles table.old) handle.now given.now (open_at (T.handles table.old) handle.now) }
{
    match table.find_mut(handle) {
        Some(it) => {
            let left = listing_of(it);
            left.make_hints();
            left.strike_all(given);
        }
        None => unreachable!(),
    }
}

/// Takes the first names, of which these are copies, from the listing that is open under a handle, as the items of a
/// reply. The copies become the long names. `room` has no items yet. Does not allocate.
pub(crate) fn give_first<T: HandleTable>(
    table: &mut T,
    handle: &[u8],
    longnames: Vec<ByteString>,
    room: Vec<NameItem>,
) -> Names
    requires listing { IsListing (open_at (T.handles table.old) handle.now) }
    requires names { AreFirstNames (length longnames.items) (open_at (T.handles table.old) handle.now) longnames.items }
    requires empty { room.items ≡ [] }
    requires room { length longnames.items ≤ vec_capacity room }
    ensures first { AreFirst (length longnames.items) (open_at (T.handles table.old) handle.now) result }
    ensures count { length result ≡ length longnames.items }
    ensures struck { T.handles table.new
        ≡ with_struck (T.handles table.old) handle.now (names_in result) (open_at (T.handles table.old) handle.now) }
{
    match table.find_mut(handle) {
        Some(it) => listing_of(it).take_first(longnames, room),
        None => unreachable!(),
    }
}

/// Lends the listing that is open.
fn listing_of(it: &mut Open) -> &mut Listing
    requires { IsListing (Some it.old) }
    ensures* writes_back { sem 𝓛 (Lends lender.the_row the_row it.entry result opens.Listing) }
    ensures found { it.old ≡ opens.Listing result.now }
{
    match it {
        Open::Listing { left } => left,
        Open::File { .. } => unreachable!(),
    }
}
