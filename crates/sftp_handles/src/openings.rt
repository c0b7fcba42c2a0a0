//! OPEN and OPENDIR (draft, sections 6.3 and 6.7).
ghost use Rattle.std.specs.Prelude.{◌≡◌, ◌≤◌, ◌&&◌, None, length, nat_le, IsTrue, IfOk, IfErr, OnErr};
ghost use Rattle.sftp_packets.specs.Spelling.{AreBytes, handle_limit};
ghost use Rattle.sftp_packets.specs.declared.requests.Ask.{Ask as ask};
ghost use Rattle.sftp_packets.specs.declared.requests.Ask.TheVariants as asks;
ghost use Rattle.sftp_packets.specs.declared.replies.Answer.TheVariants as replies;
ghost use Rattle.sftp_handles.specs.declared.not_opened.NotOpened.TheVariants as failures;
ghost use Rattle.sftp_handles.specs.declared.opens.Open.TheVariants as opens;
ghost use Rattle.sftp_handles.specs.declared.requests.Purpose.TheVariants as variants;
ghost use Rattle.sftp_handles.specs.Payloads as purposes;
ghost use Rattle.sftp_handles.specs.State as handles;
ghost use Rattle.sftp_tree.specs.Tree.{Tree as tree};
ghost use Rattle.sftp_handles.specs.State.{Good, has_handle_left};
ghost use Rattle.sftp_handles.specs.Allowed.{Does};
ghost use Rattle.sftp_handles.specs.Slots.{IsJudged};
ghost use Rattle.sftp_handles.specs.Opening.{session_of, IsNotOpened, not_opened};

use crate::not_opened::NotOpened;
use crate::opens::Open;
use crate::sessions::Session;
use crate::tables::{HandleTable, PutError};
use bitflags::Flags;
use sftp_listing::Listing;
use sftp_packets::{Ask, Attrs, HANDLE_LIMIT, OpenFlags};
use sftp_tree::{NoMemory, Refused, Tree};

impl<T: HandleTable> Session<T> {
    /// OPEN and OPENDIR: opens a file, or a listing of a directory, under a new handle, and returns the handle's name.
    /// A table that gives names of its own ignores the one that is wanted.
    ///
    /// # Errors
    ///
    /// `Taken` if the wanted name is open already, and else as the tree's call. On error the session is unchanged.
    pub(crate) fn open_for(&mut self, ask: &Ask, want: Vec<u8>) -> Result<Vec<u8>, NotOpened>
        requires purpose { purposes.purpose_of ask.now ≡ variants.Open }
        requires short { length want.items ≤ handle_limit }
        requires room { IsTrue (has_handle_left self.old) }
        ensures done { IfOk result (λ name. Does self.old ask.now (replies.Handle name.items) self.new) }
        ensures bytes { IfOk result (λ name. AreBytes name.items) }
        ensures wanted { IfOk result (λ name. IsTrue T.takes_want → name.items ≡ want.items) }
        ensures failed { IfErr result (IsNotOpened self.old ask.now want.items) }
        ensures taken { IfErr result (λ e. e ≡ failures.Taken → IsTrue T.takes_want) }
        ensures kept { OnErr result (self.new ≡ self.old) }
    {
        open_in(&mut self.tree, &mut self.table, ask, want)
    }

    /// Whether a handle is an allowed answer to OPEN or OPENDIR. What these open is then open under it.
    ///
    /// # Errors
    ///
    /// `NoMemory` if memory runs out; the session is unchanged.
    pub(crate) fn judge_handle(&mut self, ask: &Ask, handle: &[u8]) -> Result<bool, NoMemory>
        requires table { IsTrue T.takes_want }
        requires purpose { purposes.purpose_of ask.now ≡ variants.Open }
        ensures ok { IfOk result (λ ok. IsJudged self.old ask.now (replies.Handle handle.now) ok self.new) }
        ensures err { OnErr result (self.new ≡ self.old) }
    {
        if !self.has_place_for(handle) {
            return Ok(false);
        }
        let want = Vec::from_slice(self.tree.allocator(), handle)?;
        match self.open_for(ask, want) {
            Ok(_name) => Ok(true),
            Err(failed) => not_opened(failed),
        }
    }

    /// Whether a handle is not too long, and one more may be opened.
    fn has_place_for(&self, handle: &[u8]) -> bool
        ensures { result ≡ (nat_le (length handle.now) handle_limit && has_handle_left self.now) }
    {
        handle.len() <= HANDLE_LIMIT && self.has_handle_left()
    }
}

/// Opens a file of a tree, or a listing of one of its directories, in the table of a session: under the name that the
/// table has for the next handle, which it returns.
///
/// # Errors
///
/// `Taken` if the wanted name is open already, and else as the tree's call. On error the tree is unchanged, and so are
/// what is open and the name for the next handle: a request that is refused uses up no serial.
fn open_in<T: HandleTable>(
    tree: &mut Tree,
    table: &mut T,
    ask: &Ask,
    want: Vec<u8>,
) -> Result<Vec<u8>, NotOpened>
    requires purpose { purposes.purpose_of ask.now ≡ variants.Open }
    requires short { length want.items ≤ handle_limit }
    requires good { Good (session_of tree.old (T.handles table.old)) }
    requires room { IsTrue (has_handle_left (session_of tree.old (T.handles table.old))) }
    ensures done { IfOk result (λ name. Does (session_of tree.old (T.handles table.old)) ask.now
        (replies.Handle name.items) (session_of tree.new (T.handles table.new))) }
    ensures good { Good (session_of tree.new (T.handles table.new)) }
    ensures named { IfOk result (λ name. name.items ≡ T.name_for table.old want.items) }
    ensures bytes { IfOk result (λ name. AreBytes name.items) }
    ensures wanted { IfOk result (λ name. IsTrue T.takes_want → name.items ≡ want.items) }
    ensures failed { IfErr result
        (IsNotOpened (session_of tree.old (T.handles table.old)) ask.now want.items) }
    ensures taken { IfErr result (λ e. e ≡ failures.Taken → IsTrue T.takes_want) }
    ensures kept { OnErr result (tree.new ≡ tree.old) }
    ensures closed { OnErr result (T.handles table.new ≡ T.handles table.old) }
    ensures next { OnErr result (T.name_for table.new ≡ T.name_for table.old) }
{
    match ask {
        Ask::Open {
            path,
            pflags,
            attrs,
        } => open_file(tree, table, path.as_slice(), *pflags, attrs, want),
        Ask::Opendir { path } => open_directory(tree, table, path.as_slice(), want),
        _ => unreachable!(),
    }
}

/// OPEN, as `open_in`.
///
/// # Errors
///
/// As `open_in`.
fn open_file<T: HandleTable>(
    tree: &mut Tree,
    table: &mut T,
    path: &[u8],
    pflags: u32,
    attrs: &Attrs,
    want: Vec<u8>,
) -> Result<Vec<u8>, NotOpened>
    requires short { length want.items ≤ handle_limit }
    requires good { Good (session_of tree.old (T.handles table.old)) }
    requires room { IsTrue (has_handle_left (session_of tree.old (T.handles table.old))) }
    ensures done { IfOk result (λ name. Does (session_of tree.old (T.handles table.old))
        (asks.Open path.now pflags attrs.now) (replies.Handle name.items)
        (session_of tree.new (T.handles table.new))) }
    ensures good { Good (session_of tree.new (T.handles table.new)) }
    ensures named { IfOk result (λ name. name.items ≡ T.name_for table.old want.items) }
    ensures bytes { IfOk result (λ name. AreBytes name.items) }
    ensures wanted { IfOk result (λ name. IsTrue T.takes_want → name.items ≡ want.items) }
    ensures failed { IfErr result (IsNotOpened (session_of tree.old (T.handles table.old))
        (asks.Open path.now pflags attrs.now) want.items) }
    ensures taken { IfErr result (λ e. e ≡ failures.Taken → IsTrue T.takes_want) }
    ensures kept { OnErr result (tree.new ≡ tree.old) }
    ensures closed { OnErr result (T.handles table.new ≡ T.handles table.old) }
    ensures next { OnErr result (T.name_for table.new ≡ T.name_for table.old) }
{
    let alloc = tree.allocator();
    match table.reserve(alloc, want.as_slice()) {
        Ok(name) => match tree.open_file(path, pflags, attrs) {
            Ok(file) => {
                let flags = kept_flags(pflags);
                tree.pin(file);
                table.put_reserved(Open::File { file, flags }, want);
                Ok(name)
            }
            Err(refused) => Err(NotOpened::Refused(refused)),
        },
        Err(PutError::Taken) => Err(NotOpened::Taken),
        Err(PutError::NoMemory) => Err(NotOpened::Refused(Refused::NoMemory)),
    }
}

/// OPENDIR, as `open_in`.
///
/// # Errors
///
/// As `open_in`.
fn open_directory<T: HandleTable>(
    tree: &Tree,
    table: &mut T,
    path: &[u8],
    want: Vec<u8>,
) -> Result<Vec<u8>, NotOpened>
    requires short { length want.items ≤ handle_limit }
    requires good { Good (session_of tree.now (T.handles table.old)) }
    requires room { IsTrue (has_handle_left (session_of tree.now (T.handles table.old))) }
    ensures done { IfOk result (λ name. Does (session_of tree.now (T.handles table.old)) (asks.Opendir path.now)
        (replies.Handle name.items) (session_of tree.now (T.handles table.new))) }
    ensures good { Good (session_of tree.now (T.handles table.new)) }
    ensures named { IfOk result (λ name. name.items ≡ T.name_for table.old want.items) }
    ensures bytes { IfOk result (λ name. AreBytes name.items) }
    ensures wanted { IfOk result (λ name. IsTrue T.takes_want → name.items ≡ want.items) }
    ensures failed { IfErr result
        (IsNotOpened (session_of tree.now (T.handles table.old)) (asks.Opendir path.now) want.items) }
    ensures taken { IfErr result (λ e. e ≡ failures.Taken → IsTrue T.takes_want) }
    ensures closed { OnErr result (T.handles table.new ≡ T.handles table.old) }
    ensures next { OnErr result (T.name_for table.new ≡ T.name_for table.old) }
{
    match tree.list(path) {
        Ok(items) => match Listing::from_items(items) {
            Ok(left) => open_listing(table, left, want),
            Err(_) => Err(NotOpened::Refused(Refused::NoMemory)),
        },
        Err(refused) => Err(NotOpened::Refused(refused)),
    }
}

/// Opens a listing under the name that a table has for the next handle, and returns the name.
///
/// # Errors
///
/// `Taken` if the wanted name is open already, else that memory ran out. On error what is open is unchanged, and so is
/// the name for the next handle.
fn open_listing<T: HandleTable>(
    table: &mut T,
    left: Listing,
    want: Vec<u8>,
) -> Result<Vec<u8>, NotOpened>
    requires short { length want.items ≤ handle_limit }
    ensures named { IfOk result (λ name. name.items ≡ T.name_for table.old want.items) }
    ensures absent { IfOk result (λ name. handles.open_at (T.handles table.old) name.items ≡ None) }
    ensures opened { IfOk result (λ name. T.handles table.new
        ≡ handles.with_open (T.handles table.old) name.items (opens.Listing left)) }
    ensures short { IfOk result (λ name. length name.items ≤ handle_limit) }
    ensures bytes { IfOk result (λ name. AreBytes name.items) }
    ensures wanted { IfOk result (λ name. IsTrue T.takes_want → name.items ≡ want.items) }
    ensures failed { IfErr result (λ e. (tree : tree) (asked : ask) →
        IsNotOpened (session_of tree (T.handles table.old)) asked want.items e) }
    ensures taken { IfErr result (λ e. e ≡ failures.Taken → IsTrue T.takes_want) }
    ensures closed { OnErr result (T.handles table.new ≡ T.handles table.old) }
    ensures next { OnErr result (T.name_for table.new ≡ T.name_for table.old) }
{
    match table.put(Open::Listing { left }, want) {
        Ok(name) => Ok(name),
        Err(back) => match back.1 {
            PutError::Taken => Err(NotOpened::Taken),
            PutError::NoMemory => Err(NotOpened::Refused(Refused::NoMemory)),
        },
    }
}

/// Says that nothing was opened.
///
/// # Errors
///
/// `NoMemory` if that is since memory ran out.
fn not_opened(failed: NotOpened) -> Result<bool, NoMemory>
    ensures { result ≡ not_opened failed }
{
    match failed {
        NotOpened::Taken => Ok(false),
        NotOpened::Refused(Refused::Cause(_)) => Ok(false),
        NotOpened::Refused(Refused::NoMemory) => Err(NoMemory),
    }
}

/// What an open file keeps of the flags of its OPEN: READ, WRITE and APPEND.
fn kept_flags(pflags: u32) -> OpenFlags
    ensures { result ≡ handles.kept_flags pflags }
{
    let kept = OpenFlags::READ
        .union(OpenFlags::WRITE)
        .union(OpenFlags::APPEND);
    OpenFlags::from_bits_retain(pflags).intersection(kept)
}
