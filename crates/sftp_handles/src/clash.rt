//! Which requests conflict, and so are done in the order asked (draft, section 6.1).
ghost use Rattle.std.specs.Prelude.{◌≡◌, false, Some};
ghost use Rattle.sftp_packets.specs.Requests.{asked_handle};
ghost use Rattle.sftp_treefile.specs.TreeFile.{are_far};
ghost use Rattle.sftp_tree.specs.Tree.{limits};
ghost use Rattle.sftp_path.specs.Place.{same_bytes};
ghost use Rattle.sftp_handles.specs.State.{open_at};
ghost use Rattle.sftp_handles.specs.State.{a_file, a_listing};
ghost use Rattle.sftp_handles.specs.Clash as clashes;
ghost use Rattle.sftp_handles.specs.Clash.{share, share_room, touched, touched_through};
ghost use Rattle.sftp_handles.specs.Spans.{file_in};
ghost use Rattle.sftp_handles.specs.Clash.{handle_in, touched_as};
ghost use Rattle.sftp_handles.specs.Slots as uses;

use crate::opens::Open;
use crate::requests::{Use, through};
use crate::sessions::Session;
use crate::tables::HandleTable;
use crate::touch::Touch;
use sftp_packets::{Ask, Request};
use sftp_tree::FileNo;

impl Touch {
    /// Whether two requests, each with what it touches in the same state, share that: whether one of them touches
    /// everything, or both touch one file or one listing and not both only read it. Does not allocate.
    pub fn shares(self, ask: &Ask, other: Touch, other_ask: &Ask) -> bool
        ensures { result ≡ share (touched_as self ask.now) (touched_as other other_ask.now) }
    {
        match (&self, &other) {
            (Touch::Everything, _) => true,
            (_, Touch::Everything) => true,
            (Touch::ReadsFile(file), Touch::WritesFile(number)) => *file == *number,
            (Touch::WritesFile(file), Touch::ReadsFile(number)) => *file == *number,
            (Touch::WritesFile(file), Touch::WritesFile(number)) => *file == *number,
            (Touch::TakesNames, Touch::TakesNames) => have_one_handle(ask, other_ask),
            _ => false,
        }
    }

    /// Whether both may change a file, and not the same one: then each may take room that the other needs. Does not
    /// allocate.
    pub fn shares_room(&self, other: &Touch) -> bool
        ensures { (ask other_ask : Ask) → result
            ≡ share_room (touched_as self.now ask) (touched_as other.now other_ask) }
    {
        match (self, other) {
            (Touch::WritesFile(file), Touch::WritesFile(number)) => *file != *number,
            _ => false,
        }
    }

    /// The file that is touched, if nothing else is. Does not allocate.
    pub fn file(&self) -> Option<FileNo>
        ensures { (ask : Ask) → result ≡ file_in (touched_as self.now ask) }
    {
        match self {
            Touch::ReadsFile(file) => Some(*file),
            Touch::WritesFile(file) => Some(*file),
            Touch::Nothing => None,
            Touch::TakesNames => None,
            Touch::Everything => None,
        }
    }
}

impl<T: HandleTable> Session<T> {
    /// Whether two requests conflict by what they touch: whether one of them touches everything, or both touch one file
    /// or one listing and not both only read it, or they share room. Files are compared by their numbers, whatever the
    /// handles. Ranges are compared by `clash`. Does not allocate.
    #[tactic(auto, unfolding(crate::specs::Clash::clash))]
    pub fn touch_clash(&self, earlier: &Request, later: &Request) -> bool
        ensures { result ≡ clashes.clash self.now earlier.now later.now }
    {
        self.room_clash(&earlier.ask, &later.ask) || self.share(&earlier.ask, &later.ask)
    }

    /// Whether two requests share room: whether the tree bounds the bytes of all files together, and both may change a
    /// file, and not the same one. Does not allocate.
    pub(crate) fn room_clash(&self, earlier: &Ask, later: &Ask) -> bool
        ensures { result ≡ clashes.room_clash (limits self.now.tree) (touched self.now earlier.now)
            (touched self.now later.now) }
    {
        self.bounds_room() && self.touch(earlier).shares_room(&self.touch(later))
    }

    /// Whether two requests share what they touch, and not both only read it. Does not allocate.
    pub(crate) fn share(&self, earlier: &Ask, later: &Ask) -> bool
        ensures { result ≡ share (touched self.now earlier.now) (touched self.now later.now) }
    {
        self.touch(earlier)
            .shares(earlier, self.touch(later), later)
    }

    /// Whether the tree bounds the bytes of all files together: whether its limits are beyond those of the first two
    /// openings of tree files. Does not allocate.
    pub fn bounds_room(&self) -> bool
        ensures { result ≡ are_far (limits self.now.tree) }
    {
        self.tree.tree_limits().are_far()
    }

    /// What a request touches: READ, FSTAT and fsync read the file of their handle, WRITE and FSETSTAT may change it,
    /// READDIR takes names of its listing; through a handle that is not open, or is of the wrong kind, each of these
    /// touches nothing. Every other request touches everything. Does not allocate.
    #[tactic(auto, unfolding(crate::specs::Clash::touched))]
    pub fn touch(&self, ask: &Ask) -> Touch
        ensures { touched_as result ask.now ≡ touched self.now ask.now }
    {
        match through(ask) {
            Some((handle, access)) => self.touch_by(ask, handle, access),
            None => Touch::Everything,
        }
    }

    /// What a request through a handle touches, by how it uses what is open there.
    fn touch_by(&self, ask: &Ask, handle: &[u8], access: Use) -> Touch
        requires { asked_handle ask.now ≡ Some handle.now }
        ensures { touched_as result ask.now ≡ touched_through (uses.needed_for access) (uses.writes access) handle.now
            (open_at self.now.handles handle.now) }
    {
        match access {
            Use::Close => Touch::Everything,
            Use::ReadFile => self.file_touch(ask, handle, false),
            Use::WriteFile => self.file_touch(ask, handle, true),
            Use::TakeNames => self.listing_touch(ask, handle),
        }
    }

    /// What a request on the file under a handle touches, by whether it may change it.
    fn file_touch(&self, ask: &Ask, handle: &[u8], changes: bool) -> Touch
        ensures { touched_as result ask.now
            ≡ touched_through a_file changes handle.now (open_at self.now.handles handle.now) }
    {
        match self.table.find(handle) {
            Some(Open::File { file, .. }) => {
                if changes {
                    Touch::WritesFile(*file)
                } else {
                    Touch::ReadsFile(*file)
                }
            }
            Some(Open::Listing { .. }) => Touch::Nothing,
            None => Touch::Nothing,
        }
    }

    /// What a request on the listing under a handle touches.
    fn listing_touch(&self, ask: &Ask, handle: &[u8]) -> Touch
        requires { asked_handle ask.now ≡ Some handle.now }
        ensures { touched_as result ask.now
            ≡ touched_through a_listing false handle.now (open_at self.now.handles handle.now) }
    {
        match self.table.find(handle) {
            Some(Open::Listing { .. }) => Touch::TakesNames,
            Some(Open::File { .. }) => Touch::Nothing,
            None => Touch::Nothing,
        }
    }
}

/// Whether a request touches everything in every state: all do but READ, WRITE, FSTAT, FSETSTAT, fsync and READDIR.
/// Does not allocate.
pub fn is_barrier(ask: &Ask) -> bool
    ensures { result ≡ clashes.is_barrier ask.now }
{
    match through(ask) {
        Some((_, access)) => access.bars(),
        None => true,
    }
}

/// Whether two requests name one handle; no handle counts as the empty one.
fn have_one_handle(ask: &Ask, other: &Ask) -> bool
    ensures { result ≡ same_bytes (handle_in (asked_handle ask.now)) (handle_in (asked_handle other.now)) }
{
    handle_in(ask) == handle_in(other)
}

/// The handle that a request names, or the empty one.
fn handle_in(ask: &Ask) -> &[u8]
    ensures { result.now ≡ handle_in (asked_handle ask.now) }
{
    match through(ask) {
        Some((handle, _)) => handle,
        None => &[],
    }
}
