//! What requests find under their handles.
ghost use Rattle.std.specs.Prelude.{◌≡◌, Some, None, IfOk, OnOk, OnErr, option_copied};
ghost use Rattle.sftp_packets.specs.declared.requests.Ask.TheVariants.{Fstat, Fsync, Readdir};
ghost use Rattle.sftp_tree.specs.Tree.{HasFile};
ghost use Rattle.sftp_tree.specs.Attributes as flags_of;
ghost use Rattle.sftp_handles.specs.declared.opens.Open.TheVariants as opens;
ghost use Rattle.sftp_handles.specs.State.{Good};
ghost use Rattle.sftp_handles.specs.State.{open_at};
ghost use Rattle.sftp_handles.specs.Slots.{listing_in};
ghost use Rattle.sftp_handles.specs.Slots.{found_file, refusing};
ghost use Rattle.sftp_handles.specs.Allowed.{causes};

use crate::opens::Open;
use crate::sessions::Session;
use crate::tables::HandleTable;
use bitflags::Flags;
use sftp_listing::Listing;
use sftp_packets::OpenFlags;
use sftp_tree::{Cause, FileNo};

impl<T: HandleTable> Session<T> {
    /// The file that is open under a handle, and how it was opened.
    ///
    /// # Errors
    ///
    /// The only cause of FSTAT and of fsync: `BadHandle` if the handle is not open, `WrongKind` if it is a directory's.
    pub(crate) fn file_at(&self, handle: &[u8]) -> Result<(FileNo, OpenFlags), Cause>
        ensures shown { causes self.now (Fstat handle.now) ≡ refusing result }
        ensures flushed { causes self.now (Fsync handle.now) ≡ refusing result }
        ensures found { result ≡ found_file (open_at self.now.handles handle.now) }
        ensures there { IfOk result (λ f. HasFile self.now.tree.files f.0) }
        ensures kept { OnOk result (Good self.now) }
    {
        file_in(self.table.find(handle))
    }

    /// The listing that is open under a handle.
    ///
    /// # Errors
    ///
    /// The only cause of READDIR: `BadHandle` if the handle is not open, `WrongKind` if it is a file's.
    #[tactic(auto, unfolding(crate::specs::Allowed::causes, crate::specs::State::seen))]
    pub(crate) fn listing_at(&self, handle: &[u8]) -> Result<&Listing, Cause>
        ensures causes { causes self.now (Readdir handle.now) ≡ refusing result }
        ensures found { IfOk result (λ left. open_at self.now.handles handle.now ≡ Some (opens.Listing left.now)) }
        ensures none { OnErr result (listing_in (open_at self.now.handles handle.now) ≡ None) }
        ensures kept { Good self.now }
    {
        match self.table.find(handle) {
            Some(Open::Listing { left }) => Ok(left),
            Some(Open::File { .. }) => Err(Cause::WrongKind),
            None => Err(Cause::BadHandle),
        }
    }
}

/// The file that is open, and how it was opened.
///
/// # Errors
///
/// `BadHandle` if nothing is open, `WrongKind` if it is a listing.
fn file_in(it: Option<&Open>) -> Result<(FileNo, OpenFlags), Cause>
    ensures { result ≡ found_file (option_copied it.entry) }
{
    match it {
        Some(Open::File { file, flags }) => Ok((*file, *flags)),
        Some(Open::Listing { .. }) => Err(Cause::WrongKind),
        None => Err(Cause::BadHandle),
    }
}

/// Whether a file was opened to be read.
pub(crate) fn may_read(flags: OpenFlags) -> bool
    ensures { result ≡ flags_of.reads flags.0 }
{
    flags.contains(OpenFlags::READ)
}

/// Whether a file was opened to be written.
pub(crate) fn may_write(flags: OpenFlags) -> bool
    ensures { result ≡ flags_of.writes flags.0 }
{
    flags.contains(OpenFlags::WRITE)
}

/// Whether each WRITE goes to the end of the file.
pub(crate) fn goes_to_end(flags: OpenFlags) -> bool
    ensures { result ≡ flags_of.appends flags.0 }
{
    flags.contains(OpenFlags::APPEND)
}
