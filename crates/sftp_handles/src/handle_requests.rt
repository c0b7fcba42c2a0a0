//! What a request through a handle needs, or why it is refused.
ghost use Rattle.std.specs.Prelude.{◌≡◌, ◌&&◌, not, ℕ, Ok, Some, is_some, IfOk, OnOk, IsTrue, option_map};
ghost use Rattle.sftp_packets.specs.declared.requests.Ask.TheVariants.{Close, Read, Write, Fsetstat};
ghost use Rattle.sftp_tree.specs.Told.{in_set};
ghost use Rattle.sftp_tree.specs.Room.{size_fits};
ghost use Rattle.sftp_tree.specs.Tree.{HasFile, content_at};
ghost use Rattle.sftp_handles.specs.Slots.{found_file, refusing, granted, IsWritable};
ghost use Rattle.sftp_handles.specs.State.{open_at};
ghost use Rattle.sftp_handles.specs.Allowed.{causes};
ghost use Rattle.sftp_handles.specs.RequestRows as rows;
ghost use Rattle.sftp_handles.specs.State.{Good};

use crate::open_handles::{goes_to_end, may_read, may_write};
use crate::sessions::Session;
use crate::tables::HandleTable;
use sftp_packets::{Attrs, OpenFlags};
use sftp_tree::{Cause, Causes, FileNo};

impl<T: HandleTable> Session<T> {
    /// The causes of CLOSE.
    #[tactic(auto, unfolding(crate::specs::Allowed::causes, crate::specs::State::seen))]
    pub(crate) fn close_causes(&self, handle: &[u8]) -> Causes
        ensures { in_set result ≡ causes self.now (Close handle.now) }
    {
        match self.table.find(handle) {
            Some(_) => Causes::none(),
            None => Causes::none().when(Cause::BadHandle, true),
        }
    }

    /// The file that is open under a handle, and how it was opened, if it was opened to be read.
    ///
    /// # Errors
    ///
    /// The only cause of READ: `BadHandle` if the handle is not open, `WrongKind` if it is a directory's, `NotOpenFor`
    /// if the file was not opened to be read.
    pub(crate) fn readable_at(&self, handle: &[u8]) -> Result<(FileNo, OpenFlags), Cause>
        ensures causes { (offset len : ℕ) → causes self.now (Read handle.now offset len) ≡ refusing result }
        ensures found { IfOk result (λ f. found_file (open_at self.now.handles handle.now) ≡ Ok f) }
        ensures there { IfOk result (λ f. HasFile self.now.tree.files f.0) }
        ensures kept { OnOk result (Good self.now) }
    {
        match self.file_at(handle) {
            Ok(found) => grant(found, !may_read(found.1), true),
            Err(cause) => Err(cause),
        }
    }

    /// The file of a WRITE, and where in it the WRITE starts.
    ///
    /// # Errors
    ///
    /// The only cause of WRITE: `BadHandle` if the handle is not open, `WrongKind` if it is a directory's, `NotOpenFor`
    /// if the file was not opened to be written, or else `NoRoom`.
    pub(crate) fn writable_at(
        &self,
        handle: &[u8],
        offset: u64,
        bytes: &[u8],
    ) -> Result<(FileNo, u64), Cause>
        ensures causes { causes self.now (Write handle.now offset bytes.now) ≡ refusing result }
        ensures found { IfOk result (IsWritable self.now handle.now offset bytes.now) }
        ensures there { IfOk result (λ it. HasFile self.now.tree.files it.0) }
    {
        match self.file_at(handle) {
            Ok(found) => {
                let start = self.start_of(found.0, found.1, offset);
                let fits = self.tree.write_fits(found.0, start, bytes);
                grant((found.0, start), !may_write(found.1), fits)
            }
            Err(cause) => Err(cause),
        }
    }

    /// The file that is open under a handle, and how it was opened, if FSETSTAT may change it.
    ///
    /// # Errors
    ///
    /// The only cause of FSETSTAT: `BadHandle` if the handle is not open, `WrongKind` if it is a directory's,
    /// `NotOpenFor` if a size is given and the file was not opened to be written, or else `NoRoom`.
    pub(crate) fn resizable_at(
        &self,
        handle: &[u8],
        attrs: &Attrs,
    ) -> Result<(FileNo, OpenFlags), Cause>
        ensures causes { causes self.now (Fsetstat handle.now attrs.now) ≡ refusing result }
        ensures found { IfOk result (λ f. found_file (open_at self.now.handles handle.now) ≡ Ok f) }
        ensures there { IfOk result (λ f. HasFile self.now.tree.files f.0) }
        ensures fits { IfOk result (λ f. IsTrue (size_fits self.now.tree f.0 attrs.now.size)) }
    {
        match self.file_at(handle) {
            Ok(found) => grant(
                found,
                cannot_resize(found.1, attrs),
                self.tree.size_fits(found.0, attrs),
            ),
            Err(cause) => Err(cause),
        }
    }

    /// Where a WRITE starts: at its offset, or at the end.
    fn start_of(&self, file: FileNo, flags: OpenFlags, offset: u64) -> u64
        requires { HasFile self.now.tree.files file }
        ensures { option_map (rows.start_of flags offset) (content_at self.now.tree.files file) ≡ Some result }
    {
        let count = self.tree.byte_count(file);
        if goes_to_end(flags) { count } else { offset }
    }
}

/// Whether a size is given for a file that was not opened to be written.
fn cannot_resize(flags: OpenFlags, attrs: &Attrs) -> bool
    ensures { result ≡ (is_some attrs.now.size && not (rows.may_write flags)) }
{
    attrs.size.is_some() && !may_write(flags)
}

/// What was found, unless the file was not opened for the request, or has too little room.
///
/// # Errors
///
/// `NotOpenFor`, or else `NoRoom`.
fn grant<A: Copy>(found: A, misused: bool, fits: bool) -> Result<A, Cause>
    ensures { result ≡ granted found misused fits }
{
    if misused {
        return Err(Cause::NotOpenFor);
    }
    if !fits {
        return Err(Cause::NoRoom);
    }
    Ok(found)
}

/// The causes of a request: none, if what it needs was found, or else the only one.
pub(crate) fn only<A: Copy>(found: Result<A, Cause>) -> Causes
    ensures { in_set result ≡ refusing found }
{
    match found {
        Ok(_) => Causes::none(),
        Err(cause) => Causes::none().when(cause, true),
    }
}
