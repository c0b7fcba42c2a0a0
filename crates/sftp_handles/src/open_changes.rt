//! What requests change in open files, and CLOSE (draft, sections 6.3, 6.4 and 6.9; OpenSSH's PROTOCOL, section 4.6).
ghost use Rattle.std.specs.Prelude.{◌≡◌, ℕ, IsTrue, IfErr, OnOk, OnErr};
ghost use Rattle.sftp_packets.specs.declared.requests.Ask.TheVariants.{Close, Write, Fsetstat, Fsync};
ghost use Rattle.sftp_packets.specs.declared.open_flags.OpenFlags.{OpenFlags};
ghost use Rattle.sftp_tree.specs.Tree.{is_pinned};
ghost use Rattle.sftp_tree.specs.Changes.{after_unpin};
ghost use Rattle.sftp_handles.specs.declared.opens.Open.TheVariants.{File, Listing};
ghost use Rattle.sftp_handles.specs.State.{Left};
ghost use Rattle.sftp_handles.specs.Slots.{IsDone, IsRefusal};

use crate::opens::Open;
use crate::sessions::Session;
use crate::tables::HandleTable;
use sftp_packets::Attrs;
use sftp_tree::{Cause, Refused, Tree};

impl<T: HandleTable> Session<T> {
    /// CLOSE: closes a handle. A file that has no name is removed with its last handle. Does not allocate.
    ///
    /// # Errors
    ///
    /// `BadHandle` if the handle is not open; the session is unchanged.
    pub(crate) fn close(&mut self, handle: &[u8]) -> Result<(), Refused>
        ensures done { OnOk result (IsDone self.old (Close handle.now) self.new) }
        ensures refused { IfErr result (IsRefusal self.old (Close handle.now)) }
        ensures kept { OnErr result (self.new ≡ self.old) }
    {
        match self.table.take(handle) {
            Some(it) => {
                unpin_closed(&mut self.tree, &it);
                drop(it);
                Ok(())
            }
            None => Err(Refused::Cause(Cause::BadHandle)),
        }
    }

    /// WRITE: writes bytes to an open file, from an offset on, or at its end if it was opened to be appended to.
    ///
    /// # Errors
    ///
    /// `BadHandle` if the handle is not open, `WrongKind` if it is a directory's, `NotOpenFor` if the file was not
    /// opened to be written, or `NoRoom`. `NoMemory` if memory runs out. On error the session is unchanged.
    pub(crate) fn write_open(
        &mut self,
        handle: &[u8],
        offset: u64,
        bytes: &[u8],
    ) -> Result<(), Refused>
        ensures done { OnOk result (IsDone self.old (Write handle.now offset bytes.now) self.new) }
        ensures refused { IfErr result (IsRefusal self.old (Write handle.now offset bytes.now)) }
        ensures kept { OnErr result (self.new ≡ self.old) }
    {
        match self.writable_at(handle, offset, bytes) {
            Ok(found) => self.tree.write_at(found.0, found.1, bytes),
            Err(cause) => Err(Refused::Cause(cause)),
        }
    }

    /// FSETSTAT: sets the size, the owner and the permissions of an open file, each if it is given.
    ///
    /// # Errors
    ///
    /// `BadHandle` if the handle is not open, `WrongKind` if it is a directory's, `NotOpenFor` if a size is given and
    /// the file was not opened to be written, or `NoRoom`. `NoMemory` if memory runs out. On error the session
    /// is unchanged.
    pub(crate) fn set_open(&mut self, handle: &[u8], attrs: &Attrs) -> Result<(), Refused>
        ensures done { OnOk result (IsDone self.old (Fsetstat handle.now attrs.now) self.new) }
        ensures refused { IfErr result (IsRefusal self.old (Fsetstat handle.now attrs.now)) }
        ensures kept { OnErr result (self.new ≡ self.old) }
    {
        match self.resizable_at(handle, attrs) {
            Ok(found) => self.tree.set_file(found.0, attrs),
            Err(cause) => Err(Refused::Cause(cause)),
        }
    }

    /// fsync: changes nothing, since the tree is in memory. Does not allocate.
    ///
    /// # Errors
    ///
    /// `BadHandle` if the handle is not open, `WrongKind` if it is a directory's.
    pub(crate) fn sync_open(&self, handle: &[u8]) -> Result<(), Refused>
        ensures done { OnOk result (IsDone self.now (Fsync handle.now) self.now) }
        ensures refused { IfErr result (IsRefusal self.now (Fsync handle.now)) }
    {
        match self.file_at(handle) {
            Ok(_) => Ok(()),
            Err(cause) => Err(Refused::Cause(cause)),
        }
    }
}

/// Takes away the pin of a file that was open. A listing has none.
fn unpin_closed(tree: &mut Tree, it: &Open)
    requires { (number : ℕ) (flags : OpenFlags) → it.now ≡ File number flags → IsTrue (is_pinned tree.old.pins number) }
    ensures file { (number : ℕ) (flags : OpenFlags) → it.now ≡ File number flags →
        tree.new ≡ after_unpin tree.old number }
    ensures listing { (left : Left) → it.now ≡ Listing left → tree.new ≡ tree.old }
{
    match it {
        Open::File { file, .. } => tree.unpin(*file),
        Open::Listing { .. } => {}
    }
}
