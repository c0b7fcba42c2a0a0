//! What the code knows of each request: its purpose, how it uses what is open under its handle, which causes refuse it,
//! and how it is done if its reply says OK.
ghost use Rattle.std.specs.Prelude.{◌≡◌, Some, None, IfNone, IfSome, IfOk, IfErr, OnOk, OnErr};
ghost use Rattle.sftp_packets.specs.Requests.{asked_handle};
ghost use Rattle.sftp_tree.specs.declared.causes.Cause.{Cause as cause};
ghost use Rattle.sftp_tree.specs.Told.{in_set};
ghost use Rattle.sftp_handles.specs.declared.requests.Purpose.TheVariants.{Change};
ghost use Rattle.sftp_handles.specs.Allowed as requests;
ghost use Rattle.sftp_handles.specs.Slots.{IsDone, IsRefusal};
ghost use Rattle.sftp_handles.specs.Clash.{bars, may_change};
ghost use Rattle.sftp_handles.specs.RequestRows.{row_of};
ghost use Rattle.sftp_handles.specs.Payloads as purposes;
ghost use Rattle.sftp_handles.specs.Slots as uses;

use crate::handle_requests::only;
use crate::sessions::Session;
use crate::tables::HandleTable;
use sftp_packets::Ask;
use sftp_tree::{Cause, Causes, NoMemory, Refused};

/// What a request is for, by what its reply says where no cause refuses it.
#[derive(Clone, Copy)]
pub(crate) enum Purpose {
    /// A change, done or not: the reply says OK.
    Change,
    /// Something is opened: the reply gives a new handle.
    Open,
    /// Names of a listing are taken: the reply gives them, or says that there are no more.
    List,
    /// Nothing changes: the reply gives attributes, a text, bytes or limits, or says that the end was reached.
    Query,
    /// A cause refuses the request always.
    Unknown,
}

/// How a request uses what is open under its handle.
#[derive(Clone, Copy)]
pub(crate) enum Use {
    /// It closes it, be it a file or a listing.
    Close,
    /// It reads the file, or changes nothing of it.
    ReadFile,
    /// It may change the file.
    WriteFile,
    /// It takes names of the listing.
    TakeNames,
}

impl Use {
    /// Whether the request touches everything.
    pub(crate) fn bars(self) -> bool
        ensures { result ≡ bars (uses.needed_for self) }
    {
        match self {
            Use::Close => true,
            Use::ReadFile => false,
            Use::WriteFile => false,
            Use::TakeNames => false,
        }
    }
}

/// What a request is for.
pub(crate) fn purpose_of(ask: &Ask) -> Purpose
    ensures { result ≡ purposes.purpose_of ask.now }
{
    match ask {
        Ask::Open { .. } | Ask::Opendir { .. } => Purpose::Open,
        Ask::Readdir { .. } => Purpose::List,
        Ask::Read { .. }
        | Ask::Stat { .. }
        | Ask::Lstat { .. }
        | Ask::Fstat { .. }
        | Ask::Realpath { .. }
        | Ask::Readlink { .. }
        | Ask::Limits => Purpose::Query,
        Ask::Close { .. }
        | Ask::Write { .. }
        | Ask::Setstat { .. }
        | Ask::Fsetstat { .. }
        | Ask::Remove { .. }
        | Ask::Mkdir { .. }
        | Ask::Rmdir { .. }
        | Ask::Rename { .. }
        | Ask::Symlink { .. }
        | Ask::PosixRename { .. }
        | Ask::Hardlink { .. }
        | Ask::Fsync { .. } => Purpose::Change,
        Ask::Unknown { .. } => Purpose::Unknown,
    }
}

/// The handle that a request names, and how it uses what is open there; `None` if it names none.
pub(crate) fn through(ask: &Ask) -> Option<(&[u8], Use)>
    ensures none { IfNone result (asked_handle ask.now ≡ None) }
    ensures asked { IfSome result (λ it. asked_handle ask.now ≡ Some it.0.now) }
    ensures needed { IfSome result (λ it. (row_of ask.now).needed ≡ uses.needed_for it.1) }
    ensures writes { IfSome result (λ it. may_change ask.now ≡ uses.writes it.1) }
{
    match ask {
        Ask::Close { handle } => Some((handle.as_slice(), Use::Close)),
        Ask::Read { handle, .. } => Some((handle.as_slice(), Use::ReadFile)),
        Ask::Write { handle, .. } => Some((handle.as_slice(), Use::WriteFile)),
        Ask::Fstat { handle } => Some((handle.as_slice(), Use::ReadFile)),
        Ask::Fsetstat { handle, .. } => Some((handle.as_slice(), Use::WriteFile)),
        Ask::Readdir { handle } => Some((handle.as_slice(), Use::TakeNames)),
        Ask::Fsync { handle } => Some((handle.as_slice(), Use::ReadFile)),
        Ask::Open { .. }
        | Ask::Lstat { .. }
        | Ask::Setstat { .. }
        | Ask::Opendir { .. }
        | Ask::Remove { .. }
        | Ask::Mkdir { .. }
        | Ask::Rmdir { .. }
        | Ask::Realpath { .. }
        | Ask::Stat { .. }
        | Ask::Rename { .. }
        | Ask::Readlink { .. }
        | Ask::Symlink { .. }
        | Ask::PosixRename { .. }
        | Ask::Hardlink { .. }
        | Ask::Limits
        | Ask::Unknown { .. } => None,
    }
}

impl<T: HandleTable> Session<T> {
    /// Every cause that holds of a request.
    ///
    /// # Errors
    ///
    /// `NoMemory` if memory runs out.
    #[tactic(auto, unfolding(crate::specs::Allowed::causes))]
    pub fn causes(&self, ask: &Ask) -> Result<Causes, NoMemory>
        ensures { IfOk result (λ set. (c : cause) → in_set set c ≡ requests.causes self.now ask.now c) }
    {
        // Requests of one arm would not tell the prover which of them it is.
        match ask {
            Ask::Close { handle } => Ok(self.close_causes(handle.as_slice())),
            Ask::Read { handle, .. } => Ok(only(self.readable_at(handle.as_slice()))),
            Ask::Write {
                handle,
                offset,
                bytes,
            } => { Ok(only(self.writable_at(handle.as_slice(), *offset, bytes.as_slice()))) }
            Ask::Fstat { handle } => Ok(only(self.file_at(handle.as_slice()))),
            Ask::Fsetstat { handle, attrs } => Ok(only(self.resizable_at(
                handle.as_slice(),
                attrs,
            ))),
            Ask::Readdir { handle } => Ok(only(self.listing_at(handle.as_slice()))),
            Ask::Fsync { handle } => Ok(only(self.file_at(handle.as_slice()))),
            Ask::Limits => Ok(Causes::none()),
            Ask::Unknown { .. } => Ok(Causes::none().when(Cause::Unknown, true)),
            Ask::Open { .. } => self.opening_causes(ask),
            Ask::Opendir { .. } => self.opening_causes(ask),
            _ => self.tree.causes(ask),
        }
    }

    /// Does a request whose reply says OK.
    ///
    /// # Errors
    ///
    /// `Cause` with the first cause that holds. `NoMemory` if memory runs out. On error the session is unchanged.
    pub(crate) fn do_ok(&mut self, ask: &Ask) -> Result<(), Refused>
        requires { purposes.purpose_of ask.now ≡ Change }
        ensures done { OnOk result (IsDone self.old ask.now self.new) }
        ensures refused { IfErr result (IsRefusal self.old ask.now) }
        ensures kept { OnErr result (self.new ≡ self.old) }
    {
        match ask {
            Ask::Close { handle } => self.close(handle.as_slice()),
            Ask::Write {
                handle,
                offset,
                bytes,
            } => self.write_open(handle.as_slice(), *offset, bytes.as_slice()),
            Ask::Fsetstat { handle, attrs } => self.set_open(handle.as_slice(), attrs),
            Ask::Fsync { handle } => self.sync_open(handle.as_slice()),
            _ => self.change_tree(ask),
        }
    }
}
