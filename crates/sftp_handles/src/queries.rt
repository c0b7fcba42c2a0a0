//! Queries: the requests that change nothing (draft, sections 6.4, 6.8, 6.10 and 6.11).
ghost use Rattle.std.specs.Prelude.{◌≡◌, IfOk, IfErr, IfSome};
ghost use Rattle.sftp_packets.specs.declared.requests.Ask.TheVariants.{Fstat, Limits, Read, Readlink, Realpath};
ghost use Rattle.sftp_tree.specs.Told.{stat_ask};
ghost use Rattle.sftp_handles.specs.declared.requests.Purpose.TheVariants.{Query};
ghost use Rattle.sftp_handles.specs.Payloads as purposes;
ghost use Rattle.sftp_handles.specs.Slots.{IsRefusal};
ghost use Rattle.sftp_handles.specs.Payloads.{Carries, said_in};
ghost use Rattle.sftp_handles.specs.Payloads.{IsAnswered};

use crate::limits::limits_data;
use crate::payloads::Payload;
use crate::requests::{Purpose, purpose_of};
use crate::sessions::Session;
use crate::tables::HandleTable;
use sftp_packets::{Answer, Ask, ByteString};
use sftp_tree::Refused;

impl<T: HandleTable> Session<T> {
    /// The answer to a request that changes nothing: to STAT, LSTAT, FSTAT, READ, REALPATH, READLINK and that for the
    /// limits. It is `None` for any other request.
    ///
    /// # Errors
    ///
    /// `Cause` with a cause that refuses the request. `NoMemory` if memory runs out.
    pub fn unchanging_answer(&self, ask: &Ask) -> Option<Result<Answer, Refused>>
        ensures done { IfSome result (λ r. IfOk r (λ answer. IsAnswered self.now ask.now answer self.now)) }
        ensures refused { IfSome result (λ r. IfErr r (IsRefusal self.now ask.now)) }
    {
        match purpose_of(ask) {
            Purpose::Query => Some(self.answer_query(ask)),
            _ => None,
        }
    }

    /// The answer to a query.
    ///
    /// # Errors
    ///
    /// `Cause` with a cause that refuses the request. `NoMemory` if memory runs out.
    pub(crate) fn answer_query(&self, ask: &Ask) -> Result<Answer, Refused>
        requires { purposes.purpose_of ask.now ≡ Query }
        ensures done { IfOk result (λ answer. IsAnswered self.now ask.now answer self.now) }
        ensures refused { IfErr result (IsRefusal self.now ask.now) }
    {
        match self.payload(ask) {
            Ok(payload) => {
                let answer = payload.answer(self.tree.allocator())?;
                Ok(answer)
            }
            Err(refused) => Err(refused),
        }
    }

    /// What the reply to a query carries. The bytes of a file are lent.
    ///
    /// # Errors
    ///
    /// `Cause` with the first cause that holds. `NoMemory` if memory runs out.
    pub(crate) fn payload(&self, ask: &Ask) -> Result<Payload<'_>, Refused>
        requires { purposes.purpose_of ask.now ≡ Query }
        ensures carried { IfOk result (λ payload. Carries self.now ask.now (said_in payload)) }
        ensures refused { IfErr result (IsRefusal self.now ask.now) }
    {
        match ask {
            Ask::Stat { path } => self.stat_payload(path.as_slice(), true),
            Ask::Lstat { path } => self.stat_payload(path.as_slice(), false),
            Ask::Fstat { handle } => self.open_payload(handle.as_slice()),
            Ask::Read {
                handle,
                offset,
                len,
            } => self.read_payload(handle.as_slice(), *offset, *len),
            Ask::Realpath { path } => self.place_payload(path.as_slice()),
            Ask::Readlink { path } => self.link_payload(path.as_slice()),
            Ask::Limits => self.limits_payload(),
            _ => unreachable!(),
        }
    }

    /// STAT and LSTAT: the attributes of what a path leads to.
    ///
    /// # Errors
    ///
    /// `Cause` with the first cause that holds. `NoMemory` if memory runs out.
    fn stat_payload(&self, path: &[u8], follow: bool) -> Result<Payload<'_>, Refused>
        ensures carried { IfOk result (λ payload. Carries self.now (stat_ask follow path.now) (said_in payload)) }
        ensures refused { IfErr result (IsRefusal self.now (stat_ask follow path.now)) }
    {
        match self.tree.stat(path, follow) {
            Ok(shown) => Ok(Payload::Attrs(shown)),
            Err(refused) => Err(refused),
        }
    }

    /// FSTAT: the attributes of an open file. Does not allocate.
    ///
    /// # Errors
    ///
    /// The cause that holds.
    fn open_payload(&self, handle: &[u8]) -> Result<Payload<'_>, Refused>
        ensures carried { IfOk result (λ payload. Carries self.now (Fstat handle.now) (said_in payload)) }
        ensures refused { IfErr result (IsRefusal self.now (Fstat handle.now)) }
    {
        match self.stat_open(handle) {
            Ok(shown) => Ok(Payload::Attrs(shown)),
            Err(cause) => Err(Refused::Cause(cause)),
        }
    }

    /// READ: the bytes of an open file, or that its end was reached. Does not allocate.
    ///
    /// # Errors
    ///
    /// The cause that holds.
    fn read_payload(&self, handle: &[u8], offset: u64, len: u32) -> Result<Payload<'_>, Refused>
        ensures carried { IfOk result
            (λ payload. Carries self.now (Read handle.now offset len) (said_in payload)) }
        ensures refused { IfErr result (IsRefusal self.now (Read handle.now offset len)) }
    {
        match self.read_open(handle, offset, len) {
            Ok(Some(bytes)) => Ok(Payload::Data(bytes)),
            Ok(None) => Ok(Payload::End),
            Err(cause) => Err(Refused::Cause(cause)),
        }
    }

    /// REALPATH: the absolute text of the place that a path leads to.
    ///
    /// # Errors
    ///
    /// `Cause` with the first cause that holds. `NoMemory` if memory runs out.
    fn place_payload(&self, path: &[u8]) -> Result<Payload<'_>, Refused>
        ensures carried { IfOk result (λ payload. Carries self.now (Realpath path.now) (said_in payload)) }
        ensures refused { IfErr result (IsRefusal self.now (Realpath path.now)) }
    {
        match self.tree.real_path(path) {
            Ok(text) => Ok(Payload::Name(ByteString::new(text))),
            Err(refused) => Err(refused),
        }
    }

    /// READLINK: the target of a link.
    ///
    /// # Errors
    ///
    /// `Cause` with the first cause that holds. `NoMemory` if memory runs out.
    fn link_payload(&self, path: &[u8]) -> Result<Payload<'_>, Refused>
        ensures carried { IfOk result (λ payload. Carries self.now (Readlink path.now) (said_in payload)) }
        ensures refused { IfErr result (IsRefusal self.now (Readlink path.now)) }
    {
        match self.tree.read_link(path) {
            Ok(target) => Ok(Payload::Name(ByteString::new(target))),
            Err(refused) => Err(refused),
        }
    }

    /// The request for the limits: those of the tree.
    ///
    /// # Errors
    ///
    /// `NoMemory` if memory runs out.
    fn limits_payload(&self) -> Result<Payload<'_>, Refused>
        ensures carried { IfOk result (λ payload. Carries self.now Limits (said_in payload)) }
        ensures refused { IfErr result (IsRefusal self.now Limits) }
    {
        let told = limits_data(self.tree.allocator(), self.tree.tree_limits())?;
        Ok(Payload::Extended(told))
    }
}
