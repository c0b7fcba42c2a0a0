//! Replies are read field by field, from left to right and up to the first fault (draft, sections 7 and 8).
ghost use Rattle.std.specs.Prelude.{◌≡◌};
ghost use Rattle.sftp_packets.specs.declared.replies.Answer.{Answer};
ghost use Rattle.sftp_packets.specs.Reading.{Reads, one, three, uint32_at, string_at, handle_at, rest_at};
ghost use Rattle.sftp_packets.specs.Reading.{attributes_at, names_at};
ghost use Rattle.sftp_packets.specs.Requests.{reply_at, reply_packet_at};

use crate::fields::{attributes, handle, names, number, rest, string};
use sftp_packets::replies::{ATTRS, DATA, EXTENDED_REPLY, HANDLE, NAME, STATUS};
use sftp_packets::{Answer, Fault, Packet, ReadError, Reply};
use std::alloc::Global;

fn reply(id: u32, answer: Answer) -> Packet
    ensures { result ≡ Packet.Reply (record { id = id; answer = answer }) }
{
    Packet::Reply(Reply { id, answer })
}

fn status(alloc: Global, body: &mut &[u8]) -> Result<Packet, ReadError>
    ensures { Reads result body.new.now (reply_at (three uint32_at string_at string_at Answer.Status) body.old.now) }
{
    let id = number(body)?;
    let code = number(body)?;
    let message = string(alloc, body)?;
    let language = string(alloc, body)?;
    Ok(reply(
        id,
        Answer::Status {
            code,
            message,
            language,
        },
    ))
}

fn handle_reply(alloc: Global, body: &mut &[u8]) -> Result<Packet, ReadError>
    ensures { Reads result body.new.now (reply_at (one handle_at Answer.Handle) body.old.now) }
{
    let id = number(body)?;
    let handle = handle(alloc, body)?;
    Ok(reply(id, Answer::Handle(handle)))
}

fn data_reply(alloc: Global, body: &mut &[u8]) -> Result<Packet, ReadError>
    ensures { Reads result body.new.now (reply_at (one string_at Answer.Data) body.old.now) }
{
    let id = number(body)?;
    let bytes = string(alloc, body)?;
    Ok(reply(id, Answer::Data(bytes)))
}

fn name_reply(alloc: Global, body: &mut &[u8]) -> Result<Packet, ReadError>
    ensures { Reads result body.new.now (reply_at (one names_at Answer.Name) body.old.now) }
{
    let id = number(body)?;
    let items = names(alloc, body)?;
    Ok(reply(id, Answer::Name(items)))
}

fn attrs_reply(alloc: Global, body: &mut &[u8]) -> Result<Packet, ReadError>
    ensures { Reads result body.new.now (reply_at (one attributes_at Answer.Attrs) body.old.now) }
{
    let id = number(body)?;
    let attrs = attributes(alloc, body)?;
    Ok(reply(id, Answer::Attrs(attrs)))
}

fn extended_reply(alloc: Global, body: &mut &[u8]) -> Result<Packet, ReadError>
    ensures { Reads result body.new.now (reply_at (one rest_at Answer.Extended) body.old.now) }
{
    let id = number(body)?;
    let bytes = rest(alloc, body)?;
    Ok(reply(id, Answer::Extended(bytes)))
}

/// The fields after the type of a reply. Inlined into `server_packet`, which is then one `match` over all types.
#[inline(always)]
pub(crate) fn reply_packet(alloc: Global, kind: u8, body: &mut &[u8]) -> Result<Packet, ReadError>
    ensures { Reads result body.new.now (reply_packet_at kind body.old.now) }
{
    match kind {
        STATUS => status(alloc, body),
        HANDLE => handle_reply(alloc, body),
        DATA => data_reply(alloc, body),
        NAME => name_reply(alloc, body),
        ATTRS => attrs_reply(alloc, body),
        EXTENDED_REPLY => extended_reply(alloc, body),
        _ => Err(ReadError::Fault(Fault::WrongType)),
    }
}
