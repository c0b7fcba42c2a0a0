//! Frames that are written.
ghost use Rattle.std.specs.Prelude.{◌≤◌, [], length, OnOk, OnErr};
ghost use Rattle.std.specs.Io.KnownBytes.{Appends};
ghost use Rattle.sftp_streams.specs.Streams.{Counts, AppendsPart};
ghost use Rattle.sftp_frames.specs.Frames.{frame_text, frame_limit};
ghost use Rattle.sftp_frames.specs.Writing.{AppendsStream, AppendsStreamPart};

use crate::fronts::FRAME_LIMIT;
use sftp_streams::{Failed, Sink, put_all};

/// Writes a frame of this client's stream.
///
/// # Errors
///
/// `Failed` if a write fails. A beginning of the frame is written then.
pub fn put_frame<W: Sink>(sink: &mut W, client: u32, bytes: &[u8]) -> Result<(), Failed>
    requires { length bytes.now ≤ frame_limit }
    ensures ok { OnOk result (Appends (W.written sink.old) (W.written sink.new) (frame_text (client, bytes.now))) }
    ensures err { OnErr result (AppendsPart (W.written sink.old) (W.written sink.new)
        (frame_text (client, bytes.now))) }
    ensures counts { Counts result (W.failures sink.old) (W.failures sink.new) }
{
    put_all(sink, &client.to_be_bytes())?;
    put_all(sink, &(bytes.len() as u32).to_be_bytes())?;
    put_all(sink, bytes)?;
    Ok(())
}

/// Writes bytes of this client's stream, in as many frames as they need; none if there are none.
///
/// # Errors
///
/// `Failed` if a write fails. The frames of a beginning of the bytes are written then, and a beginning of the next one.
pub fn put_stream<W: Sink>(sink: &mut W, client: u32, bytes: &[u8]) -> Result<(), Failed>
    ensures ok { OnOk result (AppendsStream client bytes.now (W.written sink.old) (W.written sink.new)) }
    ensures err { OnErr result (AppendsStreamPart client bytes.now (W.written sink.old) (W.written sink.new)) }
    ensures counts { Counts result (W.failures sink.old) (W.failures sink.new) }
{
    let mut rest = bytes;
    'rest: while !rest.is_empty() {
        let (part, after) = rest.split_at(rest.len().min(FRAME_LIMIT));
        put_frame(sink, client, part)?;
        rest = after;
    }
    Ok(())
}

/// Writes the end of this client's stream.
///
/// # Errors
///
/// `Failed` if a write fails. A beginning of the frame is written then.
pub fn end_stream<W: Sink>(sink: &mut W, client: u32) -> Result<(), Failed>
    ensures ok { OnOk result (Appends (W.written sink.old) (W.written sink.new) (frame_text (client, []))) }
    ensures err { OnErr result (AppendsPart (W.written sink.old) (W.written sink.new) (frame_text (client, []))) }
    ensures counts { Counts result (W.failures sink.old) (W.failures sink.new) }
{
    put_frame(sink, client, &[])
}
