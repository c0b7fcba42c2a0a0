//! Bytes that are written whole.
ghost use Rattle.std.specs.Prelude.{OnOk, OnErr};
ghost use Rattle.std.specs.Io.KnownBytes.{Appends};
ghost use Rattle.sftp_streams.specs.Streams.{Counts, AppendsPart};

use crate::streams::{Failed, Sink};

/// Writes all of the bytes.
///
/// # Errors
///
/// `Failed` if a write fails. A beginning of the bytes is written then.
pub fn put_all<L: Sink>(sink: &mut L, bytes: &[u8]) -> Result<(), Failed>
    ensures ok { OnOk result (Appends (L.written sink.old) (L.written sink.new) bytes.now) }
    ensures err { OnErr result (AppendsPart (L.written sink.old) (L.written sink.new) bytes.now) }
    ensures counts { Counts result (L.failures sink.old) (L.failures sink.new) }
{
    let mut rest = bytes;
    'rest: while !rest.is_empty() {
        let count = sink.write(rest)?;
        rest = &rest[count..];
    }
    Ok(())
}
