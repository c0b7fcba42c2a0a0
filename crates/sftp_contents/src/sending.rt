//! The bytes of a file, written to a sink part by part.
ghost use Rattle.std.specs.Prelude.{◌≡◌, replicate, OnOk, OnErr};
ghost use Rattle.std.specs.Io.KnownBytes.{Appends};
ghost use Rattle.sftp_streams.specs.Streams.{AppendsPart, Counts};
ghost use Rattle.sftp_contents.specs.Parts.{bytes_in};

use crate::contents::FileBytes;
use crate::parts::Part;
use crate::reading::count_of;
use sftp_streams::{Failed, Sink, put_all};

/// Zeros, which are written over and over where many are to be.
const ZEROS: [u8; 4096] = [0; 4096];

/// Writes all bytes of a file. Those that are kept are not copied.
///
/// # Errors
///
/// `Failed` if a write fails. A beginning of the bytes is written then.
pub(crate) fn send<L: Sink>(sink: &mut L, content: &FileBytes) -> Result<(), Failed>
    ensures ok { OnOk result (Appends (L.written sink.old) (L.written sink.new) content.now) }
    ensures err { OnErr result (AppendsPart (L.written sink.old) (L.written sink.new) content.now) }
    ensures counts { Counts result (L.failures sink.old) (L.failures sink.new) }
{
    let len = content.len();
    let mut done: u64 = 0;
    'parts: while done < len {
        let part = content.part_at(done, len - done);
        send_part(sink, &part)?;
        done += count_of(&part);
    }
    Ok(())
}

/// Writes a part.
///
/// # Errors
///
/// `Failed` if a write fails. A beginning of the part is written then.
fn send_part<L: Sink>(sink: &mut L, part: &Part<'_>) -> Result<(), Failed>
    ensures ok { OnOk result (Appends (L.written sink.old) (L.written sink.new) (bytes_in part.now)) }
    ensures err { OnErr result (AppendsPart (L.written sink.old) (L.written sink.new) (bytes_in part.now)) }
    ensures counts { Counts result (L.failures sink.old) (L.failures sink.new) }
{
    match part {
        Part::Bytes(bytes) => put_all(sink, bytes),
        Part::Zeros(count) => send_zeros(sink, *count),
    }
}

/// Writes so many zeros.
///
/// # Errors
///
/// `Failed` if a write fails. A beginning of the zeros is written then.
fn send_zeros<L: Sink>(sink: &mut L, count: u64) -> Result<(), Failed>
    ensures ok { OnOk result (Appends (L.written sink.old) (L.written sink.new) (replicate count 0)) }
    ensures err { OnErr result (AppendsPart (L.written sink.old) (L.written sink.new) (replicate count 0)) }
    ensures counts { Counts result (L.failures sink.old) (L.failures sink.new) }
{
    let mut done: u64 = 0;
    'zeros: while done < count {
        let here = (count - done).min(4096);
        put_all(sink, &ZEROS[..here as usize])?;
        done += here;
    }
    Ok(())
}
