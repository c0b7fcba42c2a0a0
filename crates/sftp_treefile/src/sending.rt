//! Tree files, written to a sink piece by piece, and whole. A piece is made in a scratch first, whose bytes are
//! replaced; the bytes of a file go to the sink from where they are. What the caller makes sure of is in `writing`.
ghost use Rattle.std.specs.Prelude.{◌≡◌, ◌++◌, ◌<◌, ◌^◌, length, IfOk, OnOk, OnErr};
ghost use Rattle.std.specs.Io.KnownBytes.{Appends};
ghost use Rattle.sftp_streams.specs.Streams.{AppendsPart};
ghost use Rattle.sftp_treefile.specs.declared.files.Kind.TheVariants.{Dir, First, Further, Link};
ghost use Rattle.sftp_treefile.specs.declared.limits.Opening.TheVariants.{Raised};
ghost use Rattle.sftp_treefile.specs.TreeFile.{IsTreeFile, MayHaveTimes, row_text, entry_text, spelled};
ghost use Rattle.sftp_treefile.specs.TreeFileParts.{head_text, head_bytes, HasLengths};
ghost use Rattle.sftp_treefile.specs.Streamed.{CountsSink};

use crate::errors::WriteError;
use crate::files::{Kind, Owner, Row, TreeFile};
use crate::heads::Head;
use crate::measuring::file_size;
use crate::times::{NO_TIMES, Times};
use crate::writing::{
    put_file_start, put_front, put_further_name, put_head, put_limits, put_link, put_root,
    put_timed_directory,
};
use sftp_path::NoMemory;
use sftp_streams::{Sink, Tally, put_all};
use std::alloc::Global;

/// Writes a head.
///
/// # Errors
///
/// `NoMemory` if memory runs out, and `Failed` if the sink fails. A beginning of the piece is written then.
pub fn send_head<L: Sink>(
    sink: &mut L,
    scratch: &mut Vec<u8>,
    head: &Head,
) -> Result<(), WriteError>
    requires home { length head.now.home < 2 ^ 32 }
    requires limits { head.now.opening ≡ Raised → head.now.limits.file_bytes < 2 ^ 32 }
    ensures ok { OnOk result (Appends (L.written sink.old) (L.written sink.new)
        (head_bytes head.now)) }
    ensures err { OnErr result (AppendsPart (L.written sink.old) (L.written sink.new)
        (head_bytes head.now)) }
    ensures counts { CountsSink result (L.failures sink.old) (L.failures sink.new) }
{
    scratch.clear();
    put_head(scratch, head)?;
    put_all(sink, scratch)?;
    Ok(())
}

/// Writes the entry of a directory, with its times if it has some.
///
/// # Errors
///
/// `NoMemory` if memory runs out, and `Failed` if the sink fails. A beginning of the piece is written then.
pub fn send_timed_directory<L: Sink>(
    sink: &mut L,
    scratch: &mut Vec<u8>,
    path: &[u8],
    owner: &Owner,
    times: Times,
) -> Result<(), WriteError>
    requires { length path.now < 2 ^ 32 }
    ensures ok { OnOk result (Appends (L.written sink.old) (L.written sink.new)
        (entry_text (record { path = path.now; kind = Dir owner.now }, times))) }
    ensures err { OnErr result (AppendsPart (L.written sink.old) (L.written sink.new)
        (entry_text (record { path = path.now; kind = Dir owner.now }, times))) }
    ensures counts { CountsSink result (L.failures sink.old) (L.failures sink.new) }
{
    scratch.clear();
    put_timed_directory(scratch, path, owner, times)?;
    put_all(sink, scratch)?;
    Ok(())
}

/// Writes the entry of a directory without times.
///
/// # Errors
///
/// `NoMemory` if memory runs out, and `Failed` if the sink fails. A beginning of the piece is written then.
pub fn send_directory<L: Sink>(
    sink: &mut L,
    scratch: &mut Vec<u8>,
    path: &[u8],
    owner: &Owner,
) -> Result<(), WriteError>
    requires { length path.now < 2 ^ 32 }
    ensures ok { OnOk result (Appends (L.written sink.old) (L.written sink.new)
        (row_text (record { path = path.now; kind = Dir owner.now }))) }
    ensures err { OnErr result (AppendsPart (L.written sink.old) (L.written sink.new)
        (row_text (record { path = path.now; kind = Dir owner.now }))) }
    ensures counts { CountsSink result (L.failures sink.old) (L.failures sink.new) }
{
    send_timed_directory(sink, scratch, path, owner, NO_TIMES)
}

/// Writes the entry of the first name of a file, with its times if it has some, and with the file's bytes.
///
/// # Errors
///
/// `NoMemory` if memory runs out, and `Failed` if the sink fails. A beginning of the piece is written then.
pub fn send_timed_file<L: Sink>(
    sink: &mut L,
    scratch: &mut Vec<u8>,
    path: &[u8],
    owner: &Owner,
    times: Times,
    bytes: &[u8],
) -> Result<(), WriteError>
    requires path { length path.now < 2 ^ 32 }
    ensures ok { OnOk result (Appends (L.written sink.old) (L.written sink.new)
        (entry_text (record { path = path.now; kind = First owner.now bytes.now }, times))) }
    ensures err { OnErr result (AppendsPart (L.written sink.old) (L.written sink.new)
        (entry_text (record { path = path.now; kind = First owner.now bytes.now }, times))) }
    ensures counts { CountsSink result (L.failures sink.old) (L.failures sink.new) }
{
    scratch.clear();
    put_file_start(scratch, path, owner, times, bytes.len() as u64)?;
    put_all(sink, scratch)?;
    put_all(sink, bytes)?;
    Ok(())
}

/// Writes the entry of the first name of a file without times, with the file's bytes.
///
/// # Errors
///
/// `NoMemory` if memory runs out, and `Failed` if the sink fails. A beginning of the piece is written then.
pub fn send_file<L: Sink>(
    sink: &mut L,
    scratch: &mut Vec<u8>,
    path: &[u8],
    owner: &Owner,
    bytes: &[u8],
) -> Result<(), WriteError>
    requires path { length path.now < 2 ^ 32 }
    ensures ok { OnOk result (Appends (L.written sink.old) (L.written sink.new)
        (row_text (record { path = path.now; kind = First owner.now bytes.now }))) }
    ensures err { OnErr result (AppendsPart (L.written sink.old) (L.written sink.new)
        (row_text (record { path = path.now; kind = First owner.now bytes.now }))) }
    ensures counts { CountsSink result (L.failures sink.old) (L.failures sink.new) }
{
    send_timed_file(sink, scratch, path, owner, NO_TIMES, bytes)
}

/// Writes the entry of a further name of a file, with the number of the entry that is its first name.
///
/// # Errors
///
/// `NoMemory` if memory runs out, and `Failed` if the sink fails. A beginning of the piece is written then.
pub fn send_further_name<L: Sink>(
    sink: &mut L,
    scratch: &mut Vec<u8>,
    path: &[u8],
    number: u32,
) -> Result<(), WriteError>
    requires { length path.now < 2 ^ 32 }
    ensures ok { OnOk result (Appends (L.written sink.old) (L.written sink.new)
        (row_text (record { path = path.now; kind = Further number }))) }
    ensures err { OnErr result (AppendsPart (L.written sink.old) (L.written sink.new)
        (row_text (record { path = path.now; kind = Further number }))) }
    ensures counts { CountsSink result (L.failures sink.old) (L.failures sink.new) }
{
    scratch.clear();
    put_further_name(scratch, path, number)?;
    put_all(sink, scratch)?;
    Ok(())
}

/// Writes the entry of a link.
///
/// # Errors
///
/// `NoMemory` if memory runs out, and `Failed` if the sink fails. A beginning of the piece is written then.
pub fn send_link<L: Sink>(
    sink: &mut L,
    scratch: &mut Vec<u8>,
    path: &[u8],
    target: &[u8],
) -> Result<(), WriteError>
    requires path { length path.now < 2 ^ 32 }
    requires target { length target.now < 2 ^ 32 }
    ensures ok { OnOk result (Appends (L.written sink.old) (L.written sink.new)
        (row_text (record { path = path.now; kind = Link target.now }))) }
    ensures err { OnErr result (AppendsPart (L.written sink.old) (L.written sink.new)
        (row_text (record { path = path.now; kind = Link target.now }))) }
    ensures counts { CountsSink result (L.failures sink.old) (L.failures sink.new) }
{
    scratch.clear();
    put_link(scratch, path, target)?;
    put_all(sink, scratch)?;
    Ok(())
}

/// Writes an entry, with its times if it has some.
fn send_row<L: Sink>(
    sink: &mut L,
    scratch: &mut Vec<u8>,
    row: &Row,
    times: Times,
) -> Result<(), WriteError>
    requires { HasLengths row.now }
    ensures ok { OnOk result (Appends (L.written sink.old) (L.written sink.new) (entry_text (row.now, times))) }
    ensures err { OnErr result (AppendsPart (L.written sink.old) (L.written sink.new) (entry_text (row.now, times))) }
    ensures counts { CountsSink result (L.failures sink.old) (L.failures sink.new) }
{
    let path = row.path.as_slice();
    match &row.kind {
        Kind::Dir(owner) => send_timed_directory(sink, scratch, path, owner, times),
        Kind::First(owner, bytes) => {
            send_timed_file(sink, scratch, path, owner, times, bytes.as_slice())
        }
        Kind::Further(number) => send_further_name(sink, scratch, path, *number),
        Kind::Link(target) => send_link(sink, scratch, path, target.as_slice()),
    }
}

/// Appends the head of a file.
fn put_start(out: &mut Vec<u8>, file: &TreeFile) -> Result<(), NoMemory>
    requires { IsTreeFile file.now }
    ensures { OnOk result (out.new.items ≡ out.old.items ++ head_text file.now) }
{
    let opening = file.opening();
    put_front(out, opening, file.home.as_slice(), file.uid, file.gid)?;
    put_limits(out, opening, file.limits)?;
    let count = file.rows.as_slice().len() as u32;
    put_root(out, opening, count, &file.root, file.times.get(0))?;
    Ok(())
}

/// Writes the head of a file.
fn send_start<L: Sink>(
    sink: &mut L,
    scratch: &mut Vec<u8>,
    file: &TreeFile,
) -> Result<(), WriteError>
    requires { IsTreeFile file.now }
    ensures ok { OnOk result (Appends (L.written sink.old) (L.written sink.new) (head_text file.now)) }
    ensures err { OnErr result (AppendsPart (L.written sink.old) (L.written sink.new) (head_text file.now)) }
    ensures counts { CountsSink result (L.failures sink.old) (L.failures sink.new) }
{
    scratch.clear();
    put_start(scratch, file)?;
    put_all(sink, scratch)?;
    Ok(())
}

/// Writes this tree file to a sink. No more of it is held than the entry that is written, without the bytes of a file.
///
/// # Errors
///
/// `NoMemory` if memory runs out, and `Failed` if the sink fails. A beginning of the tree file is written then.
pub fn write_rows_to<L: Sink>(
    alloc: Global,
    file: &TreeFile,
    sink: &mut L,
) -> Result<(), WriteError>
    requires { IsTreeFile file.now }
    ensures ok { OnOk result (Appends (L.written sink.old) (L.written sink.new) (spelled file.now)) }
    ensures err { OnErr result (AppendsPart (L.written sink.old) (L.written sink.new) (spelled file.now)) }
    ensures counts { CountsSink result (L.failures sink.old) (L.failures sink.new) }
{
    let mut scratch = Vec::new(alloc);
    send_start(sink, &mut scratch, file)?;
    let mut entry = 1;
    for row in file.rows.as_slice() {
        send_row(sink, &mut scratch, row, file.times.get(entry))?;
        entry += 1;
    }
    Ok(())
}

/// The bytes of this tree file. They are allocated at once.
///
/// # Errors
///
/// `NoMemory` if memory runs out.
pub fn write_rows(alloc: Global, file: &TreeFile) -> Result<Vec<u8>, NoMemory>
    requires { IsTreeFile file.now }
    ensures { IfOk result (λ v. v.items ≡ spelled file.now) }
{
    let mut sink = Tally::new(Vec::with_capacity(alloc, file_size(file))?);
    match write_rows_to(alloc, file, &mut sink) {
        Ok(()) => Ok(sink.into_inner()),
        Err(_error) => Err(NoMemory),
    }
}
