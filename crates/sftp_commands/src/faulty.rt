//! What is known of a malformed file beside its fault: its name, and whether it is a file of another kind.

use sftp_files::{Failure, Named, STANDARD_INPUT, input_name, is_read_again, open, write_flushed};
use sftp_transcript::TranscriptError;
use sftp_treefile::TreeError;
use std::fmt;
use std::fs::Files;
use std::io::{Read, Write};

/// How many bytes of a file say of which kind it is: those of the first block of an archive.
pub(crate) const START: u64 = 512;

/// Where the first block of an archive has its mark.
const MARK_PLACE: usize = 257;

/// The mark of an archive.
const MARK: &[u8] = b"ustar";

/// Where it has the type of its first member.
const TYPE_PLACE: usize = 156;

/// What a subcommand takes a file for.
#[derive(Clone, Copy)]
enum Role {
    Tree,
    Transcript,
    Either,
    Archive,
    Times,
}

impl Role {
    /// What a file of another kind is not.
    fn lack(self) -> &'static str {
        match self {
            Role::Tree => ", not a tree file",
            Role::Transcript => ", not a transcript",
            Role::Either => ", neither a transcript nor a tree file",
            Role::Archive => ", not an archive of tar",
            Role::Times => ", not a file of times",
        }
    }
}

/// What a file is, by its first bytes.
#[derive(Clone, Copy)]
pub(crate) enum Format {
    Empty,
    Transcript,
    Tree,
    Archive,
    Gzip,
    Xz,
    Zstd,
    Bzip2,
    Lzip,
    Compress,
    Zip,
    SevenZip,
    Page,
    Capture,
    Json,
    SshLog,
    Packets,
    Text,
}

impl Format {
    /// The word for it in a JSON object.
    pub(crate) fn word(self) -> &'static str {
        match self {
            Format::Empty => "empty",
            Format::Transcript => "transcript",
            Format::Tree => "tree",
            Format::Archive => "archive",
            Format::Gzip => "gzip",
            Format::Xz => "xz",
            Format::Zstd => "zstd",
            Format::Bzip2 => "bzip2",
            Format::Lzip => "lzip",
            Format::Compress => "compress",
            Format::Zip => "zip",
            Format::SevenZip => "7z",
            Format::Page => "html",
            Format::Capture => "pcap",
            Format::Json => "json",
            Format::SshLog => "ssh-log",
            Format::Packets => "packets",
            Format::Text => "text",
        }
    }

    /// What a message says that the file is.
    fn text(self) -> &'static str {
        match self {
            Format::Empty => "empty",
            Format::Transcript => "a transcript",
            Format::Tree => "a tree file",
            Format::Archive => "an archive",
            Format::Gzip => "compressed by gzip",
            Format::Xz => "compressed by xz",
            Format::Zstd => "compressed by zstd",
            Format::Bzip2 => "compressed by bzip2",
            Format::Lzip => "compressed by lzip",
            Format::Compress => "compressed by compress",
            Format::Zip => "an archive of zip",
            Format::SevenZip => "an archive of 7z",
            Format::Page => "a page of HTML",
            Format::Capture => "a capture of network packets",
            Format::Json => "a text in JSON",
            Format::SshLog => "a log of ssh -v",
            Format::Packets => "packets without the marks of a recorder",
            Format::Text => "a text as 'show' prints it",
        }
    }
}

/// The files that a run reads, by what it takes them for.
#[derive(Clone, Copy)]
pub struct ReadFiles<'a> {
    /// The tree file, if the run reads no other one.
    pub tree: Option<&'a str>,
    pub transcript: Option<&'a str>,
    /// The file that may be of either kind.
    pub either: Option<&'a str>,
}

/// The malformed file of a run that failed.
#[derive(Clone, Copy)]
pub struct Faulty<'a> {
    pub(crate) name: &'a str,
    /// What it is, if it is of another kind than what it is taken for.
    pub(crate) format: Option<Format>,
    taken_for: Role,
    /// Whether the line of the failure has its name.
    is_named: bool,
}

impl<'a> Faulty<'a> {
    /// The file of a run that failed because it is malformed. If its first bytes are at fault, they say what it is.
    pub fn of<R: Files + AllocGlobal>(
        rt: &R,
        files: ReadFiles<'a>,
        failure: &Failure<'a>,
    ) -> Option<Faulty<'a>> {
        let mut faulty = faulty_of(files, failure)?;
        if is_at_opening(failure) {
            faulty.format = format_of_file(rt, faulty.name);
        }
        Some(faulty)
    }

    /// The file `name`, whose first bytes are not those of a file of times, if they say what it is.
    pub(crate) fn of_times<R: Files + AllocGlobal>(rt: &R, name: &'a str) -> Option<Faulty<'a>> {
        let format = format_of_file(rt, name)?;
        Some(Faulty {
            name,
            format: Some(format),
            taken_for: Role::Times,
            is_named: true,
        })
    }

    /// Writes the line about the file, if it is of another kind.
    pub fn put_format<E: Write>(&self, errors: &mut E) {
        if self.format.is_some() {
            let _ = write_flushed(errors, format_args!("sftpv3: {self}\n"));
        }
    }

    /// Writes the line about the file, if it says more than the line of the failure.
    pub fn put<E: Write>(&self, errors: &mut E) {
        if self.format.is_some() || !self.is_named {
            let _ = write_flushed(errors, format_args!("sftpv3: {self}\n"));
        }
    }
}

impl fmt::Display for Faulty<'_> {
    fn fmt<W: fmt::Write>(&self, f: &mut fmt::Formatter<W>) -> fmt::Result {
        let name = Named(input_name(self.name));
        match self.format {
            Some(format) => {
                let text = format.text();
                let advice = advice(format, self.taken_for);
                write!(f, "{name} is {text}{advice}")
            }
            None => write!(f, "file: {name}"),
        }
    }
}

/// What a message adds about a file that is of another kind.
fn advice(format: Format, taken_for: Role) -> &'static str {
    match (format, taken_for) {
        (Format::Empty, _) => "",
        (Format::Archive, Role::Tree) => ", not a tree file; 'sftpv3 import' makes one of it",
        (Format::Text, Role::Tree) => ", not a tree file; 'sftpv3 make' makes one of it",
        (Format::Text, Role::Transcript) => ", not a transcript; 'sftpv3 make' makes one of it",
        (Format::Archive, Role::Either) => {
            ", neither a transcript nor a tree file; 'sftpv3 import' makes a tree file of it"
        }
        (Format::Text, Role::Either) => {
            ", neither a transcript nor a tree file; 'sftpv3 make' makes one of it"
        }
        _ => taken_for.lack(),
    }
}

/// The file of a run that failed because it is malformed, without a look at it.
fn faulty_of<'a>(files: ReadFiles<'a>, failure: &Failure<'a>) -> Option<Faulty<'a>> {
    let (name, taken_for, is_named) = match failure {
        Failure::Tree(_) => (files.tree, Role::Tree, false),
        Failure::Transcript(_) => (files.transcript, Role::Transcript, false),
        Failure::UnknownFile => (files.either, Role::Either, false),
        Failure::TreeOf(name, _) => (Some(*name), Role::Tree, true),
        _ => return None,
    };
    Some(Faulty {
        name: name?,
        format: None,
        taken_for,
        is_named,
    })
}

/// Whether a file is malformed in its first bytes.
fn is_at_opening(failure: &Failure<'_>) -> bool {
    match failure {
        Failure::Tree(TreeError::Magic { .. }) => true,
        Failure::TreeOf(_, TreeError::Magic { .. }) => true,
        Failure::Transcript(TranscriptError::Magic { .. }) => true,
        Failure::UnknownFile => true,
        _ => false,
    }
}

/// What a file is, if that is known and the file can be read again. A pipe cannot.
fn format_of_file<R: Files + AllocGlobal>(rt: &R, name: &str) -> Option<Format> {
    let mut start = Vec::new(rt.alloc());
    let is_read = is_read_again(rt, name) && is_start_read(rt, name, &mut start);
    let format = if is_read {
        format_of(start.as_slice())
    } else {
        None
    };
    drop(start);
    format
}

/// Appends the first bytes of a file. Returns whether they could be read.
fn is_start_read<R: Files>(rt: &R, name: &str, start: &mut Vec<u8>) -> bool {
    match open(rt, name) {
        Ok(file) => file.take(START).read_to_end(start).is_ok(),
        Err(_) => false,
    }
}

/// What a file with these first bytes is, if that is known.
fn format_of(start: &[u8]) -> Option<Format> {
    if start.is_empty() {
        Some(Format::Empty)
    } else if start.starts_with(b"SFTPTR01") {
        Some(Format::Transcript)
    } else if is_tree_file(start) {
        Some(Format::Tree)
    } else if start.get(MARK_PLACE..).unwrap_or(&[]).starts_with(MARK) {
        Some(Format::Archive)
    } else if is_text(start) {
        Some(Format::Text)
    } else {
        foreign_format_of(start)
    }
}

/// What a file with these first bytes is, if it is none of this program's and no archive of tar.
fn foreign_format_of(start: &[u8]) -> Option<Format> {
    if start.starts_with(b"PK\x03\x04") || start.starts_with(b"PK\x05\x06") {
        Some(Format::Zip)
    } else if start.starts_with(b"7z\xbc\xaf\x27\x1c") {
        Some(Format::SevenZip)
    } else if is_page(start) {
        Some(Format::Page)
    } else if is_packets(start) {
        Some(Format::Packets)
    } else {
        note_of(start).or(compression_of(start))
    }
}

/// What a file with these first bytes is, if another tool noted down a session in it.
fn note_of(start: &[u8]) -> Option<Format> {
    if is_capture(start) {
        Some(Format::Capture)
    } else if start.starts_with(b"{\"") || start.starts_with(b"[{") {
        Some(Format::Json)
    } else if start.starts_with(b"OpenSSH_") || start.starts_with(b"debug1: ") {
        Some(Format::SshLog)
    } else {
        None
    }
}

/// Whether a file that begins so is a capture of `tcpdump` or Wireshark: pcap, in either order of bytes, with times in
/// microseconds or nanoseconds, or pcapng.
fn is_capture(start: &[u8]) -> bool {
    start.starts_with(b"\xd4\xc3\xb2\xa1")
        || start.starts_with(b"\xa1\xb2\xc3\xd4")
        || start.starts_with(b"\x4d\x3c\xb2\xa1")
        || start.starts_with(b"\xa1\xb2\x3c\x4d")
        || start.starts_with(b"\x0a\x0d\x0d\x0a")
}

/// By which program a file with these first bytes is compressed, if it is by a usual one.
fn compression_of(start: &[u8]) -> Option<Format> {
    if start.starts_with(b"\x1f\x8b") {
        Some(Format::Gzip)
    } else if start.starts_with(b"\xfd7zXZ\0") {
        Some(Format::Xz)
    } else if start.starts_with(b"\x28\xb5\x2f\xfd") {
        Some(Format::Zstd)
    } else if start.starts_with(b"BZh") {
        Some(Format::Bzip2)
    } else if start.starts_with(b"LZIP") {
        Some(Format::Lzip)
    } else if start.starts_with(b"\x1f\x9d") {
        Some(Format::Compress)
    } else {
        None
    }
}

/// Whether a file that begins so is a page of HTML, which is what a failed download may leave.
fn is_page(start: &[u8]) -> bool {
    start.starts_with(b"<!DOCTYPE html")
        || start.starts_with(b"<!doctype html")
        || start.starts_with(b"<html")
        || start.starts_with(b"<HTML")
}

/// Whether a file that begins so has packets as they are sent: an INIT or a VERSION of version 3 in front.
fn is_packets(start: &[u8]) -> bool {
    let packet = start.get(4..).unwrap_or(&[]);
    packet.starts_with(b"\x01\0\0\0\x03") || packet.starts_with(b"\x02\0\0\0\x03")
}

/// Whether a file that begins so is the text of a tree file or of a transcript.
fn is_text(start: &[u8]) -> bool {
    start.starts_with(b"home \"") || start.starts_with(b"C INIT ")
}

/// Whether a file that begins so is a tree file.
fn is_tree_file(start: &[u8]) -> bool {
    start.starts_with(b"SFTREE01")
        || start.starts_with(b"SFTREE02")
        || start.starts_with(b"SFTREE03")
}

/// What is found on standard input in place of an archive that an import takes. It is a line of its own, if anything.
#[derive(Clone, Copy)]
pub(crate) enum Found {
    Nothing,
    /// A file of another kind.
    Other(Format),
    /// An archive that GNU tar made with this option.
    MadeWith(&'static str),
}

impl Found {
    /// What a file with these first bytes is, if it is no archive.
    pub(crate) fn of_start(start: &[u8]) -> Found {
        match format_of(start) {
            None | Some(Format::Archive) => Found::Nothing,
            Some(format) => Found::Other(format),
        }
    }

    /// By which option an archive was made that begins with this header, if an import does not take what it makes.
    pub(crate) fn of_header(header: &[u8]) -> Found {
        match header.get(TYPE_PLACE) {
            Some(b'D') => Found::MadeWith("--incremental or --listed-incremental"),
            Some(b'M') => Found::MadeWith("--multi-volume"),
            Some(b'V') => Found::MadeWith("--label"),
            _ => Found::Nothing,
        }
    }
}

impl fmt::Display for Found {
    fn fmt<W: fmt::Write>(&self, f: &mut fmt::Formatter<W>) -> fmt::Result {
        match self {
            Found::Nothing => Ok(()),
            Found::Other(format) => {
                let text = format.text();
                let advice = advice(*format, Role::Archive);
                write!(f, "\nsftpv3: {STANDARD_INPUT} is {text}{advice}")
            }
            Found::MadeWith(option) => write!(
                f,
                "\nsftpv3: made by tar with {option}: make the archive without it"
            ),
        }
    }
}
