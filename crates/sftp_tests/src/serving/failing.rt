//! Sessions of which one stream fails, at each place: what was written and logged until then, and the tree left.
use super::{DONE, INIT, INPUT, MKDIR, VERSION};
use crate::audit::{BLANK, WITH_A};
use crate::scripts::is_tree;
use crate::streams::{Input, Room};
use sftp_server::{Ended, InOrder, SessionEnd, Stream, serve_keeping_tree};
use sftp_transcript::{Tally, Writer};
use sftp_tree::Tree;
use std::alloc::Global;

/// INIT, MKDIR, and a packet that cannot be read.
const FAULTY: &[u8] =
    b"\0\0\0\x05\x01\0\0\0\x03\0\0\0\x0f\x0e\0\0\0\x01\0\0\0\x02/a\0\0\0\0\0\0\0\0";

/// What is written and logged of INIT and MKDIR without a failure: 145 and 185 bytes.
const WRITTEN: &[&[u8]] = &[VERSION, DONE];

const LOGGED: &[&[u8]] = &[b"SFTPTR01C", INIT, b"S", VERSION, b"C", MKDIR, b"S", DONE];

/// Which stream ended a session, if one did, and how many bytes were written and logged then.
type End = (Option<Stream>, usize, usize);

const READER: Option<Stream> = Some(Stream::Reader);

const WRITER: Option<Stream> = Some(Stream::Writer);

const LOG: Option<Stream> = Some(Stream::Log);

/// The end of the whole session.
const WHOLE: End = (None, 145, 185);

/// Whether the bytes are the first `count` of these parts.
fn is_front(bytes: &[u8], count: usize, parts: &[&[u8]]) -> bool {
    let mut rest = bytes;
    for part in parts {
        let common = rest.len().min(part.len());
        if rest[..common] != part[..common] {
            return false;
        }
        rest = &rest[common..];
    }
    rest.is_empty() && bytes.len() == count
}

/// The tree file that is left with so many bytes logged: MKDIR is done once it is logged.
fn left(logged: usize) -> &'static [u8] {
    match logged {
        0..=162 => BLANK,
        _ => WITH_A,
    }
}

/// Whether a session left the tree of this end; a reader that fails before INIT leaves none.
fn has_left(tree: &Option<Tree>, end: End) -> bool {
    let leaves_none = end == (READER, 0, 0);
    match tree {
        Some(tree) => !leaves_none && is_tree(tree, left(end.2)),
        None => leaves_none,
    }
}

/// Whether a session ended so.
fn has_ended(served: &SessionEnd, end: End) -> bool {
    match &served.ended {
        Ended::Finished(tree) => end.0 == None && is_tree(tree, left(end.2)),
        Ended::Io(stream) => end.0 == Some(*stream) && has_left(&served.left, end),
        _ => false,
    }
}

/// Whether the session on a tree ends so, with what was written and logged until then.
fn ends_on(tree: Tree, input: Input, output: Room, log: Room, end: End) -> bool {
    let started = Writer::new(tree.allocator(), Tally::new(log));
    let mut record = match started {
        Ok(record) => record,
        Err(_) => {
            drop(tree);
            return false;
        }
    };
    let mut reader = Tally::new(input);
    let mut writer = Tally::new(output);
    let served = serve_keeping_tree(tree, &mut reader, &mut writer, &mut record, &mut InOrder);
    let has_ended = has_ended(&served, end);
    drop(served);
    let output = writer.into_inner();
    let log = record.into_sink().into_inner();
    let is_written = is_front(output.bytes.as_slice(), end.1, WRITTEN);
    let is_logged = is_front(log.bytes.as_slice(), end.2, LOGGED);
    drop(output);
    drop(log);
    has_ended && is_written && is_logged
}

/// Whether the session of this input with these writers ends so, on the blank tree.
fn ends(alloc: Global, input: Input, output: Room, log: Room, end: End) -> bool {
    match Tree::blank(alloc) {
        Ok(tree) => ends_on(tree, input, output, log, end),
        Err(_) => false,
    }
}

/// The end where the reader fails after so many bytes.
fn at_reader(count: usize) -> End {
    match count {
        0..=8 => (READER, 0, 0),
        9..=27 => (READER, 124, 143),
        _ => (READER, 145, 185),
    }
}

#[test]
fn reader_fails(rt: HostRuntime) {
    let alloc = rt.alloc();
    for count in 0..=28 {
        let torn = Input::whole(INPUT.get(..count).unwrap_or(INPUT), true);
        let (output, log) = (Room::ample(alloc), Room::ample(alloc));
        assert!(rt; ends(alloc, torn, output, log, at_reader(count)), "{count}");
    }
}

/// Whether the session with a writer and a log that have room for so many bytes ends so, whether they take all bytes
/// at once or one a call.
fn ends_narrow(alloc: Global, writer: usize, log: usize, end: End) -> bool {
    let output = Room::of(alloc, writer, usize::MAX, true);
    let record = Room::of(alloc, log, usize::MAX, true);
    let at_once = ends(alloc, Input::whole(INPUT, false), output, record, end);
    let output = Room::of(alloc, writer, 1, true);
    let record = Room::of(alloc, log, 1, true);
    let by_bytes = ends(alloc, Input::whole(INPUT, false), output, record, end);
    at_once && by_bytes
}

/// The end where the writer fails after so many bytes.
fn at_writer(count: usize) -> End {
    match count {
        0..=123 => (WRITER, count, 18),
        124..=144 => (WRITER, count, 163),
        _ => WHOLE,
    }
}

#[test]
fn writer_fails(rt: HostRuntime) {
    for count in 0..=145 {
        let ended = ends_narrow(rt.alloc(), count, usize::MAX, at_writer(count));
        assert!(rt; ended, "{count}");
    }
}

/// The end where the log fails after so many bytes.
fn at_log(count: usize) -> End {
    match count {
        0..=17 => (LOG, 0, count),
        18..=162 => (LOG, 124, count),
        163..=184 => (LOG, 145, count),
        _ => WHOLE,
    }
}

#[test]
fn log_fails(rt: HostRuntime) {
    for count in 0..=185 {
        let ended = ends_narrow(rt.alloc(), usize::MAX, count, at_log(count));
        assert!(rt; ended, "{count}");
    }
}

/// Whether the session of this input with an ample writer and this log ends so.
fn ends_logged(alloc: Global, input: &[u8], log: Room, end: End) -> bool {
    ends(
        alloc,
        Input::whole(input, false),
        Room::ample(alloc),
        log,
        end,
    )
}

/// Whether the session of this input with this writer and an ample log ends so.
fn ends_written(alloc: Global, input: &[u8], output: Room, end: End) -> bool {
    ends(
        alloc,
        Input::whole(input, false),
        output,
        Room::ample(alloc),
        end,
    )
}

#[test]
fn streams_take_nothing(rt: HostRuntime) {
    let alloc = rt.alloc();
    let full = Room::of(alloc, 127, usize::MAX, false);
    let written = ends_written(alloc, INPUT, full, (WRITER, 127, 163));
    let full = Room::of(alloc, 100, usize::MAX, false);
    let logged = ends_logged(alloc, INPUT, full, (LOG, 124, 100));
    assert!(rt; written && logged);
}

#[test]
fn flush_fails(rt: HostRuntime) {
    let alloc = rt.alloc();
    for input in [INPUT, FAULTY] {
        let written = ends_written(alloc, input, Room::stuck(alloc), (WRITER, 145, 185));
        let logged = ends_logged(alloc, input, Room::stuck(alloc), (LOG, 145, 185));
        assert!(rt; written && logged, "{input:?}");
    }
}
