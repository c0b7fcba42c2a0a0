//! Transcript files over streams, of which some fail: sources and sinks, what is read and written, and how many calls
//! failed. The bytes are worked out by hand.
mod reading;
mod writing;

use crate::streams::{Input, Room};
use sftp_transcript::{Failed, Memory, Sink, Source, Tally};
use std::alloc::Global;

/// The opening, INIT and VERSION, MKDIR of `/a` with the id 1 as the third record, and STATUS 0 as the fourth: 28, 20
/// and 22 bytes.
pub(crate) const SESSION: &[u8] = b"SFTPTR01C\0\0\0\x05\x01\0\0\0\x03S\0\0\0\x05\x02\0\0\0\x03\
C\0\0\0\x0f\x0e\0\0\0\x01\0\0\0\x02/a\0\0\0\0S\0\0\0\x11\x65\0\0\0\x01\0\0\0\0\0\0\0\0\0\0\0\0";

/// The number of the record that the byte at this place of that session is in, or would be in.
pub(crate) fn record_at(place: usize) -> u64 {
    match place {
        0..=7 => 0,
        8..=17 => 1,
        18..=27 => 2,
        28..=47 => 3,
        48..=69 => 4,
        _ => 5,
    }
}

/// What a read into three bytes gives, these, and how many reads have failed.
type Given = (Result<usize, Failed>, [u8; 3], u64);

fn next_three<R: Source>(source: &mut R) -> Given {
    let mut buffer = [b'.'; 3];
    let count = source.read(&mut buffer);
    (count, buffer, source.failures())
}

/// What four reads give.
fn four_reads<R: Source>(source: &mut R) -> [Given; 4] {
    let first = next_three(source);
    let second = next_three(source);
    let third = next_three(source);
    let fourth = next_three(source);
    [first, second, third, fourth]
}

#[test]
fn reads_memory_to_the_end(rt: HostRuntime) {
    let end: Given = (Ok(0), *b"...", 0);
    let wanted: [Given; 4] = [(Ok(3), *b"abc", 0), (Ok(1), *b"d..", 0), end, end];
    let mut memory = Memory::new(b"abcd");
    assert!(rt; four_reads(&mut memory) == wanted);
}

#[test]
fn counts_failed_reads(rt: HostRuntime) {
    let wanted: [Given; 4] = [
        (Ok(1), *b"a..", 0),
        (Ok(1), *b"b..", 0),
        (Err(Failed), *b"...", 1),
        (Err(Failed), *b"...", 2),
    ];
    let mut torn = Tally::new(Input::torn(b"ab"));
    assert!(rt; four_reads(&mut torn) == wanted);
}

/// What three writes give, and how many failed.
type Written = ([Result<usize, Failed>; 3], u64);

/// What comes of three writes to a sink with room for one byte.
fn three_writes(alloc: Global, fails: bool) -> Written {
    let mut narrow = Tally::new(Room::of(alloc, 1, 1, fails));
    let written = [narrow.write(b""), narrow.write(b"ab"), narrow.write(b"b")];
    let failures = Sink::failures(&narrow);
    drop(narrow);
    (written, failures)
}

#[test]
fn counts_failed_writes(rt: HostRuntime) {
    let wanted: Written = ([Ok(0), Ok(1), Err(Failed)], 1);
    let failing = three_writes(rt.alloc(), true);
    let full = three_writes(rt.alloc(), false);
    assert!(rt; failing == wanted && full == wanted);
}
