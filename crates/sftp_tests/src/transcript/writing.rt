//! Records that are written: to sinks that fail at each place, and packets that have no record.
use crate::audit::OPENING;
use crate::streams::Room;
use sftp_transcript::{Sink, Tally, TranscriptError, Writer};
use sftp_wire::{Ask, ByteString, Fault, Packet, Pairs, Request, Side};
use std::alloc::Global;

/// VERSION 3.
const VERSION: &[u8] = b"\0\0\0\x05\x02\0\0\0\x03";

/// What a call gives, and the record that it names if the sink failed.
type Written = Result<(), TranscriptError>;

/// What the records of INIT and VERSION and a flush give.
fn greeting(alloc: Global, writer: &mut Writer<Tally<Room>>) -> [Written; 3] {
    let init = Packet::Init {
        version: 3,
        extensions: Pairs::new(Vec::new(alloc)),
    };
    let first = writer.record(Side::Client, &init);
    drop(init);
    let second = writer.record_bytes(Side::Server, VERSION);
    let third = writer.flush();
    [first, second, third]
}

/// What the calls have to give where the sink has this room: the first 18 bytes are the opening and INIT, and 10 more
/// are VERSION.
fn expected(room: usize) -> [Written; 3] {
    let first = Err(TranscriptError::Io { record: 1 });
    let second = Err(TranscriptError::Io { record: 2 });
    match room {
        0..=17 => [first, first, first],
        18..=27 => [Ok(()), second, second],
        _ => [Ok(()), Ok(()), Ok(())],
    }
}

/// Whether the calls give this, a sink has these bytes then, and one call failed if any gave an error.
fn greets(alloc: Global, sink: Room, wanted: [Written; 3], bytes: &[u8]) -> bool {
    match Writer::new(alloc, Tally::new(sink)) {
        Ok(mut writer) => {
            let written = greeting(alloc, &mut writer);
            let tally = writer.into_sink();
            let failures = Sink::failures(&tally);
            let room = tally.into_inner();
            let has_bytes = room.bytes.as_slice() == bytes;
            drop(room);
            let failed = if wanted[2].is_err() { 1 } else { 0 };
            has_bytes && written == wanted && failures == failed
        }
        Err(_) => false,
    }
}

#[test]
fn stops_where_the_sink_fails(rt: HostRuntime) {
    for room in 0..30 {
        let front = OPENING.get(..room).unwrap_or(OPENING);
        let full = Room::of(rt.alloc(), room, 1, false);
        let stops = greets(rt.alloc(), full, expected(room), front);
        let failing = Room::of(rt.alloc(), room, 1, true);
        let fails = greets(rt.alloc(), failing, expected(room), front);
        assert!(rt; stops && fails, "{room}");
    }
}

/// All records are written, and the flush fails.
#[test]
fn stops_where_the_flush_fails(rt: HostRuntime) {
    let wanted: [Written; 3] = [Ok(()), Ok(()), Err(TranscriptError::Io { record: 2 })];
    assert!(rt; greets(rt.alloc(), Room::stuck(rt.alloc()), wanted, OPENING));
}

/// What the record of a STAT of a path that is so long gives.
fn record_stat(
    alloc: Global,
    writer: &mut Writer<Tally<Room>>,
    side: Side,
    length: usize,
) -> Written {
    let path = ByteString::new(vec![in alloc; b'a'; length]?);
    let ask = Ask::Stat { path };
    let stat = Packet::Request(Request { id: 1, ask });
    let written = writer.record(side, &stat);
    drop(stat);
    written
}

/// What the records of another side, of a path that is too long, of a path of one byte, and of a path that is too long
/// give. A path of 262,131 bytes makes the longest packet.
fn record_stats(alloc: Global, writer: &mut Writer<Tally<Room>>) -> [Written; 4] {
    let other_side = record_stat(alloc, writer, Side::Server, 1);
    let too_long = record_stat(alloc, writer, Side::Client, 262_132);
    let first = record_stat(alloc, writer, Side::Client, 1);
    let second = record_stat(alloc, writer, Side::Client, 262_132);
    [other_side, too_long, first, second]
}

/// What they have to give: the number is that of the next record.
fn refusals() -> [Written; 4] {
    let (fault, record) = (Fault::WrongType, 1);
    let other_side = Err(TranscriptError::Wire { fault, record });
    let fault = Fault::Length;
    let too_long = Err(TranscriptError::Wire { fault, record });
    let second = Err(TranscriptError::Wire { fault, record: 2 });
    [other_side, too_long, Ok(()), second]
}

/// Whether packets of another side, and packets that are too long, are refused, and write nothing.
fn refuses(alloc: Global) -> bool {
    match Writer::new(alloc, Tally::new(Room::ample(alloc))) {
        Ok(mut writer) => {
            let written = record_stats(alloc, &mut writer);
            let room = writer.into_sink().into_inner();
            let has_one = room.bytes.as_slice()
                == b"SFTPTR01C\0\0\0\x0a\x11\0\0\0\x01\0\0\0\x01a".as_slice();
            drop(room);
            has_one && written == refusals()
        }
        Err(_) => false,
    }
}

#[test]
fn refuses_packets_without_records(rt: HostRuntime) {
    assert!(rt; refuses(rt.alloc()));
}
