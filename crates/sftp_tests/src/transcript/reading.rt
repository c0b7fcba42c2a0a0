//! Transcript files that are read byte by byte, from sources that fail at each place.
use super::{SESSION, record_at};
use crate::streams::Input;
use sftp_transcript::{Event, Reader, Tally, TranscriptError};
use std::alloc::Global;

/// What a reader gives next, in a letter and a number: `C` a request, `S` a reply, `.` the end, `i` that the source
/// failed in this record.
type Given = (u8, u64);

fn kind_of(next: &Result<Option<Event>, TranscriptError>) -> Given {
    match next {
        Ok(Some(Event::Asked(_))) => (b'C', 0),
        Ok(Some(Event::Replied(_))) => (b'S', 0),
        Ok(None) => (b'.', 0),
        Err(TranscriptError::Io { record }) => (b'i', *record),
        Err(_) => (b'?', 0),
    }
}

fn next_of(reader: &mut Reader<Tally<Input<'_>>>) -> Given {
    let next = reader.next();
    let given = kind_of(&next);
    drop(next);
    given
}

/// What four calls give, unless memory runs out.
fn four(alloc: Global, source: Input) -> Option<[Given; 4]> {
    match Reader::new(alloc, Tally::new(source)) {
        Ok(mut reader) => {
            let first = next_of(&mut reader);
            let second = next_of(&mut reader);
            let third = next_of(&mut reader);
            let fourth = next_of(&mut reader);
            drop(reader);
            Some([first, second, third, fourth])
        }
        Err(_) => None,
    }
}

/// The events that are whole in so many bytes, and then each time that the source failed.
fn events_in(place: usize) -> [Given; 4] {
    let failed = (b'i', record_at(place));
    match place {
        0..=47 => [failed, failed, failed, failed],
        48..=69 => [(b'C', 0), failed, failed, failed],
        _ => [(b'C', 0), (b'S', 0), failed, failed],
    }
}

#[test]
fn stops_where_the_source_fails(rt: HostRuntime) {
    for place in 0..=SESSION.len() {
        let torn = Input::torn(SESSION.get(..place).unwrap_or(SESSION));
        assert!(rt; four(rt.alloc(), torn) == Some(events_in(place)), "{place}");
    }
}
