//! The records that an explanation names, each found in the transcript from its start.
use crate::explaining::Explanation;
use crate::explaining::sought::Sought;
use crate::explaining::unexplained::Unexplained;
use sftp_files::{Failure, open};
use sftp_show::{Record, find_record};
use sftp_transcript::{Reader, Tally, TranscriptError, WINDOW};
use sftp_wire::Side;
use std::fs::Files;
use std::io::Write;

impl<R: Files + AllocGlobal, E: Write> Explanation<'_, '_, '_, R, E> {
    /// Writes the line of the record with this number.
    pub(super) fn put_numbered(&mut self, label: &str, number: u64) -> bool {
        let found = self.found(number);
        let put = self.put_found(label, &found);
        drop(found);
        put
    }

    /// Writes the line of the record found, if it was found.
    pub(super) fn put_found(&mut self, label: &str, found: &Option<Record>) -> bool {
        match found {
            Some(found) => self.put_line(label, found),
            None => false,
        }
    }

    /// Writes the line of the last record of a side before this one that has its id.
    pub(super) fn put_earlier(&mut self, label: &str, side: Side, record: &Record) -> bool {
        match self.earlier(side, record) {
            Some(number) => self.put_numbered(label, number),
            None => self.stop(Unexplained::OtherTranscript),
        }
    }

    /// The record with this number. If there are fewer, the explanation stops.
    pub(super) fn found(&mut self, number: u64) -> Option<Record> {
        match self.records() {
            Some(mut records) => {
                let found = find_record(&mut records, number);
                drop(records);
                self.found_by(found)
            }
            None => None,
        }
    }

    /// The record that a search found. If it found none, the explanation stops.
    fn found_by(&mut self, found: Result<Option<Record>, TranscriptError>) -> Option<Record> {
        match found {
            Ok(Some(found)) => Some(found),
            Ok(None) => {
                self.stop(Unexplained::OtherTranscript);
                None
            }
            Err(error) => {
                self.stop(Unexplained::from(error));
                None
            }
        }
    }

    /// The number of the last record of a side before this one that has its id, if there is one. If this record has no
    /// id, the explanation stops.
    pub(super) fn earlier(&mut self, side: Side, record: &Record) -> Option<u64> {
        match record.id() {
            Some(id) => self.number_of(Sought::Last(side, id, record.number)),
            None => {
                self.stop(Unexplained::OtherTranscript);
                None
            }
        }
    }

    /// The number of the record of the 1,024th request before this one, if there is one.
    pub(super) fn oldest(&mut self, request: &Record) -> Option<u64> {
        match self.number_of(Sought::Before(request.number)) {
            Some(before) => self.number_of(Sought::Request(before.saturating_sub(WINDOW as u64))),
            None => None,
        }
    }

    /// The number that is sought, if there is one. If the transcript cannot be searched, the explanation stops.
    pub(super) fn number_of(&mut self, sought: Sought) -> Option<u64> {
        match self.records() {
            Some(mut records) => {
                let number = sought.number(self.left_out, &mut records);
                drop(records);
                self.number_found(number)
            }
            None => None,
        }
    }

    /// The number that a search found, if it found one. If the search failed, the explanation stops.
    fn number_found(&mut self, number: Result<Option<u64>, TranscriptError>) -> Option<u64> {
        match number {
            Ok(number) => number,
            Err(error) => {
                self.stop(Unexplained::from(error));
                None
            }
        }
    }

    /// A reader of the transcript from its start. If it cannot be read, the explanation stops.
    pub(super) fn records(&mut self) -> Option<Reader<Tally<R::File>>> {
        match open(self.refused.rt, self.refused.files.transcript) {
            Ok(file) => self.records_of(file),
            Err(failure) => {
                self.stop(unopened(&failure));
                drop(failure);
                None
            }
        }
    }

    /// A reader of a transcript that was just opened. If memory runs out, the explanation stops.
    fn records_of(&mut self, file: R::File) -> Option<Reader<Tally<R::File>>> {
        match Reader::new(self.refused.rt.alloc(), Tally::new(file)) {
            Ok(records) => Some(records),
            Err(error) => {
                self.stop(Unexplained::from(error));
                None
            }
        }
    }
}

/// What it means that the transcript cannot be opened.
fn unopened(failure: &Failure<'_>) -> Unexplained {
    match failure {
        Failure::OutOfMemory => Unexplained::OutOfMemory,
        _ => Unexplained::OtherTranscript,
    }
}
