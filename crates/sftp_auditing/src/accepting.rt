//! How many requests of a refused session are accepted before the refusal.

use sftp_audit::Refusal;
use sftp_files::open;
use sftp_transcript::{Reader, Source, Tally, TranscriptError};
use sftp_verdicts::{AuditOptions, record_of};
use sftp_wire::Packet;
use std::alloc::{AllocError, Global};
use std::collections::BTreeMap;
use std::fs::Files;

/// How many requests are accepted before the refusal of the session of these files, if objects name the transcript and
/// it can be read again: those before the one whose reply is wrong, or before the oldest one that was not answered when
/// the refused record came.
pub(crate) fn accepted_before<R: Files + AllocGlobal>(
    rt: &R,
    files: &AuditOptions<'_>,
    refusal: Refusal,
) -> Option<u64> {
    if !files.is_named {
        return None;
    }
    let Ok(file) = open(rt, files.transcript) else {
        return None;
    };
    match Reader::new(rt.alloc(), Tally::new(file)) {
        Ok(mut records) => {
            let accepted = accepted_in(rt.alloc(), &mut records, refusal);
            drop(records);
            accepted
        }
        Err(_) => None,
    }
}

/// The same of records of which none is read yet.
fn accepted_in<S: Source>(alloc: Global, records: &mut Reader<S>, refusal: Refusal) -> Option<u64> {
    let mut waiting = Waiting::new(alloc);
    let accepted = match waiting.read_before(records, record_of(refusal)) {
        Ok(()) => waiting.accepted(records, refusal),
        Err(_) => None,
    };
    drop(waiting);
    accepted
}

/// The requests that wait for their replies.
#[derive(Drop)]
struct Waiting {
    /// How many requests there are.
    requests: u64,
    /// How many requests come before each one that waits, by its id.
    before: BTreeMap<u32, u64>,
}

impl Waiting {
    fn new(alloc: Global) -> Waiting {
        Waiting {
            requests: 0,
            before: BTreeMap::new(alloc),
        }
    }

    /// Takes the records before the one with this number.
    fn read_before<S: Source>(
        &mut self,
        records: &mut Reader<S>,
        number: u64,
    ) -> Result<(), TranscriptError> {
        for _ in 1..number {
            let Some((_, packet, _)) = records.next_record()? else {
                return Ok(());
            };
            let taken = self.take(&packet);
            drop(packet);
            if taken.is_err() {
                return Err(TranscriptError::NoMemory);
            }
        }
        Ok(())
    }

    fn take(&mut self, packet: &Packet) -> Result<(), AllocError> {
        match packet {
            Packet::Request(request) => {
                self.before.insert(request.id, self.requests)?;
                self.requests = self.requests.saturating_add(1);
            }
            Packet::Reply(reply) => {
                self.before.remove(&reply.id);
            }
            _ => {}
        }
        Ok(())
    }

    /// How many requests are accepted, where the records before the refused one are taken.
    fn accepted<S: Source>(&self, records: &mut Reader<S>, refusal: Refusal) -> Option<u64> {
        match refusal {
            Refusal::NotAllowed { .. } => self.before_reply(records),
            Refusal::Unanswered { .. } => Some(self.requests),
            _ => Some(self.before_oldest()),
        }
    }

    /// How many requests come before the one that the next record answers.
    fn before_reply<S: Source>(&self, records: &mut Reader<S>) -> Option<u64> {
        let Ok(Some((_, packet, _))) = records.next_record() else {
            return None;
        };
        let before = match &packet {
            Packet::Reply(reply) => self.before.get(&reply.id).copied(),
            _ => None,
        };
        drop(packet);
        before
    }

    /// How many requests come before the oldest one that waits.
    fn before_oldest(&self) -> u64 {
        let mut oldest = self.requests;
        for before in self.before.values() {
            oldest = oldest.min(*before);
        }
        oldest
    }
}
