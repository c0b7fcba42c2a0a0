//! A refused session, audited again.
use crate::explaining::Explanation;
use crate::explaining::sought::Sought;
use crate::explaining::unexplained::Unexplained;
use crate::going_on::feed_rest;
use sftp_audit::{AuditError, Auditor, Refusal};
use sftp_commands::read_tree_again;
use sftp_profile::{Judge, Profile};
use sftp_transcript::TranscriptError;
use sftp_verdicts::{numbered, record_of};
use std::fs::Files;
use std::io::Write;

impl<R: Files + AllocGlobal, E: Write> Explanation<'_, '_, '_, R, E> {
    /// An auditor, by this profile, that has seen nothing of the session.
    pub(super) fn new_auditor(&self, profile: Profile) -> Result<Auditor<Judge>, Unexplained> {
        let tree = read_tree_again(self.refused.rt, self.refused.tree)?;
        match Auditor::<Judge>::by(profile, tree) {
            Ok(auditor) => Ok(auditor),
            Err(_) => Err(Unexplained::OutOfMemory),
        }
    }

    /// Feeds the session to an auditor that has seen nothing of it, and returns the refusal, if it is refused before it
    /// ends or is malformed.
    pub(super) fn fed(&mut self, auditor: &mut Auditor<Judge>) -> Option<Refusal> {
        match self.records() {
            Some(mut records) => {
                let fed = feed_rest(auditor, self.left_out, &mut records);
                drop(records);
                self.refusal_of(fed)
            }
            None => None,
        }
    }

    /// A refusal with the number that its record has in the transcript.
    fn placed(&mut self, refusal: Refusal) -> Option<Refusal> {
        if self.left_out.is_empty() {
            return Some(refusal);
        }
        match self.number_of(Sought::Counted(record_of(refusal))) {
            Some(number) => Some(numbered(refusal, number)),
            None => None,
        }
    }

    /// The refusal in which feeding a session ended, if it is one, with the number that its record has in the
    /// transcript. If the transcript cannot be read any more or memory ran out, the explanation stops.
    fn refusal_of(&mut self, fed: Result<u64, AuditError>) -> Option<Refusal> {
        match fed {
            Err(AuditError::Refused(refusal)) => return self.placed(refusal),
            Err(AuditError::NoMemory) => self.stop(Unexplained::OutOfMemory),
            Err(AuditError::Transcript(TranscriptError::Io { .. })) => {
                self.stop(Unexplained::OtherTranscript)
            }
            _ => false,
        };
        None
    }
}
