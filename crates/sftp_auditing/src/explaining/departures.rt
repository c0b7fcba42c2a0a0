//! The departures each of which, accepted besides, would have a refused session go on.
use crate::explaining::Explanation;
use crate::explaining::sought::{Sought, TRIED};
use sftp_audit::Refusal;
use sftp_profile::{NAMES, Profile};
use sftp_verdicts::record_of;
use std::fs::Files;
use std::io::Write;

impl<R: Files + AllocGlobal, E: Write> Explanation<'_, '_, '_, R, E> {
    /// The names of the departures each of which, accepted besides, makes the session go on beyond its refusal. For
    /// each of them the session is read and judged again, so that they are not tried of one that is long.
    pub(super) fn put_departures(&mut self) -> bool {
        match self.number_of(Sought::Bytes(record_of(self.refused.refusal))) {
            Some(bytes) if bytes <= TRIED => self.put_each_departure(),
            Some(_) => self.put_untried(),
            None => false,
        }
    }

    fn put_untried(&mut self) -> bool {
        let written = writeln!(
            self.errors,
            "departures: not tried, since the packets up to this one have more than {TRIED} bytes"
        );
        self.is_written(written)
    }

    fn put_each_departure(&mut self) -> bool {
        for name in NAMES {
            if self.goes_on_with(name) {
                self.put_text("allowed by", name);
            }
            if self.stopped_by.is_some() {
                return false;
            }
        }
        true
    }

    /// Whether the session continues beyond its refusal if the departure of this name is accepted besides.
    fn goes_on_with(&mut self, name: &str) -> bool {
        let accepted = self.profile();
        let profile = accepted.with(name, true).unwrap_or(accepted);
        profile != accepted && self.goes_on_by(profile, name)
    }

    /// Whether the session continues beyond its refusal by this profile, which accepts the departure of this name.
    fn goes_on_by(&mut self, profile: Profile, name: &str) -> bool {
        match self.new_auditor(profile) {
            Ok(mut auditor) => {
                let fed = self.fed(&mut auditor);
                drop(auditor);
                self.is_beyond(fed, name)
            }
            Err(reason) => self.stop(reason),
        }
    }

    /// Whether a session that was fed with the departure of this name accepted continues beyond its refusal without it:
    /// it is not refused, or at a later record. A departure that judges another request than the one that was sent may
    /// have it refused at an earlier record.
    fn is_beyond(&self, fed: Option<Refusal>, name: &str) -> bool {
        match fed {
            None => self.stopped_by.is_none(),
            Some(other) => {
                other != self.refused.refusal
                    && (!replaces_requests(name)
                        || record_of(other) > record_of(self.refused.refusal))
            }
        }
    }
}

/// Whether the departure of this name judges other requests than those that were sent.
fn replaces_requests(name: &str) -> bool {
    name == "made" || name == "keep-owner"
}
