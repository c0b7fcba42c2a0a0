//! When the records of a session were there, on the clock of its set.
ghost use Rattle.std.specs.Prelude.{◌≡◌};
ghost use Rattle.sftp_sets.specs.Sessions.{time_of};

/// When the records of a session were there.
#[derive(Drop)]
pub struct RecordTimes {
    /// When the session started: nanoseconds on the clock of the set.
    pub start: u64,
    /// For each record of the transcript the nanoseconds from the start on.
    pub entries: Vec<u64>,
}

impl RecordTimes {
    /// The time of the record of this number on the clock of the set, capped at 2^64 - 1; that of the start, if there
    /// is no entry for the record.
    pub(crate) fn time_of(&self, number: u64) -> u64
        ensures { result ≡ time_of self.now.start self.now.entries.items number }
    {
        let place = number.saturating_sub(1) as usize;
        let entry = self.entries.get(place).copied().unwrap_or(0);
        self.start.saturating_add(entry)
    }
}
