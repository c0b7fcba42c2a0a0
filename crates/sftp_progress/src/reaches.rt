//! What a run does that may take long, and how far it is.
use crate::amounts::{Amount, percent};
use crate::records::Records;
use std::fmt;

/// What a run does that may take long.
#[derive(Clone, Copy)]
pub enum Task {
    ReadTranscript,
    ReadTree,
    /// Of two trees that are compared, the one of before.
    ReadOld,
    /// The one of after.
    ReadNew,
    ReadArchive,
    WriteArchive,
}

impl Task {
    /// What a line says of it.
    fn text(self) -> &'static str {
        match self {
            Task::ReadTranscript => "reading the transcript",
            Task::ReadTree => "reading the tree",
            Task::ReadOld => "reading the tree A",
            Task::ReadNew => "reading the tree B",
            Task::ReadArchive => "reading the archive",
            Task::WriteArchive => "writing the archive",
        }
    }

    /// What there is to count beside bytes.
    pub(crate) fn records(self) -> Option<Records> {
        match self {
            Task::ReadTranscript => Some(Records::none()),
            _ => None,
        }
    }
}

/// How far a task is.
#[derive(Clone, Copy)]
pub(crate) struct Reach {
    pub(crate) task: Task,
    pub(crate) bytes: u64,
    /// How many bytes there are, if that is known.
    pub(crate) total: Option<u64>,
    pub(crate) records: Option<Records>,
}

impl Reach {
    /// These bytes went by.
    pub(crate) fn pass(&mut self, bytes: &[u8]) {
        self.bytes = self.bytes.saturating_add(bytes.len() as u64);
        if let Some(records) = &mut self.records {
            records.pass(bytes);
        }
    }
}

impl fmt::Display for Reach {
    fn fmt<W: fmt::Write>(&self, f: &mut fmt::Formatter<W>) -> fmt::Result {
        let task = self.task.text();
        let bytes = Amount(self.bytes);
        write!(f, "sftpv3: {task}: {bytes}")?;
        put_total(self.bytes, self.total, f)?;
        put_records(self.records, f)
    }
}

fn put_total<W: fmt::Write>(
    bytes: u64,
    total: Option<u64>,
    f: &mut fmt::Formatter<W>,
) -> fmt::Result {
    match total {
        Some(total) => {
            let hundredths = percent(bytes, total);
            let total = Amount(total);
            write!(f, " of {total} ({hundredths}%)")
        }
        None => Ok(()),
    }
}

fn put_records<W: fmt::Write>(records: Option<Records>, f: &mut fmt::Formatter<W>) -> fmt::Result {
    match records {
        Some(records) => {
            let count = records.count;
            write!(f, ", {count} records")
        }
        None => Ok(()),
    }
}
