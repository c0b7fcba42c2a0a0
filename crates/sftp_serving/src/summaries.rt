//! What `serve --verbose` says of the end of a session.
use crate::replaying::Parting;
use sftp_files::Flow;
use sftp_server::{SessionFault, Stream};
use std::fmt;

/// How a session ended.
#[derive(Clone, Copy)]
pub(crate) enum Close {
    /// The input ended, and each request was answered.
    Finished,
    /// The client broke the protocol.
    Fault(SessionFault),
    /// This stream failed.
    Io(Stream),
    /// Memory ran out.
    NoMemory,
}

impl fmt::Display for Close {
    fn fmt<W: fmt::Write>(&self, f: &mut fmt::Formatter<W>) -> fmt::Result {
        match self {
            Close::Finished => f.write_str("the input ended"),
            Close::Fault(_) => f.write_str("the client broke the protocol"),
            Close::Io(_) => f.write_str("a stream failed"),
            Close::NoMemory => f.write_str("out of memory"),
        }
    }
}

/// How many requests a session took, and what went through its streams.
#[derive(Clone, Copy)]
pub(crate) struct Traffic {
    pub(crate) requests: u64,
    pub(crate) input: Flow,
    pub(crate) output: Flow,
    pub(crate) record: Flow,
    /// Whether the process had more memory than it may.
    pub(crate) is_over: bool,
    /// How far the session followed a recorded one, if there is one.
    pub(crate) parting: Option<Parting>,
}

/// How a session ended, and what it left.
#[derive(Clone, Copy)]
pub(crate) struct Summary {
    pub(crate) close: Close,
    pub(crate) traffic: Traffic,
    /// How many entries the tree has, if they were counted.
    pub(crate) entries: Option<u32>,
    pub(crate) is_saved: bool,
}

impl fmt::Display for Summary {
    fn fmt<W: fmt::Write>(&self, f: &mut fmt::Formatter<W>) -> fmt::Result {
        let close = self.close;
        let requests = self.traffic.requests;
        let read = self.traffic.input.bytes;
        let written = self.traffic.output.bytes;
        write!(
            f,
            "session ended: {close}, {requests} requests, {read} bytes read, {written} bytes written"
        )?;
        self.put_tree(f)
    }
}

impl Summary {
    /// Writes how many entries the tree has, if they were counted, and whether it was saved.
    fn put_tree<W: fmt::Write>(&self, f: &mut fmt::Formatter<W>) -> fmt::Result {
        let saved = if self.is_saved { "saved" } else { "not saved" };
        match self.entries {
            Some(entries) => write!(f, ", {entries} entries, {saved}"),
            None => write!(f, ", {saved}"),
        }
    }
}
