//! What can be asked of every request: the files that it reads, and how it wants to be told of faults.
use crate::command_line::Request;

impl<'a> Request<'a> {
    /// Whether a request wants JSON.
    pub fn is_for_machines(&self) -> bool {
        match self {
            Request::Audit(files) => files.is_json,
            Request::AuditEach(options) => options.asked.is_json,
            Request::AuditTogether(options) => options.is_json,
            Request::Infer(options) => options.is_json,
            Request::Show(options) => options.is_json,
            Request::Diff { form, .. } => form.is_json,
            _ => false,
        }
    }

    /// The tree file that a request reads, if it reads no other.
    pub fn tree(&self) -> Option<&'a str> {
        match self {
            Request::Serve(options, _) => Some(options.tree),
            Request::Audit(files) => Some(files.tree),
            Request::AuditEach(options) => Some(options.asked.tree),
            Request::AuditTogether(options) => Some(options.tree),
            Request::Raise { tree, .. } => Some(*tree),
            Request::Export { file, .. } => Some(*file),
            _ => self.shown(),
        }
    }

    /// The transcript that a request reads.
    pub fn transcript(&self) -> Option<&'a str> {
        match self {
            Request::Serve(options, _) => options.replay,
            Request::Audit(files) => Some(files.transcript),
            Request::Infer(options) => Some(options.transcript),
            _ => self.shown(),
        }
    }

    /// The file that a request shows.
    pub fn shown(&self) -> Option<&'a str> {
        match self {
            Request::Show(options) => Some(options.file),
            _ => None,
        }
    }

    /// The tree file and the transcript whose faults the request wants explained.
    pub fn explained_files(&self) -> Option<(&'a str, &'a str)> {
        match self {
            Request::Audit(files) if files.explains => Some((files.tree, files.transcript)),
            Request::Infer(options) if options.explains => {
                Some((options.transcript, options.transcript))
            }
            Request::Show(options) if options.explains => Some((options.file, options.file)),
            _ => None,
        }
    }
}
