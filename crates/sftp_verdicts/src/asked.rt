//! What the command line asks for of the subcommands that judge a session: which files, and by which profile.
use sftp_files::Keeping;
use sftp_profile::Profile;

/// Why no tree is written.
pub const TRANSCRIPT_LOST: &str = "the tree would be written into the file of '--transcript'";

/// The options of `audit`.
#[derive(Clone, Copy)]
pub struct AuditOptions<'a> {
    /// The tree file that the session starts from.
    pub tree: &'a str,
    /// The recorded bytes of the session.
    pub transcript: &'a str,
    /// The file to write the final tree to.
    pub out: Option<&'a str>,
    /// How that file is written.
    pub keeping: Keeping,
    /// The most bytes of memory that the process may have.
    pub memory: Option<u64>,
    /// Whether standard error explains a refusal, or where a file is malformed.
    pub explains: bool,
    /// Whether the verdict is a JSON object.
    pub is_json: bool,
    /// Whether a session that was cut is accepted if what comes before its oldest unanswered request is right.
    pub cuts: bool,
    /// Whether the audit goes on behind wrong replies that changed nothing.
    pub keeps_going: bool,
    /// The most findings of such an audit.
    pub most: Option<u64>,
    /// Which departures from the strict reading are accepted; none where the session is judged strictly.
    pub profile: Option<Profile>,
    /// The permissions that are taken from whatever is made, as octal digits.
    pub umask: Option<&'a str>,
    /// Whether standard error says how far the audit is, also where it is no terminal.
    pub says_progress: bool,
    /// Whether what is said of the session begins with the name of its transcript.
    pub is_named: bool,
}

impl<'a> AuditOptions<'a> {
    /// The name of the transcript, if what is said of the session begins with it.
    pub fn shown_name(&self) -> Option<&'a str> {
        if self.is_named {
            Some(self.transcript)
        } else {
            None
        }
    }
}

/// The options of `audit` with several transcripts.
#[derive(Drop)]
pub struct EachOptions<'a> {
    /// The options of the audit of each. The transcript is that of `--transcript`; without that option it has no name.
    pub asked: AuditOptions<'a>,
    /// The names of transcripts.
    pub names: Vec<&'a str>,
    /// The name of a file with further names, one a line.
    pub list: Option<&'a str>,
}

/// The options of `infer`, and those of `audit` that go with them.
#[derive(Clone, Copy)]
pub struct InferOptions<'a> {
    /// The recorded bytes of the session.
    pub transcript: &'a str,
    /// The file to write the tree at the start to.
    pub tree: Option<&'a str>,
    /// The file to write the tree of the pass that came furthest to.
    pub best: Option<&'a str>,
    /// The file to write the final tree to.
    pub out: Option<&'a str>,
    /// How these files are written.
    pub keeping: Keeping,
    /// The most bytes that the transcript and the files of the session may have together.
    pub memory: Option<u64>,
    /// Whether standard error says which records contradict each other, or where the transcript is malformed.
    pub explains: bool,
    /// Whether the verdict is a JSON object.
    pub is_json: bool,
    /// Which departures from the strict reading are accepted; none where the session is judged strictly.
    pub profile: Option<Profile>,
    /// The permissions that are taken from whatever is made, as octal digits.
    pub umask: Option<&'a str>,
    /// Where relative paths begin.
    pub home: Option<&'a str>,
    /// Whether no limit of the tree is below those of `raise`, also where the session does not need that.
    pub is_raised: bool,
    /// The most passes.
    pub passes: Option<u64>,
}
