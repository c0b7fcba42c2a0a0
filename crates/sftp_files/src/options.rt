//! What the command line asks for of subcommands that judge no session: which files, and what is done with them.
use crate::saving::Keeping;
use sftp_tar::Taking;

/// The options of `serve`.
#[derive(Clone, Copy)]
pub struct ServeOptions<'a> {
    /// The name of the tree file that the session starts from.
    pub tree: &'a str,
    /// The name of the file to write the final tree to.
    pub save: Option<&'a str>,
    /// The name of the file to record the session in.
    pub record: Option<&'a str>,
    /// The seed of a pseudorandom order of work and replies. Without it both follow the order of the requests.
    pub shuffle: Option<u64>,
    /// The name of the transcript whose order of requests and replies the session follows.
    pub replay: Option<&'a str>,
    /// Whether standard error says when the session opens and how it ends.
    pub is_verbose: bool,
    /// The most bytes of memory that the process may have.
    pub memory: Option<u64>,
    /// How the files are written.
    pub keeping: Keeping,
}

/// The options of `show`.
#[derive(Clone, Copy)]
pub struct ShowOptions<'a> {
    /// The name of the transcript or the tree file.
    pub file: &'a str,
    /// Whether the lines have every field of the file.
    pub is_full: bool,
    /// How many bytes of each text these lines have: a number, or `all`.
    pub data: Option<&'a str>,
    /// Whether standard error says where a malformed file has its fault.
    pub explains: bool,
    /// The most bytes of memory that the whole text may take.
    pub memory: Option<u64>,
    /// The name of the file of times beside the transcript.
    pub times: Option<&'a str>,
    /// The id of the packets that are shown.
    pub id: Option<u64>,
    /// The path of the requests that are shown, in which bytes may be escaped.
    pub path: Option<&'a str>,
    /// The handle of what is shown, in which bytes may be escaped.
    pub handle: Option<&'a str>,
    /// The range of the records that are shown: numbers with `-` between them.
    pub records: Option<&'a str>,
    /// Whether requests alone are shown, each together with its reply.
    pub in_pairs: bool,
    /// Whether replies that overtook another are marked, with no other option that marks them.
    pub marks: bool,
    /// Whether the file is shown as JSON.
    pub is_json: bool,
    /// The expression that exchanges have to meet.
    pub filter: Option<&'a str>,
    /// The path of the file that is followed through its handles, in which bytes may be escaped.
    pub handle_of: Option<&'a str>,
    /// Whether a request and its reply are on one line.
    pub in_exchanges: bool,
    /// Whether figures of the session are shown.
    pub in_figures: bool,
}

/// The options of `import`.
#[derive(Clone, Copy)]
pub struct ImportOptions<'a> {
    /// The tree file to write.
    pub file: &'a str,
    /// How it is written.
    pub keeping: Keeping,
    /// The most bytes of memory that the process may have.
    pub memory: Option<u64>,
    /// How the archive is taken.
    pub taking: Taking,
}

/// The limits that `raise` gives a tree.
#[derive(Clone, Copy)]
pub enum RaiseTo {
    /// The highest that old programs read, or those of the tree where they are higher.
    Highest,
    /// The lowest that hold the tree.
    Fit,
    /// The highest that there are.
    Most,
}

/// What `diff` compares of two trees, and how it tells what differs.
#[derive(Clone, Copy)]
pub struct DiffForm {
    /// Whether times are compared, too.
    pub with_times: bool,
    /// Whether the lines are JSON objects.
    pub is_json: bool,
}
