//! The arguments of the subcommands: a table for each, from which the parser and the help follow.

use crate::{importing, profiles};
use sftp_vary::NAMES;

/// An argument of a subcommand: its name, its form, and what the help says of it.
pub(crate) type Argument<'a> = (&'a str, Form<'a>, &'a str);

/// How an argument is given. The first text of a form is what help calls the value.
#[derive(Clone, Copy)]
pub(crate) enum Form<'a> {
    /// `--NAME`.
    Flag,
    /// `VALUE`, which has to be given.
    Place(&'a str),
    /// `VALUE`, any number of times.
    Places(&'a str),
    /// `--NAME VALUE`, which has to be given.
    Required(&'a str),
    /// `--NAME VALUE`.
    Optional(&'a str),
    /// `--NAME VALUE`, which is a number below 2^64.
    Number(&'a str),
    /// `--NAME VALUE`, which is one of these.
    OneOf(&'a str, &'a [&'a str]),
    /// `--NAME VALUE,...`, which are some of these.
    SomeOf(&'a str, &'a [&'a str]),
    /// `--NAME VALUE`, which needs the argument of this name and can be given with none of those.
    With(&'a str, &'a str, &'a [&'a str]),
    /// The same of a number below 2^64.
    NumberWith(&'a str, &'a str, &'a [&'a str]),
    /// The same of several values.
    Several(&'a str, &'a str, &'a [&'a str]),
}

const FILE: Form = Form::Place("FILE");

const TREE: Argument = (
    "tree",
    Form::Required("FILE"),
    "The tree file: the tree at the start of the session",
);

const MODE: Argument = (
    "mode",
    Form::OneOf("OCTAL", &["0600", "0640", "0644", "0660", "0664"]),
    "The permissions of a file that is made new, 0600 by default",
);

const NO_SYNC: Argument = (
    "no-sync",
    Form::Flag,
    "Do not wait until what is written is on the disk",
);

/// The option by which a run says how far it is where nobody looks on.
const PROGRESS: Argument = (
    "progress",
    Form::Flag,
    "Print on standard error how far it is, also where that is no terminal",
);

const MEMORY: Argument = (
    "memory",
    Form::Number("BYTES"),
    "End as if memory ran out once more than these bytes are taken",
);

pub(crate) const SERVE: &[Argument] = &[
    TREE,
    (
        "save",
        Form::Optional("FILE"),
        "The file to write the final tree to",
    ),
    (
        "record",
        Form::Optional("FILE"),
        "The file to record the session in, for audit",
    ),
    (
        "shuffle",
        Form::Number("N"),
        "Do and answer the requests that have arrived in a pseudorandom order, which N chooses",
    ),
    (
        "replay",
        Form::Optional("FILE"),
        "Await requests and send replies in the order of this transcript",
    ),
    (
        "vary",
        Form::Number("N"),
        "Use what the draft leaves free to a server, pseudorandomly, fixed by N",
    ),
    (
        "only",
        Form::SomeOf("NAME,...", NAMES),
        "With --vary: the freedoms to use",
    ),
    (
        "wild",
        Form::Flag,
        "With --vary: texts and long names of any bytes, which the draft does not allow",
    ),
    (
        "texts",
        Form::Flag,
        "Say in the message of each refusal why, and which limit of the tree was met",
    ),
    (
        "long-names",
        Form::Flag,
        "Give directories with lines as 'ls -l' writes them",
    ),
    (
        "times",
        Form::Flag,
        "Keep times of access and modification, and show them",
    ),
    (
        "verbose",
        Form::Flag,
        "Print on standard error when the session opens and how it ends",
    ),
    MEMORY,
    MODE,
    NO_SYNC,
];

/// What cannot be asked of sessions that are judged together.
const NOT_TOGETHER: &[&str] = &[
    "transcript",
    "transcripts-from",
    "files",
    "explain",
    "cut",
    "keep-going",
    "most",
    "progress",
    "memory",
];

pub(crate) const AUDIT: &[Argument] = &[
    TREE,
    (
        "transcript",
        Form::Optional("FILE"),
        "The transcript: the recorded packets of the session",
    ),
    (
        "transcripts-from",
        Form::Optional("LIST"),
        "A file with the name of a transcript on each line; each is audited, and has a line of its own",
    ),
    (
        "together",
        Form::Several("FILE", "order", NOT_TOGETHER),
        "NAME.transcript and NAME.times of sessions that overlapped, which are judged together",
    ),
    (
        "order",
        Form::With("FILE", "together", NOT_TOGETHER),
        "With --together: the order of all requests, which is judged",
    ),
    (
        "tolerance",
        Form::NumberWith("US", "together", NOT_TOGETHER),
        "With --together: how many microseconds times of two sessions may be wrong, 0 by default",
    ),
    (
        "out",
        Form::Optional("FILE"),
        "The file to write the final tree to, if the session is accepted",
    ),
    (
        "explain",
        Form::Flag,
        "Print on standard error why the session is refused, or where a file is malformed",
    ),
    (
        "json",
        Form::Flag,
        "Print the verdict, the explanation or the failure as a JSON object",
    ),
    (
        "cut",
        Form::Flag,
        "Accept a session that was cut: what comes before its oldest unanswered request is judged",
    ),
    (
        "keep-going",
        Form::Flag,
        "Go on after wrong replies that changed nothing, and print all findings",
    ),
    (
        "most",
        Form::Number("N"),
        "With --keep-going: the most findings, 100 by default",
    ),
    profiles::PROFILE,
    profiles::ALLOW,
    profiles::EXCEPT,
    profiles::UMASK,
    profiles::NEW_OWNER,
    profiles::SYMLINK,
    PROGRESS,
    MEMORY,
    MODE,
    NO_SYNC,
    (
        "files",
        Form::Places("FILE"),
        "Transcripts; each is audited, and has a line of its own",
    ),
];

pub(crate) const INFER: &[Argument] = &[
    (
        "transcript",
        Form::Required("FILE"),
        "The transcript: the recorded packets of the session",
    ),
    (
        "out",
        Form::Optional("FILE"),
        "The file to write the final tree to, if the session is accepted",
    ),
    (
        "best",
        Form::Optional("FILE"),
        "The file to write the tree to that came furthest, if none is found",
    ),
    (
        "home",
        Form::Optional("PATH"),
        "Where relative paths begin, if the session does not tell it",
    ),
    (
        "limits",
        Form::OneOf("WHICH", &["fit", "raised"]),
        "The limits of the tree: fit by default, the lowest that the session needs, or raised",
    ),
    (
        "passes",
        Form::Number("N"),
        "The most passes over the session, 3000 by default",
    ),
    (
        "explain",
        Form::Flag,
        "Print on standard error which records contradict each other, or where the transcript is malformed",
    ),
    (
        "json",
        Form::Flag,
        "Print the verdict or the failure as one JSON object",
    ),
    profiles::PROFILE,
    profiles::ALLOW,
    profiles::EXCEPT,
    profiles::UMASK,
    profiles::NEW_OWNER,
    profiles::SYMLINK,
    (
        "memory",
        Form::Number("BYTES"),
        "The most bytes that the transcript and the files of the session may have together",
    ),
    MODE,
    NO_SYNC,
    (
        "tree",
        Form::Place("TREE"),
        "The tree file to write, if the session is accepted with it",
    ),
];

pub(crate) const SHOW: &[Argument] = &[
    (
        "full",
        Form::Flag,
        "Print each field that the file holds, as text that 'make' reads",
    ),
    (
        "data",
        Form::Optional("N|all"),
        "With --full, --json or --exchanges: cut each text after N bytes, 256 by default, or print all",
    ),
    (
        "json",
        Form::Flag,
        "Print a JSON object for each record or entry, with each field that it holds",
    ),
    (
        "times",
        Form::Optional("FILE"),
        "The file of times beside the transcript: print when each record was there",
    ),
    (
        "id",
        Form::Number("N"),
        "Only requests and replies with this id",
    ),
    (
        "path",
        Form::Optional("PATH"),
        "Only requests with this path, and their replies",
    ),
    (
        "handle",
        Form::Optional("HANDLE"),
        "Only requests with this handle, their replies, and the replies that give it",
    ),
    (
        "records",
        Form::Optional("A-B"),
        "Only the records with these numbers",
    ),
    (
        "pairs",
        Form::Flag,
        "Only requests, each followed by its reply, in the order of the replies",
    ),
    (
        "exchanges",
        Form::Flag,
        "Print a request and its reply on one line, with each field by its name",
    ),
    (
        "where",
        Form::Optional("EXPRESSION"),
        "Only requests, each with its reply, that meet this, such as 'READ && reply == EOF'",
    ),
    (
        "handle-of",
        Form::Optional("PATH"),
        "Only OPENs and OPENDIRs of this path and requests through their handles, with their replies",
    ),
    (
        "stat",
        Form::Flag,
        "Print how many requests of each kind there are, their bytes, and how long they took",
    ),
    (
        "overtaken",
        Form::Flag,
        "Mark each reply that came before the reply to an earlier request",
    ),
    (
        "explain",
        Form::Flag,
        "Print on standard error where a malformed file is so",
    ),
    MEMORY,
    ("file", FILE, "The transcript or the tree file"),
];

pub(crate) const DIFF: &[Argument] = &[
    (
        "json",
        Form::Flag,
        "Print a JSON object for each line, and for a failure",
    ),
    (
        "times",
        Form::Flag,
        "Compare the times of access and of modification, too",
    ),
    PROGRESS,
    MEMORY,
    ("old", Form::Place("A"), "The tree file of before"),
    ("new", Form::Place("B"), "The tree file of after"),
];

pub(crate) const MAKE: &[Argument] = &[MODE, NO_SYNC, ("file", FILE, "The file to write")];

pub(crate) const IMPORT: &[Argument] = &[
    importing::LIMITS,
    importing::SPECIAL,
    importing::NO_TIMES,
    PROGRESS,
    MEMORY,
    MODE,
    NO_SYNC,
    ("file", Form::Place("TREE"), "The tree file to write"),
];

pub(crate) const EXPORT: &[Argument] = &[PROGRESS, ("file", FILE, "The tree file")];

pub(crate) const BLANK: &[Argument] = &[MODE, NO_SYNC, ("file", FILE, "The file to write")];

pub(crate) const RAISE: &[Argument] = &[
    (
        "to",
        Form::OneOf("WHICH", &["highest", "fit", "most"]),
        "The limits of FILE: highest by default, fit, the lowest that hold the tree, or most",
    ),
    MODE,
    NO_SYNC,
    ("tree", Form::Place("TREE"), "The tree file to read"),
    ("file", FILE, "The file to write"),
];
