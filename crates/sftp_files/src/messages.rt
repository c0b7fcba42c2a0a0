//! How a run ends: its exit status, and the message that says why.
ghost use Rattle.std.specs.Prelude.{◌≡◌, ◌≢◌, ◌≤◌, IfOk, IfErr};
ghost use Rattle.std.specs.IoError.{error_kind};
ghost use Rattle.std.specs.declared.io.ErrorKind.TheVariants as kinds;
ghost use Rattle.sftp_files.specs.declared.messages.Failure.TheVariants as failures;
ghost use Rattle.sftp_files.specs.Failures.{tree_failure, IsTranscriptFailure, IsUsage};
ghost use Rattle.sftp_files.specs.Failures.{IsUnread, IsUnreadFile, IsUnwritten, IsUnwrittenFile};
ghost use Rattle.sftp_files.specs.Failures.{IsUnreplacedFile, IsUncopiedFile};

use crate::names::Named;
use sftp_path::NoMemory;
use sftp_transcript::TranscriptError;
use sftp_treefile::TreeError;
use std::alloc::{AllocError, Global};
use std::fmt::Display;
use std::io::Write;
use std::{fmt, io};

/// What messages call standard input.
pub const STANDARD_INPUT: &str = "standard input";

/// What messages call standard output.
pub const STANDARD_OUTPUT: &str = "standard output";

/// What the parser of the command line adds to a message about bad usage.
pub const MORE: &str = "\nFor more information, try '--help'.\n";

/// The system's number for a directory in the place of a file.
pub(crate) const IS_A_DIRECTORY: i32 = 21;

/// What takes a directory.
const TAKES_FOLDERS: &str =
    "; sftpv3-audits judges a folder of recordings, and sftpv3-tree makes a tree file of a folder";

/// What messages call the file `name` that is read: `-` is standard input.
pub fn input_name(name: &str) -> &str {
    if name == "-" { STANDARD_INPUT } else { name }
}

/// The outcome of a run that did what was asked, or that has said itself why it did not.
#[derive(Clone, Copy)]
pub enum Ending {
    /// The session was served or is accepted, the file was written, the text was shown, or the trees are the same.
    Done,
    /// The session is refused.
    Refused,
    /// The client broke the protocol, and standard error says how.
    Broken,
    /// The trees differ.
    Different,
    /// Nothing of the file is what was asked for.
    Unmatched,
    /// A file is malformed, and standard error says so, and where.
    Explained,
}

/// Why a run did not do what was asked.
#[derive(Drop)]
pub enum Failure<'a> {
    /// Bad usage. The text is the parser's, and ends in a line feed.
    Usage(String),
    /// The tree file is malformed.
    Tree(TreeError),
    /// The tree file with this name is malformed.
    TreeOf(&'a str, TreeError),
    /// The transcript is malformed.
    Transcript(TranscriptError),
    /// A text or an archive is malformed. The message says where and why.
    Text(String),
    /// The file is neither a transcript nor a tree file.
    UnknownFile,
    /// The file or stream with this name cannot be read. The number is the system's for the error, if it gave one.
    CannotRead(&'a str, Option<i32>),
    /// The file or stream with this name cannot be written. The number is the system's for the error, if it gave one.
    CannotWrite(&'a str, Option<i32>),
    /// The file with this name cannot be replaced, and is unchanged. The number is the system's for the error, if it
    /// gave one.
    CannotReplace(&'a str, Option<i32>),
    /// The file with this name cannot be read twice, and no copy of it can be kept. The number is the system's for the
    /// error, if it gave one.
    CannotCopy(&'a str, Option<i32>),
    /// The file with this name is not written to, for this reason.
    Unfit(&'a str, &'a str),
    /// The file or stream with this name needs more memory than the run may have.
    OverLimit(&'a str),
    /// Memory ran out.
    OutOfMemory,
    /// So many of so many transcripts have no verdict; and whether all of these could be read.
    Unjudged(u64, u64, bool),
}

impl Failure<'_> {
    /// How the failure's line begins, and the name that comes next.
    fn beginning(&self) -> (&str, &str) {
        match self {
            Failure::Usage(text) => (text.as_str(), ""),
            Failure::Text(_) => ("sftpv3: ", ""),
            Failure::Tree(_) => ("sftpv3: tree: ", ""),
            Failure::TreeOf(name, _) => ("sftpv3: tree ", input_name(name)),
            Failure::Transcript(_) => ("sftpv3: transcript: ", ""),
            Failure::UnknownFile => ("sftpv3: unknown file", ""),
            Failure::CannotRead(name, _) => ("sftpv3: cannot read ", input_name(name)),
            Failure::CannotWrite(name, _) => ("sftpv3: cannot write ", name),
            Failure::CannotReplace(name, _) => ("sftpv3: cannot write ", name),
            Failure::CannotCopy(name, _) => ("sftpv3: cannot keep a copy of ", input_name(name)),
            Failure::Unfit(name, _) => ("sftpv3: cannot write ", name),
            Failure::OverLimit(name) => ("sftpv3: out of memory: ", input_name(name)),
            Failure::OutOfMemory => ("sftpv3: out of memory", ""),
            Failure::Unjudged(..) => ("sftpv3: ", ""),
        }
    }

    /// Writes the fault of a file or a text, or the reason, if the failure has one.
    fn put_fault<W: fmt::Write>(&self, f: &mut fmt::Formatter<W>) -> fmt::Result {
        match self {
            Failure::Tree(fault) => write!(f, "{fault}"),
            Failure::TreeOf(_, fault) => write!(f, ": {fault}"),
            Failure::Transcript(fault) => write!(f, "{fault}"),
            Failure::Text(text) => f.write_str(text.as_str()),
            Failure::CannotCopy(..) => f.write_str(
                ", which cannot be read twice, in TMPDIR or /tmp",
            ),
            Failure::Unfit(_, reason) => write!(f, ": {reason}"),
            Failure::OverLimit(_) => f.write_str(" needs more than '--memory' allows"),
            Failure::Unjudged(count, all, _) => {
                write!(f, "{count} of {all} transcripts have no verdict")
            }
            _ => Ok(()),
        }
    }
}

// `thiserror` would write each text by itself, which is slow to prove.
impl fmt::Display for Failure<'_> {
    fn fmt<W: fmt::Write>(&self, f: &mut fmt::Formatter<W>) -> fmt::Result {
        let (start, name) = self.beginning();
        f.write_str(start)?;
        write!(f, "{}", Named(name))?;
        self.put_fault(f)
    }
}

impl Ending {
    ghost use Rattle.sftp_files.specs.Failures.{ending_status};

    /// The exit status.
    pub fn status(self) -> u8
        ensures by_ending { result ≡ ending_status self }
        ensures bound { result ≤ 2 }
    {
        match self {
            Ending::Done => 0,
            Ending::Refused => 1,
            Ending::Broken => 1,
            Ending::Different => 1,
            Ending::Unmatched => 1,
            Ending::Explained => 2,
        }
    }
}

impl Failure<'_> {
    ghost use Rattle.sftp_files.specs.Failures.{failure_status};

    /// The exit status.
    pub fn status(&self) -> u8
        ensures by_failure { result ≡ failure_status self.now }
        ensures bound { result ≤ 3 }
    {
        match self {
            Failure::Usage(_)
            | Failure::Tree(_)
            | Failure::TreeOf(..)
            | Failure::Transcript(_)
            | Failure::Text(_)
            | Failure::UnknownFile => 2,
            Failure::CannotRead(..) | Failure::CannotWrite(..) => 3,
            Failure::CannotReplace(..) | Failure::CannotCopy(..) | Failure::Unfit(..) => 3,
            Failure::OverLimit(_) | Failure::OutOfMemory => 3,
            Failure::Unjudged(_, _, are_read) => if *are_read { 2 } else { 3 },
        }
    }
}

impl<'a> Failure<'a> {
    ghost use Rattle.sftp_files.specs.Failures.{failure_status};

    /// Why the file `name` could not be read. When memory runs out, the file is not to blame.
    pub fn reading(name: &'a str, error: &io::Error) -> Failure<'a>
        ensures memory { error_kind error.now ≡ kinds.OutOfMemory → result ≡ failures.OutOfMemory }
        ensures file { error_kind error.now ≢ kinds.OutOfMemory → IsUnreadFile name.now result }
        ensures unread { IsUnread result }
        ensures status { failure_status result ≡ 3 }
    {
        match error.kind() {
            io::ErrorKind::OutOfMemory => Failure::OutOfMemory,
            _ => Failure::CannotRead(name, error.raw_os_error()),
        }
    }

    /// Why the file or stream `name` could not be written. When memory runs out, the file is not to blame.
    pub fn writing(name: &'a str, error: &io::Error) -> Failure<'a>
        ensures memory { error_kind error.now ≡ kinds.OutOfMemory → result ≡ failures.OutOfMemory }
        ensures file { error_kind error.now ≢ kinds.OutOfMemory → IsUnwrittenFile name.now result }
        ensures unwritten { IsUnwritten result }
    {
        match error.kind() {
            io::ErrorKind::OutOfMemory => Failure::OutOfMemory,
            _ => Failure::CannotWrite(name, error.raw_os_error()),
        }
    }

    /// Why the file `name` could not be replaced. It is unchanged. When memory runs out, the file is not to blame.
    pub fn replacing(name: &'a str, error: &io::Error) -> Failure<'a>
        ensures memory { error_kind error.now ≡ kinds.OutOfMemory → result ≡ failures.OutOfMemory }
        ensures file { error_kind error.now ≢ kinds.OutOfMemory → IsUnreplacedFile name.now result }
        ensures unwritten { IsUnwritten result }
    {
        match error.kind() {
            io::ErrorKind::OutOfMemory => Failure::OutOfMemory,
            _ => Failure::CannotReplace(name, error.raw_os_error()),
        }
    }

    /// Why no copy of the file `name` can be kept. When memory runs out, the file is not to blame.
    pub fn copying(name: &'a str, error: &io::Error) -> Failure<'a>
        ensures memory { error_kind error.now ≡ kinds.OutOfMemory → result ≡ failures.OutOfMemory }
        ensures file { error_kind error.now ≢ kinds.OutOfMemory → IsUncopiedFile name.now result }
        ensures status { failure_status result ≡ 3 }
    {
        match error.kind() {
            io::ErrorKind::OutOfMemory => Failure::OutOfMemory,
            _ => Failure::CannotCopy(name, error.raw_os_error()),
        }
    }
}

impl<'a> Failure<'a> {
    /// Why the transcript in the file `name` is not read to its end. When its source fails, the file cannot be read;
    /// when memory runs out, the file is not to blame.
    pub fn of_transcript(error: TranscriptError, name: &'a str) -> Failure<'a>
        ensures { IsTranscriptFailure name.now error result }
    {
        match error {
            TranscriptError::NoMemory => Failure::OutOfMemory,
            TranscriptError::Io { .. } => Failure::CannotRead(name, None),
            fault => Failure::Transcript(fault),
        }
    }
}

impl Failure<'_> {
    ghost use Rattle.sftp_files.specs.Failures.{failure_status};

    /// Bad usage with this message, unless there is no memory for it.
    pub fn of_usage(message: Result<String, AllocError>) -> Self
        ensures { IsUsage result }
    {
        match message {
            Ok(message) => Failure::Usage(message),
            Err(_) => Failure::OutOfMemory,
        }
    }

    /// Bad usage, as this message says: options that cannot be used together, or one that is missing.
    pub fn of_misuse(alloc: Global, message: &str) -> Self
        ensures { IsUsage result }
    {
        Failure::of_usage(format!(in alloc; "error: {message}\n{MORE}"))
    }

    /// A malformed text or archive with this message, unless there is no memory for it.
    pub fn of_text(message: Result<String, AllocError>) -> Self
        ensures { 2 ≤ failure_status result }
    {
        match message {
            Ok(message) => Failure::Text(message),
            Err(_) => Failure::OutOfMemory,
        }
    }
}

impl From<NoMemory> for Failure<'_> {
    ghost from_gives = { λ _ failure. failure ≡ failures.OutOfMemory };

    fn from(_error: NoMemory) -> Self {
        Failure::OutOfMemory
    }
}

impl From<AllocError> for Failure<'_> {
    ghost from_gives = { λ _ failure. failure ≡ failures.OutOfMemory };

    fn from(_error: AllocError) -> Self {
        Failure::OutOfMemory
    }
}

impl From<TreeError> for Failure<'_> {
    ghost from_gives = { λ error failure. failure ≡ tree_failure error };

    fn from(error: TreeError) -> Self {
        match error {
            TreeError::NoMemory => Failure::OutOfMemory,
            fault => Failure::Tree(fault),
        }
    }
}

/// Writes the line of a failure, and a second one with what else is known of it. If the stream cannot be written, there
/// is nothing left to do.
pub fn report<E: Write>(errors: &mut E, failure: &Failure<'_>) {
    let _ = match failure {
        Failure::Usage(text) => write_flushed(errors, text.as_str()),
        other => write_flushed(errors, format_args!("{other}\n")),
    };
    let _ = report_details(errors, failure);
}

/// Writes what the system says of a failure, if that is known, and that a file is unchanged.
fn report_details<E: Write>(errors: &mut E, failure: &Failure<'_>) -> io::Result<()> {
    match failure {
        Failure::CannotRead(_, Some(code)) => put_reason(errors, *code, advice_on_reading(*code)),
        Failure::CannotWrite(_, Some(code)) => put_reason(errors, *code, ""),
        Failure::CannotCopy(_, Some(code)) => put_reason(errors, *code, ""),
        Failure::CannotReplace(_, Some(code)) => {
            put_reason(errors, *code, "; the file is unchanged")
        }
        Failure::CannotReplace(_, None) => {
            write_flushed(errors, "sftpv3: the file is unchanged\n")
        }
        _ => Ok(()),
    }
}

/// What a message adds to the system's error of this number where a file is read: what takes a folder, if it is one.
pub fn advice_on_reading(code: i32) -> &'static str {
    if code == IS_A_DIRECTORY {
        TAKES_FOLDERS
    } else {
        ""
    }
}

/// Writes what the system's error of this number means, and then its effect.
fn put_reason<E: Write>(errors: &mut E, code: i32, effect: &str) -> io::Result<()> {
    let reason = io::Error::from_raw_os_error(code);
    write_flushed(errors, format_args!("sftpv3: reason: {reason}{effect}\n"))
}

/// Writes a text and flushes it.
pub fn write_flushed<W: Write, D: Display + Drop>(stream: &mut W, text: D) -> io::Result<()> {
    write!(stream, "{text}")?;
    stream.flush()?;
    Ok(())
}

/// Prints a text on standard output, as the last step of a run that ends so.
pub fn print<'a, O: Write, D: Display + Drop>(
    output: &mut O,
    text: D,
    ending: Ending,
) -> Result<Ending, Failure<'a>>
    ensures ok { IfOk result (λ ended. ended ≡ ending) }
    ensures err { IfErr result IsUnwritten }
{
    match write_flushed(output, text) {
        Ok(()) => Ok(ending),
        Err(error) => Err(Failure::writing(STANDARD_OUTPUT, &error)),
    }
}
