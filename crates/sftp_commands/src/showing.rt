//! The subcommand `show`: what a transcript or a tree file holds, as lines of text.
ghost use Rattle.std.specs.Prelude.{◌≡◌, IfOk};
ghost use Rattle.sftp_files.specs.declared.messages.Ending.TheVariants as endings;

use crate::objects::printed;
use crate::trees::rows_of;
use sftp_files::{Ending, Failure, open};
use sftp_show::{ShowError, show_transcript, show_tree};
use sftp_transcript::{OPENING, Reader, Tally};
use sftp_treefile::{TreeError, TreeFile};
use std::alloc::Global;
use std::fs::Files;
use std::io::{Read, Write};

/// Shows a file. Its first bytes say which kind it is, and then it is read as a stream.
pub(crate) fn show<'a, R: Files + AllocGlobal, O: Write>(
    rt: &R,
    name: &'a str,
    output: &mut O,
) -> Result<Ending, Failure<'a>>
    ensures { IfOk result (λ ending. ending ≡ endings.Done) }
{
    let mut file = open(rt, name)?;
    let shown = show_file(rt.alloc(), name, &mut file, output);
    drop(file);
    outcome(shown, printed(output.flush()))
}

/// The outcome of a run by how a file was shown and printed. A failure to print comes before one to show.
pub(crate) fn outcome<'a>(
    shown: Result<(), Failure<'a>>,
    printed: Result<(), Failure<'a>>,
) -> Result<Ending, Failure<'a>>
    ensures { IfOk result (λ ending. ending ≡ endings.Done) }
{
    match printed {
        Ok(()) => match shown {
            Ok(()) => Ok(Ending::Done),
            Err(failure) => Err(failure),
        },
        Err(failure) => {
            drop(shown);
            Err(failure)
        }
    }
}

fn show_file<'a, F: Read, O: Write>(
    alloc: Global,
    name: &'a str,
    file: &mut F,
    output: &mut O,
) -> Result<(), Failure<'a>> {
    let mut bytes = Vec::new(alloc);
    let shown = show_by_opening(alloc, name, file, &mut bytes, output);
    drop(bytes);
    shown
}

/// Shows a file whose first bytes go into an empty buffer.
fn show_by_opening<'a, F: Read, O: Write>(
    alloc: Global,
    name: &'a str,
    file: &mut F,
    bytes: &mut Vec<u8>,
    output: &mut O,
) -> Result<(), Failure<'a>> {
    match is_transcript_read(name, file, bytes) {
        Ok(true) => show_records(alloc, name, bytes.as_slice().chain(file), output),
        Ok(false) => show_rows(alloc, name, bytes.as_slice().chain(file), output),
        Err(failure) => Err(failure),
    }
}

/// Appends as many bytes of the file `name` to an empty buffer as the opening of a transcript has. Returns whether they
/// are that.
pub(crate) fn is_transcript_read<'a, F: Read>(
    name: &'a str,
    file: &mut F,
    bytes: &mut Vec<u8>,
) -> Result<bool, Failure<'a>> {
    let mut opening = file.by_ref().take(OPENING.len() as u64);
    match opening.read_to_end(bytes) {
        Ok(_) => Ok(bytes.as_slice() == OPENING.as_slice()),
        Err(error) => Err(Failure::reading(name, &error)),
    }
}

fn show_records<'a, F: Read + Drop, O: Write>(
    alloc: Global,
    name: &'a str,
    file: F,
    output: &mut O,
) -> Result<(), Failure<'a>> {
    match Reader::new(alloc, Tally::new(file)) {
        Ok(mut records) => {
            let shown = show_transcript(&mut records, output);
            drop(records);
            shown_or_failure(shown, name)
        }
        Err(error) => Err(Failure::of_transcript(error, name)),
    }
}

/// How the transcript `name` was shown, as a failure of the run if it is one.
fn shown_or_failure<'a>(shown: Result<(), ShowError>, name: &'a str) -> Result<(), Failure<'a>> {
    match shown {
        Ok(()) => Ok(()),
        Err(ShowError::Transcript(error)) => Err(Failure::of_transcript(error, name)),
        Err(ShowError::Output(error)) => printed(Err(error)),
    }
}

fn show_rows<'a, F: Read + Drop, O: Write>(
    alloc: Global,
    name: &'a str,
    file: F,
    output: &mut O,
) -> Result<(), Failure<'a>> {
    let file = shown_tree(alloc, name, file)?;
    let shown = show_tree(&file, output);
    drop(file);
    printed(shown)
}

/// What the file `name`, which is no transcript, says as a tree file.
pub(crate) fn shown_tree<'a, F: Read + Drop>(
    alloc: Global,
    name: &'a str,
    file: F,
) -> Result<TreeFile, Failure<'a>> {
    match rows_of(alloc, name, u64::MAX, file)? {
        Ok(file) => Ok(file),
        Err(TreeError::Magic { .. }) => Err(Failure::UnknownFile),
        Err(error) => Err(Failure::from(error)),
    }
}
