//! The files of the sessions of a set, paired by their names: NAME.transcript and NAME.times.

use crate::members::{Given, Member};
use sftp_files::{Failure, MORE, Named, System};
use sftp_verdicts::NamedFile;
use std::alloc::{AllocError, Global};
use std::cmp::Ordering;

/// What the name of a transcript ends in.
const TRANSCRIPT: &str = ".transcript";

/// What the name of a file of times ends in.
const TIMES: &str = ".times";

/// Which file of a session a file is.
#[derive(Clone, Copy, PartialEq, Eq)]
enum Part {
    Times,
    Transcript,
}

/// A file of a session of this name.
#[derive(Clone, Copy)]
struct Piece<'a> {
    session: &'a str,
    part: Part,
    path: &'a str,
}

/// The files of sessions, by rising names of the sessions, as an order has them.
///
/// # Errors
///
/// `Usage` if a file is neither NAME.transcript nor NAME.times, if a session lacks one of the two, or if there are two
/// files of one name; and `OutOfMemory`.
pub(crate) fn members_of<'r, 'a, R: System>(
    rt: &'r R,
    paths: &[&'a str],
) -> Result<Vec<Member<'a, NamedFile<'r, 'a, 'a, R>>>, Failure<'a>> {
    let pieces = sorted(rt.alloc(), paths)?;
    let members = paired(rt, pieces.as_slice());
    drop(pieces);
    members
}

/// The files, by the names of their sessions, and of each session the times first.
fn sorted<'a>(alloc: Global, paths: &[&'a str]) -> Result<Vec<Piece<'a>>, Failure<'a>> {
    let mut pieces = Vec::new(alloc);
    for path in paths {
        match piece_of(path) {
            Some(piece) => push(&mut pieces, piece)?,
            None => {
                drop(pieces);
                return Err(misfit(alloc, path, "is neither NAME.transcript nor NAME.times"));
            }
        }
    }
    pieces.sort_unstable_by(order_of);
    Ok(pieces)
}

/// Appends a value.
fn push<T: Drop>(list: &mut Vec<T>, value: T) -> Result<(), AllocError> {
    match list.push(value) {
        Ok(()) => Ok(()),
        Err(failed) => Err(AllocError::from(failed)),
    }
}

/// Which of two files comes first.
fn order_of(first: &Piece<'_>, second: &Piece<'_>) -> Ordering {
    match first.session.cmp(second.session) {
        Ordering::Equal => rank(first.part).cmp(&rank(second.part)),
        other => other,
    }
}

/// The place of a file among those of its session.
fn rank(part: Part) -> u8 {
    match part {
        Part::Times => 0,
        Part::Transcript => 1,
    }
}

/// Which file of which session the file at this path is.
fn piece_of<'a>(path: &'a str) -> Option<Piece<'a>> {
    let name = match path.rsplit_once('/') {
        Some((_, name)) => name,
        None => path,
    };
    if let Some(session) = name.strip_suffix(TRANSCRIPT) {
        return Some(Piece {
            session,
            part: Part::Transcript,
            path,
        });
    }
    let session = name.strip_suffix(TIMES)?;
    Some(Piece {
        session,
        part: Part::Times,
        path,
    })
}

/// The sessions of sorted files.
fn paired<'r, 'a, R: System>(
    rt: &'r R,
    pieces: &[Piece<'a>],
) -> Result<Vec<Member<'a, NamedFile<'r, 'a, 'a, R>>>, Failure<'a>> {
    let mut members = Vec::new(rt.alloc());
    for pair in pieces.chunks(2) {
        // No chunk is empty.
        let Some(times) = pair.first() else {
            continue;
        };
        match member_of(rt, times, pair.get(1)) {
            Ok(member) => push(&mut members, member)?,
            Err(failure) => {
                drop(members);
                return Err(failure);
            }
        }
    }
    Ok(members)
}

/// The session of its times and its transcript.
fn member_of<'r, 'a, R: System>(
    rt: &'r R,
    times: &Piece<'a>,
    transcript: Option<&Piece<'a>>,
) -> Result<Member<'a, NamedFile<'r, 'a, 'a, R>>, Failure<'a>> {
    match transcript {
        Some(transcript) if are_pair(times, transcript) => Ok(Member {
            name: times.session,
            transcript: given(rt, transcript.path),
            times: given(rt, times.path),
        }),
        _ => Err(misfit(
            rt.alloc(),
            times.path,
            "needs its NAME.transcript or NAME.times beside it, once",
        )),
    }
}

/// Whether two files are the times and the transcript of one session.
fn are_pair(first: &Piece<'_>, second: &Piece<'_>) -> bool {
    first.session == second.session && first.part == Part::Times && second.part == Part::Transcript
}

/// The file at this path.
pub(crate) fn given<'r, 'a, R>(rt: &'r R, path: &'a str) -> Given<'a, NamedFile<'r, 'a, 'a, R>> {
    Given {
        path,
        file: NamedFile::new(rt, path, path),
    }
}

/// Bad usage: the file of this name is not as it has to be.
fn misfit<'a>(alloc: Global, path: &str, why: &str) -> Failure<'a> {
    Failure::of_usage(message(alloc, path, why))
}

fn message(alloc: Global, path: &str, why: &str) -> Result<String, AllocError> {
    let path = Named(path);
    format!(in alloc; "error: {path} {why}\n{MORE}")
}
