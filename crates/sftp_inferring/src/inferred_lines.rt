//! The lines about an inferred tree: what it assumes, and which records contradict each other.
ghost use Rattle.std.specs.Prelude.{◌≡◌, IfOk};
ghost use Rattle.sftp_files.specs.declared.messages.Ending.TheVariants as endings;
ghost use Rattle.sftp_verdicts.specs.Verdicts.{IsAuditStatus};

use sftp_audit::Refusal;
use sftp_files::{Ending, Failure, print, report, write_flushed};
use sftp_infer::{Candidate, Clash, Excess, Fact, Says, Search, Sort, What};
use sftp_show::{Quoted, find_record, last_of_id, put_record};
use sftp_transcript::{Memory, Reader, TranscriptError};
use sftp_wire::Side;
use std::alloc::Global;
use std::fmt;
use std::io::Write;

/// What a tree assumes beyond what replies tell.
#[derive(Clone, Copy)]
struct Assumption<'a>(&'a Fact);

impl fmt::Display for Assumption<'_> {
    fn fmt<W: fmt::Write>(&self, f: &mut fmt::Formatter<W>) -> fmt::Result {
        put_fact(self.0, f)?;
        put_number(self.0.told, f)
    }
}

/// Writes what a tree assumes of a place.
fn put_fact<W: fmt::Write>(fact: &Fact, f: &mut fmt::Formatter<W>) -> fmt::Result {
    let place = Quoted(fact.place.as_slice());
    let (before, behind) = match &fact.says {
        Says::SameFile(other) => {
            let other = Quoted(other.as_slice());
            return write!(f, "{place} and {other} name one file");
        }
        Says::Link(target) => {
            let target = Quoted(target.as_slice());
            return write!(f, "{place} is a link to {target}");
        }
        Says::Size(size) => return write!(f, "{place} has {size} bytes at the start"),
        Says::Home => ("relative paths begin at ", ""),
        Says::Directory => ("", " is a directory"),
        Says::File => ("", " is a file"),
        Says::There => ("", " is there"),
    };
    write!(f, "{before}{place}{behind}")
}

/// Writes the number of the record that led to an assumption, if one did.
fn put_number<W: fmt::Write>(number: u64, f: &mut fmt::Formatter<W>) -> fmt::Result {
    if number == 0 {
        return Ok(());
    }
    write!(f, " (record {number})")
}

/// Writes what a tree assumes beyond what replies tell, a line each.
pub(crate) fn put_assumed<E: Write>(candidate: &Candidate<'_>, errors: &mut E) {
    for fact in candidate.assumed.iter() {
        let line = Assumption(fact);
        let _ = write_flushed(errors, format_args!("assumed: {line}\n"));
    }
    if candidate.is_large {
        let _ = write_flushed(
            errors,
            "assumed: the tree has higher limits than the usual ones\n",
        );
    }
}

/// Writes how many replies of the session others bear out. The tree has what the rest alone tell.
pub(crate) fn put_checked<E: Write>(candidate: &Candidate<'_>, errors: &mut E) {
    let (checked, replies) = (candidate.checked, candidate.replies);
    let _ = write_flushed(
        errors,
        format_args!("{checked} of {replies} replies were checked by others\n"),
    );
}

/// Says that the records of a session do not pair off, with whatever tree.
pub(crate) fn put_refusal<'a, O: Write>(
    refusal: Refusal,
    output: &mut O,
) -> Result<Ending, Failure<'a>>
    ensures status { IsAuditStatus result }
    ensures refused { IfOk result (λ ending. ending ≡ endings.Refused) }
{
    print(
        output,
        format_args!("no tree found: {refusal}\n"),
        Ending::Refused,
    )
}

/// Says how a session that was cut can be judged as far as it goes.
pub(crate) fn put_way<E: Write>(refusal: Refusal, errors: &mut E) {
    if let Refusal::Unanswered { record } = refusal {
        let before = record.saturating_sub(1);
        let _ = write_flushed(
            errors,
            format_args!(
                "To judge what is before: sftpv3 show --full --data all FILE | head -n {before} | sftpv3 make BEFORE\n"
            ),
        );
        let _ = write_flushed(
            errors,
            "then: sftpv3 infer --transcript BEFORE TREE && sftpv3 audit --cut --tree TREE --transcript FILE\n",
        );
    }
}

/// Says why the tree of what a session tells would be larger than it may, with an option `--memory` or without one.
pub(crate) fn put_excess<E: Write>(excess: Excess, has_memory: bool, errors: &mut E) {
    let _ = match excess {
        Excess::Files(bytes) if has_memory => write_flushed(
            errors,
            format_args!("no tree: the files of the session have {bytes} bytes in all\n"),
        ),
        Excess::Files(bytes) => write_flushed(
            errors,
            format_args!(
                "no tree: the files of the session have {bytes} bytes in all; more than 1 GiB needs '--memory'\n"
            ),
        ),
        Excess::File(bytes) => write_flushed(
            errors,
            format_args!(
                "no tree: a file has {bytes} bytes, and that of a tree has 1099511627776 at most\n"
            ),
        ),
        Excess::Paths(bytes) => write_flushed(
            errors,
            format_args!("no tree: the paths that replies tell of have {bytes} bytes in all\n"),
        ),
        Excess::Entries => write_flushed(
            errors,
            "no tree: replies tell of more entries than a tree may have\n",
        ),
    };
}

/// Says that the search did not try all that it had in mind.
pub(crate) fn put_spent<E: Write>(errors: &mut E) {
    let _ = write_flushed(
        errors,
        "the search ended early: more would take more passes, steps or memory than it may\n",
    );
}

/// Says that there may be a tree by a profile.
pub(crate) fn put_strictness<E: Write>(errors: &mut E) {
    let _ = write_flushed(
        errors,
        "each reply was judged strictly; '--profile posix' allows what servers with real file systems do\n",
    );
}

/// The word for a kind.
fn word(sort: Sort) -> &'static str {
    match sort {
        Sort::Unknown => "something",
        Sort::Directory => "a directory",
        Sort::File => "a file",
        Sort::Link => "a link",
    }
}

/// What the first record of a contradiction told.
#[derive(Clone, Copy)]
struct Told<'a>(&'a Clash);

impl fmt::Display for Told<'_> {
    fn fmt<W: fmt::Write>(&self, f: &mut fmt::Formatter<W>) -> fmt::Result {
        let place = Quoted(self.0.place.as_slice());
        match self.0.what {
            What::Size(size, _) => write!(f, "{place} has {size} bytes"),
            What::Byte(offset, byte, _) => write!(f, "byte {offset} of {place} is 0x{byte:02x}"),
            What::Owner((uid, gid), _) => write!(f, "{place} is owned by {uid},{gid}"),
            What::Permissions(bits, _) => write!(f, "{place} has the permissions {bits:04o}"),
            What::Target => put_target(self.0, f),
            other => {
                let (before, behind, sort) = told_words(other);
                write!(f, "{before}{place}{behind}{sort}")
            }
        }
    }
}

/// The words around the place where a record told nothing but of what kind something is, if anything.
fn told_words(what: What) -> (&'static str, &'static str, &'static str) {
    match what {
        What::Gone => ("something is at ", "", ""),
        What::Kind(sort, _) => ("", " is ", word(sort)),
        What::Refused(Some(sort)) => ("", " is ", word(sort)),
        What::Unlisted => ("", " is there", ""),
        What::Entries => ("", " has entries", ""),
        What::Place => ("the path leads to ", "", ""),
        _ => ("nothing is at ", "", ""),
    }
}

fn put_target<W: fmt::Write>(clash: &Clash, f: &mut fmt::Formatter<W>) -> fmt::Result {
    let place = Quoted(clash.place.as_slice());
    match &clash.texts {
        Some((told, _)) => {
            let told = Quoted(told.as_slice());
            write!(f, "{place} is a link to {told}")
        }
        None => write!(f, "{place} is a link"),
    }
}

/// Writes what the second record says of a target or a place, behind these words.
fn put_text<W: fmt::Write>(words: &str, clash: &Clash, f: &mut fmt::Formatter<W>) -> fmt::Result {
    match &clash.texts {
        Some((_, found)) => {
            let found = Quoted(found.as_slice());
            write!(f, "{words} {found}")
        }
        None => write!(f, "{words} another place"),
    }
}

/// What the second record of a contradiction says.
#[derive(Clone, Copy)]
struct Otherwise<'a>(&'a Clash);

impl fmt::Display for Otherwise<'_> {
    fn fmt<W: fmt::Write>(&self, f: &mut fmt::Formatter<W>) -> fmt::Result {
        match self.0.what {
            What::Size(_, size) => write!(f, "{size} bytes"),
            What::Byte(_, _, byte) => write!(f, "0x{byte:02x}"),
            What::Owner(_, (uid, gid)) => write!(f, "{uid},{gid}"),
            What::Permissions(_, bits) => write!(f, "{bits:04o}"),
            What::Target => put_text("it leads to", self.0, f),
            What::Place => put_text("it leads to", self.0, f),
            What::Refused(_) => f.write_str(unexplained(self.0.told)),
            other => f.write_str(other_words(other)),
        }
    }
}

/// The words for a reply that no pass explains. Where an earlier record told something, it is a refusal.
fn unexplained(told: u64) -> &'static str {
    match told {
        0 => "a reply that the search does not explain",
        _ => "a refusal for which that is no reason",
    }
}

/// What the second record says that tells nothing but of what kind something is, if anything.
fn other_words(what: What) -> &'static str {
    match what {
        What::There => "something is there",
        What::Kind(_, sort) => word(sort),
        What::Unlisted => "the listing ends without it",
        What::Entries => "it was removed as an empty directory",
        _ => "nothing is there",
    }
}

/// Writes both records at which the search ended, what each told, and how many passes were tried. If memory runs out,
/// it says so, and no more.
pub(crate) fn put_clash<E: Write>(
    alloc: Global,
    session: &[u8],
    search: &Search<'_>,
    is_sure: bool,
    errors: &mut E,
) {
    match search.clash() {
        Some(clash) => {
            if let Some(first) = put_both(alloc, session, clash, errors) {
                put_end(search, is_sure, errors);
                put_hint(first, clash.told.max(clash.found), errors);
            }
        }
        None => put_end(search, is_sure, errors),
    }
}

/// Writes both records of a contradiction, and what they say. Returns the number of the first record that it wrote;
/// `None` if memory ran out.
fn put_both<E: Write>(alloc: Global, session: &[u8], clash: &Clash, errors: &mut E) -> Option<u64> {
    let told = put_told(alloc, session, clash, errors)?;
    let found = put_found(alloc, session, clash, errors)?;
    Some(told.min(found))
}

/// Writes the earlier record of a contradiction, if there is one, and what it told. Returns as `put_both` does.
fn put_told<E: Write>(alloc: Global, session: &[u8], clash: &Clash, errors: &mut E) -> Option<u64> {
    if clash.told == 0 {
        return Some(clash.found);
    }
    let first = put_exchange(alloc, session, "told", clash.told, errors)?;
    let told = Told(clash);
    let _ = write_flushed(errors, format_args!("told: {told}\n"));
    Some(first)
}

/// Writes the record of a contradiction at which it was found, and what it says. Returns as `put_both` does.
fn put_found<E: Write>(
    alloc: Global,
    session: &[u8],
    clash: &Clash,
    errors: &mut E,
) -> Option<u64> {
    let first = put_exchange(alloc, session, "found", clash.found, errors)?;
    let otherwise = Otherwise(clash);
    let _ = write_flushed(errors, format_args!("found: {otherwise}\n"));
    Some(first)
}

/// Writes how many passes were tried, and what that means; `is_sure` says whether two records contradict each other.
fn put_end<E: Write>(search: &Search<'_>, is_sure: bool, errors: &mut E) {
    let passes = search.passes();
    let meaning = if is_sure {
        "No tree gives both replies."
    } else {
        "This is no proof that there is no tree."
    };
    let _ = write_flushed(errors, format_args!("tried: {passes} passes\n{meaning}\n"));
}

/// Says how to look closer at these records, and those between them.
fn put_hint<E: Write>(first: u64, last: u64, errors: &mut E) {
    let _ = write_flushed(
        errors,
        format_args!("To look closer: sftpv3 show --json --records {first}-{last} FILE\n"),
    );
}

/// Writes the line of a record, if it can be found; before it that of the request that it answers. Returns the number
/// of the first of them. If memory runs out, it says so and returns `None`.
pub(crate) fn put_exchange<E: Write>(
    alloc: Global,
    session: &[u8],
    label: &str,
    number: u64,
    errors: &mut E,
) -> Option<u64> {
    match put_lines(alloc, session, label, number, errors) {
        Ok(first) => Some(first),
        Err(TranscriptError::NoMemory) => {
            report(errors, &Failure::OutOfMemory);
            None
        }
        Err(_) => Some(number),
    }
}

/// Writes the line of a record, and before it that of the request that it answers, as far as they can be found. Returns
/// the number of the first of them.
fn put_lines<E: Write>(
    alloc: Global,
    session: &[u8],
    label: &str,
    number: u64,
    errors: &mut E,
) -> Result<u64, TranscriptError> {
    let mut first = number;
    if let Some(asked) = request_of(alloc, session, number)? {
        put_line(alloc, session, "asked", asked, errors)?;
        first = asked;
    }
    put_line(alloc, session, label, number, errors)?;
    Ok(first)
}

/// The number of the request that this record answers, if it is a reply and both can be found.
fn request_of(alloc: Global, session: &[u8], number: u64) -> Result<Option<u64>, TranscriptError> {
    match head_of(alloc, session, number)? {
        Some((Side::Server, id)) => last_request(alloc, session, id, number),
        _ => Ok(None),
    }
}

/// The number of the last request with this id before a record.
fn last_request(
    alloc: Global,
    session: &[u8],
    id: u32,
    number: u64,
) -> Result<Option<u64>, TranscriptError> {
    let mut reader = Reader::new(alloc, Memory::new(session))?;
    let last = last_of_id(&mut reader, Side::Client, id, number);
    drop(reader);
    last
}

/// Who sent a record, and its id, if it has one and can be found.
fn head_of(
    alloc: Global,
    session: &[u8],
    number: u64,
) -> Result<Option<(Side, u32)>, TranscriptError> {
    let mut reader = Reader::new(alloc, Memory::new(session))?;
    let found = find_record(&mut reader, number);
    drop(reader);
    let head = match &found {
        Ok(Some(record)) => match record.id() {
            Some(id) => Ok(Some((record.side, id))),
            None => Ok(None),
        },
        Ok(None) => Ok(None),
        Err(error) => Err(*error),
    };
    drop(found);
    head
}

/// Writes the line of a record, if it can be found.
fn put_line<E: Write>(
    alloc: Global,
    session: &[u8],
    label: &str,
    number: u64,
    errors: &mut E,
) -> Result<(), TranscriptError> {
    if number == 0 {
        return Ok(());
    }
    let mut reader = Reader::new(alloc, Memory::new(session))?;
    let found = find_record(&mut reader, number);
    drop(reader);
    let put = match &found {
        Ok(Some(record)) => {
            let _ = put_record(label, record, errors);
            Ok(())
        }
        Ok(None) => Ok(()),
        Err(error) => Err(*error),
    };
    drop(found);
    put
}
