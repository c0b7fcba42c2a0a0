//! `audit --keep-going`: what a request may have changed, although its reply is wrong.
ghost use Rattle.std.specs.Prelude.{◌≡◌};
ghost use Rattle.sftp_commands.specs.Going as spec;

use sftp_wire::{Answer, Ask};

/// What a request may change where it is done.
#[derive(Clone, Copy)]
pub enum Bearing {
    /// Nothing.
    Looks,
    /// Which names the listing of its handle has left.
    Lists,
    /// Whether its handle is open.
    Closes,
    /// What is open: no file is made or emptied.
    Opens,
    /// Anything.
    Changes,
}

/// What a reply says.
#[derive(Clone, Copy)]
pub enum Outcome {
    /// That the request was refused.
    Refused,
    /// That it was done.
    Done,
    /// The handle of what was opened.
    Opened,
    /// Anything else.
    Told,
}

/// The flag of OPEN that makes a file.
const CREAT: u32 = 0x0000_0008;

/// The flag of OPEN that empties a file.
const TRUNC: u32 = 0x0000_0010;

/// Whether an OPEN with these flags neither makes nor empties a file.
fn only_opens(flags: u32) -> bool
    ensures { result ≡ spec.only_opens flags }
{
    flags & CREAT != CREAT && flags & TRUNC != TRUNC
}

/// What a request may change.
pub(crate) fn bearing_of(ask: &Ask) -> Bearing
    ensures { result ≡ spec.bearing_of ask.now }
{
    match ask {
        Ask::Stat { .. } => Bearing::Looks,
        Ask::Lstat { .. } => Bearing::Looks,
        Ask::Fstat { .. } => Bearing::Looks,
        Ask::Read { .. } => Bearing::Looks,
        Ask::Realpath { .. } => Bearing::Looks,
        Ask::Readlink { .. } => Bearing::Looks,
        Ask::Fsync { .. } => Bearing::Looks,
        Ask::Limits => Bearing::Looks,
        Ask::Readdir { .. } => Bearing::Lists,
        Ask::Close { .. } => Bearing::Closes,
        Ask::Opendir { .. } => Bearing::Opens,
        Ask::Open { pflags, .. } => opening(*pflags),
        _ => Bearing::Changes,
    }
}

/// What an OPEN with these flags may change.
fn opening(flags: u32) -> Bearing
    ensures { result ≡ spec.opening flags }
{
    if only_opens(flags) {
        Bearing::Opens
    } else {
        Bearing::Changes
    }
}

/// What a reply says.
pub(crate) fn outcome_of(answer: &Answer) -> Outcome
    ensures { result ≡ spec.outcome_of answer.now }
{
    match answer {
        Answer::Status { code, .. } => status_outcome(*code),
        Answer::Handle(_) => Outcome::Opened,
        _ => Outcome::Told,
    }
}

/// What a STATUS with this code says.
fn status_outcome(code: u32) -> Outcome
    ensures { result ≡ spec.status_outcome code }
{
    if code == 0 {
        Outcome::Done
    } else {
        Outcome::Refused
    }
}

/// Whether a request with a wrong reply left the tree as it was, and all that is open but for its own handle. `follows`
/// says whether the session is followed up to there.
pub fn is_harmless(bearing: Bearing, outcome: Outcome, follows: bool) -> bool
    ensures { result ≡ spec.is_harmless bearing outcome follows }
{
    match bearing {
        Bearing::Looks => true,
        Bearing::Lists => true,
        Bearing::Closes => follows && is_refused_or_done(outcome),
        Bearing::Opens => follows && is_refused_or_opened(outcome),
        Bearing::Changes => follows && is_refused(outcome),
    }
}

fn is_refused(outcome: Outcome) -> bool
    ensures { result ≡ spec.is_refused outcome }
{
    match outcome {
        Outcome::Refused => true,
        _ => false,
    }
}

fn is_refused_or_done(outcome: Outcome) -> bool
    ensures { result ≡ spec.is_refused_or_done outcome }
{
    match outcome {
        Outcome::Refused => true,
        Outcome::Done => true,
        _ => false,
    }
}

fn is_refused_or_opened(outcome: Outcome) -> bool
    ensures { result ≡ spec.is_refused_or_opened outcome }
{
    match outcome {
        Outcome::Refused => true,
        Outcome::Opened => true,
        _ => false,
    }
}
