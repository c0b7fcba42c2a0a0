//! Pipes that were closed by who reads them.

use sftp_files::{Ending, Failure, STANDARD_OUTPUT};
use sftp_options::Request;

/// The system's number for a pipe that nobody reads any more.
const BROKEN_PIPE: i32 = 32;

/// The ending of a request, if a closed pipe is no failure of it: who reads what it shows has seen enough.
pub(crate) fn quiet<'a>(
    request: &Request<'a>,
    ending: Result<Ending, Failure<'a>>,
) -> Result<Ending, Failure<'a>> {
    match ending {
        Err(Failure::CannotWrite(name, Some(BROKEN_PIPE))) if name == STANDARD_OUTPUT => {
            match enough(request) {
                Some(ending) => Ok(ending),
                None => Err(Failure::CannotWrite(name, Some(BROKEN_PIPE))),
            }
        }
        ending => ending,
    }
}

/// Whether a failure of this request goes without a word: nobody reads its verdict any more. The status tells that it
/// was not given whole.
pub(crate) fn is_silent(request: &Request<'_>, failure: &Failure<'_>) -> bool {
    gives_verdict(request) && is_closed(failure)
}

/// Whether a request prints a verdict.
fn gives_verdict(request: &Request<'_>) -> bool {
    matches!(
        request,
        Request::Audit(_) | Request::AuditEach(_) | Request::AuditTogether(_) | Request::Infer(_)
    )
}

/// Whether standard output is a pipe that nobody reads any more.
fn is_closed(failure: &Failure<'_>) -> bool {
    match failure {
        Failure::CannotWrite(name, Some(BROKEN_PIPE)) => *name == STANDARD_OUTPUT,
        _ => false,
    }
}

/// How a request ends whose output nobody reads to its end, if it may end so.
fn enough(request: &Request<'_>) -> Option<Ending> {
    match request {
        Request::Show(_) | Request::Help(_) => Some(Ending::Done),
        // a line was to be written, so the trees differ
        Request::Diff { .. } => Some(Ending::Different),
        _ => None,
    }
}
