//! Answers that say that a request was refused (draft, section 7), or that it opened something.
ghost use Rattle.std.specs.Prelude.{◌≡◌, ◌&&◌, ◌||◌, nat_lt, length};
ghost use Rattle.std.specs.List.{list_all};
ghost use Rattle.sftp_profile.specs.StrictAnswers.{is_dots};
ghost use Rattle.sftp_handles.specs.Replies.{has_code};
ghost use Rattle.sftp_profile.specs.Departures as spec;
ghost use Rattle.sftp_profile.specs.BytesRead as words;
ghost use Rattle.sftp_profile.specs.Permitted.{done_status};

use crate::strict_answers::is_dots;
use sftp_wire::status::{
    BAD_MESSAGE, FAILURE, NO_SUCH_FILE, OK, OP_UNSUPPORTED, PERMISSION_DENIED,
};
use sftp_wire::{Answer, ByteString, NameItem};
use std::alloc::Global;

/// Whether the answer is a status with a code that refuses: 2, 3, 4, 5 or 8.
pub(crate) fn is_refusal(answer: &Answer) -> bool
    ensures { result ≡ words.is_refusal answer.now }
{
    match answer {
        Answer::Status { code, .. } => is_refusal_code(*code),
        _ => false,
    }
}

/// Whether the answer gives one or more names, all of them `.` and `..`.
pub(crate) fn are_dots(answer: &Answer) -> bool
    ensures { result ≡ spec.are_dots answer.now }
{
    match answer {
        Answer::Name(names) => are_all_dots(names.as_slice()),
        _ => false,
    }
}

/// Whether there is one item or more, each of the name `.` or `..`.
fn are_all_dots(items: &[NameItem]) -> bool
    ensures { result ≡ (nat_lt 0 (length items.now) && list_all (λ item. is_dots item.filename) items.now) }
{
    !items.is_empty() && all_dots(items)
}

/// Whether each item has the name `.` or `..`.
fn all_dots(items: &[NameItem]) -> bool
    ensures { result ≡ list_all (λ item. is_dots item.filename) items.now }
{
    items.iter().all(|item| is_dots(item.filename.as_slice()))
}

/// Whether the answer is a status with this code.
pub(crate) fn has_code(answer: &Answer, wanted: u32) -> bool
    ensures { result ≡ has_code wanted answer.now }
{
    match answer {
        Answer::Status { code, .. } => *code == wanted,
        _ => false,
    }
}

/// Whether the answer is a status with this code, or refuses with any if codes are free.
pub(crate) fn has_code_or(answer: &Answer, wanted: u32, frees: bool) -> bool
    ensures { result ≡ (has_code wanted answer.now || frees && words.is_refusal answer.now) }
{
    has_code(answer, wanted) || (frees && is_refusal(answer))
}

/// Whether the answer gives a handle.
pub(crate) fn is_handle(answer: &Answer) -> bool
    ensures { result ≡ words.is_handle answer.now }
{
    match answer {
        Answer::Handle(_) => true,
        _ => false,
    }
}

/// OK, without texts.
pub(crate) fn done(alloc: Global) -> Answer
    ensures { result ≡ done_status }
{
    Answer::Status {
        code: OK,
        message: ByteString::new(Vec::new(alloc)),
        language: ByteString::new(Vec::new(alloc)),
    }
}

/// Whether the code refuses.
fn is_refusal_code(code: u32) -> bool
    ensures { result ≡ words.is_refusal_code code }
{
    code == NO_SUCH_FILE
        || code == PERMISSION_DENIED
        || code == FAILURE
        || code == BAD_MESSAGE
        || code == OP_UNSUPPORTED
}
