//! Answers as this program writes them (draft, section 7).
ghost use Rattle.std.specs.Prelude.{◌≡◌, ◌^◌, ◌<◌, IfOk};
ghost use Rattle.sftp_packets.specs.declared.replies.Answer.TheVariants as replies;
ghost use Rattle.sftp_packets.specs.Spelling.{no_attributes};
ghost use Rattle.sftp_handles.specs.Replies as spec;
ghost use Rattle.sftp_handles.specs.Payloads.{status_of, only_name};

use sftp_packets::{Answer, Attrs, ByteString, NameItem, Names};
use sftp_tree::NoMemory;
use std::alloc::Global;

/// A status with this code, whose texts are empty. Does not allocate.
pub(crate) fn status(alloc: Global, code: u32) -> Answer
    ensures status { result ≡ status_of code }
    ensures fits { code < 2 ^ 32 }
{
    Answer::Status {
        code,
        message: ByteString::new(Vec::new(alloc)),
        language: ByteString::new(Vec::new(alloc)),
    }
}

/// Whether an answer is a status with this code.
pub(crate) fn has_code(answer: &Answer, wanted: u32) -> bool
    ensures { result ≡ spec.has_code wanted answer.now }
{
    match answer {
        Answer::Status { code, .. } => *code == wanted,
        _ => false,
    }
}

/// A new handle. Does not allocate.
pub(crate) fn new_handle(name: Vec<u8>) -> Answer
    ensures { result ≡ replies.Handle name.items }
{
    Answer::Handle(ByteString::new(name))
}

/// A text as the only name, which is its long name too, without attributes.
///
/// # Errors
///
/// `NoMemory` if memory runs out.
pub(crate) fn one_name(alloc: Global, text: ByteString) -> Result<Answer, NoMemory>
    ensures { IfOk result (λ answer. answer ≡ only_name text) }
{
    let longname = ByteString::from_slice(alloc, text.as_slice())?;
    let item = NameItem {
        filename: text,
        longname,
        attrs: no_attributes(),
    };
    let names = vec![in alloc; item]?;
    Ok(Answer::Name(Names::new(names)))
}

/// Attributes without any field.
fn no_attributes() -> Attrs
    ensures { result ≡ no_attributes }
{
    Attrs {
        size: None,
        owner: None,
        permissions: None,
        times: None,
        extended: None,
    }
}
