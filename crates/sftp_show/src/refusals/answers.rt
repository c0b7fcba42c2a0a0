//! Answers as text (draft, section 7).

use crate::quoted::Quoted;
use crate::refusals::causes::Code;
use sftp_wire::{Answer, Attrs, ByteString, NameItem};
use std::fmt;
use std::fmt::Write;

/// How many names a line has at most.
const NAMES_IN_LINE: usize = 8;

/// How many bytes of a DATA a line has at most.
const BYTES_IN_LINE: usize = 16;

/// What an answer says: its code, handle, names or attributes, or how many bytes it has.
#[derive(Clone, Copy)]
pub(crate) struct AnswerText<'a>(pub(crate) &'a Answer);

impl fmt::Display for AnswerText<'_> {
    fn fmt<W: fmt::Write>(&self, f: &mut fmt::Formatter<W>) -> fmt::Result {
        match self.0 {
            Answer::Status { code, .. } => put_status(*code, f),
            Answer::Handle(handle) => {
                let handle = Quoted(handle.as_slice());
                write!(f, "HANDLE {handle}")
            }
            Answer::Data(bytes) => put_data(bytes.as_slice(), f),
            Answer::Name(names) => put_names(names.as_slice(), f),
            Answer::Attrs(attrs) => put_attrs(attrs, f),
            Answer::Extended(bytes) => {
                let length = bytes.as_slice().len();
                write!(f, "EXTENDED_REPLY of length {length}")
            }
        }
    }
}

fn put_status<W: fmt::Write>(code: u32, f: &mut fmt::Formatter<W>) -> fmt::Result {
    let code = Code(code);
    write!(f, "STATUS with code {code}")
}

fn put_attrs<W: fmt::Write>(attrs: &Attrs, f: &mut fmt::Formatter<W>) -> fmt::Result {
    let attrs = AttrsText(attrs);
    write!(f, "ATTRS with {attrs}")
}

/// Writes the first `BYTES_IN_LINE` bytes of a DATA, in quotes, and its length.
fn put_data<W: fmt::Write>(bytes: &[u8], f: &mut fmt::Formatter<W>) -> fmt::Result {
    let length = bytes.len();
    let start = Quoted(bytes.get(..BYTES_IN_LINE).unwrap_or(bytes));
    let ellipsis = if length > BYTES_IN_LINE { "..." } else { "" };
    write!(f, "DATA {start}{ellipsis} of length {length}")
}

/// Writes the names of the first `NAMES_IN_LINE` items of a NAME, each in quotes with a space before it.
fn put_names<W: fmt::Write>(items: &[NameItem], f: &mut fmt::Formatter<W>) -> fmt::Result {
    f.write_str("NAME with")?;
    for item in items.iter().take(NAMES_IN_LINE) {
        put_name(&item.filename, f)?;
    }
    put_ellipsis(items.len(), f)
}

/// Writes the first `NAMES_IN_LINE` names, each in quotes with a space before it.
pub(crate) fn put_first<W: fmt::Write>(
    names: &[ByteString],
    f: &mut fmt::Formatter<W>,
) -> fmt::Result {
    for name in names.iter().take(NAMES_IN_LINE) {
        put_name(name, f)?;
    }
    put_ellipsis(names.len(), f)
}

fn put_name<W: fmt::Write>(name: &ByteString, f: &mut fmt::Formatter<W>) -> fmt::Result {
    let name = Quoted(name.as_slice());
    write!(f, " {name}")
}

/// Writes an ellipsis if so many names do not fit in a line.
fn put_ellipsis<W: fmt::Write>(count: usize, f: &mut fmt::Formatter<W>) -> fmt::Result {
    if count > NAMES_IN_LINE {
        f.write_str(" ...")
    } else {
        Ok(())
    }
}

/// Attributes: those that are compared.
#[derive(Clone, Copy)]
pub(crate) struct AttrsText<'a>(pub(crate) &'a Attrs);

impl fmt::Display for AttrsText<'_> {
    fn fmt<W: fmt::Write>(&self, f: &mut fmt::Formatter<W>) -> fmt::Result {
        put_size(self.0.size, f)?;
        put_owner(self.0.owner, f)?;
        put_permissions(self.0.permissions, f)
    }
}

fn put_size<W: fmt::Write>(size: Option<u64>, f: &mut fmt::Formatter<W>) -> fmt::Result {
    match size {
        Some(size) => write!(f, "size {size}"),
        None => f.write_str("no size"),
    }
}

fn put_owner<W: fmt::Write>(owner: Option<(u32, u32)>, f: &mut fmt::Formatter<W>) -> fmt::Result {
    match owner {
        Some((uid, gid)) => write!(f, ", uid {uid}, gid {gid}"),
        None => f.write_str(", no owner"),
    }
}

fn put_permissions<W: fmt::Write>(
    permissions: Option<u32>,
    f: &mut fmt::Formatter<W>,
) -> fmt::Result {
    match permissions {
        Some(permissions) => write!(f, ", permissions {permissions:o}"),
        None => f.write_str(", no permissions"),
    }
}
