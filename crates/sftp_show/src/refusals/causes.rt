//! Causes and status codes as text (draft, section 7).

use sftp_tree::{Cause, Causes, EVERY_CAUSE};
use sftp_wire::status;
use std::fmt;
use std::fmt::Write;

/// The codes of the draft that say that a request is refused.
const REFUSING_CODES: [u32; 7] = [
    status::NO_SUCH_FILE,
    status::PERMISSION_DENIED,
    status::FAILURE,
    status::BAD_MESSAGE,
    status::NO_CONNECTION,
    status::CONNECTION_LOST,
    status::OP_UNSUPPORTED,
];

/// A status code with its name.
#[derive(Clone, Copy)]
pub(crate) struct Code(pub(crate) u32);

impl Code {
    /// The name of the code in the draft, without `SSH_FX_`.
    fn name(self) -> &'static str {
        match self.0 {
            status::OK => "OK",
            status::EOF => "EOF",
            status::NO_SUCH_FILE => "NO_SUCH_FILE",
            status::PERMISSION_DENIED => "PERMISSION_DENIED",
            status::FAILURE => "FAILURE",
            status::BAD_MESSAGE => "BAD_MESSAGE",
            status::NO_CONNECTION => "NO_CONNECTION",
            status::CONNECTION_LOST => "CONNECTION_LOST",
            status::OP_UNSUPPORTED => "OP_UNSUPPORTED",
            _ => "unknown",
        }
    }
}

impl fmt::Display for Code {
    fn fmt<W: fmt::Write>(&self, f: &mut fmt::Formatter<W>) -> fmt::Result {
        let code = self.0;
        let name = self.name();
        write!(f, "{code} ({name})")
    }
}

/// The status codes that causes allow, in rising order with `or` between them.
#[derive(Clone, Copy)]
pub(crate) struct AllowedCodes(pub(crate) Causes);

impl fmt::Display for AllowedCodes {
    fn fmt<W: fmt::Write>(&self, f: &mut fmt::Formatter<W>) -> fmt::Result {
        let mut separator = "";
        for code in REFUSING_CODES.as_slice() {
            separator = put_code(self.0, *code, separator, f)?;
        }
        Ok(())
    }
}

/// The causes of a set, each with the codes that it allows.
#[derive(Clone, Copy)]
pub(crate) struct CauseList(pub(crate) Causes);

impl fmt::Display for CauseList {
    fn fmt<W: fmt::Write>(&self, f: &mut fmt::Formatter<W>) -> fmt::Result {
        let mut separator = "";
        for cause in EVERY_CAUSE {
            if self.0.holds(cause) {
                f.write_str(separator)?;
                put_cause(cause, f)?;
                separator = ", ";
            }
        }
        Ok(())
    }
}

/// Writes a code after a separator if one of the causes allows it, and returns what separates the next one.
fn put_code<W: fmt::Write>(
    causes: Causes,
    code: u32,
    separator: &'static str,
    f: &mut fmt::Formatter<W>,
) -> Result<&'static str, fmt::Error> {
    if !causes.allow(code) {
        return Ok(separator);
    }
    let code = Code(code);
    write!(f, "{separator}{code}")?;
    Ok(" or ")
}

fn put_cause<W: fmt::Write>(cause: Cause, f: &mut fmt::Formatter<W>) -> fmt::Result {
    let codes = AllowedCodes(Causes::none().when(cause, true));
    write!(f, "{cause} allows code {codes}")
}
