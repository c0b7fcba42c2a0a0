//! The codes of STATUS replies (draft, section 7).

/// The request succeeded.
pub const OK: u32 = 0;

/// The end of a file or of a listing was reached.
pub const EOF: u32 = 1;

/// No such file.
pub const NO_SUCH_FILE: u32 = 2;

/// Permission was denied.
pub const PERMISSION_DENIED: u32 = 3;

/// The request failed for a reason that has no code of its own.
pub const FAILURE: u32 = 4;

/// The request is badly formatted.
pub const BAD_MESSAGE: u32 = 5;

/// There is no connection to the server. A client makes it for itself; no server sends it.
pub const NO_CONNECTION: u32 = 6;

/// The connection to the server was lost. A client makes it for itself; no server sends it.
pub const CONNECTION_LOST: u32 = 7;

/// The server does not support the operation.
pub const OP_UNSUPPORTED: u32 = 8;
