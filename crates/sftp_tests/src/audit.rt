//! Audits of events and of streams, and the files that tests share.
mod fed;
mod streamed;

/// The opening, an INIT of version 3 and a VERSION 3, both without extensions.
pub(crate) const OPENING: &[u8] = b"SFTPTR01C\0\0\0\x05\x01\0\0\0\x03S\0\0\0\x05\x02\0\0\0\x03";

/// The tree with nothing but a root.
pub(crate) const BLANK: &[u8] =
    b"SFTREE01\0\0\0\x01/\0\0\0\0\0\0\0\0\0\0\0\0\0\0\0\0\0\0\0\0\0\0\x01\xed";

/// The tree with the directory `/a`.
pub(crate) const WITH_A: &[u8] =
    b"SFTREE01\0\0\0\x01/\0\0\0\0\0\0\0\0\0\0\0\x01\0\0\0\0\0\0\0\0\0\0\x01\xed\
\0\0\0\x02/aD\0\0\0\0\0\0\0\0\0\0\x01\xed";
