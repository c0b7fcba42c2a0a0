//! Ranges of the bytes of files.

use sftp_tree::FileNo;

/// The bytes of a file from one offset up to another. A range whose end is not past its start is empty.
#[derive(Clone, Copy, Debug)]
pub struct ByteRange {
    /// The file.
    pub number: FileNo,
    /// The offset of the first byte.
    pub start: u64,
    /// The offset after the last byte.
    pub end: u64,
}

/// The bytes that a request reads or writes, whether its file has them or not. They may end past the last offset.
#[derive(Clone, Copy)]
pub struct Span {
    /// The offset of the first byte.
    pub start: u64,
    /// How many bytes there are.
    pub count: u64,
}
