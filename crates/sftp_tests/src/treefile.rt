//! Tree files that are written with no more room than they need.
use sftp_treefile::{NoMemory, read_rows, write_rows};
use std::alloc::Global;

/// The file of `/d`, which is the home, a file `/d/f` of `abc`, its second name `/g`, and a link to it, `/l`.
const FILE: &[u8] =
    b"SFTREE01\0\0\0\x02/d\0\0\x03\xe8\0\0\0\x64\0\0\0\x04\0\0\0\x01\0\0\0\x02\0\0\x03\xed\
\0\0\0\x02/dD\0\0\0\x03\0\0\0\x04\0\0\x01\xc0\0\0\0\x04/d/fF\0\0\0\x05\0\0\0\x06\0\0\x0f\xff\0\0\0\x03abc\
\0\0\0\x02/gH\0\0\0\x02\0\0\0\x02/lL\0\0\0\x03d/f";

/// The file of the root alone, with the highest limits.
pub(crate) const RAISED: &[u8] =
    b"SFTREE02\0\0\0\x01/\0\0\0\0\0\0\0\0\0\x10\0\0\x04\0\0\0\0\x01\0\0\0\0\x04\0\
\0\0\0\0\0\0\0\0\0\0\0\0\0\0\x01\xed";

/// The file of the root alone, with the most of each limit (docs/FORMATS.md).
const MOST: &[u8] =
    b"SFTREE03\0\0\0\x01/\0\0\0\0\0\0\0\0\xff\xff\xff\xfd\0\0\x01\0\0\0\0\0\0\x03\xfc\0\0\x01\0\0\
\x04\0\0\0\0\0\0\0\0\0\0\0D\0\0\0\0\0\0\0\0\0\0\x01\xed";

/// The file of a root that was changed in second 1, and of a file `/f` of `abc`, read in second 2 and changed in second
/// 3, with its second name `/g` (docs/FORMATS.md).
const TIMED: &[u8] =
    b"SFTREE03\0\0\0\x01/\0\0\0\0\0\0\0\0\0\x01\0\0\0\0\0\0\x01\0\0\0\0\0\x80\0\0\0\x01\0\
\x04\0\0\0\0\0\0\0\0\0\0\x02d\0\0\0\0\0\0\0\0\0\0\x01\xed\0\0\0\0\0\0\0\x01\
\0\0\0\x02/ff\0\0\0\0\0\0\0\0\0\0\x01\xa4\0\0\0\x02\0\0\0\x03\0\0\0\x03abc\0\0\0\x02/gH\0\0\0\x01";

/// The files, each written again as the same bytes; room is asked for just them.
const FILES: &[&[u8]] = &[FILE, RAISED, MOST, TIMED];

/// Whether a tree file was written as these bytes, with no more room than they take.
fn is_just(written: &Result<Vec<u8>, NoMemory>, bytes: &[u8]) -> bool {
    match written {
        Ok(written) => written.capacity() == bytes.len() && written.as_slice() == bytes,
        Err(_) => false,
    }
}

/// Whether the bytes, read and written again, are the same bytes.
fn stays(alloc: Global, bytes: &[u8]) -> bool {
    match read_rows(alloc, bytes) {
        Ok(file) => {
            let written = write_rows(alloc, &file);
            drop(file);
            let is_just = is_just(&written, bytes);
            drop(written);
            is_just
        }
        Err(_) => false,
    }
}

#[test]
fn whole_file(rt: HostRuntime) {
    for file in FILES {
        assert!(rt; stays(rt.alloc(), file), "{file:?}");
    }
}
