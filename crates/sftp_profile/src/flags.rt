//! The flags of OPEN as a file system goes by them (POSIX, open).
ghost use Rattle.std.specs.Prelude.{◌≡◌, ◌≤◌};
ghost use Rattle.sftp_packets.specs.Reading.{has_flag};
ghost use Rattle.sftp_profile.specs.BytesRead as spec;

/// READ, a flag of OPEN (draft, section 6.3): the file is opened to be read.
pub(crate) const READ: u32 = 0x01;

/// WRITE: to be written.
const WRITE: u32 = 0x02;

/// APPEND: what is written goes to the end.
const APPEND: u32 = 0x04;

/// CREAT: a file is made if there is none.
pub(crate) const CREAT: u32 = 0x08;

/// TRUNC: the file is emptied.
pub(crate) const TRUNC: u32 = 0x10;

/// EXCL: nothing may be there.
pub(crate) const EXCL: u32 = 0x20;

/// The flags that a file system goes by: READ is added where WRITE is missing, and flags without an effect beside the
/// others are left out.
pub(crate) fn mended_flags(flags: u32) -> u32
    ensures { result ≡ spec.mended_flags flags }
{
    let reads = has(flags, READ);
    let writes = has(flags, WRITE);
    let appends = has(flags, APPEND);
    let creates = has(flags, CREAT);
    let truncates = has(flags, TRUNC);
    let excludes = has(flags, EXCL);
    flag_if(reads || !writes, READ)
        + flag_if(writes, WRITE)
        + flag_if(writes && appends, APPEND)
        + flag_if(creates, CREAT)
        + flag_if(truncates && (creates && writes), TRUNC)
        + flag_if(creates && excludes, EXCL)
}

/// Whether a file is emptied, and not both made and written.
pub(crate) fn empties(flags: u32) -> bool
    ensures { result ≡ spec.empties flags }
{
    has(flags, TRUNC) && !(has(flags, CREAT) && has(flags, WRITE))
}

/// Whether a flag is set.
pub(crate) fn has(flags: u32, flag: u32) -> bool
    ensures { result ≡ has_flag flags flag }
{
    flags & flag == flag
}

/// The flag if it holds, else none.
fn flag_if(holds: bool, flag: u32) -> u32
    ensures flag { result ≡ spec.flag_if holds flag }
    ensures few { result ≤ flag }
{
    if holds { flag } else { 0 }
}
