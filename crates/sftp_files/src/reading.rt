//! Files that are read: opened, or whole.
ghost use Rattle.std.specs.Prelude.{◌≡◌, IfErr};
ghost use Rattle.sftp_files.specs.Failures.{IsUnread};
ghost use Rattle.sftp_files.specs.Failures.{failure_status};

use crate::messages::{Failure, IS_A_DIRECTORY};
use std::fs::Files;
use std::io::Read;
use std::{fs, io};

/// The name of standard input, as a path that the system opens.
const INPUT: &str = "/dev/stdin";

/// The path of a file that is read: `-` is standard input.
fn read_at(name: &str) -> &str {
    if name == "-" { INPUT } else { name }
}

/// Whether the file `name` can be read more than once. A pipe cannot.
pub fn is_read_again<R: Files>(rt: &R, name: &str) -> bool {
    fs::metadata(rt, read_at(name)).is_ok_and(|found| found.is_file())
}

/// Opens the file `name` to read it.
pub fn open<'a, R: Files>(rt: &R, name: &'a str) -> Result<R::File, Failure<'a>>
    ensures { IfErr result IsUnread }
{
    open_at(rt, name, name)
}

/// Opens the file `name`, which is read at this path, to read it.
pub fn open_at<'a, R: Files>(rt: &R, path: &str, name: &'a str) -> Result<R::File, Failure<'a>>
    ensures { IfErr result IsUnread }
{
    match opened(rt, path) {
        Ok(file) => Ok(file),
        Err(error) => Err(Failure::reading(name, &error)),
    }
}

/// Opens what is at this path to read it. A directory, which the system would open, cannot be read.
fn opened<R: Files>(rt: &R, path: &str) -> io::Result<R::File> {
    let path = read_at(path);
    if fs::metadata(rt, path).is_ok_and(|found| found.is_dir()) {
        Err(io::Error::from_raw_os_error(IS_A_DIRECTORY))
    } else {
        fs::open(rt, path)
    }
}

/// The bytes of the file `name`, if there are at most as many as a limit says.
pub fn read_at_most<'a, R: Files + AllocGlobal>(
    rt: &R,
    name: &'a str,
    most: Option<u64>,
) -> Result<Vec<u8>, Failure<'a>>
    ensures { IfErr result (λ failure. failure_status failure ≡ 3) }
{
    match most {
        Some(most) => read_some(rt, name, most),
        None => read(rt, name),
    }
}

fn read_some<'a, R: Files + AllocGlobal>(
    rt: &R,
    name: &'a str,
    most: u64,
) -> Result<Vec<u8>, Failure<'a>>
    ensures { IfErr result (λ failure. failure_status failure ≡ 3) }
{
    let file = open(rt, name)?;
    let mut bytes = Vec::new(rt.alloc());
    match file.take(most.saturating_add(1)).read_to_end(&mut bytes) {
        Ok(_) if bytes.len() as u64 <= most => Ok(bytes),
        Ok(_) => {
            drop(bytes);
            Err(Failure::OverLimit(name))
        }
        Err(error) => {
            drop(bytes);
            Err(Failure::reading(name, &error))
        }
    }
}

/// The bytes of the file `name`.
pub fn read<'a, R: Files + AllocGlobal>(rt: &R, name: &'a str) -> Result<Vec<u8>, Failure<'a>>
    ensures { IfErr result IsUnread }
{
    match fs::read(rt, read_at(name)) {
        Ok(bytes) => Ok(bytes),
        Err(error) => Err(Failure::reading(name, &error)),
    }
}
