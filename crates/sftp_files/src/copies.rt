//! Files that are read more than once. Of what cannot be, such as a pipe, a copy is read: a file without a name.
ghost use Rattle.std.specs.Prelude.{◌≡◌, IfErr};
ghost use Rattle.sftp_files.specs.Failures.{failure_status};

use crate::System;
use crate::messages::Failure;
use crate::reading::{is_read_again, open};
use crate::saving::{PRIVATE, fresh_path, new_file};
use crate::watching::Watched;
use std::fs::File;
use std::io::Read;
use std::os::fd::AsRawFd;
use std::{env, fs, io};

/// Where copies are, unless TMPDIR names another folder.
const FOLDER: &str = "/tmp";

/// A file that can be read more than once: the one of this name, or a copy of it.
#[derive(Drop)]
pub struct Repeatable<'a> {
    name: &'a str,
    copy: Option<Copied>,
}

/// A copy without a name. It is there while it is open, and read at this path.
#[derive(Drop)]
struct Copied {
    file: File,
    path: String,
}

impl<'a> Repeatable<'a> {
    /// The file `name`, or a copy of it. One that has to be copied may have so many bytes, if there is a limit.
    ///
    /// # Errors
    ///
    /// If the file cannot be copied, or has more bytes than the limit.
    pub fn of<R: System>(
        rt: &R,
        name: &'a str,
        limit: Option<u64>,
    ) -> Result<Repeatable<'a>, Failure<'a>>
        ensures { IfErr result (λ failure. failure_status failure ≡ 3) }
    {
        if is_read_again(rt, name) {
            return Ok(Repeatable { name, copy: None });
        }
        let copied = copy_of(rt, name, limit.unwrap_or(u64::MAX))?;
        Ok(Repeatable {
            name,
            copy: Some(copied),
        })
    }

    /// The path at which it is read. That of a copy leads to nothing once this is dropped.
    pub fn path(&self) -> &str {
        match &self.copy {
            Some(copied) => copied.path.as_str(),
            None => self.name,
        }
    }
}

/// A copy of the file `name`, which may have so many bytes.
fn copy_of<'a, R: System>(rt: &R, name: &'a str, most: u64) -> Result<Copied, Failure<'a>>
    ensures { IfErr result (λ failure. failure_status failure ≡ 3) }
{
    let file = open(rt, name)?;
    let mut bytes = Watched::new(file.take(most.saturating_add(1)));
    let copied = copy_bytes(rt, &mut bytes);
    let flow = bytes.flow();
    drop(bytes);
    match copied {
        Ok(copied) => {
            if flow.bytes > most {
                drop(copied);
                return Err(Failure::OverLimit(name));
            }
            Ok(copied)
        }
        Err(error) => {
            if flow.code.is_some() {
                return Err(Failure::reading(name, &error));
            }
            Err(Failure::copying(name, &error))
        }
    }
}

/// A copy of these bytes, which can be opened.
fn copy_bytes<R: System, F: Read>(rt: &R, bytes: &mut F) -> io::Result<Copied> {
    let mut file = nameless_file(rt)?;
    io::copy(bytes, &mut file)?;
    let number = file.as_raw_fd();
    let path = format!(in rt.alloc(); "/proc/self/fd/{number}")?;
    drop(fs::open(rt, path.as_str())?);
    Ok(Copied { file, path })
}

/// A new file below TMPDIR that has no name.
fn nameless_file<R: System>(rt: &R) -> io::Result<File> {
    let folder = env::temp_dir(rt)?;
    let made = nameless_file_in(rt, folder.as_str());
    drop(folder);
    made
}

fn nameless_file_in<R: System>(rt: &R, folder: &str) -> io::Result<File> {
    let folder = if folder.is_empty() { FOLDER } else { folder };
    let start = format!(in rt.alloc(); "{folder}/sftpv3")?;
    let fresh = fresh_path(rt, start.as_str())?;
    let file = new_file(rt, fresh.as_str(), PRIVATE)?;
    fs::remove_file(rt, fresh.as_str())?;
    Ok(file)
}
