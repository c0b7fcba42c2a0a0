//! Symbolic links on the way to a file that is written. They are followed one at a time, but for those that another
//! user may have put there.
ghost use Rattle.std.specs.Prelude.{◌↔◌, IsTrue};
ghost use Rattle.sftp_files.specs.Failures.{IsPlanted, IsTrusted};

use crate::System;
use std::fs::{Files, Metadata};
use std::os::unix::fs::MetadataExt;
use std::{fs, io};

/// Why nothing is written where a name leads.
pub(crate) const UNTRUSTED: &str = "a symbolic link of another user is on the way";

/// The most links that lead to one file, as the system has it.
const MOST: usize = 40;

/// The error of the system where links are too many, or where none may be.
pub(crate) const TOO_MANY_LINKS: i32 = 40;

/// The directory of this process. It belongs to the user whose permissions the process has.
const PROCESS: &str = "/proc/self";

/// The permissions by which others than its owner write to a folder.
const OTHERS_WRITE: u32 = 0o022;

/// The bit of a folder in which nobody renames what is another user's.
const STICKY: u32 = 0o1000;

/// Whose a file is, and its permissions.
#[derive(Clone, Copy)]
pub(crate) struct Owned {
    pub(crate) uid: u32,
    pub(crate) gid: u32,
    pub(crate) permissions: u32,
}

pub(crate) fn owner_of(file: &Metadata) -> Owned {
    Owned {
        uid: file.uid(),
        gid: file.gid(),
        permissions: file.mode(),
    }
}

/// The path to which the name leads, on which there is no link; nothing, if one on the way is not followed.
pub(crate) fn path_of<R: System>(rt: &R, name: &str) -> io::Result<Option<String>> {
    let mut path = String::from_str(rt.alloc(), name)?;
    for _ in 0..=MOST {
        match first_link(rt, path.as_str()) {
            None => return Ok(Some(path)),
            Some((link, _)) if !is_followed(rt, link) => return Ok(None),
            Some((link, rest)) => path = behind(rt, link, rest)?,
        }
    }
    Err(io::Error::from_raw_os_error(TOO_MANY_LINKS))
}

/// The part of a path that is its first link, and what comes behind it.
fn first_link<'a, R: Files>(rt: &R, path: &'a str) -> Option<(&'a str, &'a str)> {
    for end in 1..=path.len() {
        match path.split_at_checked(end) {
            Some((part, rest)) if is_linked(rt, part, rest) => return Some((part, rest)),
            _ => {}
        }
    }
    None
}

/// Whether a part of a path, behind which this comes, ends in a name that is a link.
fn is_linked<R: Files>(rt: &R, part: &str, rest: &str) -> bool {
    let is_whole = rest.is_empty() || rest.starts_with('/');
    is_whole && !part.ends_with('/') && is_link(rt, part)
}

pub(crate) fn is_link<R: Files>(rt: &R, name: &str) -> bool {
    match fs::symlink_metadata(rt, name) {
        Ok(metadata) => metadata.is_symlink(),
        Err(_) => false,
    }
}

/// Whether a link is followed that is in this place.
fn is_followed<R: Files>(rt: &R, link: &str) -> bool {
    match (
        fs::symlink_metadata(rt, link),
        fs::metadata(rt, folder_of(link)),
    ) {
        (Ok(found), Ok(folder)) => is_trusted(found.uid(), owner_of(&folder), user(rt)),
        _ => false,
    }
}

/// Whose permissions this process has. Where the system does not say it, it is root, for whom the fewest links are
/// followed.
pub(crate) fn user<R: Files>(rt: &R) -> u32 {
    match fs::metadata(rt, PROCESS) {
        Ok(found) => found.uid(),
        Err(_) => 0,
    }
}

/// Whether a link of this owner in this folder is followed for this user: it is the user's own or root's, or nobody
/// else writes to the folder.
fn is_trusted(link: u32, folder: Owned, user: u32) -> bool
    ensures { IsTrue result ↔ IsTrusted user link folder }
{
    let is_theirs = folder.uid == user || folder.uid == 0;
    link == user || link == 0 || is_theirs && folder.permissions & OTHERS_WRITE == 0
}

/// Whether another user may have put this file at this path, so as to have what the user of this run writes there.
pub(crate) fn is_planted_at<R: Files>(rt: &R, path: &str, file: &Metadata) -> bool {
    match fs::metadata(rt, folder_of(path)) {
        Ok(folder) => is_planted(file.uid(), owner_of(&folder), user(rt)),
        Err(_) => true,
    }
}

/// Whether a file of this owner in this folder is neither this user's nor that of the folder's owner, and the folder is
/// one in which others make files of their own.
fn is_planted(file: u32, folder: Owned, user: u32) -> bool
    ensures { IsTrue result ↔ IsPlanted user file folder }
{
    let is_theirs = file == user || file == folder.uid;
    let is_shared = folder.permissions & STICKY != 0 && folder.permissions & OTHERS_WRITE != 0;
    is_shared && !is_theirs
}

/// The path behind a link, with what comes behind it.
fn behind<R: System>(rt: &R, link: &str, rest: &str) -> io::Result<String> {
    let target = fs::read_link(rt, link)?;
    let path = path_behind(rt, link, target.as_str(), rest);
    drop(target);
    path
}

fn path_behind<R: System>(rt: &R, link: &str, target: &str, rest: &str) -> io::Result<String> {
    let path = match link.rsplit_once('/') {
        Some((folder, _)) if !target.starts_with('/') => {
            format!(in rt.alloc(); "{folder}/{target}{rest}")
        }
        _ => format!(in rt.alloc(); "{target}{rest}"),
    };
    Ok(path?)
}

/// The folder of the file at this path.
pub(crate) fn folder_of(path: &str) -> &str {
    match path.rsplit_once('/') {
        Some(("", _)) => "/",
        Some((folder, _)) => folder,
        None => ".",
    }
}
