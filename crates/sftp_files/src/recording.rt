//! Where the record of a session goes.
use crate::System;
use crate::links::{TOO_MANY_LINKS, UNTRUSTED, is_link, is_planted_at, path_of, user};
use crate::messages::{Failure, MORE};
use crate::options::ServeOptions;
use crate::saving::{Keeping, is_file_of, is_own, new_file, sync_folder};
use crate::watching::{Flow, Watched};
use std::alloc::{AllocError, Global};
use std::fs::{File, Files, Metadata, OpenOptions, TryLockError};
use std::io::{BufWriter, ErrorKind, Write};
use std::os::unix::fs::{FileTypeExt, MetadataExt};
use std::{fs, io};

/// What precedes a packet of the client in a transcript. The record of a session is written in pieces, and this is one
/// of them.
const CLIENT: &[u8] = b"C";

/// Why a session cannot be recorded in a file.
const TAKEN: &str = "another session records into it";

/// The error of the system where a file is another user's.
const PERMISSION_DENIED: i32 = 13;

/// Why a session is not recorded in a file.
const ANOTHERS: &str = "it belongs to another user";

/// The file that a session is recorded in.
#[derive(Drop)]
struct Opened {
    file: File,
    /// Whether there was none of its name.
    is_new: bool,
}

/// Where the record of a session goes.
#[derive(Drop)]
pub enum Recording {
    /// To this file, and at the end of the session to the disk.
    Synced(BufWriter<File>),
    /// To this file.
    File(BufWriter<File>),
    /// Nowhere.
    Nowhere,
}

impl Recording {
    /// To the file that the options name, or nowhere if they name none. A file that is there is emptied.
    pub fn new<'a, R: System>(
        rt: &R,
        options: &ServeOptions<'a>,
    ) -> Result<Recording, Failure<'a>> {
        match options.record {
            Some(name) => record_in(rt, name, options),
            None => Ok(Recording::Nowhere),
        }
    }
}

fn record_in<'a, R: System>(
    rt: &R,
    name: &'a str,
    options: &ServeOptions<'a>,
) -> Result<Recording, Failure<'a>> {
    match path_of(rt, name) {
        Ok(Some(path)) => {
            let recording = record_at(rt, name, path.as_str(), options);
            drop(path);
            recording
        }
        Ok(None) => Err(Failure::Unfit(name, UNTRUSTED)),
        Err(error) => Err(Failure::writing(name, &error)),
    }
}

/// To the file `name`, which leads to this path.
fn record_at<'a, R: System>(
    rt: &R,
    name: &'a str,
    path: &str,
    options: &ServeOptions<'a>,
) -> Result<Recording, Failure<'a>> {
    if is_trap(rt, path) {
        return Err(Failure::Unfit(name, ANOTHERS));
    }
    match open(rt, name, path, options.keeping) {
        Ok(opened) => {
            let Opened { file, is_new } = opened;
            match claim(rt, name, path, &file, options) {
                Ok(()) => recording_to(rt, name, path, file, is_new, options.keeping),
                Err(failure) => {
                    drop(file);
                    remove_new(rt, path, is_new);
                    Err(failure)
                }
            }
        }
        Err(error) => Err(Failure::writing(name, &error)),
    }
}

/// Whether a FIFO of another user is at this path.
fn is_trap<R: Files>(rt: &R, path: &str) -> bool {
    match fs::symlink_metadata(rt, path) {
        Ok(found) => is_fifo_of_another(rt, &found),
        Err(_) => false,
    }
}

/// Whether a file is a FIFO of another user. To open it would take as long as that user likes.
fn is_fifo_of_another<R: Files>(rt: &R, found: &Metadata) -> bool {
    found.file_type().is_fifo() && found.uid() != user(rt)
}

/// Removes a file that was made in vain.
fn remove_new<R: Files>(rt: &R, path: &str, is_new: bool) {
    if is_new {
        let _ = fs::remove_file(rt, path);
    }
}

/// Opens the file of this name, which leads to this path. It is made if there is none, unless the name is a link, and
/// unchanged otherwise.
fn open<R: System>(rt: &R, name: &str, path: &str, keeping: Keeping) -> io::Result<Opened> {
    if is_link(rt, name) {
        return open_old(rt, name, path);
    }
    match new_file(rt, path, keeping.mode) {
        Ok(file) => Ok(Opened { file, is_new: true }),
        Err(error) => match error.kind() {
            ErrorKind::AlreadyExists => open_old(rt, name, path),
            _ => Err(error),
        },
    }
}

/// Opens what is at this path. What the caller has open may have a name and no path, as a pipe has.
fn open_old<R: System>(rt: &R, name: &str, path: &str) -> io::Result<Opened> {
    match fs::symlink_metadata(rt, path) {
        Ok(found) if is_fifo_of_another(rt, &found) => {
            Err(io::Error::from_raw_os_error(PERMISSION_DENIED))
        }
        Ok(found) => {
            let file = open_found(rt, path, &found)?;
            opened_if(is_same_file(&file, &found), file)
        }
        Err(_) => {
            let file = OpenOptions::new().write(true).open(rt, name)?;
            opened_if(!is_regular(&file), file)
        }
    }
}

/// Opens what was found at this path. Instead of a regular file there may be a FIFO by now: opened for reading, too, it
/// does not wait.
fn open_found<R: System>(rt: &R, path: &str, found: &Metadata) -> io::Result<File> {
    OpenOptions::new()
        .read(found.is_file())
        .write(true)
        .open(rt, path)
}

/// An open file, unless a link that appeared meanwhile led to it.
fn opened_if(is_wanted: bool, file: File) -> io::Result<Opened> {
    if is_wanted {
        Ok(Opened {
            file,
            is_new: false,
        })
    } else {
        drop(file);
        Err(io::Error::from_raw_os_error(TOO_MANY_LINKS))
    }
}

/// Whether an open file is the one that was found.
fn is_same_file(file: &File, found: &Metadata) -> bool {
    match file.metadata() {
        Ok(opened) => opened.dev() == found.dev() && opened.ino() == found.ino(),
        Err(_) => false,
    }
}

/// Takes an open file for this session alone, unless it is another file of the session or of another session.
fn claim<'a, R: System>(
    rt: &R,
    name: &'a str,
    path: &str,
    file: &File,
    options: &ServeOptions<'a>,
) -> Result<(), Failure<'a>> {
    match file.metadata() {
        Ok(found) => {
            if is_named_twice(rt, &found, options) {
                return Err(Failure::of_usage(named_twice(rt.alloc())));
            }
            if is_of_another(rt, path, &found, file) {
                return Err(Failure::Unfit(name, ANOTHERS));
            }
            lock(name, file)
        }
        Err(error) => Err(Failure::writing(name, &error)),
    }
}

/// Whether an open file or pipe at this path is another user's, who says who reads it. A device is nobody's.
fn is_of_another<R: Files>(rt: &R, path: &str, found: &Metadata, file: &File) -> bool {
    let keeps = found.is_file() || found.file_type().is_fifo();
    keeps && (!is_own(file) || is_planted_at(rt, path, found))
}

/// Whether the file is also one that the session reads, or the one to save its tree to.
fn is_named_twice<R: Files>(rt: &R, file: &Metadata, options: &ServeOptions<'_>) -> bool {
    if is_file_of(rt, options.tree, file) || is_file_of_any(rt, options.replay, file) {
        return true;
    }
    file.is_file() && is_file_of_any(rt, options.save, file)
}

/// Whether a name is given and leads to this file.
fn is_file_of_any<R: Files>(rt: &R, name: Option<&str>, file: &Metadata) -> bool {
    match name {
        Some(name) => is_file_of(rt, name, file),
        None => false,
    }
}

/// The message for a record that is another file of the session.
fn named_twice(alloc: Global) -> Result<String, AllocError> {
    format!(in alloc;
        "error: '--record' names the file of '--tree', '--save' or '--replay'\n{MORE}"
    )
}

/// Locks an open file, until it is closed. A file system that has no locks has no part in this.
fn lock<'a>(name: &'a str, file: &File) -> Result<(), Failure<'a>> {
    match file.try_lock() {
        Ok(()) => Ok(()),
        Err(TryLockError::WouldBlock) => Err(Failure::Unfit(name, TAKEN)),
        Err(TryLockError::Error(_)) => Ok(()),
    }
}

/// The record goes to this open file, which is emptied.
fn recording_to<'a, R: System>(
    rt: &R,
    name: &'a str,
    path: &str,
    file: File,
    is_new: bool,
    keeping: Keeping,
) -> Result<Recording, Failure<'a>> {
    let is_file = is_regular(&file);
    match prepare(rt, path, &file, is_file, is_new, keeping) {
        Ok(()) => match BufWriter::new(rt.alloc(), file) {
            Ok(writer) if keeping.is_synced && is_file => Ok(Recording::Synced(writer)),
            Ok(writer) => Ok(Recording::File(writer)),
            Err(error) => Err(Failure::writing(name, &error)),
        },
        Err(error) => {
            drop(file);
            Err(Failure::writing(name, &error))
        }
    }
}

fn is_regular(file: &File) -> bool {
    match file.metadata() {
        Ok(found) => found.is_file(),
        Err(_) => false,
    }
}

/// Empties a regular file, and has the name of a new one on the disk.
fn prepare<R: System>(
    rt: &R,
    path: &str,
    file: &File,
    is_file: bool,
    is_new: bool,
    keeping: Keeping,
) -> io::Result<()> {
    if is_file {
        file.set_len(0)?;
    }
    if is_new {
        sync_folder(rt, path, keeping)
    } else {
        Ok(())
    }
}

impl Write for Recording {
    fn write(&mut self, bytes: &[u8]) -> io::Result<usize> {
        match self {
            Recording::Synced(writer) => writer.write(bytes),
            Recording::File(writer) => writer.write(bytes),
            Recording::Nowhere => Ok(bytes.len()),
        }
    }

    // A session flushes its record once, when it ends.
    fn flush(&mut self) -> io::Result<()> {
        match self {
            Recording::Synced(writer) => {
                writer.flush()?;
                writer.get_ref().sync_data()
            }
            Recording::File(writer) => writer.flush(),
            Recording::Nowhere => Ok(()),
        }
    }
}

/// The record of a session, and how many packets of the client are in it.
#[derive(Drop)]
pub struct Record {
    place: Watched<Recording>,
    sent: u64,
}

impl Record {
    /// Nothing is recorded yet.
    pub fn new(place: Recording) -> Record {
        Record {
            place: Watched::new(place),
            sent: 0,
        }
    }

    /// How many requests are recorded. The client's first packet is its INIT.
    pub fn request_count(&self) -> u64 {
        self.sent.saturating_sub(1)
    }

    /// What was written.
    pub fn flow(&self) -> Flow {
        self.place.flow()
    }
}

impl Write for Record {
    fn write(&mut self, bytes: &[u8]) -> io::Result<usize> {
        if bytes == CLIENT {
            self.sent = self.sent.saturating_add(1);
        }
        self.place.write(bytes)
    }

    fn flush(&mut self) -> io::Result<()> {
        self.place.flush()
    }
}
