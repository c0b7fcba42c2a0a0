//! The files of a session: those that are read, and those that trees are written to. A contract that is generic in them
//! says what is judged and what is written, in terms of their bytes.
ghost use Rattle.std.specs.Prelude.{◌≡◌, ℕ, List, Option, None, Some, IfOk, IfErr, OnOk};
ghost use Rattle.sftp_files.specs.Failures.{IsUnread, IsUnwritten};
ghost use Rattle.sftp_tree.specs.Picture.{picture};
ghost use Rattle.sftp_verdicts.specs.Files.{Becomes};

use sftp_commands::write_tree;
use sftp_files::{Failure, Keeping, System, open_at, write};
use sftp_tree::Tree;
use std::fs::Files;
use std::io::Read;

/// A file that is opened to be read, each time from its start.
pub trait Opens<'a> {
    type File: Read + Drop;

    /// The bytes of the file, where they are known.
    ghost bytes: { Self → Option (List ℕ) };

    /// The path at which it is read.
    fn path(&self) -> &str;

    /// Opens the file.
    ///
    /// # Errors
    ///
    /// If it cannot be read.
    fn open(&self) -> Result<Self::File, Failure<'a>>
        ensures bytes { IfOk result (λ file. (known : List ℕ) → bytes self.now ≡ Some known →
            Self.File.Read.remaining file ≡ Some known) }
        ensures err { IfErr result IsUnread };
}

/// A file that a tree file is written to, whole.
pub trait Stores<'a> {
    /// What the file has, where that is known.
    ghost stored: { Self → Option (List ℕ) };

    /// Writes the tree file of this tree, in the place of what was there.
    ///
    /// # Errors
    ///
    /// If the file cannot be written, or memory runs out.
    fn store_tree(&mut self, tree: &Tree) -> Result<(), Failure<'a>>
        ensures ok { OnOk result (Becomes (stored self.old) (stored self.new) (picture tree.now)) }
        ensures err { IfErr result IsUnwritten };

    /// Writes these bytes, in the place of what was there.
    ///
    /// # Errors
    ///
    /// As `store_tree`.
    fn store(&mut self, bytes: &[u8]) -> Result<(), Failure<'a>>
        ensures ok { OnOk result (Becomes (stored self.old) (stored self.new) bytes.now) }
        ensures err { IfErr result IsUnwritten };
}

/// The file of a name, which is read at a path. Nothing is known of its bytes.
#[derive(Drop)]
pub struct NamedFile<'r, 'p, 'a, R> {
    rt: &'r R,
    path: &'p str,
    name: &'a str,
}

impl<'r, 'p, 'a, R> NamedFile<'r, 'p, 'a, R> {
    /// The file `name`, which is read at this path.
    pub fn new(rt: &'r R, path: &'p str, name: &'a str) -> NamedFile<'r, 'p, 'a, R> {
        NamedFile { rt, path, name }
    }
}

impl<'a, R: Files> Opens<'a> for NamedFile<'_, '_, 'a, R> {
    type File = R::File;

    ghost bytes = { λ _. None };

    fn path(&self) -> &str {
        self.path
    }

    fn open(&self) -> Result<R::File, Failure<'a>> {
        open_at(self.rt, self.path, self.name)
    }
}

/// A file whose bytes are held in memory.
#[derive(Clone, Copy)]
pub struct Held<'h> {
    path: &'h str,
    bytes: &'h [u8],
}

impl<'h> Held<'h> {
    /// These bytes, which are those of the file at this path.
    pub fn new(path: &'h str, bytes: &'h [u8]) -> Held<'h> {
        Held { path, bytes }
    }
}

impl<'a, 'h> Opens<'a> for Held<'h> {
    type File = &'h [u8];

    ghost bytes = { λ held. Some held.bytes.now };

    fn path(&self) -> &str {
        self.path
    }

    fn open(&self) -> Result<&'h [u8], Failure<'a>> {
        Ok(self.bytes)
    }
}

/// The file of a name, if there is one, which is made or replaced. Nothing is known of its bytes.
#[derive(Drop)]
pub struct StoredFile<'r, 'a, R> {
    rt: &'r R,
    name: Option<&'a str>,
    keeping: Keeping,
}

impl<'r, 'a, R> StoredFile<'r, 'a, R> {
    /// The file `name`. With none, nothing is written.
    pub fn new(rt: &'r R, name: Option<&'a str>, keeping: Keeping) -> StoredFile<'r, 'a, R> {
        StoredFile { rt, name, keeping }
    }
}

impl<'a, R: System> Stores<'a> for StoredFile<'_, 'a, R> {
    ghost stored = { λ _. None };

    fn store_tree(&mut self, tree: &Tree) -> Result<(), Failure<'a>> {
        match self.name {
            Some(name) => write_tree(self.rt, name, self.keeping, tree),
            None => Ok(()),
        }
    }

    fn store(&mut self, bytes: &[u8]) -> Result<(), Failure<'a>> {
        match self.name {
            Some(name) => write(self.rt, name, self.keeping, bytes),
            None => Ok(()),
        }
    }
}
