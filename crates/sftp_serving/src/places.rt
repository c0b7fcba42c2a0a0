//! Where the tree of a session comes from, where its record goes, and where the tree at its end is saved.
ghost use Rattle.std.specs.Prelude.{◌≡◌, ℕ, List, Option, None, is_some, IfOk, OnOk, OnErr};
ghost use Rattle.sftp_serving.specs.Runs.{HasSaved};

use sftp_clock::TimeTable;
use sftp_commands::{write_timed_tree, write_tree};
use sftp_files::{Failure, Recording, ServeOptions, System, open};
use sftp_tree::Tree;
use std::fs::File;
use std::io::{Read, Write};

/// The places of a session: a tree file that it starts from, a record, and where the tree at its end is saved.
pub trait Places<'a> {
    /// The tree file, once it is open.
    type Tree: Read + Drop;

    /// The record, once it is open.
    type Record: Write + Drop;

    /// The bytes of the tree file, where they are known.
    ghost tree_file: { Self → Option (List ℕ) };

    /// The bytes of the record, where they are known.
    ghost recorded: { Self → Option (List ℕ) };

    /// The bytes where the tree is saved, where they are known.
    ghost saved: { Self → Option (List ℕ) };

    /// Opens the tree file.
    ///
    /// # Errors
    ///
    /// If it cannot be opened.
    fn open_tree(&self) -> Result<Self::Tree, Failure<'a>>
        ensures { IfOk result (λ file. Self.Tree.remaining file ≡ tree_file self.now) };

    /// Opens the record, behind what it has.
    ///
    /// # Errors
    ///
    /// If it cannot be opened.
    fn open_record(&self) -> Result<Self::Record, Failure<'a>>
        ensures { IfOk result (λ log. Self.Record.contents log ≡ recorded self.now) };

    /// Closes the record.
    fn close_record(&mut self, log: Self::Record)
        ensures recorded { recorded self.new ≡ Self.Record.contents log }
        ensures saved { saved self.new ≡ saved self.old };

    /// Saves a tree, with its times if there are some.
    ///
    /// # Errors
    ///
    /// If it cannot be saved. What was saved before stays.
    fn save(&mut self, tree: &Tree, times: &Option<TimeTable>) -> Result<(), Failure<'a>>
        ensures saved { OnOk result (HasSaved (is_some times.now) tree.now (saved self.new)) }
        ensures unsaved { OnErr result (saved self.new ≡ saved self.old) }
        ensures recorded { recorded self.new ≡ recorded self.old };
}

/// The files that the options of a run name.
#[derive(Drop)]
pub(crate) struct NamedFiles<'r, 'a, R> {
    pub(crate) rt: &'r R,
    pub(crate) options: ServeOptions<'a>,
}

// No contract knows what a file of the system has.
impl<'a, R: System> Places<'a> for NamedFiles<'_, 'a, R> {
    type Tree = File;

    type Record = Recording;

    ghost tree_file = { λ files. None };

    ghost recorded = { λ files. None };

    ghost saved = { λ files. None };

    fn open_tree(&self) -> Result<File, Failure<'a>> {
        open(self.rt, self.options.tree)
    }

    fn open_record(&self) -> Result<Recording, Failure<'a>> {
        Recording::new(self.rt, &self.options)
    }

    fn close_record(&mut self, log: Recording) {
        drop(log);
    }

    fn save(&mut self, tree: &Tree, times: &Option<TimeTable>) -> Result<(), Failure<'a>> {
        let Some(name) = self.options.save else {
            return Ok(());
        };
        match times {
            Some(times) => write_timed_tree(self.rt, name, self.options.keeping, tree, times),
            None => write_tree(self.rt, name, self.options.keeping, tree),
        }
    }
}
