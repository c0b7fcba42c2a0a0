//! Directories that grow entry by entry, in the order of places: each entry is put where the one before it was, without
//! a search from the root.
ghost use Rattle.std.specs.Prelude.{◌≡◌, ◌≤◌, ◌<◌, ◌++◌, [], ◌∷◌, length, take, IfOk, OnOk};
ghost use Rattle.std.specs.List.{AllByRecursion};
ghost use Rattle.std.specs.Map.{keys_of};
ghost use Rattle.std.specs.declared.cmp.Ordering.TheVariants.{Less};
ghost use Rattle.sftp_path.specs.Place.{place_cmp, parent};
ghost use Rattle.sftp_path.specs.Table.{InOrder};
ghost use Rattle.sftp_tree.specs.declared.nodes.Node.TheVariants.{Dir as dir_node};
ghost use Rattle.sftp_tree.specs.PictureParts.{names_in, place_in, open_after};
ghost use Rattle.sftp_tree.specs.PictureParts.{only_root};

use super::directories::{Child, Dir};
use crate::nodes::Node;
use sftp_path::{Name, NoMemory};
use sftp_treefile::Owner;
use std::alloc::Global;
use std::mem;

/// A directory that waits for its last child, which has this name.
#[derive(Drop)]
struct Opened {
    dir: Dir,
    name: Name,
}

/// The directories from the root to the one that gets the next entries.
#[derive(Drop)]
pub(crate) struct Growth {
    /// Those above it, the root first.
    above: Vec<Opened>,
    top: Dir,
}

impl Growth {
    /// The root alone. Does not allocate.
    pub(crate) fn new(alloc: Global, root: Owner) -> Growth
        ensures names { names_in result ≡ only_root root }
        ensures place { place_in result ≡ [] }
    {
        Growth {
            above: Vec::new(alloc),
            top: Dir::new(alloc, root),
        }
    }

    /// Puts the directory that gets the next entries into the one above it, which then gets them.
    fn close(&mut self) -> Result<(), NoMemory>
        requires above { 0 < length self.old.above.items }
        requires ordered { InOrder place_cmp (names_in self.old) }
        ensures names { OnOk result (names_in self.new ≡ names_in self.old) }
        ensures place { OnOk result (place_in self.new ≡ parent (place_in self.old)) }
    {
        let Some(opened) = self.above.pop() else {
            unreachable!()
        };
        let child = mem::replace(&mut self.top, opened.dir).into_child();
        self.top.push(opened.name, child)?;
        Ok(())
    }

    /// Goes up to the open directory whose place has `depth` names.
    fn close_below(&mut self, depth: usize) -> Result<(), NoMemory>
        requires depth { depth ≤ length (place_in self.old) }
        requires ordered { InOrder place_cmp (names_in self.old) }
        ensures names { OnOk result (names_in self.new ≡ names_in self.old) }
        ensures place { OnOk result (place_in self.new ≡ take depth (place_in self.old)) }
    {
        'levels: while self.above.len() > depth {
            self.close()?;
        }
        Ok(())
    }

    /// Opens a new directory, which gets the next entries.
    fn open(&mut self, name: Name, owner: Owner) -> Result<(), NoMemory>
        ensures names { OnOk result
            (names_in self.new ≡ names_in self.old ++ (place_in self.old ++ name ∷ [], dir_node owner) ∷ []) }
        ensures place { OnOk result (place_in self.new ≡ place_in self.old ++ name ∷ []) }
    {
        let alloc = *self.above.allocator();
        let dir = mem::replace(&mut self.top, Dir::new(alloc, owner));
        self.above.push(Opened { dir, name })?;
        Ok(())
    }

    /// Puts an entry after all others, with this name, into the directory that gets the next entries.
    fn add(&mut self, name: Name, node: Node) -> Result<(), NoMemory>
        requires last { AllByRecursion
            (λ other. place_cmp other (place_in self.old ++ name ∷ []) ≡ Less) (keys_of (names_in self.old)) }
        ensures names { OnOk result
            (names_in self.new ≡ names_in self.old ++ (place_in self.old ++ name ∷ [], node) ∷ []) }
        ensures place { OnOk result (place_in self.new ≡ open_after (place_in self.old ++ name ∷ []) node) }
    {
        match node {
            Node::Dir(owner) => self.open(name, owner)?,
            Node::File(number) => self.top.push(name, Child::File(number))?,
            Node::Link(target) => self.top.push(name, Child::Link(target))?,
        }
        Ok(())
    }

    /// Puts an entry with this name after all others, into the open directory whose place has `depth` names.
    ///
    /// # Errors
    ///
    /// `NoMemory` if memory runs out.
    pub(crate) fn put(&mut self, depth: usize, name: Name, node: Node) -> Result<(), NoMemory>
        requires ordered { InOrder place_cmp (names_in self.old) }
        requires depth { depth ≤ length (place_in self.old) }
        requires last { AllByRecursion (λ other. place_cmp other (take depth (place_in self.old) ++ name ∷ []) ≡ Less)
            (keys_of (names_in self.old)) }
        ensures names { OnOk result
            (names_in self.new ≡ names_in self.old ++ (take depth (place_in self.old) ++ name ∷ [], node) ∷ []) }
        ensures place { OnOk result
            (place_in self.new ≡ open_after (take depth (place_in self.old) ++ name ∷ []) node) }
    {
        self.close_below(depth)?;
        self.add(name, node)?;
        Ok(())
    }

    /// The root, when all entries have come.
    ///
    /// # Errors
    ///
    /// `NoMemory` if memory runs out.
    pub(crate) fn finish(self) -> Result<Dir, NoMemory>
        requires ordered { InOrder place_cmp (names_in self) }
        ensures { IfOk result (λ root. root ≡ names_in self) }
    {
        let mut growth = self;
        growth.close_below(0)?;
        let Growth { above: _, top } = growth;
        Ok(top)
    }
}
