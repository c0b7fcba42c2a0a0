//! The directories from the root to the one that a walk has reached.
ghost use Rattle.std.specs.Prelude.{◌≡◌, ◌++◌, [], ◌∷◌, Some, OnOk, OnErr};
ghost use Rattle.sftp_path.specs.Place.{parent};
ghost use Rattle.sftp_tree.specs.Nesting.{IsAt, IsLentAt};

use super::directories::{Child, Dir};
use super::seen::Seen;
use sftp_path::{Name, NoMemory, Place};
use std::alloc::Global;
use std::marker::Model;

/// How far a walk has come: the directory that it has reached, and those that lead there.
#[derive(Drop)]
pub(crate) struct Trail<'a> {
    root: &'a Dir,
    /// The directories between the root and the one that it has reached, from the top down. There are none for a path
    /// such as `/d/f`, so its walk allocates nothing for them.
    between: Vec<&'a Dir>,
    /// The directory that it has reached.
    here: &'a Dir,
    /// The place of that directory.
    at: Place,
}

impl<'a> Model for Trail<'a> {
    ghost use Rattle.sftp_tree.specs.Nesting.{Standing, DescendTo};

    ghost Value = { Standing };

    ghost view = { λ trail. record { names = trail.root.now; at = trail.at } };

    ghost invariant = { λ trail. DescendTo trail.root trail.between.items trail.at trail.here };
}

impl<'a> Trail<'a> {
    /// A walk that is at the root. Does not allocate.
    pub(crate) fn new(alloc: Global, root: &'a Dir) -> Trail<'a>
        ensures { result ≡ record { names = root.now; at = [] } }
    {
        Trail {
            root,
            between: Vec::new(alloc),
            here: root,
            at: Place::root(alloc),
        }
    }

    /// The directory that it has reached.
    pub(crate) fn here(&self) -> Seen<'a>
        ensures { IsLentAt self.now.names self.now.at (Some result) }
    {
        Seen::Dir(self.here.owner(), self.here)
    }

    /// The node of that name in the directory that the trail has reached.
    pub(crate) fn find(&self, name: &Name) -> Option<Seen<'a>>
        ensures { IsLentAt self.now.names (self.now.at ++ name.now ∷ []) result }
    {
        match self.here.child(name) {
            Some(Child::Dir(dir)) => Some(Seen::Dir(dir.owner(), dir)),
            Some(Child::File(number)) => Some(Seen::File(*number)),
            Some(Child::Link(target)) => Some(Seen::Link(target.as_slice())),
            None => None,
        }
    }

    /// What allocates the place.
    pub(crate) fn allocator(&self) -> Global {
        self.at.allocator()
    }

    /// Goes down to the directory there at a name.
    ///
    /// # Errors
    ///
    /// `NoMemory` if memory runs out; the trail is unchanged.
    pub(crate) fn enter(&mut self, name: Name, dir: &'a Dir) -> Result<(), NoMemory>
        requires { IsAt self.old.names (self.old.at ++ name ∷ []) dir.now }
        ensures ok { OnOk result (self.new ≡ record self.old { at = self.old.at ++ name ∷ [] }) }
        ensures err { OnErr result (self.new ≡ self.old) }
    {
        let is_at_root = self.at.depth() == 0;
        self.at.enter(name)?;
        if is_at_root {
            self.here = dir;
            return Ok(());
        }
        match self.between.push(self.here) {
            Ok(()) => {
                self.here = dir;
                Ok(())
            }
            Err(_) => {
                self.at.leave();
                Err(NoMemory)
            }
        }
    }

    /// Goes to the directory above; at the root it changes nothing.
    pub(crate) fn leave(&mut self)
        ensures { self.new ≡ record self.old { at = parent self.old.at } }
    {
        self.at.leave();
        match self.between.pop() {
            Some(dir) => self.here = dir,
            None => self.here = self.root,
        }
    }

    /// Goes up to the root.
    pub(crate) fn go_to_root(&mut self)
        ensures { self.new ≡ record self.old { at = [] } }
    {
        self.here = self.root;
        self.between.clear();
        self.at = Place::root(self.at.allocator());
    }

    /// The place that it has reached.
    pub(crate) fn into_place(self) -> Place
        ensures { result ≡ self.entry.at }
    {
        self.at
    }
}
