//! What a walk still goes over.
ghost use Rattle.std.specs.Prelude.{◌≡◌, ◌++◌, [], ◌∷◌, MatchOption, OnOk};
ghost use Rattle.std.specs.List.{list_all};
ghost use Rattle.sftp_tree.specs.Stepping.{is_done};
ghost use Rattle.sftp_tree.specs.Walk.{is_last};

use sftp_path::{Name, NoMemory, Parts};
use std::alloc::Global;
use std::marker::Model;
use std::mem;

/// What is left of the targets of links, the last link's in front.
#[derive(Drop)]
struct Targets<'a> {
    /// The last link's target.
    front: Parts<'a>,
    /// Those of the links before it, the last one's at the end. They have components left.
    behind: Vec<Parts<'a>>,
}

impl<'a> Model for Targets<'a> {
    ghost use Rattle.std.specs.Prelude.{List, ◌++◌};
    ghost use Rattle.sftp_path.specs.Place.{Name as name};
    ghost use Rattle.sftp_tree.specs.Stepping.{left_of};

    ghost Value = { List name };

    ghost view = { λ t. t.front.left ++ left_of t.behind.items };
}

impl<'a> Targets<'a> {
    /// No target. Does not allocate.
    fn new(alloc: Global) -> Targets<'a>
        ensures { result ≡ [] }
    {
        Targets {
            front: Parts::new(b""),
            behind: Vec::new(alloc),
        }
    }

    /// Takes the first component.
    fn next_component(&mut self) -> Option<&'a [u8]>
        ensures { MatchOption result ((self.old ≡ []) × (self.new ≡ []))
            (λ component. self.old ≡ component.now ∷ self.new) }
    {
        loop {
            if let Some(component) = self.front.next() {
                return Some(component);
            }
            self.front = self.behind.pop()?;
        }
    }

    /// Whether no component is left.
    fn is_done(&self) -> bool
        ensures { result ≡ is_last self.now }
    {
        self.front.is_empty() && are_done(self.behind.as_slice())
    }

    /// Puts the components of a target in front.
    ///
    /// # Errors
    ///
    /// `NoMemory` if memory runs out.
    fn push_front(&mut self, target: Parts<'a>) -> Result<(), NoMemory>
        ensures { OnOk result (self.new ≡ target.entry.left ++ self.old) }
    {
        let before = mem::replace(&mut self.front, target);
        if !before.is_empty() {
            self.behind.push(before)?;
        }
        Ok(())
    }
}

/// Whether none of the targets has a component left.
fn are_done(targets: &[Parts<'_>]) -> bool
    ensures { result ≡ list_all is_done targets.now }
{
    targets.iter().all(|target| target.is_empty())
}

/// The components that a walk still goes over: those of the targets of links, then the home's names, and then those
/// of the path.
#[derive(Drop)]
pub(crate) struct Route<'a> {
    targets: Targets<'a>,
    home: &'a [Name],
    path: Parts<'a>,
}

impl<'a> Model for Route<'a> {
    ghost use Rattle.std.specs.Prelude.{List, ◌++◌};
    ghost use Rattle.sftp_path.specs.Place.{Name as name};

    ghost Value = { List name };

    ghost view = { λ r. r.targets ++ (r.home.now ++ r.path.left) };
}

impl<'a> Route<'a> {
    /// These names, and then the components of a path. Does not allocate.
    pub(crate) fn new(alloc: Global, home: &'a [Name], path: Parts<'a>) -> Route<'a>
        ensures { result ≡ home.now ++ path.entry.left }
    {
        Route {
            targets: Targets::new(alloc),
            home,
            path,
        }
    }

    /// Takes the first component.
    pub(crate) fn next_component(&mut self) -> Option<&'a [u8]>
        ensures { MatchOption result ((self.old ≡ []) × (self.new ≡ []))
            (λ component. self.old ≡ component.now ∷ self.new) }
    {
        if let Some(component) = self.targets.next_component() {
            return Some(component);
        }
        if let Some((name, others)) = self.home.split_first() {
            self.home = others;
            return Some(name.as_slice());
        }
        self.path.next()
    }

    /// Whether no component is left.
    pub(crate) fn is_done(&self) -> bool
        ensures { result ≡ is_last self.now }
    {
        self.targets.is_done() && self.home.is_empty() && self.path.is_empty()
    }

    /// Puts the components of a target in front.
    ///
    /// # Errors
    ///
    /// `NoMemory` if memory runs out.
    pub(crate) fn go_through(&mut self, target: Parts<'a>) -> Result<(), NoMemory>
        ensures { OnOk result (self.new ≡ target.entry.left ++ self.old) }
    {
        self.targets.push_front(target)
    }
}
