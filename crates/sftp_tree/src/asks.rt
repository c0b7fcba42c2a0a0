//! The requests that are judged by the paths that they name (draft, sections 6.3 to 6.11; OpenSSH's PROTOCOL, sections
//! 4.3 and 4.5): first what there is to say of each, which is its paths, the causes of its own bytes, the causes at the
//! places that the paths lead to, whether there is room, and its plan; then what it does to a tree and what it returns.
//! A bad path has the cause `BadPath`, and one that leads nowhere the walk's: `NoEntry`, `NotDir` or `Loop`.
ghost use Rattle.std.specs.Prelude.{◌≡◌, Some, is_some, IfOk, IfErr, IsTrue, OnOk, OnErr, MatchOption, option_copied};
ghost use Rattle.std.specs.Prelude.{option_map};
ghost use Rattle.sftp_packets.specs.declared.requests.Ask.TheVariants.{Setstat, Remove, Mkdir, Rmdir, Realpath, Rename};
ghost use Rattle.sftp_packets.specs.declared.requests.Ask.TheVariants.{Readlink, Symlink, PosixRename, Hardlink, Open};
ghost use Rattle.sftp_treefile.specs.TreeFile.{is_target};
ghost use Rattle.sftp_tree.specs.Nesting.{node_seen};
ghost use Rattle.sftp_tree.specs.StoredFiles.{file_named};
ghost use Rattle.sftp_tree.specs.Tree as tree;
ghost use Rattle.sftp_tree.specs.Requests as requests;
ghost use Rattle.sftp_tree.specs.Requests.{asked};
ghost use Rattle.sftp_tree.specs.Told as told;
ghost use Rattle.sftp_tree.specs.Told.{in_set, IsFree, IsRefusal, stat_ask};
ghost use Rattle.sftp_tree.specs.Plans.{node_of, IsThere, IsFoundIn, planned, AreAny};

use crate::causes::{Cause, Causes, Refused};
use crate::entries::seen::Seen;
use crate::file_numbers::FileNo;
use crate::flags::{are_good, excludes};
use crate::found::Found;
use crate::nodes::Node;
use crate::place_causes::{
    giving, listing, making, naming, needing, opening, reading, setting, unlinking,
};
use crate::plans::{Plan, file_of};
use crate::room::move_fits;
use crate::trees::Tree;
use sftp_packets::{Ask, Attrs};
use sftp_path::{Name, NoMemory, Place, absolute, good_path};

/// A request that is judged by the paths that it names: its fields in the order of its packet.
#[derive(Clone, Copy)]
pub(crate) enum PathAsk<'a> {
    Mkdir(&'a [u8], &'a Attrs),
    Rmdir(&'a [u8]),
    Remove(&'a [u8]),
    Setstat(&'a [u8], &'a Attrs),
    Stat(&'a [u8]),
    Lstat(&'a [u8]),
    Realpath(&'a [u8]),
    Readlink(&'a [u8]),
    /// The target, and the path of the link.
    Symlink(&'a [u8], &'a [u8]),
    Rename(&'a [u8], &'a [u8]),
    PosixRename(&'a [u8], &'a [u8]),
    Hardlink(&'a [u8], &'a [u8]),
    Open(&'a [u8], u32, &'a Attrs),
    Opendir(&'a [u8]),
}

/// The request as one that is judged by its paths, or `None` if it is not one.
pub(crate) fn path_ask(ask: &Ask) -> Option<PathAsk<'_>>
    ensures { MatchOption result (requests.row_of ask.now ≡ requests.no_step) (λ it. asked it ≡ ask.now) }
{
    match ask {
        Ask::Mkdir { path, attrs } => Some(PathAsk::Mkdir(path.as_slice(), attrs)),
        Ask::Rmdir { path } => Some(PathAsk::Rmdir(path.as_slice())),
        Ask::Remove { path } => Some(PathAsk::Remove(path.as_slice())),
        Ask::Setstat { path, attrs } => Some(PathAsk::Setstat(path.as_slice(), attrs)),
        Ask::Stat { path } => Some(PathAsk::Stat(path.as_slice())),
        Ask::Lstat { path } => Some(PathAsk::Lstat(path.as_slice())),
        Ask::Realpath { path } => Some(PathAsk::Realpath(path.as_slice())),
        Ask::Readlink { path } => Some(PathAsk::Readlink(path.as_slice())),
        Ask::Symlink {
            targetpath,
            linkpath,
        } => Some(PathAsk::Symlink(targetpath.as_slice(), linkpath.as_slice())),
        Ask::Rename { oldpath, newpath } => {
            Some(PathAsk::Rename(oldpath.as_slice(), newpath.as_slice()))
        }
        Ask::PosixRename { oldpath, newpath } => Some(PathAsk::PosixRename(
            oldpath.as_slice(),
            newpath.as_slice(),
        )),
        Ask::Hardlink { oldpath, newpath } => {
            Some(PathAsk::Hardlink(oldpath.as_slice(), newpath.as_slice()))
        }
        Ask::Open {
            path,
            pflags,
            attrs,
        } => Some(PathAsk::Open(path.as_slice(), *pflags, attrs)),
        Ask::Opendir { path } => Some(PathAsk::Opendir(path.as_slice())),
        Ask::Close { .. }
        | Ask::Read { .. }
        | Ask::Write { .. }
        | Ask::Fstat { .. }
        | Ask::Fsetstat { .. }
        | Ask::Readdir { .. }
        | Ask::Fsync { .. }
        | Ask::Limits
        | Ask::Unknown { .. } => None,
    }
}

/// The path that a request names first, for SYMLINK that of the link; `None` if it names none.
pub fn path_of(ask: &Ask) -> Option<&[u8]>
    ensures { option_copied result ≡ requests.path_of ask.now }
{
    match path_ask(ask) {
        Some(it) => Some(it.path()),
        None => None,
    }
}

/// The second path that a request names, a new name; `None` if it names none.
pub fn new_path_of(ask: &Ask) -> Option<&[u8]>
    ensures { option_copied result ≡ requests.new_path_of ask.now }
{
    match path_ask(ask) {
        Some(it) => it.new_path(),
        None => None,
    }
}

impl<'a> PathAsk<'a> {
    /// The path that it names first, for SYMLINK that of the link.
    pub(crate) fn path(self) -> &'a [u8]
        ensures { requests.path_of (asked self.entry) ≡ Some result.now }
    {
        match self {
            PathAsk::Mkdir(path, _) => path,
            PathAsk::Rmdir(path) => path,
            PathAsk::Remove(path) => path,
            PathAsk::Setstat(path, _) => path,
            PathAsk::Stat(path) => path,
            PathAsk::Lstat(path) => path,
            PathAsk::Realpath(path) => path,
            PathAsk::Readlink(path) => path,
            PathAsk::Symlink(_, link) => link,
            PathAsk::Rename(old, _) => old,
            PathAsk::PosixRename(old, _) => old,
            PathAsk::Hardlink(old, _) => old,
            PathAsk::Open(path, _, _) => path,
            PathAsk::Opendir(path) => path,
        }
    }

    /// The second path that it names, a new name; `None` if it names none.
    pub(crate) fn new_path(self) -> Option<&'a [u8]>
        ensures { requests.new_path_of (asked self.entry) ≡ option_copied result }
    {
        match self {
            PathAsk::Rename(_, new) => Some(new),
            PathAsk::PosixRename(_, new) => Some(new),
            PathAsk::Hardlink(_, new) => Some(new),
            PathAsk::Mkdir(..)
            | PathAsk::Rmdir(..)
            | PathAsk::Remove(..)
            | PathAsk::Setstat(..)
            | PathAsk::Stat(..)
            | PathAsk::Lstat(..)
            | PathAsk::Realpath(..)
            | PathAsk::Readlink(..)
            | PathAsk::Symlink(..)
            | PathAsk::Open(..)
            | PathAsk::Opendir(..) => None,
        }
    }

    /// Whether the walk of its path follows a last link.
    pub(crate) fn follows(self) -> bool
        ensures { result ≡ requests.follows (asked self.entry) }
    {
        match self {
            PathAsk::Setstat(..) => true,
            PathAsk::Stat(..) => true,
            PathAsk::Realpath(..) => true,
            PathAsk::Open(_, flags, _) => !excludes(flags),
            PathAsk::Opendir(..) => true,
            PathAsk::Mkdir(..)
            | PathAsk::Rmdir(..)
            | PathAsk::Remove(..)
            | PathAsk::Lstat(..)
            | PathAsk::Readlink(..)
            | PathAsk::Symlink(..)
            | PathAsk::Rename(..)
            | PathAsk::PosixRename(..)
            | PathAsk::Hardlink(..) => false,
        }
    }

    /// The causes of its own bytes.
    pub(crate) fn own_causes(self) -> Causes
        ensures { in_set result ≡ requests.own_causes (asked self.entry) }
    {
        let none = Causes::none();
        match self {
            PathAsk::Symlink(target, _) => none.when(Cause::BadPath, !is_target(target)),
            PathAsk::Open(_, flags, _) => none.when(Cause::BadFlags, !are_good(flags)),
            PathAsk::Opendir(..)
            | PathAsk::Mkdir(..)
            | PathAsk::Rmdir(..)
            | PathAsk::Remove(..)
            | PathAsk::Setstat(..)
            | PathAsk::Stat(..)
            | PathAsk::Lstat(..)
            | PathAsk::Realpath(..)
            | PathAsk::Readlink(..)
            | PathAsk::Rename(..)
            | PathAsk::PosixRename(..)
            | PathAsk::Hardlink(..) => none,
        }
    }
}

impl Tree {
    /// The causes at the place that the path, or the first of two, leads to.
    pub(crate) fn causes_at(&self, ask: PathAsk<'_>, found: &Found<'_>) -> Causes
        requires { IsThere self.now.names found.now }
        ensures { in_set result ≡ requests.causes_at self.now (asked ask.entry) found.now.place }
    {
        match ask {
            PathAsk::Mkdir(..) => making(found),
            PathAsk::Rmdir(..) => self.removing(found),
            PathAsk::Remove(..) => unlinking(found),
            PathAsk::Setstat(_, attrs) => setting(attrs, found),
            PathAsk::Stat(..) => needing(found),
            PathAsk::Lstat(..) => needing(found),
            PathAsk::Realpath(..) => Causes::none(),
            PathAsk::Readlink(..) => reading(found),
            PathAsk::Symlink(..) => making(found),
            PathAsk::Rename(..) => self.leaving(found),
            PathAsk::PosixRename(..) => self.leaving(found),
            PathAsk::Hardlink(..) => naming(found),
            PathAsk::Open(_, flags, _) => opening(flags, found),
            PathAsk::Opendir(..) => listing(found),
        }
    }

    /// The causes at the place that the second path leads to.
    pub(crate) fn new_causes_at(&self, ask: PathAsk<'_>, found: &Found<'_>) -> Causes
        requires { IsThere self.now.names found.now }
        ensures { in_set result ≡ requests.new_causes_at self.now (asked ask.entry) found.now.place }
    {
        match ask {
            PathAsk::Rename(..) => making(found),
            PathAsk::PosixRename(..) => giving(&found.place),
            PathAsk::Hardlink(..) => making(found),
            PathAsk::Mkdir(..)
            | PathAsk::Rmdir(..)
            | PathAsk::Remove(..)
            | PathAsk::Setstat(..)
            | PathAsk::Stat(..)
            | PathAsk::Lstat(..)
            | PathAsk::Realpath(..)
            | PathAsk::Readlink(..)
            | PathAsk::Symlink(..)
            | PathAsk::Open(..)
            | PathAsk::Opendir(..) => Causes::none(),
        }
    }

    /// The causes of two places.
    pub(crate) fn causes_between(
        &self,
        ask: PathAsk<'_>,
        old: &Found<'_>,
        new: &Found<'_>,
    ) -> Causes
        requires old { IsThere self.now.names old.now }
        requires new { IsThere self.now.names new.now }
        ensures { in_set result ≡ requests.causes_between self.now (asked ask.entry) old.now.place new.now.place }
    {
        match ask {
            PathAsk::Rename(..) => self.moving(old, &new.place),
            PathAsk::PosixRename(..) => self.exchanging(old, new),
            PathAsk::Hardlink(..)
            | PathAsk::Mkdir(..)
            | PathAsk::Rmdir(..)
            | PathAsk::Remove(..)
            | PathAsk::Setstat(..)
            | PathAsk::Stat(..)
            | PathAsk::Lstat(..)
            | PathAsk::Realpath(..)
            | PathAsk::Readlink(..)
            | PathAsk::Symlink(..)
            | PathAsk::Open(..)
            | PathAsk::Opendir(..) => Causes::none(),
        }
    }

    /// Whether what a request asks for at a place keeps to the limits.
    pub(crate) fn has_room_at(&self, ask: PathAsk<'_>, found: &Found<'_>) -> bool
        requires { IsThere self.now.names found.now }
        ensures { result ≡ requests.has_room_at self.now (asked ask.entry) found.now.place }
    {
        match ask {
            PathAsk::Mkdir(..) => self.has_room(&found.place),
            PathAsk::Symlink(..) => self.has_room(&found.place),
            PathAsk::Setstat(_, attrs) => self.size_fits_of(attrs, found),
            PathAsk::Open(..) => self.has_room_to_open(found),
            PathAsk::Rmdir(..)
            | PathAsk::Remove(..)
            | PathAsk::Stat(..)
            | PathAsk::Lstat(..)
            | PathAsk::Realpath(..)
            | PathAsk::Readlink(..)
            | PathAsk::Rename(..)
            | PathAsk::PosixRename(..)
            | PathAsk::Hardlink(..)
            | PathAsk::Opendir(..) => true,
        }
    }

    /// Whether what a request asks for with two places keeps to the limits.
    pub(crate) fn has_room_between(
        &self,
        ask: PathAsk<'_>,
        old: &Found<'_>,
        new: &Found<'_>,
    ) -> bool
        requires old { IsFoundIn self.now old.now }
        requires new { IsThere self.now.names new.now }
        ensures { result ≡ requests.has_room_between self.now (asked ask.entry) old.now.place new.now.place }
    {
        match ask {
            PathAsk::Rename(..) => move_fits(old, &new.place),
            PathAsk::PosixRename(..) => self.are_one(old, new) || move_fits(old, &new.place),
            PathAsk::Hardlink(..) => self.has_room(&new.place),
            PathAsk::Mkdir(..)
            | PathAsk::Rmdir(..)
            | PathAsk::Remove(..)
            | PathAsk::Setstat(..)
            | PathAsk::Stat(..)
            | PathAsk::Lstat(..)
            | PathAsk::Realpath(..)
            | PathAsk::Readlink(..)
            | PathAsk::Symlink(..)
            | PathAsk::Open(..)
            | PathAsk::Opendir(..) => true,
        }
    }

    /// The plan of a request at the place that its path leads to.
    ///
    /// # Errors
    ///
    /// `NoMemory` if memory runs out.
    pub(crate) fn plan_at<'a>(
        &self,
        ask: PathAsk<'a>,
        found: Found<'_>,
    ) -> Result<Plan<'a>, NoMemory>
        requires { IsFoundIn self.now found }
        ensures plan { IfOk result
            (λ plan. planned plan ≡ requests.plan_at self.now (asked ask.entry) found.entry.place) }
        ensures node { IfOk result (λ plan. requests.HasNode AreAny self.now (asked ask.entry) found.entry.place) }
    {
        let Found { place, node } = found;
        Ok(match ask {
            PathAsk::Mkdir(_, attrs) => { Plan::Put(place, Node::Dir(self.directory_owner(attrs))) }
            PathAsk::Rmdir(..) => Plan::Remove(place),
            PathAsk::Remove(..) => Plan::Remove(place),
            PathAsk::Setstat(_, attrs) => self.plan_to_set(place, &node, attrs),
            PathAsk::Symlink(target, _) => Plan::Put(place, self.link_to(target)?),
            PathAsk::Open(_, flags, attrs) => self.plan_to_open(flags, attrs, place, &node),
            PathAsk::Stat(..)
            | PathAsk::Lstat(..)
            | PathAsk::Realpath(..)
            | PathAsk::Readlink(..)
            | PathAsk::Rename(..)
            | PathAsk::PosixRename(..)
            | PathAsk::Hardlink(..)
            | PathAsk::Opendir(..) => Plan::Nothing,
        })
    }

    /// The plan of a request at the two places that its paths lead to.
    pub(crate) fn plan_between<'a>(
        &self,
        ask: PathAsk<'a>,
        old: Found<'_>,
        new: Found<'_>,
    ) -> Plan<'a>
        requires old { IsThere self.now.names old }
        requires new { IsThere self.now.names new }
        requires file { requests.IsFileAt self.now (asked ask) old.place }
        ensures { planned result
            ≡ requests.plan_between self.now (asked ask.entry) old.entry.place new.entry.place }
    {
        match ask {
            PathAsk::Rename(..) => Plan::Move(old.place, new.place),
            PathAsk::PosixRename(..) => {
                if self.are_one(&old, &new) {
                    Plan::Nothing
                } else {
                    Plan::Move(old.place, new.place)
                }
            }
            PathAsk::Hardlink(..) => Plan::Put(new.place, Node::File(file_of(&old))),
            PathAsk::Mkdir(..)
            | PathAsk::Rmdir(..)
            | PathAsk::Remove(..)
            | PathAsk::Setstat(..)
            | PathAsk::Stat(..)
            | PathAsk::Lstat(..)
            | PathAsk::Realpath(..)
            | PathAsk::Readlink(..)
            | PathAsk::Symlink(..)
            | PathAsk::Open(..)
            | PathAsk::Opendir(..) => Plan::Nothing,
        }
    }
}

impl Tree {
    /// Does a request on paths, whichever it is, and removes the files that nothing holds any more. What its reply says
    /// is for the calls of the request.
    ///
    /// # Errors
    ///
    /// `Cause` with the first cause that holds, as for the call of the request. `NoMemory` if memory runs out. On error
    /// the tree is unchanged.
    pub fn carry_out(&mut self, ask: &Ask) -> Result<(), Refused>
        requires { IsTrue (requests.has_step ask.now) }
        ensures free { OnOk result (IsFree self.old ask.now) }
        ensures done { OnOk result (self.new ≡ requests.after self.old ask.now) }
        ensures valid { OnOk result (tree.IsKept self.new) }
        ensures refused { IfErr result (λ refused. IsRefusal self.old ask.now refused) }
        ensures kept { OnErr result (self.new ≡ self.old) }
    {
        let Some(path_ask) = path_ask(ask) else {
            unreachable!();
        };
        let plan = self.plan(path_ask)?;
        self.apply(plan)?;
        Ok(())
    }

    /// Whether no cause refuses a request on paths.
    ///
    /// # Errors
    ///
    /// `Cause` with the first cause that holds, as for the call of the request. `NoMemory` if memory runs out.
    pub fn check(&self, ask: &Ask) -> Result<(), Refused>
        requires { IsTrue (requests.has_step ask.now) }
        ensures free { OnOk result (IsFree self.now ask.now) }
        ensures refused { IfErr result (λ refused. IsRefusal self.now ask.now refused) }
    {
        let Some(path_ask) = path_ask(ask) else {
            unreachable!();
        };
        self.free_places(path_ask)?;
        Ok(())
    }

    /// MKDIR: makes an empty directory. If the attributes give no owner, it gets the tree's; if they give no
    /// permissions, 0o755. Of the permissions given the low twelve bits count; other attributes are ignored.
    ///
    /// # Errors
    ///
    /// `Cause` with the first cause that holds: `BadPath`, the walk's, `Exists` or `NoRoom`. `NoMemory` if memory runs
    /// out. On error the tree is unchanged.
    pub fn mkdir(&mut self, path: &[u8], attrs: &Attrs) -> Result<(), Refused>
        ensures free { OnOk result (IsFree self.old (Mkdir path.now attrs.now)) }
        ensures done { OnOk result (self.new ≡ requests.after self.old (Mkdir path.now attrs.now)) }
        ensures refused { IfErr result (λ refused. IsRefusal self.old (Mkdir path.now attrs.now) refused) }
        ensures kept { OnErr result (self.new ≡ self.old) }
    {
        let plan = self.plan(PathAsk::Mkdir(path, attrs))?;
        self.apply(plan)?;
        Ok(())
    }

    /// RMDIR: removes an empty directory.
    ///
    /// # Errors
    ///
    /// `Cause` with the first cause that holds: `BadPath`, the walk's, `NoEntry`, `NotDir`, `NotEmpty` or `Root`.
    /// `NoMemory` if memory runs out. On error the tree is unchanged.
    pub fn rmdir(&mut self, path: &[u8]) -> Result<(), Refused>
        ensures free { OnOk result (IsFree self.old (Rmdir path.now)) }
        ensures done { OnOk result (self.new ≡ requests.after self.old (Rmdir path.now)) }
        ensures refused { IfErr result (λ refused. IsRefusal self.old (Rmdir path.now) refused) }
        ensures kept { OnErr result (self.new ≡ self.old) }
    {
        let plan = self.plan(PathAsk::Rmdir(path))?;
        self.apply(plan)?;
        Ok(())
    }

    /// REMOVE: removes a name of a file, or a link. A file goes with its last name, unless it is pinned.
    ///
    /// # Errors
    ///
    /// `Cause` with the first cause that holds: `BadPath`, the walk's, `NoEntry` or `IsDir`. `NoMemory` if memory runs
    /// out. On error the tree is unchanged.
    pub fn remove(&mut self, path: &[u8]) -> Result<(), Refused>
        ensures free { OnOk result (IsFree self.old (Remove path.now)) }
        ensures done { OnOk result (self.new ≡ requests.after self.old (Remove path.now)) }
        ensures refused { IfErr result (λ refused. IsRefusal self.old (Remove path.now) refused) }
        ensures kept { OnErr result (self.new ≡ self.old) }
    {
        let plan = self.plan(PathAsk::Remove(path))?;
        self.apply(plan)?;
        Ok(())
    }

    /// SETSTAT: sets the size of a file, which cuts its bytes or fills them with zeros, and the owner and the low
    /// twelve bits of the permissions of a file or a directory, each if it is given. Other attributes are ignored.
    ///
    /// # Errors
    ///
    /// `Cause` with the first cause that holds: `BadPath`, the walk's, `NoEntry`, `NotFile` if a directory is given a
    /// size, or `NoRoom`. `NoMemory` if memory runs out. On error the tree is unchanged.
    pub fn set_stat(&mut self, path: &[u8], attrs: &Attrs) -> Result<(), Refused>
        ensures free { OnOk result (IsFree self.old (Setstat path.now attrs.now)) }
        ensures done { OnOk result (self.new ≡ requests.after self.old (Setstat path.now attrs.now)) }
        ensures refused { IfErr result (λ refused. IsRefusal self.old (Setstat path.now attrs.now) refused) }
        ensures kept { OnErr result (self.new ≡ self.old) }
    {
        let plan = self.plan(PathAsk::Setstat(path, attrs))?;
        self.apply(plan)?;
        Ok(())
    }

    /// RENAME: moves the node at the old path, with all below it, to a new place that is free.
    ///
    /// # Errors
    ///
    /// `Cause` with the first cause that holds: `BadPath`, the walk's of the old path and then of the new one,
    /// `NoEntry`, `Exists`, `Root`, `Inside` or `NoRoom`. `NoMemory` if memory runs out. On error the tree is
    /// unchanged.
    pub fn rename(&mut self, old: &[u8], new: &[u8]) -> Result<(), Refused>
        ensures free { OnOk result (IsFree self.old (Rename old.now new.now)) }
        ensures done { OnOk result (self.new ≡ requests.after self.old (Rename old.now new.now)) }
        ensures refused { IfErr result (λ refused. IsRefusal self.old (Rename old.now new.now) refused) }
        ensures kept { OnErr result (self.new ≡ self.old) }
    {
        let plan = self.plan(PathAsk::Rename(old, new))?;
        self.apply(plan)?;
        Ok(())
    }

    /// posix-rename (OpenSSH's PROTOCOL, section 4.3): moves the node at the old path, with all below it, to the new
    /// place. A directory replaces an empty directory, and any other node replaces one that is not a directory. Nothing
    /// is done if both are the same place, or names of one file. A file goes with its last name, unless it is pinned.
    ///
    /// # Errors
    ///
    /// `Cause` with the first cause that holds: `BadPath`, the walk's of the old path and then of the new one,
    /// `NoEntry`, `NotDir`, `IsDir`, `NotEmpty`, `Root`, `Inside` or `NoRoom`. `NoMemory` if memory runs out. On error
    /// the tree is unchanged.
    pub fn posix_rename(&mut self, old: &[u8], new: &[u8]) -> Result<(), Refused>
        ensures free { OnOk result (IsFree self.old (PosixRename old.now new.now)) }
        ensures done { OnOk result (self.new ≡ requests.after self.old (PosixRename old.now new.now)) }
        ensures refused { IfErr result (λ refused. IsRefusal self.old (PosixRename old.now new.now) refused) }
        ensures kept { OnErr result (self.new ≡ self.old) }
    {
        let plan = self.plan(PathAsk::PosixRename(old, new))?;
        self.apply(plan)?;
        Ok(())
    }

    /// hardlink (OpenSSH's PROTOCOL, section 4.5): gives a file a further name.
    ///
    /// # Errors
    ///
    /// `Cause` with the first cause that holds: `BadPath`, the walk's of the old path and then of the new one,
    /// `NoEntry`, `Exists`, `NotFile` or `NoRoom`. `NoMemory` if memory runs out. On error the tree is unchanged.
    pub fn hardlink(&mut self, old: &[u8], new: &[u8]) -> Result<(), Refused>
        ensures free { OnOk result (IsFree self.old (Hardlink old.now new.now)) }
        ensures done { OnOk result (self.new ≡ requests.after self.old (Hardlink old.now new.now)) }
        ensures refused { IfErr result (λ refused. IsRefusal self.old (Hardlink old.now new.now) refused) }
        ensures kept { OnErr result (self.new ≡ self.old) }
    {
        let plan = self.plan(PathAsk::Hardlink(old, new))?;
        self.apply(plan)?;
        Ok(())
    }

    /// SYMLINK: makes a link with these bytes, unchanged, for its target.
    ///
    /// # Errors
    ///
    /// `Cause` with the first cause that holds: `BadPath`, of the target or of the link's path, the walk's, `Exists` or
    /// `NoRoom`. `NoMemory` if memory runs out. On error the tree is unchanged.
    pub fn symlink(&mut self, target: &[u8], link: &[u8]) -> Result<(), Refused>
        ensures free { OnOk result (IsFree self.old (Symlink target.now link.now)) }
        ensures done { OnOk result (self.new ≡ requests.after self.old (Symlink target.now link.now)) }
        ensures refused { IfErr result (λ refused. IsRefusal self.old (Symlink target.now link.now) refused) }
        ensures kept { OnErr result (self.new ≡ self.old) }
    {
        let plan = self.plan(PathAsk::Symlink(target, link))?;
        self.apply(plan)?;
        Ok(())
    }

    /// OPEN: opens a file, and returns its number. `flags` has the bits of `OpenFlags`. With CREAT, a free place gets a
    /// new file, which is empty and has the number that follows the last one given. If the attributes give no owner, it
    /// gets the tree's; if they give no permissions, 0o644. Of the permissions given the low twelve bits count, and
    /// other attributes are ignored. With TRUNC a file that exists becomes empty; its attributes stay.
    ///
    /// # Errors
    ///
    /// `Cause` with the first cause that holds: `BadFlags`, `BadPath`, the walk's, `NoEntry` if there is no file and
    /// none is to be made, `Exists` if EXCL asks for a new file, `IsDir` or `NoRoom`. `NoMemory` if memory runs out.
    /// On error the tree is unchanged.
    pub fn open_file(&mut self, path: &[u8], flags: u32, attrs: &Attrs) -> Result<FileNo, Refused>
        ensures free { OnOk result (IsFree self.old (Open path.now flags attrs.now)) }
        ensures done { OnOk result (self.new ≡ requests.after self.old (Open path.now flags attrs.now)) }
        ensures number { IfOk result
            (λ number. told.file_to self.old (Open path.now flags attrs.now) ≡ Some number) }
        ensures valid { OnOk result (tree.IsKept self.new) }
        ensures refused { IfErr result (λ refused. IsRefusal self.old (Open path.now flags attrs.now) refused) }
        ensures kept { OnErr result (self.new ≡ self.old) }
    {
        let ask = PathAsk::Open(path, flags, attrs);
        let places = self.free_places(ask)?;
        let number = self.number_at(&places.old);
        let plan = self.plan_for(ask, places)?;
        self.apply(plan)?;
        Ok(number)
    }

    /// STAT if a last link is followed, LSTAT if it is not: the size, the owner and the permissions, with the bits of
    /// the type, of the node that the path leads to.
    ///
    /// # Errors
    ///
    /// `Cause` with the first cause that holds: `BadPath`, the walk's, or `NoEntry`. `NoMemory` if memory runs out.
    pub fn stat(&self, path: &[u8], follow: bool) -> Result<Attrs, Refused>
        ensures free { OnOk result (IsFree self.now (stat_ask follow path.now)) }
        ensures shown { IfOk result (λ attrs. told.shown_to self.now (stat_ask follow path.now) ≡ Some attrs) }
        ensures refused { IfErr result (λ refused. IsRefusal self.now (stat_ask follow path.now) refused) }
        ensures kept { OnOk result (tree.IsKept self.now) }
    {
        match self.plain_end(path, follow) {
            Ok(Some(Some(node))) => Ok(self.shown(&node)),
            Ok(Some(None)) => Err(Refused::Cause(Cause::NoEntry)),
            Ok(None) => self.stat_anywhere(path, follow),
            Err(NoMemory) => Err(Refused::NoMemory),
        }
    }

    /// The same, by a walk of any path.
    ///
    /// # Errors
    ///
    /// Those of `stat`.
    fn stat_anywhere(&self, path: &[u8], follow: bool) -> Result<Attrs, Refused>
        ensures free { OnOk result (IsFree self.now (stat_ask follow path.now)) }
        ensures shown { IfOk result (λ attrs. told.shown_to self.now (stat_ask follow path.now) ≡ Some attrs) }
        ensures refused { IfErr result (λ refused. IsRefusal self.now (stat_ask follow path.now) refused) }
        ensures kept { OnOk result (tree.IsKept self.now) }
    {
        let ask = if follow {
            PathAsk::Stat(path)
        } else {
            PathAsk::Lstat(path)
        };
        let places = self.free_places(ask)?;
        Ok(self.shown_at(&places.old))
    }

    /// The attributes that LSTAT shows of the node at a place; `None` if the place is free. Does not allocate.
    pub fn stat_at(&self, place: &Place) -> Option<Attrs>
        ensures { result ≡ requests.shown_at self.now (tree.node_at self.now.names place.now) }
    {
        match self.names().root_directory().at(place.names()) {
            Some(node) => Some(self.shown(&node)),
            None => None,
        }
    }

    /// The number of the file that the place to which these names lead is a name of; `None` if it is not one. Does not
    /// allocate.
    pub fn file_at(&self, names: &[Name]) -> Option<FileNo>
        ensures { result ≡ file_named (tree.node_at self.now.names names.now) }
    {
        let found = self.names().root_directory().at(names);
        file_seen(&found)
    }

    /// REALPATH: the absolute text of the place that the path leads to. Its last name need not exist.
    ///
    /// # Errors
    ///
    /// `Cause` with the first cause that holds: `BadPath`, or the walk's. `NoMemory` if memory runs out.
    pub fn real_path(&self, path: &[u8]) -> Result<Vec<u8>, Refused>
        ensures free { OnOk result (IsFree self.now (Realpath path.now)) }
        ensures text { IfOk result (λ text. told.text_to self.now (Realpath path.now) ≡ Some text.items) }
        ensures refused { IfErr result (λ refused. IsRefusal self.now (Realpath path.now) refused) }
        ensures kept { OnOk result (tree.IsKept self.now) }
    {
        let places = self.free_places(PathAsk::Realpath(path))?;
        let text = absolute(self.home().allocator(), places.old.place.names());
        drop(places);
        Ok(text?)
    }

    /// READLINK: the target of a link, as it was made.
    ///
    /// # Errors
    ///
    /// `Cause` with the first cause that holds: `BadPath`, the walk's, `NoEntry` or `NotLink`. `NoMemory` if memory
    /// runs out.
    pub fn read_link(&self, path: &[u8]) -> Result<Vec<u8>, Refused>
        ensures free { OnOk result (IsFree self.now (Readlink path.now)) }
        ensures target { IfOk result (λ target. told.text_to self.now (Readlink path.now) ≡ Some target.items) }
        ensures refused { IfErr result (λ refused. IsRefusal self.now (Readlink path.now) refused) }
        ensures kept { OnOk result (tree.IsKept self.now) }
    {
        let places = self.free_places(PathAsk::Readlink(path))?;
        let target = Vec::from_slice(self.home().allocator(), target_of(&places.old));
        drop(places);
        Ok(target?)
    }

    /// The number of the file that is opened where a path leads to: the next one if the place is free.
    fn number_at(&self, found: &Found<'_>) -> FileNo
        requires there { IsThere self.now.names found.now }
        requires file { IsTrue (is_some (requests.number_at self.now (tree.node_at self.now.names found.now.place))) }
        ensures { requests.number_at self.now (tree.node_at self.now.names found.now.place) ≡ Some result }
    {
        match &found.node {
            None => self.next_number(),
            Some(Seen::File(number)) => *number,
            Some(Seen::Dir(..)) => unreachable!(),
            Some(Seen::Link(_)) => unreachable!(),
        }
    }

    /// The attributes shown of a node that was found.
    fn shown_at(&self, found: &Found<'_>) -> Attrs
        requires there { IsThere self.now.names found.now }
        requires taken { IsTrue (tree.is_taken (tree.node_at self.now.names found.now.place)) }
        requires kept { tree.IsKept self.now }
        ensures { requests.shown_at self.now (tree.node_at self.now.names found.now.place) ≡ Some result }
    {
        match &found.node {
            Some(node) => self.shown(node),
            None => unreachable!(),
        }
    }
}

/// Whether a link may have the target: a good path that is not empty.
fn is_target(target: &[u8]) -> bool
    ensures { result ≡ is_target target.now }
{
    !target.is_empty() && good_path(target)
}

/// The target of a link that was found.
fn target_of<'a>(found: &Found<'a>) -> &'a [u8]
    requires { IsTrue (tree.is_link (node_of found.now)) }
    ensures { requests.target_of (node_of found.now) ≡ Some result.now }
{
    match &found.node {
        Some(Seen::Link(target)) => target,
        Some(Seen::Dir(..)) => unreachable!(),
        Some(Seen::File(_)) => unreachable!(),
        None => unreachable!(),
    }
}

/// The number of the file that what is lent is a name of.
fn file_seen(found: &Option<Seen<'_>>) -> Option<FileNo>
    ensures { result ≡ file_named (option_map node_seen found.now) }
{
    match found {
        Some(Seen::File(number)) => Some(*number),
        Some(Seen::Dir(..)) => None,
        Some(Seen::Link(_)) => None,
        None => None,
    }
}
