//! Causes at the places that the paths of requests lead to.
ghost use Rattle.std.specs.Prelude.{◌≡◌, Bool};
ghost use Rattle.sftp_tree.specs.Told.{in_set};
ghost use Rattle.sftp_tree.specs.PlaceCauses as place_causes;
ghost use Rattle.sftp_tree.specs.Tree as tree;
ghost use Rattle.sftp_tree.specs.Tree.{Names as table};
ghost use Rattle.sftp_tree.specs.Plans.{node_of, IsThere};

use crate::causes::{Cause, Causes};
use crate::entries::is_below;
use crate::flags::{creates, excludes};
use crate::found::{Found, is_root};
use crate::trees::Tree;
use sftp_packets::Attrs;
use sftp_path::Place;

impl Tree {
    /// The causes of a directory that is to be removed.
    pub(crate) fn removing(&self, found: &Found<'_>) -> Causes
        requires { IsThere self.now.names found.now }
        ensures { in_set result ≡ place_causes.removing_causes self.now.names found.now.place }
    {
        needing(found)
            .when(Cause::NotDir, found.is_taken() && !found.is_directory())
            .when(Cause::NotEmpty, found.has_entries())
            .when(Cause::Root, is_root(&found.place))
    }

    /// The causes of a node that is to move to another place.
    pub(crate) fn leaving(&self, found: &Found<'_>) -> Causes
        requires { IsThere self.now.names found.now }
        ensures { in_set result ≡ place_causes.leaving_causes self.now.names found.now.place }
    {
        needing(found).when(Cause::Root, is_root(&found.place))
    }

    /// Whether a directory would be moved into itself.
    fn goes_inside(&self, old: &Found<'_>, new: &Place) -> bool
        requires { IsThere self.now.names old.now }
        ensures { result ≡ place_causes.goes_inside self.now.names old.now.place new.now }
    {
        old.is_directory() && is_below(&old.place, new)
    }

    /// The causes of a move to a free place.
    pub(crate) fn moving(&self, old: &Found<'_>, new: &Place) -> Causes
        requires { IsThere self.now.names old.now }
        ensures { in_set result ≡ place_causes.moving_causes self.now.names old.now.place new.now }
    {
        Causes::none().when(Cause::Inside, self.goes_inside(old, new))
    }

    /// The causes of a move that replaces the node at the new place, if there is one. Nothing moves if both are the
    /// same place, or names of one file.
    pub(crate) fn exchanging(&self, old: &Found<'_>, new: &Found<'_>) -> Causes
        requires old { IsThere self.now.names old.now }
        requires new { IsThere self.now.names new.now }
        ensures { in_set result ≡ place_causes.exchanging_causes self.now.names old.now.place new.now.place }
    {
        if self.are_one(old, new) {
            return Causes::none();
        }
        clashing(old, new).when(Cause::Inside, self.goes_inside(old, &new.place))
    }
}

/// The causes of a node that is to be made.
pub(crate) fn making(found: &Found<'_>) -> Causes
    ensures { in_set result ≡ place_causes.making_causes (node_of found.now) }
{
    Causes::none().when(Cause::Exists, found.is_taken())
}

/// The causes of a node that must exist.
pub(crate) fn needing(found: &Found<'_>) -> Causes
    ensures { in_set result ≡ place_causes.needing_causes (node_of found.now) }
{
    Causes::none().when(Cause::NoEntry, !found.is_taken())
}

/// The causes of a node that must be a link.
pub(crate) fn reading(found: &Found<'_>) -> Causes
    ensures { in_set result ≡ place_causes.link_causes (node_of found.now) }
{
    needing(found).when(Cause::NotLink, found.is_taken() && !found.is_link())
}

/// The causes of a node that must be a name of a file.
pub(crate) fn naming(found: &Found<'_>) -> Causes
    ensures { in_set result ≡ place_causes.file_causes (node_of found.now) }
{
    needing(found).when(Cause::NotFile, found.is_taken() && !found.is_file())
}

/// The causes of a node that is to get attributes: only a file has a size that can be set.
pub(crate) fn setting(attrs: &Attrs, found: &Found<'_>) -> Causes
    ensures { in_set result ≡ place_causes.setting_causes attrs.now (node_of found.now) }
{
    let sized = attrs.size.is_some() && (found.is_taken() && !found.is_file());
    needing(found).when(Cause::NotFile, sized)
}

/// The causes of a name that is to be removed, and must not be a directory.
pub(crate) fn unlinking(found: &Found<'_>) -> Causes
    ensures { in_set result ≡ place_causes.unlinking_causes (node_of found.now) }
{
    needing(found).when(Cause::IsDir, found.is_directory())
}

/// The causes of a node that is to be opened as a file.
pub(crate) fn opening(flags: u32, found: &Found<'_>) -> Causes
    ensures { in_set result ≡ place_causes.opening_causes flags (node_of found.now) }
{
    let new = excludes(flags);
    Causes::none()
        .when(Cause::NoEntry, !found.is_taken() && !creates(flags))
        .when(Cause::Exists, found.is_taken() && new)
        .when(Cause::IsDir, found.is_directory() && !new)
}

/// The causes of a node that must be a directory.
pub(crate) fn listing(found: &Found<'_>) -> Causes
    ensures { in_set result ≡ place_causes.directory_causes (node_of found.now) }
{
    needing(found).when(Cause::NotDir, found.is_taken() && !found.is_directory())
}

/// The causes of a place that is to get another node.
pub(crate) fn giving(place: &Place) -> Causes
    ensures { in_set result ≡ place_causes.giving_causes place.now }
{
    Causes::none().when(Cause::Root, is_root(place))
}

/// The causes of a node that is to replace another.
fn clashing(goes: &Found<'_>, stays: &Found<'_>) -> Causes
    ensures { (names : table) → IsThere names stays.now → in_set result
        ≡ place_causes.clashing_causes (node_of goes.now) (node_of stays.now)
        (tree.has_entries names stays.now.place) }
{
    let from_directory = goes.is_directory();
    let to_directory = stays.is_directory();
    Causes::none()
        .when(
            Cause::NotDir,
            from_directory && (stays.is_taken() && !to_directory),
        )
        .when(
            Cause::IsDir,
            (goes.is_taken() && !from_directory) && to_directory,
        )
        .when(Cause::NotEmpty, from_directory && stays.has_entries())
}
