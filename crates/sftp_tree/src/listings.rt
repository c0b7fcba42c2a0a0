//! What is in a directory (draft, section 6.7).
ghost use Rattle.std.specs.Prelude.{◌≡◌, [], Some, map, IfOk, IfErr, IfSome, IsTrue, OnOk};
ghost use Rattle.sftp_packets.specs.declared.requests.Ask.TheVariants.{Opendir};
ghost use Rattle.sftp_tree.specs.Tree as tree;
ghost use Rattle.sftp_tree.specs.Tree.{Names as table};
ghost use Rattle.sftp_tree.specs.Plans.{node_of, IsThere};
ghost use Rattle.sftp_tree.specs.Nesting.{IsAt};
ghost use Rattle.sftp_tree.specs.Nesting.{branch};
ghost use Rattle.sftp_tree.specs.Told as told;
ghost use Rattle.sftp_tree.specs.Told.{IsFree, IsRefusal};
ghost use Rattle.sftp_tree.specs.Attributes.{listing, shown_child};
ghost use Rattle.sftp_tree.specs.Items.{entry_of};

use crate::asks::PathAsk;
use crate::causes::Refused;
use crate::entries::directories::{Child, Dir};
use crate::entries::seen::Seen;
use crate::found::Found;
use crate::trees::Tree;
use sftp_packets::Attrs;
use sftp_path::{Name, NoMemory};
use std::alloc::Global;

/// A name in a directory, with the attributes that LSTAT shows of its node.
#[derive(Debug, Drop)]
pub struct Item {
    /// The name.
    pub name: Name,
    /// The size, the owner and the permissions, with the bits of the type.
    pub attrs: Attrs,
}

impl Tree {
    /// OPENDIR: the names in a directory, in rising order of their bytes, with the attributes that LSTAT shows of their
    /// nodes. `.` and `..` are not among them.
    ///
    /// # Errors
    ///
    /// `Cause` with the first cause that holds: `BadPath`, the walk's, `NoEntry` or `NotDir`. `NoMemory` if memory runs
    /// out.
    pub fn list(&self, path: &[u8]) -> Result<Vec<Item>, Refused>
        ensures free { OnOk result (IsFree self.now (Opendir path.now)) }
        ensures listed { IfOk result
            (λ items. told.listing_to self.now (Opendir path.now) ≡ Some (map entry_of items.items)) }
        ensures refused { IfErr result (λ refused. IsRefusal self.now (Opendir path.now) refused) }
        ensures kept { OnOk result (tree.IsKept self.now) }
    {
        let places = self.free_places(PathAsk::Opendir(path))?;
        let items = self.items_below(&places.old);
        drop(places);
        Ok(items?)
    }

    /// The names in a directory that was found, in order, with the attributes shown of their nodes.
    ///
    /// # Errors
    ///
    /// `NoMemory` if memory runs out.
    // Slow to prove: it owns the items so far at each exit of its loop.
    fn items_below(&self, found: &Found<'_>) -> Result<Vec<Item>, NoMemory>
        requires there { IsThere self.now.names found.now }
        requires directory { IsTrue (tree.is_directory (tree.node_at self.now.names found.now.place)) }
        requires kept { tree.IsKept self.now }
        ensures { IfOk result (λ items. map entry_of items.items ≡ listing self.now found.now.place) }
    {
        let alloc = found.place.allocator();
        let dir = directory_of(found);
        let children = dir.children();
        let mut items = Vec::with_capacity(alloc, children.len())?;
        for (name, child) in children {
            items.push(self.item(alloc, name, child)?)?;
        }
        Ok(items)
    }

    /// A name in a directory, with the attributes shown of its node.
    ///
    /// # Errors
    ///
    /// `NoMemory` if memory runs out.
    fn item(&self, alloc: Global, name: &Name, child: &Child) -> Result<Item, NoMemory>
        requires { IfSome (tree.node_at (branch child.now) []) (tree.IsNode self.now.files) }
        ensures { IfOk result (λ item. IfSome (tree.node_at (branch child.now) [])
            (λ node. shown_child self.now (name.now, node) ≡ Some (entry_of item))) }
    {
        let name = name.try_clone(alloc)?;
        let attrs = self.shown_child(child);
        Ok(Item { name, attrs })
    }
}

/// The directory that was found.
fn directory_of<'a>(found: &Found<'a>) -> &'a Dir
    requires { IsTrue (tree.is_directory (node_of found.now)) }
    ensures { (names : table) → IsThere names found.now → IsAt names found.now.place result.now }
{
    match &found.node {
        Some(Seen::Dir(_, dir)) => dir,
        Some(Seen::File(_)) => unreachable!(),
        Some(Seen::Link(_)) => unreachable!(),
        None => unreachable!(),
    }
}
