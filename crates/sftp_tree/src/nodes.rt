//! The nodes of a tree.
ghost use Rattle.std.specs.Prelude.{◌≡◌, option_copied};
ghost use Rattle.sftp_tree.specs.StoredFiles.{file_named};

use crate::file_numbers::FileNo;
use sftp_packets::ByteString;
use sftp_treefile::Owner;

/// The node at a place.
#[derive(Drop)]
pub enum Node {
    /// A directory.
    Dir(Owner),
    /// A name of the file of this number.
    File(FileNo),
    /// A symbolic link, with its target.
    Link(ByteString),
}

/// The number of the file that the node is a name of.
pub(crate) fn file_named(standing: Option<&Node>) -> Option<FileNo>
    ensures { result ≡ file_named (option_copied standing.entry) }
{
    match standing {
        Some(Node::File(number)) => Some(*number),
        _ => None,
    }
}
