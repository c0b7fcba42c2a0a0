//! The blank tree's file.
ghost use Rattle.std.specs.Prelude.{◌≡◌, IfOk};
ghost use Rattle.sftp_tree.specs.Picture.{picture, blank, IsStart};
ghost use Rattle.sftp_treefile.specs.Examples.{blank_bytes};

use sftp_tree::NoMemory;
use std::alloc::Global;

/// The bytes of the blank tree's file.
const BLANK: [u8; 37] = [
    0x53, 0x46, 0x54, 0x52, 0x45, 0x45, 0x30, 0x31, 0, 0, 0, 1, 0x2f, 0, 0, 0, 0, 0, 0, 0, 0, 0, 0,
    0, 0, 0, 0, 0, 0, 0, 0, 0, 0, 0, 0, 1, 0xed,
];

/// The tree file of the blank tree. Its home is the root, which has uid 0, gid 0 and permissions 0o755 and is empty.
/// New entries without a given owner get uid 0 and gid 0.
///
/// # Errors
///
/// `NoMemory` if memory runs out.
#[tactic(auto, unfolding(sftp_tree::specs::Picture::picture, sftp_treefile::specs::TreeFile::spelled, sftp_treefile::specs::TreeFile::spelled_after, sftp_treefile::specs::TreeFile::are_own, sftp_treefile::specs::TreeFile::are_far, sftp_path::specs::Table::get, sftp_strings::specs::Hexadecimal::hex))]
pub fn blank_tree(alloc: Global) -> Result<Vec<u8>, NoMemory>
    ensures bytes { IfOk result (λ v. v.items ≡ blank_bytes) }
    ensures picture { IfOk result (λ v. v.items ≡ picture blank) }
{
    Ok(Vec::from_slice(alloc, &BLANK)?)
}

/// The bytes of `blank_tree` are the tree file of the blank tree.
pub fn blank_tree_is_a_start()
    ensures { IsStart blank blank_bytes }
{}
