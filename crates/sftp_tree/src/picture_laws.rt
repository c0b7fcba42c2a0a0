//! Laws of trees and their tree files, as theorems on the definitions that the contracts name. The functions do
//! nothing; each promise is in the contract.
ghost use Rattle.std.specs.Prelude.{◌≡◌, ◌++◌, ℕ, List, [], length, IsTrue};
ghost use Rattle.sftp_treefile.specs.Examples.{blank_bytes, raised_bytes};
ghost use Rattle.sftp_treefile.specs.TreeFile.{highest_limits};
ghost use Rattle.sftp_treefile.specs.TreeFileParts.{AreRaised};
ghost use Rattle.sftp_treefile.specs.declared.times.Times.{Times};
ghost use Rattle.sftp_treefile.specs.TreeFile.{IsSpelled, AreFileTimes, spelled};
ghost use Rattle.sftp_treefile.specs.declared.files.TreeFile.{TreeFile};
ghost use Rattle.sftp_tree.specs.Tree.{Tree, WellFormed, IsKept, fits, limits, raised};
ghost use Rattle.sftp_tree.specs.Picture.{IsStart, file_of, timed_file_of, picture, blank};
ghost use Rattle.sftp_tree.specs.PictureParts.{tree_of};
ghost use Rattle.sftp_tree.specs.PictureExamples.{linked, linked_front, linked_root, linked_directory};
ghost use Rattle.sftp_tree.specs.PictureExamples.{linked_link, two_names, two_names_bytes};

/// No two starts have the same tree file.
pub fn starts_are_one()
    ensures { (t u : Tree) (bytes : List ℕ) → IsStart t bytes → IsStart u bytes → t ≡ u }
{}

/// A tree within the limits has the same tree file as the tree that is read from it, whose files are numbered anew:
/// from 0, by their first names, and only those that have a name.
pub fn pictures_are_starts()
    ensures { (t : Tree) → WellFormed t → IsTrue (fits t) → IsStart (tree_of (file_of t)) (picture t) }
{}

/// The tree of a tree file by the grammar is a start, and the tree file of a start is one by the grammar: it is the
/// start's, with times that the tree does not have. Without times it is the tree's picture. So is one that is written
/// with times, where these are a tree file's.
pub fn starts_have_tree_files()
    ensures start { (file : TreeFile) (bytes : List ℕ) → IsSpelled file bytes → IsStart (tree_of file) bytes }
    ensures file { (t : Tree) (bytes : List ℕ) (start : IsStart t bytes) →
        IsSpelled (timed_file_of t start.picture_is.times) bytes }
    ensures plain { (t : Tree) (bytes : List ℕ) (start : IsStart t bytes) → start.picture_is.times ≡ [] →
        bytes ≡ picture t }
    ensures narrow { (t : Tree) (bytes : List ℕ) → bytes ≡ picture t → WellFormed t → IsTrue (fits t) →
        IsSpelled (file_of t) bytes }
    ensures timed { (t : Tree) (times : List Times) → WellFormed t → IsTrue (fits t) →
        AreFileTimes (file_of t).rows times → IsSpelled (timed_file_of t times) (spelled (timed_file_of t times)) }
{}

/// A tree of the program may have the highest limits of the second opening too, or those that it has where they are
/// higher, and the tree that is read from its file is raised again. The tree file of the blank tree has 53 bytes then.
pub fn raised_trees()
    ensures kept { (t : Tree) → IsKept t → IsKept (raised t) }
    ensures limits { (t : Tree) → AreRaised (limits t) → limits (raised t) ≡ highest_limits }
    ensures start { (t : Tree) (bytes : List ℕ) → IsStart t bytes → IsStart (raised t) (picture (raised t)) }
    ensures length { length raised_bytes ≡ 53 }
    ensures bytes { picture (raised blank) ≡ raised_bytes }
    ensures blank { IsStart (raised blank) raised_bytes }
{}

/// The blank tree is one that the program may have, and these 37 bytes are its tree file.
pub fn blank_is_a_start()
    ensures kept { IsKept blank }
    ensures bytes { picture blank ≡ blank_bytes }
    ensures start { IsStart blank blank_bytes }
{}

/// A tree with a directory and a link to it is one that the program may have, and these 69 bytes are its tree file.
#[tactic(auto, unfolding(crate::specs::Picture::picture, sftp_treefile::specs::TreeFile::spelled, sftp_treefile::specs::TreeFile::spelled_after, sftp_treefile::specs::TreeFile::are_own, sftp_treefile::specs::TreeFile::are_far, sftp_path::specs::Table::get))]
pub fn file_of_a_directory_and_a_link()
    ensures kept { IsKept linked }
    ensures bytes { picture linked ≡ linked_front ++ (linked_root ++ (linked_directory ++ linked_link)) }
{}

/// The blank tree with a file of two names: its tree file has 74 bytes, with the file's bytes once.
pub fn file_of_two_names()
    ensures length { length two_names_bytes ≡ 74 }
    ensures start { IsStart two_names two_names_bytes }
{}
