//! Worked examples of the definitions, computed by the checker. The functions do nothing; each promise is in the
//! contract.
ghost use Rattle.std.specs.Prelude.{◌≡◌, ℕ, List, length};
ghost use Rattle.sftp_treefile.specs.TreeFile.{IsTreeFile, IsSpelled, spelled};
ghost use Rattle.sftp_treefile.specs.declared.files.TreeFile.{TreeFile as file};
ghost use Rattle.sftp_treefile.specs.Examples.{blank, blank_bytes, linked, linked_bytes, two_names, two_names_bytes};
ghost use Rattle.sftp_treefile.specs.Examples.{raised, raised_bytes, usual_bytes, most, most_bytes, timed, timed_bytes};
ghost use Rattle.sftp_treefile.specs.Examples.{lower_bytes};

/// The blank tree: its home is the root, which has uid and gid 0 and permissions 0o755 and no entries, and uid
/// and gid 0 own what is made with no owner given. Its file has 37 bytes.
pub fn blank_file()
    ensures length { length blank_bytes ≡ 37 }
    ensures spelled { spelled blank ≡ blank_bytes }
    ensures may_be { IsTreeFile blank }
{}

/// The blank tree with the highest limits: its file has the second opening, and 53 bytes. A file with that opening
/// does not have the usual limits.
pub fn raised_file()
    ensures length { length raised_bytes ≡ 53 }
    ensures spelled { spelled raised ≡ raised_bytes }
    ensures may_be { IsTreeFile raised }
    ensures not_usual { (f : file) → IsSpelled f usual_bytes → ⊥ }
{}

/// A directory, a directory in it, and a symbolic link to that: 92 bytes.
pub fn linked_file()
    ensures length { length linked_bytes ≡ 92 }
    ensures spelled { IsSpelled linked linked_bytes }
{}

/// The blank tree with a file `/f` of the bytes `abc`, and its second name `/g`: 74 bytes.
pub fn file_of_two_names()
    ensures length { length two_names_bytes ≡ 74 }
    ensures spelled { IsSpelled two_names two_names_bytes }
{}

/// The blank tree with the most of each limit: its file has the third opening, and 66 bytes.
pub fn most_file()
    ensures length { length most_bytes ≡ 66 }
    ensures spelled { spelled most ≡ most_bytes }
    ensures may_be { IsTreeFile most }
{}

/// The file of two names with times of the root and of the file: 119 bytes.
pub fn timed_file()
    ensures length { length timed_bytes ≡ 119 }
    ensures spelled { spelled timed ≡ timed_bytes }
    ensures may_be { IsTreeFile timed }
{}

/// A file with the third opening does not say what one with the first can say.
pub fn lower_file()
    ensures length { length lower_bytes ≡ 66 }
    ensures none { (f : file) → IsSpelled f lower_bytes → ⊥ }
{}
