//! Laws of tree files.
ghost use Rattle.std.specs.Prelude.{◌≡◌, false, ℕ, List};
ghost use Rattle.sftp_treefile.specs.declared.files.TreeFile.{TreeFile as file};
ghost use Rattle.sftp_treefile.specs.TreeFile.{IsSpelled, IsTreeFile, spelled, is_wide, opening_of};
ghost use Rattle.sftp_treefile.specs.TwoOpenings.{IsOfTwo, two_spelled};

/// Bytes are the tree file of one list of rows.
pub fn files_are_one()
    ensures { (f g : file) (bytes : List ℕ) → IsSpelled f bytes → IsSpelled g bytes → f ≡ g }
{}

/// The files with the first and the second opening are those that there would be if there were no third, and have the
/// same bytes.
pub fn third_opening_changes_no_other()
    ensures kept { (f : file) → IsOfTwo f → IsTreeFile f }
    ensures narrow { (f : file) → IsOfTwo f → is_wide (opening_of f) ≡ false }
    ensures only { (f : file) → IsTreeFile f → is_wide (opening_of f) ≡ false → IsOfTwo f }
    ensures same { (f : file) → IsOfTwo f → spelled f ≡ two_spelled f }
{}
