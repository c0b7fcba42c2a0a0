//! Worked examples: what requests do to small trees, what they return and why they are refused, computed by the checker
//! on the definitions that the contracts name. The functions do nothing; each promise is in the contract.
#![tactic(auto, unfolding(crate::specs::Requests::led, crate::specs::PlaceCauses::no_causes, crate::specs::PlaceCauses::when, crate::specs::PlaceCauses::joined, crate::specs::Requests::plain_causes, crate::specs::Requests::causes, crate::specs::Requests::outcome, crate::specs::Told::shown_to, crate::specs::Told::text_to, crate::specs::Told::file_to, crate::specs::Told::listing_to, crate::specs::Attributes::children, crate::specs::Attributes::listing, crate::specs::Walk::meets, crate::specs::Walk::walk_parts, crate::specs::Walk::walk, crate::specs::Walk::reached, crate::specs::Tree::has_entries, crate::specs::Tree::fits, sftp_path::specs::Place::components, sftp_path::specs::Place::parts, sftp_path::specs::Place::is_good_path, sftp_path::specs::Table::get, sftp_path::specs::Table::put, sftp_path::specs::Table::without, sftp_path::specs::Table::retain, sftp_path::specs::Table::from_entries, sftp_path::specs::Table::rekeyed))]

ghost use Rattle.std.specs.Prelude.{◌≡◌, true, false, [], ◌∷◌, ◌++◌, Some, None, codes};
ghost use Rattle.sftp_packets.specs.declared.requests.Ask.TheVariants.{Lstat, Setstat, Remove, Mkdir, Rmdir};
ghost use Rattle.sftp_packets.specs.declared.requests.Ask.TheVariants.{Realpath, Stat, Rename, Readlink};
ghost use Rattle.sftp_packets.specs.declared.requests.Ask.TheVariants.{Symlink, PosixRename, Hardlink, Open, Opendir};
ghost use Rattle.sftp_packets.specs.Spelling.{no_attributes};
ghost use Rattle.sftp_tree.specs.declared.causes.Cause.TheVariants.{BadPath, NoEntry, NotDir, Exists, IsDir};
ghost use Rattle.sftp_tree.specs.declared.causes.Cause.TheVariants.{NotLink, NotFile, NotEmpty, Root, Inside};
ghost use Rattle.sftp_tree.specs.declared.causes.Cause.TheVariants.{BadFlags, NoRoom};
ghost use Rattle.sftp_tree.specs.Picture.{blank};
ghost use Rattle.sftp_tree.specs.PlaceCauses.{allow, is_none};
ghost use Rattle.sftp_tree.specs.Requests.{causes, outcome, after};
ghost use Rattle.sftp_tree.specs.Told.{shown_to, text_to, file_to, listing_to};
ghost use Rattle.sftp_tree.specs.Attributes.{are_good};
ghost use Rattle.sftp_tree.specs.RequestExamples.{linked, with_directory, private_attributes, shown_link};
ghost use Rattle.sftp_tree.specs.RequestExamples.{shown_directory, with_file, with_two_names, without_file};
ghost use Rattle.sftp_tree.specs.RequestExamples.{shown_file, open_attributes, with_open_file, size_attributes};
ghost use Rattle.sftp_tree.specs.RequestExamples.{sized_attributes, with_text, with_two_files, with_moved_file};
ghost use Rattle.sftp_tree.specs.RequestExamples.{before_move, after_move, with_directories};
ghost use Rattle.sftp_tree.specs.RequestExamples.{given_attributes, with_new_file, with_linked_file, with_a_number};
ghost use Rattle.sftp_tree.specs.RequestExamples.{with_no_number, with_listing, listed_names};
ghost use Rattle.sftp_tree.specs.WalkExamples.{with_file as with_empty_file};

/// SYMLINK has the target first. The link has that target unchanged, the target's length for its size, and the tree's
/// owner. What it leads to does not exist.
pub fn symlink_to_nothing()
    ensures free { is_none (causes blank (Symlink (codes "x y") (codes "/l"))) ≡ true }
    ensures made { outcome blank (Symlink (codes "x y") (codes "/l")) ≡ linked }
    ensures shown { shown_to linked (Lstat (codes "/l")) ≡ Some shown_link }
    ensures read { text_to linked (Readlink (codes "/l")) ≡ Some (codes "x y") }
    ensures followed { causes linked (Stat (codes "/l")) NoEntry ≡ true }
    ensures nothing { shown_to linked (Stat (codes "/l")) ≡ None }
{}

/// MKDIR takes the owner that is given, and the low twelve bits of the permissions; STAT shows them with the type bits.
pub fn mkdir_with_attributes()
    ensures free { is_none (causes blank (Mkdir (codes "d/") private_attributes)) ≡ true }
    ensures made { outcome blank (Mkdir (codes "d/") private_attributes) ≡ with_directory }
    ensures shown { shown_to with_directory (Stat (codes "/d")) ≡ Some shown_directory }
    ensures gone { outcome with_directory (Rmdir (codes "/d")) ≡ blank }
{}

/// Nothing is made at a taken place: the cause is `Exists`, which allows the code 4 and not 2.
pub fn taken_places()
    ensures link { causes linked (Mkdir (codes "/l") no_attributes) Exists ≡ true }
    ensures root { causes blank (Mkdir (codes "/") no_attributes) Exists ≡ true }
    ensures one_code { allow (causes linked (Mkdir (codes "/l") no_attributes)) 4 ≡ true }
    ensures no_other { allow (causes linked (Mkdir (codes "/l") no_attributes)) 2 ≡ false }
{}

/// A new link cannot have an empty target. If its place is taken too, both causes hold.
pub fn empty_targets()
    ensures bad { causes blank (Symlink [] (codes "/l")) BadPath ≡ true }
    ensures alone { allow (causes blank (Symlink [] (codes "/l"))) 2 ≡ false }
    ensures bad_too { causes linked (Symlink [] (codes "/l")) BadPath ≡ true }
    ensures taken_too { causes linked (Symlink [] (codes "/l")) Exists ≡ true }
{}

/// RMDIR removes neither the root, nor a link, nor what does not exist.
pub fn refused_removals()
    ensures root { causes blank (Rmdir (codes "/")) Root ≡ true }
    ensures empty { causes blank (Rmdir (codes "/")) NotEmpty ≡ false }
    ensures entries { causes linked (Rmdir (codes "/..")) NotEmpty ≡ true }
    ensures link { causes linked (Rmdir (codes "/l")) NotDir ≡ true }
    ensures absent { causes linked (Rmdir (codes "/d")) NoEntry ≡ true }
{}

/// READLINK reads only links.
pub fn refused_readings()
    ensures directory { causes with_directory (Readlink (codes "/d")) NotLink ≡ true }
    ensures absent { causes with_directory (Readlink (codes "/l")) NoEntry ≡ true }
{}

/// The real path of the root's parent is the root's. The last name of a real path need not exist.
pub fn real_paths()
    ensures above { text_to blank (Realpath (codes "/../..")) ≡ Some (codes "/") }
    ensures absent { text_to linked (Realpath (codes "./l")) ≡ Some (codes "/x y") }
    ensures lost { text_to blank (Realpath (codes "/d/e")) ≡ None }
    ensures why { causes blank (Realpath (codes "/d/e")) NoEntry ≡ true }
{}

/// STAT and LSTAT show the count of a file's bytes, its owner, and its permissions with the type bits of a file.
pub fn shown_files()
    ensures followed { shown_to with_file (Stat (codes "/f")) ≡ Some shown_file }
    ensures not_followed { shown_to with_file (Lstat (codes "/f")) ≡ Some shown_file }
    ensures slash { shown_to with_file (Stat (codes "/f/")) ≡ Some shown_file }
    ensures lost { causes with_file (Stat (codes "/f/.")) NotDir ≡ true }
{}

/// A file is removed with its last name, and not before.
pub fn removed_names()
    ensures free { is_none (causes with_two_names (Remove (codes "/g"))) ≡ true }
    ensures one { after with_two_names (Remove (codes "/g")) ≡ with_file }
    ensures free_too { is_none (causes with_file (Remove (codes "/f"))) ≡ true }
    ensures last { after with_file (Remove (codes "/f")) ≡ without_file }
{}

/// A hard link is one more name of a file, and not another file. Only a file can have one.
pub fn further_names()
    ensures free { is_none (causes with_file (Hardlink (codes "/f") (codes "/g"))) ≡ true }
    ensures made { after with_file (Hardlink (codes "/f") (codes "/g")) ≡ with_two_names }
    ensures taken { causes with_two_names (Hardlink (codes "/f") (codes "/g")) Exists ≡ true }
    ensures directory { causes with_directories (Hardlink (codes "/x") (codes "/y")) NotFile ≡ true }
{}

/// A directory moves with all below it.
pub fn moved_directories()
    ensures free { is_none (causes before_move (Rename (codes "/d") (codes "/x"))) ≡ true }
    ensures moved { after before_move (Rename (codes "/d") (codes "/x")) ≡ after_move }
{}

/// A directory does not move into itself, and the root does not move. RENAME needs a free place.
pub fn refused_moves()
    ensures inside { causes with_directories (Rename (codes "/x") (codes "/x/e/y")) Inside ≡ true }
    ensures one_code { allow (causes with_directories (Rename (codes "/x") (codes "/x/e/y"))) 4 ≡ true }
    ensures not_2 { allow (causes with_directories (Rename (codes "/x") (codes "/x/e/y"))) 2 ≡ false }
    ensures not_5 { allow (causes with_directories (Rename (codes "/x") (codes "/x/e/y"))) 5 ≡ false }
    ensures root { causes with_directories (Rename (codes "/") (codes "/z")) Root ≡ true }
    ensures taken { causes with_directories (Rename (codes "/x") (codes "/x")) Exists ≡ true }
{}

/// OpenSSH's posix-rename to the same place, or to another name of the same file, changes nothing.
pub fn unmoved_places()
    ensures free { is_none (causes with_directories (PosixRename (codes "/x") (codes "/x"))) ≡ true }
    ensures same { after with_directories (PosixRename (codes "/x") (codes "/x")) ≡ with_directories }
    ensures free_too { is_none (causes with_two_names (PosixRename (codes "/f") (codes "/g"))) ≡ true }
    ensures same_file { after with_two_names (PosixRename (codes "/f") (codes "/g")) ≡ with_two_names }
{}

/// OpenSSH's posix-rename does not replace a directory that has entries, a directory by a file, or a file by a
/// directory.
pub fn refused_replacements()
    ensures entries { causes with_directories (PosixRename (codes "/x/e") (codes "/x")) NotEmpty ≡ true }
    ensures directory { causes with_directories (PosixRename (codes "/f") (codes "/x/e")) IsDir ≡ true }
    ensures file { causes with_directories (PosixRename (codes "/x/e") (codes "/f")) NotDir ≡ true }
    ensures missing { allow (causes with_directories (PosixRename (codes "/x/e") (codes "/f"))) 2 ≡ true }
    ensures failed { allow (causes with_directories (PosixRename (codes "/x/e") (codes "/f"))) 4 ≡ true }
    ensures no_other { allow (causes with_directories (PosixRename (codes "/x/e") (codes "/f"))) 5 ≡ false }
{}

/// A file that is replaced is removed with its last name.
pub fn replaced_files()
    ensures free { is_none (causes with_two_files (PosixRename (codes "/f") (codes "/g"))) ≡ true }
    ensures replaced { after with_two_files (PosixRename (codes "/f") (codes "/g")) ≡ with_moved_file }
    ensures taken { causes with_two_files (Rename (codes "/f") (codes "/g")) Exists ≡ true }
{}

/// REMOVE removes a link, and does not remove a directory.
pub fn removed_links()
    ensures free { is_none (causes linked (Remove (codes "/l"))) ≡ true }
    ensures gone { after linked (Remove (codes "/l")) ≡ blank }
    ensures directory { causes with_directory (Remove (codes "/d")) IsDir ≡ true }
    ensures absent { causes blank (Remove (codes "/d")) NoEntry ≡ true }
{}

/// SETSTAT takes the low twelve bits of the permissions, and leaves the rest unchanged.
pub fn set_permissions()
    ensures free { is_none (causes with_file (Setstat (codes "/f") open_attributes)) ≡ true }
    ensures set { after with_file (Setstat (codes "/f") open_attributes) ≡ with_open_file }
{}

/// SETSTAT with a size cuts the bytes of a file, or fills them with zeros. Only a file has a size that can be set,
/// whatever else is asked for.
pub fn set_sizes()
    ensures cut { after with_file (Setstat (codes "/f") (size_attributes 2)) ≡ with_text (codes "he") }
    ensures filled { after with_file (Setstat (codes "/f") (size_attributes 7))
        ≡ with_text (codes "hello" ++ 0 ∷ 0 ∷ []) }
    ensures directory { causes with_directory (Setstat (codes "/d") sized_attributes) NotFile ≡ true }
    ensures one_code { allow (causes with_directory (Setstat (codes "/d") sized_attributes)) 4 ≡ true }
    ensures no_other { allow (causes with_directory (Setstat (codes "/d") sized_attributes)) 2 ≡ false }
{}

/// The flags READ 0x01, WRITE 0x02, APPEND 0x04, CREAT 0x08, TRUNC 0x10 and EXCL 0x20 that a file can be opened with,
/// and those that it cannot.
pub fn flags_of_open()
    ensures read { are_good 0x01 ≡ true }
    ensures append { are_good 0x06 ≡ true }
    ensures all { are_good 0x3f ≡ true }
    ensures none { are_good 0x00 ≡ false }
    ensures neither_read_nor_written { are_good 0x08 ≡ false }
    ensures truncated_not_created { are_good 0x12 ≡ false }
    ensures excluded_not_created { are_good 0x21 ≡ false }
    ensures truncated_not_written { are_good 0x19 ≡ false }
    ensures appended_not_written { are_good 0x05 ≡ false }
    ensures unknown { are_good 0x41 ≡ false }
    ensures highest { are_good 0x8000_0001 ≡ false }
{}

/// OPEN with bad flags has the cause `BadFlags`, which allows the codes 4 and 5, besides the causes of its place.
pub fn bad_flags()
    ensures file { causes with_file (Open (codes "/f") 0x10 no_attributes) BadFlags ≡ true }
    ensures failed { allow (causes with_file (Open (codes "/f") 0x10 no_attributes)) 4 ≡ true }
    ensures bad_message { allow (causes with_file (Open (codes "/f") 0x10 no_attributes)) 5 ≡ true }
    ensures no_other { allow (causes with_file (Open (codes "/f") 0x10 no_attributes)) 2 ≡ false }
    ensures absent { causes with_file (Open (codes "/g") 0x10 no_attributes) BadFlags ≡ true }
    ensures absent_too { causes with_file (Open (codes "/g") 0x10 no_attributes) NoEntry ≡ true }
    ensures directory { causes with_directory (Open (codes "/d") 0x00 no_attributes) IsDir ≡ true }
{}

/// OPEN with CREAT makes an empty file at a free place, with the next number. It takes the owner that is given and the
/// low twelve bits of the permissions, and no size.
pub fn made_files()
    ensures free { is_none (causes blank (Open (codes "/f") 0x0a no_attributes)) ≡ true }
    ensures made { after blank (Open (codes "/f") 0x0a no_attributes) ≡ with_empty_file }
    ensures number { file_to blank (Open (codes "/f") 0x0a no_attributes) ≡ Some 0 }
    ensures given { after with_file (Open (codes "/g") 0x0a given_attributes) ≡ with_new_file }
    ensures next { file_to with_file (Open (codes "/g") 0x0a given_attributes) ≡ Some 1 }
    ensures not_again { file_to without_file (Open (codes "/f") 0x0a no_attributes) ≡ Some 1 }
    ensures not_created { causes blank (Open (codes "/f") 0x02 no_attributes) NoEntry ≡ true }
{}

/// OPEN of a file that exists returns its number. TRUNC removes its bytes; the attributes given are ignored.
pub fn opened_files()
    ensures free { is_none (causes with_file (Open (codes "/f") 0x09 given_attributes)) ≡ true }
    ensures same { after with_file (Open (codes "/f") 0x09 given_attributes) ≡ with_file }
    ensures number { file_to with_two_names (Open (codes "/g") 0x01 no_attributes) ≡ Some 0 }
    ensures truncated { after with_file (Open (codes "/f") 0x1a given_attributes) ≡ with_text [] }
    ensures directory { causes with_directory (Open (codes "/d") 0x01 no_attributes) IsDir ≡ true }
{}

/// OPEN follows a last link, also one that leads to nothing. With EXCL it does not, and no taken place is opened.
pub fn opened_links()
    ensures made { after linked (Open (codes "/l") 0x0a no_attributes) ≡ with_linked_file }
    ensures opened { file_to with_linked_file (Open (codes "/l") 0x01 no_attributes) ≡ Some 0 }
    ensures link { causes linked (Open (codes "/l") 0x2a no_attributes) Exists ≡ true }
    ensures file { causes with_file (Open (codes "/f") 0x2a no_attributes) Exists ≡ true }
    ensures directory { causes with_directory (Open (codes "/d") 0x2a no_attributes) Exists ≡ true }
    ensures one_cause { causes with_directory (Open (codes "/d") 0x2a no_attributes) IsDir ≡ false }
    ensures absent { after blank (Open (codes "/f") 0x2a no_attributes) ≡ with_empty_file }
{}

/// A file gets the number 0xffff_fffe at most. Then no file can be made any more.
pub fn last_number()
    ensures last { is_none (causes with_a_number (Open (codes "/f") 0x0a no_attributes)) ≡ true }
    ensures number { file_to with_a_number (Open (codes "/f") 0x0a no_attributes) ≡ Some 0xffff_fffe }
    ensures no_more { causes with_no_number (Open (codes "/f") 0x0a no_attributes) NoRoom ≡ true }
{}

/// OPENDIR takes the names in a directory, in order, with the attributes that LSTAT shows of their nodes. It changes
/// nothing.
pub fn listed_directories()
    ensures free { is_none (causes with_listing (Opendir (codes "/d"))) ≡ true }
    ensures listed { listing_to with_listing (Opendir (codes "/d")) ≡ Some listed_names }
    ensures empty { listing_to with_listing (Opendir (codes "/d/g/e")) ≡ Some [] }
    ensures followed { listing_to with_listing (Opendir (codes "/d/l"))
        ≡ listing_to with_listing (Opendir (codes "/d/g")) }
    ensures same { after with_listing (Opendir (codes "/d")) ≡ with_listing }
    ensures file { causes with_listing (Opendir (codes "/d/f")) NotDir ≡ true }
    ensures absent { causes with_listing (Opendir (codes "/e")) NoEntry ≡ true }
{}
