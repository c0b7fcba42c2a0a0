//! Worked examples: what profiles permit, computed by the checker on the definitions that the contracts name. The
//! functions do nothing; each promise is in the contract.
#![tactic(auto, unfolding(crate::specs::Permitted::permitted, crate::specs::Permitted::forgiven, crate::specs::Departures::is_forgiven, crate::specs::Room::is_outgrown, crate::specs::Profiles::departure_of, sftp_handles::specs::Allowed::step, sftp_handles::specs::Allowed::causes, sftp_handles::specs::Allowed::answers, sftp_handles::specs::Allowed::after, sftp_handles::specs::Allowed::told_to, sftp_handles::specs::State::seen, sftp_handles::specs::State::pins_of, sftp_tree::specs::Requests::led, sftp_tree::specs::PlaceCauses::no_causes, sftp_tree::specs::PlaceCauses::when, sftp_tree::specs::PlaceCauses::joined, sftp_tree::specs::Requests::plain_causes, sftp_tree::specs::Requests::causes, sftp_tree::specs::Requests::outcome, sftp_tree::specs::Told::text_to, sftp_tree::specs::Told::shown_to, sftp_tree::specs::Attributes::children, sftp_tree::specs::Attributes::listing, sftp_tree::specs::Walk::meets, sftp_tree::specs::Walk::walk_parts, sftp_tree::specs::Walk::walk, sftp_tree::specs::Walk::reached, sftp_tree::specs::Tree::has_entries, sftp_tree::specs::Tree::fits, sftp_path::specs::Place::components, sftp_path::specs::Place::parts, sftp_path::specs::Place::is_good_path, sftp_path::specs::Table::get, sftp_path::specs::Table::put, sftp_path::specs::Table::without, sftp_path::specs::Table::retain, sftp_path::specs::Table::from_entries))]

ghost use Rattle.std.specs.Prelude.{◌≡◌, ◌∷◌, [], Some, None, true, false, codes};
ghost use Rattle.sftp_packets.specs.declared.requests.Ask.TheVariants.{Readdir, Remove, Lstat, Stat, Setstat};
ghost use Rattle.sftp_packets.specs.declared.requests.Ask.TheVariants.{Open, Mkdir, Symlink, Unknown};
ghost use Rattle.sftp_packets.specs.declared.requests.Ask.TheVariants.{Hardlink, Read, Realpath, Write, Fsetstat};
ghost use Rattle.sftp_packets.specs.declared.replies.Answer.TheVariants.{Attrs, Data, Handle, Name};
ghost use Rattle.sftp_packets.specs.Spelling.{no_attributes};
ghost use Rattle.sftp_tree.specs.Picture.{blank};
ghost use Rattle.sftp_tree.specs.WalkExamples.{with_link, letters};
ghost use Rattle.sftp_handles.specs.Examples.{closed, with_text, with_none, code, item, sized, of_directory};
ghost use Rattle.sftp_profile.specs.Profiles.{strict};
ghost use Rattle.sftp_profile.specs.Profiles.{with_name};
ghost use Rattle.sftp_profile.specs.Departures.{is_modelled};
ghost use Rattle.sftp_profile.specs.Replaced.{put};
ghost use Rattle.sftp_profile.specs.State.{bare};
ghost use Rattle.sftp_profile.specs.Permitted.{permitted, follows_in};
ghost use Rattle.sftp_profile.specs.Examples.{any_code, loose_paths, empty_setstats, free_sizes};
ghost use Rattle.sftp_profile.specs.Examples.{beyond, any_flags, owned_by_user, permitted_directory, given_file};
ghost use Rattle.sftp_profile.specs.Examples.{permitted_file, permitted_to, owned_as_given, owned_by_group};
ghost use Rattle.sftp_profile.specs.Examples.{with_other_group};
ghost use Rattle.sftp_profile.specs.Examples.{large_directory, large_directories, listed_three};
ghost use Rattle.sftp_profile.specs.Examples.{linked_links, wide_reads, free_bits, free_links, texts_of_paths};
ghost use Rattle.sftp_profile.specs.Examples.{open_to_read, owned_link, set_group, one_text};
ghost use Rattle.sftp_profile.specs.Examples.{free_types, of_type, listed_file, listed_to_end};
ghost use Rattle.sftp_profile.specs.Examples.{with_room_for_one, with_no_room};
ghost use Rattle.sftp_profile.specs.Examples.{owned_by_bit, with_set_group, set_group_directory};
ghost use Rattle.sftp_profile.specs.Examples.{kept_owners, owned_by, open_of_another, denied_requests, full_disks};
ghost use Rattle.sftp_profile.specs.BytesRead.{empties};
ghost use Rattle.sftp_profile.specs.BytesRead.{is_count};
ghost use Rattle.sftp_treefile.specs.TreeFile.{usual_limits};

/// The name `hardlink-link` switches the departure of a hardlink of a link, and `hardlink` none.
pub fn names_of_departures()
    ensures on { with_name strict (codes "hardlink-link") true ≡ Some linked_links }
    ensures off { with_name linked_links (codes "hardlink-link") false ≡ Some strict }
    ensures none { with_name strict (codes "hardlink") true ≡ None }
{}

/// A file that is not there has the code 2 alone, strictly; with any code it may have 4 too, but never 0.
pub fn other_codes()
    ensures strict { permitted strict (closed blank) (Remove (codes "f")) (code 4) ≡ None }
    ensures refused { permitted any_code (closed blank) (Remove (codes "f")) (code 4) ≡ Some (closed blank) }
    ensures not_done { permitted any_code (closed blank) (Remove (codes "f")) (code 0) ≡ None }
{}

/// `/f/` may be refused where `/f` is a file, and `/` may not. LSTAT of `/l/` may show the directory that the link
/// leads to.
pub fn paths_with_a_slash()
    ensures refused { permitted loose_paths (closed (with_text [])) (Stat (codes "/f/")) (code 4)
        ≡ Some (closed (with_text [])) }
    ensures root { permitted loose_paths (closed (with_text [])) (Stat (codes "/")) (code 4) ≡ None }
    ensures followed { permitted loose_paths (closed with_link) (Lstat (codes "/l/")) (Attrs of_directory)
        ≡ Some (closed with_link) }
    ensures not_followed { permitted loose_paths (closed with_link) (Lstat (codes "/l")) (Attrs of_directory) ≡ None }
{}

/// A SETSTAT that sets nothing may be done where there is nothing; one of a size may not.
pub fn nothing_set()
    ensures done { permitted empty_setstats (closed blank) (Setstat (codes "/x") no_attributes) (code 0)
        ≡ Some (closed blank) }
    ensures sized { permitted empty_setstats (closed blank) (Setstat (codes "/x") (sized 1)) (code 0) ≡ None }
{}

/// A directory may have a size, and a listing `.` and `..`; a wrong name stays wrong.
pub fn sizes_of_directories()
    ensures shown { permitted free_sizes (closed with_none) (Stat (codes "/d")) (Attrs large_directory)
        ≡ Some (closed with_none) }
    ensures strict { permitted strict (closed with_none) (Stat (codes "/d")) (Attrs large_directory) ≡ None }
    ensures dots { permitted free_sizes listed_three (Readdir (codes "h"))
        (large_directories (codes "." ∷ codes ".." ∷ [])) ≡ Some listed_three }
    ensures wrong { permitted free_sizes listed_three (Readdir (codes "h"))
        (large_directories (codes "." ∷ codes "x" ∷ [])) ≡ None }
{}

/// A path of 1,024 bytes may be refused with the code 4, and one of a byte may not.
pub fn long_paths()
    ensures long { permitted beyond (closed blank) (Mkdir (letters 1024) no_attributes) (code 4) ≡ Some (closed blank) }
    ensures short { permitted beyond (closed blank) (Lstat (codes "/")) (code 4) ≡ None }
{}

/// An extension that only looks may be answered, and one that is not known may be refused.
pub fn other_extensions()
    ensures looks { permitted beyond (closed blank) (Unknown (codes "home-directory") [])
        (Name (item no_attributes (codes "/") ∷ [])) ≡ Some (closed blank) }
    ensures refused { permitted beyond (closed blank) (Unknown (codes "x@y") []) (code 4) ≡ Some (closed blank) }
    ensures not_done { permitted beyond (closed blank) (Unknown (codes "x@y") []) (code 0) ≡ None }
    ensures not_followed { is_modelled beyond (Unknown (codes "x@y") []) (code 0) ≡ false }
    ensures followed { is_modelled beyond (Unknown (codes "x@y") []) (code 1) ≡ true }
{}

/// By `limits` a WRITE that was done beyond the bytes that a file may have, here four, is not followed. One that fits,
/// is refused, says that the end was reached, or goes through a handle that is not open, is.
pub fn files_without_room()
    ensures done { follows_in (bare beyond with_room_for_one) (Write (codes "h") 3 (codes "de")) (code 0) ≡ false }
    ensures fits { follows_in (bare beyond with_room_for_one) (Write (codes "h") 3 (codes "d")) (code 0) ≡ true }
    ensures refused { follows_in (bare beyond with_room_for_one) (Write (codes "h") 3 (codes "de")) (code 3) ≡ true }
    ensures end { follows_in (bare beyond with_room_for_one) (Write (codes "h") 3 (codes "de")) (code 1) ≡ true }
    ensures closed { follows_in (bare beyond with_room_for_one) (Write (codes "x") 3 (codes "de")) (code 0) ≡ true }
    ensures strict { follows_in (bare strict with_room_for_one) (Write (codes "h") 3 (codes "de")) (code 0) ≡ true }
{}

/// A link whose target has a name of 300 bytes, or is empty, was made: by `limits` this is not followed, unless its
/// place is taken, or its own path is bad, too.
pub fn targets_without_room()
    ensures long { follows_in (bare beyond (closed blank)) (Symlink (letters 300) (codes "/l")) (code 0) ≡ false }
    ensures none { follows_in (bare beyond (closed blank)) (Symlink [] (codes "/l")) (code 0) ≡ false }
    ensures good { follows_in (bare beyond (closed blank)) (Symlink (letters 255) (codes "/l")) (code 0) ≡ true }
    ensures refused { follows_in (bare beyond (closed blank)) (Symlink (letters 300) (codes "/l")) (code 2) ≡ true }
    ensures taken { follows_in (bare beyond (closed with_link)) (Symlink (letters 300) (codes "/l")) (code 0) ≡ true }
    ensures bad { follows_in (bare beyond (closed blank)) (Symlink (letters 300) (letters 300)) (code 0) ≡ true }
    ensures strict { follows_in (bare strict (closed blank)) (Symlink (letters 300) (codes "/l")) (code 0) ≡ true }
{}

/// In a full tree the request that is judged has no room, and the one that `flags` takes it for. A handle says that an
/// OPEN was done, and OK does not.
pub fn requests_without_room()
    ensures made { follows_in (bare beyond with_no_room) (Mkdir (codes "/d") no_attributes) (code 0) ≡ false }
    ensures opened { follows_in (bare beyond with_no_room) (Open (codes "/f") 0xa no_attributes)
        (Handle (codes "h")) ≡ false }
    ensures no_handle { follows_in (bare beyond with_no_room) (Open (codes "/f") 0xa no_attributes) (code 0) ≡ true }
    ensures bad_flags { follows_in (bare beyond with_no_room) (Open (codes "/f") 8 no_attributes)
        (Handle (codes "h")) ≡ true }
    ensures flags { follows_in (bare (record beyond { flags = true }) with_no_room) (Open (codes "/f") 8 no_attributes)
        (Handle (codes "h")) ≡ false }
    ensures draft { follows_in (bare (record beyond { symlink_draft = true }) (closed blank))
        (Symlink (codes "/l") (letters 300)) (code 0) ≡ false }
{}

/// OPEN with no flags opens a file to read, and with an unknown flag it goes by the others.
pub fn loose_flags()
    ensures none { permitted any_flags (closed (with_text [])) (Open (codes "/f") 0 no_attributes)
        (Handle (codes "h")) ≡ permitted strict (closed (with_text [])) (Open (codes "/f") 1 no_attributes)
        (Handle (codes "h")) }
    ensures unknown { permitted any_flags (closed (with_text [])) (Open (codes "/f") 0x42 no_attributes)
        (Handle (codes "h")) ≡ permitted strict (closed (with_text [])) (Open (codes "/f") 2 no_attributes)
        (Handle (codes "h")) }
    ensures bad { permitted any_flags (closed blank) (Open (codes "/f") 0x12 no_attributes)
        (Handle (codes "h")) ≡ None }
{}

/// TRUNC empties a file that is not made, whether it is opened to be written or to be read.
pub fn emptied_files()
    ensures written { permitted any_flags (closed (with_text (codes "abc"))) (Open (codes "/f") 0x12 no_attributes)
        (Handle (codes "h")) ≡ permitted strict (closed (with_text [])) (Open (codes "/f") 2 no_attributes)
        (Handle (codes "h")) }
    ensures read { permitted any_flags (closed (with_text (codes "abc"))) (Open (codes "/f") 0x11 no_attributes)
        (Handle (codes "h")) ≡ Some (open_to_read []) }
    ensures made { empties 0x1a ≡ false }
{}

/// A hardlink of the link `/l` is a link with the same target, and one of the directory `/d` is not made.
pub fn hardlinks_of_links()
    ensures link { permitted linked_links (closed with_link) (Hardlink (codes "/l") (codes "/m")) (code 0)
        ≡ permitted strict (closed with_link) (Symlink (codes "d/e") (codes "/m")) (code 0) }
    ensures directory { permitted linked_links (closed with_link) (Hardlink (codes "/d") (codes "/m")) (code 0) ≡ None }
    ensures strict { permitted strict (closed with_link) (Hardlink (codes "/l") (codes "/m")) (code 0) ≡ None }
{}

/// With a limit of two bytes, a READ of four bytes from the second of five on may give two, three or four.
pub fn counts_of_bytes()
    ensures one { is_count (record usual_limits { read_bytes = 2 }) 5 1 4 1 ≡ false }
    ensures two { is_count (record usual_limits { read_bytes = 2 }) 5 1 4 2 ≡ true }
    ensures four { is_count (record usual_limits { read_bytes = 2 }) 5 1 4 4 ≡ true }
    ensures five { is_count (record usual_limits { read_bytes = 2 }) 5 1 5 5 ≡ false }
{}

/// A READ of no bytes may give none, or say that the end was reached, and one of a byte may not say so before the end.
pub fn reads_of_nothing()
    ensures none { permitted wide_reads (open_to_read (codes "abc")) (Read (codes "h") 3 0) (Data [])
        ≡ Some (open_to_read (codes "abc")) }
    ensures end { permitted wide_reads (open_to_read (codes "abc")) (Read (codes "h") 0 0) (code 1)
        ≡ Some (open_to_read (codes "abc")) }
    ensures byte { permitted wide_reads (open_to_read (codes "abc")) (Read (codes "h") 0 1) (code 1) ≡ None }
{}

/// The bits 0o6000 of a directory may be others, and so may the owner and the permissions of a link; its size may not.
pub fn free_attributes()
    ensures bits { permitted free_bits (closed with_link) (Stat (codes "/d")) (Attrs set_group)
        ≡ Some (closed with_link) }
    ensures link { permitted free_links (closed with_link) (Lstat (codes "/l")) (Attrs owned_link)
        ≡ Some (closed with_link) }
    ensures sized { permitted free_links (closed with_link) (Lstat (codes "/l"))
        (Attrs (record owned_link { size = Some 4 })) ≡ None }
    ensures directory { permitted free_links (closed with_link) (Lstat (codes "/d")) (Attrs owned_link) ≡ None }
{}

/// A file of no bytes may be shown as a FIFO, a device or a socket with its permissions. One of a byte may not, nor may
/// a directory, and its permissions may not be others.
pub fn types_of_files()
    ensures fifo { permitted free_types (closed (with_text [])) (Lstat (codes "/f")) (Attrs (of_type 1 0o644))
        ≡ Some (closed (with_text [])) }
    ensures character_device { permitted free_types (closed (with_text [])) (Stat (codes "/f"))
        (Attrs (of_type 2 0o644)) ≡ Some (closed (with_text [])) }
    ensures block_device { permitted free_types (closed (with_text [])) (Stat (codes "/f")) (Attrs (of_type 6 0o644))
        ≡ Some (closed (with_text [])) }
    ensures socket { permitted free_types (closed (with_text [])) (Lstat (codes "/f")) (Attrs (of_type 12 0o644))
        ≡ Some (closed (with_text [])) }
    ensures listed { permitted free_types (listed_file []) (Readdir (codes "h"))
        (Name (item (of_type 12 0o644) (codes "f") ∷ [])) ≡ Some (listed_to_end []) }
    ensures strict { permitted strict (closed (with_text [])) (Lstat (codes "/f")) (Attrs (of_type 12 0o644)) ≡ None }
    ensures permissions { permitted free_types (closed (with_text [])) (Lstat (codes "/f")) (Attrs (of_type 12 0o600))
        ≡ None }
    ensures size { permitted free_types (closed (with_text [])) (Lstat (codes "/f"))
        (Attrs (record (of_type 12 0o644) { size = Some 1 })) ≡ None }
    ensures byte { permitted free_types (closed (with_text (codes "a"))) (Lstat (codes "/f"))
        (Attrs (record (of_type 12 0o644) { size = Some 1 })) ≡ None }
    ensures no_byte { permitted free_types (closed (with_text (codes "a"))) (Lstat (codes "/f"))
        (Attrs (of_type 12 0o644)) ≡ None }
    ensures listed_byte { permitted free_types (listed_file (codes "a")) (Readdir (codes "h"))
        (Name (item (of_type 12 0o644) (codes "f") ∷ [])) ≡ None }
    ensures link { permitted free_types (closed (with_text [])) (Lstat (codes "/f")) (Attrs (of_type 10 0o644)) ≡ None }
    ensures directory { permitted free_types (closed with_none) (Lstat (codes "/d")) (Attrs (of_type 12 0o755)) ≡ None }
{}

/// REALPATH of the link `/l` to `/d/e` may give its own text, and not that of another place.
pub fn texts_made_absolute()
    ensures link { permitted texts_of_paths (closed with_link) (Realpath (codes "x/../l/.")) (one_text (codes "/l"))
        ≡ Some (closed with_link) }
    ensures other { permitted texts_of_paths (closed with_link) (Realpath (codes "/l")) (one_text (codes "/d")) ≡ None }
    ensures lost { permitted texts_of_paths (closed with_link) (Realpath (codes "/x/y")) (one_text (codes "/x/y"))
        ≡ Some (closed with_link) }
    ensures absent { permitted texts_of_paths (closed with_link) (Realpath (codes "/x")) (code 2)
        ≡ Some (closed with_link) }
{}

/// What is made has the tree's owner and the permissions that the mask leaves, and SYMLINK's paths change places.
pub fn requests_replaced()
    ensures directory { put owned_by_user (closed blank) (Mkdir (codes "d") no_attributes)
        ≡ Mkdir (codes "d") permitted_directory }
    ensures file { put owned_by_user (closed blank) (Open (codes "f") 0xa given_file)
        ≡ Open (codes "f") 0xa permitted_file }
    ensures link { put (record strict { symlink_draft = true }) (closed blank) (Symlink (codes "l") (codes "t"))
        ≡ Symlink (codes "t") (codes "l") }
    ensures strict { put strict (closed blank) (Mkdir (codes "d") no_attributes) ≡ Mkdir (codes "d") no_attributes }
{}

/// What is made in `/d`, a directory of group 9, has the tree's user 1 and that group: a directory, and a file that the
/// link `/l` leads to. EXCL does not follow the link, and the file would be in the root, which is of group 0. Where the
/// path leads nowhere, the group is the tree's.
pub fn groups_of_directories()
    ensures directory { put owned_by_group (closed with_other_group) (Mkdir (codes "/d/x") no_attributes)
        ≡ Mkdir (codes "/d/x") (permitted_to 1 9) }
    ensures link { put owned_by_group (closed with_other_group) (Open (codes "/l") 0xa given_file)
        ≡ Open (codes "/l") 0xa (permitted_to 1 9) }
    ensures exclusive { put owned_by_group (closed with_other_group) (Open (codes "/l") 0x2a given_file)
        ≡ Open (codes "/l") 0x2a (permitted_to 1 0) }
    ensures lost { put owned_by_group (closed with_other_group) (Mkdir (codes "/x/y") no_attributes)
        ≡ Mkdir (codes "/x/y") (permitted_to 1 2) }
{}

/// The group of the directory says nothing where what is made has the tree's owner, or the one that is asked for.
pub fn owners_by_other_rules()
    ensures user { put owned_by_user (closed with_other_group) (Open (codes "/d/x") 0xa given_file)
        ≡ Open (codes "/d/x") 0xa permitted_file }
    ensures given { put owned_as_given (closed with_other_group) (Open (codes "/d/x") 0xa given_file)
        ≡ Open (codes "/d/x") 0xa (permitted_to 7 8) }
    ensures unasked { put owned_as_given (closed with_other_group) (Mkdir (codes "/d/x") no_attributes)
        ≡ Mkdir (codes "/d/x") permitted_directory }
{}

/// What is made in `/d`, a directory of group 9 with the set-gid bit, has that group, and a directory has the bit, too,
/// whatever permissions are asked for. In a directory without the bit it has the tree's owner.
pub fn groups_by_the_bit()
    ensures directory { put owned_by_bit (closed with_set_group) (Mkdir (codes "/d/x") no_attributes)
        ≡ Mkdir (codes "/d/x") (set_group_directory 1 9) }
    ensures given { put owned_by_bit (closed with_set_group) (Mkdir (codes "/d/x") given_file)
        ≡ Mkdir (codes "/d/x") (set_group_directory 1 9) }
    ensures file { put owned_by_bit (closed with_set_group) (Open (codes "/l") 0xa given_file)
        ≡ Open (codes "/l") 0xa (permitted_to 1 9) }
    ensures above { put owned_by_bit (closed with_set_group) (Mkdir (codes "/x") given_file)
        ≡ Mkdir (codes "/x") (permitted_to 1 2) }
    ensures plain { put owned_by_bit (closed with_other_group) (Mkdir (codes "/d/x") given_file)
        ≡ Mkdir (codes "/d/x") (permitted_to 1 2) }
    ensures lost { put owned_by_bit (closed with_set_group) (Mkdir (codes "/x/y") given_file)
        ≡ Mkdir (codes "/x/y") (permitted_to 1 2) }
    ensures user { put owned_by_user (closed with_set_group) (Mkdir (codes "/d/x") no_attributes)
        ≡ Mkdir (codes "/d/x") permitted_directory }
{}

/// A half of an owner that is 4294967295 leaves what is there: of `/d`, and of a file that is open, each of user 5 and
/// group 9. An owner without such a half stands as it is, and so does one of what is not there.
pub fn owners_kept()
    ensures group { put kept_owners (closed with_other_group) (Setstat (codes "/d") (owned_by 4294967295 7))
        ≡ Setstat (codes "/d") (owned_by 5 7) }
    ensures user { put kept_owners (closed with_other_group) (Setstat (codes "/d") (owned_by 7 4294967295))
        ≡ Setstat (codes "/d") (owned_by 7 9) }
    ensures neither { put kept_owners (closed with_other_group) (Setstat (codes "/d") (owned_by 4294967295 4294967295))
        ≡ Setstat (codes "/d") (owned_by 5 9) }
    ensures both { put kept_owners (closed with_other_group) (Setstat (codes "/d") (owned_by 7 4294967294))
        ≡ Setstat (codes "/d") (owned_by 7 4294967294) }
    ensures open { put kept_owners open_of_another (Fsetstat (codes "h") (owned_by 4294967295 7))
        ≡ Fsetstat (codes "h") (owned_by 5 7) }
    ensures absent { put kept_owners (closed with_other_group) (Setstat (codes "/x") (owned_by 4294967295 7))
        ≡ Setstat (codes "/x") (owned_by 4294967295 7) }
    ensures strict { put strict (closed with_other_group) (Setstat (codes "/d") (owned_by 4294967295 7))
        ≡ Setstat (codes "/d") (owned_by 4294967295 7) }
{}

/// By `denied` any request may be refused with the code 3, and with no other.
pub fn requests_denied()
    ensures denied { permitted denied_requests (closed with_link) (Stat (codes "/d")) (code 3)
        ≡ Some (closed with_link) }
    ensures other { permitted denied_requests (closed with_link) (Stat (codes "/d")) (code 4) ≡ None }
    ensures strict { permitted strict (closed with_link) (Stat (codes "/d")) (code 3) ≡ None }
{}

/// By `full` a request that needs room, for an entry or for bytes, may be refused with the code 4, and no other may.
pub fn disks_without_room()
    ensures entry { permitted full_disks (closed blank) (Mkdir (codes "/d") no_attributes) (code 4)
        ≡ Some (closed blank) }
    ensures denied { permitted full_disks (closed blank) (Mkdir (codes "/d") no_attributes) (code 3) ≡ None }
    ensures bytes { permitted full_disks open_of_another (Write (codes "h") 3 (codes "d")) (code 4)
        ≡ Some open_of_another }
    ensures no_bytes { permitted full_disks open_of_another (Write (codes "h") 3 []) (code 4) ≡ None }
    ensures made { permitted full_disks (closed blank) (Open (codes "/f") 0xa no_attributes) (code 4)
        ≡ Some (closed blank) }
    ensures opened { permitted full_disks (closed (with_text [])) (Open (codes "/f") 2 no_attributes) (code 4) ≡ None }
    ensures longer { permitted full_disks (closed (with_text [])) (Setstat (codes "/f") (sized 1)) (code 4)
        ≡ Some (closed (with_text [])) }
    ensures emptied { permitted full_disks (closed (with_text [])) (Setstat (codes "/f") (sized 0)) (code 4) ≡ None }
{}
