//! Worked examples of the extensions whose fields a profile knows, computed by the checker on the definitions that the
//! contracts name. The functions do nothing; each promise is in the contract.
#![tactic(auto, unfolding(crate::specs::Permitted::permitted, crate::specs::Permitted::forgiven, crate::specs::Departures::is_forgiven, crate::specs::Room::is_outgrown, crate::specs::Replaced::setstat_in, crate::specs::Departures::copying_at, crate::specs::Departures::copying_in, sftp_packets::specs::Reading::uint32_at, sftp_packets::specs::Reading::uint64_at, sftp_packets::specs::Reading::string_at, sftp_packets::specs::Reading::two_uint32_at, sftp_packets::specs::Reading::attribute_fields_at, sftp_packets::specs::Reading::attributes_at, sftp_handles::specs::Allowed::step, sftp_handles::specs::Clash::touched, sftp_handles::specs::Allowed::causes, sftp_handles::specs::Allowed::answers, sftp_handles::specs::Allowed::after, sftp_handles::specs::Allowed::told_to, sftp_handles::specs::State::seen, sftp_handles::specs::State::pins_of, sftp_tree::specs::Requests::led, sftp_tree::specs::PlaceCauses::no_causes, sftp_tree::specs::PlaceCauses::when, sftp_tree::specs::PlaceCauses::joined, sftp_tree::specs::Requests::plain_causes, sftp_tree::specs::Requests::causes, sftp_tree::specs::Requests::outcome, sftp_tree::specs::Told::text_to, sftp_tree::specs::Told::shown_to, sftp_tree::specs::Walk::meets, sftp_tree::specs::Walk::walk_parts, sftp_tree::specs::Walk::walk, sftp_tree::specs::Walk::reached, sftp_tree::specs::Tree::has_entries, sftp_tree::specs::Tree::fits, sftp_path::specs::Place::components, sftp_path::specs::Place::parts, sftp_path::specs::Place::is_good_path, sftp_path::specs::Table::get, sftp_path::specs::Table::put, sftp_path::specs::Table::without, sftp_path::specs::Table::retain, sftp_path::specs::Table::from_entries))]

ghost use Rattle.std.specs.Prelude.{◌≡◌, ◌∷◌, ◌++◌, [], Some, None, true, false, codes};
ghost use Rattle.sftp_packets.specs.declared.requests.Ask.TheVariants.{Unknown};
ghost use Rattle.sftp_packets.specs.Spelling.{string, attributes};
ghost use Rattle.sftp_packets.specs.Spelling.{no_attributes};
ghost use Rattle.sftp_tree.specs.WalkExamples.{with_link};
ghost use Rattle.sftp_handles.specs.Examples.{closed, with_text, with_owned, code, sized, owned};
ghost use Rattle.sftp_profile.specs.Profiles.{strict};
ghost use Rattle.sftp_profile.specs.Departures.{is_modelled};
ghost use Rattle.sftp_profile.specs.Permitted.{permitted};
ghost use Rattle.sftp_profile.specs.Examples.{set_links, copied_files, known_fields, lsetstat, copy_data};
ghost use Rattle.sftp_profile.specs.Examples.{open_for_both, open_two, empty_link_sets};

/// lsetstat sets a file as a SETSTAT does, and nothing of a link: of that no size is set. What sets nothing may be done
/// where there is nothing, by `empty-setstat`.
pub fn links_set()
    ensures file { permitted set_links (closed (with_text [])) (lsetstat (codes "/f") (owned 7 8)) (code 0)
        ≡ Some (closed (with_owned 7 8 [])) }
    ensures link { permitted set_links (closed with_link) (lsetstat (codes "/l") (owned 7 8)) (code 0)
        ≡ Some (closed with_link) }
    ensures refused { permitted set_links (closed with_link) (lsetstat (codes "/l") (owned 7 8)) (code 4)
        ≡ Some (closed with_link) }
    ensures size { permitted set_links (closed with_link) (lsetstat (codes "/l") (sized 0)) (code 0) ≡ None }
    ensures no_size { permitted set_links (closed with_link) (lsetstat (codes "/l") (sized 0)) (code 5)
        ≡ Some (closed with_link) }
    ensures absent { permitted set_links (closed with_link) (lsetstat (codes "/x") (owned 7 8)) (code 0) ≡ None }
    ensures nothing { permitted set_links (closed with_link) (lsetstat (codes "/x") no_attributes) (code 0) ≡ None }
    ensures nothing_set { permitted empty_link_sets (closed with_link) (lsetstat (codes "/x") no_attributes) (code 0)
        ≡ Some (closed with_link) }
    ensures strict { permitted strict (closed with_link) (lsetstat (codes "/l") (owned 7 8)) (code 0) ≡ None }
{}

/// copy-data writes what it reads: of `abc` the first byte, at the offset 2. Within one file it may be refused, and
/// bytes that overlap are not copied.
pub fn files_copied()
    ensures copied { permitted copied_files (open_for_both (codes "abc")) (copy_data (codes "h") 0 1 (codes "h") 2)
        (code 0) ≡ Some (open_for_both (codes "aba")) }
    ensures beyond { permitted copied_files (open_for_both (codes "abc")) (copy_data (codes "h") 2 4 (codes "h") 6)
        (code 0) ≡ Some (open_for_both (97 ∷ 98 ∷ 99 ∷ 0 ∷ 0 ∷ 0 ∷ 99 ∷ [])) }
    ensures refused { permitted copied_files (open_for_both (codes "abc")) (copy_data (codes "h") 0 1 (codes "h") 2)
        (code 4) ≡ Some (open_for_both (codes "abc")) }
    ensures overlaps { permitted copied_files (open_for_both (codes "abc")) (copy_data (codes "h") 0 2 (codes "h") 1)
        (code 0) ≡ None }
    ensures to_end { permitted copied_files (open_for_both (codes "abc")) (copy_data (codes "h") 0 0 (codes "h") 3)
        (code 0) ≡ None }
    ensures absent { permitted copied_files (open_for_both (codes "abc")) (copy_data (codes "x") 0 1 (codes "h") 2)
        (code 0) ≡ None }
    ensures strict { permitted strict (open_for_both (codes "abc")) (copy_data (codes "h") 0 1 (codes "h") 2) (code 0)
        ≡ None }
{}

/// Between two files, bytes that are to be written where they are read in the other one are no overlap, and a copy may
/// not be refused.
pub fn files_copied_to_others()
    ensures copied { permitted copied_files (open_two (codes "abc") (codes "xyz"))
        (copy_data (codes "h") 1 0 (codes "i") 0) (code 0) ≡ Some (open_two (codes "abc") (codes "bcz")) }
    ensures refused { permitted copied_files (open_two (codes "abc") (codes "xyz"))
        (copy_data (codes "h") 1 0 (codes "i") 0) (code 4) ≡ None }
    ensures backwards { permitted copied_files (open_two (codes "abc") (codes "xyz"))
        (copy_data (codes "i") 0 0 (codes "h") 0) (code 0) ≡ None }
{}

/// What has these fields and no byte more is known, whatever its answer.
pub fn fields_known()
    ensures lsetstat { is_modelled known_fields (lsetstat (codes "/l") (owned 7 8)) (code 0) ≡ true }
    ensures copy_data { is_modelled known_fields (copy_data (codes "h") 0 1 (codes "h") 2) (code 0) ≡ true }
    ensures short { is_modelled known_fields (Unknown (codes "lsetstat@openssh.com") (string (codes "/l"))) (code 0)
        ≡ false }
    ensures short_copy { is_modelled known_fields (Unknown (codes "copy-data") (string (codes "h") ++ string []))
        (code 0) ≡ false }
    ensures trailing { is_modelled known_fields
        (Unknown (codes "lsetstat@openssh.com") (string (codes "/l") ++ (attributes (owned 7 8) ++ 0 ∷ []))) (code 0)
        ≡ false }
    ensures other { is_modelled known_fields (Unknown (codes "lsetstat") []) (code 0) ≡ false }
{}
