//! Worked examples: what is read of open files and changed in them, computed by the checker on the definitions that the
//! contracts name. The functions do nothing; each promise is in the contract.
#![tactic(auto, unfolding(crate::specs::Requests::led, crate::specs::PlaceCauses::no_causes, crate::specs::PlaceCauses::when, crate::specs::PlaceCauses::joined, crate::specs::Requests::plain_causes, crate::specs::Requests::causes, crate::specs::Requests::outcome, crate::specs::Told::shown_to, crate::specs::Told::text_to, crate::specs::Walk::meets, crate::specs::Walk::walk_parts, crate::specs::Walk::walk, crate::specs::Walk::reached, crate::specs::Tree::has_entries, crate::specs::Tree::fits, sftp_path::specs::Place::components, sftp_path::specs::Place::parts, sftp_path::specs::Place::is_good_path, sftp_path::specs::Table::get, sftp_path::specs::Table::put, sftp_path::specs::Table::without, sftp_path::specs::Table::retain, sftp_path::specs::Table::from_entries, sftp_path::specs::Table::rekeyed))]

ghost use Rattle.std.specs.Prelude.{◌≡◌, ℕ, true, false, List, [], ◌∷◌, ◌++◌, Some, None, length, codes};
ghost use Rattle.sftp_packets.specs.declared.requests.Ask.TheVariants.{Remove};
ghost use Rattle.sftp_treefile.specs.TreeFile.{usual_limits, highest_limits, least_limits};
ghost use Rattle.sftp_tree.specs.Tree.{content_at, with_pin, without_pin, is_held};
ghost use Rattle.sftp_tree.specs.Attributes.{shown_content};
ghost use Rattle.sftp_tree.specs.Changes.{bytes_at, written, write_fits};
ghost use Rattle.sftp_tree.specs.Changes.{after_write, after_set, after_pin, after_unpin};
ghost use Rattle.sftp_tree.specs.Requests.{after};
ghost use Rattle.sftp_tree.specs.RequestExamples.{hello, with_file, with_text, without_file, shown_file};
ghost use Rattle.sftp_tree.specs.RequestExamples.{size_attributes, sized_attributes};
ghost use Rattle.sftp_tree.specs.RequestExamples.{pinned, unnamed, with_two_files};

/// A READ gives no more than there is, than is asked for, and than the limit; at the end and past it nothing.
pub fn read_bytes()
    ensures inside { bytes_at usual_limits 1 3 (codes "hello") ≡ codes "ell" }
    ensures across { bytes_at usual_limits 3 4294967295 (codes "hello") ≡ codes "lo" }
    ensures at_end { bytes_at usual_limits 5 1 (codes "hello") ≡ [] }
    ensures far { bytes_at usual_limits 18446744073709551615 1 (codes "hello") ≡ [] }
    ensures none { bytes_at usual_limits 1 0 (codes "hello") ≡ [] }
    ensures limit { bytes_at (record usual_limits { read_bytes = 2 }) 1 3 (codes "hello") ≡ codes "el" }
{}

/// The limit of a READ is the tree's: of a file of 70,000 bytes one READ gives 32,768 bytes under the usual limits, and
/// 65,536 under the highest.
pub fn read_limits()
    ensures usual { (bytes : List ℕ) → length bytes ≡ 70000 → length (bytes_at usual_limits 0 70000 bytes) ≡ 32768 }
    ensures highest { (bytes : List ℕ) → length bytes ≡ 70000 → length (bytes_at highest_limits 0 70000 bytes) ≡ 65536 }
{}

/// A WRITE replaces what it is over, and appends the rest; past the end zeros come first. No bytes change nothing,
/// wherever they are written. What APPEND writes goes to the end.
pub fn written_bytes()
    ensures inside { written 1 (codes "EL") (codes "hello") ≡ codes "hELlo" }
    ensures across { written 4 (codes "!!") (codes "hello") ≡ codes "hell!!" }
    ensures past { written 7 (codes "!") (codes "hello") ≡ codes "hello" ++ 0 ∷ 0 ∷ codes "!" }
    ensures first { written 2 (codes "!") [] ≡ 0 ∷ 0 ∷ codes "!" }
    ensures none { written 18446744073709551615 [] (codes "hello") ≡ codes "hello" }
    ensures append { written (length (codes "hello")) (codes "!") (codes "hello") ≡ codes "hello!" }
{}

/// Under the usual limits a file has 16,777,216 bytes at most, under the highest 67,108,864. The sum of offset and
/// length is a number without a limit. No bytes can be written anywhere.
pub fn fitting_writes()
    ensures last { write_fits with_file 0 16777215 (codes "!") ≡ true }
    ensures one_more { write_fits with_file 0 16777216 (codes "!") ≡ false }
    ensures far { write_fits with_file 0 18446744073709551615 (codes "!") ≡ false }
    ensures none { write_fits with_file 0 18446744073709551615 [] ≡ true }
    ensures highest { write_fits (record with_file { limits = highest_limits }) 0 16777216 (codes "!") ≡ true }
    ensures beyond { write_fits (record with_file { limits = highest_limits }) 0 67108864 (codes "!") ≡ false }
{}

/// All files together have a limit too: with 16,777,216 bytes, and a file of 5 bytes beside it, a file has 16,777,211
/// at most. A file that has no name any more and is held open counts. What a WRITE is over counts once.
pub fn writes_that_fit_all()
    ensures last { write_fits (record with_two_files { limits = least_limits }) 1 16777210 (codes "!") ≡ true }
    ensures one_more { write_fits (record with_two_files { limits = least_limits }) 1 16777211 (codes "!") ≡ false }
    ensures over { write_fits (record with_two_files { limits = least_limits }) 0 0 (codes "hello") ≡ true }
    ensures unnamed { write_fits (record with_two_files { names = []; limits = least_limits }) 1 16777211 (codes "!")
        ≡ false }
{}

/// A WRITE and an FSETSTAT change the file of their number.
pub fn changed_files()
    ensures written { after_write with_file 0 5 (codes "!") ≡ with_text (codes "hello!") }
    ensures nothing { after_write with_file 0 9 [] ≡ with_file }
    ensures cut { after_set with_file 0 (size_attributes 4) ≡ with_text (codes "hell") }
    ensures filled { after_set with_file 0 (size_attributes 6) ≡ with_text (codes "hello" ++ 0 ∷ []) }
    ensures shown { shown_content hello ≡ shown_file }
{}

/// Pins are counted; a file that is not pinned has no entry.
pub fn counted_pins()
    ensures first { with_pin [] 3 ≡ (3, 1) ∷ [] }
    ensures second { with_pin ((3, 1) ∷ []) 3 ≡ (3, 2) ∷ [] }
    ensures other { with_pin ((3, 1) ∷ []) 1 ≡ (1, 1) ∷ (3, 1) ∷ [] }
    ensures fewer { without_pin ((3, 2) ∷ []) 3 ≡ (3, 1) ∷ [] }
    ensures last { without_pin ((1, 1) ∷ (3, 1) ∷ []) 3 ≡ (1, 1) ∷ [] }
{}

/// A file that is removed while it is pinned keeps its bytes, and goes with its last pin. A file that has a name stays
/// without pins.
pub fn pinned_files()
    ensures pinned { after_pin with_file 0 ≡ pinned 1 }
    ensures twice { after_pin (pinned 1) 0 ≡ pinned 2 }
    ensures removed { after (pinned 2) (Remove (codes "/f")) ≡ unnamed 2 }
    ensures there { content_at (unnamed 2).files 0 ≡ Some hello }
    ensures held { after_unpin (unnamed 2) 0 ≡ unnamed 1 }
    ensures gone { after_unpin (unnamed 1) 0 ≡ without_file }
    ensures named { after_unpin (pinned 1) 0 ≡ with_file }
{}
