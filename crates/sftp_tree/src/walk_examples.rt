//! Worked examples of walks: where paths lead in small trees, computed by the checker. The functions do nothing; each
//! promise is in the contract.
#![tactic(auto, unfolding(crate::specs::WalkExamples::chain, crate::specs::Walk::reached, crate::specs::Walk::walk, crate::specs::Walk::walk_parts, crate::specs::Walk::meets, sftp_path::specs::Place::is_good_path, sftp_path::specs::Place::components, sftp_path::specs::Place::parts, sftp_path::specs::Table::get))]

ghost use Rattle.std.specs.Prelude.{◌≡◌, [], ◌∷◌, Bool, true, false, Ok, Err, codes};
ghost use Rattle.sftp_tree.specs.declared.causes.Cause.TheVariants.{BadPath, NoEntry, NotDir, Loop};
ghost use Rattle.sftp_tree.specs.Walk.{reached};
ghost use Rattle.sftp_tree.specs.WalkRules.{looked_of};
ghost use Rattle.sftp_tree.specs.WalkExamples.{tree_of, with_file, with_link, with_target, with_home};
ghost use Rattle.sftp_tree.specs.WalkExamples.{with_linked_home, with_two_links, with_both_targets};
ghost use Rattle.sftp_tree.specs.WalkExamples.{letters, with_chain, with_chained_file, chained};

/// `..` behind a link leads to the parent of what the link leads to, and not to the link's; above the root it leads to
/// the root.
pub fn parents()
    ensures behind_link { reached with_link true (codes "/l/..") ≡ Ok (codes "d" ∷ []) }
    ensures behind_link_too { reached with_link false (codes "/l/..") ≡ Ok (codes "d" ∷ []) }
    ensures above_root { (follow : Bool) → reached with_link follow (codes "/../..") ≡ Ok [] }
{}

/// A last link leads to where its target leads if it is followed, and else to its own place.
pub fn last_links()
    ensures followed { reached with_link true (codes "/l") ≡ Ok (codes "d" ∷ codes "e" ∷ []) }
    ensures not_followed { reached with_link false (codes "/l") ≡ Ok (codes "l" ∷ []) }
{}

/// A link to itself leads nowhere if it is followed.
pub fn links_to_themselves()
    ensures followed { reached (with_target (codes "l")) true (codes "/l") ≡ Err Loop }
    ensures not_followed { reached (with_target (codes "l")) false (codes "/l") ≡ Ok (codes "l" ∷ []) }
    ensures not_last { reached (with_target (codes "l")) false (codes "/l/x") ≡ Err Loop }
{}

/// A path that is not absolute starts at the home, whose own names are walked too; the last name need not exist.
pub fn homes()
    ensures absent { (follow : Bool) →
        reached with_home follow (codes "x/./y") ≡ Ok (codes "home" ∷ codes "u" ∷ codes "x" ∷ codes "y" ∷ []) }
    ensures absolute { (follow : Bool) → reached with_home follow (codes "/x") ≡ Ok (codes "x" ∷ []) }
    ensures nothing { (follow : Bool) → reached with_home follow [] ≡ Ok (codes "home" ∷ codes "u" ∷ []) }
    ensures linked { (follow : Bool) → reached with_linked_home follow (codes "x") ≡ Ok (codes "d" ∷ codes "x" ∷ []) }
{}

/// A link may lead to a free place, where a node can be made, but no path leads through a free place.
pub fn absent_targets()
    ensures last { reached (with_target (codes "n")) true (codes "/l") ≡ Ok (codes "n" ∷ []) }
    ensures on_the_way { reached (with_target (codes "n/m")) true (codes "/l") ≡ Err NoEntry }
    ensures not_followed { reached (with_target (codes "n/m")) false (codes "/l") ≡ Ok (codes "l" ∷ []) }
    ensures behind { (follow : Bool) → reached (with_target (codes "n")) follow (codes "/l/x") ≡ Err NoEntry }
{}

/// No walk goes through a directory that does not exist, not even back to its parent.
pub fn absent_directories()
    ensures below { (follow : Bool) → reached (tree_of []) follow (codes "/a/b") ≡ Err NoEntry }
    ensures back { (follow : Bool) → reached (tree_of []) follow (codes "/a/..") ≡ Err NoEntry }
{}

/// A walk looks at the components of a path and at those of the targets of links: on `/l/x` at `l`, then at `d` and
/// `e`, and at `x`. It looks at nothing of a bad path.
#[tactic(auto, unfolding(crate::specs::WalkRules::looked_of, crate::specs::Walk::looked, crate::specs::Walk::looked_parts, crate::specs::Walk::meets, sftp_path::specs::Place::is_good_path, sftp_path::specs::Place::components, sftp_path::specs::Place::parts, sftp_path::specs::Table::get))]
pub fn looks()
    ensures link { (follow : Bool) → looked_of with_link follow (codes "/l/x") ≡ 4 }
    ensures last_link { looked_of with_link false (codes "/l") ≡ 1 }
    ensures absent { (follow : Bool) → looked_of (tree_of []) follow (codes "/a/b") ≡ 1 }
    ensures bad { (follow : Bool) → looked_of (tree_of []) follow (97 ∷ 0 ∷ []) ≡ 0 }
{}

/// A path with a byte 0 is bad.
pub fn bad_paths()
    ensures zero { (follow : Bool) → reached (tree_of []) follow (97 ∷ 0 ∷ []) ≡ Err BadPath }
{}

/// The components of a target come in front of the rest, and those of a second link in front of both: `/a/z` leads
/// over `b`, `x` and `z`, and so over `c`, `x` and `z`.
pub fn two_links()
    ensures { (follow : Bool) →
        reached with_two_links follow (codes "/a/z") ≡ Ok (codes "c" ∷ codes "x" ∷ codes "z" ∷ []) }
{}

/// A target that is absolute starts at the root, and any other in the link's directory.
pub fn targets()
    ensures relative { reached with_both_targets true (codes "/d/r") ≡ Ok (codes "d" ∷ codes "e" ∷ []) }
    ensures absolute { reached with_both_targets true (codes "/d/s") ≡ Ok (codes "e" ∷ []) }
{}

/// A walk may end at a file, and a slash after its name changes nothing. With a component after the file it leads
/// nowhere, even with `.` or `..`.
pub fn files()
    ensures last { (follow : Bool) → reached with_file follow (codes "/f") ≡ Ok (codes "f" ∷ []) }
    ensures slash { (follow : Bool) → reached with_file follow (codes "/f/") ≡ Ok (codes "f" ∷ []) }
    ensures behind { (follow : Bool) → reached with_file follow (codes "/f/x") ≡ Err NotDir }
    ensures dot { (follow : Bool) → reached with_file follow (codes "/f/.") ≡ Err NotDir }
    ensures dot_dot { (follow : Bool) → reached with_file follow (codes "/f/..") ≡ Err NotDir }
{}

/// A link to a file leads to the file if it is followed, and with a component behind the link a path leads nowhere.
pub fn links_to_files()
    ensures followed { reached (with_chained_file 1) true (codes "/aa") ≡ Ok (codes "a" ∷ []) }
    ensures not_followed { reached (with_chained_file 1) false (codes "/aa") ≡ Ok (codes "aa" ∷ []) }
    ensures behind { (follow : Bool) → reached (with_chained_file 1) follow (codes "/aa/x") ≡ Err NotDir }
{}

/// Forty links are followed, and one more is a loop.
pub fn forty_links()
    ensures forty { reached (with_chain 40) true (chained 40) ≡ Ok (letters 1 ∷ []) }
    ensures one_more { reached (with_chain 41) true (chained 41) ≡ Err Loop }
    ensures one_more_last { reached (with_chain 41) false (chained 41) ≡ Ok (letters 42 ∷ []) }
{}

/// The same with a file at the end.
pub fn forty_links_to_a_file()
    ensures forty { reached (with_chained_file 40) true (chained 40) ≡ Ok (letters 1 ∷ []) }
    ensures one_more { reached (with_chained_file 41) true (chained 41) ≡ Err Loop }
    ensures one_more_last { reached (with_chained_file 41) false (chained 41) ≡ Ok (letters 42 ∷ []) }
{}
