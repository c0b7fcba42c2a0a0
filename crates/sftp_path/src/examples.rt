//! Worked examples of the definitions, computed by the checker. The functions do nothing; each promise is in the
//! contract.
ghost use Rattle.std.specs.Prelude.{◌≡◌, ℕ, List, [], ◌∷◌, true, false, codes, Some, None};
ghost use Rattle.std.specs.Ordering.{nat_cmp};
ghost use Rattle.std.specs.declared.cmp.Ordering.TheVariants.{Less, Equal, Greater};
ghost use Rattle.sftp_path.specs.Place.{Place, is_name, name_cmp, place_cmp, parent, begins};
ghost use Rattle.sftp_path.specs.Place.{is_below, absolute, components, is_absolute, is_good_path};
ghost use Rattle.sftp_path.specs.Table.{get, put, without, from_entries};
ghost use Rattle.sftp_path.specs.Table.{renamed, rekeyed};

/// Empty components do not count; `.` and `..` do.
#[tactic(auto, unfolding(crate::specs::Place::components, crate::specs::Place::parts))]
pub fn components_of_paths()
    ensures absolute { components (codes "/a/b") ≡ codes "a" ∷ codes "b" ∷ [] }
    ensures doubled { components (codes "a//b/") ≡ codes "a" ∷ codes "b" ∷ [] }
    ensures empty { components [] ≡ [] }
    ensures root { components (codes "/") ≡ [] }
    ensures dots { components (codes "./../x") ≡ codes "." ∷ codes ".." ∷ codes "x" ∷ [] }
{}

/// A path starts at the root if its first byte is a `/`.
pub fn absolute_paths()
    ensures root { is_absolute (codes "/") ≡ true }
    ensures name { is_absolute (codes "a/") ≡ false }
    ensures empty { is_absolute [] ≡ false }
{}

/// The empty path is good, and one with a byte 0 is bad.
#[tactic(auto, unfolding(crate::specs::Place::is_good_path, crate::specs::Place::components, crate::specs::Place::parts))]
pub fn good_and_bad_paths()
    ensures empty { is_good_path [] ≡ true }
    ensures slashes { is_good_path (codes "//a/./..//") ≡ true }
    ensures zero { is_good_path (97 ∷ 0 ∷ []) ≡ false }
{}

/// What is a name, and what is not.
pub fn names()
    ensures letter { is_name (codes "a") ≡ true }
    ensures three_dots { is_name (codes "...") ≡ true }
    ensures high { is_name (255 ∷ 128 ∷ []) ≡ true }
    ensures empty { is_name [] ≡ false }
    ensures dot { is_name (codes ".") ≡ false }
    ensures dot_dot { is_name (codes "..") ≡ false }
    ensures slash { is_name (codes "a/b") ≡ false }
    ensures zero { is_name (97 ∷ 0 ∷ []) ≡ false }
    ensures no_byte { is_name (256 ∷ []) ≡ false }
{}

/// The texts of the root and of a place below it.
pub fn texts()
    ensures root { absolute [] ≡ codes "/" }
    ensures below { absolute (codes "a" ∷ codes "b" ∷ []) ≡ codes "/a/b" }
{}

/// Names are ordered by bytes without sign; a place comes before those that it begins, and what is below `a` before
/// `ab`.
pub fn orders()
    ensures high { name_cmp (127 ∷ []) (128 ∷ []) ≡ Less }
    ensures longer { name_cmp (codes "a") (codes "aa") ≡ Less }
    ensures same { name_cmp (codes "a") (codes "a") ≡ Equal }
    ensures root { place_cmp [] (codes "a" ∷ []) ≡ Less }
    ensures below { place_cmp (codes "a" ∷ codes "z" ∷ []) (codes "ab" ∷ []) ≡ Less }
    ensures above { place_cmp (codes "b" ∷ []) (codes "a" ∷ codes "b" ∷ []) ≡ Greater }
{}

/// The root is its own parent; a place begins itself and is not below itself.
pub fn parents_and_places_below()
    ensures root { parent [] ≡ [] }
    ensures deeper { parent (codes "a" ∷ codes "b" ∷ []) ≡ codes "a" ∷ [] }
    ensures itself { begins (codes "a" ∷ []) (codes "a" ∷ []) ≡ true }
    ensures not_below { is_below (codes "a" ∷ []) (codes "a" ∷ []) ≡ false }
    ensures below { is_below (codes "a" ∷ []) (codes "a" ∷ codes "b" ∷ []) ≡ true }
    ensures beside { is_below (codes "a" ∷ []) (codes "ab" ∷ codes "b" ∷ []) ≡ false }
{}

/// Tables of numbers: entries come in any order, and of two with one key the first counts.
#[tactic(auto, unfolding(crate::specs::Table::from_entries, crate::specs::Table::put, crate::specs::Table::without, crate::specs::Table::get))]
pub fn tables()
    ensures made { from_entries nat_cmp ((3, codes "c") ∷ (1, codes "a") ∷ (3, codes "d") ∷ [])
        ≡ (1, codes "a") ∷ (3, codes "c") ∷ [] }
    ensures put { put nat_cmp ((1, codes "a") ∷ []) 1 (codes "b") ≡ (1, codes "b") ∷ [] }
    ensures without { without nat_cmp ((1, codes "a") ∷ (2, codes "b") ∷ []) 1 ≡ (2, codes "b") ∷ [] }
    ensures there { get nat_cmp ((1, codes "a") ∷ (2, codes "b") ∷ []) 2 ≡ Some (codes "b") }
    ensures absent { get nat_cmp ((1, codes "a") ∷ []) 2 ≡ None }
{}

/// Renaming turns the names in front alone: `/dd` is no place below `/d`.
pub fn renamed_places()
    ensures itself { renamed (codes "d" ∷ []) (codes "x" ∷ []) (codes "d" ∷ []) ≡ codes "x" ∷ [] }
    ensures below { renamed (codes "d" ∷ []) (codes "x" ∷ []) (codes "d" ∷ codes "e" ∷ [])
        ≡ codes "x" ∷ codes "e" ∷ [] }
    ensures beside { renamed (codes "d" ∷ []) (codes "x" ∷ []) (codes "dd" ∷ []) ≡ codes "dd" ∷ [] }
    ensures deeper { renamed (codes "d" ∷ []) (codes "x" ∷ codes "y" ∷ []) (codes "d" ∷ codes "e" ∷ [])
        ≡ codes "x" ∷ codes "y" ∷ codes "e" ∷ [] }
{}

/// `/d` moves to `/x` with what is below it, and the entries come in their new order; `/dd` and `/f` stay.
#[tactic(auto, unfolding(crate::specs::Table::rekeyed, crate::specs::Table::from_entries, crate::specs::Table::put))]
pub fn rekeyed_tables()
    ensures moved { rekeyed {X = ℕ} (codes "d" ∷ []) (codes "x" ∷ [])
        ((codes "d" ∷ [], 1) ∷ (codes "d" ∷ codes "e" ∷ [], 2) ∷ (codes "f" ∷ [], 3) ∷ [])
        ≡ (codes "f" ∷ [], 3) ∷ (codes "x" ∷ [], 1) ∷ (codes "x" ∷ codes "e" ∷ [], 2) ∷ [] }
    ensures beside { rekeyed {X = ℕ} (codes "d" ∷ []) (codes "x" ∷ [])
        ((codes "d" ∷ [], 1) ∷ (codes "dd" ∷ [], 2) ∷ [])
        ≡ (codes "dd" ∷ [], 2) ∷ (codes "x" ∷ [], 1) ∷ [] }
{}

/// What the premises of the laws exclude. If there is an entry at the new place, the entry that moves may be lost. What
/// moves below itself is still below its old place. What moves up to a place above may come to its old place again.
#[tactic(auto, unfolding(crate::specs::Table::rekeyed, crate::specs::Table::from_entries, crate::specs::Table::put))]
pub fn rekeyed_without_premises()
    ensures taken { rekeyed {X = ℕ} (codes "f" ∷ []) (codes "d" ∷ []) ((codes "d" ∷ [], 1) ∷ (codes "f" ∷ [], 3) ∷ [])
        ≡ (codes "d" ∷ [], 1) ∷ [] }
    ensures below_itself { rekeyed {X = ℕ} (codes "d" ∷ []) (codes "d" ∷ codes "e" ∷ []) ((codes "d" ∷ [], 1) ∷ [])
        ≡ (codes "d" ∷ codes "e" ∷ [], 1) ∷ [] }
    ensures up { rekeyed {X = ℕ} (codes "d" ∷ codes "e" ∷ []) (codes "d" ∷ [])
        ((codes "d" ∷ codes "e" ∷ codes "e" ∷ [], 1) ∷ [])
        ≡ (codes "d" ∷ codes "e" ∷ [], 1) ∷ [] }
{}
