//! Laws of a directory that moves in a table of places. The functions do nothing: each publishes its laws in its
//! contract. A clause without a premise on the table holds for each list of entries, in order or not.
ghost use Rattle.std.specs.Prelude.{◌≡◌, ◌+◌, ◌++◌, [], ◌∷◌, Bool, true, false, Some, None, length};
ghost use Rattle.std.specs.List.{list_all};
ghost use Rattle.sftp_path.specs.Place.{Name, Place, place_cmp, begins};
ghost use Rattle.sftp_path.specs.Table.{Table, InOrder, get, put, without, size, count};
ghost use Rattle.sftp_path.specs.Table.{renamed, renamed_entry, rekeyed, NothingFrom};

/// The entries at and below the old place come to the new place and below it, if there were none; none is left at or
/// below the old place; and all other entries stay. That none is left at a place needs no premise on the table if the
/// new place does not begin that place.
#[tactic(auto, using(crate::proofs::Move::move_laws))]
pub fn answers_after_rekeying<X>()
    ensures moved { (old new rest : Place) (table : Table Place X) → get place_cmp table (new ++ rest) ≡ None →
        get place_cmp (rekeyed old new table) (new ++ rest) ≡ get place_cmp table (old ++ rest) }
    ensures left { (old new rest : Place) (table : Table Place X) → begins old new ≡ false → NothingFrom table new →
        get place_cmp (rekeyed old new table) (old ++ rest) ≡ None }
    ensures left_beside { (old new place : Place) (table : Table Place X) → begins old place ≡ true →
        begins new place ≡ false →
        get place_cmp (rekeyed old new table) place ≡ None }
    ensures elsewhere { (old new place : Place) (table : Table Place X) → begins old place ≡ false →
        begins new place ≡ false →
        get place_cmp (rekeyed old new table) place ≡ get place_cmp table place }
{}

/// The places are in order after the move, and if there was no entry at the new place or below it, none is lost.
#[tactic(auto, using(crate::proofs::Move::move_laws))]
pub fn order_and_size_after_rekeying<X>()
    ensures order { (old new : Place) (table : Table Place X) → InOrder place_cmp (rekeyed old new table) }
    ensures size { (old new : Place) (table : Table Place X) → InOrder place_cmp table → NothingFrom table new →
        size (rekeyed old new table) ≡ size table }
{}

/// A renamed place has as many names more, or fewer, as the new place has than the old one.
#[tactic(auto, using(crate::proofs::Move::move_laws))]
pub fn depth_after_renaming()
    ensures { (old new place : Place) → begins old place ≡ true →
        length (renamed old new place) + length old ≡ length place + length new }
{}

/// A table in order that answers as the moved directory does is that table: with nothing at the old place or
/// below it, or with nothing where the old place begins and the new one does not.
#[tactic(auto, using(crate::proofs::Move::move_laws))]
pub fn rekeyed_is_one<X>()
    ensures left { (old new : Place) (table other : Table Place X) → InOrder place_cmp other → NothingFrom table new →
        ((rest : Place) → get place_cmp other (new ++ rest) ≡ get place_cmp table (old ++ rest)) →
        NothingFrom other old →
        ((place : Place) → begins old place ≡ false → begins new place ≡ false →
        get place_cmp other place ≡ get place_cmp table place) →
        other ≡ rekeyed old new table }
    ensures left_beside { (old new : Place) (table other : Table Place X) → InOrder place_cmp other →
        NothingFrom table new →
        ((rest : Place) → get place_cmp other (new ++ rest) ≡ get place_cmp table (old ++ rest)) →
        ((place : Place) → begins old place ≡ true → begins new place ≡ false → get place_cmp other place ≡ None) →
        ((place : Place) → begins old place ≡ false → begins new place ≡ false →
        get place_cmp other place ≡ get place_cmp table place) →
        other ≡ rekeyed old new table }
{}

/// As many values pass a test after the move as before it.
#[tactic(auto, using(crate::proofs::Move::entry_laws))]
pub fn counts_after_rekeying<X>()
    ensures { (old new : Place) (table : Table Place X) (passes : X → Bool) → InOrder place_cmp table →
        NothingFrom table new →
        count (rekeyed old new table) passes ≡ count table passes }
{}

/// All entries pass a test after the move exactly if each one before it passes the test with its place renamed.
#[tactic(auto, using(crate::proofs::Move::moved_tests))]
pub fn tests_after_rekeying<X>()
    ensures { (old new : Place) (table : Table Place X) (keeps : Place × X → Bool) → InOrder place_cmp table →
        NothingFrom table new →
        list_all keeps (rekeyed old new table) ≡ list_all (λ entry. keeps (renamed_entry old new entry)) table }
{}

/// If there is no entry below the old place, the move removes the one entry and puts it at the new place, in either
/// order.
#[tactic(auto, using(crate::proofs::Move::entry_laws))]
pub fn moving_what_stands_alone<X>()
    ensures away_first { (old new : Place) (table : Table Place X) (value : X) → InOrder place_cmp table →
        get place_cmp table old ≡ Some value →
        ((name : Name) (names : Place) → get place_cmp table (old ++ name ∷ names) ≡ None) →
        NothingFrom table new →
        rekeyed old new table ≡ put place_cmp (without place_cmp table old) new value }
    ensures other_way { (old new : Place) (table : Table Place X) (value : X) → InOrder place_cmp table →
        get place_cmp table old ≡ Some value →
        ((name : Name) (names : Place) → get place_cmp table (old ++ name ∷ names) ≡ None) →
        NothingFrom table new →
        rekeyed old new table ≡ without place_cmp (put place_cmp table new value) old }
{}

/// The move entry by entry: from the first to the last, each one is put at its renamed place, which none of those
/// before it has taken. The clauses that end in `_of` say the same of a table that is given as the entries before, the
/// entry and the rest.
#[tactic(auto, using(crate::proofs::Move::entry_laws))]
pub fn moving_entry_by_entry<X>()
    ensures none { (old new : Place) → rekeyed {X = X} old new [] ≡ [] }
    ensures one_more { (old new : Place) (before rest : Table Place X) (entry : Place × X) →
        InOrder place_cmp (before ++ entry ∷ rest) → NothingFrom (before ++ entry ∷ rest) new →
        rekeyed old new (before ++ entry ∷ [])
        ≡ put place_cmp (rekeyed old new before) (renamed old new entry.0) entry.1 }
    ensures free { (old new : Place) (before rest : Table Place X) (entry : Place × X) →
        InOrder place_cmp (before ++ entry ∷ rest) → NothingFrom (before ++ entry ∷ rest) new →
        get place_cmp (rekeyed old new before) (renamed old new entry.0) ≡ None }
    ensures one_more_of { (old new : Place) (table before rest : Table Place X) (entry : Place × X) →
        InOrder place_cmp table → NothingFrom table new → before ++ entry ∷ rest ≡ table →
        rekeyed old new (before ++ entry ∷ [])
        ≡ put place_cmp (rekeyed old new before) (renamed old new entry.0) entry.1 }
    ensures free_of { (old new : Place) (table before rest : Table Place X) (entry : Place × X) →
        InOrder place_cmp table → NothingFrom table new → before ++ entry ∷ rest ≡ table →
        get place_cmp (rekeyed old new before) (renamed old new entry.0) ≡ None }
{}
