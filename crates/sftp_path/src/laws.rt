//! Laws of paths, texts and places. The functions do nothing: each publishes its laws, theorems on the definitions
//! that other contracts name, in its contract.
ghost use Rattle.std.specs.Prelude.{◌≡◌, ◌&&◌, ◌++◌, ◌∷◌, nat_lt, true, ℕ, List, []};
ghost use Rattle.std.specs.Prelude.{Option, Some, IsTrue, IfSome, IfNone, length, drop};
ghost use Rattle.std.specs.List.{list_all};
ghost use Rattle.sftp_path.specs.Place.{Name, Place, are_names, is_step, is_inner, begins, is_below};
ghost use Rattle.sftp_path.specs.Place.{parent, absolute, parts, components, is_absolute, is_good_path};
ghost use Rattle.sftp_path.specs.Place.{IsTextOf, with_slashes};

/// Two places whose absolute texts are equal are equal.
#[tactic(auto, using(crate::proofs::PathTexts::absolute_laws))]
pub fn absolute_is_one()
    ensures { (p q : Place) → IsTrue (are_names p) → IsTrue (are_names q) → absolute p ≡ absolute q → p ≡ q }
{}

/// `canonical` undoes `absolute`: by its contract it returns, for the absolute text of a place, that place.
#[tactic(auto, using(crate::proofs::PathTexts::absolute_laws))]
pub fn canonical_undoes_absolute()
    ensures { (place : Place) (found : Option Place) → IsTrue (are_names place) →
        IfSome found (λ p. IsTextOf (absolute place) p) →
        IfNone found ((p : Place) → IsTextOf (absolute place) p → ⊥) → found ≡ Some place }
{}

/// The absolute text of a place is an absolute path, whose components are the names of the place.
#[tactic(auto, using(crate::proofs::PathTexts::absolute_laws))]
pub fn absolute_leads_there()
    ensures absolute { (place : Place) → is_absolute (absolute place) ≡ true }
    ensures components { (place : Place) → IsTrue (are_names place) → components (absolute place) ≡ place }
{}

/// The parts of a path have no `/`, and make the path with a `/` between each and the next. No other list of
/// such parts makes it.
#[tactic(auto, using(crate::proofs::PathTexts::part_laws, crate::proofs::PathTexts::inner_laws))]
pub fn parts_make_the_path()
    ensures inner { (path : List ℕ) → IsTrue (list_all (list_all is_inner) (parts path)) }
    ensures joined { (path : List ℕ) → with_slashes (parts path) ≡ path }
    ensures only { (first : List ℕ) (others : List (List ℕ)) → IsTrue (list_all (list_all is_inner) (first ∷ others)) →
        parts (with_slashes (first ∷ others)) ≡ first ∷ others }
{}

/// Each component of a good path is `.`, `..` or a name.
#[tactic(auto, using(crate::proofs::PathTexts::component_laws))]
pub fn components_are_steps()
    ensures { (path : List ℕ) → IsTrue (is_good_path path) → IsTrue (list_all (λ b. nat_lt b 256) path) →
        IsTrue (list_all is_step (components path)) }
{}

/// A place begins those that start with its names; those with more names are below it.
#[tactic(auto, using(crate::proofs::Move::front_laws))]
pub fn places_in_front()
    ensures front { (top place : Place) → IsTrue (begins top place) → place ≡ top ++ drop (length top) place }
    ensures begins { (top rest : Place) → IsTrue (begins top (top ++ rest)) }
    ensures below { (top place : Place) →
        is_below top place ≡ (begins top place && nat_lt (length top) (length place)) }
{}

/// The parent of what is entered from a place is that place.
pub fn parent_of_entered()
    ensures { (place : Place) (name : Name) → parent (place ++ name ∷ []) ≡ place }
{}
