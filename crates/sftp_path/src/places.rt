//! Places: where the entries of a tree are.
ghost use Rattle.std.specs.Prelude.{◌≡◌, ◌++◌, [], ◌∷◌, IfOk, OnOk, OnErr, length, IsTrue, refl, nat_eq, Some};
ghost use Rattle.std.specs.Ordering.{nat_cmp};
ghost use Rattle.std.specs.Cmp.{partial_equiv_from_equiv};
ghost use Rattle.std.specs.Cmp.Lexicographic.{pointwise, slice_cmp, nat_list_eq_equiv, nat_list_cmp_total};
ghost use Rattle.std.specs.Cmp.Lexicographic.{lists_equiv, lists_total, lists_ties, texts_ties};
ghost use Rattle.sftp_path.specs.Place.{places_po};
ghost use Rattle.sftp_path.specs.Place as spec;

use crate::errors::NoMemory;
use crate::names::Name;
use std::alloc::Global;
use std::cmp::Ordering;
use std::marker::Model;

/// The most names of a place in a tree. The limit is this profile's own.
pub const DEPTH_LIMIT: usize = 64;

/// Where an entry of a tree is: the names that lead to it from the root. The root has none.
#[derive(Debug, Drop)]
pub struct Place {
    names: Vec<Name>,
}

impl Model for Place {
    ghost use Rattle.std.specs.Prelude.{List, ℕ, IsTrue};
    ghost use Rattle.sftp_path.specs.Place.{are_names};

    ghost Value = { List (List ℕ) };

    ghost view = { λ place. place.names.items };

    ghost invariant = { λ place. IsTrue (are_names place.names.items) };
}

impl Place {
    /// The root. This allocates nothing.
    pub fn root(alloc: Global) -> Place
        ensures { result ≡ [] }
    {
        Place {
            names: Vec::new(alloc),
        }
    }

    /// The names that lead here.
    pub fn names(&self) -> &[Name]
        ensures names { result.now ≡ self.now }
        ensures named { IsTrue (spec.are_names self.now) }
    {
        self.names.as_slice()
    }

    /// The names that lead here, without a copy.
    pub fn into_names(self) -> Vec<Name>
        ensures names { result.items ≡ self }
        ensures named { IsTrue (spec.are_names self) }
    {
        self.names
    }

    /// How many names lead here.
    pub fn depth(&self) -> usize
        ensures { result ≡ length self.now }
    {
        self.names.len()
    }

    /// What allocates the names.
    pub fn allocator(&self) -> Global {
        *self.names.allocator()
    }

    /// A copy of the place.
    ///
    /// # Errors
    ///
    /// `NoMemory` if memory runs out.
    pub fn try_clone(&self, alloc: Global) -> Result<Place, NoMemory>
        ensures { IfOk result (λ place. place ≡ self.now) }
    {
        let mut place = Place::root(alloc);
        for name in self.names() {
            place.enter(name.try_clone(alloc)?)?;
        }
        Ok(place)
    }

    /// Goes down by a name.
    ///
    /// # Errors
    ///
    /// `NoMemory` if memory runs out; the place is unchanged.
    pub fn enter(&mut self, name: Name) -> Result<(), NoMemory>
        ensures ok { OnOk result (self.new ≡ self.old ++ name ∷ []) }
        ensures err { OnErr result (self.new ≡ self.old) }
    {
        // `as_slice` promises that the bytes are a name, which is what the place has to keep.
        prove!(!name.as_slice().is_empty());
        self.names.push(name)?;
        Ok(())
    }

    /// Goes down by a copy of a component that is a name.
    ///
    /// # Errors
    ///
    /// `NoMemory` if memory runs out; the place is unchanged.
    pub fn enter_component(&mut self, component: &[u8]) -> Result<(), NoMemory>
        requires { IsTrue (spec.is_name component.now) }
        ensures ok { OnOk result (self.new ≡ self.old ++ component.now ∷ []) }
        ensures err { OnErr result (self.new ≡ self.old) }
    {
        let name = Name::from_component(self.allocator(), component)?;
        self.enter(name)?;
        Ok(())
    }

    /// Goes up to the parent, which for the root is the root.
    pub fn leave(&mut self)
        ensures { self.new ≡ spec.parent self.old }
    {
        self.names.pop();
    }

    /// Whether this place is the other one, or is below it.
    #[tactic(auto, using(crate::proofs::Move::front_tests))]
    pub fn starts_with(&self, top: &Place) -> bool
        ensures { result ≡ spec.begins top.now self.now }
    {
        self.names().starts_with(top.names())
    }
}

impl PartialEq for Place {
    ghost eq = { pointwise (pointwise nat_eq) };

    ghost laws = { partial_equiv_from_equiv (lists_equiv nat_list_eq_equiv) };

    fn eq(&self, other: &Place) -> bool {
        self.names() == other.names()
    }
}

impl Eq for Place {
    ghost laws = { lists_equiv nat_list_eq_equiv };
}

impl PartialOrd for Place {
    ghost partial_cmp = { λ x y. Some (slice_cmp (slice_cmp nat_cmp) x y) };

    ghost laws = { places_po };

    fn partial_cmp(&self, other: &Place) -> Option<Ordering> {
        Some(self.cmp(other))
    }
}

impl Ord for Place {
    ghost cmp = { slice_cmp (slice_cmp nat_cmp) };

    ghost total = { lists_total nat_list_cmp_total };

    ghost matches_partial_cmp = { λ x y. refl };

    ghost matches_eq = { lists_ties (slice_cmp nat_cmp) texts_ties };

    fn cmp(&self, other: &Place) -> Ordering {
        self.names().cmp(other.names())
    }
}
