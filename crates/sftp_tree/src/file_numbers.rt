//! The numbers of files.
ghost use Rattle.std.specs.Prelude.{◌≡◌, Some, nat_eq, refl};
ghost use Rattle.std.specs.Ordering.{nat_cmp};
ghost use Rattle.std.specs.Cmp.{partial_equiv_from_equiv, nat_eq_equiv, nat_cmp_total, unsigned_ties, unsigned_po};

use std::cmp::Ordering;
use std::marker::Model;

/// The number of a file in a tree. No number is given twice. The number of an entry in a tree file is of another kind.
#[derive(Clone, Copy, Debug)]
pub struct FileNo {
    number: u32,
}

impl Model for FileNo {
    ghost use Rattle.std.specs.Prelude.{ℕ};

    ghost Value = { ℕ };

    ghost view = { λ n. n.number };

    ghost inverse = { λ n. record { number = n } };
}

impl FileNo {
    /// The file of this number.
    pub fn new(number: u32) -> FileNo
        ensures { result ≡ number }
    {
        FileNo { number }
    }
}

impl PartialEq for FileNo {
    ghost eq = { nat_eq };

    ghost laws = { partial_equiv_from_equiv nat_eq_equiv };

    fn eq(&self, other: &FileNo) -> bool {
        self.number == other.number
    }
}

impl Eq for FileNo {
    ghost laws = { nat_eq_equiv };
}

impl PartialOrd for FileNo {
    ghost partial_cmp = { λ x y. Some (nat_cmp x y) };

    ghost laws = { unsigned_po };

    fn partial_cmp(&self, other: &FileNo) -> Option<Ordering> {
        Some(self.cmp(other))
    }
}

impl Ord for FileNo {
    ghost cmp = { nat_cmp };

    ghost total = { nat_cmp_total };

    ghost matches_partial_cmp = { λ x y. refl };

    ghost matches_eq = { unsigned_ties };

    fn cmp(&self, other: &FileNo) -> Ordering {
        self.number.cmp(&other.number)
    }
}
