//! Laws of tables, the finite maps of which the definitions of trees and sessions are made. The functions do nothing:
//! each publishes its laws in its contract.
ghost use Rattle.std.specs.Prelude.{◌≡◌, ◌≢◌, ◌+◌, ◌<◌, ◌&&◌, ℕ, Bool, List, []};
ghost use Rattle.std.specs.Prelude.{Some, None, if◌then◌else◌, IsTrue, option_map};
ghost use Rattle.std.specs.List.{list_all};
ghost use Rattle.std.specs.Ordering.{nat_cmp};
ghost use Rattle.std.specs.declared.cmp.Ordering.TheVariants.{Equal};
ghost use Rattle.sftp_path.specs.Place.{Place, bytes_cmp, place_cmp};
ghost use Rattle.sftp_path.specs.Table.{Table, InOrder, get, put, without, retain};
ghost use Rattle.sftp_path.specs.Table.{from_entries, size, count, kept, with_values};

/// What a key has after each operation, for keys of any order and any values.
#[tactic(auto, using(crate::proofs::Table::Laws::key_laws))]
pub fn answers<K: Ord, X>()
    ensures empty { (key : K) → get {X = X} K.cmp [] key ≡ None }
    ensures put_here { (table : Table K X) (key : K) (value : X) →
        get K.cmp (put K.cmp table key value) key ≡ Some value }
    ensures put_elsewhere { (table : Table K X) (key other : K) (value : X) → K.cmp other key ≢ Equal →
        get K.cmp (put K.cmp table key value) other ≡ get K.cmp table other }
    ensures without_here { (table : Table K X) (key : K) → InOrder K.cmp table →
        get K.cmp (without K.cmp table key) key ≡ None }
    ensures without_elsewhere { (table : Table K X) (key other : K) → InOrder K.cmp table → K.cmp key other ≢ Equal →
        get K.cmp (without K.cmp table key) other ≡ get K.cmp table other }
    ensures from_entries { (entries : List (K × X)) (key : K) →
        get K.cmp (from_entries K.cmp entries) key ≡ get K.cmp entries key }
{}

/// Each operation leaves the keys in order; entries in any order are sorted.
#[tactic(auto, using(crate::proofs::Table::Laws::order_laws))]
pub fn order_stays<K: Ord, X>()
    ensures empty { InOrder {X = X} K.cmp [] }
    ensures put { (table : Table K X) (key : K) (value : X) → InOrder K.cmp table →
        InOrder K.cmp (put K.cmp table key value) }
    ensures without { (table : Table K X) (key : K) → InOrder K.cmp table → InOrder K.cmp (without K.cmp table key) }
    ensures retain { (table : Table K X) (keeps : K × X → Bool) → InOrder K.cmp table →
        InOrder K.cmp (retain table keeps) }
    ensures from_entries { (entries : List (K × X)) → InOrder K.cmp (from_entries K.cmp entries) }
{}

/// A new key adds one entry, a new value of a key adds none, and removing a key removes one.
#[tactic(auto, using(crate::proofs::Table::Laws::size_laws))]
pub fn sizes<K: Ord, X>()
    ensures put_new { (table : Table K X) (key : K) (value : X) → get K.cmp table key ≡ None →
        size (put K.cmp table key value) ≡ size table + 1 }
    ensures put_again { (table : Table K X) (key : K) (value old : X) → InOrder K.cmp table →
        get K.cmp table key ≡ Some old →
        size (put K.cmp table key value) ≡ size table }
    ensures without { (table : Table K X) (key : K) (value : X) → get K.cmp table key ≡ Some value →
        size (without K.cmp table key) + 1 ≡ size table }
{}

/// How many values pass a test: a new key adds its value to the count, a new value of a key takes the place of the old
/// one, a removed key takes its value from the count, and the count is not 0 if some value passes.
#[tactic(auto, using(crate::proofs::Table::Entries::count_laws))]
pub fn counts<K: Ord, X>()
    ensures put_new { (table : Table K X) (key : K) (value : X) (passes : X → Bool) → get K.cmp table key ≡ None →
        count (put K.cmp table key value) passes ≡ count table passes + (if passes value then 1 else 0) }
    ensures put_again { (table : Table K X) (key : K) (value old : X) (passes : X → Bool) →
        InOrder K.cmp table → get K.cmp table key ≡ Some old →
        count (put K.cmp table key value) passes + (if passes old then 1 else 0)
        ≡ count table passes + (if passes value then 1 else 0) }
    ensures without { (table : Table K X) (key : K) (value : X) (passes : X → Bool) → get K.cmp table key ≡ Some value →
        count (without K.cmp table key) passes + (if passes value then 1 else 0) ≡ count table passes }
    ensures found { (table : Table K X) (key : K) (value : X) (passes : X → Bool) → get K.cmp table key ≡ Some value →
        IsTrue (passes value) → 0 < count table passes }
{}

/// Removing a key that does not exist changes nothing.
#[tactic(auto, using(crate::proofs::Table::Entries::absent_laws))]
pub fn absent_keys<K: Ord, X>()
    ensures without { (table : Table K X) (key : K) → get K.cmp table key ≡ None → without K.cmp table key ≡ table }
{}

/// Where each value is replaced by one made of it, each operation does the same as before, on the new values.
#[tactic(auto, using(crate::proofs::Table::Entries::value_laws))]
pub fn other_values<K: Ord, X, Y>()
    ensures get { (f : X → Y) (table : Table K X) (key : K) →
        get K.cmp (with_values f table) key ≡ option_map f (get K.cmp table key) }
    ensures put { (f : X → Y) (table : Table K X) (key : K) (value : X) →
        with_values f (put K.cmp table key value) ≡ put K.cmp (with_values f table) key (f value) }
    ensures without { (f : X → Y) (table : Table K X) (key : K) →
        with_values f (without K.cmp table key) ≡ without K.cmp (with_values f table) key }
    ensures order { (f : X → Y) (table : Table K X) → InOrder K.cmp table → InOrder K.cmp (with_values f table) }
    ensures size { (f : X → Y) (table : Table K X) → size (with_values f table) ≡ size table }
{}

/// A test that all entries pass: a new key asks it of its entry too; removing a key keeps it passed, as does a new
/// value of a key if the test is on values alone and the value passes it; if the test is on keys alone, a new value
/// changes nothing.
#[tactic(auto, using(crate::proofs::Table::Entries::test_laws))]
pub fn passing_tests<K: Ord, X>()
    ensures put_new { (table : Table K X) (key : K) (value : X) (keeps : K × X → Bool) → get K.cmp table key ≡ None →
        list_all keeps (put K.cmp table key value) ≡ (keeps (key, value) && list_all keeps table) }
    ensures without { (table : Table K X) (key : K) (keeps : K × X → Bool) →
        IsTrue (list_all keeps table) → IsTrue (list_all keeps (without K.cmp table key)) }
    ensures put_again { (table : Table K X) (key : K) (value : X) (passes : X → Bool) →
        IsTrue (list_all (λ entry. passes entry.1) table) → IsTrue (passes value) →
        IsTrue (list_all (λ entry. passes entry.1) (put K.cmp table key value)) }
    ensures put_again_keys { (table : Table K X) (key : K) (value old : X) (test : K → Bool) →
        InOrder K.cmp table → get K.cmp table key ≡ Some old →
        list_all (λ entry. test entry.0) (put K.cmp table key value) ≡ list_all (λ entry. test entry.0) table }
{}

/// A new value of a key changes no test on keys alone, also in a table that is not in order.
pub fn passing_keys<X>()
    ensures places { (table : Table Place X) (place : Place) (value old : X) (test : Place → Bool) →
        get place_cmp table place ≡ Some old →
        list_all (λ entry. test entry.0) (put place_cmp table place value) ≡ list_all (λ entry. test entry.0) table }
    ensures byte_strings { (table : Table (List ℕ) X) (name : List ℕ) (value old : X) (test : List ℕ → Bool) →
        get bytes_cmp table name ≡ Some old →
        list_all (λ entry. test entry.0) (put bytes_cmp table name value) ≡ list_all (λ entry. test entry.0) table }
    ensures numbers { (table : Table ℕ X) (number : ℕ) (value old : X) (test : ℕ → Bool) →
        get nat_cmp table number ≡ Some old →
        list_all (λ entry. test entry.0) (put nat_cmp table number value) ≡ list_all (λ entry. test entry.0) table }
{}

/// A key keeps its value if that passes the test.
pub fn answers_after_retain<X>()
    ensures places { (table : Table Place X) (keeps : Place × X → Bool) (place : Place) → InOrder place_cmp table →
        get place_cmp (retain table keeps) place ≡ kept keeps place (get place_cmp table place) }
    ensures byte_strings { (table : Table (List ℕ) X) (keeps : List ℕ × X → Bool) (name : List ℕ) →
        InOrder bytes_cmp table →
        get bytes_cmp (retain table keeps) name ≡ kept keeps name (get bytes_cmp table name) }
    ensures numbers { (table : Table ℕ X) (keeps : ℕ × X → Bool) (number : ℕ) → InOrder nat_cmp table →
        get nat_cmp (retain table keeps) number ≡ kept keeps number (get nat_cmp table number) }
{}

/// Two tables in order that answer alike at every key are equal.
pub fn same_table<X>()
    ensures places { (a b : Table Place X) → InOrder place_cmp a → InOrder place_cmp b →
        ((place : Place) → get place_cmp a place ≡ get place_cmp b place) → a ≡ b }
    ensures byte_strings { (a b : Table (List ℕ) X) → InOrder bytes_cmp a → InOrder bytes_cmp b →
        ((name : List ℕ) → get bytes_cmp a name ≡ get bytes_cmp b name) → a ≡ b }
    ensures numbers { (a b : Table ℕ X) → InOrder nat_cmp a → InOrder nat_cmp b →
        ((number : ℕ) → get nat_cmp a number ≡ get nat_cmp b number) → a ≡ b }
{}

/// The table of a table's entries is that table.
pub fn made_of_its_entries<X>()
    ensures places { (table : Table Place X) → InOrder place_cmp table → from_entries place_cmp table ≡ table }
    ensures byte_strings { (table : Table (List ℕ) X) → InOrder bytes_cmp table → from_entries bytes_cmp table ≡ table }
    ensures numbers { (table : Table ℕ X) → InOrder nat_cmp table → from_entries nat_cmp table ≡ table }
{}
