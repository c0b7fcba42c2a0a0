//! Tables of handles: finite maps from names to what is open under them.
ghost use Rattle.std.specs.Prelude.{◌≡◌, ◌≤◌, [], ℕ, List, Bool, None, Some, IsTrue, IfOk, IfErr, OnOk, OnErr, OnSome};
ghost use Rattle.std.specs.Prelude.{◌<◌, false, length, option_copied};
ghost use Rattle.std.specs.Borrow.{LendsSo, sem};
ghost use Rattle.std.specs.Option.{option_copied_mut};
ghost use Rattle.sftp_packets.specs.Spelling.{AreBytes, handle_limit};
ghost use Rattle.sftp_path.specs.Place.{bytes_cmp};
ghost use Rattle.sftp_path.specs.Table.{InOrder, size};
ghost use Rattle.sftp_treefile.specs.TreeFile.{most_limits};
ghost use Rattle.sftp_handles.specs.declared.tables.PutError.TheVariants.{Taken, NoMemory as no_memory};
ghost use Rattle.sftp_handles.specs.contracts.opens.Open.{the_row};
ghost use Rattle.sftp_handles.specs.State.{Handles, open_at, with_open, without_open, is_open};

use crate::opens::Open;
use sftp_tree::NoMemory;
use std::alloc::Global;
use std::mem;
use thiserror::Error;

/// Why nothing was put into a table.
#[derive(Clone, Copy, Debug, PartialEq, Eq, Error)]
pub enum PutError {
    /// The wanted name is open already.
    #[error("the name is open")]
    Taken,
    /// Memory ran out.
    #[error("out of memory")]
    NoMemory,
}

/// A table of what is open, by the names of the handles. A name is a byte string of at most `HANDLE_LIMIT` bytes. No
/// calls but `put`, `reserve` and `free_name` take memory.
pub trait HandleTable: Sized + Drop {
    /// What is open under each name.
    ghost handles: { Self → Handles };

    /// Whether a new handle gets the name that is wanted for it.
    ghost takes_want: { Bool };

    /// The name of the next handle, if this one is wanted for it.
    ghost name_for: { Self → List ℕ → List ℕ };

    /// One more handle takes no memory.
    ghost has_room: { Self → Type 0 };

    /// A table in which nothing is open. Does not allocate.
    fn empty(alloc: Global) -> Self
        ensures { handles result ≡ [] };

    /// How many handles are open. Does not allocate.
    fn len(&self) -> usize
        ensures { result ≡ size (handles self.now) };

    /// What is open under the name. Does not allocate.
    fn find(&self, name: &[u8]) -> Option<&Open>
        ensures { option_copied result ≡ open_at (handles self.now) name.now };

    /// Lends what is open under the name, to be changed; `None` if nothing is. Does not allocate.
    fn find_mut(&mut self, name: &[u8]) -> Option<&mut Open>
        ensures* writes_back { sem 𝓛 (LendsSo Self.row the_row self.entry result
            (λ after it. OnSome result ((handles after ≡ with_open (handles self.old) name.now it)
            × (name_for after ≡ name_for self.old)))
            (λ after. (handles after ≡ handles self.old) × (name_for after ≡ name_for self.old))) }
        ensures found { option_copied_mut result ≡ open_at (handles self.old) name.now };

    /// Opens something else under a name that is open, and returns what was open before. Does not allocate.
    ///
    /// # Errors
    ///
    /// Returns its argument if the name is not open; the table is unchanged.
    fn swap(&mut self, name: &[u8], it: Open) -> Result<Open, Open>
        ensures before { IfOk result (λ before. open_at (handles self.old) name.now ≡ Some before) }
        ensures swapped { OnOk result (handles self.new ≡ with_open (handles self.old) name.now it) }
        ensures absent { OnErr result (open_at (handles self.old) name.now ≡ None) }
        ensures back { IfErr result (λ back. back ≡ it) }
        ensures err { OnErr result (handles self.new ≡ handles self.old) }
        ensures kept { name_for self.new ≡ name_for self.old }
    {
        match self.find_mut(name) {
            Some(place) => Ok(mem::replace(place, it)),
            None => Err(it),
        }
    }

    /// A name that may be wanted for the next handle: nothing is open under it. A table that gives names of its own
    /// wants none, and returns the empty name without taking memory.
    ///
    /// # Errors
    ///
    /// `NoMemory` if memory runs out.
    fn free_name(&self, alloc: Global) -> Result<Vec<u8>, NoMemory>
        requires { size (handles self.now) < most_limits.open_handles }
        ensures short { IfOk result (λ name. length name.items ≤ handle_limit) }
        ensures free { IfOk result (λ name. IsTrue takes_want → is_open (handles self.now) name.items ≡ false) };

    /// Makes room for one more handle, and returns the name that it will have. A table that gives names of its own
    /// ignores the one that is wanted.
    ///
    /// # Errors
    ///
    /// `Taken` if the wanted name is open already and the table would give it, `NoMemory` if memory runs out.
    fn reserve(&mut self, alloc: Global, want: &[u8]) -> Result<Vec<u8>, PutError>
        requires { length want.now ≤ handle_limit }
        ensures room { OnOk result (has_room self.new) }
        ensures named { IfOk result (λ name. name.items ≡ name_for self.new want.now) }
        ensures closed { IfOk result (λ name. open_at (handles self.old) name.items ≡ None) }
        ensures short { IfOk result (λ name. length name.items ≤ handle_limit) }
        ensures bytes { IfOk result (λ name. AreBytes name.items) }
        ensures wanted { IfOk result (λ name. IsTrue takes_want → name.items ≡ want.now) }
        ensures taken { IfErr result (λ e. e ≡ Taken →
            IsTrue takes_want × IsTrue (is_open (handles self.old) want.now)) }
        ensures refused { IfErr result (λ e. e ≡ no_memory → IsTrue takes_want →
            open_at (handles self.old) want.now ≡ None) }
        ensures kept { handles self.new ≡ handles self.old }
        ensures next { name_for self.new ≡ name_for self.old };

    /// Opens something under the name that `reserve` returned for the one that is wanted. Does not allocate.
    fn put_reserved(&mut self, it: Open, want: Vec<u8>)
        requires { has_room self.old }
        ensures { handles self.new ≡ with_open (handles self.old) (name_for self.old want.items) it };

    /// Opens something under a new name, and returns the name. A table that gives names of its own ignores the one that
    /// is wanted.
    ///
    /// # Errors
    ///
    /// `Taken` if the wanted name is open already and the table would give it, `NoMemory` if memory runs out; what was
    /// to be opened comes back, and the table is unchanged.
    fn put(&mut self, it: Open, want: Vec<u8>) -> Result<Vec<u8>, (Open, PutError)>
        requires { length want.items ≤ handle_limit }
        ensures closed { IfOk result (λ name. open_at (handles self.old) name.items ≡ None) }
        ensures opened { IfOk result (λ name. handles self.new ≡ with_open (handles self.old) name.items it) }
        ensures short { IfOk result (λ name. length name.items ≤ handle_limit) }
        ensures bytes { IfOk result (λ name. AreBytes name.items) }
        ensures wanted { IfOk result (λ name. IsTrue takes_want → name.items ≡ want.items) }
        ensures named { IfOk result (λ name. name.items ≡ name_for self.old want.items) }
        ensures taken { IfErr result (λ e. e.1 ≡ Taken →
            IsTrue takes_want × IsTrue (is_open (handles self.old) want.items)) }
        ensures refused { IfErr result (λ e. e.1 ≡ no_memory → IsTrue takes_want →
            open_at (handles self.old) want.items ≡ None) }
        ensures back { IfErr result (λ e. e.0 ≡ it) }
        ensures err { OnErr result (handles self.new ≡ handles self.old) }
        ensures next { OnErr result (name_for self.new ≡ name_for self.old) }
    {
        match self.reserve(*want.allocator(), want.as_slice()) {
            Ok(name) => {
                self.put_reserved(it, want);
                Ok(name)
            }
            Err(error) => Err((it, error)),
        }
    }

    /// Closes a name, and returns what was open under it. Does not allocate.
    fn take(&mut self, name: &[u8]) -> Option<Open>
        ensures before { result ≡ open_at (handles self.old) name.now }
        ensures closed { handles self.new ≡ without_open (handles self.old) name.now };

    /// Closes a name as `take` does. A table that gives names of its own gives the newest name again, as if it had not
    /// been opened. Does not allocate.
    fn give_back(&mut self, name: &[u8]) -> Option<Open>
        ensures before { result ≡ open_at (handles self.old) name.now }
        ensures closed { handles self.new ≡ without_open (handles self.old) name.now };

    /// The names are in order, each once.
    ghost ordered: { (table : Self) → InOrder bytes_cmp (handles table) };
}
