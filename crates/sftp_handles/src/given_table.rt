//! A table of the handles whose names another server gave.
ghost use Rattle.std.specs.Prelude.{◌≡◌, ◌<◌, true, None, IsTrue, IfOk, IfErr, OnOk, option_copied};
ghost use Rattle.std.specs.Cmp.Lexicographic.{nat_list_cmp_total};
ghost use Rattle.indexmap.specs.IndexMap.{spare};
ghost use Rattle.sftp_packets.specs.Spelling.{AreBytes};
ghost use Rattle.sftp_path.specs.Place.{bytes_cmp};
ghost use Rattle.sftp_path.specs.Table.{from_entries, size};
ghost use Rattle.sftp_path.proofs.Table.Laws.{InOrder-from_entries};
ghost use Rattle.sftp_handles.specs.declared.tables.PutError.TheVariants.{Taken, NoMemory as no_memory};
ghost use Rattle.sftp_handles.specs.State.{open_at, with_open, without_open, is_open};
ghost use Rattle.sftp_handles.specs.Slots.{handles_in};

use crate::free_names::free_name_in;
use crate::opens::Open;
use crate::tables::{HandleTable, PutError};
use indexmap::IndexMap;
use sftp_tree::NoMemory;
use std::alloc::Global;
use std::marker::Model;

/// The handles that are open in a session with another server, which gives them their names.
#[derive(Drop)]
pub struct GivenTable {
    opens: IndexMap<Vec<u8>, Open>,
}

impl Model for GivenTable {
    ghost use Rattle.indexmap.specs.IndexMap.{spare};
    ghost use Rattle.sftp_packets.specs.Spelling.{AreBytes};
    ghost use Rattle.sftp_handles.specs.Slots.{Given, named};

    ghost Value = { Given };

    ghost view = { λ t. record {
      entries = named (λ name. name.items) t.opens.entries;
      room = spare t.opens;
    } };
}

impl HandleTable for GivenTable {
    ghost handles = { λ table. from_entries bytes_cmp table.entries };

    ghost takes_want = { true };

    ghost name_for = { λ table want. want };

    ghost has_room = { λ table. 0 < table.room };

    fn empty(alloc: Global) -> GivenTable {
        GivenTable {
            opens: IndexMap::new(alloc),
        }
    }

    fn len(&self) -> usize {
        count_open(&self.opens)
    }

    fn find(&self, name: &[u8]) -> Option<&Open> {
        find_open(&self.opens, name)
    }

    fn find_mut(&mut self, name: &[u8]) -> Option<&mut Open> {
        self.opens.get_mut(name)
    }

    fn free_name(&self, alloc: Global) -> Result<Vec<u8>, NoMemory> {
        free_name_in(&self.opens, alloc)
    }

    fn reserve(&mut self, alloc: Global, want: &[u8]) -> Result<Vec<u8>, PutError> {
        reserve_name(&mut self.opens, alloc, want)
    }

    fn put_reserved(&mut self, it: Open, want: Vec<u8>) {
        put_open(&mut self.opens, it, want)
    }

    fn take(&mut self, name: &[u8]) -> Option<Open> {
        take_open(&mut self.opens, name)
    }

    fn give_back(&mut self, name: &[u8]) -> Option<Open> {
        take_open(&mut self.opens, name)
    }

    ghost ordered = { λ table. InOrder-from_entries bytes_cmp nat_list_cmp_total table.entries };
}

/// Makes room for one more name, and returns a copy of the one that is wanted.
///
/// # Errors
///
/// `Taken` if the name is open, `NoMemory` if memory runs out.
fn reserve_name(
    opens: &mut IndexMap<Vec<u8>, Open>,
    alloc: Global,
    want: &[u8],
) -> Result<Vec<u8>, PutError>
    ensures room { OnOk result (0 < spare opens.new) }
    ensures closed { IfOk result (λ name. open_at (handles_in (λ k. k.items) opens.old.entries) name.items ≡ None) }
    ensures wanted { IfOk result (λ name. name.items ≡ want.now) }
    ensures bytes { IfOk result (λ name. AreBytes name.items) }
    ensures taken { IfErr result (λ e. e ≡ Taken →
        IsTrue (is_open (handles_in (λ k. k.items) opens.old.entries) want.now)) }
    ensures refused { IfErr result (λ e. e ≡ no_memory →
        open_at (handles_in (λ k. k.items) opens.old.entries) want.now ≡ None) }
    ensures kept { opens.new.entries ≡ opens.old.entries }
{
    if opens.contains_key(want) {
        return Err(PutError::Taken);
    }
    if opens.reserve(1).is_err() {
        return Err(PutError::NoMemory);
    }
    match Vec::from_slice(alloc, want) {
        Ok(name) => Ok(name),
        Err(_) => Err(PutError::NoMemory),
    }
}

/// Opens something under a name, where there is room for one more.
fn put_open(opens: &mut IndexMap<Vec<u8>, Open>, it: Open, name: Vec<u8>)
    requires { 0 < spare opens.old }
    ensures { handles_in (λ k. k.items) opens.new.entries
        ≡ with_open (handles_in (λ k. k.items) opens.old.entries) name.items it }
{
    match opens.insert(name, it) {
        Ok(before) => drop(before),
        Err(_) => unreachable!(),
    }
}

/// Closes a name, and returns what was open under it.
fn take_open(opens: &mut IndexMap<Vec<u8>, Open>, name: &[u8]) -> Option<Open>
    ensures before { result ≡ open_at (handles_in (λ k. k.items) opens.old.entries) name.now }
    ensures closed { handles_in (λ k. k.items) opens.new.entries
        ≡ without_open (handles_in (λ k. k.items) opens.old.entries) name.now }
{
    opens.shift_remove(name)
}

/// How many names are open.
fn count_open(opens: &IndexMap<Vec<u8>, Open>) -> usize
    ensures { result ≡ size (handles_in (λ k. k.items) opens.now.entries) }
{
    opens.len()
}

/// What is open under a name.
pub(crate) fn find_open<'a>(opens: &'a IndexMap<Vec<u8>, Open>, name: &[u8]) -> Option<&'a Open>
    ensures { option_copied result ≡ open_at (handles_in (λ k. k.items) opens.now.entries) name.now }
{
    opens.get(name)
}
