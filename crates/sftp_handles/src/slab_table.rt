//! A table of the handles that this program's server gives.
ghost use Rattle.std.specs.Prelude.{◌≡◌, ◌<◌, ◌≤◌, ◌^◌, ◌==◌, [], false, if◌then◌else◌, map, None, Some};
ghost use Rattle.std.specs.Prelude.{IfOk, IfErr, IfSome, OnSome, OnOk, OnErr, IfNone, length, option_copied};
ghost use Rattle.std.specs.Cmp.Lexicographic.{nat_list_cmp_total};
ghost use Rattle.slab.specs.Slab.{entries, HasRoomFor};
ghost use Rattle.sftp_packets.specs.Spelling.{AreBytes, handle_limit};
ghost use Rattle.sftp_path.specs.Place.{bytes_cmp};
ghost use Rattle.sftp_path.specs.Table.{size};
ghost use Rattle.sftp_path.proofs.Table.Laws.{InOrder-from_entries};
ghost use Rattle.sftp_handles.specs.declared.tables.PutError.TheVariants.{NoMemory as no_memory};
ghost use Rattle.sftp_handles.specs.State.{open_at, with_open, without_open};
ghost use Rattle.sftp_handles.specs.Slots.{slot_name, next_name, named_slot, slab_handles, serial_after, serial_before};
ghost use Rattle.sftp_handles.specs.Slots.{IsNameAt, IsNext, IsNewest, IsNumbered};

use crate::opens::Open;
use crate::slots::Slot;
use crate::tables::{HandleTable, PutError};
use byteorder::{BigEndian, ByteOrder};
use sftp_tree::NoMemory;
use slab::Slab;
use std::alloc::Global;
use std::marker::Model;

/// The open handles of a server that chooses their names itself (draft, section 6.3). A name is a slot's number
/// in 8 bytes and a serial in 4, which keeps the openings of one slot apart: it grows by one with each opening, modulo
/// 2^32. The table grows only if no slot is free; of several free slots, the one freed last is taken.
#[derive(Drop)]
pub struct SlabTable {
    opens: Slab<Slot>,
    // the serial of the next opening
    serial: u32,
}

impl Model for SlabTable {
    ghost use Rattle.sftp_handles.specs.Slots.{Slots, IsNumbered};

    ghost Value = { Slots };

    ghost view = { λ t. record { opens = t.opens; serial = t.serial } };

    ghost invariant = { λ t. IsNumbered t.opens };
}

impl HandleTable for SlabTable {
    ghost handles = { λ table. slab_handles table.opens };

    ghost takes_want = { false };

    ghost name_for = { λ table want. next_name table };

    ghost has_room = { λ table. HasRoomFor table.opens 1 };

    fn empty(alloc: Global) -> SlabTable
        ensures empty { slab_handles result.opens ≡ [] }
        ensures first { next_name result ≡ slot_name 0 0 }
    {
        SlabTable {
            opens: Slab::new(alloc),
            serial: 0,
        }
    }

    fn len(&self) -> usize {
        count_open(&self.opens)
    }

    fn find(&self, name: &[u8]) -> Option<&Open> {
        find_open(&self.opens, name)
    }

    fn find_mut(&mut self, name: &[u8]) -> Option<&mut Open> {
        let number = slot_of(&self.opens, name)?;
        let slot = &mut self.opens[number];
        Some(&mut slot.opened)
    }

    fn free_name(&self, alloc: Global) -> Result<Vec<u8>, NoMemory> {
        Ok(Vec::new(alloc))
    }

    fn reserve(&mut self, alloc: Global, want: &[u8]) -> Result<Vec<u8>, PutError>
        ensures next { next_name self.new ≡ next_name self.old }
        ensures serial { self.new.serial ≡ self.old.serial }
        ensures room { OnOk result (HasRoomFor self.new.opens 1) }
        ensures named { IfOk result (λ name. name.items ≡ next_name self.new) }
        ensures closed { IfOk result (λ name. open_at (slab_handles self.old.opens) name.items ≡ None) }
        ensures short { IfOk result (λ name. length name.items ≤ handle_limit) }
        ensures bytes { IfOk result (λ name. AreBytes name.items) }
        ensures refused { IfErr result (λ e. e ≡ no_memory) }
        ensures kept { slab_handles self.new.opens ≡ slab_handles self.old.opens }
    {
        let _ignored = want;
        reserve_open(&mut self.opens, alloc, self.serial)
    }

    fn put_reserved(&mut self, it: Open, want: Vec<u8>)
        requires { HasRoomFor self.old.opens 1 }
        ensures counted { self.new.serial ≡ serial_after self.old.serial }
        ensures opened { slab_handles self.new.opens
            ≡ with_open (slab_handles self.old.opens) (next_name self.old) it }
    {
        drop(want);
        put_open(&mut self.opens, self.serial, it);
        self.serial = self.serial.wrapping_add(1);
    }

    fn put(&mut self, it: Open, want: Vec<u8>) -> Result<Vec<u8>, (Open, PutError)>
        ensures named { IfOk result (λ name. name.items ≡ next_name self.old) }
        ensures counted { OnOk result (self.new.serial ≡ serial_after self.old.serial) }
        ensures kept { OnErr result (next_name self.new ≡ next_name self.old) }
        ensures closed { IfOk result (λ name. open_at (slab_handles self.old.opens) name.items ≡ None) }
        ensures opened { IfOk result (λ name.
            slab_handles self.new.opens ≡ with_open (slab_handles self.old.opens) name.items it) }
        ensures short { IfOk result (λ name. length name.items ≤ handle_limit) }
        ensures bytes { IfOk result (λ name. AreBytes name.items) }
        ensures refused { IfErr result (λ e. e.1 ≡ no_memory) }
        ensures back { IfErr result (λ e. e.0 ≡ it) }
        ensures err { OnErr result (slab_handles self.new.opens ≡ slab_handles self.old.opens) }
    {
        match self.reserve(*want.allocator(), want.as_slice()) {
            Ok(name) => {
                self.put_reserved(it, want);
                Ok(name)
            }
            Err(error) => Err((it, error)),
        }
    }

    fn take(&mut self, name: &[u8]) -> Option<Open>
        ensures next { OnSome result (IsNext self.new name.now) }
        ensures serial { self.new.serial ≡ self.old.serial }
        ensures kept { IfNone result (next_name self.new ≡ next_name self.old) }
        ensures before { result ≡ open_at (slab_handles self.old.opens) name.now }
        ensures closed { slab_handles self.new.opens ≡ without_open (slab_handles self.old.opens) name.now }
    {
        let slot = take_slot(&mut self.opens, name)?;
        Some(slot.opened)
    }

    fn give_back(&mut self, name: &[u8]) -> Option<Open>
        ensures next { OnSome result (IsNext self.new name.now) }
        ensures newest { OnSome result (IsNewest self.old.serial name.now → next_name self.new ≡ name.now) }
        ensures older { OnSome result ((IsNewest self.old.serial name.now → ⊥) → self.new.serial ≡ self.old.serial) }
        ensures absent { IfNone result (self.new.serial ≡ self.old.serial) }
        ensures kept { IfNone result (next_name self.new ≡ next_name self.old) }
        ensures before { result ≡ open_at (slab_handles self.old.opens) name.now }
        ensures closed { slab_handles self.new.opens ≡ without_open (slab_handles self.old.opens) name.now }
    {
        let slot = take_slot(&mut self.opens, name)?;
        self.serial = serial_given_back(self.serial, slot.serial);
        Some(slot.opened)
    }

    ghost ordered = { λ table. InOrder-from_entries bytes_cmp nat_list_cmp_total
        (map named_slot (entries table.opens)) };
}

/// The serial of the next opening after one was given back: that of the opening if it was the newest, and else as it
/// was.
fn serial_given_back(next: u32, given_back: u32) -> u32
    ensures serial { result ≡ (if given_back == serial_before next then given_back else next) }
    ensures fits { given_back < 2 ^ 32 }
{
    if given_back == next.wrapping_sub(1) {
        given_back
    } else {
        next
    }
}

/// The name of a slot's opening: the number of the slot as 8 bytes, then the serial as 4 bytes.
#[tactic(auto, unfolding(crate::specs::Slots::slot_name))]
fn name_of(number: usize, serial: u32) -> [u8; 12]
    ensures { result ≡ slot_name number serial }
{
    let mut name = [0; 12];
    BigEndian::write_u64(&mut name, number as u64);
    BigEndian::write_u32(&mut name[8..], serial);
    name
}

/// The number of the slot that has a name.
fn slot_of(opens: &Slab<Slot>, name: &[u8]) -> Option<usize>
    requires { IsNumbered opens.now }
    ensures found { IfSome result (λ number. IsNameAt opens.now name.now number) }
    ensures absent { IfNone result (open_at (slab_handles opens.now) name.now ≡ None) }
{
    if name.len() != 12 {
        return None;
    }
    let number = BigEndian::read_u64(name) as usize;
    let slot = opens.get(number)?;
    if BigEndian::read_u32(&name[8..]) == slot.serial {
        Some(number)
    } else {
        None
    }
}

/// How many slots are in use.
fn count_open(opens: &Slab<Slot>) -> usize
    requires { IsNumbered opens.now }
    ensures { result ≡ size (slab_handles opens.now) }
{
    opens.len()
}

/// What is open under a name.
fn find_open<'a>(opens: &'a Slab<Slot>, name: &[u8]) -> Option<&'a Open>
    requires { IsNumbered opens.now }
    ensures { option_copied result ≡ open_at (slab_handles opens.now) name.now }
{
    let number = slot_of(opens, name)?;
    Some(&opens[number].opened)
}

/// Makes room for one more slot in use, and returns the name of the next opening.
///
/// # Errors
///
/// `NoMemory` if memory runs out.
fn reserve_open(opens: &mut Slab<Slot>, alloc: Global, serial: u32) -> Result<Vec<u8>, PutError>
    requires { IsNumbered opens.old }
    ensures room { OnOk result (HasRoomFor opens.new 1) }
    ensures named { IfOk result (λ name. name.items ≡ slot_name opens.new.vacant_key serial) }
    ensures closed { IfOk result (λ name. open_at (slab_handles opens.old) name.items ≡ None) }
    ensures short { IfOk result (λ name. length name.items ≤ handle_limit) }
    ensures bytes { IfOk result (λ name. AreBytes name.items) }
    ensures refused { IfErr result (λ e. e ≡ no_memory) }
    ensures kept { opens.new ≡ record opens.old { capacity = opens.new.capacity } }
{
    if opens.reserve(1).is_err() {
        return Err(PutError::NoMemory);
    }
    let spelled = name_of(opens.vacant_key(), serial);
    match Vec::from_slice(alloc, spelled.as_slice()) {
        Ok(name) => Ok(name),
        Err(_) => Err(PutError::NoMemory),
    }
}

/// Opens something in the next slot.
fn put_open(opens: &mut Slab<Slot>, serial: u32, it: Open)
    requires numbered { IsNumbered opens.old }
    requires room { HasRoomFor opens.old 1 }
    ensures opened { slab_handles opens.new
        ≡ with_open (slab_handles opens.old) (slot_name opens.old.vacant_key serial) it }
    ensures numbered { IsNumbered opens.new }
{
    opens.insert_reserved(Slot { serial, opened: it });
}

/// Frees the slot of a name, and returns what was in it.
fn take_slot(opens: &mut Slab<Slot>, name: &[u8]) -> Option<Slot>
    requires { IsNumbered opens.old }
    ensures closed { slab_handles opens.new ≡ without_open (slab_handles opens.old) name.now }
    ensures before { IfSome result (λ slot. open_at (slab_handles opens.old) name.now ≡ Some slot.opened) }
    ensures absent { IfNone result (open_at (slab_handles opens.old) name.now ≡ None) }
    ensures kept { IfNone result (opens.new.vacant_key ≡ opens.old.vacant_key) }
    ensures freed { IfSome result (λ slot. name.now ≡ slot_name opens.new.vacant_key slot.serial) }
    ensures numbered { IsNumbered opens.new }
{
    let freed = slot_of(opens, name)?;
    Some(opens.remove(freed))
}
