//! Which request inside is whose.
ghost use Rattle.std.specs.Prelude.{◌≡◌, ℕ, Some, None, IfOk, IfSome, IfNone, OnOk, OnErr, option_copied};
ghost use Rattle.std.specs.Option.{option_map};
ghost use Rattle.sftp_joint.specs.Translated.{with_id, without_id};
ghost use Rattle.sftp_joint.specs.Joint.{joint_id};
ghost use Rattle.sftp_hub.specs.Ids.{table_of, pair_of, joint_of};

use indexmap::IndexMap;
use slab::Slab;
use std::alloc::{AllocError, Global};
use std::marker::Model;

/// A client, and the id that it gave a request.
#[derive(Clone, Copy, Debug, PartialEq, Eq, Drop)]
pub struct Whose {
    pub client: u32,
    pub id: u32,
}

impl Whose {
    /// Both as one number.
    fn joint(self) -> u64
        ensures { result ≡ joint_of self }
    {
        (self.client as u64) * (1 << 32) + self.id as u64
    }
}

/// The ids of unanswered requests inside: each stands for a client and an id of that client, and no other stands for
/// the same. An id may be given again once its request was answered.
#[derive(Drop)]
pub struct Ids {
    slots: Slab<Whose>,
    /// What stands, as one number.
    used: IndexMap<u64, ()>,
}

impl Model for Ids {
    ghost use Rattle.slab.specs.Slab.{Slab};
    ghost use Rattle.sftp_hub.specs.declared.ids.Whose.{Whose};
    ghost use Rattle.sftp_hub.specs.Ids.{AreIds};

    ghost Value = { Slab Whose };

    ghost view = { λ ids. ids.slots };

    ghost invariant = { λ ids. AreIds ids.slots ids.used.entries };
}

impl Ids {
    /// No id stands for anything.
    pub fn new(alloc: Global) -> Ids
        ensures { (id : ℕ) → table_of result id ≡ None }
    {
        Ids {
            slots: Slab::new(alloc),
            used: IndexMap::new(alloc),
        }
    }

    /// Gives an id to a client's request; `None` if one stands for it.
    ///
    /// # Errors
    ///
    /// `AllocError` if memory runs out; nothing changes.
    pub fn give(&mut self, whose: Whose) -> Result<Option<u32>, AllocError>
        // It is given where it stands for nothing, and no other stands for the same.
        ensures free { IfOk result (λ given. IfSome given (λ id. table_of self.old id ≡ None)) }
        ensures new { IfOk result (λ given. IfSome given (λ id.
            (other : ℕ) → table_of self.old other ≡ Some (pair_of whose) → ⊥)) }
        ensures given { IfOk result (λ given. IfSome given (λ id.
            (other : ℕ) → table_of self.new other ≡ with_id id (pair_of whose) (table_of self.old) other)) }
        ensures in_use { IfOk result (λ given. IfNone given
            ((id : ℕ) × (table_of self.old id ≡ Some (pair_of whose)))) }
        ensures unchanged { IfOk result (λ given. IfNone given (self.new ≡ self.old)) }
        ensures err { OnErr result ((id : ℕ) → table_of self.new id ≡ table_of self.old id) }
    {
        let joint = whose.joint();
        if self.used.contains_key(&joint) {
            return Ok(None);
        }
        self.slots.reserve(1)?;
        let Ok(id) = u32::try_from(self.slots.vacant_key()) else {
            return Err(AllocError);
        };
        match self.used.insert(joint, ()) {
            Ok(_) => {
                self.slots.insert_reserved(whose);
                Ok(Some(id))
            }
            Err(_) => Err(AllocError),
        }
    }

    /// For whose request an id stands.
    pub fn whose(&self, id: u32) -> Option<Whose>
        ensures { option_map pair_of result ≡ table_of self.now id }
    {
        self.slots.get(id as usize).copied()
    }

    /// Takes an id back, and returns for whose request it stood. It stands for nothing then.
    pub fn take_back(&mut self, id: u32) -> Option<Whose>
        ensures stood { option_map pair_of result ≡ table_of self.old id }
        ensures freed { (other : ℕ) → table_of self.new other ≡ without_id id (table_of self.old) other }
    {
        let whose = self.slots.try_remove(id as usize)?;
        self.used.swap_remove(&whose.joint());
        Some(whose)
    }
}
