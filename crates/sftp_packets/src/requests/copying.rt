//! Exact copies of requests: a copy takes memory, so it may fail. Fields are copied one by one, as the table of
//! requests says, and then the request is put together.
//!
//! A copy of a request says that its bytes are bytes and that the numbers of an owner have 32 bits. A proof learns that
//! only of what code reads, so functions here read them.
ghost use Rattle.std.specs.Prelude.{◌≡◌, IfOk, IfSome};
ghost use Rattle.sftp_packets.specs.Layouts.{IsAsk, IsAttrs};
ghost use Rattle.sftp_packets.specs.Spelling.{AreBytes, FitsTwo};

use crate::attributes::Attrs;
use crate::requests::Ask;
use crate::with_requests;
use sftp_strings::ByteString;
use std::alloc::AllocError;

impl Clone for Attrs {
    ghost is_clone = { λ attrs copy. copy ≡ attrs };

    fn clone(&self) -> Result<Attrs, AllocError> {
        Ok(Attrs {
            size: self.size,
            owner: self.owner,
            permissions: self.permissions,
            times: self.times,
            extended: self.extended.clone()?,
        })
    }
}

/// Reads bytes.
fn read_bytes(bytes: &[u8])
    ensures { AreBytes bytes.now }
{
    let _count = bytes.len();
}

/// Reads the numbers of an owner, if there is one.
fn read_owner(owner: &Option<(u32, u32)>)
    ensures { IfSome owner.now FitsTwo }
{
    if let Some((user, group)) = owner {
        let _numbers = (*user, *group);
    }
}

/// A copy of a string.
fn copy_string(text: &ByteString) -> Result<ByteString, AllocError>
    ensures same { IfOk result (λ copy. copy ≡ text.now) }
    ensures bytes { AreBytes text.now }
{
    read_bytes(text.as_slice());
    text.clone()
}

/// A copy of attributes.
fn copy_attributes(attrs: &Attrs) -> Result<Attrs, AllocError>
    ensures same { IfOk result (λ copy. copy ≡ attrs.now) }
    ensures numbers { IsAttrs attrs.now }
{
    read_owner(&attrs.owner);
    attrs.clone()
}

/// A copy of a field of this kind.
macro_rules! copy_field {
    (Number, $value:ident) => { *$value };
    (LongNumber, $value:ident) => { *$value };
    (Flags, $value:ident) => { *$value };
    (Text, $value:ident) => { copy_string($value)? };
    (Handle, $value:ident) => { copy_string($value)? };
    (Attributes, $value:ident) => { copy_attributes($value)? };
}

/// A copy of a request, by the table.
macro_rules! copy_request {
    (
        ($ask:expr)
        [$($type:ident => $variant:ident { $($field:ident: $kind:ident),* },)*]
        [$($name:ident => $extension:ident { $($part:ident: $part_kind:ident),* },)*]
    ) => {
        match $ask {
            $(Ask::$variant { $($field),* } => {
                $(let $field = copy_field!($kind, $field);)*
                Ok(Ask::$variant { $($field),* })
            })*
            $(Ask::$extension { $($part),* } => {
                $(let $part = copy_field!($part_kind, $part);)*
                Ok(Ask::$extension { $($part),* })
            })*
            Ask::Unknown { name, rest } => {
                let name = copy_string(name)?;
                let rest = copy_string(rest)?;
                Ok(Ask::Unknown { name, rest })
            }
        }
    };
}

impl Clone for Ask {
    ghost is_clone = { λ ask copy. (copy ≡ ask) × IsAsk copy };

    // Slow to prove, with 23 requests.
    fn clone(&self) -> Result<Ask, AllocError> {
        with_requests!(copy_request!(self))
    }
}
