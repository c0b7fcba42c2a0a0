//! The values of fields, and what says them of an exchange.

use crate::fields::{Field, Name, Part};

/// The value of a field.
#[derive(Clone, Copy)]
pub enum Value<'a> {
    Number(u64),
    Text(&'a [u8]),
    /// The name of a packet, and the code if it is a STATUS.
    Packet(&'a str, Option<u32>),
    /// The flags of an OPEN.
    Flags(u32),
}

/// A request with its reply. One of them may not be there.
pub trait Exchange {
    /// The value of a field of the request, if it has the field.
    fn asked(&self, field: Field) -> Option<Value<'_>>;

    /// The value of a field of the reply, if it has the field.
    fn replied(&self, field: Field) -> Option<Value<'_>>;
}

/// The value of what a name means, if the exchange has it.
pub(crate) fn value_of<'e, E: Exchange>(exchange: &'e E, name: Name) -> Option<Value<'e>> {
    let value = field_of(exchange, name)?;
    match value {
        Value::Text(text) if name.is_length => Some(Value::Number(text.len() as u64)),
        value => Some(value),
    }
}

fn field_of<'e, E: Exchange>(exchange: &'e E, name: Name) -> Option<Value<'e>> {
    match name.part {
        Part::Request => exchange.asked(name.field),
        Part::Reply => exchange.replied(name.field),
        Part::Either => match exchange.asked(name.field) {
            Some(value) => Some(value),
            None => exchange.replied(name.field),
        },
    }
}
