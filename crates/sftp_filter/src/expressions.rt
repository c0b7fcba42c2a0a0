//! Expressions, and whether an exchange meets one.

use crate::fields::Name;
use crate::kinds::PacketKind;
use crate::tokens::Operator;
use crate::values::{Exchange, Value, value_of};
use bstr::ByteSlice;

/// A condition on exchanges.
#[derive(Drop)]
pub enum Expression {
    /// A condition on one field.
    Test(Test),
    /// This is not met.
    Not(Box<Expression>),
    /// All of these are met.
    All(Vec<Expression>),
    /// One of these is met, or more.
    Any(Vec<Expression>),
}

/// A condition on one field.
#[derive(Drop)]
pub enum Test {
    /// The exchange has the field.
    Has(FieldName),
    /// The exchange has the field, and its value compares so.
    Compares(FieldName, Comparison),
}

/// What an expression calls a field.
#[derive(Clone, Copy)]
pub struct FieldName(pub(crate) Name);

/// How a value is compared, and with what.
#[derive(Drop)]
pub struct Comparison {
    pub(crate) operator: Operator,
    pub(crate) wanted: Wanted,
}

/// What a value is compared with.
#[derive(Drop)]
pub(crate) enum Wanted {
    Number(u64),
    Text(Vec<u8>),
    Packet(PacketKind),
    /// The code of a STATUS.
    Code(u32),
    /// A flag of OPEN.
    Flag(u32),
}

impl Expression {
    /// Whether an exchange meets the condition. That takes as many steps as the expression has parts, and for `~` as
    /// many as the text has bytes.
    pub fn holds<E: Exchange>(&self, exchange: &E) -> bool {
        match self {
            Expression::Test(test) => test.holds(exchange),
            Expression::Not(inner) => !inner.holds(exchange),
            Expression::All(parts) => {
                for part in parts {
                    if !part.holds(exchange) {
                        return false;
                    }
                }
                true
            }
            Expression::Any(parts) => {
                for part in parts {
                    if part.holds(exchange) {
                        return true;
                    }
                }
                false
            }
        }
    }
}

impl Test {
    /// Whether an exchange meets the condition. One that has not the field does not.
    fn holds<E: Exchange>(&self, exchange: &E) -> bool {
        match self {
            Test::Has(name) => value_of(exchange, name.0).is_some(),
            Test::Compares(name, comparison) => match value_of(exchange, name.0) {
                Some(value) => comparison.holds(value),
                None => false,
            },
        }
    }
}

impl Comparison {
    fn holds(&self, value: Value<'_>) -> bool {
        match (value, &self.wanted) {
            (Value::Number(number), Wanted::Number(wanted)) => self
                .operator
                .orders(number, *wanted),
            (Value::Text(text), Wanted::Text(wanted)) => self.suits_text(text, wanted.as_slice()),
            (Value::Packet(name, _), Wanted::Packet(wanted)) => {
                self.operator.suits(name == wanted.name())
            }
            (Value::Packet(_, code), Wanted::Code(wanted)) => {
                self.operator
                    .suits(code.is_some_and(|code| code == *wanted))
            }
            (Value::Flags(flags), Wanted::Flag(flag)) => flags & *flag != 0,
            _ => false,
        }
    }

    fn suits_text(&self, text: &[u8], wanted: &[u8]) -> bool {
        match self.operator {
            Operator::Contains => text.contains_str(wanted),
            operator => operator.suits(text == wanted),
        }
    }
}
