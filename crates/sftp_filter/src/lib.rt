//! Expressions that select exchanges of a session, such as `READ && offset > 1e6 && reply == EOF`: read from text, and
//! tried on an exchange, a request with its reply. The exchange is whatever says what its fields are.
#![tactic(auto)]

mod errors;
mod expressions;
mod fields;
mod groups;
mod kinds;
mod parsing;
mod scanning;
mod tokens;
mod values;
mod wanted;
mod words;

pub use errors::{Fault, Mistake};
pub use expressions::Expression;
pub use fields::Field;
pub use parsing::{DEEPEST, parse};
pub use values::{Exchange, Value};
