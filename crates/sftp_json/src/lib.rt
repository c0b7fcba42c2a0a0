//! JSON objects, one a line, written member by member (RFC 8259). Bytes are shown in one way everywhere: as a string if
//! they are UTF-8, and else as hexadecimal digits.
#![tactic(auto)]

mod lines;
mod texts;

pub use lines::JsonLines;
