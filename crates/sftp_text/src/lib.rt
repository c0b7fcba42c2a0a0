//! Records of sessions and entries of tree files as lines of text, both ways: bytes to text, and text to the same
//! bytes. No packet is built as a value in between.
#![tactic(auto)]

mod attributes;
mod due;
mod errors;
mod fields;
mod flags;
mod labels;
mod laws;
mod lines;
mod lists;
mod names;
mod numbers;
mod octets;
mod openings;
mod quoted;
mod records;
mod transcripts;
mod trees;
mod words;

pub use errors::{Expected, Fault, ShowFault, TextFault};
pub use laws::{
    entries_are_read, heads_are_read, lines_are_printable, lines_are_read, packets_have_names,
    roots_are_read, sessions_are_read, transcripts_are_read, trees_are_read,
};
pub use lines::{is_blank, take_line};
pub use records::{put_record, read_record};
pub use transcripts::{put_transcript, read_transcript};
pub use trees::{
    put_entry, put_head, put_root, put_tree, read_entry, read_head, read_root, read_tree,
};
