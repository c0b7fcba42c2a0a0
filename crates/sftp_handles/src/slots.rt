//! A slot of a table of handles.

use crate::opens::Open;

/// A slot in use: what is open, and the serial of its opening.
#[derive(Drop)]
pub struct Slot {
    pub serial: u32,
    pub opened: Open,
}
