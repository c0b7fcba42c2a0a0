//! How far down the places below a directory reach.
ghost use Rattle.std.specs.Prelude.{◌≡◌};
ghost use Rattle.sftp_tree.specs.Nesting.{have_at_most};

use super::directories::{Child, Dir};

impl Dir {
    /// Whether each place below the directory has at most `room` names from there.
    pub(crate) fn reaches_at_most(&self, room: usize) -> bool
        ensures { result ≡ have_at_most room self.now }
    {
        let Some(rest) = room.checked_sub(1) else {
            return !self.has_children();
        };
        for (_, child) in &self.children {
            match child {
                Child::Dir(dir) => {
                    if !dir.reaches_at_most(rest) {
                        return false;
                    }
                }
                Child::File(_) => {}
                Child::Link(_) => {}
            }
        }
        true
    }
}
