//! Why a request that opens something is refused in a session.
ghost use Rattle.std.specs.Prelude.{◌≡◌, IfOk};
ghost use Rattle.sftp_tree.specs.Told.{in_set};
ghost use Rattle.sftp_handles.specs.State as state;
ghost use Rattle.sftp_tree.specs.Requests as tree_requests;
ghost use Rattle.sftp_handles.specs.RequestRows.{with_handle_room};

use crate::sessions::Session;
use crate::tables::HandleTable;
use sftp_packets::Ask;
use sftp_tree::{Cause, Causes, NoMemory};

impl<T: HandleTable> Session<T> {
    /// The causes of a request that opens something: those of its path, and `NoRoom` if there is none and no more
    /// handles may be opened.
    ///
    /// # Errors
    ///
    /// `NoMemory` if memory runs out.
    pub(crate) fn opening_causes(&self, ask: &Ask) -> Result<Causes, NoMemory>
        ensures { IfOk result (λ set. in_set set
            ≡ with_handle_room self.now (tree_requests.causes self.now.tree ask.now)) }
    {
        let refused = self.tree.causes(ask)?;
        Ok(self.with_handle_room(refused))
    }

    /// The causes, and `NoRoom` if there is none of them and no more handles may be opened.
    fn with_handle_room(&self, refused: Causes) -> Causes
        ensures { in_set result ≡ with_handle_room self.now (in_set refused) }
    {
        let lacks = !refused.has_any() && !self.has_handle_left();
        refused.when(Cause::NoRoom, lacks)
    }

    /// Whether one more handle may be opened.
    pub(crate) fn has_handle_left(&self) -> bool
        ensures { result ≡ state.has_handle_left self.now }
    {
        let most = self.tree.tree_limits().open_handles as usize;
        self.table.len() < most
    }
}
