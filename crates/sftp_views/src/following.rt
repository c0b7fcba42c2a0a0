//! A file that is followed through its handles.

use crate::records::Recorded;
use sftp_wire::{Answer, Ask, asked_handle, status};
use std::alloc::{AllocError, Global};
use std::collections::BTreeSet;

/// The handles of a file that are open: those that OPENs and OPENDIRs of its path got.
#[derive(Drop)]
pub(crate) struct Followed {
    handles: BTreeSet<Vec<u8>>,
}

impl Followed {
    /// No handle is open.
    pub(crate) fn new(alloc: Global) -> Followed {
        Followed {
            handles: BTreeSet::new(alloc),
        }
    }

    /// Whether a request that is asked now opens the file, or goes to it through a handle.
    pub(crate) fn takes(&self, path: &[u8], record: &Recorded) -> bool {
        match record.request() {
            Some(request) => opens(&request.ask, path) || self.has(asked_handle(&request.ask)),
            None => false,
        }
    }

    fn has(&self, handle: Option<&[u8]>) -> bool {
        match handle {
            Some(handle) => self.handles.contains(handle),
            None => false,
        }
    }

    /// A reply came: the handle that it gives is the file's or another one's, and the one that it closes is nobody's.
    pub(crate) fn note(
        &mut self,
        alloc: Global,
        path: &[u8],
        asked: &Recorded,
        reply: &Recorded,
    ) -> Result<(), AllocError> {
        let (Some(request), Some(reply)) = (asked.request(), reply.reply()) else {
            return Ok(());
        };
        match (&request.ask, &reply.answer) {
            (Ask::Close { handle }, Answer::Status { code, .. }) if *code == status::OK => {
                self.handles.remove(handle.as_slice());
                Ok(())
            }
            (ask, Answer::Handle(handle)) => {
                self.give(alloc, handle.as_slice(), opens(ask, path))
            }
            _ => Ok(()),
        }
    }

    /// A handle is the file's from now on, or another one's.
    fn give(&mut self, alloc: Global, handle: &[u8], is_ours: bool) -> Result<(), AllocError> {
        if is_ours {
            self.handles.insert(Vec::from_slice(alloc, handle)?)?;
        } else {
            self.handles.remove(handle);
        }
        Ok(())
    }
}

/// Whether a request opens the file of this path.
fn opens(ask: &Ask, path: &[u8]) -> bool {
    match ask {
        Ask::Open { path: opened, .. } => opened.as_slice() == path,
        Ask::Opendir { path: opened } => opened.as_slice() == path,
        _ => false,
    }
}
