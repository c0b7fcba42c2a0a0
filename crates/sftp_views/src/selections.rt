//! Which records are shown.

use crate::records::Recorded;
use sftp_tree::{new_path_of, path_of};
use sftp_wire::{Answer, Ask, Reply, Request, asked_handle};

/// Which records are shown: those that meet each condition that there is.
#[derive(Clone, Copy)]
pub struct Selection<'a> {
    /// The id of requests and replies.
    pub id: Option<u32>,
    /// A path of requests; a reply has those of its request.
    pub path: Option<&'a [u8]>,
    /// The handle that a request names, or that its reply gives.
    pub handle: Option<&'a [u8]>,
    /// The number of the first record.
    pub first: u64,
    /// The number of the last record.
    pub last: u64,
}

impl Selection<'_> {
    /// Whether a record with this number may be shown.
    pub(crate) fn has_number(self, number: u64) -> bool {
        self.first <= number && number <= self.last
    }

    /// Whether INIT and VERSION meet the conditions on packets, of which they have nothing.
    pub(crate) fn takes_first(self) -> bool {
        self.id.is_none() && self.path.is_none() && self.handle.is_none()
    }

    /// Whether a request meets the conditions on packets.
    pub(crate) fn takes_request(self, record: &Recorded) -> bool {
        match record.request() {
            Some(request) => self.takes_asked(request)
                && self.takes_handle(asked_handle(&request.ask)),
            None => false,
        }
    }

    /// Whether a reply meets the conditions on packets: its request does, or would if it named the handle that the
    /// reply gives.
    pub(crate) fn takes_reply(self, record: &Recorded, asked: Option<&Recorded>) -> bool {
        match record.reply() {
            Some(reply) => self.takes_answer(reply, asked),
            None => false,
        }
    }

    fn takes_answer(self, reply: &Reply, asked: Option<&Recorded>) -> bool {
        match asked {
            Some(asked) => self.takes_request(asked) || self.takes_gift(reply, asked),
            None => self.takes_alone(reply),
        }
    }

    /// Whether a reply to this request gives the handle.
    fn takes_gift(self, reply: &Reply, asked: &Recorded) -> bool {
        match asked.request() {
            Some(request) => self.takes_asked(request) && self.takes_handle(given_handle(reply)),
            None => false,
        }
    }

    /// Whether a reply without a request meets the conditions.
    fn takes_alone(self, reply: &Reply) -> bool {
        self.takes_id(reply.id) && self.path.is_none() && self.takes_handle(given_handle(reply))
    }

    /// Whether a request meets the conditions but that on handles.
    fn takes_asked(self, request: &Request) -> bool {
        self.takes_id(request.id) && self.takes_path(&request.ask)
    }

    fn takes_id(self, id: u32) -> bool {
        match self.id {
            Some(wanted) => wanted == id,
            None => true,
        }
    }

    fn takes_path(self, ask: &Ask) -> bool {
        match self.path {
            Some(path) => has_path(ask, path),
            None => true,
        }
    }

    fn takes_handle(self, handle: Option<&[u8]>) -> bool {
        match self.handle {
            Some(wanted) => is_same(handle, wanted),
            None => true,
        }
    }
}

/// Whether a request has this path. The target of a link is one of its paths.
fn has_path(ask: &Ask, path: &[u8]) -> bool {
    is_same(path_of(ask), path) || is_same(new_path_of(ask), path) || is_same(target_of(ask), path)
}

fn target_of(ask: &Ask) -> Option<&[u8]> {
    match ask {
        Ask::Symlink { targetpath, .. } => Some(targetpath.as_slice()),
        _ => None,
    }
}

/// Whether there is a text, and it has these bytes.
fn is_same(text: Option<&[u8]>, bytes: &[u8]) -> bool {
    match text {
        Some(text) => text == bytes,
        None => false,
    }
}

/// The handle that a reply gives, if it gives one.
fn given_handle(reply: &Reply) -> Option<&[u8]> {
    match &reply.answer {
        Answer::Handle(handle) => Some(handle.as_slice()),
        _ => None,
    }
}
