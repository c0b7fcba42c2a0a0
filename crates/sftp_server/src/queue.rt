//! The queue of a server: its requests from the first unanswered one on.
ghost use Rattle.std.specs.Prelude.{◌≡◌, ◌↔◌, ◌++◌, [], ◌∷◌, IsTrue, false, length, take, not};
ghost use Rattle.std.specs.Prelude.{IfErr, OnOk, OnErr, IfSome, IfNone, is_some, option_copied, slice_get};
ghost use Rattle.std.specs.Option.{option_map};
ghost use Rattle.sftp_server.specs.declared.queue.Progress.TheVariants as progress;
ghost use Rattle.sftp_server.specs.Machine.{is_unsent, is_pending_at, reply_at, from_unsent, ready_in, is_free_of};
ghost use Rattle.sftp_server.specs.Machine.{server_clash};
ghost use Rattle.sftp_server.specs.Queue.{pending_at, with_progress, sent_in, HasReply, clashes_in};

use crate::refusals::Refuse;
use indexmap::IndexMap;
use sftp_handles::{HandleTable, Session};
use sftp_wire::{Reply, Request};
use std::alloc::Global;
use std::collections::VecDeque;
use std::marker::Model;
use std::mem::replace;

/// How far a request has come.
#[derive(Drop)]
pub enum Progress {
    /// It is not done yet.
    Pending,
    /// It is done, and its reply is not sent yet.
    Done(Reply),
    /// Its reply was sent.
    Sent,
}

/// A request, and how far it has come.
#[derive(Drop)]
pub struct Entry {
    pub request: Request,
    pub progress: Progress,
}

/// The requests of a core, in the order asked. The reply of the first is not sent yet.
#[derive(Drop)]
pub(crate) struct Queue {
    entries: VecDeque<Entry>,
    /// The ids of the requests whose replies are not sent yet.
    ids: IndexMap<u32, ()>,
}

impl Model for Queue {
    ghost use Rattle.std.specs.Prelude.{List};
    ghost use Rattle.sftp_server.specs.declared.queue.Entry.{Entry};
    ghost use Rattle.sftp_server.specs.Queue.{IsQueue};

    ghost Value = { List Entry };

    ghost view = { λ q. q.entries.items };

    ghost invariant = { λ q. IsQueue q.entries.items q.ids.entries };
}

impl Queue {
    /// The queue of no requests.
    pub(crate) fn new(alloc: Global) -> Queue
        ensures { result ≡ [] }
    {
        Queue {
            entries: VecDeque::new(alloc),
            ids: IndexMap::new(alloc),
        }
    }

    /// How many requests there are.
    pub(crate) fn len(&self) -> usize
        ensures count { result ≡ length self.now }
        ensures empty { (result ≡ 0) ↔ (self.now ≡ []) }
    {
        self.entries.len()
    }

    /// Whether an unsent request has this id.
    pub(crate) fn has_unsent(&self, id: u32) -> bool
        ensures { result ≡ is_unsent id self.now }
    {
        self.ids.contains_key(&id)
    }

    /// Adds a request at the end, pending.
    ///
    /// # Errors
    ///
    /// The request comes back if memory runs out; nothing changes.
    pub(crate) fn push(&mut self, request: Request) -> Result<(), Request>
        requires { is_unsent request.id self.old ≡ false }
        ensures pushed { OnOk result
            (self.new ≡ self.old ++ record { request = request; progress = progress.Pending } ∷ []) }
        ensures returned { IfErr result (λ r. r ≡ request) }
        ensures err { OnErr result (self.new ≡ self.old) }
    {
        if self.entries.reserve(1).is_err() {
            return Err(request);
        }
        match self.ids.insert(request.id, ()) {
            Ok(_) => {
                self.entries.push_back_reserved(Entry {
                    request,
                    progress: Progress::Pending,
                });
                Ok(())
            }
            Err(_) => Err(request),
        }
    }

    /// The entry at this position.
    pub(crate) fn entry(&self, k: usize) -> Option<&Entry>
        ensures { option_copied result ≡ slice_get self.now k }
    {
        self.entries.get(k)
    }

    /// The request at this position, if it is pending.
    pub(crate) fn pending(&self, k: usize) -> Option<&Request>
        ensures { option_copied result ≡ pending_at self.now k }
    {
        match self.entry(k) {
            Some(entry) => match entry.progress {
                Progress::Pending => Some(&entry.request),
                Progress::Done(_) => None,
                Progress::Sent => None,
            },
            None => None,
        }
    }

    /// Whether the request at this position is pending.
    pub(crate) fn is_pending(&self, k: usize) -> bool
        ensures { result ≡ is_pending_at self.now k }
    {
        self.pending(k).is_some()
    }

    /// Whether the request at this position is done, and its reply is not sent.
    pub(crate) fn is_done(&self, k: usize) -> bool
        ensures { result ≡ is_some (reply_at self.now k) }
    {
        match self.entry(k) {
            Some(entry) => match entry.progress {
                Progress::Done(_) => true,
                Progress::Pending => false,
                Progress::Sent => false,
            },
            None => false,
        }
    }

    /// The first position of an unsent request with this id.
    pub(crate) fn position(&self, id: u32) -> Option<usize> {
        let mut k = 0;
        'each: while k < self.entries.len() {
            if self.is_unsent_at(k, id) {
                return Some(k);
            }
            k += 1;
        }
        None
    }

    /// Whether the request at this position is unsent and has this id.
    fn is_unsent_at(&self, k: usize, id: u32) -> bool {
        match self.entry(k) {
            Some(entry) => match entry.progress {
                Progress::Pending => entry.request.id == id,
                Progress::Done(_) => entry.request.id == id,
                Progress::Sent => false,
            },
            None => false,
        }
    }

    /// Whether the request at this position is pending, and conflicts with no earlier one that is.
    pub(crate) fn ready<T: HandleTable>(&self, session: &Session<T>, k: usize) -> bool
        ensures { result ≡ ready_in server_clash session.now (take k self.now) (slice_get self.now k) }
    {
        match self.pending(k) {
            Some(request) => self.blocker(session, k, request).is_none(),
            None => false,
        }
    }

    /// The last position before this one of a pending request that conflicts with this request, which was asked later.
    pub(crate) fn blocker<T: HandleTable>(
        &self,
        session: &Session<T>,
        k: usize,
        request: &Request,
    ) -> Option<usize>
        ensures { is_free_of server_clash session.now (take k self.now) request.now ≡ not (is_some result) }
    {
        let mut j = k;
        'down: while j > 0 {
            j -= 1;
            if self.is_in_way(session, j, request) {
                return Some(j);
            }
        }
        None
    }

    /// Whether the request at this position is pending and conflicts with this one, which was asked later.
    pub(crate) fn is_in_way<T: HandleTable>(
        &self,
        session: &Session<T>,
        j: usize,
        request: &Request,
    ) -> bool
        ensures { result ≡ clashes_in server_clash session.now (pending_at self.now j) request.now }
    {
        match self.pending(j) {
            Some(earlier) => session.clash(earlier, request),
            None => false,
        }
    }

    /// Marks the pending request at this position as done with this reply.
    pub(crate) fn complete(&mut self, k: usize, reply: Reply)
        requires { IsTrue (is_pending_at self.old k) }
        ensures { self.new ≡ with_progress self.old k (progress.Done reply) }
    {
        let Some(entry) = self.entries.get_mut(k) else {
            unreachable!();
        };
        drop(replace(&mut entry.progress, Progress::Done(reply)));
    }

    /// The reply of the request at this position if it is done and not sent; it is then marked as sent. Requests at the
    /// front whose replies were sent leave the queue.
    pub(crate) fn send(&mut self, k: usize) -> Option<Reply>
        ensures reply { result ≡ reply_at self.old k }
        ensures sent { IfSome result (λ reply. self.new ≡ from_unsent (with_progress self.old k progress.Sent)) }
        ensures unchanged { IfNone result (self.new ≡ self.old) }
    {
        let (id, reply) = take_reply(&mut self.entries, k)?;
        self.ids.swap_remove(&id);
        drop_sent(&mut self.entries);
        Some(reply)
    }
}

/// The id and the reply of the request at this position if it is done and not sent; it is then marked as sent.
fn take_reply(entries: &mut VecDeque<Entry>, k: usize) -> Option<(u32, Reply)>
    ensures reply { option_map (λ r. r.1) result ≡ reply_at entries.old.items k }
    ensures id { IfSome result (λ r. HasReply entries.old.items k r.0 r.1) }
    ensures marked { IfSome result (λ r. entries.new.items ≡ with_progress entries.old.items k progress.Sent) }
    ensures unchanged { IfNone result (entries.new.items ≡ entries.old.items) }
{
    let entry = entries.get_mut(k)?;
    match entry.progress {
        Progress::Done(_) => {}
        Progress::Pending => return None,
        Progress::Sent => return None,
    }
    match replace(&mut entry.progress, Progress::Sent) {
        Progress::Done(reply) => Some((entry.request.id, reply)),
        Progress::Pending => unreachable!(),
        Progress::Sent => unreachable!(),
    }
}

/// Removes from the front the requests whose replies were sent.
fn drop_sent(entries: &mut VecDeque<Entry>)
    ensures { entries.new.items ≡ from_unsent entries.old.items }
{
    'sent: while is_sent_first(entries) {
        drop(entries.pop_front());
    }
}

/// Whether the reply of the first request was sent.
fn is_sent_first(entries: &VecDeque<Entry>) -> bool
    ensures { result ≡ sent_in (slice_get entries.now.items 0) }
{
    match entries.front() {
        Some(entry) => match entry.progress {
            Progress::Sent => true,
            Progress::Pending => false,
            Progress::Done(_) => false,
        },
        None => false,
    }
}
