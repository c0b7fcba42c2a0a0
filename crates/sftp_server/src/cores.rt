//! The core of a server: takes requests, does them, and gives their replies
//! (draft-ietf-secsh-filexfer-02, section 6.1).
ghost use Rattle.std.specs.Prelude.{◌≡◌, ◌≢◌, ◌≤◌, [], false, length, IsTrue, IfOk, IfErr, OnOk, OnErr, IfSome};
ghost use Rattle.std.specs.Prelude.{IfNone};
ghost use Rattle.std.specs.Prelude.{◌↔◌, nat_lt, Some, if◌then◌else◌, is_some};
ghost use Rattle.sftp_packets.specs.declared.packets.Packet.TheVariants.{Reply as reply_packet};
ghost use Rattle.sftp_packets.specs.Packets.{HasSpelling};
ghost use Rattle.sftp_transcript.specs.Explained.{window as full_window};
ghost use Rattle.sftp_handles.specs.State as states;
ghost use Rattle.sftp_handles.specs.State.{started, closed_tree};
ghost use Rattle.sftp_handles.specs.Allowed.{Allowed};
ghost use Rattle.sftp_server.specs.declared.refusals.Did.TheVariants as did;
ghost use Rattle.sftp_server.specs.declared.refusals.Refuse.TheVariants.{Full as full, IdInUse as in_use};
ghost use Rattle.sftp_server.specs.declared.refusals.Refuse.TheVariants.{NoMemory as no_memory};
ghost use Rattle.sftp_server.specs.Machine.{is_unsent};
ghost use Rattle.sftp_server.specs.Machine.{at_start, taken, can_take, is_ready, is_pending_at, reply_at, IsWorked};
ghost use Rattle.sftp_server.specs.Machine.{IsSent};
ghost use Rattle.sftp_server.specs.Queue.{IsPossible};
ghost use Rattle.sftp_server.specs.Machine.{server_clash, IsRefusedFor};

use crate::answerers::{Answerer, Plain};
use crate::known::Known;
use crate::queue::Queue;
use crate::refusals::{Did, Refuse};
use sftp_handles::{HandleTable, Session};
use sftp_tree::{NoMemory, Tree};
use sftp_wire::{Reply, Request};
use std::marker::Model;

/// What a core may do next, by a position in its queue.
#[derive(Clone, Copy)]
pub(crate) enum Choice {
    /// Do the request.
    Work(usize),
    /// Send the reply.
    Send(usize),
}

/// A session, and the queue of the requests that are not all answered yet. Requests that conflict are done in the order
/// asked, all others and the replies in any order. A request that was answered stays in the queue while an earlier one
/// is unanswered.
#[derive(Drop)]
pub struct Core<T: HandleTable> {
    session: Session<T>,
    queue: Queue,
    /// Which requests were found ready.
    known: Known,
    window: usize,
}

impl<T: HandleTable> Model for Core<T> {
    ghost use Rattle.sftp_handles.specs.State.{State};
    ghost use Rattle.sftp_server.specs.Machine.{Machine};
    ghost use Rattle.sftp_server.specs.Machine.{IsCore};

    ghost Value = { Machine State };

    ghost view = { λ c. record { state = c.session; window = c.window; queue = c.queue } };

    ghost invariant = { λ c. IsCore c.window c.queue };
}

impl<T: HandleTable> Core<T> {
    /// A core on a tree, with nothing open and nothing asked; pins that the tree has are removed. Its queue takes up to
    /// `window` requests, which is 1 to `sftp_transcript::WINDOW`.
    ///
    /// # Errors
    ///
    /// `NoMemory` if memory runs out.
    pub fn new(tree: Tree, window: usize) -> Result<Core<T>, NoMemory>
        requires { (1 ≤ window) × (window ≤ full_window) }
        ensures start { IfOk result (λ core. core ≡ at_start (started tree) window) }
        ensures good { OnOk result (states.Good (started tree)) }
    {
        let alloc = tree.allocator();
        Ok(Core {
            session: Session::new(tree)?,
            queue: Queue::new(alloc),
            known: Known::new(alloc),
            window,
        })
    }

    /// Takes a request: it is then last in the queue, and pending.
    ///
    /// # Errors
    ///
    /// Each carries the request, and the core is unchanged. `Full` if there is no room in the queue; else `IdInUse` if
    /// a request with this id is unanswered; `NoMemory` if memory runs out.
    pub fn deliver(&mut self, request: Request) -> Result<(), (Request, Refuse)>
        ensures could { OnOk result (IsTrue (can_take self.old request)) }
        ensures taken { OnOk result (self.new ≡ taken self.old request) }
        ensures returned { IfErr result (λ e. e.0 ≡ request) }
        ensures refused { IfErr result (λ e. IsRefusedFor self.old request e.1) }
        ensures err { OnErr result (self.new ≡ self.old) }
    {
        match self.refusal(request.id) {
            Some(refuse) => Err((request, refuse)),
            None => match self.take(request) {
                Ok(()) => Ok(()),
                Err(request) => Err((request, Refuse::NoMemory)),
            },
        }
    }

    /// Takes a request for which there is room, and whose id is not in use.
    ///
    /// # Errors
    ///
    /// The request comes back if memory runs out; the core is unchanged.
    fn take(&mut self, request: Request) -> Result<(), Request>
        requires { IsTrue (can_take self.old request) }
        ensures taken { OnOk result (self.new ≡ taken self.old request) }
        ensures returned { IfErr result (λ r. r ≡ request) }
        ensures err { OnErr result (self.new ≡ self.old) }
    {
        self.queue.push(request)
    }

    /// Why a request with this id cannot be taken, memory aside.
    pub(crate) fn refusal(&self, id: u32) -> Option<Refuse>
        ensures full { (result ≡ Some full) ↔ (self.now.window ≤ length self.now.queue) }
        ensures in_use { (result ≡ Some in_use)
            ↔ (IsTrue (nat_lt (length self.now.queue) self.now.window) × IsTrue (is_unsent id self.now.queue)) }
        ensures other { result ≢ Some no_memory }
        // A full queue has some request.
        ensures busy { result ≡ Some full → self.now.queue ≢ [] }
    {
        if self.queue.len() >= self.window {
            Some(Refuse::Full)
        } else if self.queue.has_unsent(id) {
            Some(Refuse::IdInUse)
        } else {
            None
        }
    }

    /// Whether the request at this position is pending, and conflicts with no earlier one that is. Does not allocate.
    pub fn ready(&self, k: usize) -> bool
        ensures { result ≡ is_ready server_clash self.now k }
    {
        self.queue.ready(&self.session, k)
    }

    /// Does the request at this position if it is ready, and answers it as `Session::answer` does. Unless the result is
    /// `Done`, the core is unchanged.
    ///
    /// # Errors
    ///
    /// `NoMemory` if the request is ready and memory runs out; the core is unchanged.
    pub fn work(&mut self, k: usize) -> Result<Did, NoMemory>
        // Only what was ready is done.
        ensures was_ready { IfOk result (λ d. d ≡ did.Done → IsTrue (is_ready server_clash self.old k)) }
        ensures done { IfOk result (λ d. d ≡ did.Done → IsWorked Allowed self.old k self.new) }
        // It is pending, and an earlier request with which it conflicts has to be done first.
        ensures not_ready { IfOk result (λ d. d ≡ did.NotReady →
            IsTrue (is_pending_at self.old.queue k) × (is_ready server_clash self.old k ≡ false)) }
        ensures no_such { IfOk result (λ d. d ≡ did.NoSuch → is_pending_at self.old.queue k ≡ false) }
        ensures unchanged { IfOk result (λ d. d ≢ did.Done → self.new ≡ self.old) }
        ensures tried { OnErr result (IsTrue (is_ready server_clash self.old k)) }
        ensures err { OnErr result (self.new ≡ self.old) }
    {
        self.work_by(k, &mut Plain)
    }

    /// Does the request at this position if it is ready, as the answerer answers it. Unless the result is `Done`, the
    /// core is unchanged.
    ///
    /// # Errors
    ///
    /// `NoMemory` if the request is ready and memory runs out; the core is unchanged.
    pub fn work_by<A: Answerer<T>>(&mut self, k: usize, answerer: &mut A) -> Result<Did, NoMemory>
        // Only what was ready is done.
        ensures was_ready { IfOk result (λ d. d ≡ did.Done → IsTrue (is_ready server_clash self.old k)) }
        ensures done { IfOk result (λ d. d ≡ did.Done → IsWorked Allowed self.old k self.new) }
        // It is pending, and an earlier request with which it conflicts has to be done first.
        ensures not_ready { IfOk result (λ d. d ≡ did.NotReady →
            IsTrue (is_pending_at self.old.queue k) × (is_ready server_clash self.old k ≡ false)) }
        ensures no_such { IfOk result (λ d. d ≡ did.NoSuch → is_pending_at self.old.queue k ≡ false) }
        ensures unchanged { IfOk result (λ d. d ≢ did.Done → self.new ≡ self.old) }
        ensures tried { OnErr result (IsTrue (is_ready server_clash self.old k)) }
        ensures err { OnErr result (self.new ≡ self.old) }
    {
        if !self.ready(k) {
            return Ok(self.not_done(k));
        }
        let Some(request) = self.queue.pending(k) else {
            return Ok(Did::NoSuch);
        };
        let reply = answerer.answer(&mut self.session, request)?;
        self.queue.complete(k, reply);
        Ok(Did::Done)
    }

    /// What comes of work on the request at this position, which is not ready.
    fn not_done(&self, k: usize) -> Did
        ensures { result ≡ (if is_pending_at self.now.queue k then did.NotReady else did.NoSuch) }
    {
        if self.queue.is_pending(k) {
            Did::NotReady
        } else {
            Did::NoSuch
        }
    }

    /// Returns the reply of the request at this position to be sent, if the request is done and unanswered. Answered
    /// requests at the front then leave the queue. Does not allocate.
    pub fn send(&mut self, k: usize) -> Option<Reply>
        ensures reply { result ≡ reply_at self.old.queue k }
        ensures sent { IfSome result (λ reply. IsSent self.old k reply self.new) }
        ensures spelled { IfSome result (λ reply. HasSpelling (reply_packet reply)) }
        ensures unchanged { IfNone result (self.new ≡ self.old) }
    {
        let before = self.queue.len();
        let sent = self.queue.send(k);
        self.known.pass(before.saturating_sub(self.queue.len()));
        sent
    }

    /// The position of the unanswered request with this id.
    pub(crate) fn position(&self, id: u32) -> Option<usize> {
        self.queue.position(id)
    }

    /// The request that was taken last, if it is pending.
    pub(crate) fn newest(&self) -> Option<&Request> {
        self.queue.pending(self.queue.len().saturating_sub(1))
    }

    /// Whether the request at this position is done, and its reply is not sent.
    pub(crate) fn is_done(&self, k: usize) -> bool
        ensures { result ≡ is_some (reply_at self.now.queue k) }
    {
        self.queue.is_done(k)
    }

    /// How many acts are possible: requests that are ready, and replies to be sent.
    pub(crate) fn choices(&mut self) -> usize
        ensures { self.new ≡ self.old }
    {
        self.known.count(&self.session, &self.queue)
    }

    /// The act of this number, from 0, among those that were counted, in the order of the queue; `None` if it is not
    /// possible.
    pub(crate) fn choice(&self, number: usize) -> Option<Choice>
        ensures { IfSome result (IsPossible server_clash self.now) }
    {
        let k = self.known.position(number)?;
        if self.is_done(k) {
            Some(Choice::Send(k))
        } else if self.ready(k) {
            Some(Choice::Work(k))
        } else {
            None
        }
    }

    /// The first of the acts that are possible, if one is. It is at the front: nothing is before that, so there is no
    /// search.
    pub(crate) fn first(&self) -> Option<Choice>
        ensures possible { IfSome result (IsPossible server_clash self.now) }
        ensures none { IfNone result (self.now.queue ≡ []) }
    {
        if self.queue.is_pending(0) {
            Some(Choice::Work(0))
        } else if self.is_done(0) {
            Some(Choice::Send(0))
        } else {
            None
        }
    }

    /// The tree of the session with nothing open, once each request was answered. Does not allocate.
    ///
    /// # Errors
    ///
    /// The core, unchanged, if the queue is not empty.
    pub fn finish(self) -> Result<Tree, Core<T>>
        ensures tree { IfOk result (λ tree. tree ≡ closed_tree self.state) }
        ensures was_empty { OnOk result (self.queue ≡ []) }
        ensures not_empty { OnErr result (self.queue ≢ []) }
        ensures same { IfErr result (λ core. core ≡ self) }
    {
        if self.queue.len() == 0 {
            Ok(self.into_tree())
        } else {
            Err(self)
        }
    }

    /// The tree of the session with nothing open, whatever is unanswered. Requests that are pending are not done. Does
    /// not allocate.
    pub(crate) fn into_tree(self) -> Tree
        ensures { result ≡ closed_tree self.state }
    {
        drop(self.queue);
        drop(self.known);
        self.session.into_tree()
    }
}
