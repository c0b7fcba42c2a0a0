//! The auditor: it is fed the events of a session, one after the other, and sees each once.
ghost use Rattle.std.specs.Prelude.{◌≡◌, ◌≤◌, List, [], length, true, Some, None, Ok, Err, OnOk, IfOk, IfErr};
ghost use Rattle.sftp_handles.specs.State.{State, started, closed_tree};
ghost use Rattle.sftp_handles.specs.Allowed.{Allowed};
ghost use Rattle.sftp_transcript.specs.declared.events.Event.{Event};
ghost use Rattle.sftp_transcript.specs.Sound.{first_number};
ghost use Rattle.sftp_transcript.specs.Explained.{Explained, window};
ghost use Rattle.sftp_audit.specs.declared.errors.Refusal.{Refusal};
ghost use Rattle.sftp_audit.specs.Cuts.{unanswered_count};
ghost use Rattle.sftp_audit.specs.Auditor.{StandsFor, LacksReply, GoesOn, HasNoted, HasReason, StopsIn, Reports};

use crate::errors::Refusal;
use crate::exchanges::RecordedReply;
use crate::ledger::Ledger;
use crate::settling::settle;
use sftp_handles::{GivenTable, Session};
use sftp_judges::Judges;
use sftp_transcript::Event;
use sftp_tree::{NoMemory, Tree};
use std::marker::Model;

/// The number of the first event's record: INIT and VERSION have the numbers 1 and 2.
const FIRST_NUMBER: u64 = 3;

/// An auditor of one session, by a judge, which is the strict one unless another is named. It keeps the tree with what
/// is open on it, and the requests from the oldest unanswered one on, at most 1,024, with the replies that came;
/// nothing else of the past. A request is done as soon as it and all before it have their replies.
#[derive(Drop)]
pub struct Auditor<J: Judges = Session<GivenTable>> {
    judge: J,
    ledger: Ledger,
    /// The number of the next event's record, capped at 2^64 - 1.
    number: u64,
    /// The refusal, once there is one.
    refusal: Option<Refusal>,
    /// Whether the judge follows the session: only a reply that is not allowed may say otherwise.
    follows: bool,
}

impl<J: Judges> Model for Auditor<J> {
    ghost use Rattle.std.specs.Prelude.{◌≤◌, length};
    ghost use Rattle.sftp_transcript.specs.Explained.{window};
    ghost use Rattle.sftp_audit.specs.Auditor.{Audited};

    ghost Value = { Audited J };

    ghost view = { λ a. record {
      state = a.judge;
      kept = a.ledger;
      number = a.number;
      refusal = a.refusal;
      follows = a.follows;
    } };

    ghost invariant = { λ a. length a.ledger ≤ window };
}

/// The strict auditor: a reply is allowed if the session allows it.
impl Auditor {
    /// An auditor of a session that begins on this tree, with nothing open. The pins that the tree came with are taken
    /// away. The first event is that of record 3.
    ///
    /// # Errors
    ///
    /// `NoMemory` if memory runs out.
    pub fn new(tree: Tree) -> Result<Auditor, NoMemory>
        ensures fresh { IfOk result (λ auditor. auditor ≡ record {
          state = started tree;
          kept = [];
          number = first_number;
          refusal = None;
          follows = true;
        }) }
        // It stands for no events.
        ensures stands { IfOk result (StandsFor Allowed (started tree) []) }
    {
        Auditor::by((), tree)
    }

    /// Judges the next event of the session.
    ///
    /// # Errors
    ///
    /// A refusal, `NoMemory` included, is final: each later call returns it again, and no request is kept.
    ///
    /// - `UnknownReply` at the event's record if no unanswered request has the reply's id.
    /// - `IdInUse` at the event's record if an unanswered request has the same id.
    /// - `Window` at the event's record if 1,024 requests were asked from the oldest unanswered one on.
    /// - `NotAllowed` at the record of the first reply, in the order asked, that is not allowed. It is returned once
    ///   all requests before its own have their replies.
    /// - `NoMemory` if memory runs out.
    pub fn feed(&mut self, event: Event) -> Result<(), Refusal>
        // It then stands for the events so far and this one.
        ensures stands { OnOk result (GoesOn Allowed self.old event self.new) }
        // A refusal has its reason.
        ensures refused { IfErr result (HasReason Allowed self.old event) }
        // After `NotAllowed` the session is the one in which the reply is not allowed.
        ensures wrong { IfErr result (StopsIn Allowed self.old event self.new.state) }
        // It is permanent, and no request is kept.
        ensures for_good { IfErr result (λ refusal. (self.new.refusal ≡ Some refusal) × (self.new.kept ≡ [])) }
        ensures again { (refusal : Refusal) → self.old.refusal ≡ Some refusal → result ≡ Err refusal }
    {
        self.judge_event(event)
    }

    /// The tree where the session ends, as if what is still open were closed. Does not allocate.
    ///
    /// # Errors
    ///
    /// `Unanswered` with the record of the oldest request without a reply, if there is one; and a refusal that `feed`
    /// returned, again.
    pub fn finish(self) -> Result<Tree, Refusal>
        ensures again { (refusal : Refusal) → self.refusal ≡ Some refusal → result ≡ Err refusal }
        // The events are explained, and the result is the tree where their run ends.
        ensures ended { IfOk result (λ end. (start : State) (events : List Event) →
            StandsFor Allowed start events self
            → (last : State) × Explained Allowed start events last × (end ≡ closed_tree last)) }
        // Otherwise a request has no reply.
        ensures unanswered { IfErr result (λ refusal. (start : State) (events : List Event) →
            StandsFor Allowed start events self → LacksReply events refusal) }
    {
        self.end()
    }
}

/// An auditor by any judge: a reply is allowed if the judge allows it.
impl<J: Judges> Auditor<J> {
    /// An auditor of a session that begins on this tree, by a judge that is made by `by`.
    ///
    /// # Errors
    ///
    /// `NoMemory` if memory runs out.
    pub fn by(by: J::By, tree: Tree) -> Result<Auditor<J>, NoMemory>
        ensures fresh { IfOk result (λ auditor. auditor ≡ record {
          state = J.begun by tree;
          kept = [];
          number = first_number;
          refusal = None;
          follows = true;
        }) }
        // It stands for no events.
        ensures stands { IfOk result (StandsFor J.allowed (J.begun by tree) []) }
    {
        let alloc = tree.allocator();
        let judge = J::begin(by, tree)?;
        Ok(Auditor {
            judge,
            ledger: Ledger::new(alloc),
            number: FIRST_NUMBER,
            refusal: None,
            follows: true,
        })
    }

    /// Judges the next event of the session, as `feed` does. After `NotAllowed`, `follows` says whether the judge
    /// follows the request with this reply.
    ///
    /// # Errors
    ///
    /// Those of `feed`, with what this judge allows.
    #[inline(always)]
    pub fn judge_event(&mut self, event: Event) -> Result<(), Refusal>
        // It then stands for the events so far and this one.
        ensures stands { OnOk result (GoesOn J.allowed self.old event self.new) }
        // A refusal has its reason.
        ensures refused { IfErr result (HasReason J.allowed self.old event) }
        // After `NotAllowed` the judge is in the state in which the reply is not allowed.
        ensures wrong { IfErr result (StopsIn J.allowed self.old event self.new.state) }
        // It is then known whether the judge follows the request.
        ensures told { IfErr result (Reports J.allowed J.follows self.old event self.new.follows) }
        // It is permanent, and no request is kept.
        ensures for_good { IfErr result (λ refusal. (self.new.refusal ≡ Some refusal) × (self.new.kept ≡ [])) }
        ensures again { (refusal : Refusal) → self.old.refusal ≡ Some refusal → result ≡ Err refusal }
    {
        if let Some(refusal) = self.refusal {
            self.ledger.clear();
            drop(event);
            return Err(refusal);
        }
        match self.note(event) {
            Ok(()) => {
                self.number = self.number.saturating_add(1);
                Ok(())
            }
            Err(refusal) => {
                self.refusal = Some(refusal);
                self.ledger.clear();
                Err(refusal)
            }
        }
    }

    /// Notes an event, and does the requests that are then settled.
    ///
    /// # Errors
    ///
    /// Those of `feed`.
    #[inline(always)]
    fn note(&mut self, event: Event) -> Result<(), Refusal>
        ensures same { (self.new.number ≡ self.old.number) × (self.new.refusal ≡ self.old.refusal) }
        ensures stands { OnOk result (HasNoted J.allowed self.old event self.new) }
        ensures refused { IfErr result (HasReason J.allowed self.old event) }
        ensures wrong { IfErr result (StopsIn J.allowed self.old event self.new.state) }
        ensures told { IfErr result (Reports J.allowed J.follows self.old event self.new.follows) }
    {
        match event {
            Event::Asked(request) => self.ledger.ask(request, self.number),
            Event::Replied(reply) => {
                self.ledger.answer(RecordedReply {
                    reply,
                    number: self.number,
                })?;
                settle(&mut self.ledger, &mut self.judge, &mut self.follows)
            }
        }
    }

    /// The judge after the requests that are done. After `NotAllowed` it is in the state in which the reply is not
    /// allowed.
    pub fn judge(&self) -> &J
        ensures { result.now ≡ self.now.state }
    {
        &self.judge
    }

    /// Whether the judge follows the session. After `NotAllowed` it is whether it follows the request with the reply
    /// that is not allowed, and otherwise it does.
    pub fn follows(&self) -> bool
        ensures { result ≡ self.now.follows }
    {
        self.follows
    }

    /// The tree where the session ends, as that of `finish`. Does not allocate.
    ///
    /// # Errors
    ///
    /// Those of `finish`.
    pub fn end(self) -> Result<Tree, Refusal>
        ensures again { (refusal : Refusal) → self.refusal ≡ Some refusal → result ≡ Err refusal }
        // The events are explained, and the result is the tree where their run ends.
        ensures ended { IfOk result (λ end. (start : J) (events : List Event) → StandsFor J.allowed start events self
            → (last : J) × Explained J.allowed start events last × (end ≡ J.closed last)) }
        // Otherwise a request has no reply.
        ensures unanswered { IfErr result (λ refusal. (start : J) (events : List Event) →
            StandsFor J.allowed start events self → LacksReply events refusal) }
    {
        if let Some(refusal) = self.refusal {
            drop(self);
            return Err(refusal);
        }
        match self.ledger.first() {
            Some(exchange) => {
                let refusal = Refusal::Unanswered {
                    record: exchange.number,
                };
                drop(self);
                Err(refusal)
            }
            None => {
                drop(self.ledger);
                Ok(self.judge.into_tree())
            }
        }
    }

    /// The tree after the requests that are done, as if what is still open were closed: those before the oldest
    /// unanswered one and, after `NotAllowed`, those before the request with the reply that is not allowed. Does not
    /// allocate.
    pub fn into_settled(self) -> Tree
        ensures { result ≡ J.closed self.state }
    {
        drop(self.ledger);
        self.judge.into_tree()
    }

    /// How many of the requests that are kept have no reply. Does not allocate.
    pub fn unanswered(&self) -> usize
        ensures { result ≡ unanswered_count self.now.kept }
    {
        self.ledger.unanswered()
    }

    /// How many requests are kept with their replies: those from the oldest unanswered one on, at most 1,024; 0 where
    /// all are answered, and after a refusal. Does not allocate.
    pub fn kept(&self) -> usize
        ensures count { result ≡ length self.now.kept }
        ensures few { result ≤ window }
    {
        self.ledger.len()
    }
}
