//! The answerer that gives the replies of another one words for people.
ghost use Rattle.std.specs.Prelude.{◌≡◌, [], IfOk, IfSome};
ghost use Rattle.sftp_packets.specs.declared.packets.Packet.TheVariants.{Reply as reply_packet};
ghost use Rattle.sftp_packets.specs.declared.replies.Answer.TheVariants as replies;
ghost use Rattle.sftp_packets.specs.Packets.{HasSpelling};
ghost use Rattle.sftp_bare.specs.Bare.{bare};

use crate::cuts::Cuts;
use crate::freedoms::{Freedom, Freedoms, Variation};
use crate::lined::in_lines;
use crate::spelled::spelled;
use crate::words::{LANGUAGE, text_of};
use sftp_handles::{HandleTable, Session};
use sftp_server::Answerer;
use sftp_tree::{Cause, Causes, EVERY_CAUSE, NoMemory};
use sftp_wire::status::{EOF, OK};
use sftp_wire::{Answer, Ask, ByteString, Reply, Request};
use std::alloc::Global;

/// How a session uses what is free.
#[derive(Clone, Copy)]
pub struct Style {
    /// How it is varied, if it is.
    pub variation: Option<Variation>,
    /// Which words for people replies have besides.
    pub words: Words,
    /// Whether they have times of access and modification, if they are not varied.
    pub has_times: bool,
}

impl Style {
    /// Whether replies are varied.
    pub fn varies_replies(self) -> bool {
        match self.variation {
            Some(variation) => variation.freedoms.has_any_in_replies(),
            None => false,
        }
    }

    /// Where the output is cut, if it is.
    pub fn cuts(self) -> Option<Cuts> {
        match self.variation {
            Some(variation) if variation.freedoms.has(Freedom::Cuts) => {
                Some(Cuts::new(variation.seed))
            }
            _ => None,
        }
    }
}

/// Which words for people replies have, in fields that are free.
#[derive(Clone, Copy)]
pub struct Words {
    /// Whether each refusal has a text that says why, and which limit was met.
    pub texts: bool,
    /// Whether the long names in the replies to READDIR are lines as `ls -l` writes them.
    pub long_names: bool,
}

impl Words {
    /// Whether there are any.
    pub fn has_any(self) -> bool {
        self.texts || self.long_names
    }

    /// Those that are left beside freedoms, which have words of their own.
    pub fn beside(self, freedoms: Freedoms) -> Words {
        Words {
            texts: self.texts && !freedoms.has(Freedom::Texts),
            long_names: self.long_names && !freedoms.has(Freedom::Longnames),
        }
    }
}

/// Answers requests as another answerer does, with words for people in its replies. A reply stays as it is if memory
/// runs out for its words.
#[derive(Drop)]
pub struct Worded<A: Drop> {
    inner: A,
    words: Words,
}

impl<A: Drop> Worded<A> {
    /// The answerer that gives the replies of this one such words.
    pub fn new(inner: A, words: Words) -> Worded<A> {
        Worded { inner, words }
    }

    /// The other answerer.
    pub fn into_inner(self) -> A {
        self.inner
    }
}

impl<T: HandleTable, A: Answerer<T> + Drop> Answerer<T> for Worded<A> {
    fn answer(&mut self, session: &mut Session<T>, request: &Request) -> Result<Reply, NoMemory> {
        match self.inner.answer(session, request) {
            Ok(reply) => Ok(in_words(session, &request.ask, reply, self.words)),
            Err(error) => Err(error),
        }
    }
}

/// The reply to a request that the session has done or refused, with words.
fn in_words<T: HandleTable>(session: &Session<T>, ask: &Ask, reply: Reply, words: Words) -> Reply
    ensures same_id { result.id ≡ reply.id }
    ensures same { bare result.answer ≡ bare reply.answer }
    ensures spelled { HasSpelling (reply_packet reply) → HasSpelling (reply_packet result) }
{
    if words.long_names && gives_names(ask, &reply.answer) {
        return in_lines(session.tree().allocator(), reply);
    }
    match with_words(session, ask, &reply.answer, words) {
        Ok(Some(answer)) => in_place(session.tree().allocator(), answer, reply),
        Ok(None) => reply,
        Err(_) => reply,
    }
}

/// Whether an answer gives the names of a directory. REALPATH and READLINK have the name itself as the long name.
fn gives_names(ask: &Ask, answer: &Answer) -> bool {
    match (ask, answer) {
        (Ask::Readdir { .. }, Answer::Name(_)) => true,
        _ => false,
    }
}

/// The reply with another answer, if that can be encoded.
fn in_place(alloc: Global, answer: Answer, reply: Reply) -> Reply
    requires { bare answer ≡ bare reply.answer }
    ensures same_id { result.id ≡ reply.id }
    ensures same { bare result.answer ≡ bare reply.answer }
    ensures spelled { HasSpelling (reply_packet reply) → HasSpelling (reply_packet result) }
{
    let id = reply.id;
    match spelled(alloc, Reply { id, answer }) {
        Some(found) => {
            drop(reply);
            found
        }
        None => reply,
    }
}

/// An answer with words, if it gets some.
fn with_words<T: HandleTable>(
    session: &Session<T>,
    ask: &Ask,
    answer: &Answer,
    words: Words,
) -> Result<Option<Answer>, NoMemory>
    ensures { IfOk result (λ o. IfSome o (λ it. bare it ≡ bare answer.now)) }
{
    match answer {
        Answer::Status { code, .. } => {
            if words.texts {
                refusal(session, ask, *code)
            } else {
                Ok(None)
            }
        }
        _ => Ok(None),
    }
}

/// The STATUS of a refusal with its text, unless the code refuses nothing.
fn refusal<T: HandleTable>(
    session: &Session<T>,
    ask: &Ask,
    code: u32,
) -> Result<Option<Answer>, NoMemory>
    ensures { IfOk result (λ o. IfSome o (λ it. bare it ≡ replies.Status code [] [])) }
{
    if code == OK || code == EOF {
        return Ok(None);
    }
    // The request was refused, so the session is as it was, and has the causes that it had.
    let causes = session.causes(ask)?;
    match cause_of(causes, code) {
        Some(cause) => with_text(session, ask, code, cause),
        None => Ok(None),
    }
}

/// The STATUS with the text of a cause.
fn with_text<T: HandleTable>(
    session: &Session<T>,
    ask: &Ask,
    code: u32,
    cause: Cause,
) -> Result<Option<Answer>, NoMemory>
    ensures { IfOk result (λ o. IfSome o (λ it. bare it ≡ replies.Status code [] [])) }
{
    let alloc = session.tree().allocator();
    let message = text_of(session, ask, cause, alloc)?;
    match ByteString::from_slice(alloc, LANGUAGE) {
        Ok(language) => Ok(Some(Answer::Status {
            code,
            message,
            language,
        })),
        Err(_) => {
            drop(message);
            Err(NoMemory)
        }
    }
}

/// The first of the causes that allows this code.
fn cause_of(causes: Causes, code: u32) -> Option<Cause> {
    for cause in EVERY_CAUSE {
        if causes.holds(cause) && cause.allows(code) {
            return Some(cause);
        }
    }
    None
}
