//! A session under a profile: which replies of another server are accepted.
ghost use Rattle.std.specs.Prelude.{◌≡◌, ◌&&◌, [], false, IsTrue, IfOk, OnOk, OnErr};
ghost use Rattle.sftp_tree.specs.Tree.{trim};
ghost use Rattle.sftp_profile.specs.State.{State, begun};
ghost use Rattle.sftp_profile.specs.Interpretations.{asked};
ghost use Rattle.sftp_profile.specs.Replaced.{put, replaced};
ghost use Rattle.sftp_profile.specs.Departures.{is_forgiven, passes_in, passes_codes, passes_dots};
ghost use Rattle.sftp_profile.specs.Permitted.{Permitted, follows_in};
ghost use Rattle.sftp_profile.specs.Room.{is_outgrown};
ghost use Rattle.sftp_profile.specs.Replaced.{passes_lsetstat};
ghost use Rattle.sftp_profile.specs.StrictAnswers.{told};
ghost use Rattle.sftp_profile.specs.Permitted.{IsStrict, IsRetold, IsRead, IsTaken, IsSet, IsFollowed, IsTakenFor};
ghost use Rattle.sftp_profile.specs.Permitted.{IsForgiven, IsPermitted, IsStep};

use crate::departures::{is_modelled, passes_alone, passes_fields, passes_looking};
use crate::directories::Directory;
use crate::interpretations::{asked, followed};
use crate::profiles::Profile;
use crate::refusals::{are_dots, done, is_handle, is_refusal};
use crate::replaced::replaced;
use crate::room::is_outgrown;
use crate::settings::passes_lsetstat;
use crate::strict_answers::{is_readdir, told};
use sftp_handles::{GivenTable, Session};
use sftp_tree::{NoMemory, Tree};
use sftp_wire::{Answer, Ask, Reply, Request};
use std::alloc::Global;
use std::marker::Model;

/// A session, the profile under which its replies are judged, and the directories that are open in it.
#[derive(Drop)]
pub struct Judge {
    pub(crate) profile: Profile,
    pub(crate) session: Session<GivenTable>,
    pub(crate) directories: Vec<Directory>,
    pub(crate) alloc: Global,
}

impl Model for Judge {
    ghost use Rattle.sftp_profile.specs.State.{State};

    ghost Value = { State };

    ghost view = { λ j. record { profile = j.profile; session = j.session; directories = j.directories.items } };
}

impl Judge {
    /// A judge of a session on a tree, with nothing open. The pins that the tree came with are taken away.
    ///
    /// # Errors
    ///
    /// `NoMemory` if memory runs out.
    pub fn new(profile: Profile, tree: Tree) -> Result<Judge, NoMemory>
        ensures { IfOk result (λ judge. judge ≡ begun profile tree) }
    {
        let alloc = tree.allocator();
        let session = Session::new(tree)?;
        Ok(Judge {
            profile,
            session,
            directories: Vec::new(alloc),
            alloc,
        })
    }

    /// The profile.
    pub fn profile(&self) -> Profile
        ensures { result ≡ self.now.profile }
    {
        self.profile
    }

    /// The session.
    pub fn session(&self) -> &Session<GivenTable>
        ensures { result.now ≡ self.now.session }
    {
        &self.session
    }

    /// The tree of the session, without any pins. Does not allocate.
    pub fn into_tree(self) -> Tree
        ensures { result ≡ trim (record self.session.tree { pins = [] }) }
    {
        self.session.into_tree()
    }

    /// Whether the profile permits the reply to a request. If so, the session takes the step; if not, it is unchanged.
    ///
    /// # Errors
    ///
    /// `NoMemory` if memory runs out. If the profile has `flags`, or a use for the directories that are open, the
    /// session may then have changed.
    #[inline(never)]
    pub fn accept(&mut self, request: &Request, reply: &Reply) -> Result<bool, NoMemory>
        ensures allowed { IfOk result (λ ok. IsTrue ok → Permitted self.old request.now reply.now self.new) }
        ensures refused { IfOk result
            (λ ok. ok ≡ false → (end : State) → Permitted self.old request.now reply.now end → ⊥) }
        ensures kept { IfOk result (λ ok. ok ≡ false → self.new ≡ self.old) }
    {
        if reply.id != request.id {
            return Ok(false);
        }
        self.step(request, reply)
    }

    /// Whether the profile permits the answer of a reply with the id of the request, for the request that is judged in
    /// its place. If so, the session takes the step; if not, it is unchanged. The calls below say the same of parts of
    /// what is permitted.
    ///
    /// # Errors
    ///
    /// `NoMemory` if memory runs out.
    #[inline(always)]
    fn step(&mut self, request: &Request, reply: &Reply) -> Result<bool, NoMemory>
        requires { reply.now.id ≡ request.now.id }
        ensures { IfOk result (λ ok. IsStep self.old request.now.ask reply.now.answer ok self.new) }
    {
        if self.profile.keeps_requests() {
            return self.judge(request, reply);
        }
        let Some(ask) = self.replaced(&request.ask)? else {
            return self.judge(request, reply);
        };
        let put = Request {
            id: request.id,
            ask,
        };
        let permitted = self.judge(&put, reply);
        drop(put);
        permitted
    }

    /// The request that is judged in place of this one; `None` if the profile does not replace it.
    ///
    /// # Errors
    ///
    /// `NoMemory` if memory runs out.
    pub fn replaced(&self, ask: &Ask) -> Result<Option<Ask>, NoMemory>
        ensures { IfOk result (λ other. other ≡ replaced self.now.profile self.now.session ask.now) }
    {
        replaced(self.profile, &self.session, ask)
    }

    /// The request that the profile takes this one for, where it is not allowed itself; `None` if it takes it for no
    /// other.
    ///
    /// # Errors
    ///
    /// `NoMemory` if memory runs out.
    pub fn asked(&self, ask: &Ask) -> Result<Option<Ask>, NoMemory>
        ensures { IfOk result (λ other. other ≡ asked self.now.profile self.now.session ask.now) }
    {
        asked(self.profile, &self.session, ask)
    }

    /// The answer as it would be strictly, where the profile leaves a part of it free; `None` if it leaves none free.
    ///
    /// # Errors
    ///
    /// `NoMemory` if memory runs out.
    pub fn told(&self, ask: &Ask, answer: &Answer) -> Result<Option<Answer>, NoMemory>
        ensures { IfOk result
            (λ other. other ≡ told self.now.profile self.now.session ask.now answer.now) }
    {
        told(&self.session, self.profile, ask, answer)
    }

    /// Whether the profile permits this answer to an lsetstat that changes nothing: a size is refused, nothing is set,
    /// or a link is.
    ///
    /// # Errors
    ///
    /// `NoMemory` if memory runs out.
    pub fn passes_lsetstat(&self, ask: &Ask, answer: &Answer) -> Result<bool, NoMemory>
        ensures { IfOk result (λ ok. ok ≡ (self.now.profile.lsetstat
            && passes_lsetstat self.now.profile self.now.session.tree ask.now answer.now)) }
    {
        if !self.profile.lsetstat {
            return Ok(false);
        }
        passes_lsetstat(self.profile, self.session.tree(), ask, answer)
    }

    /// Whether the profile follows a request with this reply. It does not follow an extension that it does not know and
    /// that was neither refused nor at an end, which may have changed anything. With `limits` it does not follow a
    /// request that was done although nothing but the room in the tree refuses it.
    ///
    /// # Errors
    ///
    /// `NoMemory` if memory runs out.
    pub fn is_modelled(&self, request: &Request, reply: &Reply) -> Result<bool, NoMemory>
        ensures { IfOk result (λ ok. ok ≡ follows_in self.now request.now.ask reply.now.answer) }
    {
        if !is_modelled(self.alloc, self.profile, &request.ask, &reply.answer)? {
            return Ok(false);
        }
        if !self.profile.limits {
            return Ok(true);
        }
        Ok(!self.is_outgrown(&request.ask, &reply.answer)?)
    }

    /// Whether the request that is judged was done, and nothing but the room in the tree refuses it.
    ///
    /// # Errors
    ///
    /// `NoMemory` if memory runs out.
    fn is_outgrown(&self, ask: &Ask, answer: &Answer) -> Result<bool, NoMemory>
        ensures { IfOk result (λ ok. ok ≡ is_outgrown self.now.profile self.now.session
            (put self.now.profile self.now.session ask.now) answer.now) }
    {
        let Some(put) = self.replaced(ask)? else {
            return is_outgrown(&self.session, self.profile, ask, answer);
        };
        let found = is_outgrown(&self.session, self.profile, &put, answer);
        drop(put);
        found
    }

    /// Whether the profile permits the answer for the request itself.
    ///
    /// # Errors
    ///
    /// `NoMemory` if memory runs out; the session is unchanged, unless the profile has `flags`.
    #[inline(always)]
    pub(crate) fn permit(&mut self, request: &Request, reply: &Reply) -> Result<bool, NoMemory>
        requires { reply.now.id ≡ request.now.id }
        ensures ok { IfOk result (λ ok. IsPermitted self.old request.now.ask reply.now.answer ok self.new) }
        ensures err { OnErr result (self.old.profile.flags ≡ false → self.new ≡ self.old) }
    {
        if self.judge_strictly(request, reply)? {
            return Ok(true);
        }
        self.forgive(request, reply)
    }

    /// Whether the answer is allowed strictly.
    ///
    /// # Errors
    ///
    /// `NoMemory` if memory runs out; the session is unchanged.
    #[inline(always)]
    pub(crate) fn judge_strictly(
        &mut self,
        request: &Request,
        reply: &Reply,
    ) -> Result<bool, NoMemory>
        requires { reply.now.id ≡ request.now.id }
        ensures ok { IfOk result (λ ok. IsStrict self.old request.now.ask reply.now.answer ok self.new) }
        ensures err { OnErr result (self.new ≡ self.old) }
    {
        self.session.accept(request, reply)
    }

    /// Whether the profile forgives an answer.
    ///
    /// # Errors
    ///
    /// `NoMemory` if memory runs out; the session is unchanged, unless the profile has `flags`.
    fn forgive(&mut self, request: &Request, reply: &Reply) -> Result<bool, NoMemory>
        requires { reply.now.id ≡ request.now.id }
        ensures ok { IfOk result (λ ok. IsForgiven self.old request.now.ask reply.now.answer ok self.new) }
        ensures err { OnErr result (self.old.profile.flags ≡ false → self.new ≡ self.old) }
    {
        if self.forgives(&request.ask, &reply.answer)? {
            return Ok(true);
        }
        if self.retell(request, reply)? {
            return Ok(true);
        }
        self.take_for(&request.ask, reply)
    }

    /// Whether the reply is allowed for the request that the profile takes this one for. If so, and the request is an
    /// OPEN that empties a file, the file is emptied.
    ///
    /// # Errors
    ///
    /// `NoMemory` if memory runs out; the session is unchanged, unless the profile has `flags`.
    fn take_for(&mut self, ask: &Ask, reply: &Reply) -> Result<bool, NoMemory>
        ensures ok { IfOk result (λ ok. IsTakenFor self.old ask.now reply.now.answer ok self.new) }
        ensures err { OnErr result (self.old.profile.flags ≡ false → self.new ≡ self.old) }
    {
        if self.take_otherwise(ask, reply)? {
            self.follow(ask, &reply.answer)?;
            return Ok(true);
        }
        Ok(false)
    }

    /// Does the SETSTAT that comes with an OPEN, if there is one, the OPEN gave a handle, and nothing refuses it.
    ///
    /// # Errors
    ///
    /// `NoMemory` if memory runs out, which happens only if the profile has `flags`.
    fn follow(&mut self, ask: &Ask, answer: &Answer) -> Result<(), NoMemory>
        ensures ok { OnOk result (IsFollowed self.old ask.now answer.now self.new) }
        ensures flags { OnErr result (IsTrue self.old.profile.flags) }
    {
        let Some(ask) = followed(self.profile, ask)? else {
            return Ok(());
        };
        let request = Request { id: 0, ask };
        let set = self.set(&request, answer);
        drop(request);
        set
    }

    /// Does a SETSTAT, if the answer gives a handle and nothing refuses it.
    ///
    /// # Errors
    ///
    /// `NoMemory` if memory runs out.
    fn set(&mut self, request: &Request, answer: &Answer) -> Result<(), NoMemory>
        ensures { OnOk result (IsSet self.old request.now.ask answer.now self.new) }
    {
        if !is_handle(answer) {
            return Ok(());
        }
        let reply = Reply {
            id: request.id,
            answer: done(self.alloc),
        };
        let accepted = self.judge_strictly(request, &reply);
        drop(reply);
        accepted?;
        Ok(())
    }

    /// Whether the reply is allowed for the request that the profile takes this one for, but for what is free of it.
    ///
    /// # Errors
    ///
    /// `NoMemory` if memory runs out; the session is unchanged.
    fn take_otherwise(&mut self, ask: &Ask, reply: &Reply) -> Result<bool, NoMemory>
        ensures ok { IfOk result (λ ok. IsTaken self.old ask.now reply.now.answer ok self.new) }
        ensures err { OnErr result (self.new ≡ self.old) }
    {
        let Some(ask) = self.asked(ask)? else {
            return Ok(false);
        };
        let request = Request { id: reply.id, ask };
        let accepted = self.read(&request, reply);
        drop(request);
        accepted
    }

    /// Whether the answer is allowed for the request, but for what is free of it.
    ///
    /// # Errors
    ///
    /// `NoMemory` if memory runs out; the session is unchanged.
    fn read(&mut self, request: &Request, reply: &Reply) -> Result<bool, NoMemory>
        requires { reply.now.id ≡ request.now.id }
        ensures ok { IfOk result (λ ok. IsRead self.old request.now.ask reply.now.answer ok self.new) }
        ensures err { OnErr result (self.new ≡ self.old) }
    {
        if self.judge_strictly(request, reply)? {
            return Ok(true);
        }
        self.retell(request, reply)
    }

    /// Whether the answer, as it would be strictly, is allowed for the request.
    ///
    /// # Errors
    ///
    /// `NoMemory` if memory runs out; the session is unchanged.
    fn retell(&mut self, request: &Request, reply: &Reply) -> Result<bool, NoMemory>
        ensures ok { IfOk result (λ ok. IsRetold self.old request.now.ask reply.now.answer ok self.new) }
        ensures err { OnErr result (self.new ≡ self.old) }
    {
        let Some(answer) = told(&self.session, self.profile, &request.ask, &reply.answer)? else {
            return Ok(false);
        };
        let mended = Reply {
            id: request.id,
            answer,
        };
        let accepted = self.judge_strictly(request, &mended);
        drop(mended);
        accepted
    }

    /// Whether the profile lets an answer pass after which the session is unchanged.
    ///
    /// # Errors
    ///
    /// `NoMemory` if memory runs out.
    #[tactic(auto, unfolding(crate::specs::Departures::is_forgiven))]
    fn forgives(&self, ask: &Ask, answer: &Answer) -> Result<bool, NoMemory>
        ensures { IfOk result
            (λ ok. ok ≡ is_forgiven self.now.profile self.now.session ask.now answer.now) }
    {
        if passes_alone(self.profile, ask, answer) {
            return Ok(true);
        }
        self.passes_in(ask, answer)
    }

    /// Whether the profile lets an answer pass in this session, though not in every one.
    ///
    /// # Errors
    ///
    /// `NoMemory` if memory runs out.
    fn passes_in(&self, ask: &Ask, answer: &Answer) -> Result<bool, NoMemory>
        ensures { IfOk result (λ ok. ok ≡ passes_in self.now.profile self.now.session ask.now answer.now) }
    {
        if self.profile.codes && self.passes_codes(ask, answer)? {
            return Ok(true);
        }
        if self.profile.dots && self.passes_dots(ask, answer)? {
            return Ok(true);
        }
        if passes_looking(&self.session, self.profile, ask, answer)? {
            return Ok(true);
        }
        passes_fields(&self.session, self.profile, ask, answer)
    }

    /// Whether READDIR is not refused, and gives `.` and `..` alone.
    ///
    /// # Errors
    ///
    /// `NoMemory` if memory runs out.
    fn passes_dots(&self, ask: &Ask, answer: &Answer) -> Result<bool, NoMemory>
        ensures { IfOk result (λ ok. ok ≡ passes_dots self.now.session ask.now answer.now) }
    {
        if !is_readdir(ask) || !are_dots(answer) {
            return Ok(false);
        }
        let causes = self.session.causes(ask)?;
        Ok(!causes.has_any())
    }

    /// Whether some cause refuses the request, and so does the answer, with whichever code.
    ///
    /// # Errors
    ///
    /// `NoMemory` if memory runs out.
    fn passes_codes(&self, ask: &Ask, answer: &Answer) -> Result<bool, NoMemory>
        ensures { IfOk result (λ ok. ok ≡ passes_codes self.now.session ask.now answer.now) }
    {
        if !is_refusal(answer) {
            return Ok(false);
        }
        let causes = self.session.causes(ask)?;
        Ok(causes.has_any())
    }
}
