//! A judge and the directories that are open.
ghost use Rattle.std.specs.Prelude.{◌≡◌, ◌==◌, length, IfOk, OnOk, unwrap_or};
ghost use Rattle.std.specs.Option.{option_map};
ghost use Rattle.sftp_packets.specs.declared.replies.Answer.TheVariants as replies;
ghost use Rattle.sftp_profile.specs.Profiles.{is_stateless};
ghost use Rattle.sftp_profile.specs.Notes.{note_of, noted};
ghost use Rattle.sftp_profile.specs.Permitted.{standing_for};
ghost use Rattle.sftp_profile.specs.Replaced.{put};
ghost use Rattle.sftp_profile.specs.StrictAnswers.{told};
ghost use Rattle.sftp_profile.specs.DirectoryHandles as handles;
ghost use Rattle.sftp_profile.specs.DirectoryHandles.{due_items};
ghost use Rattle.sftp_profile.specs.Permitted.{IsStrict, IsJudged, IsNoted, IsMet, IsByDirectory, IsStanding, IsListed};
ghost use Rattle.sftp_profile.specs.Permitted.{IsGiven};

use crate::directory_handles::{
    directory_of, is_barred, passes_directory, refuses_kind, stands_for,
};
use crate::judges::Judge;
use crate::listed::due_items;
use crate::notes::{Note, note_of, put_note};
use crate::replaced::put;
use crate::strict_answers::told;
use sftp_tree::NoMemory;
use sftp_wire::{Answer, Ask, NameItem, Names, Reply, Request};

impl Judge {
    /// Whether the answer to the request itself is permitted, with what is noted of directories.
    ///
    /// # Errors
    ///
    /// `NoMemory` if memory runs out.
    #[inline(always)]
    pub(crate) fn judge(&mut self, request: &Request, reply: &Reply) -> Result<bool, NoMemory>
        requires { reply.now.id ≡ request.now.id }
        ensures { IfOk result (λ ok. IsJudged self.old request.now.ask reply.now.answer ok self.new) }
    {
        if self.is_stateless() {
            return self.permit(request, reply);
        }
        let there = self.note_of(&request.ask, &reply.answer)?;
        self.judge_and_note(request, reply, there)
    }

    /// Whether the profile has no use for the directories that are open.
    fn is_stateless(&self) -> bool
        ensures { result ≡ is_stateless self.now.profile }
    {
        self.profile.is_stateless()
    }

    /// What there is to note of a request with this answer.
    ///
    /// # Errors
    ///
    /// `NoMemory` if memory runs out.
    fn note_of(&self, ask: &Ask, answer: &Answer) -> Result<Note, NoMemory>
        ensures { IfOk result (λ note. note ≡ note_of self.now.session.tree ask.now answer.now) }
    {
        note_of(self.session.tree(), ask, answer)
    }

    /// Takes a note of what happened to directories.
    ///
    /// # Errors
    ///
    /// `NoMemory` if memory runs out.
    fn take_note(&mut self, there: Note, answer: &Answer) -> Result<(), NoMemory>
        ensures { OnOk result
            (self.new ≡ record self.old { directories = noted self.old.directories there answer.now }) }
    {
        put_note(&mut self.directories, self.alloc, there, answer)
    }

    /// Whether the answer to the request itself is permitted. If so, this is noted.
    ///
    /// # Errors
    ///
    /// `NoMemory` if memory runs out.
    fn judge_and_note(
        &mut self,
        request: &Request,
        reply: &Reply,
        there: Note,
    ) -> Result<bool, NoMemory>
        requires { reply.now.id ≡ request.now.id }
        ensures { IfOk result (λ ok. IsNoted self.old request.now.ask reply.now.answer there ok self.new) }
    {
        match self.meet(request, reply) {
            Ok(true) => {
                self.take_note(there, &reply.answer)?;
                Ok(true)
            }
            Ok(false) => {
                drop(there);
                Ok(false)
            }
            Err(error) => {
                drop(there);
                Err(error)
            }
        }
    }

    /// Whether the answer to a request is permitted, on a directory that is open or on anything else.
    ///
    /// # Errors
    ///
    /// `NoMemory` if memory runs out.
    fn meet(&mut self, request: &Request, reply: &Reply) -> Result<bool, NoMemory>
        requires { reply.now.id ≡ request.now.id }
        ensures { IfOk result (λ ok. IsMet self.old request.now.ask reply.now.answer ok self.new) }
    {
        if self.is_barred(&request.ask) {
            return Ok(self.refuses_kind(&reply.answer));
        }
        if self.permit(request, reply)? {
            return Ok(true);
        }
        self.judge_directory(request, reply)
    }

    /// Whether the request is READDIR through the handle of OPEN, which has to be refused.
    pub fn is_barred(&self, ask: &Ask) -> bool
        ensures { result ≡ handles.is_barred (handles.directory_of self.now.directories ask.now) ask.now }
    {
        is_barred(directory_of(self.directories.as_slice(), ask), ask)
    }

    /// Whether an answer refuses READDIR through the handle of OPEN.
    fn refuses_kind(&self, answer: &Answer) -> bool
        ensures { result ≡ handles.refuses_kind self.now.profile answer.now }
    {
        refuses_kind(self.profile, answer)
    }

    /// Whether the profile has `open-dir`.
    fn opens_directories(&self) -> bool
        ensures { result ≡ self.now.profile.open_dir }
    {
        self.profile.open_dir
    }

    /// Whether the profile has `listing`.
    fn lists_changes(&self) -> bool
        ensures { result ≡ self.now.profile.listing }
    {
        self.profile.listing
    }

    /// Whether an answer is forgiven since it is that of a directory.
    ///
    /// # Errors
    ///
    /// `NoMemory` if memory runs out.
    fn judge_directory(&mut self, request: &Request, reply: &Reply) -> Result<bool, NoMemory>
        requires { reply.now.id ≡ request.now.id }
        ensures { IfOk result (λ ok. IsByDirectory self.old request.now.ask reply.now.answer ok self.new) }
    {
        if self.passes_directory(&request.ask, &reply.answer) {
            return Ok(true);
        }
        if self.take_standing(&request.ask, reply)? {
            return Ok(true);
        }
        self.take_listed(request, reply)
    }

    /// Whether an answer passes that leaves the session unchanged.
    fn passes_directory(&self, ask: &Ask, answer: &Answer) -> bool
        ensures { result ≡ handles.passes_directory self.now.profile
            (handles.directory_of self.now.directories ask.now) ask.now answer.now }
    {
        let found = directory_of(self.directories.as_slice(), ask);
        passes_directory(self.profile, found, ask, answer)
    }

    /// Whether the reply is permitted for the request that is judged in place of one on a directory.
    ///
    /// # Errors
    ///
    /// `NoMemory` if memory runs out.
    fn take_standing(&mut self, ask: &Ask, reply: &Reply) -> Result<bool, NoMemory>
        ensures { IfOk result (λ ok. IsStanding self.old ask.now reply.now.answer ok self.new) }
    {
        if !self.opens_directories() {
            return Ok(false);
        }
        let Some(ask) = self.standing(ask, &reply.answer)? else {
            return Ok(false);
        };
        let request = Request { id: reply.id, ask };
        let permitted = self.permit(&request, reply);
        drop(request);
        permitted
    }

    /// The request that `open-dir` judges in place of one on a directory; `None` if there is none, or the answer
    /// refuses it.
    ///
    /// # Errors
    ///
    /// `NoMemory` if memory runs out.
    pub fn standing(&self, ask: &Ask, answer: &Answer) -> Result<Option<Ask>, NoMemory>
        ensures { IfOk result (λ other. other ≡ standing_for self.now.profile self.now.session
            (handles.directory_of self.now.directories ask.now) ask.now answer.now) }
    {
        let Some(ask) = self.stands_for(ask, answer)? else {
            return Ok(None);
        };
        let other = self.put(ask)?;
        Ok(Some(other))
    }

    /// The request that is judged in place of this one.
    ///
    /// # Errors
    ///
    /// `NoMemory` if memory runs out.
    fn put(&self, ask: Ask) -> Result<Ask, NoMemory>
        ensures { IfOk result (λ other. other ≡ put self.now.profile self.now.session ask) }
    {
        put(self.profile, &self.session, ask)
    }

    /// The request that stands for one on a directory.
    ///
    /// # Errors
    ///
    /// `NoMemory` if memory runs out.
    fn stands_for(&self, ask: &Ask, answer: &Answer) -> Result<Option<Ask>, NoMemory>
        ensures { IfOk result (λ other. other ≡ handles.stands_for self.now.profile
            (handles.directory_of self.now.directories ask.now) ask.now answer.now) }
    {
        let found = directory_of(self.directories.as_slice(), ask);
        stands_for(self.alloc, self.profile, found, ask, answer)
    }

    /// Whether the names of a reply to READDIR may be given.
    ///
    /// # Errors
    ///
    /// `NoMemory` if memory runs out.
    fn take_listed(&mut self, request: &Request, reply: &Reply) -> Result<bool, NoMemory>
        requires { reply.now.id ≡ request.now.id }
        ensures { IfOk result (λ ok. IsListed self.old request.now.ask reply.now.answer ok self.new) }
    {
        if !self.lists_changes() {
            return Ok(false);
        }
        let Some(items) = self.due(&request.ask, &reply.answer)? else {
            return Ok(false);
        };
        self.give(request, items)
    }

    /// Whether a READDIR may give names, by those of them that were left.
    ///
    /// # Errors
    ///
    /// `NoMemory` if memory runs out.
    fn give(&mut self, request: &Request, items: Vec<NameItem>) -> Result<bool, NoMemory>
        ensures { IfOk result (λ ok. IsGiven self.old request.now.ask items.items ok self.new) }
    {
        if are_none(items.as_slice()) {
            return Ok(true);
        }
        self.give_some(request, items)
    }

    /// Whether the session allows a READDIR to give these names.
    ///
    /// # Errors
    ///
    /// `NoMemory` if memory runs out.
    fn give_some(&mut self, request: &Request, items: Vec<NameItem>) -> Result<bool, NoMemory>
        ensures { IfOk result (λ ok. IsStrict self.old request.now.ask (replies.Name items.items) ok self.new) }
    {
        let given = Reply {
            id: request.id,
            answer: Answer::Name(Names::new(items)),
        };
        let allowed = self.judge_strictly(request, &given);
        drop(given);
        allowed
    }

    /// The names that were left, of those that an answer to READDIR gives, if all of them may be given.
    ///
    /// # Errors
    ///
    /// `NoMemory` if memory runs out.
    pub fn due(&self, ask: &Ask, answer: &Answer) -> Result<Option<Vec<NameItem>>, NoMemory>
        ensures { IfOk result (λ due. option_map (λ v. v.items) due ≡ due_items self.now.profile self.now.session
            (handles.directory_of self.now.directories ask.now) ask.now
            (unwrap_or (told self.now.profile self.now.session ask.now answer.now) answer.now)) }
    {
        match told(&self.session, self.profile, ask, answer)? {
            Some(answer) => {
                let due = self.due_as(ask, &answer);
                drop(answer);
                due
            }
            None => self.due_as(ask, answer),
        }
    }

    /// The same of an answer as it would be strictly.
    ///
    /// # Errors
    ///
    /// `NoMemory` if memory runs out.
    fn due_as(&self, ask: &Ask, answer: &Answer) -> Result<Option<Vec<NameItem>>, NoMemory>
        ensures { IfOk result (λ due. option_map (λ v. v.items) due ≡ due_items self.now.profile self.now.session
            (handles.directory_of self.now.directories ask.now) ask.now answer.now) }
    {
        let found = directory_of(self.directories.as_slice(), ask);
        due_items(self.alloc, self.profile, &self.session, found, ask, answer)
    }
}

/// Whether there are no items.
fn are_none(items: &[NameItem]) -> bool
    ensures { result ≡ (length items.now == 0) }
{
    items.is_empty()
}
