//! Why a reply is not allowed, and what is.
use crate::explaining::Explanation;
use crate::explaining::unexplained::Unexplained;
use crate::newcomers::{Newcomer, find_newcomer};
use crate::readings::{
    content_of, content_of_removed, status_of_set, taken_for, undue, wrong_piece,
};
use sftp_audit::Auditor;
use sftp_path::good_path;
use sftp_profile::{Judge, Profile};
use sftp_show::{Quoted, Record, explain_causes, explain_reply};
use sftp_tree::{Cause, Causes, NoMemory};
use sftp_wire::{Answer, Ask, Side};
use std::fs::Files;
use std::io::Write;

impl<R: Files + AllocGlobal, E: Write> Explanation<'_, '_, '_, R, E> {
    /// The request, its reply, why that is not allowed, and what is.
    pub(super) fn put_wrong_reply(&mut self, reply: &Record) -> bool {
        match self.earlier(Side::Client, reply) {
            Some(number) => self.put_exchange_of(number, reply),
            None => self.stop(Unexplained::OtherTranscript),
        }
    }

    /// The request that is the record with this number, and its reply.
    fn put_exchange_of(&mut self, number: u64, reply: &Record) -> bool {
        let found = self.found(number);
        let put = self.put_exchange(&found, reply);
        drop(found);
        put
    }

    /// The request, if it was found, and its reply.
    fn put_exchange(&mut self, found: &Option<Record>, reply: &Record) -> bool {
        self.put_found("request", found)
            && self.put_line("reply", reply)
            && self.put_judgement(ask_of(found), reply.answer())
    }

    /// Why the answer to a request is not allowed, if they are a request and an answer.
    fn put_judgement(&mut self, ask: Option<&Ask>, answer: Option<&Answer>) -> bool {
        match (ask, answer) {
            (Some(ask), Some(answer)) => self.put_causes(ask, answer),
            _ => self.stop(Unexplained::OtherTranscript),
        }
    }

    /// Why the session does not allow an answer, and what it allows.
    fn put_causes(&mut self, ask: &Ask, answer: &Answer) -> bool {
        match self.new_auditor(self.profile()) {
            Ok(mut auditor) => {
                let put = self.put_causes_by(&mut auditor, ask, answer);
                drop(auditor);
                put
            }
            Err(reason) => self.stop(reason),
        }
    }

    /// Feeds the session to an auditor that has seen nothing of it, and writes why it does not allow an answer. The
    /// auditor's session is then the one in which the wrong reply came.
    fn put_causes_by(&mut self, auditor: &mut Auditor<Judge>, ask: &Ask, answer: &Answer) -> bool {
        match self.fed(auditor) {
            Some(_) => {
                self.put_allowed(auditor, ask, answer)
                    && (auditor.follows() || self.put_unmodelled(ask))
            }
            None => self.stop(Unexplained::OtherTranscript),
        }
    }

    /// What the auditor's session allows in place of an answer to the request that the profile judges.
    fn put_allowed(&mut self, auditor: &Auditor<Judge>, ask: &Ask, answer: &Answer) -> bool {
        match auditor.judge().replaced(ask) {
            Ok(other) => {
                let put = self.put_taken(auditor, found_or(&other, ask), answer);
                drop(other);
                put
            }
            Err(_) => self.stop(Unexplained::OutOfMemory),
        }
    }

    /// What it allows in place of an answer to the request that the profile takes this one for.
    fn put_taken(&mut self, auditor: &Auditor<Judge>, ask: &Ask, answer: &Answer) -> bool {
        if auditor.judge().is_barred(ask) {
            return self.put_barred();
        }
        match taken_for(auditor.judge(), ask, answer) {
            Ok(other) => {
                let put = self.put_told(auditor, found_or(&other, ask), answer);
                drop(other);
                put
            }
            Err(_) => self.stop(Unexplained::OutOfMemory),
        }
    }

    /// READDIR through the handle of OPEN, which the session itself takes for that of OPENDIR.
    fn put_barred(&mut self) -> bool {
        let causes = Causes::none().when(Cause::WrongKind, true);
        match explain_causes(causes, self.errors) {
            Ok(()) => !self.profile().codes || self.put_codes(),
            Err(error) => self.stop(Unexplained::from(error)),
        }
    }

    /// What it allows in place of an answer, but for what the profile leaves free of that.
    fn put_told(&mut self, auditor: &Auditor<Judge>, ask: &Ask, answer: &Answer) -> bool {
        match auditor.judge().told(ask, answer) {
            Ok(told) => {
                let put = self.put_undue(auditor, ask, found_or(&told, answer));
                drop(told);
                put
            }
            Err(_) => self.stop(Unexplained::OutOfMemory),
        }
    }

    /// What it allows in place of an answer, but for the names that a listing may give.
    fn put_undue(&mut self, auditor: &Auditor<Judge>, ask: &Ask, answer: &Answer) -> bool {
        match undue(self.refused.rt.alloc(), auditor.judge(), ask, answer) {
            Ok(Some(undue)) => {
                let put = self.put_wrong_names(auditor, ask, &undue);
                drop(undue);
                put
            }
            Ok(None) => self.put_piece(auditor, ask, answer),
            Err(_) => self.stop(Unexplained::OutOfMemory),
        }
    }

    /// What it allows in place of names that the listing may not give: where the first came since OPENDIR and may be
    /// given, what LSTAT shows of it.
    fn put_wrong_names(&mut self, auditor: &Auditor<Judge>, ask: &Ask, undue: &Answer) -> bool {
        match find_newcomer(self.refused.rt.alloc(), auditor.judge(), ask, undue) {
            Ok(Some(newcomer)) => {
                let put = self.put_newcomer(auditor, &newcomer);
                drop(newcomer);
                put
            }
            Ok(None) => self.put_strict(auditor, ask, undue),
            Err(_) => self.stop(Unexplained::OutOfMemory),
        }
    }

    /// A name that came since OPENDIR, and what LSTAT shows of it in place of what the listing gives.
    fn put_newcomer(&mut self, auditor: &Auditor<Judge>, newcomer: &Newcomer) -> bool {
        let name = Quoted(newcomer.name.as_slice());
        let written = writeln!(self.errors, "name: {name}, which came after OPENDIR");
        self.is_written(written) && self.put_strict(auditor, &newcomer.ask, &newcomer.answer)
    }

    /// What it allows in place of an answer, but for the bytes beyond the limit of one READ that the profile permits:
    /// where they are wrong, what it allows for the READ of those alone.
    fn put_piece(&mut self, auditor: &Auditor<Judge>, ask: &Ask, answer: &Answer) -> bool {
        match wrong_piece(self.refused.rt.alloc(), auditor.judge(), ask, answer) {
            Ok(Some(piece)) => {
                let put = self.put_strict(auditor, &piece.ask, &piece.answer);
                drop(piece);
                put
            }
            Ok(None) => self.put_strict(auditor, ask, answer),
            Err(_) => self.stop(Unexplained::OutOfMemory),
        }
    }

    /// What the session allows strictly in place of an answer, and with which other codes the profile lets it be
    /// refused.
    fn put_strict(&mut self, auditor: &Auditor<Judge>, ask: &Ask, answer: &Answer) -> bool {
        let session = auditor.judge().session();
        match explain_reply(self.refused.rt.alloc(), session, ask, answer, self.errors) {
            Ok(()) => self.put_other_codes(auditor, ask) && self.put_further(auditor, ask),
            Err(error) => self.stop(Unexplained::from(error)),
        }
    }

    /// With which other codes a request may be refused that a cause refuses, if the profile has `codes`.
    fn put_other_codes(&mut self, auditor: &Auditor<Judge>, ask: &Ask) -> bool {
        if !self.profile().codes {
            return true;
        }
        match auditor.judge().session().causes(ask) {
            Ok(causes) => !causes.has_any() || self.put_codes(),
            Err(_) => self.stop(Unexplained::OutOfMemory),
        }
    }

    fn put_codes(&mut self) -> bool {
        self.put_text("also by codes", "STATUS with code 2, 3, 4, 5 or 8")
    }

    /// What the profile permits besides, where the session itself refuses the request.
    fn put_further(&mut self, auditor: &Auditor<Judge>, ask: &Ask) -> bool {
        self.put_if_known("also by open-dir", content_of_removed(auditor.judge(), ask))
            && self.put_if_known("also by lsetstat", status_of_set(auditor.judge(), ask))
            && self.put_any("also by extensions", content_of(self.profile(), ask))
    }

    /// What a departure permits besides, if it does and memory did not run out.
    fn put_if_known(
        &mut self,
        label: &str,
        content: Result<Option<&'static str>, NoMemory>,
    ) -> bool {
        match content {
            Ok(content) => self.put_any(label, content),
            Err(_) => self.stop(Unexplained::OutOfMemory),
        }
    }

    /// A line of text, if there is one.
    fn put_any(&mut self, label: &str, text: Option<&str>) -> bool {
        match text {
            Some(text) => self.put_text(label, text),
            None => true,
        }
    }

    /// What of a request the profile does not follow: an extension that it does not know, or what the tree cannot
    /// hold.
    fn put_unmodelled(&mut self, ask: &Ask) -> bool {
        match ask {
            Ask::Unknown { name, .. } => self.put_extension(name.as_slice()),
            other => self.put_text("not modelled", lack(self.profile(), other)),
        }
    }

    fn put_extension(&mut self, name: &[u8]) -> bool {
        let name = Quoted(name);
        let written = writeln!(self.errors, "not modelled: extension {name}");
        self.is_written(written)
    }
}

/// What was found, or another one.
fn found_or<'s, T>(found: &'s Option<T>, other: &'s T) -> &'s T {
    match found {
        Some(found) => found,
        None => other,
    }
}

/// What the request found asks for.
fn ask_of(found: &Option<Record>) -> Option<&Ask> {
    match found {
        Some(found) => found.ask(),
        None => None,
    }
}

/// What the tree lacks for a request: the target of the link that it makes is a bad path, or there is no room.
fn lack(profile: Profile, ask: &Ask) -> &'static str {
    match target_of(profile, ask) {
        Some(target) if target.is_empty() || !good_path(target) =>
            "the tree cannot hold the link's target",
        _ => "the tree has no room for it",
    }
}

/// The target of the link that a request makes, by the order of its paths in the profile.
fn target_of(profile: Profile, ask: &Ask) -> Option<&[u8]> {
    match ask {
        Ask::Symlink { linkpath, .. } if profile.symlink_draft => Some(linkpath.as_slice()),
        Ask::Symlink { targetpath, .. } => Some(targetpath.as_slice()),
        _ => None,
    }
}
