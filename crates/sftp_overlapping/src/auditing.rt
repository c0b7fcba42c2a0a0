//! `audit --together`: the files are opened, and what is said of them.
ghost use Rattle.std.specs.Prelude.{◌≡◌, IfOk, IfErr};
ghost use Rattle.sftp_tree.specs.Picture.{picture};
ghost use Rattle.sftp_files.specs.declared.messages.Ending.TheVariants as endings;
ghost use Rattle.sftp_files.specs.Failures.{IsUnwritten};
ghost use Rattle.sftp_verdicts.specs.Files.{Becomes};
ghost use Rattle.sftp_verdicts.specs.Verdicts.{IsAuditStatus};
ghost use Rattle.sftp_gathering.specs.Files.{SetFiles};
ghost use Rattle.sftp_overlapping.specs.Sets.{AreFiles, IsReportOf, IsSaidAsked, IsStoredEnd};

use crate::asked::TogetherOptions;
use crate::judging::{Accepted, Rules, judge_files};
use crate::members::{Given, Member};
use crate::pairing::{given, members_of};
use crate::rejections::Rejection;
use crate::reports::{say_accepted, say_refused};
use sftp_commands::is_lost;
use sftp_files::{Ending, Failure, System};
use sftp_verdicts::{Opens, StoredFile, Stores, asked_profile};
use std::alloc::Global;
use std::fs::Files;
use std::io::Write;

/// Why no tree is written.
const FILE_LOST: &str = "the tree would be written into a file of '--together' or '--order'";

/// Why a set needs files.
const NO_FILES: &str = "'--together' needs NAME.transcript and NAME.times of each session";

/// Audits sessions that overlapped, together.
///
/// # Errors
///
/// `Usage` if the options cannot be meant so, such as a final tree in a file of a session; a malformed file; and a file
/// or a stream that cannot be read or written, or memory that ran out.
#[tactic(auto, using(crate::proofs::Saying::failed_status))]
pub fn audit_together<'a, R: System, O: Write>(
    rt: &R,
    options: &TogetherOptions<'a>,
    output: &mut O,
) -> Result<Ending, Failure<'a>>
    ensures { IsAuditStatus result }
{
    if options.files.is_empty() {
        return Err(Failure::of_misuse(rt.alloc(), NO_FILES));
    }
    if is_lost_by(rt, options) {
        return Err(Failure::of_misuse(rt.alloc(), FILE_LOST));
    }
    let rules = Rules {
        profile: asked_profile(rt.alloc(), options.profile, options.umask)?,
        tolerance: options.nanoseconds(),
    };
    let members = members_of(rt, options.files.as_slice())?;
    let tree = given(rt, options.tree);
    let order = given(rt, options.order);
    let mut out = StoredFile::new(rt, options.out, options.keeping);
    let ending = audit_files(
        rt.alloc(),
        rules,
        options.is_json,
        &tree,
        &order,
        members.as_slice(),
        &mut out,
        output,
    );
    drop(out);
    drop(order);
    drop(tree);
    drop(members);
    ending
}

/// Whether the final tree would be written into a file that is read.
fn is_lost_by<R: Files>(rt: &R, options: &TogetherOptions<'_>) -> bool {
    for path in &options.files {
        if is_lost(rt, options.out, Some(path)) {
            return true;
        }
    }
    is_lost(rt, options.out, Some(options.order))
}

/// Audits a set of sessions, of which these are the files.
fn audit_files<'a, T: Opens<'a>, K: Stores<'a>, O: Write>(
    alloc: Global,
    rules: Rules,
    is_json: bool,
    tree: &Given<'a, T>,
    order: &Given<'a, T>,
    members: &[Member<'a, T>],
    out: &mut K,
    output: &mut O,
) -> Result<Ending, Failure<'a>>
    // What is said of the set is the verdict on these bytes, and what is stored is the tree at its end.
    ensures verdict { (files : SetFiles) → AreFiles T.bytes tree.now.file order.now.file members.now files →
        IsSaidAsked rules.profile rules.tolerance (IsStoredEnd (K.stored out.old) (K.stored out.new)) files result }
    ensures status { IsAuditStatus result }
{
    match judge_files(alloc, rules, tree, order, members) {
        Ok(accepted) => {
            let ending = accept(&accepted, members.len(), is_json, out, output);
            drop(accepted);
            ending
        }
        Err(rejection) => reject(rejection, members, is_json, output),
    }
}

/// Says that a set is refused, if it is.
fn reject<'a, T, O: Write>(
    rejection: Rejection<'a>,
    members: &[Member<'a, T>],
    is_json: bool,
    output: &mut O,
) -> Result<Ending, Failure<'a>>
    ensures { IsReportOf rejection.entry result }
{
    match rejection {
        Rejection::Refused(cause) => say_refused(cause, members, is_json, output),
        Rejection::Failed(failure) => Err(failure),
    }
}

/// Stores the tree at the end, and then says that the set is accepted.
fn accept<'a, K: Stores<'a>, O: Write>(
    accepted: &Accepted,
    sessions: usize,
    is_json: bool,
    out: &mut K,
    output: &mut O,
) -> Result<Ending, Failure<'a>>
    ensures ok { IfOk result (λ ending. (ending ≡ endings.Done)
        × Becomes (K.stored out.old) (K.stored out.new) (picture accepted.now.tree)) }
    ensures err { IfErr result IsUnwritten }
{
    out.store_tree(&accepted.tree)?;
    say_accepted(accepted.requests, sessions, is_json, output)
}
