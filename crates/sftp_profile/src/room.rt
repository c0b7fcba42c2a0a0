//! Requests that a server did although the tree cannot hold what they ask for.
ghost use Rattle.std.specs.Prelude.{◌≡◌, IfOk};
ghost use Rattle.sftp_treefile.specs.TreeFile.{is_target};
ghost use Rattle.sftp_tree.specs.Told.{in_set};
ghost use Rattle.sftp_profile.specs.Room as spec;

use crate::interpretations::asked;
use crate::profiles::Profile;
use crate::refusals::{has_code, is_handle};
use sftp_handles::{GivenTable, Session};
use sftp_path::good_path;
use sftp_tree::{Cause, Causes, EVERY_CAUSE, NoMemory};
use sftp_wire::status::OK;
use sftp_wire::{Answer, Ask};

/// Whether a request was done, and nothing but the room in the tree refuses it: as it stands, or as the profile takes
/// it.
///
/// # Errors
///
/// `NoMemory` if memory runs out.
#[tactic(auto, unfolding(crate::specs::Room::is_outgrown))]
pub(crate) fn is_outgrown(
    session: &Session<GivenTable>,
    profile: Profile,
    ask: &Ask,
    answer: &Answer,
) -> Result<bool, NoMemory>
    ensures { IfOk result (λ ok. ok ≡ spec.is_outgrown profile session.now ask.now answer.now) }
{
    if outgrows(session, ask, answer)? {
        return Ok(true);
    }
    let Some(ask) = asked(profile, session, ask)? else {
        return Ok(false);
    };
    let is_outgrown = outgrows(session, &ask, answer);
    drop(ask);
    is_outgrown
}

/// Whether a request was done, and nothing but the room in the tree refuses it.
///
/// # Errors
///
/// `NoMemory` if memory runs out.
fn outgrows(session: &Session<GivenTable>, ask: &Ask, answer: &Answer) -> Result<bool, NoMemory>
    ensures { IfOk result (λ ok. ok ≡ spec.outgrows session.now ask.now answer.now) }
{
    if !is_done(ask, answer) {
        return Ok(false);
    }
    let causes = session.causes(ask)?;
    Ok(lacks_room(&causes, ask))
}

/// Whether a request that changes something was done.
fn is_done(ask: &Ask, answer: &Answer) -> bool
    ensures { result ≡ spec.is_done ask.now answer.now }
{
    match ask {
        Ask::Open { .. } => is_handle(answer),
        Ask::Opendir { .. } => is_handle(answer),
        _ => has_code(answer, OK),
    }
}

/// Whether some cause holds, and none that says more than that the tree cannot hold what is asked for.
fn lacks_room(causes: &Causes, ask: &Ask) -> bool
    ensures { result ≡ spec.lacks_room (in_set causes.now) ask.now }
{
    causes.has_any() && are_of_room(causes, ask)
}

/// Whether each cause that holds says no more than that the tree cannot hold what is asked for.
fn are_of_room(causes: &Causes, ask: &Ask) -> bool
    ensures { result ≡ spec.are_of_room (in_set causes.now) ask.now }
{
    EVERY_CAUSE
        .iter()
        .all(|cause| !causes.holds(*cause) || is_of_room(ask, *cause))
}

/// Whether a cause says no more than that the tree cannot hold what is asked for.
fn is_of_room(ask: &Ask, cause: Cause) -> bool
    ensures { result ≡ spec.is_of_room ask.now cause }
{
    match cause {
        Cause::NoRoom => true,
        Cause::BadPath => has_bad_target(ask),
        _ => false,
    }
}

/// Whether the request is a SYMLINK with a bad target and a good path of its own.
fn has_bad_target(ask: &Ask) -> bool
    ensures { result ≡ spec.has_bad_target ask.now }
{
    match ask {
        Ask::Symlink {
            targetpath,
            linkpath,
        } => good_path(linkpath.as_slice()) && !is_target(targetpath.as_slice()),
        _ => false,
    }
}

/// Whether a link may have the target: a good path that is not empty.
fn is_target(target: &[u8]) -> bool
    ensures { result ≡ is_target target.now }
{
    !target.is_empty() && good_path(target)
}
