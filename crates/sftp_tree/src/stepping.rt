//! One step of a walk (draft, section 6.2).
ghost use Rattle.std.specs.Prelude.{◌≡◌, IfOk, OnOk, IsTrue};
ghost use Rattle.sftp_path.specs.Place.{is_step};
ghost use Rattle.sftp_tree.specs.Walk as walks;
ghost use Rattle.sftp_tree.specs.Stepping.{meeting, StaysAtLink, LendsEnd};

use crate::causes::Cause;
use crate::entries::seen::Seen;
use crate::entries::trail::Trail;
use sftp_path::{Name, NoMemory, is_dot, is_dot_dot};

/// What a walk meets at a component. If the walk continues, it has moved; otherwise it has not.
#[derive(Drop)]
pub(crate) enum Met<'a> {
    /// It continues.
    Enters,
    /// It ends at this name of the directory that it has reached, which has this there, or nothing yet.
    Ends(Name, Option<Seen<'a>>),
    /// It leads nowhere.
    Fails(Cause),
    /// It continues with this target.
    Through(&'a [u8]),
}

/// Takes one component, with one look-up at most.
///
/// # Errors
///
/// `NoMemory` if memory runs out.
// Slow to prove: the name is dropped at each of seven exits.
#[tactic(auto, unfolding(crate::specs::Walk::meets))]
pub(crate) fn meet<'a>(
    trail: &mut Trail<'a>,
    component: &[u8],
    is_last: bool,
    follow: bool,
) -> Result<Met<'a>, NoMemory>
    requires { IsTrue (is_step component.now) }
    ensures names { OnOk result (trail.new.names ≡ trail.old.names) }
    ensures meets { IfOk result
        (λ met. walks.meets trail.old.names follow trail.old.at component.now is_last ≡ meeting met trail.new.at) }
    ensures stays { IfOk result (λ met. StaysAtLink met trail.old.at trail.new.at) }
    ensures lends { IfOk result (λ met. LendsEnd trail.old.names met trail.new.at) }
{
    if is_dot(component) {
        return Ok(Met::Enters);
    }
    if is_dot_dot(component) {
        trail.leave();
        return Ok(Met::Enters);
    }
    let name = Name::from_component(trail.allocator(), component)?;
    match trail.find(&name) {
        Some(Seen::Dir(_, dir)) => {
            trail.enter(name, dir)?;
            Ok(Met::Enters)
        }
        Some(Seen::Link(target)) if follow || !is_last => Ok(Met::Through(target)),
        Some(Seen::File(_)) if !is_last => Ok(Met::Fails(Cause::NotDir)),
        None if !is_last => Ok(Met::Fails(Cause::NoEntry)),
        found => Ok(Met::Ends(name, found)),
    }
}
