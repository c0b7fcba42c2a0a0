//! Laws of profiles, as theorems on the definitions that the contracts name. The functions do nothing; each promise is
//! in the contract.
ghost use Rattle.std.specs.Prelude.{◌≡◌, ◌↔◌, Some, map, IsTrue};
ghost use Rattle.sftp_packets.specs.declared.packets.Request.{Request};
ghost use Rattle.sftp_packets.specs.declared.packets.Reply.{Reply};
ghost use Rattle.sftp_handles.specs.State as sessions;
ghost use Rattle.sftp_handles.specs.Allowed.{Allowed};
ghost use Rattle.sftp_profile.specs.declared.names.Departure.{Departure};
ghost use Rattle.sftp_profile.specs.declared.profiles.Profile.{Profile};
ghost use Rattle.sftp_profile.specs.Profiles.{name_of, every_departure, departure_of};
ghost use Rattle.sftp_profile.specs.Profiles.{strict, keeps_requests, is_stateless};
ghost use Rattle.sftp_profile.specs.State.{State, bare};
ghost use Rattle.sftp_profile.specs.Permitted.{Permitted};

use crate::names::NAMES;

/// Under the strict profile exactly those replies are permitted that the session allows, with the same state after
/// them.
pub fn strict_is_allowed()
    ensures { (s : sessions.State) (request : Request) (reply : Reply) (end : State) →
        Permitted (bare strict s) request reply end
        ↔ ((end ≡ bare strict end.session) × Allowed s request reply end.session) }
{}

/// A state, a request and its reply fix the state after them.
pub fn one_state_after()
    ensures { (s : State) (request : Request) (reply : Reply) (a b : State) →
        Permitted s request reply a → Permitted s request reply b → a ≡ b }
{}

/// The profile stays.
pub fn profile_stays()
    ensures { (s : State) (request : Request) (reply : Reply) (end : State) →
        Permitted s request reply end → end.profile ≡ s.profile }
{}

/// What is allowed strictly, each profile permits that replaces no request and has no use for the directories that are
/// open, with the same state after it.
pub fn strictly_allowed_is_permitted()
    ensures { (profile : Profile) (s : sessions.State) (request : Request) (reply : Reply) (end : sessions.State) →
        IsTrue (keeps_requests profile) → IsTrue (is_stateless profile) → Allowed s request reply end →
        Permitted (bare profile s) request reply (bare profile end) }
{}

/// `NAMES` has the name of every departure, in their order, and no two departures have the same name.
pub fn names_are_of_departures()
    ensures listed { map (λ name. name.now) NAMES.now ≡ map name_of every_departure }
    ensures found { (departure : Departure) → departure_of (name_of departure) ≡ Some departure }
{}
