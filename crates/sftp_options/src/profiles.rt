//! The options of `audit` that say which departures from the strict reading are accepted.
ghost use Rattle.std.specs.Prelude.{◌≡◌, map};
ghost use Rattle.std.specs.Option.{option_map};
ghost use Rattle.clap.specs.Matches.{found_of};
ghost use Rattle.clap.specs.Walk.{rows_of};
ghost use Rattle.sftp_options.specs.Options as spec;

use crate::arguments::{Argument, Form};
use clap::ArgMatches;
use sftp_profile::{NAMES, NewOwner, Profile};

/// The option that names a profile.
pub(crate) const PROFILE: Argument = (
    "profile",
    Form::OneOf("NAME", &["posix", "posix-user"]),
    "Accept what servers with real file systems do differently",
);

/// The option that adds departures.
pub(crate) const ALLOW: Argument = (
    "allow",
    Form::SomeOf("NAME,...", NAMES),
    "Departures to accept besides",
);

/// The option that takes departures away.
pub(crate) const EXCEPT: Argument = (
    "except",
    Form::SomeOf("NAME,...", NAMES),
    "Departures not to accept",
);

/// The option that says which permissions are taken from whatever is made.
pub(crate) const UMASK: Argument = (
    "umask",
    Form::Optional("OCTAL"),
    "With the departure 'made': the permissions that nothing new has, 022 by default",
);

/// The option that says who may own what is made.
pub(crate) const NEW_OWNER: Argument = (
    "new-owner",
    Form::OneOf("RULE", &["user", "given", "group", "posix"]),
    "With the departure 'made': who owns what is made",
);

/// The option that says in which order the paths of SYMLINK are, if not in OpenSSH's.
pub(crate) const SYMLINK: Argument = (
    "symlink",
    Form::OneOf("ORDER", &["draft"]),
    "Take the paths of SYMLINK in the order of the draft, the link first",
);

/// The profile that the options name, without the umask; `None`, which is the strict reading, if there are none.
pub(crate) fn profile_of(given: &ArgMatches<'_>) -> Option<Profile>
    ensures { result ≡ spec.profile_asked (spec.options_in (rows_of (found_of given.now))) }
{
    profile_found(given)
}

/// The same, by what the parser found for each option.
fn profile_found(given: &ArgMatches<'_>) -> Option<Profile>
    ensures { result ≡ spec.profile_asked (spec.options_found (found_of given.now)) }
{
    let base = given.get_str("profile");
    let allowed = given.get_strs("allow");
    let excepted = given.get_strs("except");
    let order = given.get_str("symlink");
    if order.is_some() || base.is_some() || allowed.is_some() || excepted.is_some() {
        let profile = switched(base_of(base), allowed.unwrap_or(&[]), true);
        let profile = switched(profile, excepted.unwrap_or(&[]), false);
        let profile = with_rule(profile, given.get_str("new-owner"));
        return Some(with_order(profile, order.is_some()));
    }
    None
}

/// The profile of this name, or the strict one.
fn base_of(name: Option<&str>) -> Profile
    ensures { result ≡ spec.base_of (option_map (λ text. text.now) name.entry) }
{
    match name {
        Some(name) => named(name),
        None => Profile::strict(),
    }
}

/// The profile of this name.
fn named(name: &str) -> Profile
    ensures { result ≡ spec.named name.now }
{
    if name == "posix-user" {
        return Profile::posix_user();
    }
    Profile::posix()
}

/// The profile with this rule of who owns what is made, if it accepts the departure `made`.
fn with_rule(profile: Profile, rule: Option<&str>) -> Profile
    ensures { result ≡ spec.with_rule profile (option_map (λ text. text.now) rule.entry) }
{
    let mut profile = profile;
    if profile.made {
        profile.new_owner = new_owner(rule.unwrap_or("user"));
    }
    profile
}

/// The profile with the paths of SYMLINK in the order of the draft, or in OpenSSH's.
fn with_order(profile: Profile, is_draft: bool) -> Profile
    ensures { result ≡ record profile { symlink_draft = is_draft } }
{
    let mut profile = profile;
    profile.symlink_draft = is_draft;
    profile
}

/// Who owns what is made by this rule.
fn new_owner(rule: &str) -> NewOwner
    ensures { result ≡ spec.owner_by rule.now }
{
    if rule == "given" {
        return NewOwner::Given;
    }
    if rule == "group" {
        return NewOwner::Group;
    }
    if rule == "posix" {
        return NewOwner::Posix;
    }
    NewOwner::User
}

/// The profile with each of these departures switched on or off.
fn switched(profile: Profile, names: &[&str], is_on: bool) -> Profile
    ensures { result ≡ spec.with_names is_on profile (map (λ name. name.now) names.now) }
{
    let mut profile = profile;
    'names: for name in names {
        profile = with_departure(profile, name, is_on);
    }
    profile
}

/// The profile with the departure of this name switched on or off; a name that is none changes nothing.
fn with_departure(profile: Profile, name: &str, is_on: bool) -> Profile
    ensures { result ≡ spec.with_departure is_on profile name.now }
{
    profile.with(name, is_on).unwrap_or(profile)
}
