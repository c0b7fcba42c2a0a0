//! `--umask`: the permissions that nothing new has, which are octal digits, and the profile with them.
ghost use Rattle.std.specs.Prelude.{◌≡◌, ◌↔◌, IsTrue, MatchOption, MatchResult, IfOk, IfErr, slice_index};
ghost use Rattle.std.specs.Option.{option_map};
ghost use Rattle.std.specs.Str.Parse.{digits_value};
ghost use Rattle.sftp_files.specs.Failures.{IsUsage};
ghost use Rattle.sftp_verdicts.specs.Umasks as spec;
ghost use Rattle.sftp_verdicts.specs.Umasks.{IsPermissions};

use sftp_files::{Failure, MORE, Named};
use sftp_profile::Profile;
use std::alloc::{AllocError, Global};

/// The permissions that are taken from whatever is made, without an option.
const USUAL_UMASK: &str = "022";

/// The profile that options ask for: with the umask of this text, or the usual one.
///
/// # Errors
///
/// As `umask_of`.
pub fn asked_profile<'a>(
    alloc: Global,
    profile: Option<Profile>,
    umask: Option<&str>,
) -> Result<Option<Profile>, Failure<'a>>
    ensures ok { IfOk result
        (λ asked. asked ≡ spec.asked_profile profile (option_map (λ given. given.now) umask.entry)) }
    ensures err { IfErr result IsUsage }
{
    let umask = umask_of(alloc, umask)?;
    Ok(with_umask(profile, umask))
}

/// The profile with this umask, if it accepts the departure `made`.
fn with_umask(profile: Option<Profile>, umask: u32) -> Option<Profile>
    ensures { result ≡ option_map (λ profile. spec.with_umask profile umask) profile }
{
    let mut profile = profile?;
    if profile.made {
        profile.umask = umask;
    }
    Some(profile)
}

/// The umask of this text, or the usual one.
///
/// # Errors
///
/// `Usage` if the text is no octal number up to 0777, and `OutOfMemory`.
fn umask_of<'a>(alloc: Global, text: Option<&str>) -> Result<u32, Failure<'a>>
    ensures { let digits = spec.umask_digits (option_map (λ given. given.now) text.entry) in
        MatchResult result (λ umask. IsPermissions digits × (umask ≡ digits_value 8 digits))
        (λ failure. (IsPermissions digits → ⊥) × IsUsage failure) }
{
    let text = text.unwrap_or(USUAL_UMASK);
    match octal(text) {
        Some(umask) => Ok(umask),
        None => Err(Failure::of_usage(bad_umask(alloc, text))),
    }
}

/// The message for an option `--umask` with this value.
fn bad_umask(alloc: Global, text: &str) -> Result<String, AllocError> {
    let text = Named(text);
    format!(in alloc;
        "error: invalid value '{text}' for '--umask <OCTAL>': not an octal number up to 0777\n{MORE}"
    )
}

/// The number of this text, if it has one to four octal digits and is at most 0777.
pub fn octal(text: &str) -> Option<u32>
    ensures { MatchOption result (IsPermissions text.now → ⊥)
        (λ number. IsPermissions text.now × (number ≡ digits_value 8 text.now)) }
{
    if text.len() > 4 || has_plus(text) {
        return None;
    }
    match u32::from_str_radix(text, 8) {
        Ok(number) if number <= 0o777 => Some(number),
        _ => None,
    }
}

/// Whether a text begins with a plus sign, which the parser of numbers takes.
fn has_plus(text: &str) -> bool
    ensures { IsTrue result ↔ slice_index text.now 0 ≡ 43 }
{
    text.as_bytes().first() == Some(&b'+')
}
