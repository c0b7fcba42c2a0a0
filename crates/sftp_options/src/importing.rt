//! What the command line of `import` asks for.
ghost use Rattle.std.specs.Prelude.{◌≡◌, IfSome};
ghost use Rattle.std.specs.Option.{option_map};
ghost use Rattle.clap.specs.Matches.{found_of};
ghost use Rattle.clap.specs.Walk.{rows_of};
ghost use Rattle.sftp_options.specs.Options as spec;

use crate::arguments::{Argument, Form};
use crate::command_line::{flag, keeping_of, value};
use clap::ArgMatches;
use sftp_files::ImportOptions;
use sftp_tar::{LimitChoice, SpecialChoice, Taking};

/// The option that chooses the limits of the tree.
pub(crate) const LIMITS: Argument = (
    "limits",
    Form::OneOf("WHICH", &["usual", "raised", "most", "fit"]),
    "The limits of the tree: usual by default, raised, most, or fit, the lowest that hold the archive",
);

/// The option that says what becomes of devices and FIFOs.
pub(crate) const SPECIAL: Argument = (
    "special",
    Form::OneOf("WHAT", &["refuse", "skip", "file"]),
    "Devices and FIFOs: refuse them, as by default, skip them, or make each an empty file",
);

/// The option that leaves times out.
pub(crate) const NO_TIMES: Argument = (
    "no-times",
    Form::Flag,
    "Leave the times of the archive out, so that earlier versions read the tree file",
);

/// The options that the command line gives, if it names a file.
pub(crate) fn options_of<'a>(given: &ArgMatches<'a>) -> Option<ImportOptions<'a>>
    ensures { IfSome result (λ options. options.taking ≡ spec.taking_in (rows_of (found_of given.now))) }
{
    let taking = taking_of(
        value(given, "limits"),
        value(given, "special"),
        flag(given, "no-times"),
    );
    Some(ImportOptions {
        file: given.get_str("file")?,
        keeping: keeping_of(given),
        memory: given.get_one("memory"),
        taking,
    })
}

/// How an archive is taken by the values of the options.
fn taking_of(which: Option<&str>, what: Option<&str>, without_times: bool) -> Taking
    ensures { result ≡ spec.taking_by (option_map (λ t. t.now) which.entry) (option_map (λ t. t.now) what.entry)
        without_times }
{
    Taking {
        limits: limits_by(which.unwrap_or("usual")),
        special: special_by(what.unwrap_or("refuse")),
        with_times: !without_times,
    }
}

/// The limits of this name.
fn limits_by(which: &str) -> LimitChoice
    ensures { result ≡ spec.limits_by which.now }
{
    if which == "raised" {
        return LimitChoice::Raised;
    }
    if which == "most" {
        return LimitChoice::Most;
    }
    if which == "fit" {
        return LimitChoice::Fit;
    }
    LimitChoice::Usual
}

/// What becomes of devices and FIFOs by this name.
fn special_by(what: &str) -> SpecialChoice
    ensures { result ≡ spec.special_by what.now }
{
    if what == "skip" {
        return SpecialChoice::Skip;
    }
    if what == "file" {
        return SpecialChoice::File;
    }
    SpecialChoice::Refuse
}
