//! What the command line of `audit` asks for where it names several transcripts, or none.
ghost use Rattle.std.specs.Prelude.{◌≡◌, IfSome};
ghost use Rattle.clap.specs.Matches.{found_of};
ghost use Rattle.clap.specs.Walk.{rows_of};
ghost use Rattle.sftp_options.specs.Options.{IsEachAsked};

use crate::command_line::{Request, flag, keeping_of, value};
use crate::profiles;
use clap::ArgMatches;
use sftp_verdicts::{AuditOptions, EachOptions};
use std::alloc::{AllocError, Global};

/// The request to audit each of some transcripts, unless another subcommand is given, or one transcript alone by
/// `--transcript`.
pub(crate) fn request_of<'a>(
    alloc: Global,
    matches: &ArgMatches<'a>,
) -> Result<Option<Request<'a>>, AllocError> {
    let Some(given) = matches.subcommand_matches("audit") else {
        return Ok(None);
    };
    let names = given.get_strs("files").unwrap_or(&[]);
    let list = value(given, "transcripts-from");
    if names.is_empty() && list.is_none() && given.get_str("transcript").is_some() {
        return Ok(None);
    }
    each_request(alloc, given, names, list)
}

/// The request to audit each of these transcripts, and those of a list, if a tree is named.
fn each_request<'a>(
    alloc: Global,
    given: &ArgMatches<'a>,
    names: &[&'a str],
    list: Option<&'a str>,
) -> Result<Option<Request<'a>>, AllocError> {
    let Some(asked) = options_of(given) else {
        return Ok(None);
    };
    Ok(Some(Request::AuditEach(EachOptions {
        asked,
        names: Vec::from_slice(alloc, names)?,
        list,
    })))
}

/// The options of the audit of each transcript, if the command line names a tree. The transcript is that of
/// `--transcript`, or none, which has no name.
fn options_of<'a>(given: &ArgMatches<'a>) -> Option<AuditOptions<'a>>
    ensures { IfSome result (λ asked. IsEachAsked (rows_of (found_of given.now)) asked) }
{
    Some(AuditOptions {
        tree: value(given, "tree")?,
        transcript: value(given, "transcript").unwrap_or(""),
        out: value(given, "out"),
        memory: given.get_one("memory"),
        keeping: keeping_of(given),
        explains: given.get_flag("explain"),
        is_json: given.get_flag("json"),
        cuts: flag(given, "cut"),
        keeps_going: flag(given, "keep-going"),
        most: given.get_one("most"),
        profile: profiles::profile_of(given),
        umask: value(given, "umask"),
        says_progress: given.get_flag("progress"),
        is_named: true,
    })
}
