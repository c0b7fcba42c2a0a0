//! What the command line of `audit` asks for with `--together`.
ghost use Rattle.std.specs.Prelude.{◌≡◌, IfOk, IfSome};
ghost use Rattle.clap.specs.Matches.{found_of};
ghost use Rattle.clap.specs.Walk.{rows_of};
ghost use Rattle.sftp_options.specs.Options.{IsTogetherAsked};

use crate::command_line::{Request, keeping_of, value};
use crate::profiles;
use clap::ArgMatches;
use sftp_overlapping::TogetherOptions;
use std::alloc::{AllocError, Global};

/// The request to judge sessions together, if the command line asks for that.
pub(crate) fn request_of<'a>(
    alloc: Global,
    matches: &ArgMatches<'a>,
) -> Result<Option<Request<'a>>, AllocError> {
    let Some(given) = matches.subcommand_matches("audit") else {
        return Ok(None);
    };
    match given.get_strs("together") {
        Some(files) => match options_of(given, Vec::from_slice(alloc, files)?) {
            Some(options) => Ok(Some(Request::AuditTogether(options))),
            None => Ok(None),
        },
        None => Ok(None),
    }
}

/// The options of an audit of these files, if the command line names a tree and an order.
fn options_of<'a>(given: &ArgMatches<'a>, files: Vec<&'a str>) -> Option<TogetherOptions<'a>>
    ensures { IfSome result (IsTogetherAsked (rows_of (found_of given.now))) }
{
    let (tree, order) = match (value(given, "tree"), value(given, "order")) {
        (Some(tree), Some(order)) => (tree, order),
        _ => {
            drop(files);
            return None;
        }
    };
    Some(TogetherOptions {
        tree,
        order,
        files,
        tolerance: given.get_one("tolerance").unwrap_or(0),
        out: value(given, "out"),
        keeping: keeping_of(given),
        is_json: given.get_flag("json"),
        profile: profiles::profile_of(given),
        umask: value(given, "umask"),
    })
}
