//! What the command line of `infer` asks for.
use crate::command_line::keeping_of;
use crate::profiles;
use clap::ArgMatches;
use sftp_verdicts::InferOptions;

/// The options that the command line gives, if it names the files.
pub(crate) fn options_of<'a>(given: &ArgMatches<'a>) -> Option<InferOptions<'a>> {
    Some(InferOptions {
        transcript: given.get_str("transcript")?,
        tree: Some(given.get_str("tree")?),
        best: given.get_str("best"),
        out: given.get_str("out"),
        keeping: keeping_of(given),
        memory: given.get_one("memory"),
        explains: given.get_flag("explain"),
        is_json: given.get_flag("json"),
        profile: profiles::profile_of(given),
        umask: given.get_str("umask"),
        home: given.get_str("home"),
        is_raised: given.get_str("limits").unwrap_or("fit") == "raised",
        passes: given.get_one("passes"),
    })
}
