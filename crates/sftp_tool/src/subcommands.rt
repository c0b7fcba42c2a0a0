//! Which audit is asked for, and the subcommands that are short.
ghost use Rattle.std.specs.Prelude.{◌≡◌, IfOk, IfErr};
ghost use Rattle.sftp_files.specs.declared.messages.Ending.TheVariants as endings;
ghost use Rattle.sftp_files.specs.Failures.{IsUnwritten};
ghost use Rattle.sftp_verdicts.specs.Verdicts.{IsAuditStatus};

use sftp_audit::blank_tree;
use sftp_files::{
    Ending, Failure, Keeping, Named, ShowOptions, System, input_name, print, write_flushed,
    write_last,
};
use sftp_verdicts::{AuditOptions, InferOptions};
use std::io::{IsTerminal, Write};
use std::time::Clock;

/// The name that stands for a tree that nobody knows.
const UNKNOWN: &str = "unknown";

/// Why some options cannot stand beside a tree that nobody knows.
const NEEDS_TREE: &str =
    "--cut, --keep-going and --most cannot be used with '--tree unknown': infer a tree first (see infer --help)";

/// The options of an audit without a tree.
fn options_of_audit<'a>(files: &AuditOptions<'a>) -> InferOptions<'a> {
    InferOptions {
        transcript: files.transcript,
        tree: None,
        best: None,
        out: files.out,
        keeping: files.keeping,
        memory: files.memory,
        explains: files.explains,
        is_json: files.is_json,
        profile: files.profile,
        umask: files.umask,
        home: None,
        is_raised: false,
        passes: None,
    }
}

/// Audits a session: with the tree of a file, or with one that is inferred.
pub(crate) fn audit<'a, R: System + Clock, O: Write, E: Write + IsTerminal>(
    rt: &R,
    files: &AuditOptions<'a>,
    output: &mut O,
    errors: &mut E,
) -> Result<Ending, Failure<'a>>
    ensures { IsAuditStatus result }
{
    if files.tree != UNKNOWN {
        return sftp_auditing::audit(rt, files, output, errors);
    }
    if files.cuts || files.keeps_going || files.most.is_some() {
        return Err(Failure::of_misuse(rt.alloc(), NEEDS_TREE));
    }
    sftp_inferring::infer(rt, &options_of_audit(files), output, errors)
}

/// Shows a file. If nothing of it is what was asked for, standard error says so.
pub(crate) fn show<'a, R: System, O: Write, E: Write>(
    rt: &R,
    options: &ShowOptions<'a>,
    output: &mut O,
    errors: &mut E,
) -> Result<Ending, Failure<'a>> {
    let ending = sftp_commands::show(rt, options, output)?;
    if let Ending::Unmatched = ending {
        let name = Named(input_name(options.file));
        let _ = write_flushed(errors, format_args!("sftpv3: nothing in {name} matches\n"));
    }
    Ok(ending)
}

/// Writes the blank tree to the file `name`.
pub(crate) fn blank<'a, R: System>(
    rt: &R,
    name: &'a str,
    keeping: Keeping,
) -> Result<Ending, Failure<'a>>
    ensures ok { IfOk result (λ ending. ending ≡ endings.Done) }
    ensures err { IfErr result IsUnwritten }
{
    match blank_tree(rt.alloc()) {
        Ok(tree) => write_last(rt, name, keeping, tree),
        Err(_no_memory) => Err(Failure::OutOfMemory),
    }
}

/// Prints help or the version.
pub(crate) fn help<'a, O: Write>(text: &str, output: &mut O) -> Result<Ending, Failure<'a>>
    ensures ok { IfOk result (λ ending. ending ≡ endings.Done) }
    ensures err { IfErr result IsUnwritten }
{
    print(output, text, Ending::Done)
}
