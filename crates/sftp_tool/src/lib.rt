//! The program `sftpv3` as a library: command line, files and messages. The caller passes in the file
//! system and the streams, so a test can replace each of them.
#![tactic(auto)]

ghost use Rattle.std.specs.Prelude.{◌≤◌};
ghost use Rattle.sftp_tool.specs.Performed.{Performs};

mod pipes;
mod subcommands;

use sftp_commands::{Faulty, ReadFiles};
use sftp_faults::Spot;
pub use sftp_files::System;
use sftp_files::{Ending, Failure, report, write_flushed};
use sftp_options::{Request, parse};
use sftp_progress::Console;
use std::fs::Files;
use std::io::{IsTerminal, Read, Write};
use std::time::Clock;

/// The version of the program.
pub const VERSION: &str = "0.2.0";

/// Runs the command line `words`, whose first word is the program's name, and returns the exit status:
///
/// - 0: the session was served or is accepted, the file was written, the trees are the same, or help or the version was
///   shown;
/// - 1: the session is refused, and `output` says why; the trees differ, and `output` says how; or the client broke the
///   protocol, and `errors` says how;
/// - 2: bad usage, or a malformed or unknown file or text;
/// - 3: a file or a stream cannot be read or written, or memory ran out.
///
/// With status 2 or 3 the reason is written to `errors`. If `errors` cannot be written, the status is the same.
/// If a reader closed the pipe that `output` is, nothing is said: `show` and the help then end with status 0, `diff`
/// with 1, and `audit` and `infer` with 3.
/// `output` is flushed, unless a session stops because a stream fails or memory runs out. Only `serve`, `make` and
/// `import` read `input`. Where `errors` is a terminal, `audit`, `diff`, `import` and `export` say there how far they
/// are, while that takes more than two seconds. `serve` and `import` refuse an `input` that is a terminal, `export` an
/// `output`, with status 2.
pub fn run<R, I, O, E>(
    rt: &R,
    words: &[String],
    input: &mut I,
    output: &mut O,
    errors: &mut E,
) -> u8
where
    R: System + Clock,
    I: Read + IsTerminal,
    O: Write + IsTerminal,
    E: Write + IsTerminal,
    ensures { result ≤ 3 }
{
    run_versioned(rt, VERSION, words, input, output, errors)
}

/// Does what `run` does, as the program of this version: the text that `--version` prints.
pub fn run_versioned<R, I, O, E>(
    rt: &R,
    version: &str,
    words: &[String],
    input: &mut I,
    output: &mut O,
    errors: &mut E,
) -> u8
where
    R: System + Clock,
    I: Read + IsTerminal,
    O: Write + IsTerminal,
    E: Write + IsTerminal,
    ensures { result ≤ 3 }
{
    match parse(rt.alloc(), version, words) {
        Ok(request) => {
            let ending = perform_request(rt, &request, input, output, errors);
            let ending = pipes::quiet(&request, ending);
            let status = status_said(rt, &request, ending, output, errors);
            drop(request);
            status
        }
        Err(failure) => failed(failure, false, errors),
    }
}

/// The exit status of a request that ended so. If it failed, `errors` now says why, unless nobody reads its verdict.
fn status_said<'a, R: Files + AllocGlobal, O: Write, E: Write>(
    rt: &R,
    request: &Request<'a>,
    ending: Result<Ending, Failure<'a>>,
    output: &mut O,
    errors: &mut E,
) -> u8
    ensures { result ≤ 3 }
{
    match explained(rt, request, ending, output, errors) {
        Ok(ending) => ending.status(),
        Err(failure) => {
            let is_silent = pipes::is_silent(request, &failure);
            failed(failure, is_silent, errors)
        }
    }
}

/// The exit status of a run that failed. Unless it fails without a word, `errors` now says why.
fn failed<E: Write>(failure: Failure<'_>, is_silent: bool, errors: &mut E) -> u8
    ensures { result ≤ 3 }
{
    let status = failure.status();
    if !is_silent {
        report(errors, &failure);
    }
    drop(failure);
    status
}

/// The outcome of a request. If a file is malformed, `errors` now says so, with its name and what else is known of it.
/// If the request failed and wants JSON, `output` has the object.
fn explained<'a, R: Files + AllocGlobal, O: Write, E: Write>(
    rt: &R,
    request: &Request<'a>,
    ending: Result<Ending, Failure<'a>>,
    output: &mut O,
    errors: &mut E,
) -> Result<Ending, Failure<'a>> {
    match ending {
        Ok(ending) => Ok(ending),
        Err(failure) => {
            let file = Faulty::of(rt, files_of(request), &failure);
            let spot = spot_of_request(rt, request, &failure);
            if request.is_for_machines() && !sftp_commands::is_of_output(&failure) {
                sftp_commands::print_failed(rt.alloc(), &failure, file, spot, output);
            }
            said(failure, file, spot, errors)
        }
    }
}

/// The outcome of a run that failed. If that is for a malformed file, `errors` now says all of it.
fn said<'a, E: Write>(
    failure: Failure<'a>,
    file: Option<Faulty<'a>>,
    spot: Option<Spot>,
    errors: &mut E,
) -> Result<Ending, Failure<'a>> {
    match file {
        Some(file) => {
            report(errors, &failure);
            drop(failure);
            file.put(errors);
            if let Some(spot) = spot {
                let _ = write_flushed(errors, format_args!("fault: {spot}\n"));
            }
            Ok(Ending::Explained)
        }
        None => Err(failure),
    }
}

/// The files that a request reads.
fn files_of<'a>(request: &Request<'a>) -> ReadFiles<'a> {
    ReadFiles {
        tree: request.tree(),
        transcript: request.transcript(),
        either: request.shown(),
    }
}

/// Where the fault is that made a request fail, if the request wants to know.
fn spot_of_request<R: Files + AllocGlobal>(
    rt: &R,
    request: &Request<'_>,
    failure: &Failure<'_>,
) -> Option<Spot> {
    match request.explained_files() {
        Some((tree, transcript)) => sftp_commands::spot_of(rt, tree, transcript, failure),
        None => None,
    }
}

/// Does what is asked for. While it reads or writes what may be long, standard error says how far it is.
fn perform_request<'a, R, I, O, E>(
    rt: &R,
    request: &Request<'a>,
    input: &mut I,
    output: &mut O,
    errors: &mut E,
) -> Result<Ending, Failure<'a>>
where
    R: System + Clock,
    I: Read + IsTerminal,
    O: Write + IsTerminal,
    E: Write + IsTerminal,
    ensures { Performs request.now (I.remaining input.old) (I.remaining input.new) (O.contents output.old)
        (O.contents output.new) result }
{
    match request {
        Request::Serve(options, style) => {
            sftp_serving::serve(rt, options, *style, input, output, errors)
        }
        Request::Audit(files) => subcommands::audit(rt, files, output, errors),
        Request::AuditEach(options) => sftp_auditing::audit_each(rt, options, output, errors),
        Request::AuditTogether(options) => { sftp_overlapping::audit_together(rt, options, output) }
        Request::Infer(options) => sftp_inferring::infer(rt, options, output, errors),
        Request::Blank { file, keeping } => subcommands::blank(rt, file, *keeping),
        Request::Raise {
            tree,
            to,
            file,
            keeping,
        } => sftp_commands::raise(rt, tree, *to, file, *keeping),
        Request::Show(options) => subcommands::show(rt, options, output, errors),
        Request::Make { file, keeping } => sftp_commands::make(rt, file, *keeping, input),
        Request::Diff {
            old,
            new,
            memory,
            form,
            says_progress,
        } => {
            let mut console = console(errors, *says_progress);
            sftp_commands::diff(rt, (old, new), *memory, *form, output, &mut console)
        }
        Request::Import {
            options,
            says_progress,
        } => {
            let mut console = console(errors, *says_progress);
            sftp_commands::import(rt, options, input, &mut console)
        }
        Request::Export {
            file,
            says_progress,
        } => {
            let mut console = console(errors, *says_progress);
            sftp_commands::export(rt, file, output, &mut console)
        }
        Request::Help(text) => subcommands::help(text.as_str(), output),
    }
}

/// Standard error, and whether the run says there how far it is also where that is no terminal.
fn console<E>(errors: &mut E, says_progress: bool) -> Console<'_, E> {
    Console {
        errors,
        says_progress,
    }
}
