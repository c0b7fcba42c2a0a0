//! The program `sftpv3`: `sftp_tool::run` on the arguments and the streams of the process.
#![tactic(auto)]

ghost use Rattle.std.specs.Prelude.{◌≡◌, ◌≢◌, ◌≤◌, IfOk, IfErr};
ghost use Rattle.std.specs.IoError.{error_kind};
ghost use Rattle.std.specs.declared.io.ErrorKind.TheVariants.{InvalidData};

mod output;
mod version;

use output::Output;
use std::io::ErrorKind;
use std::process::ExitCode;
use std::{env, io};
use version::VERSION;

fn main(rt: HostRuntime) -> ExitCode {
    let outcome = run(&rt);
    if let Err(error) = &outcome {
        report(&rt, error.kind());
    }
    ExitCode::from(exit_status(&outcome))
}

/// Runs the program and returns its exit status. It is an error if an argument is not valid UTF-8, or if
/// memory runs out before the program starts.
fn run(rt: &HostRuntime) -> io::Result<u8>
    ensures { IfOk result (λ status. status ≤ 3) }
{
    let words: Vec<String> = env::args(rt)?.collect(rt.alloc())?;
    let mut output = Output::new(rt.alloc(), rt.stdout())?;
    let mut input = rt.stdin();
    let mut errors = rt.stderr();
    let words = words.as_slice();
    Ok(match VERSION {
        None => sftp_tool::run(rt, words, &mut input, &mut output, &mut errors),
        Some(version) => sftp_tool::run_versioned(
            rt,
            version,
            words,
            &mut input,
            &mut output,
            &mut errors,
        ),
    })
}

/// The exit status of the process: that of the run, or 2 or 3 if it did not start.
fn exit_status(outcome: &io::Result<u8>) -> u8
    ensures run { IfOk outcome.now (λ status. result ≡ status) }
    ensures usage { IfErr outcome.now (λ error. error_kind error ≡ InvalidData → result ≡ 2) }
    ensures memory { IfErr outcome.now (λ error. error_kind error ≢ InvalidData → result ≡ 3) }
{
    match outcome {
        Ok(status) => *status,
        Err(error) => match error.kind() {
            ErrorKind::InvalidData => 2,
            _ => 3,
        },
    }
}

/// Says why the program did not start.
fn report(rt: &HostRuntime, kind: ErrorKind) {
    let _ = match kind {
        ErrorKind::InvalidData => rt.eprintln("sftpv3: an argument is not valid UTF-8"),
        _ => rt.eprintln("sftpv3: out of memory"),
    };
}
