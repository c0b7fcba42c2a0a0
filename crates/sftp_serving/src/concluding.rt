//! How a run of `serve` ends: the tree that its session reports or left is saved, and messages say how it ended.
ghost use Rattle.std.specs.Prelude.{◌≡◌, is_some, IfOk, OnOk, IsErr};
ghost use Rattle.sftp_serving.specs.Runs.{reported, stopped as stopped_by, close_of, IsEnding, Saves, IsKeptIn};

use crate::places::Places;
use crate::summaries::{Close, Summary, Traffic};
use sftp_clock::TimeTable;
use sftp_files::{
    Ending, Failure, STANDARD_INPUT, STANDARD_OUTPUT, ServeOptions, report, write_flushed,
};
use sftp_server::{Ended, SessionEnd, Stream};
use sftp_tree::Tree;
use std::io::Write;

/// The outcome of a run by how its session ended. The tree that it reports or left is saved, if that is asked for,
/// unless the session was not opened.
// Slow to prove: it owns the tree that was left, and then how saving it ended.
pub(crate) fn conclude<'a, P: Places<'a>, E: Write>(
    places: &mut P,
    end: SessionEnd,
    times: Option<TimeTable>,
    traffic: Traffic,
    options: &ServeOptions<'a>,
    errors: &mut E,
) -> Result<Ending, Failure<'a>>
    ensures said { IfOk result (IsEnding (close_of traffic.is_over end.ended)) }
    ensures saved { Saves (is_some times) (reported end) (P.saved places.old) (P.saved places.new) }
    ensures kept { OnOk result
        (IsKeptIn (P.saved places.new) (is_some options.now.save) (is_some times) (reported end)) }
    ensures recorded { P.recorded places.new ≡ P.recorded places.old }
{
    let (tree, close) = parts(end, traffic.is_over);
    say_parting(traffic, options.is_verbose, errors);
    let saved = save_any(places, &tree, &times, options);
    let has_place = tree.is_some() && options.save.is_some();
    drop(tree);
    drop(times);
    let summary = Summary {
        close,
        traffic,
        entries: entries_of(&saved),
        is_saved: has_place && saved.is_ok(),
    };
    say_summary(summary, options.is_verbose, errors);
    match saved {
        Ok(_) => ended(close, traffic, options, errors),
        Err(failure) => unsaved(close, failure, traffic, options, errors),
    }
}

/// Says how a session ended, if lines are wanted.
fn say_summary<E: Write>(summary: Summary, is_verbose: bool, errors: &mut E) {
    if is_verbose {
        let _ = write_flushed(errors, format_args!("sftpv3: {summary}\n"));
    }
}

/// Says where the session left its script; that it followed it to the end if lines are wanted.
fn say_parting<E: Write>(traffic: Traffic, is_verbose: bool, errors: &mut E) {
    if let Some(parting) = traffic.parting {
        if !parting.is_whole(traffic.requests) {
            let _ = write_flushed(errors, format_args!("sftpv3: replay: {parting}\n"));
        } else if is_verbose {
            let _ = write_flushed(errors, "sftpv3: replay: followed to the end\n");
        }
    }
}

/// The tree that a session reports or left, if there is one, and how the session ended.
fn parts(end: SessionEnd, is_over: bool) -> (Option<Tree>, Close)
    ensures tree { result.0 ≡ reported end }
    ensures close { result.1 ≡ close_of is_over end.ended }
{
    let SessionEnd { ended, left } = end;
    match ended {
        Ended::Finished(tree) => {
            drop(left);
            (Some(tree), Close::Finished)
        }
        Ended::Fault(tree, fault) => {
            drop(left);
            (Some(tree), Close::Fault(fault))
        }
        Ended::Io(stream) => (left, stopped(stream, is_over)),
        Ended::NoMemory => (left, Close::NoMemory),
    }
}

/// How a session ended whose stream failed, which it also does if the process has too much memory.
fn stopped(stream: Stream, is_over: bool) -> Close
    ensures { result ≡ stopped_by is_over stream }
{
    if is_over {
        Close::NoMemory
    } else {
        Close::Io(stream)
    }
}

/// The number of entries that was counted.
fn entries_of(saved: &Result<Option<u32>, Failure<'_>>) -> Option<u32> {
    match saved {
        Ok(entries) => *entries,
        Err(_) => None,
    }
}

/// The outcome of a run by how its session ended, if saving the tree did not fail. If the client broke the protocol,
/// `errors` now says how.
fn ended<'a, E: Write>(
    close: Close,
    traffic: Traffic,
    options: &ServeOptions<'a>,
    errors: &mut E,
) -> Result<Ending, Failure<'a>>
    ensures { IfOk result (IsEnding close) }
{
    match close {
        Close::Finished => Ok(Ending::Done),
        Close::Fault(fault) => {
            let _ = write_flushed(errors, format_args!("sftpv3: session fault: {fault}\n"));
            Ok(Ending::Broken)
        }
        Close::Io(stream) => Err(stream_failure(stream, traffic, options)),
        Close::NoMemory => Err(Failure::OutOfMemory),
    }
}

/// The outcome of a run by how its session ended, if the tree was not saved for this failure. If a stream failed or
/// memory ran out, it is reported, and then the run fails for that.
fn unsaved<'a, E: Write>(
    close: Close,
    failure: Failure<'a>,
    traffic: Traffic,
    options: &ServeOptions<'a>,
    errors: &mut E,
) -> Result<Ending, Failure<'a>>
    ensures { IsErr result }
{
    match close {
        Close::Finished | Close::Fault(_) => Err(failure),
        Close::Io(stream) => {
            report(errors, &failure);
            drop(failure);
            Err(stream_failure(stream, traffic, options))
        }
        Close::NoMemory => {
            report_unsaved(errors, &failure);
            drop(failure);
            Err(Failure::OutOfMemory)
        }
    }
}

/// Reports why a tree was not saved when a session ran out of memory. If that is why, the caller reports it once for
/// both.
fn report_unsaved<E: Write>(errors: &mut E, failure: &Failure<'_>) {
    match failure {
        Failure::OutOfMemory => {}
        _ => report(errors, failure),
    }
}

/// Saves a tree, if there is one and that is asked for. Returns how many entries the tree has, if they were counted.
fn save_any<'a, P: Places<'a>>(
    places: &mut P,
    tree: &Option<Tree>,
    times: &Option<TimeTable>,
    options: &ServeOptions<'a>,
) -> Result<Option<u32>, Failure<'a>>
    ensures saved { Saves (is_some times.now) tree.now (P.saved places.old) (P.saved places.new) }
    ensures kept { OnOk result
        (IsKeptIn (P.saved places.new) (is_some options.now.save) (is_some times.now) tree.now) }
    ensures recorded { P.recorded places.new ≡ P.recorded places.old }
{
    match (tree, options.save) {
        (Some(tree), Some(_)) => {
            places.save(tree, times)?;
            Ok(Some(tree.entry_count()))
        }
        (Some(tree), None) if options.is_verbose => Ok(Some(tree.entry_count())),
        _ => Ok(None),
    }
}

/// Why a session could not go on when this stream failed.
fn stream_failure<'a>(stream: Stream, traffic: Traffic, options: &ServeOptions<'a>) -> Failure<'a> {
    match stream {
        Stream::Reader => Failure::CannotRead(STANDARD_INPUT, traffic.input.code),
        Stream::Writer => Failure::CannotWrite(STANDARD_OUTPUT, traffic.output.code),
        // Without a file, recording never fails.
        Stream::Log => Failure::CannotWrite(
            options.record.unwrap_or("the record"),
            traffic.record.code,
        ),
    }
}
