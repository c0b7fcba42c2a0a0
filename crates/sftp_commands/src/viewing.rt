//! The subcommand `show` with times, with a selection of records, or as JSON.
use crate::cuts::limit_of;
use crate::faulty::Faulty;
use crate::objects::printed;
use crate::selecting::{Wanted, read_wanted};
use crate::showing::{is_transcript_read, shown_tree};
use sftp_files::{Ending, Failure, Named, STANDARD_OUTPUT, ShowOptions, input_name, open};
use sftp_times::TimesError;
use sftp_transcript::{Reader, Tally};
use sftp_treefile::TreeFile;
use sftp_views::{Clock, Form, Shape, View, ViewError, put_tree, show_records};
use std::alloc::Global;
use std::fs::Files;
use std::io::{BufReader, Read, Write};

/// Whether options ask for more than a line for each record or entry.
pub(crate) fn is_viewed(options: &ShowOptions<'_>) -> bool {
    options.is_json || picks_records(options)
}

/// Whether an option is only for transcripts.
fn picks_records(options: &ShowOptions<'_>) -> bool {
    options.times.is_some()
        || options.id.is_some()
        || options.path.is_some()
        || options.handle.is_some()
        || options.records.is_some()
        || options.in_pairs
        || options.marks
        || options.filter.is_some()
        || options.handle_of.is_some()
        || options.in_exchanges
        || options.in_figures
}

/// Whether options select some of the records.
fn selects(options: &ShowOptions<'_>) -> bool {
    options.id.is_some()
        || options.path.is_some()
        || options.handle.is_some()
        || options.records.is_some()
        || options.filter.is_some()
        || options.handle_of.is_some()
}

/// Why options cannot be used together, if they cannot.
pub(crate) fn misuse(options: &ShowOptions<'_>) -> Option<&'static str> {
    if options.is_full && !options.is_json && picks_records(options) {
        return Some(
            "'--full' cannot be used with '--times' or with a selection; '--json' has the same fields",
        );
    }
    if options.data.is_some() && !options.is_full && !options.is_json && !options.in_exchanges {
        return Some("the following required arguments were not provided:\n  --full, or --json");
    }
    misuse_of_shapes(options)
}

/// Why the options that say what is shown of exchanges cannot be used together, if they cannot.
fn misuse_of_shapes(options: &ShowOptions<'_>) -> Option<&'static str> {
    if options.in_figures && (options.in_exchanges || options.in_pairs) {
        return Some("'--stat' cannot be used with '--pairs' or '--exchanges'");
    }
    if options.in_pairs && options.in_exchanges {
        return Some("'--pairs' cannot be used with '--exchanges'");
    }
    None
}

/// Shows what the options ask for. The first bytes of the file say which kind it is, and then it is read as a stream.
pub(crate) fn view<'a, R: Files + AllocGlobal, O: Write>(
    rt: &R,
    options: &ShowOptions<'a>,
    output: &mut O,
) -> Result<Ending, Failure<'a>> {
    let limit = limit_of(rt.alloc(), options.data)?;
    match read_wanted(rt.alloc(), options) {
        Ok(wanted) => {
            let shown = view_wanted(rt, options, &wanted, limit, output);
            drop(wanted);
            ending_of(options, shown)
        }
        Err(failure) => Err(failure),
    }
}

/// How a run ends that showed something or not. Where nothing was asked for in particular, a file has enough without
/// it.
fn ending_of<'a>(
    options: &ShowOptions<'_>,
    shown: Result<bool, Failure<'a>>,
) -> Result<Ending, Failure<'a>> {
    match shown {
        Ok(false) if selects(options) => Ok(Ending::Unmatched),
        Ok(_) => Ok(Ending::Done),
        Err(failure) => Err(failure),
    }
}

/// Shows what is wanted, with at most so many bytes of each text.
fn view_wanted<'a, R: Files + AllocGlobal, O: Write>(
    rt: &R,
    options: &ShowOptions<'a>,
    wanted: &Wanted,
    limit: usize,
    output: &mut O,
) -> Result<bool, Failure<'a>> {
    let view = View {
        selection: wanted.selection(),
        filter: wanted.filter(),
        followed: wanted.followed(),
        shape: shape_of(options),
        form: form_of(options, limit),
    };
    let mut file = open(rt, options.file)?;
    let mut bytes = Vec::new(rt.alloc());
    let shown = view_by_opening(rt, options, &view, &mut file, &mut bytes, output);
    drop(bytes);
    drop(file);
    shown
}

fn form_of(options: &ShowOptions<'_>, limit: usize) -> Form {
    if options.is_json {
        Form::Json(limit)
    } else {
        Form::Text(limit)
    }
}

fn shape_of(options: &ShowOptions<'_>) -> Shape {
    if options.in_figures {
        Shape::Figures
    } else if options.in_exchanges {
        Shape::Exchanges
    } else if options.in_pairs {
        Shape::Pairs
    } else {
        Shape::Records
    }
}

/// Shows a file whose first bytes go into an empty buffer.
fn view_by_opening<'a, F: Read, R: Files + AllocGlobal, O: Write>(
    rt: &R,
    options: &ShowOptions<'a>,
    view: &View<'_>,
    file: &mut F,
    bytes: &mut Vec<u8>,
    output: &mut O,
) -> Result<bool, Failure<'a>> {
    match is_transcript_read(options.file, file, bytes) {
        Ok(true) => view_timed(rt, options, view, bytes.as_slice().chain(file), output),
        Ok(false) => {
            let file = bytes.as_slice().chain(file);
            view_rows(rt.alloc(), options, view.form, file, output)?;
            Ok(true)
        }
        Err(failure) => Err(failure),
    }
}

/// Shows a transcript, with its times if there are any.
fn view_timed<'a, F: Read + Drop, R: Files + AllocGlobal, O: Write>(
    rt: &R,
    options: &ShowOptions<'a>,
    view: &View<'_>,
    file: F,
    output: &mut O,
) -> Result<bool, Failure<'a>> {
    match open_times(rt, options.times) {
        Ok(times) => view_records(rt, options, view, file, times, output),
        Err(failure) => {
            drop(file);
            Err(failure)
        }
    }
}

/// Opens the file of times, if there is one, to be read piece by piece.
fn open_times<'a, R: Files + AllocGlobal>(
    rt: &R,
    name: Option<&'a str>,
) -> Result<Option<BufReader<R::File>>, Failure<'a>> {
    let Some(name) = name else {
        return Ok(None);
    };
    match BufReader::new(rt.alloc(), open(rt, name)?) {
        Ok(file) => Ok(Some(file)),
        Err(error) => Err(Failure::reading(name, &error)),
    }
}

fn view_records<'a, F: Read + Drop, C: Read + Drop, R: Files + AllocGlobal, O: Write>(
    rt: &R,
    options: &ShowOptions<'a>,
    view: &View<'_>,
    file: F,
    times: Option<C>,
    output: &mut O,
) -> Result<bool, Failure<'a>> {
    let mut clock = Clock::new(rt.alloc(), times);
    let shown = match Reader::new(rt.alloc(), Tally::new(file)) {
        Ok(mut records) => {
            let shown = show_records(rt.alloc(), &mut records, &mut clock, view, output);
            drop(records);
            shown
        }
        Err(error) => Err(ViewError::Transcript(error)),
    };
    drop(clock);
    match shown {
        Ok(has_shown) => Ok(has_shown),
        Err(error) => {
            let failure = failure_of(rt, options, &error);
            drop(error);
            Err(failure)
        }
    }
}

/// Why a transcript is not shown to its end, as a failure of the run.
fn failure_of<'a, R: Files + AllocGlobal>(
    rt: &R,
    options: &ShowOptions<'a>,
    error: &ViewError,
) -> Failure<'a> {
    let times = options.times.unwrap_or("");
    match error {
        ViewError::Transcript(error) => Failure::of_transcript(*error, options.file),
        ViewError::Times(TimesError::Magic) => no_times(rt, times),
        ViewError::Times(error) => Failure::of_text(format!(in rt.alloc(); "times: {error}")),
        ViewError::Spare { entry } => {
            Failure::of_text(format!(in rt.alloc(); "times: entry {entry}: Trailing"))
        }
        ViewError::Clock(error) => Failure::reading(times, error),
        ViewError::Output(error) => Failure::writing(STANDARD_OUTPUT, error),
        ViewError::NoMemory => Failure::OutOfMemory,
    }
}

/// Why the file `name` has no times: what it is, if that is known.
fn no_times<'a, R: Files + AllocGlobal>(rt: &R, name: &str) -> Failure<'a> {
    let message = match Faulty::of_times(rt, name) {
        Some(file) => format!(in rt.alloc(); "times: {file}"),
        None => {
            let fault = TimesError::Magic;
            format!(in rt.alloc(); "times: {fault}")
        }
    };
    Failure::of_text(message)
}

/// Shows a file that is no transcript, as JSON.
fn view_rows<'a, F: Read + Drop, O: Write>(
    alloc: Global,
    options: &ShowOptions<'a>,
    form: Form,
    file: F,
    output: &mut O,
) -> Result<(), Failure<'a>> {
    let file = shown_tree(alloc, options.file, file)?;
    let shown = put_rows(alloc, options, form, &file, output);
    drop(file);
    shown
}

fn put_rows<'a, O: Write>(
    alloc: Global,
    options: &ShowOptions<'a>,
    form: Form,
    file: &TreeFile,
    output: &mut O,
) -> Result<(), Failure<'a>> {
    match form {
        Form::Json(limit) if !picks_records(options) => printed(put_tree(file, limit, output)),
        _ => Err(no_transcript(alloc, options.file)),
    }
}

/// The failure for options that select records of a file that has none.
fn no_transcript<'a>(alloc: Global, name: &str) -> Failure<'a> {
    let name = Named(input_name(name));
    Failure::of_text(format!(in alloc; "{name} is a tree file, and has no records to select"))
}
