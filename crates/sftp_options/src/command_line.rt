//! The command line: the parser, made from the tables of arguments, and what a command line asks for.
ghost use Rattle.std.specs.Prelude.{◌≡◌, ℕ, List, None, Some, MatchOption, codes};
ghost use Rattle.std.specs.Option.{option_map};
ghost use Rattle.std.specs.Str.Parse.{digits_value};
ghost use Rattle.clap.specs.Matches.{found_of};
ghost use Rattle.clap.specs.Simple.{subcommand_rows_of};
ghost use Rattle.clap.specs.Walk.{Row, rows_of};
ghost use Rattle.sftp_verdicts.specs.Umasks.{IsPermissions};
ghost use Rattle.sftp_options.specs.Options.{value_in, is_given};
ghost use Rattle.sftp_options.specs.Options.{IsAuditAsked, IsAuditRequest, LacksFile};

use crate::arguments::{
    AUDIT, Argument, BLANK, DIFF, EXPORT, Form, IMPORT, INFER, MAKE, RAISE, SERVE, SHOW,
};
use crate::{help, importing, profiles, searching, several, together};
use clap::error::ErrorKind;
use clap::{Arg, ArgAction, ArgMatches, Command, Error, value_parser};
use sftp_files::{
    DiffForm, Failure, ImportOptions, Keeping, MORE, PRIVATE, RaiseTo, ServeOptions, ShowOptions,
};
use sftp_overlapping::TogetherOptions;
use sftp_vary::{Freedoms, Style, Variation, Words};
use sftp_verdicts::{AuditOptions, EachOptions, InferOptions, octal};
use std::alloc::{AllocError, Global};

/// What a command line asks for.
#[derive(Drop)]
pub enum Request<'a> {
    /// Serve a session, with replies of this style.
    Serve(ServeOptions<'a>, Style),
    /// Audit a session.
    Audit(AuditOptions<'a>),
    /// Audit sessions that overlapped, together.
    AuditTogether(TogetherOptions<'a>),
    /// Audit the sessions of several transcripts, each by itself.
    AuditEach(EachOptions<'a>),
    /// Infer a tree from a session, and audit the session with it.
    Infer(InferOptions<'a>),
    /// Write the blank tree to a file.
    Blank {
        file: &'a str,
        keeping: Keeping,
    },
    /// Write the tree of a tree file, with other limits, to another file.
    Raise {
        tree: &'a str,
        to: RaiseTo,
        file: &'a str,
        keeping: Keeping,
    },
    /// Show what a transcript or a tree file holds.
    Show(ShowOptions<'a>),
    /// Make a transcript or a tree file from its text.
    Make {
        file: &'a str,
        keeping: Keeping,
    },
    /// Show how two tree files differ.
    Diff {
        old: &'a str,
        new: &'a str,
        memory: Option<u64>,
        form: DiffForm,
        says_progress: bool,
    },
    /// Make a tree file from an archive.
    Import {
        options: ImportOptions<'a>,
        says_progress: bool,
    },
    /// Make an archive from a tree file.
    Export {
        file: &'a str,
        says_progress: bool,
    },
    /// Print this text: help or the version.
    Help(String),
}

/// Parses the command line of the program in this version. The first word is the program's name. To ask for help or the
/// version is not an error.
pub fn parse<'a>(
    alloc: Global,
    version: &'a str,
    words: &'a [String],
) -> Result<Request<'a>, Failure<'a>> {
    match matched(alloc, version, words) {
        Ok(request) => Ok(request),
        Err(error) => {
            let request = help_or_usage(alloc, &error, words);
            drop(error);
            request
        }
    }
}

/// What an error of the parser means: memory ran out, help or the version was asked for, or usage is bad. The parser's
/// message may have words of the command line as they are.
fn help_or_usage<'a>(
    alloc: Global,
    error: &Error,
    words: &[String],
) -> Result<Request<'a>, Failure<'a>> {
    if error.kind() == ErrorKind::OutOfMemory {
        return Err(Failure::OutOfMemory);
    }
    let text = format!(in alloc; "{error}")?;
    if error.use_stderr() {
        Err(usage_failure(alloc, text, words))
    } else {
        Ok(Request::Help(text))
    }
}

/// Bad usage with the parser's message, or with another one if a word could pass for lines of it.
fn usage_failure<'a>(alloc: Global, text: String, words: &[String]) -> Failure<'a> {
    if !has_control(words) {
        return Failure::Usage(text);
    }
    drop(text);
    Failure::of_usage(format!(in alloc;
        "error: bad usage, and a word of the command line has a control character\n{MORE}"
    ))
}

/// Whether one of the words has a control character.
fn has_control(words: &[String]) -> bool {
    for word in words {
        if has_control_character(word.as_str()) {
            return true;
        }
    }
    false
}

fn has_control_character(word: &str) -> bool {
    for character in word.chars() {
        if character.is_control() {
            return true;
        }
    }
    false
}

fn matched<'a>(alloc: Global, version: &'a str, words: &'a [String]) -> Result<Request<'a>, Error> {
    let mut command = command(alloc, version)?;
    let request = matched_by(alloc, &mut command, words);
    drop(command);
    request
}

fn matched_by<'a>(
    alloc: Global,
    command: &mut Command<'a>,
    words: &'a [String],
) -> Result<Request<'a>, Error> {
    let matches = command.try_get_matches_from_mut(words)?;
    let request = request_of(alloc, &matches);
    drop(matches);
    match request? {
        Some(request) => Ok(request),
        None => Err(command.error(ErrorKind::MissingSubcommand, "a subcommand is required")?),
    }
}

/// What a command line asks for.
fn request_of<'a>(
    alloc: Global,
    matches: &ArgMatches<'a>,
) -> Result<Option<Request<'a>>, AllocError> {
    if let Some(request) = together::request_of(alloc, matches)? {
        return Ok(Some(request));
    }
    match several::request_of(alloc, matches)? {
        Some(request) => Ok(Some(request)),
        None => Ok(requested(matches)),
    }
}

// Slow to prove: seven calls each of which may give no request.
fn requested<'a>(matches: &ArgMatches<'a>) -> Option<Request<'a>>
    ensures { (rows : List Row) → subcommand_rows_of matches.now ≡ Some (codes "audit", rows)
        → MatchOption result (LacksFile rows) (IsAuditRequest rows) }
{
    let (name, given) = matches.subcommand()?;
    match name {
        "serve" => serve_request(given),
        "audit" => audit_options(given).map(Request::Audit),
        "show" => show_options(given).map(Request::Show),
        "raise" => raise_request(given),
        "diff" => diff_request(given),
        "infer" => searching::options_of(given).map(Request::Infer),
        "import" => import_request(given),
        "export" => export_request(given),
        _ => file_request(name, given.get_str("file")?, keeping_of(given)),
    }
}

/// The request of a subcommand that takes nothing but a file.
fn file_request<'a>(name: &str, file: &'a str, keeping: Keeping) -> Option<Request<'a>> {
    Some(match name {
        "make" => Request::Make { file, keeping },
        _ => Request::Blank { file, keeping },
    })
}

fn show_options<'a>(given: &ArgMatches<'a>) -> Option<ShowOptions<'a>> {
    Some(ShowOptions {
        file: given.get_str("file")?,
        is_full: given.get_flag("full"),
        data: given.get_str("data"),
        memory: given.get_one("memory"),
        explains: given.get_flag("explain"),
        times: given.get_str("times"),
        id: given.get_one("id"),
        path: given.get_str("path"),
        handle: given.get_str("handle"),
        records: given.get_str("records"),
        in_pairs: given.get_flag("pairs"),
        marks: given.get_flag("overtaken"),
        is_json: given.get_flag("json"),
        filter: given.get_str("where"),
        handle_of: given.get_str("handle-of"),
        in_exchanges: given.get_flag("exchanges"),
        in_figures: given.get_flag("stat"),
    })
}

fn diff_request<'a>(given: &ArgMatches<'a>) -> Option<Request<'a>> {
    let old = given.get_str("old")?;
    let new = given.get_str("new")?;
    let memory = given.get_one("memory");
    let form = DiffForm {
        with_times: given.get_flag("times"),
        is_json: given.get_flag("json"),
    };
    let says_progress = given.get_flag("progress");
    Some(Request::Diff {
        old,
        new,
        memory,
        form,
        says_progress,
    })
}

fn import_request<'a>(given: &ArgMatches<'a>) -> Option<Request<'a>> {
    let options = importing::options_of(given)?;
    let says_progress = given.get_flag("progress");
    Some(Request::Import {
        options,
        says_progress,
    })
}

fn export_request<'a>(given: &ArgMatches<'a>) -> Option<Request<'a>> {
    let file = given.get_str("file")?;
    let says_progress = given.get_flag("progress");
    Some(Request::Export {
        file,
        says_progress,
    })
}

fn raise_request<'a>(given: &ArgMatches<'a>) -> Option<Request<'a>> {
    let tree = given.get_str("tree")?;
    let to = raise_to(given.get_str("to").unwrap_or("highest"));
    let file = given.get_str("file")?;
    let keeping = keeping_of(given);
    Some(Request::Raise {
        tree,
        to,
        file,
        keeping,
    })
}

/// The limits of this name.
fn raise_to(which: &str) -> RaiseTo {
    match which {
        "fit" => RaiseTo::Fit,
        "most" => RaiseTo::Most,
        _ => RaiseTo::Highest,
    }
}

/// How the options say that files are written.
pub(crate) fn keeping_of(given: &ArgMatches<'_>) -> Keeping {
    Keeping {
        mode: mode_of(given.get_str("mode")),
        is_synced: !given.get_flag("no-sync"),
    }
}

/// The permissions of this text, or those without the option.
fn mode_of(text: Option<&str>) -> u32
    ensures given { (digits : List ℕ) → option_map (λ mode. mode.now) text.entry ≡ Some digits
        → IsPermissions digits → result ≡ digits_value 8 digits }
    ensures usual { option_map (λ mode. mode.now) text.entry ≡ None → result ≡ PRIVATE }
{
    match text {
        Some(text) => octal(text).unwrap_or(PRIVATE),
        None => PRIVATE,
    }
}

fn serve_request<'a>(given: &ArgMatches<'a>) -> Option<Request<'a>> {
    let options = serve_options(given)?;
    let words = Words {
        texts: given.get_flag("texts"),
        long_names: given.get_flag("long-names"),
    };
    Some(Request::Serve(
        options,
        Style {
            variation: variation_of(given),
            words,
            has_times: given.get_flag("times"),
        },
    ))
}

/// How a session is varied, if it is: by the seed 0, if only what is free is given.
fn variation_of(given: &ArgMatches<'_>) -> Option<Variation> {
    let seed = given.get_one("vary");
    let only = given.get_strs("only");
    let is_wild = given.get_flag("wild");
    if seed.is_none() && only.is_none() && !is_wild {
        return None;
    }
    let freedoms = match only {
        Some(names) => Freedoms::named(names),
        None => Freedoms::all(),
    };
    Some(Variation {
        seed: seed.unwrap_or(0),
        freedoms: if is_wild {
            freedoms.with_wild()
        } else {
            freedoms
        },
    })
}

fn serve_options<'a>(given: &ArgMatches<'a>) -> Option<ServeOptions<'a>> {
    Some(ServeOptions {
        tree: given.get_str("tree")?,
        save: given.get_str("save"),
        record: given.get_str("record"),
        shuffle: given.get_one("shuffle"),
        replay: given.get_str("replay"),
        is_verbose: given.get_flag("verbose"),
        memory: given.get_one("memory"),
        keeping: keeping_of(given),
    })
}

fn audit_options<'a>(given: &ArgMatches<'a>) -> Option<AuditOptions<'a>>
    ensures { let rows = rows_of (found_of given.now) in MatchOption result (LacksFile rows) (IsAuditAsked rows) }
{
    Some(AuditOptions {
        tree: value(given, "tree")?,
        transcript: value(given, "transcript")?,
        out: value(given, "out"),
        memory: given.get_one("memory"),
        keeping: keeping_of(given),
        explains: given.get_flag("explain"),
        is_json: given.get_flag("json"),
        cuts: flag(given, "cut"),
        keeps_going: flag(given, "keep-going"),
        most: given.get_one("most"),
        profile: profiles::profile_of(given),
        umask: value(given, "umask"),
        says_progress: given.get_flag("progress"),
        is_named: false,
    })
}

/// The value that the command line gives for the option of this name.
pub(crate) fn value<'a>(given: &ArgMatches<'a>, name: &str) -> Option<&'a str>
    ensures { option_map (λ text. text.now) result ≡ value_in (rows_of (found_of given.now)) name.now }
{
    given.get_str(name)
}

/// Whether the command line gives the flag of this name.
pub(crate) fn flag(given: &ArgMatches<'_>, name: &str) -> bool
    ensures { result ≡ is_given (value_in (rows_of (found_of given.now)) name.now) }
{
    value(given, name).unwrap_or("") == "true"
}

fn command<'a>(alloc: Global, version: &'a str) -> Result<Command<'a>, AllocError> {
    let command = Command::new(alloc, "sftpv3")
        .version(version)
        .about(help::ABOUT)
        .after_help(help::STATUSES)
        .subcommand_required(true);
    let serve = described(alloc, "serve", help::ABOUT_SERVE, help::AFTER_SERVE, SERVE);
    let command = with_subcommand(command, serve)?;
    let audit = described(alloc, "audit", help::ABOUT_AUDIT, help::AFTER_AUDIT, AUDIT);
    let command = with_subcommand(command, audit)?;
    let show = described(alloc, "show", help::ABOUT_SHOW, help::AFTER_SHOW, SHOW);
    let command = with_subcommand(command, show)?;
    let make = described(alloc, "make", help::ABOUT_MAKE, help::AFTER_MAKE, MAKE);
    let command = with_subcommand(command, make)?;
    with_tree_commands(alloc, command)
}

/// The command with the subcommands that compare or make trees.
fn with_tree_commands<'a>(alloc: Global, command: Command<'a>) -> Result<Command<'a>, AllocError> {
    let diff = described(alloc, "diff", help::ABOUT_DIFF, help::AFTER_DIFF, DIFF);
    let command = with_subcommand(command, diff)?;
    let infer = described(alloc, "infer", help::ABOUT_INFER, help::AFTER_INFER, INFER);
    let command = with_subcommand(command, infer)?;
    let import = described(
        alloc,
        "import",
        help::ABOUT_IMPORT,
        help::AFTER_IMPORT,
        IMPORT,
    );
    let command = with_subcommand(command, import)?;
    let export = described(
        alloc,
        "export",
        help::ABOUT_EXPORT,
        help::AFTER_EXPORT,
        EXPORT,
    );
    let command = with_subcommand(command, export)?;
    let raise = described(alloc, "raise", help::ABOUT_RAISE, help::AFTER_RAISE, RAISE);
    let command = with_subcommand(command, raise)?;
    let blank = Command::new(alloc, "blank").about(help::ABOUT_BLANK);
    with_subcommand(command, with_arguments(alloc, blank, BLANK))
}

/// The command with a further subcommand.
fn with_subcommand<'a>(
    command: Command<'a>,
    subcommand: Result<Command<'a>, AllocError>,
) -> Result<Command<'a>, AllocError> {
    match subcommand {
        Ok(subcommand) => command.subcommand(subcommand),
        Err(error) => {
            drop(command);
            Err(error)
        }
    }
}

/// The subcommand of this name, with what help says of it and behind it.
fn described<'a>(
    alloc: Global,
    name: &'a str,
    about: &'a str,
    after: &'a str,
    arguments: &'a [Argument<'a>],
) -> Result<Command<'a>, AllocError> {
    let command = Command::new(alloc, name).about(about).after_help(after);
    with_arguments(alloc, command, arguments)
}

/// The command with further arguments.
fn with_arguments<'a>(
    alloc: Global,
    command: Command<'a>,
    arguments: &'a [Argument<'a>],
) -> Result<Command<'a>, AllocError> {
    let mut command = command;
    for (name, form, help) in arguments {
        command = with_argument(command, new_argument(alloc, name, *form, help))?;
    }
    Ok(command)
}

/// The command with a further argument.
fn with_argument<'a>(
    command: Command<'a>,
    argument: Result<Arg<'a>, AllocError>,
) -> Result<Command<'a>, AllocError> {
    match argument {
        Ok(argument) => command.arg(argument),
        Err(error) => {
            drop(command);
            Err(error)
        }
    }
}

fn new_argument<'a>(
    alloc: Global,
    name: &'a str,
    form: Form<'a>,
    help: &'a str,
) -> Result<Arg<'a>, AllocError> {
    let arg = Arg::new(alloc, name).help(help);
    Ok(match form {
        Form::Flag => arg.long(name).action(ArgAction::SetTrue),
        Form::Place(label) => valued(arg, label).required(true),
        Form::Places(label) => arg.value_name(label).num_args(1..),
        Form::Required(label) => valued(arg.long(name), label).required(true),
        Form::Optional(label) => valued(arg.long(name), label),
        Form::Number(label) => { valued(arg.long(name), label).value_parser(value_parser!(u64)) }
        Form::OneOf(label, values) => valued(arg.long(name), label).value_parser(values),
        Form::SomeOf(label, values) => listed(arg.long(name), label, values),
        Form::With(label, other, excluded) => {
            return with_others(valued(arg.long(name), label), other, excluded);
        }
        Form::NumberWith(label, other, excluded) => {
            let arg = valued(arg.long(name), label).value_parser(value_parser!(u64));
            return with_others(arg, other, excluded);
        }
        Form::Several(label, other, excluded) => {
            let arg = arg.long(name).value_name(label).num_args(1..);
            return with_others(arg.action(ArgAction::Append), other, excluded);
        }
    })
}

/// The argument, which needs another one and can be given with none of those.
fn with_others<'a>(
    arg: Arg<'a>,
    other: &'a str,
    excluded: &[&'a str],
) -> Result<Arg<'a>, AllocError> {
    let arg = arg.requires_arg(other)?;
    arg.conflicts_with_all(excluded)
}

/// The argument with a value, which help calls by this label.
fn valued<'a>(arg: Arg<'a>, label: &'a str) -> Arg<'a> {
    arg.value_name(label).action(ArgAction::Set)
}

/// The argument with some of these values, with commas between them.
fn listed<'a>(arg: Arg<'a>, label: &'a str, values: &'a [&'a str]) -> Arg<'a> {
    arg.value_name(label)
        .value_delimiter(',')
        .value_parser(values)
        .action(ArgAction::Append)
}
