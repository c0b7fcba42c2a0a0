//! The subcommand `infer`: audits of sessions whose tree nobody knows.
ghost use Rattle.std.specs.Prelude.{◌≡◌, true, IfOk, IfErr, IfSome, OnOk};
ghost use Rattle.sftp_infer.specs.Texts.{bytes_of};
ghost use Rattle.sftp_files.specs.declared.messages.Ending.TheVariants as endings;
ghost use Rattle.sftp_files.specs.Failures.{IsUnwritten, IsUsage};
ghost use Rattle.sftp_verdicts.specs.Files.{Becomes};
ghost use Rattle.sftp_verdicts.specs.Verdicts.{IsAuditStatus, accounts_under};
ghost use Rattle.sftp_inferring.specs.declared.inferences.Found.TheVariants as founds;
ghost use Rattle.sftp_inferring.specs.Inferences.{AreWritten, IsInferred, with_umask};

use crate::inferences::{Found, Inferred, Judging, find};
use crate::inferred_lines::{
    put_assumed, put_checked, put_clash, put_excess, put_exchange, put_refusal, put_spent,
    put_strictness, put_way,
};
use crate::inferred_objects::{print_inferred, print_unfit, print_untold};
use sftp_audit::Refusal;
use sftp_commands::is_lost;
use sftp_files::{Ending, Failure, System, print, read_at_most};
use sftp_infer::{Excess, Search, Settings, TreeText};
use sftp_path::{DEPTH_LIMIT, NoMemory, place_of_text};
use sftp_profile::Profile;
use sftp_verdicts::{
    InferOptions, StoredFile, Stores, TRANSCRIPT_LOST, asked_profile, parts_of_line, record_of,
};
use std::alloc::Global;
use std::io::Write;

/// Why both trees are not written.
const START_LOST: &str = "'--out' names the file of the tree at the start";

/// Why no tree is looked for with a home.
const WRONG_HOME: &str = "'--home' is no absolute path without '.', '..' and needless '/'";

/// The passes of a search, without an option.
const PASSES: u32 = 3_000;

/// The most bytes that the files of a session may have in all beside those of the transcript, without an option.
const FILES: u64 = 1 << 30;

/// Infers a tree from a session, and audits the session with it.
///
/// # Errors
///
/// `Usage` if the options cannot be meant so, such as a tree in the file of the transcript; a malformed transcript; a
/// file or a stream that cannot be read or written; and memory that ran out, or a session whose tree would need more.
pub fn infer<'a, R: System, O: Write, E: Write>(
    rt: &R,
    options: &InferOptions<'a>,
    output: &mut O,
    errors: &mut E,
) -> Result<Ending, Failure<'a>>
    ensures { IsAuditStatus result }
{
    if let Some(why) = misuse_of(rt, options)? {
        return Err(Failure::of_misuse(rt.alloc(), why));
    }
    let asked = asked_of(rt.alloc(), options)?;
    match read_at_most(rt, asked.transcript, asked.memory) {
        Ok(session) => {
            let ending = infer_to_files(rt, &asked, session.as_slice(), output, errors);
            drop(session);
            ending
        }
        Err(failure) => Err(failure),
    }
}

/// The options with the umask in their profile.
fn asked_of<'a>(alloc: Global, options: &InferOptions<'a>) -> Result<InferOptions<'a>, Failure<'a>>
    ensures ok { IfOk result (λ asked. asked ≡ with_umask options.now) }
    ensures err { IfErr result IsUsage }
{
    let mut asked = *options;
    asked.profile = asked_profile(alloc, options.profile, options.umask)?;
    Ok(asked)
}

/// Infers a tree from this session, and writes to the files that have the names in the options.
fn infer_to_files<'a, R: System, O: Write, E: Write>(
    rt: &R,
    options: &InferOptions<'a>,
    session: &[u8],
    output: &mut O,
    errors: &mut E,
) -> Result<Ending, Failure<'a>>
    ensures { IsAuditStatus result }
{
    let mut tree = StoredFile::new(rt, options.tree, options.keeping);
    let mut best = StoredFile::new(rt, options.best, options.keeping);
    let mut out = StoredFile::new(rt, options.out, options.keeping);
    let ending = infer_from(
        rt, options, session, &mut tree, &mut best, &mut out, output, errors,
    );
    drop(out);
    drop(best);
    drop(tree);
    ending
}

/// Why options cannot be meant so, if they cannot.
fn misuse_of<R: System>(
    rt: &R,
    options: &InferOptions<'_>,
) -> Result<Option<&'static str>, NoMemory> {
    if loses_transcript(rt, options) {
        return Ok(Some(TRANSCRIPT_LOST));
    }
    if loses_start(rt, options) {
        return Ok(Some(START_LOST));
    }
    match options.home {
        Some(home) if !is_home(rt.alloc(), home)? => Ok(Some(WRONG_HOME)),
        _ => Ok(None),
    }
}

/// Whether the tree at the end would be written over the one at the start.
fn loses_start<R: System>(rt: &R, options: &InferOptions<'_>) -> bool {
    match (options.out, options.tree) {
        (Some(out), Some(tree)) => out == tree || is_lost(rt, Some(out), Some(tree)),
        _ => false,
    }
}

/// Whether a tree can have this home.
fn is_home(alloc: Global, text: &str) -> Result<bool, NoMemory> {
    match place_of_text(alloc, text.as_bytes())? {
        Some(place) => {
            let depth = place.depth();
            drop(place);
            Ok(depth <= DEPTH_LIMIT)
        }
        None => Ok(false),
    }
}

/// Whether a tree would be written into the file of the transcript.
fn loses_transcript<R: System>(rt: &R, options: &InferOptions<'_>) -> bool {
    let read = Some(options.transcript);
    is_lost(rt, options.tree, read)
        || is_lost(rt, options.best, read)
        || is_lost(rt, options.out, read)
}

/// What a search takes for granted by these options, of a session of so many bytes.
fn settings_of(options: &InferOptions<'_>, length: usize) -> Settings {
    let profile = options.profile.unwrap_or(Profile::strict());
    let passes = options.passes.unwrap_or(u64::from(PASSES));
    Settings {
        is_raised: options.is_raised,
        is_strict: options.profile.is_none(),
        any_code: profile.codes,
        may_deny: profile.denied,
        may_be_full: profile.full,
        umask: if profile.made {
            Some(profile.umask)
        } else {
            None
        },
        link_first: profile.symlink_draft,
        most: match options.memory {
            Some(memory) => memory.saturating_sub(length as u64),
            None => FILES.saturating_add(length as u64),
        },
        passes: u32::try_from(passes).unwrap_or(PASSES).min(100_000),
    }
}

/// Infers a tree from this session, and writes it, the tree at its end, or that of the pass that came furthest.
fn infer_from<'a, T, B, K, R, O, E>(
    rt: &R,
    options: &InferOptions<'a>,
    session: &[u8],
    tree: &mut T,
    best: &mut B,
    out: &mut K,
    output: &mut O,
    errors: &mut E,
) -> Result<Ending, Failure<'a>>
where
    T: Stores<'a>,
    B: Stores<'a>,
    K: Stores<'a>,
    R: System,
    O: Write,
    E: Write,
    ensures inferred { IfOk result (IsInferred (accounts_under options.now.profile) options.now
        (record { old = T.stored tree.old; new = T.stored tree.new })
        (record { old = K.stored out.old; new = K.stored out.new }) session.now) }
    ensures status { IsAuditStatus result }
{
    let home = match options.home {
        Some(home) => Some(home.as_bytes()),
        None => None,
    };
    let settings = settings_of(options, session.len());
    let mut search = Search::new(rt.alloc(), session, home, settings)?;
    let how = Judging {
        alloc: rt.alloc(),
        by: options.profile,
        wants_end: options.out.is_some(),
    };
    let ending = search_and_report(
        rt,
        how,
        options,
        session,
        &mut search,
        tree,
        best,
        out,
        output,
        errors,
    );
    drop(search);
    ending
}

/// Infers a tree from this session by a search, and says what came of it.
fn search_and_report<'a, T, B, K, R, O, E>(
    rt: &R,
    how: Judging,
    options: &InferOptions<'a>,
    session: &[u8],
    search: &mut Search<'_>,
    tree: &mut T,
    best: &mut B,
    out: &mut K,
    output: &mut O,
    errors: &mut E,
) -> Result<Ending, Failure<'a>>
where
    T: Stores<'a>,
    B: Stores<'a>,
    K: Stores<'a>,
    R: System,
    O: Write,
    E: Write,
    ensures inferred { IfSome options.now.out (λ _. how.wants_end ≡ true) →
        IfOk result (IsInferred (accounts_under how.by) options.now
        (record { old = T.stored tree.old; new = T.stored tree.new })
        (record { old = K.stored out.old; new = K.stored out.new }) session.now) }
    ensures status { IsAuditStatus result }
{
    match find(how, session, search) {
        Ok(found) => {
            let ending = report(
                rt, options, session, search, &found, tree, best, out, output, errors,
            );
            drop(found);
            ending
        }
        Err(_) => Err(Failure::OutOfMemory),
    }
}

/// Says what came of a search.
fn report<'a, T, B, K, R, O, E>(
    rt: &R,
    options: &InferOptions<'a>,
    session: &[u8],
    search: &Search<'_>,
    found: &Found<'_>,
    tree: &mut T,
    best: &mut B,
    out: &mut K,
    output: &mut O,
    errors: &mut E,
) -> Result<Ending, Failure<'a>>
where
    T: Stores<'a>,
    B: Stores<'a>,
    K: Stores<'a>,
    R: System,
    O: Write,
    E: Write,
    ensures written { IfOk result (λ ending. ending ≡ endings.Done → AreWritten options.now
        (record { old = T.stored tree.old; new = T.stored tree.new })
        (record { old = K.stored out.old; new = K.stored out.new }) found.now) }
    ensures status { IsAuditStatus result }
{
    match found {
        Found::Inferred(inferred) => accept(rt, options, inferred, tree, out, output, errors),
        Found::Malformed(error) => Err(Failure::of_transcript(*error, options.transcript)),
        Found::OutOfMemory => Err(Failure::OutOfMemory),
        Found::Refused(refusal) => {
            report_unpaired(rt.alloc(), options, session, *refusal, output, errors)
        }
        Found::TooLarge(excess) => exceed(options, *excess, output, errors),
        Found::Nothing => refuse(rt.alloc(), options, session, search, best, output, errors),
        Found::Unfit(_) => refuse(rt.alloc(), options, session, search, best, output, errors),
    }
}

/// Says that the records of a session do not pair off, and how it can be judged if it was cut; shows where if that is
/// asked for. If memory runs out for that, it says so, and no more.
fn report_unpaired<'a, O: Write, E: Write>(
    alloc: Global,
    options: &InferOptions<'a>,
    session: &[u8],
    refusal: Refusal,
    output: &mut O,
    errors: &mut E,
) -> Result<Ending, Failure<'a>>
    ensures status { IsAuditStatus result }
    ensures refused { IfOk result (λ ending. ending ≡ endings.Refused) }
{
    let record = record_of(refusal);
    if options.is_json {
        return print_unpaired(alloc, refusal, output);
    }
    put_refusal(refusal, output)?;
    if !options.explains || put_exchange(alloc, session, "found", record, errors).is_some() {
        put_way(refusal, errors);
    }
    Ok(Ending::Refused)
}

/// Prints the object of a session whose records do not pair off. Its kind is what the line of the refusal ends in.
fn print_unpaired<'a, O: Write>(
    alloc: Global,
    refusal: Refusal,
    output: &mut O,
) -> Result<Ending, Failure<'a>>
    ensures status { IsAuditStatus result }
    ensures refused { IfOk result (λ ending. ending ≡ endings.Refused) }
{
    let line = format!(in alloc; "{refusal}")?;
    let (_, kind) = parts_of_line(line.as_str());
    let printed = print_untold(kind, record_of(refusal), 0, output);
    drop(line);
    printed
}

/// Says that the tree of what a session tells would be larger than it may be, or than any tree is.
fn exceed<'a, O: Write, E: Write>(
    options: &InferOptions<'a>,
    excess: Excess,
    output: &mut O,
    errors: &mut E,
) -> Result<Ending, Failure<'a>>
    ensures status { IsAuditStatus result }
    ensures refused { IfOk result (λ ending. ending ≡ endings.Refused) }
{
    let has_memory = options.memory.is_some();
    put_excess(excess, has_memory, errors);
    match excess {
        Excess::File(_) => print_none(options.is_json, Untold::Nothing, output),
        Excess::Entries => print_none(options.is_json, Untold::Nothing, output),
        Excess::Files(_) if has_memory => Err(Failure::OverLimit(options.transcript)),
        Excess::Files(_) => Err(Failure::OutOfMemory),
        Excess::Paths(_) => Err(Failure::OutOfMemory),
    }
}

/// How far a search came that found no tree.
#[derive(Clone, Copy)]
enum Untold {
    /// Nobody knows.
    Nothing,
    /// To a record that it could not explain.
    Unexplained(u64),
    /// To a record that it could not fit to an earlier one.
    Unfit(u64, u64),
    /// To a record that contradicts an earlier one, so that there is no tree.
    Contradiction(u64, u64),
}

/// Says that no tree was found, and how far the search came.
fn print_none<'a, O: Write>(
    is_json: bool,
    why: Untold,
    output: &mut O,
) -> Result<Ending, Failure<'a>>
    ensures status { IsAuditStatus result }
    ensures refused { IfOk result (λ ending. ending ≡ endings.Refused) }
{
    if is_json {
        return print_why(why, output);
    }
    print_line(why, output)
}

/// Prints the object of a session for which no tree was found.
fn print_why<'a, O: Write>(why: Untold, output: &mut O) -> Result<Ending, Failure<'a>>
    ensures status { IsAuditStatus result }
    ensures refused { IfOk result (λ ending. ending ≡ endings.Refused) }
{
    match why {
        Untold::Nothing => print_untold("NotFound", 0, 0, output),
        Untold::Unexplained(found) => print_untold("Unexplained", found, 0, output),
        Untold::Unfit(found, told) => print_unfit(found, told, output),
        Untold::Contradiction(found, told) => print_untold("Contradiction", found, told, output),
    }
}

/// Writes the files of an accepted session, and says so.
fn accept<'a, T: Stores<'a>, K: Stores<'a>, R: System, O: Write, E: Write>(
    rt: &R,
    options: &InferOptions<'a>,
    inferred: &Inferred<'_>,
    tree: &mut T,
    out: &mut K,
    output: &mut O,
    errors: &mut E,
) -> Result<Ending, Failure<'a>>
    ensures written { OnOk result (AreWritten options.now
        (record { old = T.stored tree.old; new = T.stored tree.new })
        (record { old = K.stored out.old; new = K.stored out.new }) (founds.Inferred inferred.now)) }
    ensures status { IsAuditStatus result }
{
    write_files(rt, options, inferred, tree, out)?;
    put_assumed(&inferred.candidate, errors);
    if options.explains {
        put_checked(&inferred.candidate, errors);
    }
    if options.is_json {
        return print_object(rt.alloc(), inferred, output);
    }
    let requests = inferred.ended.requests;
    let entries = inferred.candidate.entries;
    print(
        output,
        format_args!("inferred {entries} entries from {requests} requests; accepted\n"),
        Ending::Done,
    )
}

/// Writes the tree file of the start and that of the end, if files are named for them. Two names of one file that was
/// not there are known for that only once the first tree is written.
fn write_files<'a, T: Stores<'a>, K: Stores<'a>, R: System>(
    rt: &R,
    options: &InferOptions<'a>,
    inferred: &Inferred<'_>,
    tree: &mut T,
    out: &mut K,
) -> Result<(), Failure<'a>>
    ensures written { OnOk result (AreWritten options.now
        (record { old = T.stored tree.old; new = T.stored tree.new })
        (record { old = K.stored out.old; new = K.stored out.new }) (founds.Inferred inferred.now)) }
    ensures err { IfErr result IsUnwritten }
{
    if options.tree.is_some() {
        write_text(&inferred.candidate.tree, tree)?;
    }
    match (options.out, &inferred.ended.tree) {
        (Some(name), Some(_)) if loses_start(rt, options) => Err(Failure::Unfit(name, START_LOST)),
        (Some(_), Some(end)) => out.store(end.as_slice()),
        _ => Ok(()),
    }
}

/// Writes a tree file.
fn write_text<'a, K: Stores<'a>>(text: &TreeText<'_>, file: &mut K) -> Result<(), Failure<'a>>
    ensures written { OnOk result (Becomes (K.stored file.old) (K.stored file.new) (bytes_of text.now)) }
    ensures err { IfErr result IsUnwritten }
{
    match text.whole() {
        Ok(bytes) => {
            let written = file.store(bytes.as_slice());
            drop(bytes);
            written
        }
        Err(_no_memory) => Err(Failure::OutOfMemory),
    }
}

/// Prints the object of an accepted session, with what its tree assumes.
fn print_object<'a, O: Write>(
    alloc: Global,
    inferred: &Inferred<'_>,
    output: &mut O,
) -> Result<Ending, Failure<'a>>
    ensures { IsAuditStatus result }
{
    let mut lines = Vec::new(alloc);
    put_assumed(&inferred.candidate, &mut lines);
    let printed = print_inferred(
        inferred.ended.requests,
        &inferred.candidate,
        lines.as_slice(),
        output,
    );
    drop(lines);
    printed
}

/// Says that no tree was found, and how far the search came.
fn refuse<'a, B: Stores<'a>, O: Write, E: Write>(
    alloc: Global,
    options: &InferOptions<'a>,
    session: &[u8],
    search: &Search<'_>,
    best: &mut B,
    output: &mut O,
    errors: &mut E,
) -> Result<Ending, Failure<'a>>
    ensures status { IsAuditStatus result }
    ensures refused { IfOk result (λ ending. ending ≡ endings.Refused) }
{
    write_best(options, search, best)?;
    if search.is_spent() {
        put_spent(errors);
    }
    let is_sure = search.is_sure()?;
    let printed = print_none(options.is_json, untold_by(search, is_sure), output);
    if !options.is_json && printed.is_ok() {
        put_reasons(alloc, options, session, search, is_sure, errors);
    }
    printed
}

/// How far a search came; `is_sure` says whether the records at which it ended contradict each other.
fn untold_by(search: &Search<'_>, is_sure: bool) -> Untold {
    match search.clash() {
        Some(clash) if is_sure => Untold::Contradiction(clash.found, clash.told),
        Some(clash) if clash.told > 0 => Untold::Unfit(clash.found, clash.told),
        Some(clash) if clash.found > 0 => Untold::Unexplained(clash.found),
        _ => Untold::Nothing,
    }
}

/// Shows the records at which a search ended, if that is asked for, and says if a profile may help.
fn put_reasons<E: Write>(
    alloc: Global,
    options: &InferOptions<'_>,
    session: &[u8],
    search: &Search<'_>,
    is_sure: bool,
    errors: &mut E,
) {
    if options.explains {
        put_clash(alloc, session, search, is_sure, errors);
    }
    if options.profile.is_none() && is_unexplained(search) {
        put_strictness(errors);
    }
}

/// Whether the search ended at a record that nothing explains.
fn is_unexplained(search: &Search<'_>) -> bool {
    match search.clash() {
        Some(clash) => clash.told == 0 && clash.found > 0,
        None => false,
    }
}

/// Writes the tree of the pass that came furthest, if there is one and a file is named for it.
fn write_best<'a, B: Stores<'a>>(
    options: &InferOptions<'a>,
    search: &Search<'_>,
    best: &mut B,
) -> Result<(), Failure<'a>>
    ensures { IfErr result IsUnwritten }
{
    match (options.best, search.best()) {
        (Some(_), Some(tree)) => write_text(tree, best),
        _ => Ok(()),
    }
}

/// Prints the line of a session for which no tree was found.
fn print_line<'a, O: Write>(why: Untold, output: &mut O) -> Result<Ending, Failure<'a>>
    ensures status { IsAuditStatus result }
    ensures refused { IfOk result (λ ending. ending ≡ endings.Refused) }
{
    match why {
        Untold::Nothing => print(output, "no tree found\n", Ending::Refused),
        Untold::Unexplained(found) => print(
            output,
            format_args!("no tree found: the search came to record {found}\n"),
            Ending::Refused,
        ),
        Untold::Unfit(found, told) => print(
            output,
            format_args!(
                "no tree found: the search came to record {found}, and could not fit it to record {told}\n"
            ),
            Ending::Refused,
        ),
        Untold::Contradiction(found, told) => print(
            output,
            format_args!("no tree found: record {found} contradicts record {told}\n"),
            Ending::Refused,
        ),
    }
}
