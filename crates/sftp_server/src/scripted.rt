//! Follows the script of a schedule, as far as the client and the core let it.
ghost use Rattle.std.specs.Prelude.{◌≡◌, ◌<◌, ◌≤◌, [], true, IfOk, IfErr, OnOk};
ghost use Rattle.sftp_server.specs.declared.ends.Stop.TheVariants as stops;
ghost use Rattle.sftp_server.specs.declared.ends.Stream.TheVariants as streams;
ghost use Rattle.sftp_server.specs.Queue.{owed};
ghost use Rattle.sftp_server.specs.Served.{stream_bytes};
ghost use Rattle.sftp_server.specs.Sessions.{IsLogging, CountsCall, Spares};
ghost use Rattle.sftp_server.specs.Ending.{FollowsOn, RepliesOn, Works, bytes_ahead};

use crate::answerers::Answerer;
use crate::cores::Core;
use crate::ends::Stop;
use crate::input::Input;
use crate::refusals::Did;
use crate::schedules::{Schedule, Step};
use crate::sending::flush;
use crate::taking::{Front, take_one};
use crate::working::{send_reply, work_off};
use sftp_handles::HandleTable;
use sftp_transcript::{Sink, Source, Writer};
use std::alloc::Global;

/// Follows the script of the schedule to its end, or as far as it can; then does what was taken and is not done, and
/// sends each reply that is left, in the order of the schedule. `output` is room for a packet.
///
/// # Errors
///
/// `NoMemory` if memory runs out; `Io` if a stream fails.
pub(crate) fn follow_script<
    R: Source,
    W: Sink,
    L: Sink,
    S: Schedule,
    T: HandleTable,
    A: Answerer<T>,
>(
    input: &mut Input,
    core: &mut Core<T>,
    output: &mut Vec<u8>,
    reader: &mut R,
    writer: &mut W,
    log: &mut Writer<L>,
    schedule: &mut S,
    answerer: &mut A,
) -> Result<(), Stop>
    requires { IsLogging log.old }
    ensures running { FollowsOn (stream_bytes (R.left reader.old) (W.written writer.old) log.old.bytes)
        (stream_bytes (R.left reader.new) (W.written writer.new) log.new.bytes) input.old input.new core.old core.new
        result }
    ensures answered { OnOk result (core.new.queue ≡ []) }
    ensures logging { OnOk result (IsLogging log.new) }
    ensures counts_reader { CountsCall streams.Reader result (R.failures reader.old) (R.failures reader.new) }
    ensures counts_writer { CountsCall streams.Writer result (W.failures writer.old) (W.failures writer.new) }
    ensures counts_log { CountsCall streams.Log result log.old.failures log.new.failures }
{
    'script: loop {
        if !take_next(input, core, output, reader, writer, log, schedule, answerer)? {
            return work_off(core, output, writer, log, schedule, answerer);
        }
    }
}

/// Follows the script up to the next request, takes that, and returns whether the script goes on.
fn take_next<R: Source, W: Sink, L: Sink, S: Schedule, T: HandleTable, A: Answerer<T>>(
    input: &mut Input,
    core: &mut Core<T>,
    output: &mut Vec<u8>,
    reader: &mut R,
    writer: &mut W,
    log: &mut Writer<L>,
    schedule: &mut S,
    answerer: &mut A,
) -> Result<bool, Stop>
    requires { IsLogging log.old }
    ensures running { FollowsOn (stream_bytes (R.left reader.old) (W.written writer.old) log.old.bytes)
        (stream_bytes (R.left reader.new) (W.written writer.new) log.new.bytes) input.old input.new core.old core.new
        result }
    ensures falls { IfOk result (λ more. more ≡ true →
        bytes_ahead (R.reads_left reader.new) input.new < bytes_ahead (R.reads_left reader.old) input.old) }
    ensures logging { OnOk result (IsLogging log.new) }
    ensures counts_reader { CountsCall streams.Reader result (R.failures reader.old) (R.failures reader.new) }
    ensures counts_writer { CountsCall streams.Writer result (W.failures writer.old) (W.failures writer.new) }
    ensures counts_log { CountsCall streams.Log result log.old.failures log.new.failures }
{
    let alloc = *output.allocator();
    if !send_replies(core, output, writer, log, schedule, answerer)? {
        return Ok(false);
    }
    await_request(alloc, input, core, reader, writer, log, schedule)
}

/// Sends the replies that the script has before the next request. Returns whether it has one; if not, the script is
/// over, or it has a reply that cannot be sent.
fn send_replies<W: Sink, L: Sink, S: Schedule, T: HandleTable, A: Answerer<T>>(
    core: &mut Core<T>,
    output: &mut Vec<u8>,
    writer: &mut W,
    log: &mut Writer<L>,
    schedule: &mut S,
    answerer: &mut A,
) -> Result<bool, Stop>
    requires { IsLogging log.old }
    ensures running { RepliesOn core.old core.new (W.written writer.old) (W.written writer.new) log.old.bytes
        log.new.bytes result }
    ensures logging { OnOk result (IsLogging log.new) }
    ensures counts_writer { CountsCall streams.Writer result (W.failures writer.old) (W.failures writer.new) }
    ensures counts_log { CountsCall streams.Log result log.old.failures log.new.failures }
    ensures spares { Spares streams.Reader result }
{
    'steps: loop {
        let step = schedule.step();
        let Some(Step::Reply(id)) = step else {
            return Ok(step.is_some());
        };
        if !answer(id, core, output, writer, log, answerer)? {
            return Ok(false);
        }
    }
}

/// Does the unanswered request with this id, and sends its reply. Returns whether there is one.
fn answer<W: Sink, L: Sink, T: HandleTable, A: Answerer<T>>(
    id: u32,
    core: &mut Core<T>,
    output: &mut Vec<u8>,
    writer: &mut W,
    log: &mut Writer<L>,
    answerer: &mut A,
) -> Result<bool, Stop>
    requires { IsLogging log.old }
    ensures running { RepliesOn core.old core.new (W.written writer.old) (W.written writer.new) log.old.bytes
        log.new.bytes result }
    ensures falls { IfOk result (λ sent. sent ≡ true → owed core.new.queue < owed core.old.queue) }
    ensures logging { OnOk result (IsLogging log.new) }
    ensures counts_writer { CountsCall streams.Writer result (W.failures writer.old) (W.failures writer.new) }
    ensures counts_log { CountsCall streams.Log result log.old.failures log.new.failures }
    ensures spares { Spares streams.Reader result }
{
    let Some(k) = core.position(id) else {
        return Ok(false);
    };
    work_for(k, core, answerer)?;
    if !core.is_done(k) {
        return Ok(false);
    }
    send_reply(k, core, output, writer, log)?;
    Ok(true)
}

/// Does the request at this position. If it has to wait for earlier ones, all that are pending are done first.
fn work_for<T: HandleTable, A: Answerer<T>>(
    k: usize,
    core: &mut Core<T>,
    answerer: &mut A,
) -> Result<(), Stop>
    ensures works { Works core.old core.new result }
    ensures never_rises { OnOk result (owed core.new.queue ≤ owed core.old.queue) }
    ensures err { IfErr result (λ stop. stop ≡ stops.NoMemory) }
{
    if !core.ready(k) {
        work_before(k, core, answerer)?;
    }
    try_work(k, core, answerer)
}

/// Does the pending requests before this position, in their order.
fn work_before<T: HandleTable, A: Answerer<T>>(
    k: usize,
    core: &mut Core<T>,
    answerer: &mut A,
) -> Result<(), Stop>
    ensures works { Works core.old core.new result }
    ensures never_rises { OnOk result (owed core.new.queue ≤ owed core.old.queue) }
    ensures err { IfErr result (λ stop. stop ≡ stops.NoMemory) }
{
    'each: for j in 0..k {
        try_work(j, core, answerer)?;
    }
    Ok(())
}

/// Does the request at this position, if it is ready.
fn try_work<T: HandleTable, A: Answerer<T>>(
    k: usize,
    core: &mut Core<T>,
    answerer: &mut A,
) -> Result<(), Stop>
    ensures works { Works core.old core.new result }
    ensures never_rises { OnOk result (owed core.new.queue ≤ owed core.old.queue) }
    ensures err { IfErr result (λ stop. stop ≡ stops.NoMemory) }
{
    match core.work_by(k, answerer)? {
        Did::Done => Ok(()),
        Did::NotReady => Ok(()),
        Did::NoSuch => Ok(()),
    }
}

/// Waits for the next request, takes it, and returns whether the script goes on with it. It does not if no request
/// can be taken: the input has ended, a fault is in front, or the core is full.
fn await_request<R: Source, W: Sink, L: Sink, S: Schedule, T: HandleTable>(
    alloc: Global,
    input: &mut Input,
    core: &mut Core<T>,
    reader: &mut R,
    writer: &mut W,
    log: &mut Writer<L>,
    schedule: &mut S,
) -> Result<bool, Stop>
    requires { IsLogging log.old }
    ensures running { FollowsOn (stream_bytes (R.left reader.old) (W.written writer.old) log.old.bytes)
        (stream_bytes (R.left reader.new) (W.written writer.new) log.new.bytes) input.old input.new core.old core.new
        result }
    ensures falls { IfOk result (λ more. more ≡ true →
        bytes_ahead (R.reads_left reader.new) input.new < bytes_ahead (R.reads_left reader.old) input.old) }
    ensures logging { OnOk result (IsLogging log.new) }
    ensures counts_reader { CountsCall streams.Reader result (R.failures reader.old) (R.failures reader.new) }
    ensures counts_writer { CountsCall streams.Writer result (W.failures writer.old) (W.failures writer.new) }
    ensures counts_log { CountsCall streams.Log result log.old.failures log.new.failures }
{
    'request: loop {
        match take_one(alloc, input, core, log)? {
            Front::Taken => return Ok(goes_on(core, schedule)),
            Front::Full | Front::Fault(_) => return Ok(false),
            Front::Waiting => {
                flush(writer)?;
                if input.read(reader)? == 0 {
                    return Ok(false);
                }
            }
        }
    }
}

/// Whether the script goes on after the request that was taken last.
fn goes_on<S: Schedule, T: HandleTable>(core: &Core<T>, schedule: &mut S) -> bool {
    match core.newest() {
        Some(request) => schedule.expects(request),
        None => false,
    }
}
