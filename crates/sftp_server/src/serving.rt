//! Serves a session: reads the client's packets, does the requests, and sends the replies (draft, sections 3 to 7).
ghost use Rattle.std.specs.Prelude.{◌≡◌, ◌≢◌, ◌<◌, ◌≤◌, [], length, Ok, None, IfOk, OnOk};
ghost use Rattle.sftp_packets.specs.declared.packets.Side.TheVariants.{Client};
ghost use Rattle.sftp_wire.specs.Fronts.{front_of};
ghost use Rattle.sftp_server.specs.declared.ends.Stream.TheVariants as streams;
ghost use Rattle.sftp_server.specs.declared.taking.Front.TheVariants as fronts;
ghost use Rattle.sftp_server.specs.declared.serving.Next.TheVariants as nexts;
ghost use Rattle.sftp_packets.specs.Packets.{HasSpelling};
ghost use Rattle.sftp_transcript.specs.Transcript.{IsVersion};
ghost use Rattle.sftp_server.specs.Served.{announcing, stream_bytes, IsUnused, StreamBytes};
ghost use Rattle.sftp_server.specs.Served.{Serves, ServesFrom, CountsEnd};
ghost use Rattle.sftp_server.specs.Left.{LeavesAt, LeavesFrom};
ghost use Rattle.sftp_server.specs.Sessions.{IsLogging, CountsCall, input_limit, IsUnopenedYet, BeginsWithGreeting};
ghost use Rattle.sftp_server.specs.Sessions.{IsSessionEnd};
ghost use Rattle.sftp_server.specs.Ending.{closed_end, EndsOn, ReadsOn, RunsOut, GoesOn};

use crate::answerers::{Answerer, Plain};
use crate::cores::Core;
use crate::ends::{Ended, SessionEnd, SessionFault, Stop};
use crate::input::Input;
use crate::opening::{First, await_init, greet};
use crate::schedules::Schedule;
use crate::scripted::follow_script;
use crate::sending::{flush, flush_log};
use crate::taking::{Front, take_requests};
use crate::version::our_version;
use crate::working::work_off;
use sftp_handles::{HandleTable, SlabTable};
use sftp_transcript::{Sink, Source, WINDOW, Writer};
use sftp_tree::Tree;
use sftp_wire::{PACKET_LIMIT, Packet};
use std::alloc::Global;

/// What an open session does after a batch of requests.
#[derive(Clone, Copy)]
enum Next {
    /// It continues.
    Batch,
    /// It ends: with the fault, or because the input ended after a whole packet.
    End(Option<SessionFault>),
}

/// Serves one session on a tree over these streams, in the order of the schedule, and returns how it ended (draft,
/// sections 3 to 7). Once the session is open, pins that the tree has are removed.
///
/// It reads an INIT, which has to be of version 3 or more, answers it by VERSION 3, and then answers each request. It
/// takes requests as long as complete packets were read and the window, `sftp_transcript::WINDOW` requests, has room;
/// it then answers all that it took, passes the replies on, and reads again. A fault in the input ends the session once
/// each request before it is answered. The log gets each packet of both sides, in the order in which requests were
/// taken and replies were sent.
///
/// Where a stream fails or memory runs out, the session ends at once, with `Io` or `NoMemory`: what was written and
/// logged is a beginning of what it would have been. Nothing is tried again.
///
/// `log` has no records yet, and no call on it failed. Failures are counted up to 2^64 - 1.
pub fn serve<R: Source, W: Sink, L: Sink, S: Schedule>(
    tree: Tree,
    reader: &mut R,
    writer: &mut W,
    log: &mut Writer<L>,
    schedule: &mut S,
) -> Ended
    requires { IsUnused log.old }
    ensures served { Serves tree (stream_bytes (R.left reader.old) (W.written writer.old) log.old.bytes)
        (stream_bytes (R.left reader.new) (W.written writer.new) log.new.bytes) result }
    // A stream fails once if the session ends because of it, and otherwise never.
    ensures counts_reader { CountsEnd streams.Reader result (R.failures reader.old) (R.failures reader.new) }
    ensures counts_writer { CountsEnd streams.Writer result (W.failures writer.old) (W.failures writer.new) }
    ensures counts_log { CountsEnd streams.Log result log.old.failures log.new.failures }
{
    let SessionEnd { ended, left } = serve_keeping_tree(tree, reader, writer, log, schedule);
    drop(left);
    ended
}

/// Serves a session as `serve` does. Once it is open, returns the tree also if a stream failed or memory ran out, so
/// that nothing that was uploaded is lost. That tree is the one to which the requests that were done lead, one at a
/// time in the order asked; each request whose reply was written, even in part, is among them (draft, section 6.1).
///
/// `log` has no records yet, and no call on it failed. Failures are counted up to 2^64 - 1.
pub fn serve_keeping_tree<R: Source, W: Sink, L: Sink, S: Schedule>(
    tree: Tree,
    reader: &mut R,
    writer: &mut W,
    log: &mut Writer<L>,
    schedule: &mut S,
) -> SessionEnd
    requires { IsUnused log.old }
    ensures served { Serves tree (stream_bytes (R.left reader.old) (W.written writer.old) log.old.bytes)
        (stream_bytes (R.left reader.new) (W.written writer.new) log.new.bytes) result.ended }
    ensures left { LeavesAt tree (stream_bytes (R.left reader.old) (W.written writer.old) log.old.bytes)
        (stream_bytes (R.left reader.new) (W.written writer.new) log.new.bytes) result.ended result.left }
    // A stream fails once if the session ends because of it, and otherwise never.
    ensures counts_reader { CountsEnd streams.Reader result.ended (R.failures reader.old) (R.failures reader.new) }
    ensures counts_writer { CountsEnd streams.Writer result.ended (W.failures writer.old) (W.failures writer.new) }
    ensures counts_log { CountsEnd streams.Log result.ended log.old.failures log.new.failures }
{
    serve_as::<R, W, L, S, SlabTable, Plain>(tree, reader, writer, log, schedule, &mut Plain)
}

/// Serves a session as `serve_keeping_tree` does, where another answers its requests: an answerer, of which the session
/// asks no more than that its replies are allowed and can be encoded.
///
/// `log` has no records yet, and no call on it failed. Failures are counted up to 2^64 - 1.
pub fn serve_as<R: Source, W: Sink, L: Sink, S: Schedule, T: HandleTable, A: Answerer<T>>(
    tree: Tree,
    reader: &mut R,
    writer: &mut W,
    log: &mut Writer<L>,
    schedule: &mut S,
    answerer: &mut A,
) -> SessionEnd
    requires { IsUnused log.old }
    ensures served { Serves tree (stream_bytes (R.left reader.old) (W.written writer.old) log.old.bytes)
        (stream_bytes (R.left reader.new) (W.written writer.new) log.new.bytes) result.ended }
    ensures left { LeavesAt tree (stream_bytes (R.left reader.old) (W.written writer.old) log.old.bytes)
        (stream_bytes (R.left reader.new) (W.written writer.new) log.new.bytes) result.ended result.left }
    // A stream fails once if the session ends because of it, and otherwise never.
    ensures counts_reader { CountsEnd streams.Reader result.ended (R.failures reader.old) (R.failures reader.new) }
    ensures counts_writer { CountsEnd streams.Writer result.ended (W.failures writer.old) (W.failures writer.new) }
    ensures counts_log { CountsEnd streams.Log result.ended log.old.failures log.new.failures }
{
    let version = match our_version(tree.allocator()) {
        Ok(version) => version,
        Err(stop) => {
            drop(tree);
            return stop.leaving(None);
        }
    };
    let end = serve_announcing::<R, W, L, S, T, A>(
        tree, reader, writer, log, schedule, answerer, &version,
    );
    drop(version);
    end
}

/// Serves a session as `serve_as` does, and announces this VERSION 3, with any pairs (draft, section 4), in place of
/// the usual one. What is answered does not depend on it. It has to be one that can be encoded.
///
/// `log` has no records yet, and no call on it failed. Failures are counted up to 2^64 - 1.
pub fn serve_announcing<R: Source, W: Sink, L: Sink, S: Schedule, T: HandleTable, A: Answerer<T>>(
    tree: Tree,
    reader: &mut R,
    writer: &mut W,
    log: &mut Writer<L>,
    schedule: &mut S,
    answerer: &mut A,
    version: &Packet,
) -> SessionEnd
    requires unused { IsUnused log.old }
    requires version { IsVersion version.now }
    requires spelled { HasSpelling version.now }
    ensures served { ServesFrom (announcing tree version.now)
        (stream_bytes (R.left reader.old) (W.written writer.old) log.old.bytes)
        (stream_bytes (R.left reader.new) (W.written writer.new) log.new.bytes) result.ended }
    ensures left { LeavesFrom (announcing tree version.now)
        (stream_bytes (R.left reader.old) (W.written writer.old) log.old.bytes)
        (stream_bytes (R.left reader.new) (W.written writer.new) log.new.bytes) result.ended result.left }
    // A stream fails once if the session ends because of it, and otherwise never.
    ensures counts_reader { CountsEnd streams.Reader result.ended (R.failures reader.old) (R.failures reader.new) }
    ensures counts_writer { CountsEnd streams.Writer result.ended (W.failures writer.old) (W.failures writer.new) }
    ensures counts_log { CountsEnd streams.Log result.ended log.old.failures log.new.failures }
{
    // Slow to prove: the tree, or what was read, is dropped at each exit.
    let alloc = tree.allocator();
    let mut input = match Input::new(alloc) {
        Ok(input) => input,
        Err(stop) => {
            drop(tree);
            return stop.leaving(None);
        }
    };
    match await_init(alloc, &mut input, reader) {
        Ok(First::Init(count)) => serve_from(
            tree, &mut input, count, reader, writer, log, schedule, answerer, version,
        ),
        Ok(First::Fault(fault)) => SessionEnd {
            ended: Ended::Fault(tree, fault),
            left: None,
        },
        Err(stop) => {
            drop(tree);
            stop.leaving(None)
        }
    }
}

/// Serves the session whose INIT, `count` bytes long, is in front of the input, to its end.
fn serve_from<R: Source, W: Sink, L: Sink, S: Schedule, T: HandleTable, A: Answerer<T>>(
    tree: Tree,
    input: &mut Input,
    count: usize,
    reader: &mut R,
    writer: &mut W,
    log: &mut Writer<L>,
    schedule: &mut S,
    answerer: &mut A,
    version: &Packet,
) -> SessionEnd
    requires unused { IsUnused log.old }
    requires version { IsVersion version.now }
    requires spelled { HasSpelling version.now }
    requires whole { BeginsWithGreeting input.old.held count }
    // For any session that has only read so far.
    ensures served { (past : StreamBytes)
        → IsUnopenedYet past (stream_bytes (R.left reader.old) (W.written writer.old) log.old.bytes) input.old
        → IsSessionEnd (announcing tree version.now) past
        (stream_bytes (R.left reader.new) (W.written writer.new) log.new.bytes) result }
    ensures counts_reader { CountsEnd streams.Reader result.ended (R.failures reader.old) (R.failures reader.new) }
    ensures counts_writer { CountsEnd streams.Writer result.ended (W.failures writer.old) (W.failures writer.new) }
    ensures counts_log { CountsEnd streams.Log result.ended log.old.failures log.new.failures }
{
    // Slow to prove: the core and the room for a packet are dropped at each exit.
    let alloc = tree.allocator();
    let Ok(mut core) = Core::<T>::new(tree, WINDOW) else {
        return Stop::NoMemory.leaving(None);
    };
    let Ok(mut output) = Vec::with_capacity(alloc, PACKET_LIMIT) else {
        drop(core);
        return Stop::NoMemory.leaving(None);
    };
    match greet(input, count, version, &mut output, writer, log) {
        Ok(()) => {}
        Err(stop) => return stop.leaving(Some(core.into_tree())),
    }
    match serve_open(
        input,
        &mut core,
        &mut output,
        reader,
        writer,
        log,
        schedule,
        answerer,
    ) {
        Ok(fault) => SessionEnd {
            ended: end(core, fault),
            left: None,
        },
        Err(stop) => stop.leaving(Some(core.into_tree())),
    }
}

/// The end of a session whose requests are all answered.
fn end<T: HandleTable>(core: Core<T>, fault: Option<SessionFault>) -> Ended
    ensures { result ≡ closed_end core.state fault }
{
    let tree = core.into_tree();
    match fault {
        None => Ended::Finished(tree),
        Some(fault) => Ended::Fault(tree, fault),
    }
}

/// Serves an open session to its end, by the script of the schedule if it has one, and returns the fault that ends it,
/// if it has one.
fn serve_open<R: Source, W: Sink, L: Sink, S: Schedule, T: HandleTable, A: Answerer<T>>(
    input: &mut Input,
    core: &mut Core<T>,
    output: &mut Vec<u8>,
    reader: &mut R,
    writer: &mut W,
    log: &mut Writer<L>,
    schedule: &mut S,
    answerer: &mut A,
) -> Result<Option<SessionFault>, Stop>
    requires { IsLogging log.old }
    ensures running { RunsOut (stream_bytes (R.left reader.old) (W.written writer.old) log.old.bytes)
        (stream_bytes (R.left reader.new) (W.written writer.new) log.new.bytes) input.old core.old core.new result }
    ensures counts_reader { CountsCall streams.Reader result (R.failures reader.old) (R.failures reader.new) }
    ensures counts_writer { CountsCall streams.Writer result (W.failures writer.old) (W.failures writer.new) }
    ensures counts_log { CountsCall streams.Log result log.old.failures log.new.failures }
{
    follow_script(input, core, output, reader, writer, log, schedule, answerer)?;
    serve_requests(input, core, output, reader, writer, log, schedule, answerer)
}

/// Serves an open session to its end, and returns the fault that ends it, if it has one. Each request is answered.
fn serve_requests<R: Source, W: Sink, L: Sink, S: Schedule, T: HandleTable, A: Answerer<T>>(
    input: &mut Input,
    core: &mut Core<T>,
    output: &mut Vec<u8>,
    reader: &mut R,
    writer: &mut W,
    log: &mut Writer<L>,
    schedule: &mut S,
    answerer: &mut A,
) -> Result<Option<SessionFault>, Stop>
    requires logging { IsLogging log.old }
    requires answered { core.old.queue ≡ [] }
    ensures running { RunsOut (stream_bytes (R.left reader.old) (W.written writer.old) log.old.bytes)
        (stream_bytes (R.left reader.new) (W.written writer.new) log.new.bytes) input.old core.old core.new result }
    ensures answered { OnOk result (core.new.queue ≡ []) }
    ensures counts_reader { CountsCall streams.Reader result (R.failures reader.old) (R.failures reader.new) }
    ensures counts_writer { CountsCall streams.Writer result (W.failures writer.old) (W.failures writer.new) }
    ensures counts_log { CountsCall streams.Log result log.old.failures log.new.failures }
{
    // Slow to prove: each call in the loop may end the session, and changes several borrowed values.
    let alloc = *output.allocator();
    'batch: loop {
        let front = take_requests(alloc, input, core, log)?;
        work_off(core, output, writer, log, schedule, answerer)?;
        match after_batch(front, input, reader, writer, log)? {
            Next::Batch => {}
            Next::End(fault) => return Ok(fault),
        }
    }
}

/// What comes after a batch, by what is in front of the input: the session ends at a fault, reads if no packet in front
/// is complete, and continues if a packet waits for room in the core.
fn after_batch<R: Source, W: Sink, L: Sink>(
    front: Front,
    input: &mut Input,
    reader: &mut R,
    writer: &mut W,
    log: &mut Writer<L>,
) -> Result<Next, Stop>
    requires logging { IsLogging log.old }
    requires done { front ≢ fronts.Taken }
    requires waits { front ≡ fronts.Waiting → front_of Client input.old.held ≡ Ok None }
    ensures running { EndsOn (stream_bytes (R.left reader.old) (W.written writer.old) log.old.bytes)
        (stream_bytes (R.left reader.new) (W.written writer.new) log.new.bytes) input.old input.new front result }
    ensures logging { OnOk result (IsLogging log.new) }
    ensures counts_reader { CountsCall streams.Reader result (R.failures reader.old) (R.failures reader.new) }
    ensures counts_writer { CountsCall streams.Writer result (W.failures writer.old) (W.failures writer.new) }
    ensures counts_log { CountsCall streams.Log result log.old.failures log.new.failures }
    // Either bytes are read, or the bytes in front stay.
    ensures goes_on { IfOk result (λ next. next ≡ nexts.Batch →
        GoesOn front input.old input.new (R.reads_left reader.old) (R.reads_left reader.new)) }
{
    match front {
        Front::Taken => unreachable!(),
        Front::Full => Ok(Next::Batch),
        Front::Waiting => read_more(input, reader, writer, log),
        Front::Fault(fault) => {
            flush(writer)?;
            flush_log(log)?;
            Ok(Next::End(Some(fault)))
        }
    }
}

/// Reads once, after it has passed on what was written. The session ends where the input does.
fn read_more<R: Source, W: Sink, L: Sink>(
    input: &mut Input,
    reader: &mut R,
    writer: &mut W,
    log: &mut Writer<L>,
) -> Result<Next, Stop>
    requires logging { IsLogging log.old }
    requires waits { front_of Client input.old.held ≡ Ok None }
    ensures running { ReadsOn (stream_bytes (R.left reader.old) (W.written writer.old) log.old.bytes)
        (stream_bytes (R.left reader.new) (W.written writer.new) log.new.bytes) input.old input.new result }
    ensures logging { OnOk result (IsLogging log.new) }
    ensures counts_reader { CountsCall streams.Reader result (R.failures reader.old) (R.failures reader.new) }
    ensures counts_writer { CountsCall streams.Writer result (W.failures writer.old) (W.failures writer.new) }
    ensures counts_log { CountsCall streams.Log result log.old.failures log.new.failures }
    ensures falls { IfOk result (λ next. next ≡ nexts.Batch → R.reads_left reader.new < R.reads_left reader.old) }
    ensures fits { IfOk result (λ next. next ≡ nexts.Batch → length input.new.held ≤ input_limit) }
{
    // Slow to prove: it has six exits, each with all that is promised of three streams.
    flush(writer)?;
    if input.read(reader)? > 0 {
        return Ok(Next::Batch);
    }
    flush_log(log)?;
    if input.held().is_empty() {
        Ok(Next::End(None))
    } else {
        let place = input.place();
        Ok(Next::End(Some(SessionFault::Cut { place })))
    }
}
