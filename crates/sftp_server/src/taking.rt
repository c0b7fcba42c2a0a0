//! Takes requests from what was read: logs each, and delivers it to the core.
ghost use Rattle.std.specs.Prelude.{◌≡◌, ◌≢◌, ◌<◌, ◌≤◌, [], length, Ok, None, IsTrue, IfOk, IfErr, OnOk, OnErr};
ghost use Rattle.sftp_packets.specs.declared.packets.Packet.TheVariants.{Request as request_packet};
ghost use Rattle.sftp_packets.specs.declared.packets.Side.TheVariants.{Client};
ghost use Rattle.sftp_wire.specs.Fronts.{StandsInFront, front_of};
ghost use Rattle.sftp_server.specs.declared.ends.Stop.TheVariants as stops;
ghost use Rattle.sftp_server.specs.declared.ends.Stream.TheVariants as streams;
ghost use Rattle.sftp_server.specs.declared.taking.Front.TheVariants as fronts;
ghost use Rattle.sftp_server.specs.Machine.{can_take, taken};
ghost use Rattle.sftp_server.specs.Sessions.{ahead_without, IsLogging, CountsCall, Spares};
ghost use Rattle.sftp_server.specs.Ending.{FallsIfTaken, TakesOn, found_refused};

use crate::cores::Core;
use crate::ends::{SessionFault, Stop, Stream};
use crate::input::Input;
use crate::refusals::Refuse;
use sftp_handles::HandleTable;
use sftp_transcript::{Sink, Writer};
use sftp_wire::{Packet, Request, Side, WireError, front};
use std::alloc::Global;

/// What was found at the front of the bytes read.
#[derive(Clone, Copy)]
pub(crate) enum Front {
    /// A request, which was taken.
    Taken,
    /// A complete packet, and the core has no room for a request.
    Full,
    /// No complete packet.
    Waiting,
    /// A fault, which ends the session once each request is answered.
    Fault(SessionFault),
}

/// Takes requests, until no packet in front is complete, the core is full, or a fault is in front.
///
/// # Errors
///
/// `NoMemory` if memory runs out; `Io(Log)` if the log fails.
pub(crate) fn take_requests<L: Sink, T: HandleTable>(
    alloc: Global,
    input: &mut Input,
    core: &mut Core<T>,
    log: &mut Writer<L>,
) -> Result<Front, Stop>
    requires { IsLogging log.old }
    ensures running { TakesOn input.old input.new core.old core.new log.old.bytes log.new.bytes result }
    ensures logging { OnOk result (IsLogging log.new) }
    ensures waits { IfOk result (λ front. front ≡ fronts.Waiting → front_of Client input.new.held ≡ Ok None) }
    ensures done { IfOk result (λ front. front ≢ fronts.Taken) }
    ensures never_rises { OnOk result (length input.new.held ≤ length input.old.held) }
    // If the queue was empty and is full now, some bytes were taken.
    ensures falls { IfOk result (λ front. front ≡ fronts.Full → core.old.queue ≡ []
        → length input.new.held < length input.old.held) }
    ensures counts { CountsCall streams.Log result log.old.failures log.new.failures }
    ensures spares_reader { Spares streams.Reader result }
    ensures spares_writer { Spares streams.Writer result }
{
    'front: loop {
        let front = take_one(alloc, input, core, log)?;
        let Front::Taken = front else {
            return Ok(front);
        };
    }
}

/// Takes the request in front, if there is one and the core has room.
pub(crate) fn take_one<L: Sink, T: HandleTable>(
    alloc: Global,
    input: &mut Input,
    core: &mut Core<T>,
    log: &mut Writer<L>,
) -> Result<Front, Stop>
    requires { IsLogging log.old }
    ensures running { TakesOn input.old input.new core.old core.new log.old.bytes log.new.bytes result }
    ensures logging { OnOk result (IsLogging log.new) }
    ensures waits { IfOk result (λ front. front ≡ fronts.Waiting → front_of Client input.new.held ≡ Ok None) }
    // Bytes are taken exactly if a request is; if the core is full, it has some request.
    ensures falls { IfOk result (λ front. FallsIfTaken front input.old input.new core.old.queue) }
    ensures counts { CountsCall streams.Log result log.old.failures log.new.failures }
    ensures spares_reader { Spares streams.Reader result }
    ensures spares_writer { Spares streams.Writer result }
{
    match front(alloc, input.held(), Side::Client) {
        Ok(None) => Ok(Front::Waiting),
        Ok(Some((packet, count))) => take_packet(packet, count, input, core, log),
        Err(WireError::Unreadable { fault, .. }) => {
            let place = input.place();
            Ok(Front::Fault(SessionFault::Wire(WireError::Unreadable { fault, place })))
        }
        Err(_) => Err(Stop::NoMemory),
    }
}

/// Takes the packet in front, `count` bytes long, if it is a request and the core has room.
fn take_packet<L: Sink, T: HandleTable>(
    packet: Packet,
    count: usize,
    input: &mut Input,
    core: &mut Core<T>,
    log: &mut Writer<L>,
) -> Result<Front, Stop>
    requires logging { IsLogging log.old }
    requires whole { StandsInFront Client input.old.held packet count }
    ensures running { TakesOn input.old input.new core.old core.new log.old.bytes log.new.bytes result }
    ensures logging { OnOk result (IsLogging log.new) }
    ensures complete { IfOk result (λ front. front ≢ fronts.Waiting) }
    ensures falls { IfOk result (λ front. FallsIfTaken front input.old input.new core.old.queue) }
    ensures counts { CountsCall streams.Log result log.old.failures log.new.failures }
    ensures spares_reader { Spares streams.Reader result }
    ensures spares_writer { Spares streams.Writer result }
{
    match packet {
        Packet::Request(request) => take_request(request, count, input, core, log),
        Packet::Init { extensions, .. } => {
            drop(extensions);
            Ok(Front::Fault(SessionFault::BadInit))
        }
        Packet::Version { .. } => unreachable!(),
        Packet::Reply(_) => unreachable!(),
    }
}

/// Takes the request in front, `count` bytes long, if the core has room.
fn take_request<L: Sink, T: HandleTable>(
    request: Request,
    count: usize,
    input: &mut Input,
    core: &mut Core<T>,
    log: &mut Writer<L>,
) -> Result<Front, Stop>
    requires logging { IsLogging log.old }
    requires whole { StandsInFront Client input.old.held (request_packet request) count }
    ensures running { TakesOn input.old input.new core.old core.new log.old.bytes log.new.bytes result }
    ensures logging { OnOk result (IsLogging log.new) }
    ensures complete { IfOk result (λ front. front ≢ fronts.Waiting) }
    ensures falls { IfOk result (λ front. FallsIfTaken front input.old input.new core.old.queue) }
    ensures counts { CountsCall streams.Log result log.old.failures log.new.failures }
    ensures spares_reader { Spares streams.Reader result }
    ensures spares_writer { Spares streams.Writer result }
{
    match core.refusal(request.id) {
        None => log_request(request, count, input, core, log),
        Some(refuse) => {
            let front = refused(request.id, refuse);
            drop(request);
            front
        }
    }
}

/// What is found in front if a request with this id is not taken.
fn refused(id: u32, refuse: Refuse) -> Result<Front, Stop>
    ensures { result ≡ found_refused id refuse }
{
    match refuse {
        Refuse::Full => Ok(Front::Full),
        Refuse::IdInUse => Ok(Front::Fault(SessionFault::IdInUse(id))),
        Refuse::NoMemory => Err(Stop::NoMemory),
    }
}

/// Takes the request in front, `count` bytes long, for which the core has room: logs it, and delivers it.
fn log_request<L: Sink, T: HandleTable>(
    request: Request,
    count: usize,
    input: &mut Input,
    core: &mut Core<T>,
    log: &mut Writer<L>,
) -> Result<Front, Stop>
    requires logging { IsLogging log.old }
    requires whole { StandsInFront Client input.old.held (request_packet request) count }
    requires can { IsTrue (can_take core.old request) }
    ensures running { TakesOn input.old input.new core.old core.new log.old.bytes log.new.bytes result }
    ensures logging { OnOk result (IsLogging log.new) }
    ensures ok { IfOk result (λ front. front ≡ fronts.Taken) }
    ensures falls { OnOk result (length input.new.held < length input.old.held) }
    ensures counts { CountsCall streams.Log result log.old.failures log.new.failures }
    ensures spares_reader { Spares streams.Reader result }
    ensures spares_writer { Spares streams.Writer result }
{
    match log.record_bytes(Side::Client, &input.held()[..count]) {
        Ok(()) => deliver(request, count, input, core),
        Err(_) => {
            drop(request);
            Err(Stop::Io(Stream::Log))
        }
    }
}

/// Delivers the request in front, `count` bytes long, which then counts as taken.
fn deliver<T: HandleTable>(
    request: Request,
    count: usize,
    input: &mut Input,
    core: &mut Core<T>,
) -> Result<Front, Stop>
    requires within { count ≤ length input.old.held }
    requires can { IsTrue (can_take core.old request) }
    ensures ok { IfOk result (λ front. front ≡ fronts.Taken) }
    ensures taken { OnOk result (core.new ≡ taken core.old request) }
    ensures moved { OnOk result (input.new ≡ ahead_without count input.old) }
    ensures err { IfErr result (λ stop. stop ≡ stops.NoMemory) }
    ensures same { OnErr result (input.new ≡ input.old) }
    ensures kept { OnErr result (core.new ≡ core.old) }
{
    match core.deliver(request) {
        Ok(()) => {
            input.take(count);
            Ok(Front::Taken)
        }
        Err(returned) => {
            drop(returned);
            Err(Stop::NoMemory)
        }
    }
}
