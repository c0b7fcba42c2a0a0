//! Opens a session: reads the client's INIT, and answers it by the server's VERSION (draft, section 4).
ghost use Rattle.std.specs.Prelude.{◌≡◌, take, IfOk, IfErr, OnOk, MatchResult};
ghost use Rattle.std.specs.Io.KnownBytes.{Appends, IsAtEnd};
ghost use Rattle.sftp_packets.specs.declared.packets.Packet.{Packet};
ghost use Rattle.sftp_packets.specs.declared.packets.Side.TheVariants.{Client};
ghost use Rattle.sftp_packets.specs.Packets.{spelling, side_of, HasSpelling};
ghost use Rattle.sftp_streams.specs.Streams.{AppendsPart};
ghost use Rattle.sftp_transcript.specs.Log.{opened_text};
ghost use Rattle.sftp_transcript.specs.Transcript.{record_text, IsVersion};
ghost use Rattle.sftp_server.specs.declared.ends.Stop.TheVariants as stops;
ghost use Rattle.sftp_server.specs.declared.ends.Stream.TheVariants as streams;
ghost use Rattle.sftp_server.specs.Served.{IsUnused};
ghost use Rattle.sftp_server.specs.Sessions.{IsLogging, BeginsWithGreeting, ahead_without, CountsCall, Spares};
ghost use Rattle.sftp_server.specs.Ending.{IsFirst, IsInFront, IsGreetingOf, OpensOn, ReadsFirst};

use crate::ends::{SessionFault, Stop, Stream};
use crate::input::Input;
use crate::sending::send;
use sftp_transcript::{Sink, Source, Writer};
use sftp_wire::{Packet, Side, WireError, front};
use std::alloc::Global;

/// What the input begins with.
#[derive(Clone, Copy)]
pub(crate) enum First {
    /// An INIT of version 3 or more, and its length in bytes.
    Init(usize),
    /// Something else, or the input ended.
    Fault(SessionFault),
}

/// Reads until the first packet is complete.
///
/// # Errors
///
/// `NoMemory` if memory runs out; `Io(Reader)` if the reader fails.
pub(crate) fn await_init<R: Source>(
    alloc: Global,
    input: &mut Input,
    reader: &mut R,
) -> Result<First, Stop>
    ensures first { IfOk result (λ first. IsFirst input.new.held (IsAtEnd (R.left reader.new)) first) }
    ensures unopened { ReadsFirst (R.left reader.old) (R.left reader.new) input.old input.new result }
    ensures counts { CountsCall streams.Reader result (R.failures reader.old) (R.failures reader.new) }
    ensures spares_writer { Spares streams.Writer result }
    ensures spares_log { Spares streams.Log result }
{
    'first: loop {
        match first_packet(alloc, input)? {
            Some(first) => return Ok(first),
            None => {
                if input.read(reader)? == 0 {
                    return Ok(First::Fault(SessionFault::BadInit));
                }
            }
        }
    }
}

/// The first packet, if it is complete.
fn first_packet(alloc: Global, input: &Input) -> Result<Option<First>, Stop>
    ensures found { IfOk result (λ first. IsInFront input.now.held first) }
    ensures err { IfErr result (λ stop. stop ≡ stops.NoMemory) }
{
    match front(alloc, input.held(), Side::Client) {
        Ok(None) => Ok(None),
        Ok(Some((packet, count))) => {
            let first = greeting(&packet, count);
            drop(packet);
            Ok(Some(first))
        }
        Err(WireError::Unreadable { fault, .. }) => Ok(Some(First::Fault(SessionFault::Wire(
            WireError::Unreadable { fault, place: 0 },
        )))),
        Err(_) => Err(Stop::NoMemory),
    }
}

/// What a first packet of `count` bytes is.
fn greeting(packet: &Packet, count: usize) -> First
    ensures { IsGreetingOf packet.now count result }
{
    let Packet::Init { version, .. } = packet else {
        return First::Fault(SessionFault::BadInit);
    };
    if *version >= 3 {
        First::Init(count)
    } else {
        First::Fault(SessionFault::BadInit)
    }
}

/// Logs the INIT in front, `count` bytes long, and takes it.
fn log_init<L: Sink>(input: &mut Input, count: usize, log: &mut Writer<L>) -> Result<(), Stop>
    requires unused { IsUnused log.old }
    requires whole { BeginsWithGreeting input.old.held count }
    ensures logged { (init : Packet) → side_of init ≡ Client → take count input.old.held ≡ spelling init
        → MatchResult result
        (λ _. Appends log.old.bytes log.new.bytes (opened_text 0 (record_text init)))
        (λ _. AppendsPart log.old.bytes log.new.bytes (opened_text 0 (record_text init))) }
    ensures taken { OnOk result (input.new ≡ ahead_without count input.old) }
    ensures logging { OnOk result (IsLogging log.new) }
    ensures err { IfErr result (λ stop. stop ≡ stops.Io streams.Log) }
    ensures counts { CountsCall streams.Log result log.old.failures log.new.failures }
{
    match log.record_bytes(Side::Client, &input.held()[..count]) {
        Ok(()) => {
            input.take(count);
            Ok(())
        }
        Err(_) => Err(Stop::Io(Stream::Log)),
    }
}

/// Opens the session by the INIT in front, `count` bytes long: logs it, and sends this VERSION. `output` is room for a
/// packet.
///
/// # Errors
///
/// `NoMemory` if memory runs out; `Io` if the writer or the log fails.
pub(crate) fn greet<W: Sink, L: Sink>(
    input: &mut Input,
    count: usize,
    version: &Packet,
    output: &mut Vec<u8>,
    writer: &mut W,
    log: &mut Writer<L>,
) -> Result<(), Stop>
    requires unused { IsUnused log.old }
    requires whole { BeginsWithGreeting input.old.held count }
    requires version { IsVersion version.now }
    requires spelled { HasSpelling version.now }
    ensures running { OpensOn version.now input.old input.new (W.written writer.old) (W.written writer.new)
        log.old.bytes log.new.bytes result }
    ensures logging { OnOk result (IsLogging log.new) }
    ensures counts_writer { CountsCall streams.Writer result (W.failures writer.old) (W.failures writer.new) }
    ensures counts_log { CountsCall streams.Log result log.old.failures log.new.failures }
    ensures spares { Spares streams.Reader result }
{
    log_init(input, count, log)?;
    send(version, output, writer, log)
}
