//! Sends the server's packets: writes each, and then logs it.
ghost use Rattle.std.specs.Prelude.{◌≡◌, OnOk, IfErr, OnErr};
ghost use Rattle.std.specs.Io.KnownBytes.{Appends, Keeps};
ghost use Rattle.sftp_packets.specs.declared.packets.Side.TheVariants.{Server};
ghost use Rattle.sftp_packets.specs.Packets.{spelling, HasSpelling, side_of};
ghost use Rattle.sftp_streams.specs.Streams.{AppendsPart};
ghost use Rattle.sftp_transcript.specs.Transcript.{record_text};
ghost use Rattle.sftp_server.specs.declared.ends.Stop.TheVariants as stops;
ghost use Rattle.sftp_server.specs.declared.ends.Stream.TheVariants as streams;
ghost use Rattle.sftp_server.specs.Sessions.{IsLogging, FailsToSend, CountsCall};

use crate::ends::{Stop, Stream};
use sftp_transcript::{Failed, Sink, Writer, put_all};
use sftp_wire::{Packet, Side, encode};

/// Replaces the bytes of `output` by those of a packet.
///
/// # Errors
///
/// `NoMemory` if memory runs out.
fn spell(packet: &Packet, output: &mut Vec<u8>) -> Result<(), Stop>
    requires { HasSpelling packet.now }
    ensures ok { OnOk result (output.new.items ≡ spelling packet.now) }
    ensures err { IfErr result (λ stop. stop ≡ stops.NoMemory) }
{
    output.clear();
    match encode(packet, output) {
        Ok(()) => Ok(()),
        Err(_) => Err(Stop::NoMemory),
    }
}

/// Writes bytes to the client.
///
/// # Errors
///
/// `Io(Writer)` if the writer fails. A beginning of the bytes is written then.
fn write<W: Sink>(writer: &mut W, bytes: &[u8]) -> Result<(), Stop>
    ensures ok { OnOk result (Appends (W.written writer.old) (W.written writer.new) bytes.now) }
    ensures err { IfErr result (λ stop. stop ≡ stops.Io streams.Writer) }
    ensures part { OnErr result (AppendsPart (W.written writer.old) (W.written writer.new) bytes.now) }
    ensures counts { CountsCall streams.Writer result (W.failures writer.old) (W.failures writer.new) }
{
    match put_all(writer, bytes) {
        Ok(()) => Ok(()),
        Err(Failed) => Err(Stop::Io(Stream::Writer)),
    }
}

/// Writes a packet of the server, and then logs it. `output` is room for its bytes.
///
/// # Errors
///
/// - `NoMemory` if memory runs out. Nothing is written.
/// - `Io(Writer)` if the writer fails. A beginning of the packet is written.
/// - `Io(Log)` if the log fails. The packet is written, and a beginning of its record is logged.
pub(crate) fn send<W: Sink, L: Sink>(
    packet: &Packet,
    output: &mut Vec<u8>,
    writer: &mut W,
    log: &mut Writer<L>,
) -> Result<(), Stop>
    requires spelled { HasSpelling packet.now }
    requires side { side_of packet.now ≡ Server }
    requires logging { IsLogging log.old }
    ensures written { OnOk result (Appends (W.written writer.old) (W.written writer.new) (spelling packet.now)) }
    ensures logged { OnOk result (Appends log.old.bytes log.new.bytes (record_text packet.now)) }
    ensures logging { OnOk result (IsLogging log.new) }
    ensures err { IfErr result (λ stop.
        FailsToSend packet.now (W.written writer.old) (W.written writer.new) log.old log.new stop) }
    ensures counts_writer { CountsCall streams.Writer result (W.failures writer.old) (W.failures writer.new) }
    ensures counts_log { CountsCall streams.Log result log.old.failures log.new.failures }
{
    spell(packet, output)?;
    write(writer, output)?;
    match log.record_bytes(Side::Server, output) {
        Ok(()) => Ok(()),
        Err(_) => Err(Stop::Io(Stream::Log)),
    }
}

/// Passes on what the writer has buffered.
///
/// # Errors
///
/// `Io(Writer)` if the writer fails.
pub(crate) fn flush<W: Sink>(writer: &mut W) -> Result<(), Stop>
    ensures bytes { Keeps (W.written writer.old) (W.written writer.new) }
    ensures err { IfErr result (λ stop. stop ≡ stops.Io streams.Writer) }
    ensures counts { CountsCall streams.Writer result (W.failures writer.old) (W.failures writer.new) }
{
    match writer.flush() {
        Ok(()) => Ok(()),
        Err(Failed) => Err(Stop::Io(Stream::Writer)),
    }
}

/// Passes on what the log has buffered.
///
/// # Errors
///
/// `Io(Log)` if the log fails.
pub(crate) fn flush_log<L: Sink>(log: &mut Writer<L>) -> Result<(), Stop>
    requires { IsLogging log.old }
    ensures bytes { Keeps log.old.bytes log.new.bytes }
    ensures logging { OnOk result (IsLogging log.new) }
    ensures err { IfErr result (λ stop. stop ≡ stops.Io streams.Log) }
    ensures counts { CountsCall streams.Log result log.old.failures log.new.failures }
{
    match log.flush() {
        Ok(()) => Ok(()),
        Err(_) => Err(Stop::Io(Stream::Log)),
    }
}
