//! A transcript file that is written record by record. This profile's own.
ghost use Rattle.std.specs.Prelude.{◌≡◌, ◌∷◌, ◌++◌, [], None, IsOk, IsErr, IfOk, IfErr, OnOk, OnErr, MatchResult};
ghost use Rattle.std.specs.Prelude.{IsTrue, false};
ghost use Rattle.std.specs.Io.KnownBytes.{Appends};
ghost use Rattle.sftp_packets.specs.declared.packets.Packet.{Packet};
ghost use Rattle.sftp_packets.specs.Packets.{spelling, side_of};
ghost use Rattle.sftp_streams.specs.Streams.{Counts, AppendsPart};
ghost use Rattle.sftp_transcript.specs.Transcript.{direction_of, record_text};
ghost use Rattle.sftp_transcript.specs.Log.{Log, opening_before, opened_text, next_number, IsAppended, IsUnwritten};
ghost use Rattle.sftp_transcript.specs.Log.{IsUnrecorded};
ghost use Rattle.sftp_transcript.specs.Log.{FailsToRecord, FailsToFlush, FailedBefore, counted, broken_at};
ghost use Rattle.sftp_transcript.specs.Log.{IsBadPacket, IsRecordable};

use crate::errors::TranscriptError;
use crate::records::{OPENING, read_fault};
use sftp_streams::{Failed, Sink, put_all};
use sftp_wire::{Fault, PACKET_LIMIT, Packet, Side, encode};
use std::alloc::Global;
use std::marker::Model;

/// The byte before a packet of that side.
fn direction(side: Side) -> u8
    ensures { result ≡ direction_of side }
{
    match side {
        Side::Client => b'C',
        Side::Server => b'S',
    }
}

/// The opening if there are no records yet.
fn opening(records: u64) -> &'static [u8]
    ensures { result.now ≡ opening_before records }
{
    if records == 0 { &OPENING } else { &[] }
}

/// Writes a record, and before the first one the opening.
fn put_record<L: Sink>(sink: &mut L, records: u64, side: Side, spelled: &[u8]) -> Result<(), Failed>
    ensures ok { OnOk result (Appends (L.written sink.old) (L.written sink.new)
        (opened_text records (direction_of side ∷ spelled.now))) }
    ensures err { OnErr result (AppendsPart (L.written sink.old) (L.written sink.new)
        (opened_text records (direction_of side ∷ spelled.now))) }
    ensures counts { Counts result (L.failures sink.old) (L.failures sink.new) }
{
    put_all(sink, opening(records))?;
    put_all(sink, &[direction(side)])?;
    put_all(sink, spelled)?;
    Ok(())
}

/// Who sends a packet.
pub(crate) fn sender(packet: &Packet) -> Side
    ensures { result ≡ side_of packet.now }
{
    match packet {
        Packet::Init { .. } => Side::Client,
        Packet::Version { .. } => Side::Server,
        Packet::Request(_) => Side::Client,
        Packet::Reply(_) => Side::Server,
    }
}

/// Whether two sides are the same.
fn is_same(one: Side, other: Side) -> bool
    ensures same { IsTrue result → one ≡ other }
    ensures different { result ≡ false → one ≡ other → ⊥ }
{
    match (one, other) {
        (Side::Client, Side::Client) => true,
        (Side::Server, Side::Server) => true,
        (Side::Client, Side::Server) => false,
        (Side::Server, Side::Client) => false,
    }
}

/// Replaces the bytes by those of a packet of that side.
fn spell(out: &mut Vec<u8>, side: Side, packet: &Packet, number: u64) -> Result<(), TranscriptError>
    ensures ok { OnOk result (IsRecordable side packet.now × (out.new.items ≡ spelling packet.now)) }
    ensures err { IfErr result (λ error. IsBadPacket side packet.now number error) }
{
    if !is_same(sender(packet), side) {
        return Err(TranscriptError::Wire {
            record: number,
            fault: Fault::WrongType,
        });
    }
    out.clear();
    match encode(packet, out) {
        Ok(()) => Ok(()),
        Err(error) => Err(read_fault(error, number)),
    }
}

/// The records in a sink: how many there are, and the number of the record at which the sink failed, if it did.
#[derive(Debug, Drop)]
struct Records<L: Sink> {
    sink: L,
    count: u64,
    broken: Option<u64>,
}

impl<L: Sink> Model for Records<L> {
    ghost use Rattle.sftp_transcript.specs.Log.{Log};

    ghost Value = { Log };

    ghost view = { λ r. record {
      bytes = L.written r.sink;
      failures = L.failures r.sink;
      records = r.count;
      broken = r.broken;
    } };
}

impl<L: Sink> Records<L> {
    /// `Io` if the sink failed in an earlier call.
    fn check(&self) -> Result<(), TranscriptError>
        ensures ok { OnOk result (self.now.broken ≡ None) }
        ensures err { IfErr result (λ error. FailedBefore self.now error) }
    {
        match self.broken {
            None => Ok(()),
            Some(number) => Err(TranscriptError::Io { record: number }),
        }
    }

    /// The number of the next record.
    fn next_number(&self) -> u64
        ensures { result ≡ next_number self.now }
    {
        self.count.saturating_add(1)
    }

    /// What a call on the sink returned, at this record.
    fn settle(&mut self, number: u64, written: Result<(), Failed>) -> Result<(), TranscriptError>
        ensures ok { OnOk result (IsOk written × (self.new ≡ counted self.old number)) }
        ensures err { IfErr result (λ error. IsErr written × (error ≡ TranscriptError.Io number)
            × (self.new ≡ broken_at self.old number)) }
    {
        match written {
            Ok(()) => {
                self.count = number;
                Ok(())
            }
            Err(Failed) => {
                self.broken = Some(number);
                Err(TranscriptError::Io { record: number })
            }
        }
    }

    /// Appends a record.
    fn append(&mut self, side: Side, spelled: &[u8]) -> Result<(), TranscriptError>
        ensures ok { OnOk result (IsAppended self.old (direction_of side ∷ spelled.now) self.new) }
        ensures err { IfErr result (λ error.
            FailsToRecord self.old (direction_of side ∷ spelled.now) error self.new) }
    {
        self.check()?;
        let number = self.next_number();
        let written = put_record(&mut self.sink, self.count, side, spelled);
        self.settle(number, written)
    }

    /// Flushes the sink.
    fn flush(&mut self) -> Result<(), TranscriptError>
        ensures ok { OnOk result (IsUnwritten self.old self.new) }
        ensures err { IfErr result (λ error. FailsToFlush self.old error self.new) }
    {
        self.check()?;
        let flushed = self.sink.flush();
        self.settle(self.count, flushed)
    }
}

/// A transcript file that is written to a sink: `SFTPTR01`, and then for each packet a byte `C` or `S`, by its side,
/// and the packet. Nothing is written before the first record.
///
/// Records count from 1, and a number is capped at 2^64 - 1.
#[derive(Debug, Drop)]
pub struct Writer<L: Sink> {
    records: Records<L>,
    spelled: Vec<u8>,
}

impl<L: Sink> Model for Writer<L> {
    ghost use Rattle.sftp_transcript.specs.Log.{Log};

    ghost Value = { Log };

    ghost view = { λ w. w.records };
}

impl<L: Sink> Writer<L> {
    /// A writer that has written nothing. It takes the memory for one packet.
    ///
    /// # Errors
    ///
    /// `NoMemory` if memory runs out.
    pub fn new(alloc: Global, sink: L) -> Result<Writer<L>, TranscriptError>
    where
        L: Drop,
        ensures ok { IfOk result (λ log. log
            ≡ record { bytes = L.written sink; failures = L.failures sink; records = 0; broken = None }) }
        ensures err { IfErr result (λ error. error ≡ TranscriptError.NoMemory) }
    {
        let spelled = Vec::with_capacity(alloc, PACKET_LIMIT)?;
        let records = Records {
            sink,
            count: 0,
            broken: None,
        };
        Ok(Writer { records, spelled })
    }

    /// Writes the record of a packet of that side, and before the first record the opening.
    ///
    /// # Errors
    ///
    /// - `Wire` with the number that the record would have if the packet has no bytes, or with `WrongType` if that side
    ///   does not send it. Nothing changes.
    /// - `NoMemory` if memory runs out, of a packet that has a record. Nothing changes.
    /// - `Io` with the number of the record if the sink fails, of a packet that has one. A beginning of the bytes is
    ///   written, and each later call returns the same error and changes nothing, of any packet.
    pub fn record(&mut self, side: Side, packet: &Packet) -> Result<(), TranscriptError>
        ensures spelled { OnOk result (IsRecordable side packet.now) }
        ensures ok { OnOk result (IsAppended self.old (record_text packet.now) self.new) }
        ensures err { IfErr result (λ error. IsUnrecorded self.old side packet.now error self.new) }
    {
        self.records.check()?;
        let number = self.records.next_number();
        spell(&mut self.spelled, side, packet, number)?;
        self.records.append(side, &self.spelled)
    }

    /// Writes the record of a packet of that side whose bytes are at hand, as `record` does. Does not allocate. The
    /// bytes are not looked at: nothing is promised where they are not those of one packet of that side.
    ///
    /// # Errors
    ///
    /// `Io` alone, as in `record`.
    pub fn record_bytes(&mut self, side: Side, bytes: &[u8]) -> Result<(), TranscriptError>
        ensures { (packet : Packet) → side_of packet ≡ side → bytes.now ≡ spelling packet → MatchResult result
            (λ _. IsAppended self.old (record_text packet) self.new)
            (λ error. FailsToRecord self.old (record_text packet) error self.new) }
    {
        self.records.append(side, bytes)
    }

    /// Flushes the sink. Does not allocate.
    ///
    /// # Errors
    ///
    /// `Io` alone, with the number of the last record (0 if there is none), or as an earlier call returned it.
    pub fn flush(&mut self) -> Result<(), TranscriptError>
        ensures ok { OnOk result (IsUnwritten self.old self.new) }
        ensures err { IfErr result (λ error. FailsToFlush self.old error self.new) }
    {
        self.records.flush()
    }

    /// The sink.
    pub fn into_sink(self) -> L
        ensures bytes { L.written result ≡ self.bytes }
        ensures failures { L.failures result ≡ self.failures }
    {
        let Writer {
            records,
            spelled: _,
        } = self;
        let Records {
            sink,
            count: _,
            broken: _,
        } = records;
        sink
    }
}
