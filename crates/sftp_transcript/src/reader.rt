//! A transcript file that is read record by record from a source. This profile's own; the packets in it are those of
//! the draft, section 4 on.
ghost use Rattle.std.specs.Prelude.{◌≡◌, ◌≢◌, ◌⊎◌, ◌<◌, ◌≤◌, List, ℕ, [], Some, None, Ok, Err, IfSome, MatchResult};
ghost use Rattle.std.specs.Prelude.{OnOk, OnErr, IfOk, IfErr};
ghost use Rattle.sftp_packets.specs.declared.packets.Packet.{Packet};
ghost use Rattle.sftp_transcript.specs.declared.errors.TranscriptError.{TranscriptError};
ghost use Rattle.sftp_transcript.specs.declared.events.Event.{Event};
ghost use Rattle.sftp_transcript.specs.Recorded.{IsSameAhead, size_of};
ghost use Rattle.sftp_streams.specs.Streams.{HasAhead};
ghost use Rattle.sftp_transcript.specs.Recorded.{Took, CountsError, IsExcuse};
ghost use Rattle.sftp_transcript.specs.Transcript.{FaultIn, NamesRecord, number_in_hand};
ghost use Rattle.sftp_transcript.specs.Recorded.{Reading, IsKnown, Records, RecordsSame, Gave, Gives};
ghost use Rattle.sftp_transcript.specs.Recorded.{rank, reported, number_after};
ghost use Rattle.sftp_transcript.specs.Sound.{HasGiven, HasGivenOf, GaveFrom, FaultOf, FaultAhead, with_given};
ghost use Rattle.sftp_transcript.specs.Sound.{HasStillGiven};
ghost use Rattle.sftp_transcript.specs.Packets.{IsAfterOpening, BeginsNext, FaultNext, IsMeasured, GivesPacket};
ghost use Rattle.sftp_transcript.specs.Packets.{GivesNext, TookNoRecord, stage_opened, stage_after, number_past};
ghost use Rattle.sftp_transcript.specs.Packets.{IsStageThen, MayCome, number_then, event_in};

use crate::errors::TranscriptError;
use crate::events::Event;
use crate::input::Input;
use crate::records::event_of;
use crate::stage::Stage;
use crate::steps::{pass_opening, pass_record};
use crate::writer::sender;
use sftp_streams::{Buffer, Source};
use sftp_wire::{Packet, Side};
use std::alloc::Global;
use std::marker::Model;

/// The number of the next event's record, after the record at this stage.
#[inline(always)]
fn number_past(stage: Stage, number: u64) -> u64
    ensures { result ≡ number_past stage number }
{
    match stage {
        Stage::Opening => number,
        Stage::Init => number,
        Stage::Version => number,
        Stage::Events => number.saturating_add(1),
    }
}

/// The stage after the record at this one.
#[inline(always)]
fn stage_after(stage: Stage) -> Stage
    ensures { result ≡ stage_after stage }
{
    match stage {
        Stage::Opening => Stage::Version,
        Stage::Init => Stage::Version,
        Stage::Version => Stage::Events,
        Stage::Events => Stage::Events,
    }
}

/// The events or the records of a transcript file, one after the other: `SFTPTR01`, an INIT of version 3 or more from
/// the client, a VERSION 3 from the server, with any extensions, and then requests and replies. Before each packet is a
/// byte `C` or `S` that names its side.
///
/// It holds at most 512 KiB of the file.
#[derive(Debug, Drop)]
pub struct Reader<R: Source> {
    alloc: Global,
    input: Input<R>,
    stage: Stage,
    number: u64,
    fault: Option<TranscriptError>,
}

impl<R: Source> Model for Reader<R> {
    ghost use Rattle.sftp_transcript.specs.Recorded.{Reading};

    ghost Value = { Reading };

    ghost view = { λ r. record { ahead = r.input; stage = r.stage; number = r.number; fault = r.fault } };
}

impl<R: Source> Reader<R> {
    /// A reader that has read nothing yet. It takes the memory for the bytes that it holds.
    ///
    /// # Errors
    ///
    /// `NoMemory` if memory runs out.
    pub fn new(alloc: Global, source: R) -> Result<Reader<R>, TranscriptError>
    where
        R: Drop,
        ensures ok { IfOk result (λ reader. reader ≡ record {
          ahead = record {
            held = [];
            left = R.left source;
            failures = R.failures source;
            reads_left = R.reads_left source;
          };
          stage = Stage.Opening;
          number = 3;
          fault = None;
        }) }
        ensures err { IfErr result (λ error. error ≡ TranscriptError.NoMemory) }
    {
        let buffer = Buffer::new(alloc)?;
        Ok(Reader {
            alloc,
            input: Input::new(buffer, source),
            stage: Stage::Opening,
            number: 3,
            fault: None,
        })
    }

    /// Takes the opening if it is next.
    #[inline(always)]
    fn take_opening(&mut self) -> Result<(), TranscriptError>
        ensures opened { OnOk result ((before : List ℕ) → HasAhead self.old.ahead before
            → Took (IsAfterOpening self.old.stage) before self.new.ahead) }
        ensures stage { OnOk result (self.new.stage ≡ stage_opened self.old.stage) }
        ensures next { OnOk result (1 ≤ rank self.new.stage) }
        ensures kept { MatchResult result (λ _. TookNoRecord self.old self.new)
            (λ _. IsSameAhead self.old.ahead self.new.ahead × (self.new.stage ≡ self.old.stage)) }
        ensures number { self.new.number ≡ self.old.number }
        ensures fault { self.new.fault ≡ self.old.fault }
        ensures never_rises { size_of self.new.ahead ≤ size_of self.old.ahead }
        ensures refused { IfErr result (FaultIn self.new.stage self.new.number self.new.ahead.held) }
        ensures first { (before : List ℕ) → HasAhead self.old.ahead before
            → IfErr result (λ error. IsExcuse error ⊎ FaultNext self.old.stage self.old.number before error) }
        ensures counts { CountsError R.may_fail result self.old.ahead.failures self.new.ahead.failures }
    {
        match self.stage {
            Stage::Opening => {
                pass_opening(&mut self.input)?;
                self.stage = Stage::Init;
                Ok(())
            }
            Stage::Init => Ok(()),
            Stage::Version => Ok(()),
            Stage::Events => Ok(()),
        }
    }

    /// Takes the record in front. The opening was taken before.
    #[inline(always)]
    fn take_record(&mut self) -> Result<Option<(Side, Packet, usize)>, TranscriptError>
        requires { 1 ≤ rank self.old.stage }
        ensures found { IfOk result (λ given. (before : List ℕ) → HasAhead self.old.ahead before
            → GivesNext self.old.stage before given self.new) }
        ensures measured { IfOk result (λ given. IfSome given IsMeasured) }
        ensures may_come { IfOk result (λ given. IfSome given (λ g. MayCome self.old.stage g.1)) }
        ensures kept { OnErr result (IsSameAhead self.old.ahead self.new.ahead × (self.new.stage ≡ self.old.stage)) }
        ensures fault { self.new.fault ≡ self.old.fault }
        ensures number { MatchResult result
            (λ given. self.new.number ≡ number_then self.old.stage self.old.number given)
            (λ _. self.new.number ≡ self.old.number) }
        ensures stage { IfOk result (λ given. IsStageThen self.old.stage given self.new.stage) }
        ensures falls { IfOk result (λ given. IfSome given (λ _. size_of self.new.ahead < size_of self.old.ahead)) }
        ensures never_rises { size_of self.new.ahead ≤ size_of self.old.ahead }
        ensures refused { IfErr result (FaultIn self.new.stage self.new.number self.new.ahead.held) }
        ensures first { (before : List ℕ) → HasAhead self.old.ahead before
            → IfErr result (λ error. IsExcuse error ⊎ FaultAhead self.old.stage self.old.number before error) }
        ensures counts { CountsError R.may_fail result self.old.ahead.failures self.new.ahead.failures }
    {
        match pass_record(self.alloc, &mut self.input, self.stage, self.number) {
            Ok(Some((packet, length))) => {
                self.number = number_past(self.stage, self.number);
                self.stage = stage_after(self.stage);
                Ok(Some((sender(&packet), packet, length)))
            }
            Ok(None) => Ok(None),
            Err(error) => Err(error),
        }
    }

    /// Takes the next record, and before it the opening if that is next.
    fn take_next_record(&mut self) -> Result<Option<(Side, Packet, usize)>, TranscriptError>
        ensures found { IfOk result (λ given. (before : List ℕ) → HasAhead self.old.ahead before
            → GivesNext self.old.stage before given self.new) }
        ensures measured { IfOk result (λ given. IfSome given IsMeasured) }
        ensures may_come { IfOk result (λ given. IfSome given (λ g. MayCome self.old.stage g.1)) }
        ensures kept { OnErr result (TookNoRecord self.old self.new) }
        ensures fault { self.new.fault ≡ self.old.fault }
        ensures number { MatchResult result
            (λ given. self.new.number ≡ number_then self.old.stage self.old.number given)
            (λ _. self.new.number ≡ self.old.number) }
        ensures never_rises { size_of self.new.ahead ≤ size_of self.old.ahead }
        ensures stage { IfOk result (λ given. IsStageThen self.old.stage given self.new.stage) }
        ensures falls { IfOk result (λ given. IfSome given (λ _. size_of self.new.ahead < size_of self.old.ahead)) }
        ensures refused { IfErr result (FaultIn self.new.stage self.new.number self.new.ahead.held) }
        ensures first { (before : List ℕ) → HasAhead self.old.ahead before
            → IfErr result (λ error. IsExcuse error ⊎ FaultNext self.old.stage self.old.number before error) }
        ensures counts { CountsError R.may_fail result self.old.ahead.failures self.new.ahead.failures }
    {
        self.take_opening()?;
        self.take_record()
    }

    /// Reports an error, which is permanent unless memory ran out.
    fn report(&mut self, error: TranscriptError)
        ensures becomes { self.new ≡ reported error self.old }
        ensures stage { self.new.stage ≡ self.old.stage }
        ensures number { self.new.number ≡ self.old.number }
    {
        match error {
            TranscriptError::NoMemory => {}
            fault => self.fault = Some(fault),
        }
    }

    /// The next event; `None` at the end.
    ///
    /// # Errors
    ///
    /// The first fault from left to right, with the number of its record; then each later call returns it again.
    /// Records count from 1, the opening has the number 0, and a number is capped at 2^64 - 1.
    ///
    /// - `Magic` if the file does not begin with `SFTPTR01`.
    /// - `Start` if the first record is no INIT of version 3 or more from the client, or the second is no VERSION 3
    ///   from the server, or the file ends before one of them begins, or a later record is an INIT or a VERSION.
    /// - `Direction` if the byte before a packet is neither `C` nor `S`.
    /// - `Wire` if a packet cannot be read.
    /// - `Truncated` if the source ended inside a record: it has no bytes left.
    /// - `Io` if the source fails.
    /// - `NoMemory` if memory runs out. This one is not permanent: the same events are to come.
    #[inline(always)]
    pub fn next(&mut self) -> Result<Option<Event>, TranscriptError>
        // An error that was returned is returned again.
        ensures again { (error : TranscriptError) → self.old.fault ≡ Some error
            → (result ≡ Err error) × (self.new ≡ self.old) }
        // An event that it returns is the next one; `None` is the end.
        ensures found { IfOk result (λ given. IsKnown self.old → Gave self.old given self.new) }
        // Unless memory runs out or the source fails, it returns the next event that is recorded.
        ensures only { (events : List Event) → self.old.fault ≡ None → Records self.old events
            → MatchResult result (λ given. Gives given events self.new) IsExcuse }
        // Of known bytes it returns the event that is next, or the first fault.
        ensures first { (bytes ahead : List ℕ) (events : List Event) → HasGiven bytes events ahead self.old
            → MatchResult result (λ given. GaveFrom bytes events given self.new) (FaultOf bytes events) }
        // With an error it gives no event: after `NoMemory` a further call returns the same event or the same fault.
        ensures still { (bytes ahead : List ℕ) (events : List Event) → HasGiven bytes events ahead self.old
            → IfErr result (λ error. HasStillGiven bytes events error self.new) }
        ensures known { IsKnown self.old → IsKnown self.new }
        // Where memory ran out, the same events are to come.
        ensures no_memory { result ≡ Err TranscriptError.NoMemory → RecordsSame self.old self.new }
        ensures fault { OnOk result (self.new.fault ≡ None) }
        // An error is permanent, unless memory ran out.
        ensures stays { IfErr result (λ error. error ≢ TranscriptError.NoMemory → self.new.fault ≡ Some error) }
        // After an event the next one has the next number; on error the numbers are unchanged.
        ensures number { MatchResult result (λ given. self.new.number ≡ number_after self.old.number given)
            (λ _. self.new.number ≡ self.old.number) }
        ensures stage { MatchResult result (λ _. self.new.stage ≡ Stage.Events)
            (λ _. rank self.old.stage ≤ rank self.new.stage) }
        // An error, also `Io`, has the number of the current record.
        ensures names { self.old.fault ≡ None
            → IfErr result (NamesRecord (number_in_hand self.new.stage self.old.number)) }
        // An error is one of the current record.
        ensures refused { self.old.fault ≡ None
            → IfErr result (FaultIn self.new.stage self.new.number self.new.ahead.held) }
        ensures counts { self.old.fault ≡ None
            → CountsError R.may_fail result self.old.ahead.failures self.new.ahead.failures }
        ensures falls { IfOk result (λ given. IfSome given (λ _. size_of self.new.ahead < size_of self.old.ahead)) }
    {
        'greetings: loop {
            match self.next_record() {
                Ok(Some((_, packet, _))) => match event_of(packet) {
                    Some(event) => return Ok(Some(event)),
                    None => {}
                },
                Ok(None) => return Ok(None),
                Err(error) => return Err(error),
            }
        }
    }

    /// The next record, INIT and VERSION among them: the side that sent the packet, the packet, and how many bytes the
    /// packet has with its length field; `None` at the end. Calls of `next` and of this function may be mixed.
    ///
    /// # Errors
    ///
    /// Those of `next`.
    #[inline(never)]
    pub fn next_record(&mut self) -> Result<Option<(Side, Packet, usize)>, TranscriptError>
        // An error that was returned is returned again.
        ensures again { (error : TranscriptError) → self.old.fault ≡ Some error
            → (result ≡ Err error) × (self.new ≡ self.old) }
        // A record that it returns is the next one; `None` is the end.
        ensures found { IfOk result (λ given. (before : List ℕ) → HasAhead self.old.ahead before
            → GivesNext self.old.stage before given self.new) }
        ensures measured { IfOk result (λ given. IfSome given IsMeasured) }
        // It may come where it stands: an INIT first, then a VERSION, then the packets of events.
        ensures may_come { IfOk result (λ given. IfSome given (λ g. MayCome self.old.stage g.1)) }
        // Unless memory runs out or the source fails, it returns the record that is next.
        ensures only { (packet : Packet) (before rest : List ℕ) → self.old.fault ≡ None
            → HasAhead self.old.ahead before → BeginsNext self.old.stage before packet rest
            → MatchResult result (λ given. GivesPacket packet given × HasAhead self.new.ahead rest) IsExcuse }
        // Where no record is next, it returns the first fault of known bytes.
        ensures first { (before : List ℕ) → self.old.fault ≡ None → HasAhead self.old.ahead before
            → IfErr result (λ error. IsExcuse error ⊎ FaultNext self.old.stage self.old.number before error) }
        // The events among its records are given as those of `next` are.
        ensures given { (bytes ahead : List ℕ) (events : List Event) → HasGiven bytes events ahead self.old
            → IfOk result (λ given. HasGivenOf bytes (with_given events (event_in given)) self.new) }
        // With an error it takes no record, and after `NoMemory` a further call returns the same.
        ensures kept { OnErr result (TookNoRecord self.old self.new) }
        ensures still { (bytes ahead : List ℕ) (events : List Event) → HasGiven bytes events ahead self.old
            → IfErr result (λ error. HasStillGiven bytes events error self.new) }
        // Where memory ran out, the same events are to come.
        ensures no_memory { result ≡ Err TranscriptError.NoMemory → RecordsSame self.old self.new }
        ensures fault { OnOk result (self.new.fault ≡ None) }
        // An error is permanent, unless memory ran out.
        ensures stays { IfErr result (λ error. error ≢ TranscriptError.NoMemory → self.new.fault ≡ Some error) }
        // After a record of an event the next one has the next number; on error the numbers are unchanged.
        ensures number { MatchResult result
            (λ given. self.new.number ≡ number_then self.old.stage self.old.number given)
            (λ _. self.new.number ≡ self.old.number) }
        ensures stage { IfOk result (λ given. IsStageThen self.old.stage given self.new.stage) }
        // An error, also `Io`, has the number of the current record.
        ensures names { self.old.fault ≡ None
            → IfErr result (NamesRecord (number_in_hand self.new.stage self.old.number)) }
        // An error is one of the current record.
        ensures refused { self.old.fault ≡ None
            → IfErr result (FaultIn self.new.stage self.new.number self.new.ahead.held) }
        ensures counts { self.old.fault ≡ None
            → CountsError R.may_fail result self.old.ahead.failures self.new.ahead.failures }
        ensures falls { IfOk result (λ given. IfSome given (λ _. size_of self.new.ahead < size_of self.old.ahead)) }
    {
        if let Some(fault) = self.fault {
            return Err(fault);
        }
        match self.take_next_record() {
            Ok(given) => Ok(given),
            Err(fault) => {
                self.report(fault);
                Err(fault)
            }
        }
    }
}
