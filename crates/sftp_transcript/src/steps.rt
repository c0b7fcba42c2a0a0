//! What a reader of a transcript file takes from its input: the opening, and a record.
ghost use Rattle.std.specs.Prelude.{◌≡◌, ◌⊎◌, ◌<◌, ◌≤◌, List, ℕ, [], Some, None, OnOk, OnErr, IfOk, IfErr};
ghost use Rattle.std.specs.Prelude.{IfSome, IsTrue, false, length};
ghost use Rattle.sftp_packets.specs.Packets.{spelling};
ghost use Rattle.sftp_transcript.specs.Recorded.{IsSameAhead, size_of};
ghost use Rattle.sftp_transcript.specs.Sound.{FaultAhead};
ghost use Rattle.sftp_transcript.specs.Packets.{MayCome, TookPacket, record_number};
ghost use Rattle.sftp_transcript.specs.Recorded.{rank};
ghost use Rattle.sftp_transcript.specs.Transcript.{FaultIn};
ghost use Rattle.sftp_streams.specs.Streams.{HasAhead};
ghost use Rattle.sftp_transcript.specs.Recorded.{IsExcuse, CountsError, IsOpened, Took};

use crate::errors::TranscriptError;
use crate::input::Input;
use crate::records::{take_next, take_opening};
use crate::stage::Stage;
use sftp_streams::Source;
use sftp_wire::Packet;
use std::alloc::Global;

/// Takes the opening.
#[inline(never)]
pub(crate) fn pass_opening<R: Source>(input: &mut Input<R>) -> Result<(), TranscriptError>
    ensures found { OnOk result ((before : List ℕ) → HasAhead input.old before → Took IsOpened before input.new) }
    ensures same { OnErr result (IsSameAhead input.old input.new) }
    ensures never_rises { size_of input.new ≤ size_of input.old }
    ensures refused { IfErr result (FaultIn Stage.Opening 0 input.new.held) }
    ensures first { (before : List ℕ) → HasAhead input.old before
        → IfErr result (λ error. IsExcuse error ⊎ FaultAhead Stage.Opening 0 before error) }
    ensures counts { CountsError R.may_fail result input.old.failures input.new.failures }
{
    input.fill_opening()?;
    let left = take_opening(input.held())?.len();
    input.take(input.held().len() - left);
    Ok(())
}

/// The number of the record at this stage, given that of the next event's record.
#[inline(always)]
fn record_number(stage: Stage, number: u64) -> u64
    ensures { result ≡ record_number stage number }
{
    match stage {
        Stage::Opening => 1,
        Stage::Init => 1,
        Stage::Version => 2,
        Stage::Events => number,
    }
}

/// Whether the transcript may end at this stage, and no bytes are held.
#[inline(always)]
fn is_end(held: &[u8], stage: Stage) -> bool
    ensures yes { IsTrue result → (stage ≡ Stage.Events) × (held.now ≡ []) }
    ensures no { result ≡ false → stage ≡ Stage.Events → 0 < length held.now }
{
    match stage {
        Stage::Opening => false,
        Stage::Init => false,
        Stage::Version => false,
        Stage::Events => held.is_empty(),
    }
}

/// Takes the record in front, and returns its packet and the number of the packet's bytes; `None` at the end. The
/// opening was taken before. The number is that of the next event's record.
#[inline(always)]
pub(crate) fn pass_record<R: Source>(
    alloc: Global,
    input: &mut Input<R>,
    stage: Stage,
    number: u64,
) -> Result<Option<(Packet, usize)>, TranscriptError>
    requires { 1 ≤ rank stage }
    ensures found { IfOk result (λ given. (before : List ℕ) → HasAhead input.old before
        → TookPacket stage before given input.new) }
    ensures may_come { IfOk result (λ given. IfSome given (λ taken. MayCome stage taken.0)) }
    ensures measured { IfOk result (λ given. IfSome given (λ taken. taken.1 ≡ length (spelling taken.0))) }
    ensures end { IfOk result (λ given. given ≡ None → stage ≡ Stage.Events) }
    ensures same { OnErr result (IsSameAhead input.old input.new) }
    ensures never_rises { size_of input.new ≤ size_of input.old }
    ensures falls { IfOk result (λ given. IfSome given (λ _. size_of input.new < size_of input.old)) }
    ensures refused { IfErr result (FaultIn stage number input.new.held) }
    ensures first { (before : List ℕ) → HasAhead input.old before
        → IfErr result (λ error. IsExcuse error ⊎ FaultAhead stage number before error) }
    ensures counts { CountsError R.may_fail result input.old.failures input.new.failures }
{
    let place = record_number(stage, number);
    input.fill_record(place)?;
    if is_end(input.held(), stage) {
        return Ok(None);
    }
    // Not by `?`, which would copy the packet.
    match take_next(alloc, input.held(), stage, place) {
        Ok((packet, rest)) => {
            let left = rest.len();
            let taken = input.held().len() - left;
            input.take(taken);
            Ok(Some((packet, taken - 1)))
        }
        Err(error) => Err(error),
    }
}
