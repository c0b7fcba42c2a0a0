//! The requests of a session from the first one without a reply on.
ghost use Rattle.std.specs.Prelude.{◌≡◌, ◌<◌, ◌≤◌, ◌++◌, ◌∷◌, ℕ, List, [], Some, None, true, false, length};
ghost use Rattle.std.specs.Prelude.{OnOk, IfErr, MatchOption};
ghost use Rattle.std.specs.VecDeque.{deque_len, deque_capacity};
ghost use Rattle.sftp_transcript.specs.Explained.{window};
ghost use Rattle.sftp_audit.specs.Exchanges.{is_awaited, waits_for, with_reply};
ghost use Rattle.sftp_audit.specs.Trees.{AreApart, place_of, RefusesReply};
ghost use Rattle.sftp_sets.specs.Collecting.{exchange_of, exchanges_of, reply_of, timed_of, RefusesId, IsTimely};
ghost use Rattle.sftp_sets.specs.Collecting.{AreWaitingTimely};

use sftp_audit::Refusal;
use sftp_together::{Stamp, TimedExchange};
use sftp_transcript::WINDOW;
use sftp_wire::{Reply, Request};
use std::collections::VecDeque;

/// A reply, and the record in which it is.
#[derive(Drop)]
pub(crate) struct Stamped {
    pub(crate) reply: Reply,
    pub(crate) stamp: Stamp,
}

/// A request, the record in which it is, and the reply, if that came.
#[derive(Drop)]
pub(crate) struct Waiting {
    pub(crate) request: Request,
    pub(crate) asked: Stamp,
    pub(crate) replied: Option<Stamped>,
}

/// Whether the request has this id and no reply.
fn waits_for(waiting: &Waiting, id: u32) -> bool
    ensures { result ≡ waits_for id (exchange_of waiting.now) }
{
    waiting.replied.is_none() && waiting.request.id == id
}

/// How many requests are before the first one that has this id and no reply. It looks at no more than the window.
#[tactic(auto, using(crate::proofs::Places::passed_start, crate::proofs::Places::passed_here, crate::proofs::Places::passed_on, crate::proofs::Places::passed_end))]
fn place_of(kept: &VecDeque<Waiting>, id: u32) -> Option<usize>
    ensures { result ≡ place_of id (exchanges_of kept.now.items) }
{
    let mut place: usize = 0;
    'places: while let Some(waiting) = kept.get(place) {
        if waits_for(waiting, id) {
            return Some(place);
        }
        place += 1;
    }
    None
}

/// Notes a request, which waits.
///
/// # Errors
///
/// `IdInUse` if a request that waits has its id, `Window` if `WINDOW` requests are kept, and `NoMemory` if memory runs
/// out.
pub(crate) fn ask(
    kept: &mut VecDeque<Waiting>,
    request: Request,
    asked: Stamp,
) -> Result<(), Refusal>
    ensures noted { OnOk result
        (kept.new.items ≡ kept.old.items ++ record { request = request; asked = asked; replied = None } ∷ []) }
    ensures apart { OnOk result (is_awaited request.id (exchanges_of kept.old.items) ≡ false) }
    ensures in_time { OnOk result (length kept.old.items < window) }
    ensures refused { IfErr result (RefusesId (exchanges_of kept.old.items) request.id asked.number) }
{
    match make_room(kept, request.id, asked.number) {
        Ok(()) => {
            kept.push_back_reserved(Waiting {
                request,
                asked,
                replied: None,
            });
            Ok(())
        }
        Err(refusal) => {
            drop(request);
            Err(refusal)
        }
    }
}

/// Makes room for a request of this id, which is in the record of this number.
///
/// # Errors
///
/// Those of `ask`.
fn make_room(kept: &mut VecDeque<Waiting>, id: u32, number: u64) -> Result<(), Refusal>
    ensures kept { kept.new.items ≡ kept.old.items }
    ensures room { OnOk result (deque_len kept.new < deque_capacity kept.new) }
    ensures apart { OnOk result (is_awaited id (exchanges_of kept.old.items) ≡ false) }
    ensures in_time { OnOk result (length kept.old.items < window) }
    ensures refused { IfErr result (RefusesId (exchanges_of kept.old.items) id number) }
{
    if place_of(kept, id).is_some() {
        return Err(Refusal::IdInUse { record: number });
    }
    if kept.len() >= WINDOW {
        return Err(Refusal::Window { record: number });
    }
    kept.reserve(1)?;
    Ok(())
}

/// Notes a reply to the request of its id that waits.
///
/// # Errors
///
/// `UnknownReply` if no request of its id waits.
pub(crate) fn answer(kept: &mut VecDeque<Waiting>, stamped: Stamped) -> Result<(), Refusal>
    ensures noted { OnOk result (AreApart (exchanges_of kept.old.items) →
        exchanges_of kept.new.items ≡ with_reply (reply_of stamped) (exchanges_of kept.old.items)) }
    ensures waited { OnOk result (is_awaited stamped.reply.id (exchanges_of kept.old.items) ≡ true) }
    ensures timely { OnOk result ((start : ℕ) (entries : List ℕ) → IsTimely start entries stamped.stamp →
        AreWaitingTimely start entries kept.old.items → AreWaitingTimely start entries kept.new.items) }
    ensures refused { IfErr result (RefusesReply (exchanges_of kept.old.items) (reply_of stamped)) }
{
    let Some(place) = place_of(kept, stamped.reply.id) else {
        let number = stamped.stamp.number;
        drop(stamped);
        return Err(Refusal::UnknownReply { record: number });
    };
    match kept.get_mut(place) {
        Some(waiting) => {
            waiting.replied = Some(stamped);
            Ok(())
        }
        None => unreachable!(),
    }
}

/// The exchange of a request that has its reply; nothing of one that has none.
pub(crate) fn timed_of(waiting: Waiting) -> Option<TimedExchange>
    ensures { MatchOption result (waiting.replied ≡ None) (λ exchange. (stamped : Stamped)
        × (waiting.replied ≡ Some stamped) × (exchange ≡ timed_of waiting stamped)) }
{
    let Waiting {
        request,
        asked,
        replied,
    } = waiting;
    match replied {
        Some(Stamped { reply, stamp }) => Some(TimedExchange {
            request,
            asked,
            reply,
            replied: stamp,
        }),
        None => {
            drop(request);
            None
        }
    }
}
