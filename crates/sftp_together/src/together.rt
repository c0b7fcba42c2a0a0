//! The audit of several sessions by an order of all their requests.
ghost use Rattle.std.specs.Prelude.{◌≡◌, ℕ, ◌<◌, List, [], take, length, Some, IfOk, IfErr, OnOk};
ghost use Rattle.sftp_tree.specs.Tree as values;
ghost use Rattle.sftp_together.specs.Sets.{Placed, session_at, is_alone};
ghost use Rattle.sftp_together.specs.Checks.{IsPlaced, ExplainsBy, IsFirstFault, IsNoJudgement, FirstLeft};

use crate::errors::OrderFault;
use crate::placing::Placing;
use crate::sessions::{Sessions, Unread};
use sftp_judges::Judges;
use sftp_tree::Tree;

/// Audits sessions that overlapped on one tree, by an order of all their requests: at each place it has the number of
/// the session whose next request comes there, from 0. `by` is what the judge judges by, and times may be as much as
/// the tolerance apart from what they say.
///
/// It accepts exactly if the order has each request of each session once; if no request comes after one that was asked
/// more than the tolerance after it had its reply; and if each reply is allowed when the requests are carried out
/// singly and in this order, each session having handles of its own. The result is the tree at the end, as if what is
/// still open were closed then. Of the sessions it keeps one exchange.
///
/// # Errors
///
/// The first place at which the order is none.
///
/// - `NothingLeft` if the session that the order names has no request left.
/// - `Clock` if the next request of that session has to come before one that has its place.
/// - `Reply` if the reply to that request is not allowed there.
/// - `LeftOut` if the order ends before a session does.
/// - `Unread` if a session could not be read, and `NoMemory` if memory ran out, which say nothing of the order.
pub fn audit_together<J: Judges, S: Sessions>(
    by: J::By,
    start: Tree,
    sessions: &mut S,
    order: &[u16],
    tolerance: u64,
) -> Result<Tree, OrderFault>
    // The order explains the sessions, and the result is the tree where their run ends.
    ensures accepted { IfOk result (λ end. (last : J)
        × ExplainsBy J.allowed (J.begun by start) tolerance (S.ahead sessions.old) order.now last
        × (end ≡ J.closed last)) }
    // A refused order explains nothing.
    ensures refused { IfErr result (λ fault. (IsNoJudgement fault → ⊥) → (last : J) →
        ExplainsBy J.allowed (J.begun by start) tolerance (S.ahead sessions.old) order.now last → ⊥) }
    // The error is the first place at which it is none.
    ensures first { IfErr result
        (IsFirstFault J.allowed (J.begun by start) tolerance (S.ahead sessions.old) order.now) }
{
    let alloc = start.allocator();
    let alone = sessions.count() == 1;
    let mut placing = Placing::new(alloc, J::begin(by, start)?, alone, tolerance);
    match check_order(&mut placing, sessions, order) {
        Ok(()) => Ok(placing.into_tree()),
        Err(fault) => {
            drop(placing);
            Err(fault)
        }
    }
}

/// Judges a whole order, by a judge for whom no request has its place yet.
fn check_order<J: Judges, S: Sessions>(
    placing: &mut Placing<J>,
    sessions: &mut S,
    order: &[u16],
) -> Result<(), OrderFault>
    requires alone { placing.old.alone ≡ is_alone (S.ahead sessions.old) }
    requires fresh { placing.old.latest ≡ 0 }
    ensures accepted { OnOk result (ExplainsBy J.allowed placing.old.state placing.old.tolerance
        (S.ahead sessions.old) order.now placing.new.state) }
    ensures first { IfErr result
        (IsFirstFault J.allowed placing.old.state placing.old.tolerance (S.ahead sessions.old) order.now) }
{
    place_all(placing, sessions, order)?;
    find_left(sessions)
}

/// Gives each request its place.
fn place_all<J: Judges, S: Sessions>(
    placing: &mut Placing<J>,
    sessions: &mut S,
    order: &[u16],
) -> Result<(), OrderFault>
    requires alone { placing.old.alone ≡ is_alone (S.ahead sessions.old) }
    requires fresh { placing.old.latest ≡ 0 }
    ensures placed { OnOk result ((placed : List Placed) × IsPlaced J.allowed placing.old.state placing.old.tolerance
        (S.ahead sessions.old) order.now placed (S.ahead sessions.new) placing.new.state) }
    ensures first { IfErr result
        (IsFirstFault J.allowed placing.old.state placing.old.tolerance (S.ahead sessions.old) order.now) }
{
    'places: for (place, session) in order.iter().enumerate() {
        match sessions.next_of(usize::from(*session)) {
            Ok(Some(exchange)) => placing.put(place, *session, exchange)?,
            Ok(None) => {
                return Err(OrderFault::NothingLeft {
                    place,
                    session: *session,
                });
            }
            Err(Unread) => {
                return Err(OrderFault::Unread {
                    session: usize::from(*session),
                });
            }
        }
    }
    Ok(())
}

/// Whether no session has a request left.
///
/// # Errors
///
/// `LeftOut` with the next request of the first one that has, and `Unread` if one cannot be read.
fn find_left<S: Sessions>(sessions: &mut S) -> Result<(), OrderFault>
    ensures none { OnOk result ((number : ℕ) → session_at number (S.ahead sessions.old) ≡ []) }
    ensures left { IfErr result (FirstLeft (S.ahead sessions.old)) }
{
    let count = sessions.count();
    'sessions: for session in 0..count {
        match sessions.next_of(session) {
            Ok(Some(exchange)) => {
                let number = exchange.asked.number;
                drop(exchange);
                return Err(OrderFault::LeftOut {
                    session,
                    record: number,
                });
            }
            Ok(None) => {}
            Err(Unread) => return Err(OrderFault::Unread { session }),
        }
    }
    Ok(())
}
