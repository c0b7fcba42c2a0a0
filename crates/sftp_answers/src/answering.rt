//! A client's request, answered on the session that all clients share.
ghost use Rattle.std.specs.Prelude.{◌≡◌, ℕ, IfOk, OnErr};
ghost use Rattle.sftp_packets.specs.declared.packets.Packet.TheVariants.{Reply as reply_packet};
ghost use Rattle.sftp_packets.specs.Packets.{HasSpelling};
ghost use Rattle.sftp_handles.specs.Allowed.{Allowed};
ghost use Rattle.sftp_handles.specs.Clash.{is_opening};
ghost use Rattle.sftp_joint.specs.Joint.{joint_request, joint_reply, joint_answer};
ghost use Rattle.sftp_answers.specs.Leaving.{GivesOnly};

use crate::asking::{joint_ask, joint_name};
use sftp_handles::{GivenTable, Session};
use sftp_tree::NoMemory;
use sftp_wire::{Answer, Ask, ByteString, Reply, Request};

/// Answers a client's request on the session of all. A handle that it gives has this number for its name, in 8 bytes;
/// in the session of all the client's number, in 4 bytes, comes before it.
///
/// # Errors
///
/// `NoMemory` if memory runs out, or the client has a handle of this number open; the session is unchanged.
#[tactic(auto, using(crate::proofs::Answers::with_joint_ids))]
pub fn answer_client(
    session: &mut Session<GivenTable>,
    client: u32,
    request: Request,
    number: u64,
) -> Result<Reply, NoMemory>
    ensures allowed { IfOk result (λ reply.
        Allowed session.old (joint_request client request) (joint_reply client reply) session.new) }
    ensures spelled { IfOk result (λ reply. HasSpelling (reply_packet reply)) }
    ensures named { IfOk result (λ reply. GivesOnly number reply.answer) }
    ensures err { OnErr result (session.new ≡ session.old) }
{
    let Request { id, ask } = request;
    let joint = Request {
        id,
        ask: joint_ask(session.tree().allocator(), client, ask)?,
    };
    let answered = answer_joint(session, client, &joint, number);
    drop(joint);
    answered
}

/// Answers a request under the joint name of its handle.
///
/// # Errors
///
/// As `answer_client`.
#[tactic(auto, using(crate::proofs::Answers::plain_joint, crate::proofs::Answers::plain_named))]
fn answer_joint(
    session: &mut Session<GivenTable>,
    client: u32,
    joint: &Request,
    number: u64,
) -> Result<Reply, NoMemory>
    ensures allowed { IfOk result (λ reply. Allowed session.old joint.now
        (record { id = reply.id; answer = joint_answer client reply.answer }) session.new) }
    ensures spelled { IfOk result (λ reply. HasSpelling (reply_packet reply)) }
    ensures named { IfOk result (λ reply. GivesOnly number reply.answer) }
    ensures err { OnErr result (session.new ≡ session.old) }
{
    if is_opening(&joint.ask) {
        open_for(session, client, joint, number)
    } else {
        session.answer(joint)
    }
}

/// Whether a request is answered by a new handle.
fn is_opening(ask: &Ask) -> bool
    ensures { result ≡ is_opening ask.now }
{
    match ask {
        Ask::Open { .. } => true,
        Ask::Opendir { .. } => true,
        _ => false,
    }
}

/// Answers a request that opens something.
///
/// # Errors
///
/// As `answer_client`.
#[tactic(auto, using(crate::proofs::Answers::own_spelled, crate::proofs::Answers::own_named))]
fn open_for(
    session: &mut Session<GivenTable>,
    client: u32,
    joint: &Request,
    number: u64,
) -> Result<Reply, NoMemory>
    ensures allowed { IfOk result (λ reply. Allowed session.old joint.now
        (record { id = reply.id; answer = joint_answer client reply.answer }) session.new) }
    ensures spelled { IfOk result (λ reply. HasSpelling (reply_packet reply)) }
    ensures named { IfOk result (λ reply. GivesOnly number reply.answer) }
    ensures err { OnErr result (session.new ≡ session.old) }
{
    let alloc = session.tree().allocator();
    let name = ByteString::from_slice(alloc, &number.to_be_bytes())?;
    let proposed = Reply {
        id: joint.id,
        answer: Answer::Handle(joint_name(alloc, client, name.as_slice())?),
    };
    match session.answer_as(joint, proposed)? {
        Some(given) => {
            drop(given);
            Ok(Reply {
                id: joint.id,
                answer: Answer::Handle(name),
            })
        }
        None => {
            drop(name);
            refuse(session, joint)
        }
    }
}

/// Refuses a request that opens something.
///
/// # Errors
///
/// `NoMemory` if memory runs out, or no cause refuses the request; the session is unchanged.
#[tactic(auto, using(crate::proofs::Answers::refused_joint, crate::proofs::Answers::refused_named))]
fn refuse(session: &mut Session<GivenTable>, joint: &Request) -> Result<Reply, NoMemory>
    ensures allowed { IfOk result (λ reply. (client : ℕ) → Allowed session.old joint.now
        (record { id = reply.id; answer = joint_answer client reply.answer }) session.new) }
    ensures spelled { IfOk result (λ reply. HasSpelling (reply_packet reply)) }
    ensures named { IfOk result (λ reply. (number : ℕ) → GivesOnly number reply.answer) }
    ensures err { OnErr result (session.new ≡ session.old) }
{
    let causes = session.causes(&joint.ask)?;
    if !causes.has_any() {
        return Err(NoMemory);
    }
    session.answer(joint)
}
