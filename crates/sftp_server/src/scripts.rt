//! Acts of a server that are done one after the other.
ghost use Rattle.std.specs.Prelude.{◌≡◌, ◌≢◌, ◌<◌, ◌^◌, ◌++◌, [], ◌∷◌, IfOk, OnOk};
ghost use Rattle.sftp_handles.specs.Allowed.{Allowed};
ghost use Rattle.sftp_handles.specs.State.{started};
ghost use Rattle.sftp_transcript.specs.declared.events.Event.TheVariants.{Asked};
ghost use Rattle.sftp_transcript.specs.Explained.{Explained, BeginsFrom, window};
ghost use Rattle.sftp_server.specs.declared.acts.Act.TheVariants as acts;
ghost use Rattle.sftp_server.specs.declared.refusals.Refuse.TheVariants.{NoMemory as no_memory};
ghost use Rattle.sftp_server.specs.Machine.{at_start, AreActs, IsAct};
ghost use Rattle.sftp_server.specs.Machine.{server_clash, IsValue};
ghost use Rattle.sftp_server.specs.Ending.{IsPerformed};

use crate::acts::Act;
use crate::cores::Core;
use crate::refusals::Refuse;
use sftp_handles::SlabTable;
use sftp_transcript::{Event, WINDOW};
use sftp_tree::{NoMemory, Tree};
use sftp_wire::{Ask, Request};
use std::alloc::AllocError;

/// Does the acts in their order on a core of this tree, with nothing open and a window of `sftp_transcript::WINDOW`
/// requests. Returns the events that they make, and the core after them. An act that is not possible, such as the
/// delivery of a request whose id is in use, changes nothing and makes no event.
///
/// # Errors
///
/// `NoMemory` if memory runs out.
pub fn run_script(tree: Tree, acts: &[Act]) -> Result<(Vec<Event>, Core<SlabTable>), NoMemory>
    ensures done { IfOk result (λ run.
        AreActs Allowed server_clash (at_start (started tree) window) acts.now run.0.items run.1) }
    ensures begun { IfOk result (λ run. BeginsFrom Allowed (started tree) run.0.items) }
    ensures explained { IfOk result (λ run.
        run.1.queue ≡ [] → Explained Allowed (started tree) run.0.items run.1.state) }
{
    let alloc = tree.allocator();
    let mut core = Core::new(tree, WINDOW)?;
    let mut events = Vec::new(alloc);
    'acts: for act in acts {
        match perform(act, &mut core, &mut events) {
            Ok(()) => {}
            Err(error) => {
                drop(events);
                drop(core);
                return Err(error);
            }
        }
    }
    Ok((events, core))
}

/// Does an act, and appends its events.
fn perform(act: &Act, core: &mut Core<SlabTable>, events: &mut Vec<Event>) -> Result<(), NoMemory>
    ensures { OnOk result (IsPerformed act.now core.old core.new events.old.items events.new.items) }
{
    match act {
        Act::Deliver(request) => deliver(request, core, events),
        Act::Work(k) => work(*k, core),
        Act::Send(k) => send(*k, core, events),
    }
}

/// Delivers a copy of the request. If it is taken, another copy is the event.
fn deliver(
    request: &Request,
    core: &mut Core<SlabTable>,
    events: &mut Vec<Event>,
) -> Result<(), NoMemory>
    ensures { OnOk result
        (IsPerformed (acts.Deliver request.now) core.old core.new events.old.items events.new.items) }
{
    let copy = copy_request(request)?;
    match core.deliver(copy) {
        Ok(()) => note(request, events),
        Err(returned) => refused(returned),
    }
}

/// Appends the event that the request was asked.
fn note(request: &Request, events: &mut Vec<Event>) -> Result<(), NoMemory>
    ensures { OnOk result (events.new.items ≡ events.old.items ++ Asked request.now ∷ []) }
{
    let copy = copy_request(request)?;
    events.push(Event::Asked(copy))?;
    Ok(())
}

/// A copy of a request.
fn copy_request(request: &Request) -> Result<Request, AllocError>
    ensures same { IfOk result (λ copy. copy ≡ request.now) }
    ensures value { OnOk result (IsValue request.now) }
{
    let ask = request.ask.clone()?;
    Ok(request_with(request.id, ask))
}

/// The request with this id.
fn request_with(id: u32, ask: Ask) -> Request
    ensures request { result ≡ record { id = id; ask = ask } }
    ensures fits { id < 2 ^ 32 }
{
    Request { id, ask }
}

/// Drops the request that the core did not take. That leaves no event.
///
/// # Errors
///
/// `NoMemory` if that is why it was not taken.
fn refused(returned: (Request, Refuse)) -> Result<(), NoMemory>
    ensures { OnOk result (returned.1 ≢ no_memory) }
{
    let (request, refuse) = returned;
    drop(request);
    match refuse {
        Refuse::Full => Ok(()),
        Refuse::IdInUse => Ok(()),
        Refuse::NoMemory => Err(NoMemory),
    }
}

/// Does the request at the position, if it is ready.
fn work(k: usize, core: &mut Core<SlabTable>) -> Result<(), NoMemory>
    ensures { OnOk result (IsAct Allowed server_clash core.old (acts.Work k) [] core.new) }
{
    core.work(k)?;
    Ok(())
}

/// Sends the reply at the position, if there is one, and appends the event.
fn send(k: usize, core: &mut Core<SlabTable>, events: &mut Vec<Event>) -> Result<(), NoMemory>
    ensures { OnOk result
        (IsPerformed (acts.Send k) core.old core.new events.old.items events.new.items) }
{
    match core.send(k) {
        Some(reply) => {
            events.push(Event::Replied(reply))?;
            Ok(())
        }
        None => Ok(()),
    }
}
