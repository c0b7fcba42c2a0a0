//! A stream of packets that arrives in pieces (draft, section 3): each packet is taken out as soon as all of its bytes
//! have come.
ghost use Rattle.std.specs.Prelude.{◌≡◌, ◌⊎◌, ◌+◌, ◌-◌, ◌*◌, ◌<◌, ◌≤◌, List, ℕ, ◌++◌, length, drop, option_copied};
ghost use Rattle.std.specs.Prelude.{Option, Some, None, Result, Ok, Err, IfOk, IfErr, IfSome, IfNone};
ghost use Rattle.std.specs.Vec.{vec_len, vec_capacity};
ghost use Rattle.sftp_packets.specs.declared.errors.Fault.{Fault};
ghost use Rattle.sftp_packets.specs.declared.packets.Packet.{Packet};
ghost use Rattle.sftp_packets.specs.declared.packets.Side.{Side};
ghost use Rattle.sftp_packets.specs.Spelling.{packet_limit};
ghost use Rattle.sftp_packets.specs.Packets.{HasSpelling, side_of, spelling};
ghost use Rattle.sftp_wire.specs.Fronts.{Frames, Step, IsStep, AreSteps, no_frames, place_after, room_of, told_of};
ghost use Rattle.sftp_wire.specs.Fronts.{all_in, all_out, whole_of, lent_of};

use crate::fronts::front;
use sftp_packets::{Fault, PACKET_LIMIT, Packet, Side, WireError, take_number};
use std::alloc::Global;
use std::marker::Model;

/// All the memory that a buffer takes: twice the longest packet.
const CAPACITY: usize = 2 * PACKET_LIMIT;

/// The buffer of a stream of packets that arrives in pieces: the bytes not yet taken out, the place in the stream of
/// the first of them, and the fault that was reported, if any.
///
/// It holds at most `PACKET_LIMIT` bytes. A place is at most 2^64 - 1, and then stays the same.
#[derive(Debug, Drop)]
pub struct FrameBuf {
    bytes: Vec<u8>,
    start: usize,
    place: u64,
    fault: Option<Fault>,
}

impl Model for FrameBuf {
    ghost use Rattle.std.specs.Prelude.{◌+◌, ◌≤◌, ◌*◌, drop};
    ghost use Rattle.std.specs.Vec.{vec_len, vec_capacity};
    ghost use Rattle.sftp_packets.specs.Spelling.{packet_limit};
    ghost use Rattle.sftp_wire.specs.Fronts.{Frames};

    ghost Value = { Frames };

    ghost view = { λ b. record { held = drop b.start b.bytes.items; place = b.place; fault = b.fault } };

    ghost invariant = { λ b. (b.start ≤ vec_len b.bytes) × (vec_len b.bytes ≤ b.start + packet_limit)
        × (2 * packet_limit ≤ vec_capacity b.bytes) };
}

/// Removes the first `count` bytes, and moves the others to the front.
fn remove_front(store: &mut Vec<u8>, count: usize)
    requires { count ≤ vec_len store.old }
    ensures items { store.new.items ≡ drop count store.old.items }
    ensures len { vec_len store.new ≡ vec_len store.old - count }
    ensures capacity { vec_capacity store.new ≡ vec_capacity store.old }
{
    let len = store.len();
    store.as_mut_slice().copy_within(count..len, 0);
    store.truncate(len - count);
}

/// Appends to the bytes from `start` on, without taking memory, and returns where they start then. They move only where
/// the room after them is too short, and so more than half of the capacity is free before them: each byte moves at
/// most once.
fn append(store: &mut Vec<u8>, start: usize, more: &[u8]) -> usize
    requires starts_within { start ≤ vec_len store.old }
    requires has_room { vec_len store.old + length more.now ≤ start + packet_limit }
    requires has_capacity { 2 * packet_limit ≤ vec_capacity store.old }
    ensures held { drop result store.new.items ≡ drop start store.old.items ++ more.now }
    ensures starts_within { result ≤ vec_len store.new }
    ensures len { vec_len store.new + start ≡ result + (vec_len store.old + length more.now) }
    ensures capacity { 2 * packet_limit ≤ vec_capacity store.new }
{
    let mut first = start;
    if store.len() + more.len() > CAPACITY {
        remove_front(store, start);
        first = 0;
    }
    let Ok(()) = store.extend_from_slice(more) else {
        unreachable!()
    };
    first
}

/// The packet in front, length field and all, once it is complete; `None` also if its length is out of range.
#[tactic(auto, unfolding(crate::specs::Fronts::whole_of))]
fn whole(bytes: &[u8]) -> Option<&[u8]>
    ensures { option_copied result ≡ whole_of bytes.now }
{
    let (size, _) = take_number(bytes)?;
    let size = size as usize;
    let taken = size + 4;
    if size == 0 || taken > PACKET_LIMIT || bytes.len() < taken {
        return None;
    }
    Some(&bytes[..taken])
}

impl FrameBuf {
    /// An empty buffer at place 0. It takes all the memory that it will ever use for bytes.
    ///
    /// # Errors
    ///
    /// `NoMemory` if memory runs out.
    pub fn new(alloc: Global) -> Result<FrameBuf, WireError>
        ensures empty { IfOk result (λ frames. frames ≡ no_frames) }
        ensures err { IfErr result (λ error. error ≡ WireError.NoMemory) }
    {
        Ok(FrameBuf {
            bytes: Vec::with_capacity(alloc, CAPACITY)?,
            start: 0,
            place: 0,
            fault: None,
        })
    }

    /// The bytes held.
    fn held(&self) -> &[u8]
        ensures { result.now ≡ self.now.held }
    {
        &self.bytes[self.start..]
    }

    /// How many more bytes `push` takes: `PACKET_LIMIT` less those held, and 0 once a fault was reported.
    pub fn room(&self) -> usize
        ensures exact { result ≡ room_of self.now }
        // No more bytes are held than a packet may have.
        ensures within { length self.now.held ≤ packet_limit }
    {
        if self.fault.is_some() {
            return 0;
        }
        PACKET_LIMIT - (self.bytes.len() - self.start)
    }

    /// The place in the stream of the first byte held: how many bytes were taken out, at most 2^64 - 1.
    pub fn place(&self) -> u64
        ensures { result ≡ self.now.place }
    {
        self.place
    }

    /// Takes as many of the bytes as there is room for, and returns how many. Does not allocate.
    pub fn push(&mut self, bytes: &[u8]) -> usize
        ensures exact { IsStep self.old (Step.Push bytes.now result) self.new }
        // No more bytes are held than a packet may have.
        ensures within { length self.new.held ≤ packet_limit }
    {
        let taken = self.room().min(bytes.len());
        self.start = append(&mut self.bytes, self.start, &bytes[..taken]);
        taken
    }

    /// The bytes of the packet in front, its length field included, without a copy. `None` where its length is out of
    /// range or not all of them have come, and once a fault was reported.
    pub fn lent(&self) -> Option<&[u8]>
        ensures { option_copied result ≡ lent_of self.now }
    {
        if self.fault.is_some() {
            return None;
        }
        whole(self.held())
    }

    /// Takes out the packet in front, of that side. `None` where not all of its bytes have come.
    ///
    /// # Errors
    ///
    /// `Unreadable` with the first fault from the left and the place in the stream of its packet's first byte. A fault
    /// is permanent: each later call returns it again. `NoMemory` if memory runs out; then nothing changes. Never
    /// `TooLong`.
    pub fn next(&mut self, side: Side) -> Result<Option<Packet>, WireError>
        ensures exact { IsStep self.old (Step.Next side result) self.new }
        // Where it returns `None` there is room for more bytes.
        ensures room { IfOk result (λ given. IfNone given (0 < room_of self.new)) }
        // A packet that it returns is spelled in front, and exactly its bytes are taken out.
        ensures found { IfOk result (λ given. IfSome given (λ packet.
            HasSpelling packet × (side_of packet ≡ side) × (self.old.held ≡ spelling packet ++ self.new.held)
            × (self.new.place ≡ place_after self.old.place (length (spelling packet))))) }
        // Unless a fault was reported, it returns the packet that is spelled in front, or memory runs out.
        ensures only { (packet : Packet) (rest : List ℕ) → self.old.fault ≡ None → HasSpelling packet
            → side_of packet ≡ side → self.old.held ≡ spelling packet ++ rest
            → ((result ≡ Ok (Some packet)) × (self.new.held ≡ rest)) ⊎ (result ≡ Err WireError.NoMemory) }
    {
        if let Some(fault) = self.fault {
            return Err(WireError::Unreadable {
                fault,
                place: self.place,
            });
        }
        let alloc = *self.bytes.allocator();
        match front(alloc, self.held(), side) {
            Ok(None) => Ok(None),
            Ok(Some((packet, taken))) => {
                self.start += taken;
                self.place = self.place.saturating_add(taken as u64);
                Ok(Some(packet))
            }
            Err(WireError::Unreadable { fault, .. }) => {
                self.fault = Some(fault);
                Err(WireError::Unreadable {
                    fault,
                    place: self.place,
                })
            }
            Err(error) => Err(error),
        }
    }
}

/// The law of streams: after any calls on an empty buffer, the encodings of the packets that it returned, and then the
/// bytes that it holds, are the bytes that it took, in their order.
#[tactic(auto, using(crate::proofs::StreamLaws::buffer_laws))]
pub fn streams()
    // The packets returned and the bytes held are the bytes taken.
    ensures kept { (steps : List (Step × Frames)) (t : Frames) → AreSteps no_frames steps t
        → all_out steps ++ t.held ≡ all_in steps }
    // `next` returns `None` only where there is neither a whole packet nor a fault in front.
    ensures nothing { (side : Side) (s t : Frames) → IsStep s (Step.Next side (Ok None)) t → told_of side s ≡ Ok None }
    // There it returns `None`, or memory runs out.
    ensures waits { (side : Side) (s t : Frames) (given : Result (Option Packet) WireError)
        → IsStep s (Step.Next side given) t → told_of side s ≡ Ok None
        → (given ≡ Ok None) ⊎ (given ≡ Err WireError.NoMemory) }
    // A fault is permanent: `next` returns it again, and nothing changes.
    ensures fault_stands { (side : Side) (s t : Frames) (fault : Fault) (given : Result (Option Packet) WireError)
        → s.fault ≡ Some fault → IsStep s (Step.Next side given) t
        → (given ≡ Err (WireError.Unreadable fault s.place)) × (t ≡ s) }
    // After a fault `push` takes nothing.
    ensures fault_takes_none { (s t : Frames) (fault : Fault) (bytes : List ℕ) (taken : ℕ) → s.fault ≡ Some fault
        → IsStep s (Step.Push bytes taken) t
        → (taken ≡ 0) × (t ≡ s) }
    // `lent` returns the encoding of a packet in front.
    ensures lent { (packet : Packet) (rest : List ℕ) → HasSpelling packet
        → whole_of (spelling packet ++ rest) ≡ Some (spelling packet) }
{}
