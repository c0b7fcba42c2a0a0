//! Replies with times, which are put in place of those that they have.
ghost use Rattle.std.specs.Prelude.{◌≡◌, ℕ, true, map};
ghost use Rattle.std.specs.List.{AllByRecursion};
ghost use Rattle.sftp_packets.specs.declared.packets.Packet.TheVariants.{Reply as reply_packet};
ghost use Rattle.sftp_packets.specs.Packets.{HasSpelling};
ghost use Rattle.sftp_packets.specs.Spelling.{FitsNameItem};
ghost use Rattle.sftp_bare.specs.Bare.{bare, bare_attrs, bare_item};
ghost use Rattle.sftp_clock.specs.Timed.{shown, listing, untimed, is_plain, ArePlain, IsTimed};

use crate::times::Times;
use sftp_wire::{Answer, Attrs, NameItem, Names, Reply};
use std::slice;

/// The most names of a reply that get times, and the most bytes of each and of its long name. The session's own replies
/// have fewer.
pub(crate) const MOST_NAMES: usize = 256;

const MOST_BYTES: usize = 255;

const MOST_LONG: usize = 400;

/// Gives a reply that shows attributes times.
pub(crate) fn show_times(reply: &mut Reply, times: Times)
    ensures same_id { reply.new.id ≡ reply.old.id }
    ensures same { bare reply.new.answer ≡ bare reply.old.answer }
    ensures spelled { HasSpelling (reply_packet reply.old) → HasSpelling (reply_packet reply.new) }
{
    if let Answer::Attrs(attrs) = &mut reply.answer {
        put_in(attrs, times);
    }
}

/// A reply that gives names, with times: the first name has the first ones.
pub(crate) fn with_times_of_names(reply: Reply, times: &[Times]) -> Reply
    ensures same_id { result.id ≡ reply.id }
    ensures same { bare result.answer ≡ bare reply.answer }
    ensures spelled { HasSpelling (reply_packet reply) → HasSpelling (reply_packet result) }
{
    let id = reply.id;
    match reply.answer {
        Answer::Name(names) => Reply {
            id,
            answer: Answer::Name(with_name_times(names, times)),
        },
        answer => Reply { id, answer },
    }
}

/// Gives attributes times, if they have no extended pairs.
fn put_in(attrs: &mut Attrs, times: Times)
    ensures same { bare_attrs attrs.new ≡ bare_attrs attrs.old }
    ensures spelled { (id : ℕ) → HasSpelling (shown id attrs.old) → HasSpelling (shown id attrs.new) }
{
    if attrs.extended.is_none() {
        attrs.times = Some(times.pair());
    }
}

/// Names with times, if they have room for them.
pub(crate) fn with_name_times(names: Names, times: &[Times]) -> Names
    ensures same { map bare_item result ≡ map bare_item names }
    ensures spelled { (id : ℕ) → HasSpelling (listing id names) → HasSpelling (listing id result) }
{
    if are_plain(names.as_slice()) {
        let mut items = names.into_vec();
        put_times(&mut items, times);
        Names::new(items)
    } else {
        names
    }
}

/// Whether a reply with times for these names can be encoded.
fn are_plain(items: &[NameItem]) -> bool
    ensures { result ≡ true → ArePlain items.now }
{
    if items.len() > MOST_NAMES {
        return false;
    }
    for item in items {
        if !is_plain(item) {
            return false;
        }
    }
    true
}

/// Whether a name has room for times.
fn is_plain(item: &NameItem) -> bool
    ensures { result ≡ is_plain item.now }
{
    item.filename.as_slice().len() <= MOST_BYTES
        && item.longname.as_slice().len() <= MOST_LONG
        && item.attrs.extended.is_none()
}

/// Gives each name its times, as long as there are some.
fn put_times(items: &mut Vec<NameItem>, times: &[Times])
    ensures same { map untimed items.new.items ≡ map untimed items.old.items }
    ensures timed { AllByRecursion FitsNameItem items.old.items → AllByRecursion IsTimed items.new.items }
{
    let mut left = times.iter();
    for item in items.iter_mut() {
        put_next(item, &mut left);
    }
}

/// Gives a name the next times, if there are some.
fn put_next(item: &mut NameItem, left: &mut slice::Iter<'_, Times>)
    ensures same { untimed item.new ≡ untimed item.old }
    ensures timed { FitsNameItem item.old → IsTimed item.new }
{
    if let Some(times) = left.next() {
        item.attrs.times = Some(times.pair());
    }
}
