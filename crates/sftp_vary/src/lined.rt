//! Replies to READDIR with long names as `ls -l` writes them, put in place of those that the replies have.
ghost use Rattle.std.specs.Prelude.{◌≡◌, ℕ, true, map};
ghost use Rattle.std.specs.List.{AllByRecursion};
ghost use Rattle.sftp_packets.specs.declared.packets.Packet.TheVariants.{Reply as reply_packet};
ghost use Rattle.sftp_packets.specs.Packets.{HasSpelling};
ghost use Rattle.sftp_packets.specs.Spelling.{FitsNameItem};
ghost use Rattle.sftp_bare.specs.Bare.{bare, bare_item};
ghost use Rattle.sftp_vary.specs.Lines.{listing, AreShort, IsLine, IsLined};

use crate::long_names::long_name;
use sftp_wire::{Answer, ByteString, NameItem, Names, Reply};
use std::alloc::Global;
use std::mem::replace;

/// The most names of a reply that gets lines, and the most bytes of each. The session's own replies have fewer.
const MOST_NAMES: usize = 256;

const MOST_BYTES: usize = 255;

/// The most bytes of a line. Those for such names have fewer.
const MOST_LINE: usize = 400;

/// A reply that gives names, with lines for their long names.
pub(crate) fn in_lines(alloc: Global, reply: Reply) -> Reply
    ensures same_id { result.id ≡ reply.id }
    ensures same { bare result.answer ≡ bare reply.answer }
    ensures spelled { HasSpelling (reply_packet reply) → HasSpelling (reply_packet result) }
{
    let id = reply.id;
    match reply.answer {
        Answer::Name(names) => Reply {
            id,
            answer: Answer::Name(with_lines(alloc, names)),
        },
        answer => Reply { id, answer },
    }
}

/// Names with lines, if they have room for them: then they have no extended pairs.
fn with_lines(alloc: Global, names: Names) -> Names
    ensures same { map bare_item result ≡ map bare_item names }
    ensures spelled { (id : ℕ) → HasSpelling (listing id names) → HasSpelling (listing id result) }
{
    if are_short(names.as_slice()) {
        let mut items = names.into_vec();
        put_lines(alloc, &mut items);
        Names::new(items)
    } else {
        names
    }
}

/// Whether a reply with lines for these names can be encoded.
fn are_short(items: &[NameItem]) -> bool
    ensures { result ≡ true → AreShort items.now }
{
    if items.len() > MOST_NAMES {
        return false;
    }
    for item in items {
        if item.filename.as_slice().len() > MOST_BYTES {
            return false;
        }
    }
    true
}

/// Gives each name its line.
fn put_lines(alloc: Global, items: &mut Vec<NameItem>)
    ensures same { map bare_item items.new.items ≡ map bare_item items.old.items }
    ensures lined { AllByRecursion FitsNameItem items.old.items → AllByRecursion IsLined items.new.items }
{
    for item in items.iter_mut() {
        put_line(alloc, item);
    }
}

/// Gives a name its line.
fn put_line(alloc: Global, item: &mut NameItem)
    ensures same { bare_item item.new ≡ bare_item item.old }
    ensures lined { FitsNameItem item.old → IsLined item.new }
{
    let line = line_for(alloc, item);
    drop(replace(&mut item.longname, line));
    drop(replace(&mut item.attrs.extended, None));
}

/// The line for a name; an empty one if memory runs out for it.
fn line_for(alloc: Global, item: &NameItem) -> ByteString
    ensures { IsLine result }
{
    match long_name(alloc, item.filename.as_slice(), &item.attrs) {
        Ok(line) => {
            if is_line(line.as_slice()) {
                line
            } else {
                drop(line);
                ByteString::new(Vec::new(alloc))
            }
        }
        Err(_) => ByteString::new(Vec::new(alloc)),
    }
}

fn is_line(line: &[u8]) -> bool
    ensures { result ≡ true → IsLine line.now }
{
    line.len() <= MOST_LINE
}
