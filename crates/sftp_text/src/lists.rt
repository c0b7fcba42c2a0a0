//! Pairs, and names of a directory (draft, sections 4, 5 and 7). A loop over items goes round at most as often as its
//! list has items, or as there are bytes left, since each item takes some.
ghost use Rattle.std.specs.Prelude.{◌≡◌, [], ◌∷◌, codes, length, option_and_then};
ghost use Rattle.sftp_text.specs.Formats.{Format, begins_with, show_list, show_each, read_each};
ghost use Rattle.sftp_text.specs.Formats.{◌then◌, word, ahead, listed, front_uint32};
ghost use Rattle.sftp_text.specs.Formats as formats;
ghost use Rattle.sftp_text.specs.Fields.{pair, pairs, name_item, message, two_texts};
ghost use Rattle.sftp_text.specs.Trees.{Moves, Counts};

use crate::attributes::{put_attributes, read_attributes};
use crate::errors::{Expected, Stop};
use crate::quoted::{append_counted, put_string, read_string};
use crate::words::{read_label, read_word};
use bytes::Buf;

/// What a list has: pairs, or names of a directory.
pub(crate) trait Item {
    ghost form: { Format };

    fn put(bytes: &mut &[u8], text: &mut Vec<u8>) -> Result<(), Stop>
        ensures { Moves result text.new.items bytes.new.now (form.show text.old.items bytes.old.now) };

    fn read(line: &mut &[u8], bytes: &mut Vec<u8>) -> Result<(), Stop>
        ensures { Moves result bytes.new.items line.new.now (form.read bytes.old.items line.old.now) };
}

/// A name and its data with `=` between.
pub(crate) struct Pair;

impl Item for Pair {
    ghost form = { pair };

    #[tactic(auto, unfolding(crate::specs::Fields::pair))]
    fn put(bytes: &mut &[u8], text: &mut Vec<u8>) -> Result<(), Stop> {
        put_string(bytes, text)?;
        text.push(b'=')?;
        put_string(bytes, text)
    }

    #[tactic(auto, unfolding(crate::specs::Fields::pair))]
    fn read(line: &mut &[u8], bytes: &mut Vec<u8>) -> Result<(), Stop> {
        read_string(line, bytes)?;
        read_word(b"=", Expected::Equals, line)?;
        read_string(line, bytes)
    }
}

/// A name of a directory: two texts and attributes, each after a space.
pub(crate) struct Name;

impl Item for Name {
    ghost form = { name_item };

    #[tactic(auto, unfolding(crate::specs::Fields::name_item))]
    fn put(bytes: &mut &[u8], text: &mut Vec<u8>) -> Result<(), Stop> {
        put_two_texts(bytes, text)?;
        put_attributes(bytes, text)
    }

    #[tactic(auto, unfolding(crate::specs::Fields::name_item))]
    fn read(line: &mut &[u8], bytes: &mut Vec<u8>) -> Result<(), Stop> {
        read_two_texts(line, bytes)?;
        read_attributes(line, bytes)
    }
}

/// Shows a space and a pair.
fn put_spaced_pair(bytes: &mut &[u8], text: &mut Vec<u8>) -> Result<(), Stop>
    ensures { Moves result text.new.items bytes.new.now
        ((word (codes " ") then pair).show text.old.items bytes.old.now) }
{
    text.push(b' ')?;
    Pair::put(bytes, text)
}

/// Reads a space and a pair.
fn read_spaced_pair(line: &mut &[u8], bytes: &mut Vec<u8>) -> Result<(), Stop>
    ensures { Moves result bytes.new.items line.new.now
        ((word (codes " ") then pair).read bytes.old.items line.old.now) }
{
    read_word(b" ", Expected::Space, line)?;
    Pair::read(line, bytes)
}

/// Shows pairs up to the end of the bytes, each after a space.
#[tactic(auto, using(crate::proofs::ListLaws::repeat_steps), unfolding(crate::specs::Fields::pairs))]
pub(crate) fn put_pairs(bytes: &mut &[u8], text: &mut Vec<u8>) -> Result<(), Stop>
    ensures { Moves result text.new.items bytes.new.now (pairs.show text.old.items bytes.old.now) }
{
    let mut most = bytes.len();
    'pairs: while most > 0 {
        if bytes.is_empty() {
            return Ok(());
        }
        put_spaced_pair(bytes, text)?;
        most -= 1;
    }
    Ok(())
}

/// Reads pairs up to the end of a line, each after a space.
#[tactic(auto, using(crate::proofs::ListLaws::repeat_steps), unfolding(crate::specs::Fields::pairs))]
pub(crate) fn read_pairs(line: &mut &[u8], bytes: &mut Vec<u8>) -> Result<(), Stop>
    ensures { Moves result bytes.new.items line.new.now (pairs.read bytes.old.items line.old.now) }
{
    let mut most = line.len();
    'pairs: while most > 0 {
        if line.is_empty() {
            return Ok(());
        }
        read_spaced_pair(line, bytes)?;
        most -= 1;
    }
    Ok(())
}

/// Shows `count` items, each after a separator.
#[tactic(auto, using(crate::proofs::ListLaws::show_each_goes_on, crate::proofs::ListLaws::show_each_fails))]
fn put_more<I: Item>(
    separator: u8,
    count: u32,
    bytes: &mut &[u8],
    text: &mut Vec<u8>,
) -> Result<(), Stop>
    ensures { Moves result text.new.items bytes.new.now
        (show_each I.form (separator ∷ []) count text.old.items bytes.old.now) }
{
    let mut left = count;
    'items: while left > 0 {
        text.push(separator)?;
        I::put(bytes, text)?;
        left -= 1;
    }
    Ok(())
}

/// Shows `count` items with a separator between.
#[tactic(auto, using(crate::proofs::ListLaws::show_list_goes_on, crate::proofs::ListLaws::show_list_fails))]
fn put_list<I: Item>(
    separator: u8,
    count: u32,
    bytes: &mut &[u8],
    text: &mut Vec<u8>,
) -> Result<(), Stop>
    ensures { Moves result text.new.items bytes.new.now
        (show_list I.form (separator ∷ []) count text.old.items bytes.old.now) }
{
    if count == 0 {
        return Ok(());
    }
    I::put(bytes, text)?;
    put_more::<I>(separator, count - 1, bytes, text)
}

/// Shows items after their count, with a separator between.
pub(crate) fn put_counted<I: Item>(
    separator: u8,
    bytes: &mut &[u8],
    text: &mut Vec<u8>,
) -> Result<(), Stop>
    ensures { Moves result text.new.items bytes.new.now (option_and_then
        (λ front. show_list I.form (separator ∷ []) front.0 text.old.items front.1) (front_uint32 bytes.old.now)) }
{
    let count = bytes.try_get_u32()?;
    put_list::<I>(separator, count, bytes, text)
}

/// Whether a line begins with a character.
fn begins(first: u8, line: &[u8]) -> bool
    ensures { result ≡ begins_with first line.now }
{
    match line.split_first() {
        Some((character, _)) => *character == first,
        None => false,
    }
}

/// Reads items, each after a separator, up to where none follows. Returns how many there are and one more.
#[tactic(auto, using(crate::proofs::ListLaws::each_steps))]
fn read_more<I: Item>(separator: u8, line: &mut &[u8], bytes: &mut Vec<u8>) -> Result<usize, Stop>
    ensures { Counts result bytes.new.items line.new.now
        (read_each I.form (separator ∷ []) (length line.old.now) 1 bytes.old.items line.old.now) }
{
    let mut most = line.len();
    let mut count: usize = 1;
    'items: while most > 0 {
        if !read_label(&[separator], line) {
            return Ok(count);
        }
        I::read(line, bytes)?;
        count += 1;
        most -= 1;
    }
    Ok(count)
}

/// Reads items with a separator between into nothing, and returns how many there are. `first` begins each item.
fn read_list<I: Item>(
    first: u8,
    separator: u8,
    line: &mut &[u8],
    bytes: &mut Vec<u8>,
) -> Result<usize, Stop>
    requires { bytes.old.items ≡ [] }
    ensures { Counts result bytes.new.items line.new.now
        (formats.read_list I.form first (separator ∷ []) line.old.now) }
{
    if !begins(first, line) {
        return Ok(0);
    }
    I::read(line, bytes)?;
    read_more::<I>(separator, line, bytes)
}

/// Reads items with a separator between as their count and the items. `first` begins each item.
pub(crate) fn read_counted<I: Item>(
    first: u8,
    separator: u8,
    line: &mut &[u8],
    bytes: &mut Vec<u8>,
) -> Result<(), Stop>
    ensures { Moves result bytes.new.items line.new.now
        ((ahead (listed I.form first (separator ∷ []))).read bytes.old.items line.old.now) }
{
    let mut items = Vec::new(*bytes.allocator());
    let count = read_list::<I>(first, separator, line, &mut items)?;
    append_counted(count, items.as_slice(), bytes)
}

/// Shows two texts, each after a space.
fn put_two_texts(bytes: &mut &[u8], text: &mut Vec<u8>) -> Result<(), Stop>
    ensures { Moves result text.new.items bytes.new.now (two_texts.show text.old.items bytes.old.now) }
{
    text.push(b' ')?;
    put_string(bytes, text)?;
    text.push(b' ')?;
    put_string(bytes, text)
}

/// Reads two texts, each after a space.
fn read_two_texts(line: &mut &[u8], bytes: &mut Vec<u8>) -> Result<(), Stop>
    ensures { Moves result bytes.new.items line.new.now (two_texts.read bytes.old.items line.old.now) }
{
    read_word(b" ", Expected::Space, line)?;
    read_string(line, bytes)?;
    read_word(b" ", Expected::Space, line)?;
    read_string(line, bytes)
}

/// Shows a message and its language, each after a space, or nothing where both are empty.
#[tactic(auto, unfolding(crate::specs::Fields::message))]
pub(crate) fn put_message(bytes: &mut &[u8], text: &mut Vec<u8>) -> Result<(), Stop>
    ensures { Moves result text.new.items bytes.new.now (message.show text.old.items bytes.old.now) }
{
    if read_label(&[0, 0, 0, 0, 0, 0, 0, 0], bytes) {
        return Ok(());
    }
    put_two_texts(bytes, text)
}

/// Reads a message and its language, each after a space, or two empty strings where the line ends.
#[tactic(auto, unfolding(crate::specs::Fields::message))]
pub(crate) fn read_message(line: &mut &[u8], bytes: &mut Vec<u8>) -> Result<(), Stop>
    ensures { Moves result bytes.new.items line.new.now (message.read bytes.old.items line.old.now) }
{
    if line.is_empty() {
        bytes.extend_from_slice(&[0, 0, 0, 0, 0, 0, 0, 0])?;
        return Ok(());
    }
    read_two_texts(line, bytes)
}
