//! Which layout a line has, by the name in it.
ghost use Rattle.std.specs.Prelude.{◌≡◌, bytes_eq, drop, find, map};
ghost use Rattle.std.specs.Option.{option_map};
ghost use Rattle.sftp_packets.specs.Layouts.{shape};
ghost use Rattle.sftp_text.specs.Fields as texts;
ghost use Rattle.sftp_text.specs.Fields.{layout_of_text, name_in};

use crate::numbers::digit_of;
use sftp_wire::{Layout, Side, layouts_of};

/// What follows the first `count` bytes, if there are so many.
pub(crate) fn behind(count: usize, bytes: &[u8]) -> &[u8]
    ensures { result.now ≡ drop count bytes.now }
{
    match bytes.split_at_checked(count) {
        Some((_, rest)) => rest,
        None => &[],
    }
}

/// What follows the first space.
fn behind_space(text: &[u8]) -> &[u8]
    ensures { result.now ≡ texts.behind_space text.now }
{
    let mut left = text;
    'characters: while let Some((first, rest)) = left.split_first() {
        if *first == b' ' {
            return rest;
        }
        left = rest;
    }
    left
}

/// What comes before the first space, or before the end.
#[tactic(auto, using(crate::proofs::ListLaws::up_to_space_more, crate::proofs::ListLaws::up_to_space_end))]
fn up_to_space(text: &[u8]) -> &[u8]
    ensures { result.now ≡ texts.up_to_space text.now }
{
    'characters: for (i, character) in text.iter().enumerate() {
        if *character == b' ' {
            return &text[..i];
        }
    }
    text
}

/// A line after its side and a space, from the packet's name on: behind a number, if a digit comes first.
pub(crate) fn from_name(text: &[u8]) -> &[u8]
    ensures { texts.up_to_space result.now ≡ name_in text.now }
{
    match text.split_first() {
        Some((first, _)) => {
            if digit_of(10, *first).is_some() {
                behind_space(text)
            } else {
                text
            }
        }
        None => text,
    }
}

/// The name of the packet in a line after its side.
fn name_of(text: &[u8]) -> &[u8]
    ensures { result.now ≡ name_in (drop 1 text.now) }
{
    up_to_space(from_name(behind(1, text)))
}

/// The first of these layouts that has this name.
fn first_named(layouts: &[Layout], name: &[u8]) -> Option<Layout>
    ensures { option_map shape result ≡ find (λ s. bytes_eq s.name name.now) (map shape layouts.now) }
{
    let mut left = layouts;
    'layouts: while let Some((layout, rest)) = left.split_first() {
        if layout.name.as_bytes() == name {
            return Some(*layout);
        }
        left = rest;
    }
    None
}

/// The layout that a line names after its side.
#[tactic(auto, unfolding(crate::specs::Fields::layout_of_text))]
pub(crate) fn layout_named(side: Side, text: &[u8]) -> Option<Layout>
    ensures { option_map shape result ≡ layout_of_text side text.now }
{
    first_named(layouts_of(side), name_of(text))
}
