//! Items in rising order of their names, and of each a mark that says whether its name is struck out.
ghost use Rattle.std.specs.Prelude.{◌≡◌, ◌<◌, ◌≤◌, ◌+◌, ◌++◌, [], true, false, length, map, cond, slice_set};
ghost use Rattle.std.specs.Prelude.{IfOk, IfErr, IfNone, OnOk, OnErr, option_copied, slice_index_or};
ghost use Rattle.std.specs.List.{insert};
ghost use Rattle.std.specs.Option.{option_map, option_to_list};
ghost use Rattle.sftp_path.specs.Place.{name_cmp};
ghost use Rattle.sftp_path.specs.Table.{InOrder, put};
ghost use Rattle.sftp_tree.specs.Items.{entry_of};
ghost use Rattle.sftp_listing.specs.Marked.{unmarked, unmarked_at, is_struck_first, with_attrs_at, ArePaired};
ghost use Rattle.sftp_listing.specs.Marked.{IsNamed, IsGap};

use sftp_packets::Attrs;
use sftp_path::{Name, NoMemory};
use sftp_tree::Item;
use std::collections::VecDeque;
use std::mem::replace;

/// Where the item with a name is. Does not allocate.
///
/// # Errors
///
/// Where an item with the name would have to be put, if there is none.
pub(crate) fn place_of(items: &VecDeque<Item>, name: &Name) -> Result<usize, usize>
    requires { InOrder name_cmp (map entry_of items.now.items) }
    ensures named { IfOk result (IsNamed items.now.items name.now) }
    ensures gap { IfErr result (IsGap items.now.items name.now) }
{
    items.binary_search_by(|item| item.name.cmp(name))
}

/// The item at a place, if it has no mark. Does not allocate.
pub(crate) fn item_at<'a>(
    items: &'a VecDeque<Item>,
    marks: &VecDeque<bool>,
    place: usize,
) -> Option<&'a Item>
    requires { length marks.now.items ≡ length items.now.items }
    ensures { option_map entry_of (option_copied result) ≡ unmarked_at items.now.items marks.now.items place }
{
    match marks.get(place) {
        Some(struck) => { if *struck { None } else { items.get(place) } }
        None => None,
    }
}

/// Sets the mark at a place, and returns the one before. Does not allocate.
pub(crate) fn set_mark(marks: &mut VecDeque<bool>, place: usize, struck: bool) -> bool
    requires { place < length marks.old.items }
    ensures set { marks.new.items ≡ slice_set marks.old.items place struck }
    ensures before { result ≡ slice_index_or marks.old.items place result }
{
    match marks.get_mut(place) {
        Some(mark) => replace(mark, struck),
        None => unreachable!(),
    }
}

/// Puts a name with its attributes among the items, without a mark. Returns whether it is one more without a mark.
///
/// # Errors
///
/// `NoMemory` if memory runs out; the items and the marks are unchanged.
pub(crate) fn put_item(
    items: &mut VecDeque<Item>,
    marks: &mut VecDeque<bool>,
    name: Name,
    attrs: Attrs,
) -> Result<bool, NoMemory>
    requires { ArePaired items.old.items marks.old.items }
    ensures paired { OnOk result (ArePaired items.new.items marks.new.items) }
    ensures added { OnOk result (unmarked items.new.items marks.new.items
        ≡ put name_cmp (unmarked items.old.items marks.old.items) name attrs) }
    ensures more { IfOk result (λ more. length (unmarked items.new.items marks.new.items)
        ≡ cond more 1 0 + length (unmarked items.old.items marks.old.items)) }
    ensures items { OnErr result (items.new.items ≡ items.old.items) }
    ensures marks { OnErr result (marks.new.items ≡ marks.old.items) }
{
    match place_of(items, &name) {
        Ok(place) => {
            set_attrs(items, place, attrs);
            Ok(set_mark(marks, place, false))
        }
        Err(place) => {
            insert_item(items, marks, place, Item { name, attrs })?;
            Ok(true)
        }
    }
}

/// Sets the attributes of the item at a place. Does not allocate.
fn set_attrs(items: &mut VecDeque<Item>, place: usize, attrs: Attrs)
    requires { place < length items.old.items }
    ensures { items.new.items ≡ with_attrs_at items.old.items place attrs }
{
    if let Some(item) = items.get_mut(place) {
        item.attrs = attrs;
    }
}

/// Inserts an item at a place, without a mark.
///
/// # Errors
///
/// `NoMemory` if memory runs out; the items and the marks are unchanged.
fn insert_item(
    items: &mut VecDeque<Item>,
    marks: &mut VecDeque<bool>,
    place: usize,
    item: Item,
) -> Result<(), NoMemory>
    requires place { place ≤ length items.old.items }
    requires same { length marks.old.items ≡ length items.old.items }
    ensures items { OnOk result (items.new.items ≡ insert items.old.items place item) }
    ensures marks { OnOk result (marks.new.items ≡ insert marks.old.items place false) }
    ensures items_kept { OnErr result (items.new.items ≡ items.old.items) }
    ensures marks_kept { OnErr result (marks.new.items ≡ marks.old.items) }
{
    marks.reserve(1)?;
    items.insert(place, item)?;
    match marks.insert(place, false) {
        Ok(()) => Ok(()),
        Err(_) => unreachable!(),
    }
}

/// Takes the first item without a mark, and drops those before it. Does not allocate.
pub(crate) fn take_unmarked(items: &mut VecDeque<Item>, marks: &mut VecDeque<bool>) -> Option<Item>
    requires { ArePaired items.old.items marks.old.items }
    ensures paired { ArePaired items.new.items marks.new.items }
    ensures taken { unmarked items.old.items marks.old.items
        ≡ option_to_list (option_map entry_of result) ++ unmarked items.new.items marks.new.items }
    ensures none { IfNone result (unmarked items.new.items marks.new.items ≡ []) }
{
    drop_struck(items, marks);
    let _mark = marks.pop_front();
    items.pop_front()
}

/// Drops the items with a mark up to the first one without. Does not allocate.
fn drop_struck(items: &mut VecDeque<Item>, marks: &mut VecDeque<bool>)
    requires { ArePaired items.old.items marks.old.items }
    ensures paired { ArePaired items.new.items marks.new.items }
    ensures left { unmarked items.new.items marks.new.items ≡ unmarked items.old.items marks.old.items }
    ensures first { is_struck_first marks.new.items ≡ false }
{
    'struck: while is_struck_first(marks) {
        drop(items.pop_front());
        marks.pop_front();
    }
}

/// Whether the first item has a mark.
fn is_struck_first(marks: &VecDeque<bool>) -> bool
    ensures { result ≡ is_struck_first marks.now.items }
{
    match marks.front() {
        Some(struck) => *struck,
        None => false,
    }
}
