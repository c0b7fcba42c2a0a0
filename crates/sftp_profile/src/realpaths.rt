//! REALPATH as servers answer it that do not look at the tree (draft, section 6.11).
ghost use Rattle.std.specs.Prelude.{◌≡◌, [], false, IfOk};
ghost use Rattle.std.specs.Option.{option_map};
ghost use Rattle.std.specs.Iterator.{YieldsFirstRef};
ghost use Rattle.sftp_path.specs.Place.{components};
ghost use Rattle.sftp_handles.specs.Replies.{is_named, is_one_name};
ghost use Rattle.sftp_profile.specs.Realpaths as spec;

use crate::refusals::has_code_or;
use sftp_path::{Parts, Place, absolute, is_dot, is_dot_dot, is_name};
use sftp_tree::{NoMemory, Refused, Tree};
use sftp_wire::status::NO_SUCH_FILE;
use sftp_wire::{Answer, Ask, NameItem};
use std::alloc::Global;

/// Whether a REALPATH may be answered so by a server that does not look at the tree, or not at all of it. `frees` says
/// that codes are free.
///
/// # Errors
///
/// `NoMemory` if memory runs out.
pub(crate) fn passes_realpath(
    tree: &Tree,
    frees: bool,
    ask: &Ask,
    answer: &Answer,
) -> Result<bool, NoMemory>
    ensures { IfOk result (λ ok. ok ≡ spec.passes_realpath tree.now frees ask.now answer.now) }
{
    match ask {
        Ask::Realpath { path } => {
            if tree.causes(ask)?.has_any() {
                return Ok(has_one_name(answer));
            }
            is_resolved(tree, frees, path.as_slice(), answer)
        }
        _ => Ok(false),
    }
}

/// Whether a REALPATH that no cause refuses may be answered so.
///
/// # Errors
///
/// `NoMemory` if memory runs out.
fn is_resolved(tree: &Tree, frees: bool, path: &[u8], answer: &Answer) -> Result<bool, NoMemory>
    ensures { IfOk result (λ ok. ok ≡ spec.is_resolved tree.now frees path.now answer.now false) }
{
    if is_lexical(tree, path, answer)? {
        return Ok(true);
    }
    says_absent(tree, frees, path, answer)
}

/// Whether the answer is the path's text made absolute.
///
/// # Errors
///
/// `NoMemory` if memory runs out.
fn is_lexical(tree: &Tree, path: &[u8], answer: &Answer) -> Result<bool, NoMemory>
    ensures { IfOk result (λ ok. ok ≡ is_named (spec.lexical tree.now path.now) answer.now) }
{
    match answer {
        Answer::Name(names) => {
            let Some(text) = lexical(tree, path)? else {
                return Ok(false);
            };
            Ok(is_one_name(text.as_slice(), names.as_slice()))
        }
        _ => Ok(false),
    }
}

/// Whether there is one name, with these bytes.
fn is_one_name(text: &[u8], items: &[NameItem]) -> bool
    ensures { result ≡ is_one_name text.now items.now }
{
    match items {
        [item] => text == item.filename.as_slice(),
        _ => false,
    }
}

/// Whether the answer has one name.
fn has_one_name(answer: &Answer) -> bool
    ensures { result ≡ spec.has_one_name answer.now }
{
    match answer {
        Answer::Name(names) => names.as_slice().len() == 1,
        _ => false,
    }
}

/// Whether the answer says that there is nothing, and so it is.
///
/// # Errors
///
/// `NoMemory` if memory runs out.
fn says_absent(tree: &Tree, frees: bool, path: &[u8], answer: &Answer) -> Result<bool, NoMemory>
    ensures { IfOk result (λ ok. ok ≡ spec.says_absent tree.now frees path.now answer.now) }
{
    if !has_code_or(answer, NO_SUCH_FILE, frees) {
        return Ok(false);
    }
    match tree.stat(path, true) {
        Ok(_) => Ok(false),
        Err(Refused::Cause(_)) => Ok(true),
        Err(Refused::NoMemory) => Err(NoMemory),
    }
}

/// The path's text made absolute, without a look at where it leads.
///
/// # Errors
///
/// `NoMemory` if memory runs out.
fn lexical(tree: &Tree, path: &[u8]) -> Result<Option<Vec<u8>>, NoMemory>
    ensures { IfOk result
        (λ text. option_map (λ t. t.items) text ≡ spec.lexical tree.now path.now) }
{
    let Some(full) = full_path(tree, path)? else {
        return Ok(None);
    };
    let Some(place) = lexed(tree.allocator(), full.as_slice())? else {
        return Ok(None);
    };
    Ok(Some(absolute(tree.allocator(), place.names())?))
}

/// The path from the root: one that is not absolute comes behind the text of where the empty path leads.
///
/// # Errors
///
/// `NoMemory` if memory runs out.
fn full_path(tree: &Tree, path: &[u8]) -> Result<Option<Vec<u8>>, NoMemory>
    ensures { IfOk result
        (λ text. option_map (λ t. t.items) text ≡ spec.full_path tree.now path.now) }
{
    if matches!(path, [b'/', ..]) {
        return Ok(Some(Vec::from_slice(tree.allocator(), path)?));
    }
    let Some(home) = text_at(tree, b"")? else {
        return Ok(None);
    };
    let mut full = home;
    full.push(b'/')?;
    full.extend_from_slice(path)?;
    Ok(Some(full))
}

/// The text of the place that a path leads to; `None` if a cause refuses the REALPATH.
///
/// # Errors
///
/// `NoMemory` if memory runs out.
fn text_at(tree: &Tree, path: &[u8]) -> Result<Option<Vec<u8>>, NoMemory>
    ensures { IfOk result
        (λ text. option_map (λ t. t.items) text ≡ spec.text_at tree.now path.now) }
{
    match tree.real_path(path) {
        Ok(text) => Ok(Some(text)),
        Err(Refused::Cause(_)) => Ok(None),
        Err(Refused::NoMemory) => Err(NoMemory),
    }
}

/// The next component of a path.
fn next_part<'a>(parts: &mut Parts<'a>) -> Option<&'a [u8]>
    ensures { YieldsFirstRef (λ p. p.left) parts.old result parts.new }
{
    parts.next()
}

/// Where a path leads from the root if nothing is a link; `None` if a component is no name.
///
/// # Errors
///
/// `NoMemory` if memory runs out.
fn lexed(alloc: Global, path: &[u8]) -> Result<Option<Place>, NoMemory>
    ensures { IfOk result (λ place. place ≡ spec.lexed [] (components path.now)) }
{
    let mut place = Place::root(alloc);
    let mut parts = Parts::new(path);
    'parts: while let Some(component) = next_part(&mut parts) {
        if !enter(&mut place, component)? {
            return Ok(None);
        }
    }
    Ok(Some(place))
}

/// Goes from a place by a component: `.` stays, `..` goes up, and a name goes down. Returns whether it is one of these.
///
/// # Errors
///
/// `NoMemory` if memory runs out.
fn enter(place: &mut Place, component: &[u8]) -> Result<bool, NoMemory>
    ensures { IfOk result (λ ok. spec.IsEntered place.old component.now ok place.new) }
{
    if is_dot(component) {
        return Ok(true);
    }
    if is_dot_dot(component) {
        place.leave();
        return Ok(true);
    }
    if !is_name(component) {
        return Ok(false);
    }
    place.enter_component(component)?;
    Ok(true)
}
