//! From the entries of a tree file to directories and files.
ghost use Rattle.std.specs.Prelude.{◌≡◌, ◌+◌, ◌≤◌, ◌<◌, ◌^◌, ◌++◌, [], ◌∷◌, length, take, IfOk, IsTrue};
ghost use Rattle.std.specs.Iterator.{YieldsFirstRef};
ghost use Rattle.sftp_path.specs.Place.{is_name};
ghost use Rattle.sftp_treefile.specs.TreeFile.{most_limits, contents_length};
ghost use Rattle.sftp_treefile.specs.TreeFile.{place_of, IsPlaceText, IsOwner, AreRows};
ghost use Rattle.sftp_tree.specs.PictureParts as parts;

use super::reading::node_of;
use crate::entries::directories::Dir;
use crate::entries::growing::Growth;
use crate::file_numbers::FileNo;
use crate::files::Files;
use sftp_path::{Name, NoMemory, Parts};
use sftp_treefile::{Owner, Row};
use std::alloc::Global;

/// The next of the names that are left of a place's text.
fn next_name<'a>(parts: &mut Parts<'a>) -> Option<&'a [u8]>
    ensures { YieldsFirstRef (λ p. p.left) parts.old result parts.new }
{
    parts.next()
}

/// How many names a place's text has before the last one, and the last one. The place is not the root.
fn last_name(text: &[u8]) -> (usize, &[u8])
    requires text { IsPlaceText text.now }
    requires below_root { 0 < length (place_of text.now) }
    ensures whole { take result.0 (place_of text.now) ++ result.1.now ∷ [] ≡ place_of text.now }
    ensures depth { result.0 + 1 ≡ length (place_of text.now) }
    ensures name { IsTrue (is_name result.1.now) }
{
    let mut parts = Parts::new(text);
    let Some(mut last) = next_name(&mut parts) else {
        unreachable!()
    };
    let mut above = 0;
    'names: while let Some(name) = next_name(&mut parts) {
        last = name;
        above += 1;
    }
    (above, last)
}

/// The directories of a tree, and its files.
#[derive(Drop)]
pub(super) struct Grown {
    pub(super) root: Dir,
    pub(super) files: Files,
}

/// The directories of a tree, and its files: the root, and what the entries of a tree file say. Each entry is put
/// after the one before it.
// Slow to prove: it owns all that grows, and drops it at each of five exits.
pub(super) fn grow(alloc: Global, root: Owner, rows: Vec<Row>) -> Result<Grown, NoMemory>
    requires root { IsOwner root }
    requires rows { AreRows most_limits [] rows.items }
    requires count { length rows.items ≤ most_limits.entries }
    requires total { contents_length rows.items < 2 ^ 63 }
    ensures { IfOk result (λ g. parts.IsGrown root rows.items g.root g.files) }
{
    let mut growth = Growth::new(alloc, root);
    let mut files = Files::new(alloc);
    let mut numbers = Vec::new(alloc);
    for row in rows {
        let (depth, component) = last_name(row.path.as_slice());
        let name = Name::from_component(alloc, component)?;
        let made = files.len() as u32;
        let next = FileNo::new(made);
        let node = node_of(&mut files, &numbers, next, row.kind)?;
        numbers.push(next)?;
        growth.put(depth, name, node)?;
    }
    let root = growth.finish()?;
    Ok(Grown { root, files })
}
