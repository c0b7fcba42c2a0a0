//! The calls that change a tree by paths, each as the request of its name is done, and a directory that moves with
//! 1,000 files. Also `raise`, and `canonical` of `sftp_path`.
use crate::audit::BLANK;
use crate::scripts::is_tree;
use crate::treefile::RAISED;
use crate::wire::attributes;
use sftp_path::{Name, NoMemory, absolute, canonical};
use sftp_tree::Tree;
use sftp_wire::Attrs;
use std::alloc::Global;
use std::collections::BTreeMap;
use std::test::Fail;

/// A call, by the request of its name. SETSTAT sets the size to 2.
#[derive(Clone, Copy)]
enum Call {
    Mkdir,
    Rmdir,
    Remove,
    Setstat,
    Rename,
    PosixRename,
    Hardlink,
    Symlink,
    Open,
}

/// Calls with their paths, one or two: in the end there are `/d`, the file `/d/f` and the link `/h` to it.
const CALLS: &[(Call, &[u8], &[u8])] = &[
    (Call::Mkdir, b"/d", b""),
    (Call::Mkdir, b"/d/e", b""),
    (Call::Rmdir, b"/d/e", b""),
    (Call::Open, b"/d/f", b""),
    (Call::Setstat, b"/d/f", b""),
    (Call::Hardlink, b"/d/f", b"/g"),
    (Call::Hardlink, b"/d/f", b"/h"),
    (Call::Rename, b"/g", b"/i"),
    (Call::Symlink, b"d/f", b"/l"),
    (Call::PosixRename, b"/l", b"/h"),
    (Call::Remove, b"/i", b""),
];

/// The tree file of that end.
const CHANGED: &[u8] = b"SFTREE01\0\0\0\x01/\0\0\0\0\0\0\0\0\0\0\0\x03\0\0\0\0\0\0\0\0\0\0\x01\xed\
\0\0\0\x02/dD\0\0\0\0\0\0\0\0\0\0\x01\xed\
\0\0\0\x04/d/fF\0\0\0\0\0\0\0\0\0\0\x01\xa4\0\0\0\x02\0\0\0\0\0\x02/hL\0\0\0\x03d/f";

/// CREAT and WRITE.
const MADE: u32 = 0x0a;

fn does(tree: &mut Tree, call: Call, path: &[u8], other: &[u8], attrs: &Attrs) -> bool {
    match call {
        Call::Mkdir => tree.mkdir(path, attrs).is_ok(),
        Call::Rmdir => tree.rmdir(path).is_ok(),
        Call::Remove => tree.remove(path).is_ok(),
        Call::Setstat => tree.set_stat(path, attrs).is_ok(),
        Call::Rename => tree.rename(path, other).is_ok(),
        Call::PosixRename => tree.posix_rename(path, other).is_ok(),
        Call::Hardlink => tree.hardlink(path, other).is_ok(),
        Call::Symlink => tree.symlink(path, other).is_ok(),
        Call::Open => tree.open_file(path, MADE, attrs).is_ok(),
    }
}

/// The number of the first call, from 0, that is not done.
fn first_refused(tree: &mut Tree, attrs: &Attrs) -> Option<usize> {
    for (number, (call, path, other)) in CALLS.iter().enumerate() {
        if !does(tree, *call, path, other, attrs) {
            return Some(number);
        }
    }
    None
}

#[test]
fn calls_on_paths(rt: HostRuntime) -> Result<(), Fail> {
    let mut tree = Tree::blank(rt.alloc())?;
    let attrs = attributes(Some(2));
    let refused = first_refused(&mut tree, &attrs);
    drop(attrs);
    let is_changed = is_tree(&tree, CHANGED);
    drop(tree);
    assert!(rt; refused.is_none() && is_changed, "{refused:?}");
    Ok(())
}

/// Whether the blank tree, raised, is written as the file of the highest limits.
fn raises(alloc: Global) -> bool {
    match Tree::blank(alloc) {
        Ok(tree) => {
            let raised = tree.raise();
            let is_raised = is_tree(&raised, RAISED);
            drop(raised);
            is_raised
        }
        Err(_) => false,
    }
}

/// Whether the names of a place have this text.
fn have_text(alloc: Global, names: &[Name], text: &[u8]) -> bool {
    match absolute(alloc, names) {
        Ok(again) => again.as_slice() == text,
        Err(_) => false,
    }
}

/// How many names lead to the place of a text; `None` if it is that of no place, or memory runs out.
fn depth_of(alloc: Global, text: &[u8]) -> Option<usize> {
    match canonical(alloc, text) {
        Ok(Some(names)) if have_text(alloc, names.as_slice(), text) => Some(names.len()),
        _ => None,
    }
}

#[test]
fn texts_and_limits(rt: HostRuntime) {
    let alloc = rt.alloc();
    let places = depth_of(alloc, b"/") == Some(0) && depth_of(alloc, b"/a/bc") == Some(2);
    let others = depth_of(alloc, b"/a/").is_some() || depth_of(alloc, b"a").is_some();
    assert!(rt; places && !others && raises(alloc));
}

/// A tree as a map: the letters of the kinds of its entries, directories and empty files, by the texts of their places.
type Entries = BTreeMap<Vec<u8>, u8>;

/// The last digit of a number.
fn digit(number: u32) -> u8 {
    b'0' + (number % 10) as u8
}

/// The place of the file of this number.
fn file_in_e(number: u32) -> [u8; 9] {
    let (a, b) = (digit(number / 1_000), digit(number / 100));
    let (c, d) = (digit(number / 10), digit(number));
    [b'/', b'd', b'/', b'e', b'/', a, b, c, d]
}

/// `/d`, `/d/e`, and in it the files `0000` to `0999`.
fn entries(alloc: Global) -> Result<Entries, NoMemory> {
    let mut entries = BTreeMap::new(alloc);
    entries.insert(Vec::from_slice(alloc, b"/d")?, b'D')?;
    entries.insert(Vec::from_slice(alloc, b"/d/e")?, b'D')?;
    for number in 0..1_000 {
        entries.insert(Vec::from_slice(alloc, &file_in_e(number))?, b'F')?;
    }
    Ok(entries)
}

/// The entries after `/d`, which all of them are in, is renamed to `/x`.
fn renamed(alloc: Global, entries: &Entries) -> Result<Entries, NoMemory> {
    let mut renamed = BTreeMap::new(alloc);
    for (text, kind) in entries.iter() {
        let mut new = Vec::from_slice(alloc, b"/x")?;
        new.extend_from_slice(text.as_slice().get(2..).unwrap_or(&[]))?;
        renamed.insert(new, *kind)?;
    }
    Ok(renamed)
}

/// Adds what the tree file has of an entry.
fn put(file: &mut Vec<u8>, text: &[u8], kind: u8) -> Result<(), NoMemory> {
    let length = (text.len() % 65_536) as u32;
    file.extend_from_slice(&length.to_be_bytes())?;
    file.extend_from_slice(text)?;
    let rest: &[u8] = match kind {
        b'D' => b"D\0\0\0\0\0\0\0\0\0\0\x01\xed",
        _ => b"F\0\0\0\0\0\0\0\0\0\0\x01\xa4\0\0\0\0",
    };
    file.extend_from_slice(rest)?;
    Ok(())
}

/// The tree file of 1,002 entries.
fn file_of(alloc: Global, entries: &Entries) -> Result<Vec<u8>, NoMemory> {
    let mut file = Vec::from_slice(alloc, BLANK.get(..21).unwrap_or(BLANK))?;
    file.extend_from_slice(b"\0\0\x03\xea\0\0\0\0\0\0\0\0\0\0\x01\xed")?;
    for (text, kind) in entries.iter() {
        put(&mut file, text.as_slice(), *kind)?;
    }
    Ok(file)
}

/// The tree files of the entries before and after `/d` is renamed.
fn files(alloc: Global) -> Result<(Vec<u8>, Vec<u8>), NoMemory> {
    let entries = entries(alloc)?;
    let renamed = renamed(alloc, &entries)?;
    Ok((file_of(alloc, &entries)?, file_of(alloc, &renamed)?))
}

/// Whether the tree of a file, after `/d` is renamed, is that of the other file, and has its last file there.
fn moves(alloc: Global, start: &[u8], end: &[u8]) -> bool {
    match Tree::read(alloc, start) {
        Ok(mut tree) => {
            let is_moved = tree.rename(b"/d", b"/x").is_ok();
            let shown = tree.stat(b"/x/e/0999", true).is_ok();
            let is_end = is_tree(&tree, end);
            drop(tree);
            is_moved && shown && is_end
        }
        Err(_) => false,
    }
}

/// The tree file is that of a map of places, in which each place below the directory moves by itself.
#[test]
fn a_directory_of_1000_files_moves(rt: HostRuntime) -> Result<(), Fail> {
    let (start, end) = files(rt.alloc())?;
    let moved = moves(rt.alloc(), start.as_slice(), end.as_slice());
    drop(start);
    drop(end);
    assert!(rt; moved);
    Ok(())
}
