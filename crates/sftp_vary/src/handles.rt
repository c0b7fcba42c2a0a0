//! Names of new handles.
ghost use Rattle.std.specs.Prelude.{◌≡◌};

use crate::dice::Dice;
use crate::texts::any_bytes;
use sftp_tree::NoMemory;
use std::alloc::Global;

/// A name for a new handle: mostly of 1 to 256 bytes, at times empty, at times one of few, so that the name of a closed
/// handle comes again.
pub(crate) fn any_handle(dice: &mut Dice, alloc: Global) -> Result<Vec<u8>, NoMemory> {
    match dice.below(8) {
        0 => Ok(Vec::new(alloc)),
        1 => small(dice, alloc),
        2 => any_bytes(dice, 256, alloc),
        3 => any_bytes(dice, 4, alloc),
        4 => long_alike(dice, alloc),
        5 => text(dice, alloc),
        _ => {
            let count = dice.below(64) + 8;
            any_bytes(dice, count, alloc)
        }
    }
}

/// One of four names of one byte.
fn small(dice: &mut Dice, alloc: Global) -> Result<Vec<u8>, NoMemory> {
    let names: [&[u8]; 4] = [b"\0", b"0", b"\n", b"\xff"];
    let copy = Vec::from_slice(alloc, names[dice.below(4)])?;
    Ok(copy)
}

/// A name of 200 to 231 bytes that begins as the others of its kind do.
fn long_alike(dice: &mut Dice, alloc: Global) -> Result<Vec<u8>, NoMemory> {
    let mut name = Vec::new(alloc);
    for _ in 0..200 {
        name.push(0)?;
    }
    for _ in 0..dice.below(32) {
        name.push(dice.byte())?;
    }
    Ok(name)
}

/// A name of letters, as a path looks.
fn text(dice: &mut Dice, alloc: Global) -> Result<Vec<u8>, NoMemory> {
    let mut name = Vec::from_slice(alloc, b"/tmp/../handle ")?;
    for _ in 0..8 {
        name.push(b'a' + (dice.below(26) as u8))?;
    }
    Ok(name)
}

/// The name of the opening of this number, as this program's own sessions give names: 12 bytes.
pub(crate) fn plain_handle(number: u32, alloc: Global) -> Result<Vec<u8>, NoMemory> {
    let mut name = Vec::new(alloc);
    name.extend_from_slice(&[0; 8])?;
    name.extend_from_slice(&number.to_be_bytes())?;
    Ok(name)
}
