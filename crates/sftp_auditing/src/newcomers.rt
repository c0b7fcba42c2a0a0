//! Names that came into a directory while it was listed, where the explanation names what is wrong with one.
use crate::readings::is_there;
use sftp_path::Name;
use sftp_profile::Judge;
use sftp_tree::{NoMemory, Refused};
use sftp_wire::{Answer, Ask, Attrs, ByteString, NameItem, Names};
use std::alloc::Global;

/// A name that came into a directory since OPENDIR: the LSTAT that shows it, and the attributes that a listing gives of
/// it.
#[derive(Drop)]
pub(crate) struct Newcomer {
    pub(crate) name: ByteString,
    pub(crate) ask: Ask,
    pub(crate) answer: Answer,
}

/// Of an answer to READDIR, whose names the profile does not let a listing give: the first one, if it came since
/// OPENDIR and may be given with the attributes that LSTAT shows of it now; `None` if it may not.
///
/// # Errors
///
/// `NoMemory` if memory runs out.
pub(crate) fn find_newcomer(
    alloc: Global,
    judge: &Judge,
    ask: &Ask,
    answer: &Answer,
) -> Result<Option<Newcomer>, NoMemory> {
    let Ask::Readdir { handle } = ask else {
        return Ok(None);
    };
    let Answer::Name(names) = answer else {
        return Ok(None);
    };
    let Some((item, _)) = names.as_slice().split_first() else {
        return Ok(None);
    };
    if is_left(alloc, judge, handle, item)? {
        return Ok(None);
    }
    come_anew(alloc, judge, ask, handle, item)
}

/// Whether the listing still has to give the name of an item, which was there at OPENDIR.
///
/// # Errors
///
/// `NoMemory` if memory runs out.
fn is_left(
    alloc: Global,
    judge: &Judge,
    handle: &ByteString,
    item: &NameItem,
) -> Result<bool, NoMemory> {
    let Some(left) = judge.session().listing(handle.as_slice()) else {
        return Ok(false);
    };
    let Some(name) = Name::from_slice(alloc, item.filename.as_slice())? else {
        return Ok(false);
    };
    let is_left = left.find(&name).is_some();
    drop(name);
    Ok(is_left)
}

/// An item as a newcomer, if the directory has its name, and may give it.
///
/// # Errors
///
/// `NoMemory` if memory runs out.
fn come_anew(
    alloc: Global,
    judge: &Judge,
    ask: &Ask,
    handle: &ByteString,
    item: &NameItem,
) -> Result<Option<Newcomer>, NoMemory> {
    let Some(path) = path_of(alloc, judge, handle, item)? else {
        return Ok(None);
    };
    let may = may_come(alloc, judge, ask, item, path.as_slice());
    match may {
        Ok(true) => Ok(Some(newcomer_at(judge, item, path)?)),
        Ok(false) => {
            drop(path);
            Ok(None)
        }
        Err(error) => {
            drop(path);
            Err(error)
        }
    }
}

/// The path of an item's name in the directory that is open under the handle; `None` if there is no such directory.
///
/// # Errors
///
/// `NoMemory` if memory runs out.
fn path_of(
    alloc: Global,
    judge: &Judge,
    handle: &ByteString,
    item: &NameItem,
) -> Result<Option<ByteString>, NoMemory> {
    let handle = handle.clone()?;
    let ask = Ask::Fstat { handle };
    let stat = stat_of(judge, &ask, item);
    drop(ask);
    let Some(stat) = stat? else {
        return Ok(None);
    };
    let path = path_below(alloc, &stat, item.filename.as_slice());
    drop(stat);
    path
}

/// The STAT that stands for an FSTAT with the attributes of an item.
///
/// # Errors
///
/// `NoMemory` if memory runs out.
fn stat_of(judge: &Judge, ask: &Ask, item: &NameItem) -> Result<Option<Ask>, NoMemory> {
    let attrs = item.attrs.clone()?;
    let answer = Answer::Attrs(attrs);
    let stat = judge.standing(ask, &answer);
    drop(answer);
    stat
}

/// The path of a name in the directory that a STAT names.
///
/// # Errors
///
/// `NoMemory` if memory runs out.
fn path_below(alloc: Global, stat: &Ask, name: &[u8]) -> Result<Option<ByteString>, NoMemory> {
    let Ask::Stat { path } = stat else {
        return Ok(None);
    };
    let mut below = Vec::new(alloc);
    below.extend_from_slice(path.as_slice())?;
    below.push(b'/')?;
    below.extend_from_slice(name)?;
    Ok(Some(ByteString::new(below)))
}

/// Whether the listing may give an item with the attributes that LSTAT shows of this path.
///
/// # Errors
///
/// `NoMemory` if memory runs out.
fn may_come(
    alloc: Global,
    judge: &Judge,
    ask: &Ask,
    item: &NameItem,
    path: &[u8],
) -> Result<bool, NoMemory> {
    match judge.session().tree().stat(path, false) {
        Ok(shown) => may_have(alloc, judge, ask, item, shown),
        Err(Refused::Cause(_)) => Ok(false),
        Err(Refused::NoMemory) => Err(NoMemory),
    }
}

/// Whether the listing may give an item with these attributes.
///
/// # Errors
///
/// `NoMemory` if memory runs out.
fn may_have(
    alloc: Global,
    judge: &Judge,
    ask: &Ask,
    item: &NameItem,
    attrs: Attrs,
) -> Result<bool, NoMemory> {
    let mut only = Vec::new(alloc);
    only.push(with_attributes(item, attrs)?)?;
    let answer = Answer::Name(Names::new(only));
    let due = judge.due(ask, &answer);
    drop(answer);
    let is_due = is_there(&due);
    drop(due);
    is_due
}

/// An item as this one, with these attributes.
///
/// # Errors
///
/// `NoMemory` if memory runs out.
fn with_attributes(item: &NameItem, attrs: Attrs) -> Result<NameItem, NoMemory> {
    let filename = item.filename.clone()?;
    let longname = item.longname.clone()?;
    Ok(NameItem {
        filename,
        longname,
        attrs,
    })
}

/// An item as a newcomer at this path, with what the profile leaves free of its attributes as LSTAT shows it.
///
/// # Errors
///
/// `NoMemory` if memory runs out.
fn newcomer_at(judge: &Judge, item: &NameItem, path: ByteString) -> Result<Newcomer, NoMemory> {
    let ask = Ask::Lstat { path };
    match told_of(judge, item, &ask) {
        Ok(answer) => named(&item.filename, ask, answer),
        Err(error) => {
            drop(ask);
            Err(error)
        }
    }
}

/// The answer to an LSTAT with the attributes of an item, where the profile leaves nothing of them free.
///
/// # Errors
///
/// `NoMemory` if memory runs out.
fn told_of(judge: &Judge, item: &NameItem, ask: &Ask) -> Result<Answer, NoMemory> {
    let given = Answer::Attrs(item.attrs.clone()?);
    match judge.told(ask, &given) {
        Ok(None) => Ok(given),
        Ok(Some(answer)) => {
            drop(given);
            Ok(answer)
        }
        Err(error) => {
            drop(given);
            Err(error)
        }
    }
}

/// The newcomer of this name.
///
/// # Errors
///
/// `NoMemory` if memory runs out.
fn named(name: &ByteString, ask: Ask, answer: Answer) -> Result<Newcomer, NoMemory> {
    match name.clone() {
        Ok(name) => Ok(Newcomer { name, ask, answer }),
        Err(error) => {
            drop(ask);
            drop(answer);
            Err(NoMemory::from(error))
        }
    }
}
