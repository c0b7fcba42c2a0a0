//! Where paths lead in a tree, and their texts.

use sftp_path::Name;
use sftp_tree::{FileNo, NoMemory, Refused, Ticks, Tree};

/// The place that a path leads to, which may be free, and the file that it is a name of.
#[derive(Drop)]
pub(crate) struct End {
    /// The names that lead from the root to the place.
    pub(crate) names: Vec<Name>,
    /// The file, if the place is a name of one.
    pub(crate) file: Option<FileNo>,
}

impl End {
    /// Whether both are one place, or names of one file.
    pub(crate) fn is(&self, other: &End) -> bool {
        match (self.file, other.file) {
            (Some(file), Some(other)) => file == other,
            _ => self.names.as_slice() == other.names.as_slice(),
        }
    }
}

/// What a path leads to, if it leads anywhere. A last link is followed if `follow` says so.
///
/// # Errors
///
/// `NoMemory` if memory runs out.
pub(crate) fn end_of(tree: &Tree, path: &[u8], follow: bool) -> Result<Option<End>, NoMemory> {
    let mut ticks = Ticks::new();
    match tree.walk(path, follow, &mut ticks) {
        Ok(names) => {
            let file = tree.file_at(names.as_slice());
            Ok(Some(End { names, file }))
        }
        Err(Refused::Cause(_)) => Ok(None),
        Err(Refused::NoMemory) => Err(NoMemory),
    }
}

/// The text of the directory above and the last component of a path, unless that is `.` or `..`.
pub(crate) fn split(path: &[u8]) -> Option<(&[u8], &[u8])> {
    let (start, end) = last_component(path);
    let above = path.get(..start)?;
    match path.get(start..end)? {
        [] => None,
        [b'.'] => None,
        [b'.', b'.'] => None,
        name => Some((without_slash(above), name)),
    }
}

/// Where the last component of a path starts and ends; nowhere if it has none.
fn last_component(path: &[u8]) -> (usize, usize) {
    let mut count: usize = 0;
    let mut slash: usize = 0;
    let mut bounds = (0, 0);
    for byte in path {
        count = count.wrapping_add(1);
        if *byte == b'/' {
            slash = count;
        } else {
            bounds = (slash, count);
        }
    }
    bounds
}

/// The text of a directory without the slash behind it, unless it is no more than that.
fn without_slash(text: &[u8]) -> &[u8] {
    match text.split_last() {
        Some((_, rest)) if !rest.is_empty() => rest,
        _ => text,
    }
}
