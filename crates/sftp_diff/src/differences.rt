//! How an entry of one tree differs from the entry at the same place of another.

use sftp_show::Quoted;
use sftp_treefile::{EntryTimes, Kind, NO_TIMES, Owner, Row, Times};
use std::fmt;

/// The letter of a kind; both a first and a further name are of the kind of a file.
pub(crate) fn letter(kind: &Kind) -> char {
    match kind {
        Kind::Dir(_) => 'D',
        Kind::First(..) => 'F',
        Kind::Further(_) => 'F',
        Kind::Link(_) => 'L',
    }
}

/// An entry among those of its tree.
#[derive(Clone, Copy)]
pub(crate) struct Entry<'a> {
    pub(crate) row: &'a Row,
    /// Its number. Entries count from 1.
    pub(crate) number: usize,
    /// All rows of the tree.
    pub(crate) rows: &'a [Row],
    /// The times of its root and its rows, if they are compared.
    pub(crate) times: Option<&'a EntryTimes>,
}

impl<'a> Entry<'a> {
    /// The number of the entry that has the first name of the file which this one names, or its own if it is none of
    /// a file's further names.
    fn first_number(&self) -> usize {
        match &self.row.kind {
            Kind::Further(number) => *number as usize,
            _ => self.number,
        }
    }

    /// That entry.
    fn first(&self) -> &'a Row {
        self.rows
            .get(self.first_number().saturating_sub(1))
            .unwrap_or(self.row)
    }

    /// The times of that entry; none if they are not compared.
    fn first_times(&self) -> Times {
        match self.times {
            Some(times) => times.get(self.first_number()),
            None => NO_TIMES,
        }
    }
}

/// The owner and the permissions of a directory or of a file at its first name.
fn owner_of(kind: &Kind) -> Option<Owner> {
    match kind {
        Kind::Dir(owner) => Some(*owner),
        Kind::First(owner, _) => Some(*owner),
        _ => None,
    }
}

/// The bytes of a file at its first name.
fn bytes_of(kind: &Kind) -> Option<&[u8]> {
    match kind {
        Kind::First(_, bytes) => Some(bytes.as_slice()),
        _ => None,
    }
}

/// The target of a link.
fn target_of(kind: &Kind) -> Option<&[u8]> {
    match kind {
        Kind::Link(target) => Some(target.as_slice()),
        _ => None,
    }
}

fn is_further(kind: &Kind) -> bool {
    matches!(kind, Kind::Further(_))
}

/// The two texts if both are there and differ.
pub(crate) fn apart<'a>(
    one: Option<&'a [u8]>,
    other: Option<&'a [u8]>,
) -> Option<(&'a [u8], &'a [u8])> {
    match (one, other) {
        (Some(one), Some(other)) if one != other => Some((one, other)),
        _ => None,
    }
}

/// How the owner and the permissions of two entries differ.
#[derive(Clone, Copy)]
pub(crate) struct OwnerDifference(pub(crate) Owner, pub(crate) Owner);

impl OwnerDifference {
    /// Whether neither differs.
    pub(crate) fn is_none(self) -> bool {
        self.0 == self.1
    }
}

impl fmt::Display for OwnerDifference {
    fn fmt<W: fmt::Write>(&self, f: &mut fmt::Formatter<W>) -> fmt::Result {
        put_owners((self.0.uid, self.0.gid), (self.1.uid, self.1.gid), f)?;
        put_permissions(self.0.permissions, self.1.permissions, f)
    }
}

/// Writes who owned and who owns something, if that differs.
pub(crate) fn put_owners<W: fmt::Write>(
    old: (u32, u32),
    new: (u32, u32),
    f: &mut fmt::Formatter<W>,
) -> fmt::Result {
    if old == new {
        return Ok(());
    }
    let (old_uid, old_gid) = old;
    let (new_uid, new_gid) = new;
    write!(f, " owner {old_uid},{old_gid} -> {new_uid},{new_gid}")
}

fn put_permissions<W: fmt::Write>(old: u32, new: u32, f: &mut fmt::Formatter<W>) -> fmt::Result {
    if old == new {
        return Ok(());
    }
    write!(f, " permissions {old:04o} -> {new:04o}")
}

/// Writes the times that something had and has, if there are any.
pub(crate) fn put_times<W: fmt::Write>(
    times: Option<(Times, Times)>,
    f: &mut fmt::Formatter<W>,
) -> fmt::Result {
    let Some((old, new)) = times else {
        return Ok(());
    };
    let (old_accessed, old_modified) = (old.accessed, old.modified);
    let (new_accessed, new_modified) = (new.accessed, new.modified);
    write!(
        f,
        " times {old_accessed},{old_modified} -> {new_accessed},{new_modified}"
    )
}

/// The two times if they differ.
pub(crate) fn times_apart(old: Times, new: Times) -> Option<(Times, Times)> {
    if old == new { None } else { Some((old, new)) }
}

/// How the bytes of two files differ that are not the same.
#[derive(Clone, Copy)]
struct BytesDifference<'a>(&'a [u8], &'a [u8]);

impl fmt::Display for BytesDifference<'_> {
    fn fmt<W: fmt::Write>(&self, f: &mut fmt::Formatter<W>) -> fmt::Result {
        let old = self.0.len();
        let new = self.1.len();
        if old != new {
            write!(f, " length {old} -> {new}")?;
        }
        let place = first_difference(self.0, self.1);
        write!(f, " content from byte {place}")
    }
}

/// The place of the first byte, from 0, in which these differ; or how many bytes the shorter ones have.
pub(crate) fn first_difference(old: &[u8], new: &[u8]) -> usize {
    let mut place: usize = 0;
    for (one, other) in old.iter().zip(new) {
        if one != other {
            return place;
        }
        place = place.saturating_add(1);
    }
    place
}

/// How the entries at one place of two trees differ.
#[derive(Clone, Copy)]
pub(crate) struct Difference<'a> {
    pub(crate) kinds: Option<(char, char)>,
    pub(crate) owners: Option<OwnerDifference>,
    pub(crate) times: Option<(Times, Times)>,
    pub(crate) bytes: Option<(&'a [u8], &'a [u8])>,
    pub(crate) targets: Option<(&'a [u8], &'a [u8])>,
    /// The places of the first names of the files.
    pub(crate) first_names: Option<(&'a [u8], &'a [u8])>,
}

impl<'a> Difference<'a> {
    /// No difference.
    fn none() -> Difference<'a> {
        Difference {
            kinds: None,
            owners: None,
            times: None,
            bytes: None,
            targets: None,
            first_names: None,
        }
    }

    /// How an entry of an old tree differs from the entry of a new one at the same place. Owner, permissions, times and
    /// bytes of a file are compared where one of the entries is of its first name.
    pub(crate) fn of(old: Entry<'a>, new: Entry<'a>) -> Difference<'a> {
        let first_names = apart(
            Some(old.first().path.as_slice()),
            Some(new.first().path.as_slice()),
        );
        let (old_letter, new_letter) = (letter(&old.row.kind), letter(&new.row.kind));
        if old_letter != new_letter {
            Difference {
                kinds: Some((old_letter, new_letter)),
                ..Difference::none()
            }
        } else if is_further(&old.row.kind) && is_further(&new.row.kind) {
            Difference {
                first_names,
                ..Difference::none()
            }
        } else {
            Difference {
                first_names,
                times: times_apart(old.first_times(), new.first_times()),
                ..Difference::of_kinds(&old.first().kind, &new.first().kind)
            }
        }
    }

    /// How two directories, two files at their first names, or two links differ.
    fn of_kinds(old: &'a Kind, new: &'a Kind) -> Difference<'a> {
        let owners = match (owner_of(old), owner_of(new)) {
            (Some(old), Some(new)) if old != new => Some(OwnerDifference(old, new)),
            _ => None,
        };
        Difference {
            kinds: None,
            owners,
            times: None,
            bytes: apart(bytes_of(old), bytes_of(new)),
            targets: apart(target_of(old), target_of(new)),
            first_names: None,
        }
    }

    /// Whether the entries are the same.
    pub(crate) fn is_none(&self) -> bool {
        self.kinds.is_none()
            && self.owners.is_none()
            && self.times.is_none()
            && self.bytes.is_none()
            && self.targets.is_none()
            && self.first_names.is_none()
    }
}

impl fmt::Display for Difference<'_> {
    fn fmt<W: fmt::Write>(&self, f: &mut fmt::Formatter<W>) -> fmt::Result {
        put_kinds(self.kinds, f)?;
        put_texts("first name", self.first_names, f)?;
        put_owner_difference(self.owners, f)?;
        put_times(self.times, f)?;
        put_bytes(self.bytes, f)?;
        put_texts("target", self.targets, f)
    }
}

fn put_kinds<W: fmt::Write>(kinds: Option<(char, char)>, f: &mut fmt::Formatter<W>) -> fmt::Result {
    match kinds {
        Some((old, new)) => write!(f, " kind {old} -> {new}"),
        None => Ok(()),
    }
}

fn put_owner_difference<W: fmt::Write>(
    owners: Option<OwnerDifference>,
    f: &mut fmt::Formatter<W>,
) -> fmt::Result {
    match owners {
        Some(owners) => write!(f, "{owners}"),
        None => Ok(()),
    }
}

fn put_bytes<W: fmt::Write>(
    bytes: Option<(&[u8], &[u8])>,
    f: &mut fmt::Formatter<W>,
) -> fmt::Result {
    match bytes {
        Some((old, new)) => {
            let difference = BytesDifference(old, new);
            write!(f, "{difference}")
        }
        None => Ok(()),
    }
}

/// Writes two texts behind this label, if there are any.
pub(crate) fn put_texts<W: fmt::Write>(
    label: &str,
    texts: Option<(&[u8], &[u8])>,
    f: &mut fmt::Formatter<W>,
) -> fmt::Result {
    match texts {
        Some((old, new)) => {
            let old = Quoted(old);
            let new = Quoted(new);
            write!(f, " {label} {old} -> {new}")
        }
        None => Ok(()),
    }
}
