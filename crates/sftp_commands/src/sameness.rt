//! Whether two tree files say the same. A tree has one tree file, so they do if they have the same bytes.
ghost use Rattle.std.specs.Prelude.{◌≡◌, Decides, false};
ghost use Rattle.sftp_commands.specs.Sameness.{compared_part};

use sftp_treefile::{EntryTimes, Kind, Row, TreeFile};

/// Whether two tree files say the same, but for times if these are not compared.
pub(crate) fn is_same(old: &TreeFile, new: &TreeFile, with_times: bool) -> bool
    ensures { Decides result (compared_part with_times old.now ≡ compared_part with_times new.now) }
{
    is_same_tree(old, new) && (!with_times || have_same_times(&old.times, &new.times))
}

/// Whether two lists of times are the same.
fn have_same_times(old: &EntryTimes, new: &EntryTimes) -> bool
    ensures { Decides result (old.now ≡ new.now) }
{
    old.as_slice() == new.as_slice()
}

/// Whether two tree files say the same but for times.
fn is_same_tree(old: &TreeFile, new: &TreeFile) -> bool
    ensures { Decides result (compared_part false old.now ≡ compared_part false new.now) }
{
    old.limits == new.limits
        && old.home.as_slice() == new.home.as_slice()
        && old.uid == new.uid
        && old.gid == new.gid
        && old.root == new.root
        && are_same(old.rows.as_slice(), new.rows.as_slice())
}

/// Whether the entries of two tree files are the same.
fn are_same(old: &[Row], new: &[Row]) -> bool
    ensures { Decides result (old.now ≡ new.now) }
{
    old.len() == new.len()
        && old
            .iter()
            .zip(new)
            .all(|(row, other)| is_same_row(row, other))
}

fn is_same_row(old: &Row, new: &Row) -> bool
    ensures { Decides result (old.now ≡ new.now) }
{
    old.path.as_slice() == new.path.as_slice() && is_same_kind(&old.kind, &new.kind)
}

fn is_same_kind(old: &Kind, new: &Kind) -> bool
    ensures { Decides result (old.now ≡ new.now) }
{
    match (old, new) {
        (Kind::Dir(owner), Kind::Dir(other)) => owner == other,
        (Kind::First(owner, bytes), Kind::First(other, others)) => {
            owner == other && bytes.as_slice() == others.as_slice()
        }
        (Kind::Further(number), Kind::Further(other)) => number == other,
        (Kind::Link(target), Kind::Link(other)) => target.as_slice() == other.as_slice(),
        _ => false,
    }
}
