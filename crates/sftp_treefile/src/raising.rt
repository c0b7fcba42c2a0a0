//! Tree files with other limits, which hold what they held.
ghost use Rattle.std.specs.Prelude.{◌≡◌, ◌<◌, ◌^◌, ℕ, length};
ghost use Rattle.sftp_treefile.specs.declared.limits.TreeLimits.{TreeLimits as tree_limits};
ghost use Rattle.sftp_treefile.specs.TreeFile as spec;
ghost use Rattle.sftp_treefile.specs.TreeFile.{IsTreeFile};
ghost use Rattle.sftp_treefile.specs.TreeFileParts.{AreRaised};

use crate::entries::content_length;
use crate::files::{Row, TreeFile};
use crate::limits::{TreeLimits, highest_limits, most_limits, usual_limits};

impl TreeLimits {
    /// These limits, raised to `highest_limits` where they are lower. That on the bytes of all files stays.
    pub fn raised(self) -> TreeLimits
        ensures { result ≡ spec.raised_limits self }
    {
        let highest = highest_limits();
        TreeLimits {
            entries: highest.entries.max(self.entries),
            file_bytes: highest.file_bytes.max(self.file_bytes),
            read_bytes: highest.read_bytes.max(self.read_bytes),
            open_handles: highest.open_handles.max(self.open_handles),
            total_bytes: self.total_bytes,
        }
    }
}

/// The bytes of the longest file.
fn longest(rows: &[Row]) -> u64
    ensures { result ≡ spec.longest rows.now }
{
    let mut most = 0;
    for row in rows {
        most = content_length(&row.kind).max(most);
    }
    most
}

/// The lowest limits on entries and on the bytes of a file that hold these rows; the others are the usual ones.
fn fitting_limits(rows: &[Row]) -> TreeLimits
    requires { length rows.now < 2 ^ 32 }
    ensures { result ≡ spec.fitting_limits rows.now }
{
    let usual = usual_limits();
    TreeLimits {
        entries: usual.entries.max(rows.len() as u32),
        file_bytes: usual.file_bytes.max(longest(rows)),
        ..usual
    }
}

/// The same with the limits raised to `highest_limits` where they are lower. Those of a file with the opening
/// `SFTREE01` or `SFTREE02` become `highest_limits`.
pub fn raise(file: TreeFile) -> TreeFile
    requires { IsTreeFile file }
    ensures may_be { IsTreeFile result }
    ensures raised { result ≡ record file { limits = spec.raised_limits file.limits } }
{
    let limits = file.limits.raised();
    TreeFile { limits, ..file }
}

/// The same with the lowest limits that hold it: those on entries and on the bytes of a file are as high as they have
/// to be, but at least the usual ones, and the others are the usual ones.
pub fn raise_to_fit(file: TreeFile) -> TreeFile
    requires { IsTreeFile file }
    ensures may_be { IsTreeFile result }
    ensures raised { result ≡ record file { limits = spec.fitting_limits file.rows } }
{
    let limits = fitting_limits(file.rows.as_slice());
    TreeFile { limits, ..file }
}

/// The same with the highest limits that there are.
pub fn raise_to_most(file: TreeFile) -> TreeFile
    requires { IsTreeFile file }
    ensures may_be { IsTreeFile result }
    ensures raised { result ≡ record file { limits = spec.most_limits } }
{
    TreeFile {
        limits: most_limits(),
        ..file
    }
}

/// To raise limits after the second opening, or the usual ones, gives `highest_limits`.
pub fn raised_limits_are_the_highest()
    ensures { (l : tree_limits) → AreRaised l → spec.raised_limits l ≡ spec.highest_limits }
{}
