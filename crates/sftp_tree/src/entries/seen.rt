//! What is at a place, lent.

use super::directories::Dir;
use crate::file_numbers::FileNo;
use sftp_treefile::Owner;

/// What is at a place, lent.
#[derive(Clone, Copy)]
pub(crate) enum Seen<'a> {
    /// A directory, with its owner.
    Dir(Owner, &'a Dir),
    /// A name of the file of this number.
    File(FileNo),
    /// A symbolic link, with its target.
    Link(&'a [u8]),
}
