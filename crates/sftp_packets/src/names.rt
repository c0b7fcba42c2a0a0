//! The names of a NAME reply (draft, section 7).
ghost use Rattle.std.specs.Prelude.{◌≡◌};

use crate::attributes::Attrs;
use sftp_strings::ByteString;
use std::marker::Model;

/// One name of a NAME reply.
#[derive(Debug, Drop)]
pub struct NameItem {
    /// The name within its directory, or a whole path.
    pub filename: ByteString,
    /// A line about the file for people, like one of `ls -l`. Its layout is not fixed.
    pub longname: ByteString,
    /// The attributes of the file.
    pub attrs: Attrs,
}

/// The names of a NAME reply, in their order.
#[derive(Debug, Drop)]
pub struct Names {
    names: Vec<NameItem>,
}

impl Model for Names {
    ghost use Rattle.std.specs.Prelude.{List};
    ghost use Rattle.sftp_packets.specs.declared.names.NameItem.{NameItem};

    ghost Value = { List NameItem };

    ghost view = { λ n. n.names.items };
}

impl Names {
    /// These names, in this order. Does not allocate.
    pub fn new(names: Vec<NameItem>) -> Names
        ensures { result ≡ names.items }
    {
        Names { names }
    }

    /// The names in their order.
    pub fn as_slice(&self) -> &[NameItem]
        ensures { result.now ≡ self.now }
    {
        self.names.as_slice()
    }

    /// The names, without a copy.
    pub fn into_vec(self) -> Vec<NameItem>
        ensures { result.items ≡ self }
    {
        self.names
    }
}
