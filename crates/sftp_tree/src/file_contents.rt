//! The content of files.
ghost use Rattle.std.specs.Prelude.{◌≡◌, ◌+◌, ◌<◌, ◌≤◌, ◌^◌, length, OnOk, OnErr};
ghost use Rattle.sftp_treefile.specs.TreeFile.{IsOwner};
ghost use Rattle.sftp_tree.specs.Attributes.{resized, changed_owner, changed_content};
ghost use Rattle.sftp_tree.specs.Changes.{overwritten, written};
ghost use Rattle.sftp_tree.specs.StoredFiles.{is_held_still, IsWritable};

use crate::owners::changed_owner;
use sftp_packets::Attrs;
use sftp_path::NoMemory;
use sftp_treefile::Owner;
use std::marker::Model;

/// The bytes of a file.
#[derive(Drop)]
pub struct FileBytes {
    bytes: Vec<u8>,
}

impl Model for FileBytes {
    ghost use Rattle.std.specs.Prelude.{List, ℕ, IsTrue};
    ghost use Rattle.sftp_treefile.specs.TreeFile.{are_bytes};

    ghost Value = { List ℕ };

    ghost view = { λ b. b.bytes.items };
}

impl FileBytes {
    /// These bytes, which are not copied.
    pub fn new(bytes: Vec<u8>) -> FileBytes
        ensures { result ≡ bytes.items }
    {
        FileBytes { bytes }
    }

    /// The bytes.
    pub fn as_slice(&self) -> &[u8]
        ensures { result.now ≡ self.now }
    {
        self.bytes.as_slice()
    }

    /// Cuts the bytes to a size, or appends zeros up to it. The bytes that stay are moved only if the allocator has to,
    /// or if less than half of the room would be used: the rest is then given back.
    ///
    /// # Errors
    ///
    /// `NoMemory` if memory runs out; the bytes are unchanged.
    pub fn resize(&mut self, size: usize) -> Result<(), NoMemory>
        ensures ok { OnOk result (self.new ≡ resized size self.old) }
        ensures err { OnErr result (self.new ≡ self.old) }
    {
        self.bytes.resize(size, 0)?;
        give_back(&mut self.bytes);
        Ok(())
    }

    /// Writes bytes over those from the offset on; what goes past the end is appended. If the bytes end before the
    /// offset, zeros fill them up to it. To write no bytes changes nothing, at any offset.
    ///
    /// # Errors
    ///
    /// `NoMemory` if memory runs out; the bytes are unchanged.
    pub fn write_at(&mut self, offset: u64, new: &[u8]) -> Result<(), NoMemory>
        requires { IsWritable offset new.now }
        ensures ok { OnOk result (self.new ≡ written offset new.now self.old) }
        ensures err { OnErr result (self.new ≡ self.old) }
    {
        if new.is_empty() {
            return Ok(());
        }
        write_over(&mut self.bytes, offset as usize, new)?;
        Ok(())
    }
}

/// Gives the room behind the bytes back if it is more than what they take. Growth leaves less.
fn give_back(bytes: &mut Vec<u8>)
    ensures { bytes.new.items ≡ bytes.old.items }
{
    if bytes.capacity() / 2 > bytes.len() {
        bytes.shrink_to_fit();
    }
}

/// Writes bytes over those from the offset on, and appends what goes past the end, after zeros up to the offset.
///
/// # Errors
///
/// `NoMemory` if memory runs out; the bytes are unchanged.
fn write_over(bytes: &mut Vec<u8>, offset: usize, new: &[u8]) -> Result<(), NoMemory>
    requires { offset + length new.now < 2 ^ 63 }
    ensures ok { OnOk result (bytes.new.items ≡ overwritten offset new.now bytes.old.items) }
    ensures err { OnErr result (bytes.new.items ≡ bytes.old.items) }
{
    let len = bytes.len();
    if offset < len {
        let inside = new.len().min(len - offset);
        let (over, more) = new.split_at(inside);
        bytes.extend_from_slice(more)?;
        bytes.as_mut_slice()[offset..offset + inside].copy_from_slice(over);
        Ok(())
    } else {
        append_at(bytes, offset, new)
    }
}

/// Appends bytes after zeros up to the offset, where nothing is past the offset.
///
/// # Errors
///
/// `NoMemory` if memory runs out; the bytes are unchanged.
fn append_at(bytes: &mut Vec<u8>, offset: usize, new: &[u8]) -> Result<(), NoMemory>
    requires end { length bytes.old.items ≤ offset }
    requires sum { offset + length new.now < 2 ^ 63 }
    ensures ok { OnOk result (bytes.new.items ≡ overwritten offset new.now bytes.old.items) }
    ensures err { OnErr result (bytes.new.items ≡ bytes.old.items) }
{
    let missing = offset - bytes.len();
    bytes.reserve(missing + new.len())?;
    bytes.resize(offset, 0)?;
    bytes.extend_from_slice(new)?;
    Ok(())
}

/// The content of a file.
#[derive(Drop)]
pub struct Content {
    /// Its user, its group, and its permissions of twelve bits.
    pub owner: Owner,
    /// Its bytes; the limits say how many there may be.
    pub bytes: FileBytes,
}

/// A file as a tree keeps it.
#[derive(Drop)]
pub struct Stored {
    /// The content of the file.
    pub content: Content,
    /// How many names the file has.
    pub names: u32,
    /// How many pins hold the file.
    pub pins: u64,
}

impl Stored {
    /// Whether a name or a pin holds the file.
    pub(crate) fn is_held(&self) -> bool
        ensures { result ≡ is_held_still self.now }
    {
        self.names > 0 || self.pins > 0
    }
}

/// Sets the attributes of a file: its size, its owner and the low twelve bits of its permissions, each if it is given.
///
/// # Errors
///
/// `NoMemory` if memory runs out; the file is unchanged.
pub(crate) fn change(content: &mut Content, attrs: &Attrs) -> Result<(), NoMemory>
    requires { IsOwner content.old.owner }
    ensures ok { OnOk result (content.new ≡ changed_content attrs.now content.old) }
    ensures owned { OnOk result (IsOwner (changed_owner attrs.now content.old.owner)) }
    ensures err { OnErr result (content.new ≡ content.old) }
{
    if let Some(size) = attrs.size {
        content.bytes.resize(size as usize)?;
    }
    content.owner = changed_owner(attrs, content.owner);
    Ok(())
}
