//! The kinds of packets, by their names.

/// A kind of packet.
#[derive(Clone, Copy)]
pub(crate) enum PacketKind {
    Open,
    Close,
    Read,
    Write,
    Lstat,
    Fstat,
    Setstat,
    Fsetstat,
    Opendir,
    Readdir,
    Remove,
    Mkdir,
    Rmdir,
    Realpath,
    Stat,
    Rename,
    Readlink,
    Symlink,
    Extended,
    PosixRename,
    Hardlink,
    Fsync,
    Limits,
    Status,
    Handle,
    Data,
    Name,
    Attrs,
    ExtendedReply,
}

/// The kinds of requests.
pub(crate) const REQUESTS: [PacketKind; 23] = [
    PacketKind::Open,
    PacketKind::Close,
    PacketKind::Read,
    PacketKind::Write,
    PacketKind::Lstat,
    PacketKind::Fstat,
    PacketKind::Setstat,
    PacketKind::Fsetstat,
    PacketKind::Opendir,
    PacketKind::Readdir,
    PacketKind::Remove,
    PacketKind::Mkdir,
    PacketKind::Rmdir,
    PacketKind::Realpath,
    PacketKind::Stat,
    PacketKind::Rename,
    PacketKind::Readlink,
    PacketKind::Symlink,
    PacketKind::Extended,
    PacketKind::PosixRename,
    PacketKind::Hardlink,
    PacketKind::Fsync,
    PacketKind::Limits,
];

/// The kinds of replies.
pub(crate) const REPLIES: [PacketKind; 6] = [
    PacketKind::Status,
    PacketKind::Handle,
    PacketKind::Data,
    PacketKind::Name,
    PacketKind::Attrs,
    PacketKind::ExtendedReply,
];

impl PacketKind {
    /// The name, as `show` prints it.
    pub(crate) fn name(self) -> &'static str {
        match self {
            PacketKind::Open => "OPEN",
            PacketKind::Close => "CLOSE",
            PacketKind::Read => "READ",
            PacketKind::Write => "WRITE",
            PacketKind::Lstat => "LSTAT",
            PacketKind::Fstat => "FSTAT",
            PacketKind::Setstat => "SETSTAT",
            PacketKind::Fsetstat => "FSETSTAT",
            PacketKind::Opendir => "OPENDIR",
            PacketKind::Readdir => "READDIR",
            PacketKind::Remove => "REMOVE",
            PacketKind::Mkdir => "MKDIR",
            PacketKind::Rmdir => "RMDIR",
            PacketKind::Realpath => "REALPATH",
            PacketKind::Stat => "STAT",
            PacketKind::Rename => "RENAME",
            PacketKind::Readlink => "READLINK",
            PacketKind::Symlink => "SYMLINK",
            PacketKind::Extended => "EXTENDED",
            PacketKind::PosixRename => "POSIX-RENAME",
            PacketKind::Hardlink => "HARDLINK",
            PacketKind::Fsync => "FSYNC",
            PacketKind::Limits => "LIMITS",
            PacketKind::Status => "STATUS",
            PacketKind::Handle => "HANDLE",
            PacketKind::Data => "DATA",
            PacketKind::Name => "NAME",
            PacketKind::Attrs => "ATTRS",
            PacketKind::ExtendedReply => "EXTENDED_REPLY",
        }
    }
}
