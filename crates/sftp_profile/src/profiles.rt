//! Profiles as sets of departures from the strict reading.
ghost use Rattle.std.specs.Prelude.{◌≡◌};
ghost use Rattle.sftp_profile.specs.Profiles as spec;

/// Who owns what is made.
#[derive(Clone, Copy, PartialEq, Eq)]
pub enum NewOwner {
    /// The tree's user and group.
    User,
    /// The owner that the request gives, else the tree's.
    Given,
    /// The tree's user, with the group of the directory that the new entry is in.
    Group,
    /// The same if that directory has the set-gid bit 0o2000, else the tree's user and group. A new directory in such a
    /// directory has the bit, too.
    Posix,
}

/// Which departures from the strict reading are accepted, each a field. What is accepted strictly, each profile
/// accepts that has neither `made`, `keep_owner` nor `symlink_draft`.
#[derive(Clone, Copy, PartialEq, Eq)]
pub struct Profile {
    /// A request that some cause refuses may be refused with any of the codes 2, 3, 4, 5 and 8.
    pub codes: bool,
    /// A request with a path that is empty or ends in `/`, `.` or `..` may be refused with the codes 2 and 4, and an
    /// LSTAT of such a path may be answered as STAT.
    pub slash: bool,
    /// A SETSTAT that sets nothing may be done, wherever its path leads.
    pub empty_setstat: bool,
    /// READDIR may give `.` and `..`, any number of times and with any attributes.
    pub dots: bool,
    /// The size of a directory is free.
    pub dir_size: bool,
    /// A request may be refused with the code 4 if a path or a link's target of it has 1,024 bytes or more, or if it
    /// reads or writes up to byte 2^31 or further. One that was done is not followed if nothing but the room in the
    /// tree refuses it.
    pub limits: bool,
    /// An extension that is not known may be refused with any code, and those that only look and are listed in
    /// `extensions.rt` may be answered with any content.
    pub extensions: bool,
    /// OPEN is judged without unknown flags, without those that say nothing beside the others, and with that to read if
    /// it asks neither to read nor to write. TRUNC empties a file also without CREAT or WRITE.
    pub flags: bool,
    /// A hardlink of a link may be made: a link with the same target.
    pub hardlink_link: bool,
    /// READ may give more bytes than the limit of the tree, up to as many as are asked for. A READ of no bytes may give
    /// none, or say that the end was reached.
    pub read: bool,
    /// The bits 0o6000 of permissions are free.
    pub set_id: bool,
    /// The owner of a link and its permissions are free.
    pub link_attrs: bool,
    /// A file of no bytes may be shown as a FIFO, a device or a socket, which the tree cannot hold: its type is free.
    pub special: bool,
    /// REALPATH may give the path's text made absolute without a look at the tree; any text where a cause refuses it;
    /// and it may be refused with the code 2 where nothing is at the place.
    pub realpath: bool,
    /// OPEN to read may open a directory. FSTAT, FSETSTAT and fsync go through the handle of any directory.
    pub open_dir: bool,
    /// Names that come or go while a directory is listed may be given or not. The listing of a directory that was
    /// removed may be refused with the codes 2 and 4.
    pub listing: bool,
    /// What is made has the owner that `new_owner` says, and the permissions that the request gives, else 0666 or 0777,
    /// without the bits of `umask`.
    pub made: bool,
    /// A half of an owner that a SETSTAT or FSETSTAT gives as 4294967295 leaves the user or the group as it is.
    pub keep_owner: bool,
    /// lsetstat@openssh.com sets what a SETSTAT does, but nothing of a link. A size may be refused with the codes 4 and
    /// 5, and what is set of a link with the code 4.
    pub lsetstat: bool,
    /// copy-data copies bytes from one open file to another. A copy within one file may be refused with the code 4.
    pub copy_data: bool,
    /// Any request may be refused with the code 3.
    pub denied: bool,
    /// A request that may need room on a disk may be refused with the code 4.
    pub full: bool,
    /// Who owns what is made. It says nothing without `made`.
    pub new_owner: NewOwner,
    /// The permissions that nothing new has. It says nothing without `made`.
    pub umask: u32,
    /// The paths of SYMLINK are in the order of the draft, that of the link first.
    pub symlink_draft: bool,
}

impl Profile {
    /// The strict reading: no departure.
    pub fn strict() -> Profile
        ensures { result ≡ spec.strict }
    {
        Profile {
            codes: false,
            slash: false,
            empty_setstat: false,
            dots: false,
            dir_size: false,
            limits: false,
            extensions: false,
            flags: false,
            hardlink_link: false,
            read: false,
            set_id: false,
            link_attrs: false,
            special: false,
            realpath: false,
            open_dir: false,
            listing: false,
            made: false,
            keep_owner: false,
            lsetstat: false,
            copy_data: false,
            denied: false,
            full: false,
            new_owner: NewOwner::User,
            umask: 0,
            symlink_draft: false,
        }
    }

    /// Whether the profile judges each request itself, and replaces none.
    pub(crate) fn keeps_requests(self) -> bool
        ensures { result ≡ spec.keeps_requests self }
    {
        !self.made && !self.keep_owner && !self.symlink_draft
    }

    /// Whether the profile has no use for the directories that are open.
    pub(crate) fn is_stateless(self) -> bool
        ensures { result ≡ spec.is_stateless self }
    {
        !(self.open_dir || self.listing)
    }
}
