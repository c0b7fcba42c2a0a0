//! The limits that a tree may set, and the openings of tree files.
ghost use Rattle.std.specs.Prelude.{◌≡◌};
ghost use Rattle.sftp_treefile.specs.TreeFile as spec;

/// What a tree file begins with whose limits are the usual ones.
pub(crate) const OPENING: &[u8] = b"SFTREE01";

/// What a tree file begins with that has four limits.
pub(crate) const OPENING_WITH_LIMITS: &[u8] = b"SFTREE02";

/// What a tree file begins with that has five limits, and may have times and files of any length.
pub(crate) const OPENING_WIDE: &[u8] = b"SFTREE03";

/// How a tree file begins. A file has the first of these that holds it.
#[derive(Clone, Copy, Debug, PartialEq, Eq)]
pub enum Opening {
    /// `SFTREE01`: the limits are the usual ones, and no entry has times.
    Usual,
    /// `SFTREE02`: no limit is beyond the highest of `highest_limits`, and no entry has times.
    Raised,
    /// `SFTREE03`: a limit is beyond those, or an entry has times.
    Wide,
}

impl Opening {
    /// Whether entries may have times and files of any length.
    pub fn is_wide(self) -> bool
        ensures { result ≡ spec.is_wide self }
    {
        match self {
            Opening::Usual => false,
            Opening::Raised => false,
            Opening::Wide => true,
        }
    }

    /// The first opening that holds a file which needs the third or not, and sets limits of its own or not.
    fn lowest(needs_third: bool, has_limits: bool) -> Opening
        ensures { result ≡ spec.opening_by needs_third has_limits }
    {
        match (needs_third, has_limits) {
            (true, _) => Opening::Wide,
            (false, true) => Opening::Raised,
            (false, false) => Opening::Usual,
        }
    }
}

/// The bounds of a tree. They are this profile's own.
#[derive(Clone, Copy, Debug, PartialEq, Eq)]
pub struct TreeLimits {
    /// The most entries below the root.
    pub entries: u32,
    /// The most bytes of a file.
    pub file_bytes: u64,
    /// The most bytes that one READ gives.
    pub read_bytes: u32,
    /// The most open handles.
    pub open_handles: u32,
    /// The most bytes of all files together, those that only open handles hold among them. 2^58 is no limit: if no
    /// file may have more than 67,108,864 bytes, then all together have fewer, since there are fewer than 2^32 files.
    pub total_bytes: u64,
}

/// The limit on the bytes of all files that is none.
const ALL_BYTES: u64 = 288_230_376_151_711_744;

/// The limits of every tree whose file has the opening `SFTREE01`.
pub fn usual_limits() -> TreeLimits
    ensures { result ≡ spec.usual_limits }
{
    TreeLimits {
        entries: 65_536,
        file_bytes: 16_777_216,
        read_bytes: 32_768,
        open_handles: 256,
        total_bytes: ALL_BYTES,
    }
}

/// The highest limits of a tree whose file has the opening `SFTREE02`.
pub fn highest_limits() -> TreeLimits
    ensures { result ≡ spec.highest_limits }
{
    TreeLimits {
        entries: 1_048_576,
        file_bytes: 67_108_864,
        read_bytes: 65_536,
        open_handles: 1_024,
        total_bytes: ALL_BYTES,
    }
}

/// The lowest limits that a tree may set.
pub fn least_limits() -> TreeLimits
    ensures { result ≡ spec.least_limits }
{
    TreeLimits {
        total_bytes: 16_777_216,
        ..usual_limits()
    }
}

/// The highest limits that a tree may set.
pub fn most_limits() -> TreeLimits
    ensures { result ≡ spec.most_limits }
{
    TreeLimits {
        entries: 4_294_967_293,
        file_bytes: 1_099_511_627_776,
        read_bytes: 261_120,
        open_handles: 65_536,
        total_bytes: ALL_BYTES,
    }
}

impl TreeLimits {
    /// Whether a tree with these limits sets limits of its own: they are not all the usual ones.
    #[tactic(auto, unfolding(crate::specs::TreeFile::are_own))]
    pub fn are_own(self) -> bool
        ensures { result ≡ spec.are_own self }
    {
        let usual = usual_limits();
        !(self.entries == usual.entries
            && (self.file_bytes == usual.file_bytes
                && (self.read_bytes == usual.read_bytes
                    && (self.open_handles == usual.open_handles
                        && self.total_bytes == usual.total_bytes))))
    }

    /// Whether one of the limits is beyond those of a file with the opening `SFTREE02`.
    #[tactic(auto, unfolding(crate::specs::TreeFile::are_far))]
    pub fn are_far(self) -> bool
        ensures { result ≡ spec.are_far self }
    {
        let highest = highest_limits();
        self.entries > highest.entries
            || (self.file_bytes > highest.file_bytes
                || (self.read_bytes > highest.read_bytes
                    || (self.open_handles > highest.open_handles
                        || self.total_bytes < highest.total_bytes)))
    }

    /// The opening of the file of a tree that has these limits, and times or none.
    pub fn opening(self, has_times: bool) -> Opening
        ensures { result ≡ spec.opening_with has_times self }
    {
        let needs_third = has_times || self.are_far();
        Opening::lowest(needs_third, self.are_own())
    }
}
