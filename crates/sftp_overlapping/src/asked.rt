//! What the command line asks for.
use sftp_files::Keeping;
use sftp_profile::Profile;

/// The nanoseconds of a microsecond.
const MICROSECOND: u64 = 1_000;

/// The options of `audit --together`.
#[derive(Drop)]
pub struct TogetherOptions<'a> {
    /// The tree file that the sessions start from.
    pub tree: &'a str,
    /// The file with the order of all requests.
    pub order: &'a str,
    /// For each session a file NAME.transcript and a file NAME.times, in any order.
    pub files: Vec<&'a str>,
    /// How many microseconds times may be apart from what they say.
    pub tolerance: u64,
    /// The file to write the final tree to.
    pub out: Option<&'a str>,
    /// How that file is written.
    pub keeping: Keeping,
    /// Whether the verdict is a JSON object.
    pub is_json: bool,
    /// Which departures from the strict reading are accepted; none where the sessions are judged strictly.
    pub profile: Option<Profile>,
    /// The permissions that are taken from whatever is made, as octal digits.
    pub umask: Option<&'a str>,
}

impl TogetherOptions<'_> {
    /// How many nanoseconds times may be apart from what they say, up to 2^64 - 1.
    pub(crate) fn nanoseconds(&self) -> u64 {
        self.tolerance.saturating_mul(MICROSECOND)
    }
}
