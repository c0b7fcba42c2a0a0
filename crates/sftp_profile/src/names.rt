//! The departures by their names, as the command line of the program has them.
ghost use Rattle.std.specs.Prelude.{◌≡◌, find, bytes_eq};
ghost use Rattle.sftp_profile.specs.Profiles as names;

use crate::profiles::{NewOwner, Profile};

/// The names of all departures, in the order of `Departure`.
pub const NAMES: &[&str] = &[
    "codes",
    "slash",
    "limits",
    "flags",
    "hardlink-link",
    "realpath",
    "read",
    "empty-setstat",
    "dots",
    "dir-size",
    "set-id",
    "link-attrs",
    "special",
    "open-dir",
    "listing",
    "made",
    "keep-owner",
    "extensions",
    "lsetstat",
    "copy-data",
    "denied",
    "full",
];

impl Profile {
    /// What servers with real file systems do differently: all departures but `denied` and `full`. What is made has the
    /// tree's owner, and all permissions that are asked for.
    pub fn posix() -> Profile
        ensures { result ≡ names.posix }
    {
        Profile {
            codes: true,
            slash: true,
            empty_setstat: true,
            dots: true,
            dir_size: true,
            limits: true,
            extensions: true,
            flags: true,
            hardlink_link: true,
            read: true,
            set_id: true,
            link_attrs: true,
            special: true,
            realpath: true,
            open_dir: true,
            listing: true,
            made: true,
            keep_owner: true,
            lsetstat: true,
            copy_data: true,
            denied: false,
            full: false,
            new_owner: NewOwner::User,
            umask: 0,
            symlink_draft: false,
        }
    }

    /// The same for users to whom the server denies requests, on a disk that may be full: all departures.
    pub fn posix_user() -> Profile
        ensures { result ≡ names.posix_user }
    {
        let mut profile = Profile::posix();
        profile.denied = true;
        profile.full = true;
        profile
    }

    /// The profile with the departure of this name accepted, or not; `None` if no departure has this name.
    pub fn with(self, name: &str, is_on: bool) -> Option<Profile>
        ensures { result ≡ names.with_name self name.now is_on }
    {
        match departure_of(name.as_bytes()) {
            Some(departure) => Some(switched(self, departure, is_on)),
            None => None,
        }
    }
}

/// A departure from the strict reading.
#[derive(Clone, Copy)]
pub(crate) enum Departure {
    Codes,
    Slash,
    Limits,
    Flags,
    HardlinkLink,
    Realpath,
    Read,
    EmptySetstat,
    Dots,
    DirSize,
    SetId,
    LinkAttrs,
    Special,
    OpenDir,
    Listing,
    Made,
    KeepOwner,
    Extensions,
    Lsetstat,
    CopyData,
    Denied,
    Full,
}

/// Every departure.
fn every_departure() -> [Departure; 22]
    ensures { result ≡ names.every_departure }
{
    [
        Departure::Codes,
        Departure::Slash,
        Departure::Limits,
        Departure::Flags,
        Departure::HardlinkLink,
        Departure::Realpath,
        Departure::Read,
        Departure::EmptySetstat,
        Departure::Dots,
        Departure::DirSize,
        Departure::SetId,
        Departure::LinkAttrs,
        Departure::Special,
        Departure::OpenDir,
        Departure::Listing,
        Departure::Made,
        Departure::KeepOwner,
        Departure::Extensions,
        Departure::Lsetstat,
        Departure::CopyData,
        Departure::Denied,
        Departure::Full,
    ]
}

/// The name of a departure.
fn name_of(departure: Departure) -> &'static [u8]
    ensures { result.now ≡ names.name_of departure }
{
    NAMES[departure as usize].as_bytes()
}

/// The first of these departures that has this name.
fn first_named(departures: &[Departure], name: &[u8]) -> Option<Departure>
    ensures { result ≡ find (λ departure. bytes_eq (names.name_of departure) name.now) departures.now }
{
    let mut left = departures;
    'departures: while let Some((departure, rest)) = left.split_first() {
        if name_of(*departure) == name {
            return Some(*departure);
        }
        left = rest;
    }
    None
}

/// The departure of a name.
#[tactic(auto, unfolding(crate::specs::Profiles::departure_of))]
fn departure_of(name: &[u8]) -> Option<Departure>
    ensures { result ≡ names.departure_of name.now }
{
    first_named(&every_departure(), name)
}

/// The profile with a departure accepted, or not.
fn switched(profile: Profile, departure: Departure, is_on: bool) -> Profile
    ensures { result ≡ names.switched profile departure is_on }
{
    let mut profile = profile;
    match departure {
        Departure::Codes => profile.codes = is_on,
        Departure::Slash => profile.slash = is_on,
        Departure::Limits => profile.limits = is_on,
        Departure::Flags => profile.flags = is_on,
        Departure::HardlinkLink => profile.hardlink_link = is_on,
        Departure::Realpath => profile.realpath = is_on,
        Departure::Read => profile.read = is_on,
        Departure::EmptySetstat => profile.empty_setstat = is_on,
        Departure::Dots => profile.dots = is_on,
        Departure::DirSize => profile.dir_size = is_on,
        Departure::SetId => profile.set_id = is_on,
        Departure::LinkAttrs => profile.link_attrs = is_on,
        Departure::Special => profile.special = is_on,
        Departure::OpenDir => profile.open_dir = is_on,
        Departure::Listing => profile.listing = is_on,
        Departure::Made => profile.made = is_on,
        Departure::KeepOwner => profile.keep_owner = is_on,
        Departure::Extensions => profile.extensions = is_on,
        Departure::Lsetstat => profile.lsetstat = is_on,
        Departure::CopyData => profile.copy_data = is_on,
        Departure::Denied => profile.denied = is_on,
        Departure::Full => profile.full = is_on,
    }
    profile
}
