//! Why files are not those of a set.

use sftp_orders::OrderError;
use sftp_sets::SessionError;
use sftp_times::TimesError;

/// Why the files of a session are not those of a further session of a set.
#[derive(Clone, Copy, Debug, PartialEq, Eq)]
pub enum MemberError {
    /// The file of times has this first fault, or memory ran out.
    Times(TimesError),
    /// The times are on another clock than those of the sessions before.
    OtherClock,
    /// The transcript, or what the times have for its records, has this first fault.
    Session(SessionError),
}

/// Why a file is not an order of the sessions of a set.
#[derive(Clone, Copy, Debug, PartialEq, Eq)]
pub enum PlacesError {
    /// The file has this first fault, or memory ran out.
    Order(OrderError),
    /// The order is one of other sessions.
    OtherSessions,
}
