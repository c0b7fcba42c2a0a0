//! The sessions of a set, as they are read: the next request of each, with its reply.
ghost use Rattle.std.specs.Prelude.{◌≡◌, ◌≤◌, List, length, IfOk};
ghost use Rattle.sftp_together.specs.declared.exchanges.TimedExchange.{TimedExchange};
ghost use Rattle.sftp_together.specs.Checks.{Takes};

use crate::exchanges::TimedExchange as Exchange;

/// A session could not be read; who reads it knows why.
#[derive(Clone, Copy, Debug, PartialEq, Eq)]
pub struct Unread;

/// Sessions whose requests are read one by one, each with its reply.
pub trait Sessions {
    /// What each session has left.
    ghost ahead: { Self → List (List TimedExchange) };

    /// How many sessions there are.
    fn count(&self) -> usize
        ensures { result ≡ length (ahead self.now) };

    /// The next request of the session of a number; `None` if it has none left, or if there is no session of that
    /// number.
    ///
    /// # Errors
    ///
    /// `Unread` if the session could not be read. The sessions are then not read on.
    fn next_of(&mut self, session: usize) -> Result<Option<Exchange>, Unread>
        ensures { IfOk result (λ given. Takes session (ahead self.old) given (ahead self.new)) };
}
