//! Laws of the strict reading beside the profiles, as theorems on the definitions that the contracts name. The
//! functions do nothing; each promise is in the contract.
ghost use Rattle.std.specs.Prelude.{◌↔◌, ℕ, List, IsTrue};
ghost use Rattle.sftp_tree.specs.Tree.{Tree};
ghost use Rattle.sftp_transcript.specs.declared.events.Event.{Event};
ghost use Rattle.sftp_profile.specs.declared.profiles.Profile.{Profile};
ghost use Rattle.sftp_profile.specs.Profiles.{strict, keeps_requests, is_stateless};
ghost use Rattle.sftp_audit.specs.declared.errors.AuditError.{AuditError};
ghost use Rattle.sftp_audit.specs.Audit.{Accounts, IsFirstFault};
ghost use Rattle.sftp_tests.specs.Audited.{AccountsUnder, IsFirstFaultUnder};

/// Under the strict profile bytes account for what they account for strictly, and for no more.
pub fn strict_accounts()
    ensures { (tree transcript : List ℕ) (start : Tree) (events : List Event) (end : Tree) →
        AccountsUnder strict tree transcript start events end ↔ Accounts tree transcript start events end }
{}

/// Under the strict profile an audit meets first what it meets first strictly.
pub fn strict_first_faults()
    ensures { (tree transcript : List ℕ) (error : AuditError) →
        IsFirstFaultUnder strict tree transcript error ↔ IsFirstFault tree transcript error }
{}

/// What bytes account for strictly, they account for under each profile that replaces no request and has no use for the
/// directories that are open, with the same end.
pub fn strict_accounts_stay()
    ensures { (profile : Profile) (tree transcript : List ℕ) (start : Tree) (events : List Event) (end : Tree) →
        IsTrue (keeps_requests profile) → IsTrue (is_stateless profile) →
        Accounts tree transcript start events end →
        AccountsUnder profile tree transcript start events end }
{}
