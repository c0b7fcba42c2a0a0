//! Laws of sessions, as theorems on the definitions that the auditor's contract names. The functions do nothing; each
//! promise is in the contract.
ghost use Rattle.std.specs.Prelude.{◌≡◌, ◌≢◌, ◌⊎◌, ℕ, List};
ghost use Rattle.sftp_transcript.specs.declared.events.Event.{Event};
ghost use Rattle.sftp_tree.specs.Tree.{Tree};
ghost use Rattle.sftp_tree.specs.Picture.{IsStart};
ghost use Rattle.sftp_handles.specs.State.{State};
ghost use Rattle.sftp_handles.specs.Allowed.{Allowed};
ghost use Rattle.sftp_transcript.specs.Explained.{Explained, exchanges_of};
ghost use Rattle.sftp_transcript.specs.Sound.{Sound, IsWaiting};
ghost use Rattle.sftp_audit.specs.declared.errors.AuditError.{AuditError};
ghost use Rattle.sftp_audit.specs.declared.errors.AuditError.TheVariants as audit_errors;
ghost use Rattle.sftp_audit.specs.declared.errors.Refusal.{Refusal};
ghost use Rattle.sftp_audit.specs.declared.errors.Refusal.TheVariants.{NoMemory};
ghost use Rattle.sftp_audit.specs.Auditor.{Refuses};
ghost use Rattle.sftp_audit.specs.Audit.{Accounts, AccountsBy, IsFirstFault, IsFirstFaultBy};
ghost use Rattle.sftp_audit.specs.Audit.{IsTreeError, IsPlain};
ghost use Rattle.sftp_audit.specs.Cuts.{AccountsCutBy, unanswered_count, unsettled_count};
ghost use Rattle.sftp_audit.specs.Exchanges.{recorded_exchanges, ledger_of};
ghost use Rattle.sftp_audit.specs.Trees.{AccountsFrom, AccountsCutFrom, IsFirstFaultFrom};

use sftp_judges::Judges;

/// A start and the events of a session fix the end, since each reply fixes the state after it.
pub fn one_end()
    ensures { (s : State) (events : List Event) (a b : State) →
        Explained Allowed s events a → Explained Allowed s events b → a ≡ b }
{}

/// The same by any judge.
pub fn one_end_by<J: Judges>()
    ensures { (s : J) (events : List Event) (a b : J) →
        Explained J.allowed s events a → Explained J.allowed s events b → a ≡ b }
{}

/// Bytes account for one run at most: two that account for the same bytes have the same start, the same events and the
/// same end. So the tree that `audit` returns is the end of every run that its bytes account for.
pub fn one_account()
    ensures start { (tree transcript : List ℕ) (s u : Tree) (events others : List Event) (a b : Tree) →
        Accounts tree transcript s events a → Accounts tree transcript u others b → s ≡ u }
    ensures events { (tree transcript : List ℕ) (s u : Tree) (events others : List Event) (a b : Tree) →
        Accounts tree transcript s events a → Accounts tree transcript u others b → events ≡ others }
    ensures end { (tree transcript : List ℕ) (s u : Tree) (events others : List Event) (a b : Tree) →
        Accounts tree transcript s events a → Accounts tree transcript u others b → a ≡ b }
{}

/// The same by any judge.
pub fn one_account_by<J: Judges>()
    ensures start { (by : J.By) (tree transcript : List ℕ) (s u : Tree) (events others : List Event) (a b : Tree) →
        AccountsBy J.allowed (J.begun by) J.closed tree transcript s events a →
        AccountsBy J.allowed (J.begun by) J.closed tree transcript u others b → s ≡ u }
    ensures events { (by : J.By) (tree transcript : List ℕ) (s u : Tree) (events others : List Event) (a b : Tree) →
        AccountsBy J.allowed (J.begun by) J.closed tree transcript s events a →
        AccountsBy J.allowed (J.begun by) J.closed tree transcript u others b → events ≡ others }
    ensures end { (by : J.By) (tree transcript : List ℕ) (s u : Tree) (events others : List Event) (a b : Tree) →
        AccountsBy J.allowed (J.begun by) J.closed tree transcript s events a →
        AccountsBy J.allowed (J.begun by) J.closed tree transcript u others b → a ≡ b }
{}

/// The two readings of "the next reply of its id" are one: what the auditor keeps of a session is, without the numbers
/// of records, the exchanges that its run goes over.
pub fn exchanges_are_recorded()
    ensures { (events : List Event) → ledger_of (recorded_exchanges events) ≡ exchanges_of events }
{}

/// A session is explained exactly if its events are sound and each request is answered.
pub fn explained_when_none_waits()
    ensures sound { (start : State) (events : List Event) (end : State) →
        Explained Allowed start events end → Sound Allowed start events end }
    ensures answered { (start : State) (events : List Event) (end : State) →
        Explained Allowed start events end → (id : ℕ) → IsWaiting events id → ⊥ }
    ensures explained { (start : State) (events : List Event) (end : State) →
        Sound Allowed start events end → ((id : ℕ) → IsWaiting events id → ⊥) →
        Explained Allowed start events end }
{}

/// By any judge, an audit of complete sessions accounts for a run exactly if one of cut sessions does and each request
/// has its reply. So `audit_cut_stream` accepts a session in which nothing is unanswered exactly if `audit_stream`
/// does, with the same end. Where nothing is unanswered, nothing is left unsettled.
pub fn complete_if_none_is_unanswered<J: Judges>()
    ensures cut { (by : J.By) (tree transcript : List ℕ) (start : Tree) (events : List Event) (end : Tree) →
        AccountsBy J.allowed (J.begun by) J.closed tree transcript start events end →
        AccountsCutBy J.allowed (J.begun by) J.closed tree transcript start events end }
    ensures answered { (by : J.By) (tree transcript : List ℕ) (start : Tree) (events : List Event) (end : Tree) →
        AccountsBy J.allowed (J.begun by) J.closed tree transcript start events end →
        unanswered_count (recorded_exchanges events) ≡ 0 }
    ensures complete { (by : J.By) (tree transcript : List ℕ) (start : Tree) (events : List Event) (end : Tree) →
        AccountsCutBy J.allowed (J.begun by) J.closed tree transcript start events end →
        unanswered_count (recorded_exchanges events) ≡ 0 →
        AccountsBy J.allowed (J.begun by) J.closed tree transcript start events end }
    ensures judged { (events : List Event) → unanswered_count (recorded_exchanges events) ≡ 0 →
        unsettled_count events ≡ 0 }
{}

/// By any judge, a tree file and a transcript account for a run exactly if the tree file is that of the run's start,
/// and the transcript accounts for the run from there. So what `audit_tree_by` and `audit_cut_tree_by` say of a tree,
/// they say of each tree file of it.
pub fn accounts_are_from_starts<J: Judges>()
    ensures from { (by : J.By) (tree transcript : List ℕ) (start : Tree) (events : List Event) (end : Tree) →
        AccountsBy J.allowed (J.begun by) J.closed tree transcript start events end →
        IsStart start tree × AccountsFrom J.allowed J.closed (J.begun by start) transcript events end }
    ensures accounts { (by : J.By) (tree transcript : List ℕ) (start : Tree) (events : List Event) (end : Tree) →
        IsStart start tree → AccountsFrom J.allowed J.closed (J.begun by start) transcript events end →
        AccountsBy J.allowed (J.begun by) J.closed tree transcript start events end }
    ensures cut_from { (by : J.By) (tree transcript : List ℕ) (start : Tree) (events : List Event) (end : Tree) →
        AccountsCutBy J.allowed (J.begun by) J.closed tree transcript start events end →
        IsStart start tree × AccountsCutFrom J.allowed J.closed (J.begun by start) transcript events end }
    ensures cut { (by : J.By) (tree transcript : List ℕ) (start : Tree) (events : List Event) (end : Tree) →
        IsStart start tree → AccountsCutFrom J.allowed J.closed (J.begun by start) transcript events end →
        AccountsCutBy J.allowed (J.begun by) J.closed tree transcript start events end }
    // The same of what is met first.
    ensures first_from { (by : J.By) (tree transcript : List ℕ) (start : Tree) (e : AuditError) → IsStart start tree →
        IsFirstFaultBy J.allowed (J.begun by) tree transcript e →
        IsFirstFaultFrom J.allowed (J.begun by start) transcript e }
    ensures first { (by : J.By) (tree transcript : List ℕ) (start : Tree) (e : AuditError) → IsStart start tree →
        IsFirstFaultFrom J.allowed (J.begun by start) transcript e →
        IsFirstFaultBy J.allowed (J.begun by) tree transcript e }
{}

/// By any judge, an event is refused for one reason at most after given events, unless memory runs out.
pub fn one_refusal<J: Judges>()
    ensures { (start : J) (events : List Event) (event : Event) (a b : Refusal) →
        Refuses J.allowed start events event a → Refuses J.allowed start events event b →
        a ≢ NoMemory → b ≢ NoMemory → a ≡ b }
{}

/// An audit of given bytes has one first fault at most, unless memory runs out. Where the bytes are no tree file, it is
/// `Tree`, and the law does not say with which fault.
pub fn one_first_fault()
    ensures { (tree transcript : List ℕ) (a b : AuditError) →
        IsFirstFault tree transcript a → IsFirstFault tree transcript b → IsPlain a → IsPlain b →
        a ≢ audit_errors.NoMemory → b ≢ audit_errors.NoMemory → (IsTreeError a × IsTreeError b) ⊎ (a ≡ b) }
{}

/// The same by any judge.
pub fn one_first_fault_by<J: Judges>()
    ensures { (by : J.By) (tree transcript : List ℕ) (a b : AuditError) →
        IsFirstFaultBy J.allowed (J.begun by) tree transcript a →
        IsFirstFaultBy J.allowed (J.begun by) tree transcript b → IsPlain a → IsPlain b →
        a ≢ audit_errors.NoMemory → b ≢ audit_errors.NoMemory → (IsTreeError a × IsTreeError b) ⊎ (a ≡ b) }
{}
