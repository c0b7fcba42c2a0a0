//! The verdict on a set.
ghost use Rattle.std.specs.Prelude.{◌≡◌, ℕ, List, Some, IfOk, IfErr, map};
ghost use Rattle.sftp_tree.specs.Picture.{IsStart};
ghost use Rattle.sftp_together.specs.Checks.{IsNoJudgement};
ghost use Rattle.sftp_gathering.specs.Files.{SessionFiles, SetFiles, HasPlaces, name_of};
ghost use Rattle.sftp_gathering.specs.Gathered.{IsGathered, IsPlacesFault};
ghost use Rattle.sftp_overlapping.specs.Sets.{AreMembers, AreFiles, IsJudged, IsUnreadOrder};
ghost use Rattle.sftp_overlapping.specs.Sets.{IsExplainedAsked, IsExplainedByPlaces, IsOrderRight};

use crate::gathering::gather;
use crate::members::{Given, Member};
use crate::rejections::{Cause, Rejection};
use crate::reports::{of_order, of_other_sessions};
use sftp_files::Failure;
use sftp_gathering::{Gathering, PlacesError, read_places};
use sftp_handles::{GivenTable, Session};
use sftp_orders::OrderError;
use sftp_profile::{Judge, Profile};
use sftp_together::OrderFault;
use sftp_tree::Tree;
use sftp_verdicts::Opens;
use std::alloc::{AllocError, Global};

/// What came of a set that is accepted.
#[derive(Drop)]
pub(crate) struct Accepted {
    /// The tree at the end, as if what is still open were closed then.
    pub(crate) tree: Tree,
    /// How many requests the order has.
    pub(crate) requests: usize,
}

/// How a set is judged.
#[derive(Clone, Copy)]
pub(crate) struct Rules {
    /// Which departures from the strict reading are accepted; none where the sessions are judged strictly.
    pub(crate) profile: Option<Profile>,
    /// How many nanoseconds times may be apart from what they say.
    pub(crate) tolerance: u64,
}

/// Judges a set of sessions by its order. The order is read first, then the files of each session, and then the tree
/// file.
///
/// # Errors
///
/// Why the set is refused, or the first file that cannot be read or is malformed; or memory ran out.
pub(crate) fn judge_files<'a, T: Opens<'a>>(
    alloc: Global,
    rules: Rules,
    tree: &Given<'a, T>,
    order: &Given<'a, T>,
    members: &[Member<'a, T>],
) -> Result<Accepted, Rejection<'a>>
    ensures accepted { IfOk result (λ accepted. (files : SetFiles) →
        AreFiles T.bytes tree.now.file order.now.file members.now files →
        IsExplainedAsked rules.profile rules.tolerance files.tree files.each accepted.tree) }
    ensures refused { IfErr result (λ rejection. IsJudged rejection → (files : SetFiles) →
        AreFiles T.bytes tree.now.file order.now.file members.now files →
        IsOrderRight rules.profile rules.tolerance files → ⊥) }
{
    let places = places_of(alloc, order, members)?;
    let judged = judge_members(alloc, rules, tree, members, places.as_slice());
    let requests = places.len();
    drop(places);
    match judged {
        Ok(tree) => Ok(Accepted { tree, requests }),
        Err(rejection) => Err(rejection),
    }
}

/// The places of the order of these sessions.
fn places_of<'a, T: Opens<'a>>(
    alloc: Global,
    order: &Given<'a, T>,
    members: &[Member<'a, T>],
) -> Result<Vec<u16>, Rejection<'a>>
    ensures read { IfOk result (λ places. (known : List ℕ) (each : List SessionFiles) →
        T.bytes order.now.file ≡ Some known → AreMembers T.bytes members.now each →
        HasPlaces known (map name_of each) places.items) }
    ensures refused { IfErr result (λ rejection. IsJudged rejection → (known : List ℕ) (each : List SessionFiles) →
        T.bytes order.now.file ≡ Some known → AreMembers T.bytes members.now each →
        (places : List ℕ) → HasPlaces known (map name_of each) places → ⊥) }
{
    let bytes = order.bytes(alloc)?;
    let read = read_named(alloc, bytes.as_slice(), members);
    drop(bytes);
    match read {
        Ok(places) => Ok(places),
        Err(error) => Err(rejection_of_places(alloc, order.path, error)),
    }
}

/// Why the order of this name is not one of the sessions.
fn rejection_of_places<'a>(alloc: Global, order: &str, error: PlacesError) -> Rejection<'a>
    ensures { IsJudged result → IsUnreadOrder error → ⊥ }
{
    match error {
        PlacesError::Order(OrderError::NoMemory) => Rejection::Failed(Failure::OutOfMemory),
        PlacesError::Order(fault) => Rejection::Failed(of_order(alloc, order, fault)),
        PlacesError::OtherSessions => Rejection::Failed(of_other_sessions(alloc, order)),
    }
}

/// The places of the order of these sessions, which has these bytes.
fn read_named<'a, T>(
    alloc: Global,
    bytes: &[u8],
    members: &[Member<'a, T>],
) -> Result<Vec<u16>, PlacesError>
    ensures read { IfOk result
        (λ places. HasPlaces bytes.now (map (λ member. member.name.now) members.now) places.items) }
    ensures refused { IfErr result (IsPlacesFault bytes.now (map (λ member. member.name.now) members.now)) }
{
    match names_of(alloc, members) {
        Ok(names) => {
            let read = read_places(alloc, bytes, names.as_slice());
            drop(names);
            read
        }
        Err(_no_memory) => Err(PlacesError::Order(OrderError::NoMemory)),
    }
}

/// The names of these sessions.
fn names_of<'m, 'a, T>(
    alloc: Global,
    members: &'m [Member<'a, T>],
) -> Result<Vec<&'m [u8]>, AllocError>
    ensures { IfOk result (λ names. map (λ name. name.now) names.items
        ≡ map (λ member. member.name.now) members.now) }
{
    let mut names = Vec::new(alloc);
    'members: for member in members {
        names.push(member.name.as_bytes())?;
    }
    Ok(names)
}

/// Judges the sessions of these files by an order with these places.
fn judge_members<'a, T: Opens<'a>>(
    alloc: Global,
    rules: Rules,
    tree: &Given<'a, T>,
    members: &[Member<'a, T>],
    places: &[u16],
) -> Result<Tree, Rejection<'a>>
    ensures accepted { IfOk result (λ end. (each : List SessionFiles) → AreMembers T.bytes members.now each →
        (known : List ℕ) → T.bytes tree.now.file ≡ Some known →
        IsExplainedAsked rules.profile rules.tolerance known each end) }
    ensures refused { IfErr result (λ rejection. IsJudged rejection → (each : List SessionFiles) →
        AreMembers T.bytes members.now each → (known : List ℕ) → T.bytes tree.now.file ≡ Some known →
        IsExplainedByPlaces rules.profile rules.tolerance known each places.now → ⊥) }
{
    match gather(alloc, members) {
        Ok(set) => judge_gathered(alloc, rules, tree, set, places),
        Err(rejection) => Err(rejection),
    }
}

/// Judges sessions that were gathered, from the tree of this file.
fn judge_gathered<'a, T: Opens<'a>>(
    alloc: Global,
    rules: Rules,
    tree: &Given<'a, T>,
    set: Gathering,
    places: &[u16],
) -> Result<Tree, Rejection<'a>>
    ensures accepted { IfOk result (λ end. (each : List SessionFiles) → IsGathered each set → (known : List ℕ) →
        T.bytes tree.now.file ≡ Some known → IsExplainedAsked rules.profile rules.tolerance known each end) }
    ensures refused { IfErr result (λ rejection. IsJudged rejection → (each : List SessionFiles) →
        IsGathered each set → (known : List ℕ) → T.bytes tree.now.file ≡ Some known →
        IsExplainedByPlaces rules.profile rules.tolerance known each places.now → ⊥) }
{
    let start = tree.tree(alloc)?;
    match judge_asked(rules, start, set, places) {
        Ok(end) => Ok(end),
        Err(fault) => Err(rejection_of_fault(fault)),
    }
}

/// Why a set is not accepted by an order with this fault. Sessions that are in memory are read.
fn rejection_of_fault<'a>(fault: OrderFault) -> Rejection<'a>
    ensures { IsJudged result → IsNoJudgement fault → ⊥ }
{
    match fault {
        OrderFault::NoMemory => Rejection::Failed(Failure::OutOfMemory),
        OrderFault::Unread { .. } => Rejection::Failed(Failure::OutOfMemory),
        fault => Rejection::Refused(Cause::Order(fault)),
    }
}

/// Judges sessions that were gathered, strictly or by a profile.
fn judge_asked(
    rules: Rules,
    start: Tree,
    set: Gathering,
    places: &[u16],
) -> Result<Tree, OrderFault>
    ensures accepted { IfOk result (λ end. (each : List SessionFiles) → IsGathered each set → (known : List ℕ) →
        IsStart start known → IsExplainedAsked rules.profile rules.tolerance known each end) }
    ensures refused { IfErr result (λ fault. (IsNoJudgement fault → ⊥) → (each : List SessionFiles) →
        IsGathered each set → (known : List ℕ) → IsStart start known →
        IsExplainedByPlaces rules.profile rules.tolerance known each places.now → ⊥) }
{
    let tolerance = rules.tolerance;
    match rules.profile {
        None => set.judge::<Session<GivenTable>>((), start, places, tolerance),
        Some(profile) => set.judge::<Judge>(profile, start, places, tolerance),
    }
}
