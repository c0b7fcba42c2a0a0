//! Where the paths of a request lead, and which causes hold then.
ghost use Rattle.std.specs.Prelude.{◌≡◌, ◌⊎◌, Some, Err, IfOk, IfErr, IfSome, IsTrue};
ghost use Rattle.sftp_path.specs.Place.{parent};
ghost use Rattle.sftp_tree.specs.declared.causes.Cause.{Cause as cause};
ghost use Rattle.sftp_tree.specs.Tree as tree;
ghost use Rattle.sftp_tree.specs.Requests as requests;
ghost use Rattle.sftp_tree.specs.Requests.{asked, has_room_for};
ghost use Rattle.sftp_tree.specs.Told.{in_set, IsFree, IsRefusal};
ghost use Rattle.sftp_tree.specs.Plans.{placed, new_placed, EndIsThere, NewEndIsThere};
ghost use Rattle.sftp_tree.specs.Plans as spec;

use crate::asks::{PathAsk, path_ask};
use crate::causes::{Cause, Causes, Refused};
use crate::found::Found;
use crate::trees::Tree;
use sftp_packets::Ask;
use sftp_path::{NoMemory, Place};

/// Where the paths of a request lead, or why they lead nowhere. `new` is of the second path, if there is one.
#[derive(Drop)]
pub(crate) struct Ends<'a> {
    old: Result<Found<'a>, Cause>,
    new: Option<Result<Found<'a>, Cause>>,
}

/// The places that the paths of a request lead to.
#[derive(Drop)]
pub(crate) struct Places<'a> {
    pub(crate) old: Found<'a>,
    pub(crate) new: Option<Found<'a>>,
}

impl<'a> Ends<'a> {
    /// The places. If both paths lead nowhere, `BadPath` is returned first, and else the cause of the first path.
    #[inline(always)]
    fn places(self) -> Result<Places<'a>, Cause>
        ensures led { IfOk result (λ places. spec.AreLed self.entry.old self.entry.new places) }
        ensures lost { IfErr result (λ cause. (self.entry.old ≡ Err cause) ⊎ (self.entry.new ≡ Some (Err cause))) }
    {
        match (self.old, self.new) {
            (Err(Cause::BadPath), _) => Err(Cause::BadPath),
            (_, Some(Err(Cause::BadPath))) => Err(Cause::BadPath),
            (Err(cause), _) => Err(cause),
            (Ok(_), Some(Err(cause))) => Err(cause),
            (Ok(old), Some(Ok(new))) => Ok(Places {
                old,
                new: Some(new),
            }),
            (Ok(old), None) => Ok(Places { old, new: None }),
        }
    }
}

impl Tree {
    /// Every cause that holds of a request that is judged by its paths. A request on a handle, and one that is not
    /// judged yet, has none.
    ///
    /// # Errors
    ///
    /// `NoMemory` if memory runs out.
    pub fn causes(&self, ask: &Ask) -> Result<Causes, NoMemory>
        ensures { IfOk result (λ set. (c : cause) → in_set set c ≡ requests.causes self.now ask.now c) }
    {
        let home = self.home();
        match path_ask(ask) {
            Some(ask) => {
                let ends = self.ends(home, ask)?;
                Ok(self.judge(ask, &ends))
            }
            None => Ok(Causes::none()),
        }
    }

    /// The places that the paths of a request lead to, if no cause refuses it.
    ///
    /// # Errors
    ///
    /// `Cause` with the first cause that holds: of the request's own bytes, then of the walks, then in the order of the
    /// table. `NoMemory` if memory runs out.
    #[inline(always)]
    pub(crate) fn free_places<'a>(&'a self, ask: PathAsk<'a>) -> Result<Places<'a>, Refused>
        ensures free { IfOk result (λ places. IsFree self.now (asked ask.entry)) }
        ensures led { IfOk result (λ places. spec.LeadTo self.now (asked ask.entry) places) }
        ensures well { IfOk result (λ places. spec.AreWell self.now places) }
        ensures refused { IfErr result (λ refused. IsRefusal self.now (asked ask.entry) refused) }
    {
        ask.own_causes().refuse()?;
        let ends = self.ends(self.home(), ask)?;
        let causes = self.judge(ask, &ends);
        let places = ends.places()?;
        causes.refuse()?;
        Ok(places)
    }

    /// Where the paths of a request lead.
    ///
    /// # Errors
    ///
    /// `NoMemory` if memory runs out.
    #[inline(always)]
    fn ends<'a>(&'a self, home: &'a Place, ask: PathAsk<'a>) -> Result<Ends<'a>, NoMemory>
        requires { home.now ≡ self.now.home }
        ensures old { IfOk result (λ ends. requests.led self.now (asked ask.entry) ≡ Some (placed ends.old)) }
        ensures new { IfOk result (λ ends. requests.new_led self.now (asked ask.entry) ≡ new_placed ends.new) }
        ensures well { IfOk result (λ ends. spec.EndsAreWell self.now ends.old ends.new) }
    {
        let old = self.reach(home, ask.follows(), ask.path())?;
        let new = match ask.new_path() {
            Some(path) => Some(self.reach(home, false, path)?),
            None => None,
        };
        Ok(Ends { old, new })
    }

    /// The causes of a request by where its paths lead.
    #[inline(always)]
    fn judge(&self, ask: PathAsk<'_>, ends: &Ends<'_>) -> Causes
        requires old { requests.led self.now (asked ask) ≡ Some (placed ends.now.old) }
        requires new { requests.new_led self.now (asked ask) ≡ new_placed ends.now.new }
        requires well { spec.EndsAreWell self.now ends.now.old ends.now.new }
        ensures { in_set result ≡ requests.causes self.now (asked ask.entry) }
    {
        let plain = self.plain_causes(ask, ends);
        let lacks = !plain.has_any() && !self.has_room_for(ask, ends);
        plain.when(Cause::NoRoom, lacks)
    }

    /// The causes other than `NoRoom`.
    fn plain_causes(&self, ask: PathAsk<'_>, ends: &Ends<'_>) -> Causes
        requires old { EndIsThere self.now.names ends.now.old }
        requires new { NewEndIsThere self.now.names ends.now.new }
        ensures { in_set result
            ≡ requests.plain_of self.now (asked ask.entry) (Some (placed ends.now.old)) (new_placed ends.now.new) }
    {
        let here = self.led_causes(ask, &ends.old);
        let there = self.new_led_causes(ask, &ends.new);
        let between = self.both_causes(ask, ends);
        ask.own_causes().union(here).union(there).union(between)
    }

    /// The causes of the path, or of the first of two.
    fn led_causes(&self, ask: PathAsk<'_>, end: &Result<Found<'_>, Cause>) -> Causes
        requires { EndIsThere self.now.names end.now }
        ensures { in_set result
            ≡ requests.led_causes (Some (placed end.now)) (requests.causes_at self.now (asked ask.entry)) }
    {
        match end {
            Ok(found) => self.causes_at(ask, found),
            Err(cause) => Causes::none().when(*cause, true),
        }
    }

    /// The causes of the second path.
    fn new_led_causes(&self, ask: PathAsk<'_>, end: &Option<Result<Found<'_>, Cause>>) -> Causes
        requires { NewEndIsThere self.now.names end.now }
        ensures { in_set result
            ≡ requests.led_causes (new_placed end.now) (requests.new_causes_at self.now (asked ask.entry)) }
    {
        match end {
            Some(Ok(found)) => self.new_causes_at(ask, found),
            Some(Err(cause)) => Causes::none().when(*cause, true),
            None => Causes::none(),
        }
    }

    /// The causes of two places, if each path leads to one.
    fn both_causes(&self, ask: PathAsk<'_>, ends: &Ends<'_>) -> Causes
        requires old { EndIsThere self.now.names ends.now.old }
        requires new { NewEndIsThere self.now.names ends.now.new }
        ensures { in_set result
            ≡ requests.both_causes (Some (placed ends.now.old)) (new_placed ends.now.new)
            (requests.causes_between self.now (asked ask.entry)) }
    {
        match (&ends.old, &ends.new) {
            (Ok(old), Some(Ok(new))) => self.causes_between(ask, old, new),
            (Ok(_), Some(Err(_))) => Causes::none(),
            (Ok(_), None) => Causes::none(),
            (Err(_), _) => Causes::none(),
        }
    }

    /// Whether what a request asks for keeps to the limits.
    fn has_room_for(&self, ask: PathAsk<'_>, ends: &Ends<'_>) -> bool
        requires { spec.EndsAreWell self.now ends.now.old ends.now.new }
        ensures { result
            ≡ has_room_for self.now (asked ask.entry) (placed ends.now.old) (new_placed ends.now.new) }
    {
        match (&ends.old, &ends.new) {
            (Ok(found), None) => self.has_room_at(ask, found),
            (Ok(old), Some(Ok(new))) => self.has_room_between(ask, old, new),
            (Ok(_), Some(Err(_))) => true,
            (Err(_), _) => true,
        }
    }
}
