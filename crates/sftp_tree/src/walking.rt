//! Where paths lead (draft, section 6.2).
ghost use Rattle.std.specs.Prelude.{◌≡◌, ◌≤◌, [], if◌then◌else◌, Ok, IfOk, IfErr, MatchResult, IsTrue};
ghost use Rattle.std.specs.List.{list_all};
ghost use Rattle.sftp_path.specs.Place.{is_step};
ghost use Rattle.sftp_tree.specs.Tree as tree;
ghost use Rattle.sftp_tree.specs.Walk as walks;
ghost use Rattle.sftp_tree.specs.WalkRules.{looked_of, HasCounted, IsLost};
ghost use Rattle.sftp_tree.specs.Plans.{placed, IsFoundIn};

use crate::causes::{Cause, Refused};
use crate::entries::trail::Trail;
use crate::found::Found;
use crate::route::Route;
use crate::stepping::{Met, meet};
use crate::ticks::Ticks;
use crate::trees::Tree;
use sftp_path::{Name, NoMemory, Parts, Place, components};

/// The most links that one walk follows. The limit is this profile's own.
const LINK_LIMIT: usize = 40;

/// Goes from a link to where its target starts: to the root if the target is absolute.
fn go_to_start(trail: &mut Trail<'_>, target: &Parts<'_>)
    ensures { trail.new ≡ record trail.old { at = if target.now.absolute then [] else trail.old.at } }
{
    if target.absolute {
        trail.go_to_root();
    }
}

impl Tree {
    /// The names of the place to which a path leads. A path that is not absolute follows the home's components; a last
    /// link is followed if `follow` says so. `ticks` counts from 0 the components that the walk looks at, 84,032 at
    /// most.
    ///
    /// # Errors
    ///
    /// `Cause` if the path leads nowhere: `BadPath`, `NoEntry`, `NotDir` or `Loop`. `NoMemory` if memory runs out.
    pub fn walk(&self, path: &[u8], follow: bool, ticks: &mut Ticks) -> Result<Vec<Name>, Refused>
        requires { ticks.old ≡ 0 }
        ensures place { IfOk result (λ names. walks.reached self.now follow path.now ≡ Ok names.items) }
        ensures refused { IfErr result (λ refused. IsLost (walks.reached self.now follow path.now) refused) }
        ensures counted { HasCounted result ticks.new (looked_of self.now follow path.now) }
        ensures few { ticks.new ≤ walks.looked_limit }
    {
        match self.follow_path(self.home(), follow, path, ticks)? {
            Ok(found) => Ok(found.place.into_names()),
            Err(cause) => Err(Refused::Cause(cause)),
        }
    }

    /// Where a path leads, and the node there, or why it leads nowhere. A path that is not absolute follows the home's
    /// components; a last link is followed if `follow` says so.
    ///
    /// # Errors
    ///
    /// `NoMemory` if memory runs out.
    #[inline(always)]
    pub(crate) fn reach<'a>(
        &'a self,
        home: &'a Place,
        follow: bool,
        path: &'a [u8],
    ) -> Result<Result<Found<'a>, Cause>, NoMemory>
        requires { home.now ≡ self.now.home }
        ensures reached { IfOk result (λ reached. placed reached ≡ walks.reached self.now follow path.now) }
        ensures found { IfOk result (λ reached. IfOk reached (IsFoundIn self.now)) }
    {
        let mut ticks = Ticks::new();
        self.follow_path(home, follow, path, &mut ticks)
    }

    /// Where a path leads, as `reach` does, and how many components are looked at.
    ///
    /// # Errors
    ///
    /// `NoMemory` if memory runs out.
    fn follow_path<'a>(
        &'a self,
        home: &'a Place,
        follow: bool,
        path: &'a [u8],
        ticks: &mut Ticks,
    ) -> Result<Result<Found<'a>, Cause>, NoMemory>
        requires home { home.now ≡ self.now.home }
        requires uncounted { ticks.old ≡ 0 }
        ensures reached { IfOk result (λ reached. placed reached ≡ walks.reached self.now follow path.now) }
        ensures found { IfOk result (λ reached. IfOk reached (IsFoundIn self.now)) }
        ensures counted { MatchResult result (λ reached. ticks.new ≡ looked_of self.now follow path.now)
            (λ e. ticks.new ≤ looked_of self.now follow path.now) }
        ensures few { ticks.new ≤ walks.looked_limit }
    {
        let Ok(parts) = components(path) else {
            return Ok(Err(Cause::BadPath));
        };
        let names = if parts.absolute { &[] } else { home.names() };
        let mut route = Route::new(home.allocator(), names, parts);
        let reached = self.follow_route(follow, &mut route, ticks);
        drop(route);
        reached
    }

    /// The place to which a route leads from the root, and the node there, or why it leads nowhere.
    ///
    /// # Errors
    ///
    /// `NoMemory` if memory runs out.
    // Slow to prove: the trail, which the place at the end is taken from, is dropped at each of six exits.
    fn follow_route<'a>(
        &'a self,
        follow: bool,
        route: &mut Route<'a>,
        ticks: &mut Ticks,
    ) -> Result<Result<Found<'a>, Cause>, NoMemory>
        requires steps { IsTrue (list_all is_step route.old) }
        requires uncounted { ticks.old ≡ 0 }
        requires few { tree.IsKept self.now →
            walks.looked self.now.names follow walks.link_limit [] route.old ≤ walks.looked_limit }
        ensures reached { IfOk result
            (λ reached. placed reached ≡ walks.walk self.now.names follow walks.link_limit [] route.old) }
        ensures found { IfOk result (λ reached. IfOk reached (IsFoundIn self.now)) }
        ensures counted { MatchResult result
            (λ reached. ticks.new ≡ walks.looked self.now.names follow walks.link_limit [] route.old)
            (λ e. ticks.new ≤ walks.looked self.now.names follow walks.link_limit [] route.old) }
        ensures kept { tree.IsKept self.now }
    {
        let names = self.names();
        let mut trail = Trail::new(self.home().allocator(), names.root_directory());
        let mut links_left = LINK_LIMIT;
        while let Some(component) = route.next_component() {
            ticks.add();
            match meet(&mut trail, component, route.is_done(), follow)? {
                Met::Enters => {}
                Met::Ends(name, node) => {
                    let mut place = trail.into_place();
                    place.enter(name)?;
                    return Ok(Ok(Found { place, node }));
                }
                Met::Fails(cause) => return Ok(Err(cause)),
                Met::Through(_) if links_left == 0 => return Ok(Err(Cause::Loop)),
                Met::Through(target) => {
                    links_left -= 1;
                    let target = Parts::new(target);
                    go_to_start(&mut trail, &target);
                    route.go_through(target)?;
                }
            }
        }
        Ok(Ok(Found::here(trail)))
    }
}
