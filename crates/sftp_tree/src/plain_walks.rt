//! Walks of plain paths (draft, section 6.2): absolute ones that go down over directories alone, and not over `.`, `..`
//! or a link that is followed. Most paths are plain, and where no place is asked for, their walk keeps none.
ghost use Rattle.std.specs.Prelude.{◌≡◌, [], ◌∷◌, IfOk, IfSome, IsTrue, MatchOption, option_copied};
ghost use Rattle.std.specs.List.{list_all};
ghost use Rattle.sftp_path.specs.Place.{Place, is_name, is_step};
ghost use Rattle.sftp_tree.specs.Nesting.{branch_of, IsBranch};
ghost use Rattle.sftp_tree.specs.Plans.{GoesDown, LeadsDown};
ghost use Rattle.sftp_tree.specs.Tree as tree;

use crate::entries::directories::{Child, Dir};
use crate::entries::seen::Seen;
use crate::trees::Tree;
use sftp_path::{Name, NoMemory, Parts, components, is_dot, is_dot_dot};
use std::alloc::Global;

/// How many bytes of memory the names of a path take, unless one is longer.
const NAME_BYTES: usize = 24;

/// The child of a directory at a component that is a name. The name takes the memory of `scratch`, where that is
/// enough, and gives it back.
///
/// # Errors
///
/// `NoMemory` if memory runs out.
fn child_at<'a>(
    alloc: Global,
    dir: &'a Dir,
    component: &[u8],
    scratch: &mut Vec<u8>,
) -> Result<Option<&'a Child>, NoMemory>
    requires { IsTrue (is_name component.now) }
    ensures below { IfOk result (λ found. (rest : Place) →
        tree.node_at dir.now (component.now ∷ rest) ≡ tree.node_at (branch_of (option_copied found)) rest) }
    ensures branch { IfOk result (λ found. IfSome found (λ child. IsBranch child.now)) }
{
    let mut bytes = std::mem::replace(scratch, Vec::new(alloc));
    bytes.clear();
    bytes.extend_from_slice(component)?;
    let name = Name::from_vec(bytes);
    let found = dir.child(&name);
    drop(std::mem::replace(scratch, name.into_vec()));
    Ok(found)
}

/// Takes the first component.
fn next_step<'a>(steps: &mut Parts<'a>) -> Option<&'a [u8]>
    ensures { MatchOption result ((steps.old.left ≡ []) × (steps.new.left ≡ []))
        (λ step. steps.old.left ≡ step.now ∷ steps.new.left) }
{
    steps.next()
}

/// What stands where components lead down from a directory: a directory, a file, a link that is not followed, or
/// nothing, be it at the last component or on the way; `None` if they do not lead down.
///
/// # Errors
///
/// `NoMemory` if memory runs out.
fn down<'a>(
    alloc: Global,
    top: &'a Dir,
    steps: Parts<'_>,
    follow: bool,
    scratch: &mut Vec<u8>,
) -> Result<Option<Option<Seen<'a>>>, NoMemory>
    requires { IsTrue (list_all is_step steps.left) }
    ensures { IfOk result (λ found. IfSome found (GoesDown top.now follow steps.entry.left)) }
{
    let mut dir = top;
    let mut left = steps;
    'descent: while let Some(component) = next_step(&mut left) {
        if is_dot(component) || is_dot_dot(component) {
            return Ok(None);
        }
        let is_last = left.is_empty();
        match child_at(alloc, dir, component, scratch)? {
            Some(Child::Dir(inner)) => dir = inner,
            Some(Child::File(number)) if is_last => return Ok(Some(Some(Seen::File(*number)))),
            Some(Child::Link(target)) if is_last && !follow => return Ok(Some(Some(Seen::Link(
                target.as_slice(),
            )))),
            Some(Child::File(_)) => return Ok(None),
            Some(Child::Link(_)) => return Ok(None),
            None => return Ok(Some(None)),
        }
    }
    Ok(Some(Some(Seen::Dir(dir.owner(), dir))))
}

impl Tree {
    /// What stands at the end of a plain path: a directory, a file, a link that is not followed, or nothing, which may
    /// be missing on the way; `None` if the path is not plain, or goes on behind a file.
    ///
    /// # Errors
    ///
    /// `NoMemory` if memory runs out.
    pub(crate) fn plain_end(
        &self,
        path: &[u8],
        follow: bool,
    ) -> Result<Option<Option<Seen<'_>>>, NoMemory>
        ensures { IfOk result (λ found. IfSome found (LeadsDown self.now follow path.now)) }
    {
        let Ok(steps) = components(path) else {
            return Ok(None);
        };
        if !steps.absolute {
            return Ok(None);
        }
        let alloc = self.home().allocator();
        // One block of memory for all names of the path.
        let mut scratch = Vec::with_capacity(alloc, NAME_BYTES)?;
        down(
            alloc,
            self.names().root_directory(),
            steps,
            follow,
            &mut scratch,
        )
    }
}
