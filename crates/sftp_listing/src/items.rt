//! What a listing gives at first.
ghost use Rattle.std.specs.Prelude.{◌≡◌, map, IfOk};
ghost use Rattle.sftp_path.specs.Place.{name_cmp};
ghost use Rattle.sftp_path.specs.Table.{InOrder};
ghost use Rattle.sftp_tree.specs.Items.{entry_of};

use crate::hints::Hints;
use crate::listing::Listing;
use sftp_path::NoMemory;
use sftp_tree::Item;
use std::collections::VecDeque;

impl Listing {
    /// A listing that gives these items, which are in rising order of their names.
    ///
    /// # Errors
    ///
    /// `NoMemory` if memory runs out.
    pub fn from_items(items: Vec<Item>) -> Result<Listing, NoMemory>
        requires { InOrder name_cmp (map entry_of items.items) }
        ensures { IfOk result (λ left. left ≡ map entry_of items.items) }
    {
        let left = items.len();
        let hints = Hints::none(*items.allocator());
        let mut marks = VecDeque::new(*items.allocator());
        marks.resize(left, false)?;
        Ok(Listing {
            items: VecDeque::from_vec(items),
            marks,
            left,
            hints,
        })
    }
}
