//! The subcommands that need neither a server nor an auditor: `show`, `make`, `diff`, `import`, `export` and `raise`.
//! And what the others share: the tree that a session starts from, what is said of a malformed file, and what of a
//! recorded session is left out behind a wrong reply.
#![tactic(auto)]

mod archives;
mod bearings;
mod cuts;
mod diffing;
mod faulty;
mod filters;
mod full;
mod leaving_out;
mod objects;
mod raising;
mod sameness;
mod selecting;
mod showing;
mod spotting;
mod starts;
mod terminals;
mod texts;
mod trees;
mod twice;
mod viewing;
mod words;

pub use archives::{export, import};
pub use bearings::{Bearing, Outcome, is_harmless};
pub use diffing::diff;
pub use faulty::{Faulty, ReadFiles};
pub use leaving_out::{Asked, LeftOut, Replied, find_reply, is_request, last_asked};
pub use objects::{ended, is_of_output, print_failed, put_failed, record_of_fault};
pub use raising::raise;
use sftp_files::{Ending, Failure, ShowOptions, System};
pub use spotting::spot_of;
pub use starts::{read_tree, read_tree_again, read_tree_in_view, read_tree_looking};
use std::io::Write;
pub use terminals::refuse_terminal;
pub use texts::make;
pub use trees::{write_timed_tree, write_tree};
pub use twice::is_lost;

/// Shows every field of a file, a line for each record or entry that sums it up, or what was selected.
pub fn show<'a, R: System, O: Write>(
    rt: &R,
    options: &ShowOptions<'a>,
    output: &mut O,
) -> Result<Ending, Failure<'a>> {
    if let Some(message) = viewing::misuse(options) {
        return Err(Failure::of_misuse(rt.alloc(), message));
    }
    if viewing::is_viewed(options) {
        viewing::view(rt, options, output)
    } else if options.is_full {
        full::show_full(rt, options, output)
    } else {
        showing::show(rt, options.file, output)
    }
}
