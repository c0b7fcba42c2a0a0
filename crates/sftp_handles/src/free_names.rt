//! Names under which nothing is open.
ghost use Rattle.std.specs.Prelude.{◌≡◌, ◌<◌, ◌≤◌, false, length, IfOk};
ghost use Rattle.sftp_packets.specs.Spelling.{uint32, handle_limit};
ghost use Rattle.sftp_path.specs.Table.{size};
ghost use Rattle.sftp_treefile.specs.TreeFile.{most_limits};
ghost use Rattle.sftp_handles.specs.State.{is_open};
ghost use Rattle.sftp_handles.specs.Slots.{handles_in};

use crate::given_table::find_open;
use crate::opens::Open;
use byteorder::{BigEndian, ByteOrder};
use indexmap::IndexMap;
use sftp_tree::NoMemory;
use std::alloc::Global;

/// How many handles are open at most, in any tree.
const MOST_OPEN: u32 = 65_536;

/// The name of the first number whose name is not open.
///
/// # Errors
///
/// `NoMemory` if memory runs out.
pub(crate) fn free_name_in(
    opens: &IndexMap<Vec<u8>, Open>,
    alloc: Global,
) -> Result<Vec<u8>, NoMemory>
    requires { size (handles_in (λ k. k.items) opens.now.entries) < most_limits.open_handles }
    ensures short { IfOk result (λ name. length name.items ≤ handle_limit) }
    ensures free { IfOk result
        (λ name. is_open (handles_in (λ k. k.items) opens.now.entries) name.items ≡ false) }
{
    let name = number_name(free_number(opens));
    match Vec::from_slice(alloc, name.as_slice()) {
        Ok(name) => Ok(name),
        Err(_) => Err(NoMemory),
    }
}

/// The first number whose name is not open.
fn free_number(opens: &IndexMap<Vec<u8>, Open>) -> u32
    requires { size (handles_in (λ k. k.items) opens.now.entries) < most_limits.open_handles }
    ensures { is_open (handles_in (λ k. k.items) opens.now.entries) (uint32 result) ≡ false }
{
    let mut number = 0;
    'taken: while number < MOST_OPEN {
        if !is_number_open(opens, number) {
            return number;
        }
        number += 1;
    }
    unreachable!()
}

/// Whether the name of a number is open.
fn is_number_open(opens: &IndexMap<Vec<u8>, Open>, number: u32) -> bool
    ensures { result ≡ is_open (handles_in (λ k. k.items) opens.now.entries) (uint32 number) }
{
    let name = number_name(number);
    find_open(opens, name.as_slice()).is_some()
}

/// A number as 4 bytes, the high ones first.
fn number_name(number: u32) -> [u8; 4]
    ensures { result ≡ uint32 number }
{
    let mut name = [0; 4];
    BigEndian::write_u32(&mut name, number);
    name
}
