//! Worked examples: what sessions allow through handles, computed by the checker on the definitions that the contracts
//! name. The functions do nothing; each promise is in the contract.
#![tactic(auto, unfolding(crate::specs::Allowed::step, crate::specs::Allowed::steps, crate::specs::Allowed::causes, crate::specs::Allowed::answers, crate::specs::Allowed::after, crate::specs::Allowed::told_to, crate::specs::RequestRows::limits_data, sftp_strings::specs::Hexadecimal::hex, crate::specs::State::seen, crate::specs::State::pins_of, sftp_tree::specs::Requests::led, sftp_tree::specs::PlaceCauses::no_causes, sftp_tree::specs::PlaceCauses::when, sftp_tree::specs::PlaceCauses::joined, sftp_tree::specs::Requests::plain_causes, sftp_tree::specs::Requests::causes, sftp_tree::specs::Requests::outcome, sftp_tree::specs::Attributes::children, sftp_tree::specs::Attributes::listing, sftp_tree::specs::Walk::meets, sftp_tree::specs::Walk::walk_parts, sftp_tree::specs::Walk::walk, sftp_tree::specs::Walk::reached, sftp_tree::specs::Tree::has_entries, sftp_tree::specs::Tree::fits, sftp_path::specs::Place::components, sftp_path::specs::Place::parts, sftp_path::specs::Place::is_good_path, sftp_path::specs::Table::get, sftp_path::specs::Table::put, sftp_path::specs::Table::without, sftp_path::specs::Table::retain, sftp_path::specs::Table::from_entries))]

ghost use Rattle.std.specs.Prelude.{◌≡◌, ℕ, List, ◌∷◌, [], length, take, Some, None, codes};
ghost use Rattle.sftp_packets.specs.declared.requests.Ask.TheVariants.{Open, Close, Read, Write, Fstat, Fsetstat};
ghost use Rattle.sftp_packets.specs.declared.requests.Ask.TheVariants.{Readdir, Remove, Fsync, Limits, Unknown};
ghost use Rattle.sftp_packets.specs.declared.replies.Answer.TheVariants.{Data, Handle, Name, Attrs, Extended};
ghost use Rattle.sftp_packets.specs.Spelling.{no_attributes};
ghost use Rattle.sftp_strings.specs.Hexadecimal.{hex};
ghost use Rattle.sftp_tree.specs.Tree.{raised};
ghost use Rattle.sftp_tree.specs.Picture.{blank};
ghost use Rattle.sftp_tree.specs.WalkExamples.{letters};
ghost use Rattle.sftp_handles.specs.Allowed.{step, steps};
ghost use Rattle.sftp_handles.specs.Examples.{closed, emptied, with_text, with_three, with_none, with_file_below};
ghost use Rattle.sftp_handles.specs.Examples.{opened, opened_directory, code, done, item, of_file, more, no_more};
ghost use Rattle.sftp_handles.specs.Examples.{with_owned, sized, owned, reading};

/// A file lives while it is open: it is made, written, removed and still read. It is gone once it is closed.
pub fn removed_while_open()
    ensures { steps (closed blank) (opened (codes "f") 0xb (codes "h") ∷ done (Write (codes "h") 0 (codes "abc"))
        ∷ done (Remove (codes "f")) ∷ (Read (codes "h") 0 10, Data (codes "abc")) ∷ done (Close (codes "h")) ∷ [])
        ≡ Some (closed (emptied 1)) }
{}

/// READDIR gives the names of a directory in any order and in any parts, and then says that there are no more.
pub fn names_in_any_order()
    ensures parts { steps (closed with_three) (opened_directory (codes "/d") (codes "h")
        ∷ more (codes "h") (codes "b" ∷ [])
        ∷ more (codes "h") (codes "c" ∷ codes "a" ∷ []) ∷ no_more (codes "h") ∷ done (Close (codes "h")) ∷ [])
        ≡ Some (closed with_three) }
    ensures none { steps (closed with_none) (opened_directory (codes "/d") (codes "h") ∷ no_more (codes "h")
        ∷ no_more (codes "h") ∷ done (Close (codes "h")) ∷ [])
        ≡ Some (closed with_none) }
{}

/// No reply gives a name twice, a name that was given before, a name that is not there, or no name; nor does one say
/// that there are no more while there are.
pub fn wrong_names()
    ensures ended_early { steps (closed with_three) (opened_directory (codes "/d") (codes "h")
        ∷ more (codes "h") (codes "b" ∷ []) ∷ no_more (codes "h") ∷ []) ≡ None }
    ensures twice { steps (closed with_three) (opened_directory (codes "/d") (codes "h")
        ∷ more (codes "h") (codes "b" ∷ codes "b" ∷ []) ∷ []) ≡ None }
    ensures given { steps (closed with_three) (opened_directory (codes "/d") (codes "h")
        ∷ more (codes "h") (codes "b" ∷ []) ∷ more (codes "h") (codes "b" ∷ []) ∷ []) ≡ None }
    ensures absent { steps (closed with_three) (opened_directory (codes "/d") (codes "h")
        ∷ more (codes "h") (codes "e" ∷ []) ∷ []) ≡ None }
    ensures empty { steps (closed with_three) (opened_directory (codes "/d") (codes "h")
        ∷ more (codes "h") [] ∷ []) ≡ None }
    ensures not_ended { steps (closed with_none) (opened_directory (codes "/d") (codes "h")
        ∷ more (codes "h") [] ∷ []) ≡ None }
{}

/// A listing gives the attributes of the moment when the directory was opened, and not those of later.
pub fn attributes_of_the_opening()
    ensures before { steps (closed (with_file_below [])) (opened_directory (codes "/d") (codes "l")
        ∷ opened (codes "/d/f") 0x2 (codes "h") ∷ done (Write (codes "h") 0 (codes "abc"))
        ∷ (Readdir (codes "l"), Name (item (of_file 0) (codes "f") ∷ []))
        ∷ done (Close (codes "l")) ∷ done (Close (codes "h")) ∷ [])
        ≡ Some (closed (with_file_below (codes "abc"))) }
    ensures later { steps (closed (with_file_below [])) (opened_directory (codes "/d") (codes "l")
        ∷ opened (codes "/d/f") 0x2 (codes "h") ∷ done (Write (codes "h") 0 (codes "abc"))
        ∷ (Readdir (codes "l"), Name (item (of_file 3) (codes "f") ∷ [])) ∷ []) ≡ None }
{}

/// A WRITE without data leaves the file as it is. One that starts past the end fills the gap with zeros. Through a
/// handle opened with SSH_FXF_APPEND, data is added to the file; the offset is ignored.
pub fn written_bytes()
    ensures no_data { steps (closed (with_text [])) (opened (codes "/f") 0x2 (codes "h")
        ∷ done (Write (codes "h") 18446744073709551615 []) ∷ done (Close (codes "h")) ∷ [])
        ≡ Some (closed (with_text [])) }
    ensures past_the_end { steps (closed (with_text (codes "a"))) (opened (codes "/f") 0x2 (codes "h")
        ∷ done (Write (codes "h") 3 (codes "b")) ∷ done (Close (codes "h")) ∷ [])
        ≡ Some (closed (with_text (97 ∷ 0 ∷ 0 ∷ 98 ∷ []))) }
    ensures within { steps (closed (with_text (codes "abc"))) (opened (codes "/f") 0x2 (codes "h")
        ∷ done (Write (codes "h") 1 (codes "x")) ∷ done (Close (codes "h")) ∷ [])
        ≡ Some (closed (with_text (codes "axc"))) }
    ensures appended { steps (closed (with_text [])) (opened (codes "/f") 0xe (codes "h")
        ∷ done (Write (codes "h") 100 (codes "xy")) ∷ (Fstat (codes "h"), Attrs (of_file 2))
        ∷ done (Close (codes "h")) ∷ [])
        ≡ Some (closed (with_text (codes "xy"))) }
    ensures truncated { steps (closed (with_text (codes "abc"))) (opened (codes "/f") 0x1a (codes "h")
        ∷ done (Close (codes "h")) ∷ []) ≡ Some (closed (with_text [])) }
{}

/// A READ of `len` bytes at `offset` returns that part of the file, which is shorter only if the file ends before. If
/// the file has no byte at `offset`, the reply is SSH_FX_EOF, even for a `len` of 0. Elsewhere such a READ returns an
/// SSH_FXP_DATA without bytes (draft, section 6.4).
pub fn read_bytes()
    ensures given { steps (closed (with_text (codes "abc"))) (opened (codes "/f") 0x1 (codes "h")
        ∷ (Read (codes "h") 1 1, Data (codes "b")) ∷ (Read (codes "h") 1 4294967295, Data (codes "bc"))
        ∷ (Read (codes "h") 2 0, Data []) ∷ (Read (codes "h") 3 0, code 1) ∷ (Read (codes "h") 4 1, code 1)
        ∷ done (Fsync (codes "h")) ∷ done (Close (codes "h")) ∷ [])
        ≡ Some (closed (with_text (codes "abc"))) }
    ensures fewer { steps (closed (with_text (codes "abc"))) (opened (codes "/f") 0x1 (codes "h")
        ∷ (Read (codes "h") 0 3, Data (codes "ab")) ∷ []) ≡ None }
    ensures no_end { steps (closed (with_text (codes "abc"))) (opened (codes "/f") 0x1 (codes "h")
        ∷ (Read (codes "h") 3 1, Data []) ∷ []) ≡ None }
{}

/// OPEN with bad flags is refused with code 4 or 5, and with no other.
pub fn bad_flags()
    ensures failed { steps (closed (with_text [])) ((Open (codes "/f") 0x10 no_attributes, code 4) ∷ [])
        ≡ Some (closed (with_text [])) }
    ensures bad_message { steps (closed (with_text [])) ((Open (codes "/f") 0x10 no_attributes, code 5) ∷ [])
        ≡ Some (closed (with_text [])) }
    ensures not_2 { steps (closed (with_text [])) ((Open (codes "/f") 0x10 no_attributes, code 2) ∷ []) ≡ None }
    ensures not_3 { steps (closed (with_text [])) ((Open (codes "/f") 0x10 no_attributes, code 3) ∷ []) ≡ None }
    ensures not_8 { steps (closed (with_text [])) ((Open (codes "/f") 0x10 no_attributes, code 8) ∷ []) ≡ None }
    ensures not_done { steps (closed (with_text [])) (opened (codes "/f") 0x10 (codes "h") ∷ []) ≡ None }
{}

/// A handle is closed once: then it is not open any more, which has the code 4.
pub fn closed_twice()
    ensures refused { steps (closed (with_text [])) (opened (codes "/f") 0x1 (codes "h") ∷ done (Close (codes "h"))
        ∷ (Close (codes "h"), code 4) ∷ (Fstat (codes "h"), code 4) ∷ []) ≡ Some (closed (with_text [])) }
    ensures not_done { steps (closed (with_text [])) (opened (codes "/f") 0x1 (codes "h") ∷ done (Close (codes "h"))
        ∷ done (Close (codes "h")) ∷ []) ≡ None }
{}

/// READDIR through the handle of a file, and READ, WRITE, FSTAT, FSETSTAT or fsync through that of a listing, have the
/// code 4 alone.
pub fn other_kinds()
    ensures refused { steps (closed (with_file_below [])) (opened_directory (codes "/d") (codes "l")
        ∷ opened (codes "/d/f") 0x1 (codes "h") ∷ (Readdir (codes "h"), code 4) ∷ (Read (codes "l") 0 1, code 4)
        ∷ (Write (codes "l") 0 [], code 4) ∷ (Fstat (codes "l"), code 4) ∷ (Fsetstat (codes "l") no_attributes, code 4)
        ∷ (Fsync (codes "l"), code 4) ∷ done (Close (codes "l")) ∷ done (Close (codes "h")) ∷ [])
        ≡ Some (closed (with_file_below [])) }
    ensures not_3 { steps (closed with_none) (opened_directory (codes "/d") (codes "l")
        ∷ (Read (codes "l") 0 1, code 3) ∷ []) ≡ None }
{}

/// READ through a handle that was opened to write alone has the code 3 or 4, as has WRITE through one that was opened
/// to read.
pub fn opened_for_something_else()
    ensures read { steps (closed (with_text [])) (opened (codes "/f") 0x2 (codes "h") ∷ (Read (codes "h") 0 1, code 3)
        ∷ (Read (codes "h") 0 1, code 4) ∷ done (Close (codes "h")) ∷ []) ≡ Some (closed (with_text [])) }
    ensures written { steps (closed (with_text [])) (opened (codes "/f") 0x1 (codes "h")
        ∷ (Write (codes "h") 0 [], code 3) ∷ (Write (codes "h") 0 [], code 4) ∷ done (Close (codes "h")) ∷ [])
        ≡ Some (closed (with_text [])) }
    ensures not_1 { steps (closed (with_text [])) (opened (codes "/f") 0x2 (codes "h")
        ∷ (Read (codes "h") 0 1, code 1) ∷ []) ≡ None }
{}

/// No reply gives a handle that is open. A handle that was closed may be given again, and a handle may have no bytes.
pub fn new_handles()
    ensures open { steps (closed (with_text [])) (opened (codes "/f") 0x1 (codes "h")
        ∷ opened (codes "/f") 0x1 (codes "h") ∷ []) ≡ None }
    ensures again { steps (closed (with_text [])) (opened (codes "/f") 0x1 (codes "h") ∷ done (Close (codes "h"))
        ∷ opened (codes "/f") 0x1 (codes "h") ∷ done (Close (codes "h")) ∷ []) ≡ Some (closed (with_text [])) }
    ensures no_bytes { steps (closed (with_text [])) (opened (codes "/f") 0x1 [] ∷ done (Close []) ∷ [])
        ≡ Some (closed (with_text [])) }
{}

/// The name of a handle has at most 256 bytes.
pub fn longest_handles()
    ensures longest { steps (closed (with_text [])) (opened (codes "/f") 0x1 (letters 256)
        ∷ (Fstat (letters 256), Attrs (of_file 0)) ∷ done (Close (letters 256)) ∷ []) ≡ Some (closed (with_text [])) }
    ensures too_long { steps (closed (with_text [])) (opened (codes "/f") 0x1 (letters 257) ∷ []) ≡ None }
    ensures listing { steps (closed with_none) (opened_directory (codes "/d") (letters 256)
        ∷ done (Close (letters 256)) ∷ []) ≡ Some (closed with_none) }
    ensures too_long_listing { steps (closed with_none) (opened_directory (codes "/d") (letters 257) ∷ []) ≡ None }
{}

/// FSETSTAT sets what is given, and nothing else: a size, which cuts the bytes or fills them with zeros, for a file
/// that was opened to be written; an owner and permissions for any open file. Without leave to write a size has the
/// code 3 or 4.
pub fn set_through_handles()
    ensures cut { steps (closed (with_text (codes "abc"))) (opened (codes "/f") 0x2 (codes "h")
        ∷ done (Fsetstat (codes "h") (sized 1)) ∷ done (Close (codes "h")) ∷ [])
        ≡ Some (closed (with_text (codes "a"))) }
    ensures filled { steps (closed (with_text (codes "abc"))) (opened (codes "/f") 0x2 (codes "h")
        ∷ done (Fsetstat (codes "h") (sized 5)) ∷ done (Close (codes "h")) ∷ [])
        ≡ Some (closed (with_text (97 ∷ 98 ∷ 99 ∷ 0 ∷ 0 ∷ []))) }
    ensures owned { steps (closed (with_text (codes "abc"))) (opened (codes "/f") 0x1 (codes "h")
        ∷ done (Fsetstat (codes "h") (owned 7 8)) ∷ done (Close (codes "h")) ∷ [])
        ≡ Some (closed (with_owned 7 8 (codes "abc"))) }
    ensures refused { steps (closed (with_text (codes "abc"))) (opened (codes "/f") 0x1 (codes "h")
        ∷ (Fsetstat (codes "h") (sized 1), code 3) ∷ (Fsetstat (codes "h") (sized 1), code 4)
        ∷ done (Close (codes "h")) ∷ []) ≡ Some (closed (with_text (codes "abc"))) }
    ensures not_done { steps (closed (with_text (codes "abc"))) (opened (codes "/f") 0x1 (codes "h")
        ∷ done (Fsetstat (codes "h") (sized 1)) ∷ []) ≡ None }
{}

/// The reply to a request for the limits has those of the tree. Nothing changes, and it has no other reply.
pub fn limits_of_the_tree()
    ensures usual { steps (closed blank) ((
      Limits,
      Extended
          (hex (codes "0000000000040000 0000000000008000 0000000000008000 0000000000000100")),
    ) ∷ [])
        ≡ Some (closed blank) }
    ensures highest { steps (closed (raised blank)) ((
      Limits,
      Extended
          (hex (codes "0000000000040000 0000000000010000 0000000000010000 0000000000000400")),
    ) ∷ [])
        ≡ Some (closed (raised blank)) }
    ensures of_another_tree { steps (closed (raised blank)) ((
      Limits,
      Extended
          (hex (codes "0000000000040000 0000000000008000 0000000000008000 0000000000000100")),
    ) ∷ []) ≡ None }
    ensures of_a_raised_tree { steps (closed blank) ((
      Limits,
      Extended
          (hex (codes "0000000000040000 0000000000010000 0000000000010000 0000000000000400")),
    ) ∷ []) ≡ None }
    ensures not_done { steps (closed blank) (done Limits ∷ []) ≡ None }
    ensures not_refused { steps (closed blank) ((Limits, code 8) ∷ []) ≡ None }
{}

/// One READ gives as many bytes as the tree's limit says, and no other number: of a file of 70,000 bytes 32,768 under
/// the usual limits, and 65,536 under the highest.
pub fn reads_to_the_limit()
    ensures usual { (bytes : List ℕ) → length bytes ≡ 70000 → step (reading (with_text bytes))
        (Read (codes "h") 0 70000) (Data (take 32768 bytes)) ≡ Some (reading (with_text bytes)) }
    ensures highest { (bytes : List ℕ) → length bytes ≡ 70000 → step (reading (raised (with_text bytes)))
        (Read (codes "h") 0 70000) (Data (take 65536 bytes)) ≡ Some (reading (raised (with_text bytes))) }
    ensures too_many { (bytes : List ℕ) → length bytes ≡ 70000 → step (reading (with_text bytes))
        (Read (codes "h") 0 70000) (Data (take 65536 bytes)) ≡ None }
    ensures too_few { (bytes : List ℕ) → length bytes ≡ 70000 → step (reading (raised (with_text bytes)))
        (Read (codes "h") 0 70000) (Data (take 32768 bytes)) ≡ None }
{}

/// An extension that is not known has the code 8 alone.
pub fn unknown_extensions()
    ensures refused { steps (closed blank) ((Unknown (codes "x@y") [], code 8) ∷ []) ≡ Some (closed blank) }
    ensures not_4 { steps (closed blank) ((Unknown (codes "x@y") [], code 4) ∷ []) ≡ None }
    ensures not_done { steps (closed blank) (done (Unknown (codes "x@y") []) ∷ []) ≡ None }
{}
