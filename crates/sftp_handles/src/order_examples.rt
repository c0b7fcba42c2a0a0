//! Worked examples: which requests conflict, computed by the checker on the definitions. The functions do nothing; each
//! promise is in the contract.
#![tactic(auto, unfolding(crate::specs::Clash::touched, crate::specs::Clash::clash, sftp_treefile::specs::TreeFile::are_far, sftp_path::specs::Table::get))]

ghost use Rattle.std.specs.Prelude.{◌≡◌, true, false, codes};
ghost use Rattle.sftp_packets.specs.declared.requests.Ask.TheVariants.{Close, Write, Fstat, Readdir, Stat, Fsync};
ghost use Rattle.sftp_packets.specs.declared.requests.Ask.TheVariants.{Opendir, Limits, Unknown};
ghost use Rattle.sftp_handles.specs.Examples.{read, write, set, make, clash_there, clash_bounded};

/// A request that may change a file conflicts with every other request on it, through whichever handle.
pub fn one_file()
    ensures read_and_write { clash_there (read (codes "a")) (write (codes "b")) ≡ true }
    ensures write_and_read { clash_there (write (codes "b")) (read (codes "a")) ≡ true }
    ensures twice_written { clash_there (write (codes "b")) (write (codes "b")) ≡ true }
    ensures written_and_shown { clash_there (write (codes "b")) (Fstat (codes "a")) ≡ true }
    ensures synchronized_and_set { clash_there (Fsync (codes "a")) (set (codes "b")) ≡ true }
    ensures not_opened_for_it { clash_there (write (codes "a")) (read (codes "b")) ≡ true }
    ensures nothing_written { clash_there (Write (codes "b") 0 (codes "")) (read (codes "a")) ≡ true }
{}

/// Two requests that only read a file do not conflict, nor do requests on two files.
pub fn files_that_are_not_shared()
    ensures twice_read { clash_there (read (codes "a")) (read (codes "a")) ≡ false }
    ensures by_two_handles { clash_there (Fstat (codes "a")) (read (codes "b")) ≡ false }
    ensures synchronized { clash_there (Fsync (codes "b")) (Fstat (codes "a")) ≡ false }
    ensures other_files { clash_there (write (codes "b")) (read (codes "c")) ≡ false }
    ensures both_written { clash_there (write (codes "b")) (write (codes "c")) ≡ false }
{}

/// In a tree that bounds the bytes of all files together, requests that may change two files conflict; others on two
/// files do not.
pub fn files_that_share_room()
    ensures both_written { clash_bounded (write (codes "b")) (write (codes "c")) ≡ true }
    ensures written_and_set { clash_bounded (write (codes "b")) (set (codes "c")) ≡ true }
    ensures both_set { clash_bounded (set (codes "c")) (set (codes "a")) ≡ true }
    ensures written_and_read { clash_bounded (write (codes "b")) (read (codes "c")) ≡ false }
    ensures shown_and_set { clash_bounded (Fstat (codes "a")) (set (codes "c")) ≡ false }
    ensures not_open { clash_bounded (write (codes "b")) (write (codes "x")) ≡ false }
{}

/// Two READDIRs of one listing conflict; those of two listings do not, and neither do READDIR and a request on a file.
pub fn listings()
    ensures one { clash_there (Readdir (codes "l")) (Readdir (codes "l")) ≡ true }
    ensures two { clash_there (Readdir (codes "l")) (Readdir (codes "m")) ≡ false }
    ensures with_a_file { clash_there (Readdir (codes "l")) (write (codes "b")) ≡ false }
{}

/// A request through a handle that is not open, or that is open as something else, touches nothing.
pub fn nothing_to_touch()
    ensures not_open { clash_there (write (codes "x")) (write (codes "x")) ≡ false }
    ensures empty_handle { clash_there (write (codes "")) (write (codes "")) ≡ false }
    ensures of_a_listing { clash_there (read (codes "l")) (Readdir (codes "l")) ≡ false }
    ensures of_a_file { clash_there (Readdir (codes "b")) (write (codes "b")) ≡ false }
{}

/// Every other request conflicts with all requests: CLOSE, also of a handle that is not open, requests on paths, the
/// request for the limits, and unknown extensions.
pub fn everything_is_touched()
    ensures closed { clash_there (read (codes "a")) (Close (codes "a")) ≡ true }
    ensures closed_first { clash_there (Close (codes "a")) (read (codes "a")) ≡ true }
    ensures not_open { clash_there (Close (codes "x")) (read (codes "a")) ≡ true }
    ensures path { clash_there (Stat (codes "/g")) (read (codes "a")) ≡ true }
    ensures paths { clash_there (Stat (codes "/f")) (Stat (codes "/g")) ≡ true }
    ensures made { clash_there (Readdir (codes "l")) (make (codes "/x")) ≡ true }
    ensures opened { clash_there (Opendir (codes "/")) (write (codes "x")) ≡ true }
    ensures limits { clash_there Limits (read (codes "a")) ≡ true }
    ensures twice_limits { clash_there Limits Limits ≡ true }
    ensures extension { clash_there (Unknown (codes "x") (codes "")) (write (codes "x")) ≡ true }
{}
