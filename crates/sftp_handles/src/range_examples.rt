//! Worked examples: which READs and WRITEs of one file conflict with ranges compared, computed by the checker on the
//! definitions. The file has ten bytes. The functions do nothing; each promise is in the contract.
#![tactic(auto, unfolding(crate::specs::Clash::range, crate::specs::Clash::range_clash, crate::specs::Clash::touched, crate::specs::Clash::clash, crate::specs::State::seen, sftp_treefile::specs::TreeFile::are_far, sftp_path::specs::Table::get))]

ghost use Rattle.std.specs.Prelude.{◌≡◌, true, false, Some, None, codes};
ghost use Rattle.sftp_packets.specs.declared.requests.Ask.TheVariants.{Close, Read, Write, Fstat, Fsetstat};
ghost use Rattle.sftp_packets.specs.Spelling.{no_attributes};
ghost use Rattle.sftp_handles.specs.Clash.{range_from};
ghost use Rattle.sftp_handles.specs.RangeExamples.{with_short_reads, read, write, clash_in, clash_there, range_there};

/// A READ or WRITE keeps to its bytes if they end within the file, through whichever handle without APPEND, and whether
/// the file was opened for it or not.
pub fn ranges_within_the_file()
    ensures middle { range_there (read 3 4) ≡ Some (range_from 0 (3, 7)) }
    ensures to_the_end { range_there (read 8 2) ≡ Some (range_from 0 (8, 10)) }
    ensures past_the_end { range_there (read 8 3) ≡ None }
    ensures written { range_there (write 6 (codes "abcd")) ≡ Some (range_from 0 (6, 10)) }
    ensures longer { range_there (write 6 (codes "abcde")) ≡ None }
    ensures nothing { range_there (write 10 (codes "")) ≡ Some (range_from 0 (10, 10)) }
    ensures nothing_past_the_end { range_there (write 11 (codes "")) ≡ None }
    ensures not_opened_for_it { range_there (Write (codes "r") 0 (codes "a")) ≡ Some (range_from 0 (0, 1)) }
    ensures appended { range_there (Write (codes "a") 0 (codes "a")) ≡ None }
    ensures read_to_append { range_there (Read (codes "a") 0 1) ≡ Some (range_from 0 (0, 1)) }
    ensures not_open { range_there (Read (codes "y") 0 1) ≡ None }
    ensures shown { range_there (Fstat (codes "x")) ≡ None }
    ensures closed { range_there (Close (codes "x")) ≡ None }
{}

/// Ranges that do not meet do not conflict; an empty one meets none.
pub fn ranges_apart()
    ensures read_behind { clash_there (write 0 (codes "abcd")) (read 4 4) ≡ false }
    ensures read_in_front { clash_there (write 4 (codes "abcd")) (read 0 4) ≡ false }
    ensures twice_written { clash_there (write 0 (codes "abcd")) (write 4 (codes "ef")) ≡ false }
    ensures by_two_handles { clash_there (Write (codes "w") 0 (codes "abcd")) (Read (codes "r") 4 6) ≡ false }
    ensures nothing_inside { clash_there (write 0 (codes "abcdefghij")) (write 5 (codes "")) ≡ false }
    ensures nothing_read { clash_there (write 0 (codes "abcdefghij")) (read 5 0) ≡ false }
{}

/// Ranges that share a byte conflict if one of them is written.
pub fn ranges_that_meet()
    ensures one_byte { clash_there (write 0 (codes "abcd")) (read 3 4) ≡ true }
    ensures inside { clash_there (write 2 (codes "a")) (read 0 10) ≡ true }
    ensures around { clash_there (write 0 (codes "abcd")) (read 1 1) ≡ true }
    ensures the_same { clash_there (write 4 (codes "a")) (write 4 (codes "b")) ≡ true }
    ensures twice_written { clash_there (write 0 (codes "abcde")) (write 4 (codes "f")) ≡ true }
{}

/// A request that does not keep to a range within the file conflicts with every WRITE of it.
pub fn ranges_past_the_end()
    ensures read { clash_there (write 0 (codes "abcd")) (read 8 4) ≡ true }
    ensures written { clash_there (read 8 2) (write 10 (codes "a")) ≡ true }
    ensures nothing { clash_there (write 0 (codes "abcdefghij")) (write 11 (codes "")) ≡ true }
    ensures at_the_last_offset { clash_there (write 0 (codes "a")) (read 18446744073709551615 1) ≡ true }
    ensures appended { clash_there (write 0 (codes "a")) (Write (codes "a") 0 (codes "b")) ≡ true }
    ensures set { clash_there (write 0 (codes "a")) (Fsetstat (codes "x") no_attributes) ≡ true }
    ensures shown { clash_there (write 0 (codes "a")) (Fstat (codes "x")) ≡ true }
    ensures closed { clash_there (write 0 (codes "a")) (Close (codes "x")) ≡ true }
{}

/// Requests that only read a file do not conflict, whatever their ranges.
pub fn reads_of_one_file()
    ensures overlapping { clash_there (read 0 8) (read 4 4) ≡ false }
    ensures past_the_end { clash_there (read 4 100) (read 0 100) ≡ false }
    ensures shown { clash_there (read 0 8) (Fstat (codes "x")) ≡ false }
{}

/// A READ keeps to as many bytes as the tree's limit, however many it asks for.
pub fn reads_end_at_the_limit()
    ensures behind { clash_in with_short_reads (read 0 100) (write 4 (codes "a")) ≡ false }
    ensures inside { clash_in with_short_reads (read 0 100) (write 3 (codes "a")) ≡ true }
    ensures past_the_end { clash_in with_short_reads (read 7 100) (write 0 (codes "a")) ≡ true }
{}
