//! Worked examples: two sessions that use one file at the same time, as theorems on the definitions that the contract
//! of `audit_together` names. The functions do nothing; each promise is in the contract.
ghost use Rattle.std.specs.Prelude.{◌∷◌, [], codes};
ghost use Rattle.sftp_tree.specs.Picture.{blank};
ghost use Rattle.sftp_handles.specs.State.{started};
ghost use Rattle.sftp_handles.specs.Allowed.{Allowed};
ghost use Rattle.sftp_handles.specs.Examples.{with_text};
ghost use Rattle.sftp_together.specs.declared.errors.OrderFault.TheVariants.{NothingLeft, Clock, Reply, LeftOut};
ghost use Rattle.sftp_together.specs.Checks.{ExplainsBy, IsFirstFault};
ghost use Rattle.sftp_together.specs.Examples.{writer_and_reader, by_turns, writer_first};

/// A writer and a reader have a handle of the same name, each its own. The order in which they take turns explains
/// that the reader gets what the writer wrote, and `/f` has those bytes at the end.
pub fn one_name_for_two_sessions()
    ensures { ExplainsBy Allowed (started blank) 0 (writer_and_reader (codes "abc")) by_turns
        (started (with_text (codes "abc"))) }
{}

/// The order with all requests of the writer first is against the clock: the reader's OPEN had its reply at 35, and the
/// writer's CLOSE was asked at 50. With a tolerance of 14 it has to come first, too; with 15 it need not.
pub fn against_the_clock()
    ensures exact { IsFirstFault Allowed (started blank) 0 (writer_and_reader (codes "abc")) writer_first
        (Clock 3 1 3) }
    ensures nearly { IsFirstFault Allowed (started blank) 14 (writer_and_reader (codes "abc")) writer_first
        (Clock 3 1 3) }
    ensures tolerated { ExplainsBy Allowed (started blank) 15 (writer_and_reader (codes "abc")) writer_first
        (started (with_text (codes "abc"))) }
{}

/// The reader gets a byte that nobody wrote: record 6 of its transcript is refused at place 3.
pub fn a_wrong_byte()
    ensures { IsFirstFault Allowed (started blank) 0 (writer_and_reader (codes "abd")) by_turns (Reply 3 1 6) }
{}

/// An order has each request once: the reader's CLOSE, in record 7, is left out; or the writer has no request left.
pub fn too_few_and_too_many()
    ensures few { IsFirstFault Allowed (started blank) 0 (writer_and_reader (codes "abc"))
        (0 ∷ 1 ∷ 0 ∷ 1 ∷ 0 ∷ []) (LeftOut 1 7) }
    ensures many { IsFirstFault Allowed (started blank) 0 (writer_and_reader (codes "abc"))
        (0 ∷ 1 ∷ 0 ∷ 1 ∷ 0 ∷ 0 ∷ 1 ∷ []) (NothingLeft 5 0) }
{}
