//! Worked examples: sessions that the definitions explain, and sessions that they do not, as theorems on the
//! definitions that the auditor's contract names. The functions do nothing; each promise is in the contract.
ghost use Rattle.std.specs.Prelude.{◌≡◌, List, [], ◌∷◌, codes};
ghost use Rattle.sftp_tree.specs.Tree.{raised};
ghost use Rattle.sftp_tree.specs.Picture.{picture, blank};
ghost use Rattle.sftp_handles.specs.State.{started};
ghost use Rattle.sftp_transcript.specs.Transcript.{IsRecord};
ghost use Rattle.sftp_handles.specs.Allowed.{Allowed};
ghost use Rattle.sftp_transcript.specs.Explained.{Explained};
ghost use Rattle.sftp_audit.specs.declared.errors.Refusal.TheVariants.{UnknownReply, IdInUse, Window, NotAllowed};
ghost use Rattle.sftp_audit.specs.declared.errors.Refusal.TheVariants.{Unanswered};
ghost use Rattle.sftp_audit.specs.Audit.{RefusedAt};
ghost use Rattle.sftp_audit.specs.Auditor.{StandsFor, Refuses, LacksReply};
ghost use Rattle.sftp_audit.specs.Exchanges.{recorded_exchanges};
ghost use Rattle.sftp_audit.specs.Examples.{with_a, with_a_and_b, with_a_and_b_bytes, with_link};
ghost use Rattle.sftp_transcript.specs.Examples.{handshake_bytes, mkdir, status, of_link, with_no_permissions};
ghost use Rattle.sftp_audit.specs.Examples.{backward_replies, backward_replies_bytes, one_unanswered};
ghost use Rattle.sftp_audit.specs.Examples.{same_directory_twice, data_for_mkdir, opendir_of_nothing, link_session};
ghost use Rattle.sftp_audit.specs.Examples.{one_answered_twice};
ghost use Rattle.sftp_audit.specs.Examples.{above_the_root, with_five_letters, read_in_parts, Unexplained};
ghost use Rattle.sftp_audit.specs.Examples.{limits_session, usual_limits_told, highest_limits_told, limits_bytes};
ghost use Rattle.sftp_audit.specs.Examples.{three_requests, two_backward_replies, removal_done_bytes, last_answered};
ghost use Rattle.sftp_audit.specs.Examples.{id_used_again, first_answered, second_waits, auditor_with};

/// A session without a request ends where it starts.
pub fn nothing_asked()
    ensures explained { Explained Allowed (started blank) [] (started blank) }
    ensures recorded { IsRecord [] handshake_bytes }
{}

/// Three requests are asked before any is answered: to make `/a`, to make `/a/b`, and to remove `/a`. The
/// replies come in the opposite order, and the removal is refused with FAILURE. That is explained by doing
/// the requests in the order asked, where `/a` is not empty; the end has both directories, and 77 bytes as a
/// tree file.
pub fn out_of_order_run()
    ensures explained { Explained Allowed (started blank) (backward_replies 4) (started with_a_and_b) }
    ensures pictured { picture with_a_and_b ≡ with_a_and_b_bytes }
    ensures recorded { IsRecord (backward_replies 4) backward_replies_bytes }
{}

/// The same session is not explained if the removal says OK, nor if it says NO_SUCH_FILE, which would be right only in
/// the order in which the replies came.
pub fn wrong_codes()
    ensures removed { Unexplained blank (backward_replies 0) }
    ensures in_order_of_arrival { Unexplained blank (backward_replies 2) }
{}

/// The same session is not explained if a request has no reply, nor if one has two.
pub fn wrong_turns()
    ensures unanswered { Unexplained blank one_unanswered }
    ensures answered_twice { Unexplained blank one_answered_twice }
{}

/// `/a` and `a/.` lead to one place, so that the second request to make it is refused with FAILURE and not
/// with NO_SUCH_FILE.
pub fn made_twice_refused()
    ensures taken { Explained Allowed (started blank) (same_directory_twice 4) (started with_a) }
    ensures not_absent { Unexplained blank (same_directory_twice 2) }
{}

/// A reply of another kind does not explain a request to make a directory.
pub fn other_kinds()
    ensures { Unexplained blank data_for_mkdir }
{}

/// OPENDIR of a path that leads to nothing is refused with NO_SUCH_FILE.
pub fn nothing_to_open()
    ensures { Explained Allowed (started blank) opendir_of_nothing (started blank) }
{}

/// The link `/l` to `x y` is made; READLINK gives its target, STAT finds no such file, since the target does not
/// exist, and LSTAT gives the target's length as the size, the tree's owner, and the permissions of a link.
pub fn link_is_made()
    ensures { Explained Allowed (started blank) (link_session (codes "x y" ∷ []) (of_link 3)) (started with_link) }
{}

/// The same session is not explained if LSTAT gives another size, or leaves the permissions out.
pub fn wrong_attributes()
    ensures other_size { Unexplained blank (link_session (codes "x y" ∷ []) (of_link 4)) }
    ensures no_permissions { Unexplained blank (link_session (codes "x y" ∷ []) (with_no_permissions 3)) }
{}

/// The same session is not explained if READLINK gives another text, or two names.
pub fn wrong_names()
    ensures other_text { Unexplained blank (link_session (codes "x" ∷ []) (of_link 3)) }
    ensures two_names { Unexplained blank (link_session (codes "x y" ∷ codes "x y" ∷ []) (of_link 3)) }
{}

/// The parent of the root is the root: REALPATH gives `/`.
pub fn root_is_its_parent()
    ensures { Explained Allowed (started blank) above_the_root (started blank) }
{}

/// A file is read in the draft's own order: OPEN gives a handle, READs through it are asked for before any is answered,
/// their replies come in the opposite order, and CLOSE ends it. The file has `abcde`; READ from 0 gives `abc`, from 3
/// `de`, which is all that is left, and from 6 that the end was reached.
pub fn file_is_read()
    ensures { Explained Allowed (started with_five_letters) (read_in_parts (codes "abc")) (started with_five_letters) }
{}

/// The same session is not explained if one byte of the data is another.
pub fn wrong_byte()
    ensures { Unexplained with_five_letters (read_in_parts (codes "abd")) }
{}

/// A client queries the limits of the blank tree. A raised tree has others, and no reply may give those of the other
/// tree.
pub fn limits_are_told()
    ensures usual { Explained Allowed (started blank) (limits_session usual_limits_told) (started blank) }
    ensures highest { Explained Allowed (started (raised blank)) (limits_session highest_limits_told)
        (started (raised blank)) }
    ensures too_high { Unexplained blank (limits_session highest_limits_told) }
    ensures too_low { Unexplained (raised blank) (limits_session usual_limits_told) }
    ensures recorded { IsRecord (limits_session usual_limits_told) limits_bytes }
{}

/// The auditor judges replies in the order in which their requests were asked. In the session whose replies come
/// backwards, where that to the removal says OK, it keeps all three requests as long as the first one is unanswered.
/// The last reply, in record 8, settles them, and the one that is refused is that to the removal, in record 6.
pub fn refused_in_order_asked()
    ensures nothing_settled { StandsFor Allowed (started blank) (two_backward_replies 0)
        (auditor_with blank (recorded_exchanges (two_backward_replies 0)) 8) }
    ensures refused { Refuses Allowed (started blank) (two_backward_replies 0) (status 1 0) (NotAllowed 6) }
    ensures not_the_last { ¬ Refuses Allowed (started blank) (two_backward_replies 0) (status 1 0) (NotAllowed 8) }
    ensures in_bytes { RefusedAt Allowed (started blank) removal_done_bytes (NotAllowed 6) }
{}

/// A second reply to one request is refused, and so is a second request with the id of an unanswered one. Once a
/// request has its reply, its id may come again.
pub fn ids_in_use()
    ensures answered_twice { Refuses Allowed (started blank) last_answered (status 3 4) (UnknownReply 7) }
    ensures asked_twice { Refuses Allowed (started blank) three_requests (mkdir 1 (codes "/c")) (IdInUse 6) }
    ensures not_late { ¬ Refuses Allowed (started blank) three_requests (mkdir 1 (codes "/c")) (Window 6) }
    ensures used_again { StandsFor Allowed (started blank) id_used_again
        (auditor_with blank (recorded_exchanges id_used_again) 8) }
{}

/// Two requests are asked, and the first one is answered: it is settled, and the second one, in record 4, is not. If
/// the session ends there, that is the request without a reply.
pub fn oldest_waits()
    ensures settled { StandsFor Allowed (started blank) first_answered (auditor_with with_a second_waits 6) }
    ensures unanswered { LacksReply first_answered (Unanswered 4) }
    ensures not_the_first { ¬ LacksReply first_answered (Unanswered 3) }
{}
