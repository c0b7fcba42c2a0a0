//! Worked examples: what a client's session sends, refuses and pairs, computed by the checker on the definitions that
//! the contracts name. The functions do nothing; each promise is in the contract.
ghost use Rattle.std.specs.Prelude.{◌≡◌, ◌∷◌, [], Some, None, codes};
ghost use Rattle.sftp_packets.specs.declared.requests.Ask.TheVariants.{Fsync, Limits, Unknown};
ghost use Rattle.sftp_packets.specs.declared.packets.Packet.TheVariants.{Init, Version};
ghost use Rattle.sftp_packets.specs.Requests.{server_extensions};
ghost use Rattle.sftp_client.specs.declared.errors.ClientError.TheVariants as errors;
ghost use Rattle.sftp_client.specs.Announced.{announced_by};
ghost use Rattle.sftp_client.specs.Client.{new_client, IsSent, IsPaired, version_error, send_error, reply_error};
ghost use Rattle.sftp_client.specs.Examples.{nothing, everything, plain_version, session, stat, read};
ghost use Rattle.sftp_client.specs.Examples.{data_for, attributes_for, status_for, extended_for};

/// The first two requests get the ids 0 and 1, and a third the next id that is free.
pub fn ids_count_up()
    ensures first { IsSent (session 0 []) (record { id = 0; ask = stat }) (session 1 ((0, stat) ∷ [])) }
    ensures second { IsSent (session 1 ((0, stat) ∷ [])) (record { id = 1; ask = read })
        (session 2 ((0, stat) ∷ (1, read) ∷ [])) }
    ensures after_the_last { IsSent (session 0xffff_ffff ((0xffff_ffff, stat) ∷ (0, read) ∷ []))
        (record { id = 1; ask = stat })
        (session 2 ((0xffff_ffff, stat) ∷ (0, read) ∷ (1, stat) ∷ [])) }
{}

/// A reply is paired with the request of its id, in any order, if it is of a kind that the request may get.
pub fn replies_find_their_requests()
    ensures wrong_kind { reply_error (session 2 ((0, stat) ∷ (1, read) ∷ [])) (data_for 0) ≡ Some errors.WrongReply }
    ensures unknown { reply_error (session 2 ((0, stat) ∷ (1, read) ∷ [])) (status_for 5) ≡ Some errors.UnknownId }
    ensures second { IsPaired (session 2 ((0, stat) ∷ (1, read) ∷ [])) (record { id = 1; ask = read }) (data_for 1)
        (session 2 ((0, stat) ∷ [])) }
    ensures first { IsPaired (session 2 ((0, stat) ∷ [])) (record { id = 0; ask = stat }) (attributes_for 0)
        (session 2 []) }
    ensures again { reply_error (session 2 []) (attributes_for 0) ≡ Some errors.UnknownId }
    ensures of_limits { IsPaired (session 1 ((0, Limits) ∷ [])) (record { id = 0; ask = Limits }) (extended_for 0)
        (session 1 []) }
    ensures of_no_other { reply_error (session 1 ((0, stat) ∷ [])) (extended_for 0) ≡ Some errors.WrongReply }
{}

/// A session waits for one VERSION 3, and sends an extension with a request of its own only if that was announced.
pub fn versions()
    ensures before { send_error new_client stat ≡ Some errors.NotStarted }
    ensures other_packet { version_error new_client (Init 3 []) ≡ Some errors.BadVersion }
    ensures other_version { version_error new_client (Version 4 []) ≡ Some errors.BadVersion }
    ensures taken { version_error new_client plain_version ≡ None }
    ensures announced { announced_by plain_version ≡ Some nothing }
    ensures all_announced { announced_by (Version 3 server_extensions) ≡ Some everything }
    ensures twice { version_error (session 0 []) plain_version ≡ Some errors.BadVersion }
    ensures not_announced { send_error (session 0 []) (Fsync (codes "h")) ≡ Some errors.NotAnnounced }
    ensures limits_not_announced { send_error (session 0 []) Limits ≡ Some errors.NotAnnounced }
    ensures others { send_error (session 0 []) (Unknown (codes "x") []) ≡ None }
{}
