//! Worked examples: what a core does and how sessions end, as theorems on the definitions that the contracts of
//! `run_script` and `serve` name. The functions do nothing; each promise is in the contract.
ghost use Rattle.std.specs.Prelude.{◌≡◌, ℕ, ◌∷◌, ◌++◌, [], codes, length};
ghost use Rattle.sftp_wire.specs.Examples.{version_bytes};
ghost use Rattle.sftp_strings.specs.Hexadecimal.{hex};
ghost use Rattle.sftp_handles.specs.State.{started};
ghost use Rattle.sftp_transcript.specs.Examples.{handshake_bytes};
ghost use Rattle.sftp_transcript.specs.Explained.{window};
ghost use Rattle.sftp_tree.specs.Tree.{Tree};
ghost use Rattle.sftp_tree.specs.Picture.{blank};
ghost use Rattle.sftp_handles.specs.Allowed.{Allowed};
ghost use Rattle.sftp_server.specs.Machine.{at_start, AreActs};
ghost use Rattle.sftp_server.specs.Machine.{server_clash};
ghost use Rattle.sftp_server.specs.Served.{announcing, Served, ServedFrom};
ghost use Rattle.sftp_packets.specs.declared.packets.Packet.TheVariants as Packet;
ghost use Rattle.sftp_server.specs.Examples.{made_and_removed, answered_backwards, init_bytes, remove_and_byte};
ghost use Rattle.sftp_server.specs.Examples.{mkdir_beginning, stat_bytes, attrs_bytes, EndsAfterVersion};
ghost use Rattle.sftp_server.specs.Examples.{plain_version_bytes, plain_handshake_bytes};

use crate::ends::{Ended, SessionFault};
use sftp_wire::{Fault, WireError};

/// On the blank tree MKDIR and RMDIR of `/a` are delivered. Work on the second does nothing while the first is pending;
/// then both are done in the order asked, and both succeed. Their replies are sent in the opposite order. The tree is
/// blank again.
pub fn work_keeps_the_order()
    ensures { AreActs Allowed server_clash (at_start (started blank) window) made_and_removed answered_backwards
        (at_start (started blank) window) }
{}

/// An INIT of version 3 and nothing else: VERSION is written, the tree stays as it came, and the log has 143 bytes.
/// With a VERSION without pairs 9 bytes are written, and the log has 28.
pub fn nothing_asked()
    ensures served { EndsAfterVersion [] (Unit {0}) (Ended.Finished blank) }
    ensures logged { length handshake_bytes ≡ 143 }
    ensures announced { ServedFrom (announcing blank (Packet.Version 3 [])) init_bytes (Unit {0}) plain_version_bytes
        plain_handshake_bytes (Ended.Finished blank) }
    ensures announced_log { length plain_handshake_bytes ≡ 28 }
{}

/// An INIT, and then a request with a byte after its last field: VERSION is written, and the session ends with the
/// fault `Trailing` at the request's place, although more input may come. It ends with no other wire fault, and at no
/// other place.
pub fn byte_after_a_request()
    ensures served { EndsAfterVersion remove_and_byte ⊥
        (Ended.Fault blank (SessionFault.Wire (WireError.Unreadable Fault.Trailing 9))) }
    ensures not_short { EndsAfterVersion remove_and_byte ⊥
        (Ended.Fault blank (SessionFault.Wire (WireError.Unreadable Fault.Short 9))) → ⊥ }
    ensures only { (end : Tree) (fault : Fault) (place : ℕ) → EndsAfterVersion remove_and_byte ⊥
        (Ended.Fault end (SessionFault.Wire (WireError.Unreadable fault place))) → (fault ≡ Fault.Trailing)
        × (place ≡ 9) }
{}

/// Two requests with one id in one piece: the first is answered, and the second ends the session.
pub fn same_id_twice()
    ensures { Served blank (init_bytes ++ stat_bytes ++ stat_bytes) ⊥ (version_bytes ++ attrs_bytes)
        (handshake_bytes ++ (67 ∷ stat_bytes) ++ 83 ∷ attrs_bytes) (Ended.Fault blank (SessionFault.IdInUse 7)) }
{}

/// An INIT, and then a request in which the input ends: VERSION is written, and the session ends with `Cut` at the
/// request's place. It ends at no other place, and not as if the input had ended after a whole packet.
pub fn cut_in_a_request()
    ensures served { EndsAfterVersion mkdir_beginning (Unit {0}) (Ended.Fault blank (SessionFault.Cut 9)) }
    ensures only { (end : Tree) (place : ℕ) → EndsAfterVersion mkdir_beginning (Unit {0})
        (Ended.Fault end (SessionFault.Cut place)) → place ≡ 9 }
    ensures not_finished { (end : Tree) → EndsAfterVersion mkdir_beginning (Unit {0}) (Ended.Finished end) → ⊥ }
{}

/// The input ends before its first packet is complete: nothing is written or logged, and the tree stays as it came.
pub fn no_first_packet()
    ensures empty { (start : Tree) → Served start [] (Unit {0}) [] [] (Ended.Fault start SessionFault.BadInit) }
    ensures cut { (start : Tree) → Served start (hex (codes "00000005 01 000000")) (Unit {0}) [] []
        (Ended.Fault start SessionFault.BadInit) }
{}

/// The first packet is an INIT of version 2: the session ends, although more input may come.
pub fn old_version()
    ensures { (start : Tree) → Served start (hex (codes "00000005 01 00000002")) ⊥ [] []
        (Ended.Fault start SessionFault.BadInit) }
{}
