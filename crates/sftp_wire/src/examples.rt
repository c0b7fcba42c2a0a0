//! Worked examples: some bytes with the packets that they are read as, and some packets with their encodings, as
//! theorems about the definitions that the contracts of `encode` and `front` name.
#![tactic(auto, unfolding(sftp_packets::specs::Packets::spelling, sftp_strings::specs::Hexadecimal::hex, crate::specs::Fronts::front_of, sftp_packets::specs::Packets::packet_of, sftp_packets::specs::Packets::client_packet_at, sftp_packets::specs::Packets::server_packet_at, sftp_packets::specs::Requests::extension_at, sftp_packets::specs::Requests::extension_data_at, sftp_packets::specs::Reading::names_at, sftp_packets::specs::Reading::name_item_at, sftp_packets::specs::Reading::attributes_at, sftp_packets::specs::Reading::attribute_fields_at, sftp_packets::specs::Reading::counted_pairs_at, sftp_packets::specs::Reading::pairs_at, sftp_packets::specs::Reading::pair_at, sftp_packets::specs::Reading::handle_at, sftp_packets::specs::Reading::string_at, sftp_packets::specs::Reading::two_uint32_at, sftp_packets::specs::Reading::uint64_at, sftp_packets::specs::Reading::uint32_at))]

ghost use Rattle.std.specs.Prelude.{◌≡◌, true, [], ◌∷◌, codes};
ghost use Rattle.sftp_packets.specs.Requests.{server_extensions};
ghost use Rattle.sftp_packets.specs.Packets.{hides_extension};
ghost use Rattle.sftp_packets.specs.Spelling.{no_attributes};
ghost use Rattle.sftp_strings.specs.Hexadecimal.{hex};
ghost use Rattle.sftp_wire.specs.Fronts.{front_of};
ghost use Rattle.sftp_wire.specs.Examples.{IsRow, IsAsked, IsAnswered, version_bytes};

use sftp_packets::{Answer, Ask, Fault, Packet, Side};

/// The first packets of a session: the nine bytes of an INIT of version 3 without extensions, and the 124
/// bytes of the server's VERSION.
pub fn handshake()
    ensures init { IsRow Side.Client (hex (codes "00000005 01 00000003")) (Packet.Init 3 []) }
    ensures version { IsRow Side.Server version_bytes (Packet.Version 3 server_extensions) }
{}

/// A request to make the directory `/a`, and the reply OK.
pub fn mkdir_and_reply()
    ensures request { IsAsked (codes "0000000f 0e 00000001 00000002 2f61 00000000") 1
        (Ask.Mkdir (codes "/a") no_attributes) }
    ensures reply { IsAnswered (codes "00000011 65 00000001 00000000 00000000 00000000") 1 (Answer.Status 0 [] []) }
{}

/// The requests on paths (draft, section 6). A path is any bytes, and may be empty.
pub fn requests_on_paths()
    ensures open_file { IsAsked
        (codes "00000021 03 fffffffe 00000004 2f64c3a9 0000001a 00000005 0000000100000002 000001a4") 0xffff_fffe
        (Ask.Open (hex (codes "2f64c3a9")) 0x1a
        (record no_attributes { size = Some 0x1_0000_0002; permissions = Some 0o644 })) }
    ensures lstat { IsAsked (codes "00000009 07 0000007f 00000000") 127 (Ask.Lstat []) }
    ensures setstat { IsAsked
        (codes "0000001f 09 00000004 00000002 2f73 0000000a 00000000 000003e9 5fee6600 5fee6601") 4
        (Ask.Setstat (codes "/s")
        (record no_attributes { owner = Some (0, 1001); times = Some (0x5fee_6600, 0x5fee_6601) })) }
    ensures opendir { IsAsked (codes "0000000a 0b 00000006 00000001 2e") 6 (Ask.Opendir (codes ".")) }
    ensures remove { IsAsked (codes "0000000c 0d 00000008 00000003 2ffffe") 8 (Ask.Remove (hex (codes "2ffffe"))) }
    ensures mkdir { IsAsked (codes "00000013 0e 00000009 00000002 2f61 00000004 000001ed") 9
        (Ask.Mkdir (codes "/a") (record no_attributes { permissions = Some 0o755 })) }
    ensures rmdir { IsAsked (codes "0000000c 0f 0000000a 00000003 2f612f") 10 (Ask.Rmdir (codes "/a/")) }
    ensures realpath { IsAsked (codes "0000000e 10 0000000b 00000005 2e2e2f2e2e") 11 (Ask.Realpath (codes "../..")) }
    ensures stat { IsAsked (codes "0000000a 11 0000000c 00000001 2f") 12 (Ask.Stat (codes "/")) }
    ensures rename { IsAsked (codes "00000011 12 0000000d 00000002 2f6f 00000002 2f6e") 13
        (Ask.Rename (codes "/o") (codes "/n")) }
    ensures readlink { IsAsked (codes "0000000b 13 0000000e 00000002 2f6c") 14 (Ask.Readlink (codes "/l")) }
    // The target of the link comes first.
    ensures symlink { IsAsked (codes "00000012 14 0000000f 00000003 2e2e74 00000002 2f6c") 15
        (Ask.Symlink (codes "..t") (codes "/l")) }
{}

/// The requests on handles (draft, section 6). A handle is any bytes, and may be empty.
pub fn requests_on_handles()
    ensures close { IsAsked (codes "0000000b 04 00000000 00000002 00ff") 0 (Ask.Close (hex (codes "00ff"))) }
    ensures read { IsAsked (codes "00000016 05 00000002 00000001 68 0000000100000002 00008000") 2
        (Ask.Read (codes "h") 0x1_0000_0002 0x8000) }
    ensures write { IsAsked (codes "0000001a 06 00000003 00000002 6831 ffffffffffffffff 00000003 610080") 3
        (Ask.Write (codes "h1") 0xffff_ffff_ffff_ffff (hex (codes "610080"))) }
    ensures fstat { IsAsked (codes "00000009 08 80000000 00000000") 0x8000_0000 (Ask.Fstat []) }
    ensures fsetstat { IsAsked
        (codes "00000023 0a 00000005 00000001 68 80000001 0000000000000000 00000001 00000001 6b 00000000") 5
        (Ask.Fsetstat (codes "h") (record no_attributes { size = Some 0; extended = Some ((codes "k", []) ∷ []) })) }
    ensures readdir { IsAsked (codes "0000000d 0c 00000007 00000004 00000000") 7
        (Ask.Readdir (hex (codes "00000000"))) }
{}

/// The extensions that have requests of their own (OpenSSH's PROTOCOL, sections 4.3, 4.5 and 4.6, and one of this
/// profile's own), and an unknown one.
pub fn extensions()
    ensures posix_rename { IsAsked
        (codes
        "0000002d c8 00000001 00000018 706f7369782d72656e616d65406f70656e7373682e636f6d 00000002 2f61 00000002 2f62") 1
        (Ask.PosixRename (codes "/a") (codes "/b")) }
    ensures hardlink { IsAsked
        (codes "00000027 c8 00000001 00000014 686172646c696e6b406f70656e7373682e636f6d 00000002 2f61 00000000") 1
        (Ask.Hardlink (codes "/a") []) }
    ensures fsync { IsAsked
        (codes "0000001f c8 00000001 00000011 6673796e63406f70656e7373682e636f6d 00000001 68") 1
        (Ask.Fsync (codes "h")) }
    ensures limits { IsAsked (codes "0000001b c8 00000005 00000012 6c696d697473407366747076332e74657374") 5 Ask.Limits }
    ensures limits_and_more { front_of Side.Client
        (hex (codes "0000001c c8 00000005 00000012 6c696d697473407366747076332e74657374 00")) ≡ Err Fault.Trailing }
    ensures unknown { IsAsked (codes "0000000c c8 00000002 00000001 78 6162") 2 (Ask.Unknown (codes "x") (codes "ab")) }
    // As unknown extensions fsync and limits have no encoding.
    ensures hidden { hides_extension
        (Packet.Request (record { id = 2; ask = Ask.Unknown (codes "fsync@openssh.com") [] })) ≡ true }
    ensures limits_hidden { hides_extension
        (Packet.Request (record { id = 2; ask = Ask.Unknown (codes "limits@sftpv3.test") [] })) ≡ true }
{}

/// The replies (draft, sections 7 and 8).
pub fn replies()
    ensures status { IsAnswered (codes "00000017 65 00000010 00000004 00000004 6661696c 00000002 656e") 16
        (Answer.Status 4 (codes "fail") (codes "en")) }
    ensures handle { IsAnswered (codes "0000000b 66 00000011 00000002 0001") 17 (Answer.Handle (hex (codes "0001"))) }
    ensures bytes { IsAnswered (codes "0000000c 67 00000012 00000003 00ff7f") 18 (Answer.Data (hex (codes "00ff7f"))) }
    ensures names { IsAnswered
        (codes
        "00000029 68 00000013 00000002 00000001 61 00000001 62 00000004 000081a4 00000002 c3a9 00000000 00000000") 19
        (Answer.Name ((record {
          filename = codes "a";
          longname = codes "b";
          attrs = record no_attributes { permissions = Some 0o100644 };
        })
        ∷ (record { filename = hex (codes "c3a9"); longname = []; attrs = no_attributes }) ∷ [])) }
    ensures one_name { IsAnswered (codes "00000017 68 00000001 00000001 00000001 2f 00000001 2f 00000000") 1
        (Answer.Name ((record { filename = codes "/"; longname = codes "/"; attrs = no_attributes }) ∷ [])) }
    ensures attrs { IsAnswered (codes "0000001d 69 00000007 00000007 0000000000000000 00000000 00000000 000041ed") 7
        (Answer.Attrs (record no_attributes { size = Some 0; owner = Some (0, 0); permissions = Some 0o40755 })) }
    ensures extended { IsAnswered (codes "00000008 c9 00000018 00c8ff") 24 (Answer.Extended (hex (codes "00c8ff"))) }
{}

/// A length is checked as soon as its four bytes have come: 0 is too short, four bytes less than a whole packet may
/// have is the most, and one more is too long.
pub fn lengths()
    ensures zero { front_of Side.Client (hex (codes "00000000")) ≡ Err Fault.Length }
    ensures most { front_of Side.Client (hex (codes "0003fffc")) ≡ Ok None }
    ensures beyond { front_of Side.Client (hex (codes "0003fffd")) ≡ Err Fault.Length }
    ensures cut { front_of Side.Client (hex (codes "0003ff")) ≡ Ok None }
{}

/// The first fault from left to right: a type of the other side before its fields, attribute flags before the fields
/// that they name, a field beyond the packet's end, and bytes after the last field.
pub fn first_faults()
    ensures other_side { front_of Side.Client (hex (codes "00000001 65")) ≡ Err Fault.WrongType }
    ensures no_id { front_of Side.Client (hex (codes "00000001 03")) ≡ Err Fault.Short }
    ensures byte_less { front_of Side.Client (hex (codes "0000000a 0f 00000001 00000002 2f")) ≡ Err Fault.Short }
    ensures byte_more { front_of Side.Client (hex (codes "0000000c 0f 00000001 00000002 2f61 00"))
        ≡ Err Fault.Trailing }
    ensures flags_unknown { front_of Side.Client (hex (codes "0000000f 0e 00000001 00000002 2f61 00000010"))
        ≡ Err Fault.Flags }
    ensures flags_first { front_of Side.Client (hex (codes "0000000f 0e 00000001 00000002 2f61 00000011"))
        ≡ Err Fault.Flags }
    ensures flags_of_reply { front_of Side.Server (hex (codes "00000009 69 00000001 00000010")) ≡ Err Fault.Flags }
    ensures count_of_names { front_of Side.Server (hex (codes "00000009 68 00000001 00000002")) ≡ Err Fault.Short }
{}

/// The length of a handle is checked before its bytes, on both sides and in an extension: 257 is too long, and 256 is
/// not.
pub fn handles_too_long()
    ensures asked { front_of Side.Client (hex (codes "0000000d 04 00000001 00000101 00000000"))
        ≡ Err Fault.HandleTooLong }
    ensures asked_within { front_of Side.Client (hex (codes "00000009 04 00000001 00000100")) ≡ Err Fault.Short }
    ensures fsync { front_of Side.Client
        (hex (codes "0000001e c8 00000001 00000011 6673796e63406f70656e7373682e636f6d 00000101"))
        ≡ Err Fault.HandleTooLong }
    ensures given { front_of Side.Server (hex (codes "0000000d 66 00000001 00000101 00000000"))
        ≡ Err Fault.HandleTooLong }
    ensures given_within { front_of Side.Server (hex (codes "00000009 66 00000001 00000100")) ≡ Err Fault.Short }
{}

/// Extended attributes without a pair differ from absent ones, and are written as the same bytes again.
pub fn no_pairs()
    ensures asked { IsAsked (codes "00000013 0e 00000001 00000002 2f61 80000000 00000000") 1
        (Ask.Mkdir (codes "/a") (record no_attributes { extended = Some [] })) }
    ensures given { IsAnswered (codes "0000000d 69 00000001 80000000 00000000") 1
        (Answer.Attrs (record no_attributes { extended = Some [] })) }
{}
