//! A worked example: the flags of OPEN by their numbers. Those with bytes of packets are in `sftp_wire`.
ghost use Rattle.std.specs.Prelude.{◌≡◌};

use crate::open_flags::OpenFlags;

/// The flags of OPEN (draft, section 6.3).
pub fn open_flags()
    ensures read { OpenFlags.READ.0 ≡ 0x0000_0001 }
    ensures write { OpenFlags.WRITE.0 ≡ 0x0000_0002 }
    ensures append { OpenFlags.APPEND.0 ≡ 0x0000_0004 }
    ensures creat { OpenFlags.CREAT.0 ≡ 0x0000_0008 }
    ensures trunc { OpenFlags.TRUNC.0 ≡ 0x0000_0010 }
    ensures excl { OpenFlags.EXCL.0 ≡ 0x0000_0020 }
{}
