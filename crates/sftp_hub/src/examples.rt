//! A worked example, computed by the checker. The function does nothing; its promise is in the contract.
ghost use Rattle.std.specs.Prelude.{Option, None};
ghost use Rattle.sftp_tree.specs.Picture.{blank};
ghost use Rattle.sftp_server.specs.Served.{usual};
ghost use Rattle.sftp_frames.specs.Frames.{frames_text};
ghost use Rattle.sftp_hub.specs.Promised.{ServedMany};
ghost use Rattle.sftp_hub.specs.Examples.{two_clients, two_answers};

use crate::ends::HubEnded;

/// Two clients on the blank tree. One sends a request with a byte too many, and its session ends; the other one is
/// served as if it were alone. The input ends, and the tree is as it was.
pub fn one_of_two_clients_breaks()
    ensures { ServedMany (usual blank) (frames_text two_clients) (Unit {0}) (frames_text two_answers)
        (HubEnded.Finished blank) None }
{}
