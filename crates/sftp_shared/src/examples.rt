//! Worked examples of several clients, computed by the checker. The functions do nothing; each promise is in the
//! contract.
#![tactic(auto, unfolding(sftp_handles::specs::Allowed::step, sftp_handles::specs::Allowed::steps, sftp_handles::specs::Allowed::causes, sftp_handles::specs::Allowed::answers, sftp_handles::specs::Allowed::after, sftp_handles::specs::Allowed::told_to, sftp_handles::specs::RequestRows::limits_data, sftp_handles::specs::State::seen, sftp_handles::specs::State::pins_of, sftp_tree::specs::Requests::led, sftp_tree::specs::PlaceCauses::no_causes, sftp_tree::specs::PlaceCauses::when, sftp_tree::specs::PlaceCauses::joined, sftp_tree::specs::Requests::plain_causes, sftp_tree::specs::Requests::causes, sftp_tree::specs::Requests::outcome, sftp_tree::specs::Walk::meets, sftp_tree::specs::Walk::walk_parts, sftp_tree::specs::Walk::walk, sftp_tree::specs::Walk::reached, sftp_tree::specs::Tree::has_entries, sftp_tree::specs::Tree::fits, sftp_path::specs::Place::components, sftp_path::specs::Place::parts, sftp_path::specs::Place::is_good_path, sftp_path::specs::Table::get, sftp_path::specs::Table::put, sftp_path::specs::Table::without, sftp_path::specs::Table::retain, sftp_path::specs::Table::from_entries))]

ghost use Rattle.std.specs.Prelude.{◌≡◌, ◌∷◌, [], Some, codes};
ghost use Rattle.std.specs.Option.{option_map};
ghost use Rattle.sftp_packets.specs.declared.requests.Ask.TheVariants.{Close, Read, Write, Remove};
ghost use Rattle.sftp_packets.specs.declared.replies.Answer.TheVariants.{Data};
ghost use Rattle.sftp_tree.specs.Picture.{blank};
ghost use Rattle.sftp_handles.specs.Allowed.{steps};
ghost use Rattle.sftp_handles.specs.Examples.{closed, emptied, opened, code, done};
ghost use Rattle.sftp_joint.specs.Joint.{joint_handle};
ghost use Rattle.sftp_shared.specs.Sharing.{left_by};

/// Two clients are given a handle of the same name. Each reaches its own file with it; after one has closed it, the
/// other still reads, from a file that has no name any more.
pub fn one_name_for_two_clients()
    ensures { steps (closed blank) (opened (codes "f") 0xb (joint_handle 0 (codes "h"))
        ∷ done (Write (joint_handle 0 (codes "h")) 0 (codes "abc"))
        ∷ opened (codes "f") 0x1 (joint_handle 1 (codes "h"))
        ∷ done (Remove (codes "f"))
        ∷ done (Close (joint_handle 0 (codes "h")))
        ∷ (Read (joint_handle 0 (codes "h")) 0 10, code 4)
        ∷ (Read (joint_handle 1 (codes "h")) 0 10, Data (codes "abc"))
        ∷ done (Close (joint_handle 1 (codes "h"))) ∷ [])
        ≡ Some (closed (emptied 1)) }
{}

/// A client leaves while it alone has a removed file open: the file is gone.
pub fn left_with_a_removed_file()
    ensures { option_map (left_by 0) (steps (closed blank) (opened (codes "f") 0xb (joint_handle 0 (codes "h"))
        ∷ done (Remove (codes "f")) ∷ []))
        ≡ Some (closed (emptied 1)) }
{}
