//! Theorems about lines of text, as contracts of functions with empty bodies.
ghost use Rattle.std.specs.Prelude.{◌≡◌, List, [], ℕ, Bool, Some, IsSome, IsTrue};
ghost use Rattle.std.specs.List.{AllByRecursion, list_all};
ghost use Rattle.sftp_packets.specs.declared.packets.Side.{Side};
ghost use Rattle.sftp_packets.specs.declared.packets.Packet.{Packet};
ghost use Rattle.sftp_packets.specs.Spelling.{AreBytes};
ghost use Rattle.sftp_packets.specs.Packets.{HasSpelling, side_of, spelling};
ghost use Rattle.sftp_text.specs.Formats.{ReadsBack};
ghost use Rattle.sftp_text.specs.Lines.{is_printable, line_of, line_read, named_line, records_of, text_of, text_read};
ghost use Rattle.sftp_text.specs.Lines.{transcript_of};
ghost use Rattle.sftp_text.specs.Trees.{head_text, root_text, entry_text, show_tree, tree_read};

/// The line of a record is read as its side and its bytes, whatever the bytes.
#[tactic(auto, using(crate::proofs::Written::line_laws))]
pub fn lines_are_read()
    ensures { (side : Side) (bytes : List ℕ) → AreBytes bytes → line_read (line_of side bytes) ≡ Some (side, bytes) }
{}

/// The line of a record has printable ASCII alone, so no line feed.
pub fn lines_are_printable()
    ensures { (side : Side) (bytes : List ℕ) → AreBytes bytes → IsTrue (list_all is_printable (line_of side bytes)) }
{}

/// The text of a session, a line for each record, is read as that session.
#[tactic(auto, using(crate::proofs::Written::session_laws))]
pub fn sessions_are_read()
    ensures { (records : List (Side × List ℕ)) → AllByRecursion (λ r. AreBytes r.1) records
        → text_read (text_of records) ≡ Some records }
{}

/// The line of a head that is in front of bytes is read as the bytes of the head.
#[tactic(auto, using(crate::proofs::TreeLines::heads_back))]
pub fn heads_are_read()
    ensures { (bytes line left : List ℕ) → AreBytes bytes → head_text.show [] bytes ≡ Some (line, left)
        → ReadsBack head_text bytes line left }
{}

/// The line of a root that is in front of bytes is read as the bytes of the root.
#[tactic(auto, using(crate::proofs::TreeLines::roots_back))]
pub fn roots_are_read()
    ensures { (wide : Bool) (bytes line left : List ℕ) → AreBytes bytes
        → (root_text wide).show [] bytes ≡ Some (line, left) → ReadsBack (root_text wide) bytes line left }
{}

/// The line of an entry that is in front of bytes is read as the bytes of the entry.
#[tactic(auto, using(crate::proofs::TreeLines::entries_back))]
pub fn entries_are_read()
    ensures { (wide : Bool) (bytes line left : List ℕ) → AreBytes bytes
        → (entry_text wide).show [] bytes ≡ Some (line, left) → ReadsBack (entry_text wide) bytes line left }
{}

/// Each packet that has an encoding is shown by its name, and not in hexadecimal.
#[tactic(auto, using(crate::proofs::Named::named_laws))]
pub fn packets_have_names()
    ensures { (packet : Packet) → HasSpelling packet → IsSome (named_line (side_of packet) (spelling packet)) }
{}

/// The text of a transcript file is read as its records, which are the whole file.
pub fn transcripts_are_read()
    ensures { (bytes : List ℕ) (records : List (Side × List ℕ)) → AreBytes bytes → records_of bytes ≡ Some records
        → (text_read (text_of records) ≡ Some records) × (transcript_of records ≡ bytes) }
{}

/// The text of a tree file is read as that file.
#[tactic(auto, using(crate::proofs::TreeLines::file_laws))]
pub fn trees_are_read()
    ensures { (bytes text : List ℕ) → AreBytes bytes → show_tree [] bytes ≡ Some (text, [])
        → tree_read text ≡ Some bytes }
{}
