//! Words and marks: what a line has and the bytes do not, and what the bytes have and the line does not.
ghost use Rattle.std.specs.Prelude.{◌≡◌, ◌≢◌, [], MatchOption, MatchResult};
ghost use Rattle.sftp_text.specs.Formats.{strip};
ghost use Rattle.sftp_text.specs.Trees.{MovesOver, IsStripped};

use crate::errors::{Expected, Stop};

/// What follows a word at the front of a line, or of bytes.
pub(crate) fn after_word<'a>(word: &[u8], line: &'a [u8]) -> Option<&'a [u8]>
    ensures { MatchOption result (strip word.now line.now ≡ None) (λ rest. strip word.now line.now ≡ Some rest.now) }
{
    line.strip_prefix(word)
}

/// Takes these bytes from the front of a line, or of the bytes of a packet.
pub(crate) fn read_word(word: &[u8], expected: Expected, line: &mut &[u8]) -> Result<(), Stop>
    ensures { MovesOver result line.new.now (strip word.now line.old.now) }
{
    let Some(rest) = after_word(word, line) else {
        return Err(Stop::Unfit(expected));
    };
    *line = rest;
    Ok(())
}

/// Takes a label from the front of a line. Where it is not there, the line is left at the word behind a space.
pub(crate) fn read_key(label: &[u8], expected: Expected, line: &mut &[u8]) -> Result<(), Stop>
    ensures { MovesOver result line.new.now (strip label.now line.old.now) }
{
    if let Some(rest) = after_word(label, line) {
        *line = rest;
        return Ok(());
    }
    if let Some(word) = after_word(b" ", line) {
        *line = word;
    }
    Err(Stop::Unfit(expected))
}

/// Takes these bytes from the front of a line if they are there, and says whether they were.
pub(crate) fn read_label(label: &[u8], line: &mut &[u8]) -> bool
    ensures { IsStripped result line.old.now line.new.now (strip label.now line.old.now) }
{
    let Some(rest) = after_word(label, line) else {
        return false;
    };
    *line = rest;
    true
}

/// Succeeds at the end.
pub(crate) fn read_end(line: &[u8]) -> Result<(), Stop>
    ensures { MatchResult result (λ _. line.now ≡ []) (λ _. line.now ≢ []) }
{
    if line.is_empty() {
        Ok(())
    } else {
        Err(Stop::Unfit(Expected::End))
    }
}
