//! Lines of a text.
ghost use Rattle.std.specs.Prelude.{◌≡◌, ◌<◌, ◌≤◌, [], take, drop, length, IfSome, MatchOption};
ghost use Rattle.sftp_text.specs.Lines as lines;
ghost use Rattle.sftp_text.specs.Texts.{first_line, behind_line};

/// Takes a line from the front of a text, without its line feed. `None` at the end of the text.
pub fn take_line<'a>(text: &mut &'a [u8]) -> Option<&'a [u8]>
    ensures cut { MatchOption result (text.old.now ≡ [])
        (λ line. (line.now ≡ first_line text.old.now) × (text.new.now ≡ behind_line text.old.now)) }
    ensures shorter { IfSome result (λ _. length text.new.now < length text.old.now) }
{
    if text.is_empty() {
        return None;
    }
    let (line, rest) = text.split_at(line_length(text));
    *text = match rest.split_first() {
        Some((_, rest)) => rest,
        None => rest,
    };
    Some(line)
}

/// How many bytes are in front of the first line feed, or of the end.
#[tactic(auto, using(crate::proofs::TextLaws::line_steps))]
fn line_length(text: &[u8]) -> usize
    ensures within { result ≤ length text.now }
    ensures line { take result text.now ≡ first_line text.now }
    ensures behind { drop 1 (drop result text.now) ≡ behind_line text.now }
{
    let mut left = text;
    'bytes: while let Some((first, rest)) = left.split_first() {
        if *first == b'\n' {
            return text.len() - left.len();
        }
        left = rest;
    }
    text.len() - left.len()
}

/// Whether a line says nothing: it is blank, or its first byte but spaces is `#`.
pub fn is_blank(line: &[u8]) -> bool
    ensures { result ≡ lines.is_blank line.now }
{
    let mut left = line;
    'bytes: while let Some((first, rest)) = left.split_first() {
        if *first != b' ' {
            return *first == b'#';
        }
        left = rest;
    }
    true
}
