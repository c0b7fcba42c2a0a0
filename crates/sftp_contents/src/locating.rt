//! In which piece of a content a byte is.
ghost use Rattle.std.specs.Prelude.{◌≡◌, ◌+◌, ◌-◌, ◌<◌, ◌≤◌, ◌^◌, ℕ};
ghost use Rattle.sftp_contents.specs.Pieces as pieces;

/// How many bytes a page has.
pub(crate) const PAGE: u64 = 65536;

/// Where a byte is: in which piece, where in it, and how many bytes the piece has from there on.
#[derive(Clone, Copy, Drop)]
pub(crate) struct Position {
    /// 0 is the front; the page of a number is the piece of the next number.
    pub(crate) piece: u64,
    pub(crate) offset: usize,
    pub(crate) left: u64,
}

/// Where a byte is if pages begin behind `room` bytes.
#[tactic(auto, unfolding(crate::specs::Pieces::piece_number, crate::specs::Pieces::piece_offset, crate::specs::Pieces::piece_left))]
pub(crate) fn locate(room: u64, at: u64) -> Position
    requires { at < 2 ^ 63 }
    ensures piece { result.piece ≡ pieces.piece_number room at }
    ensures offset { result.offset ≡ pieces.piece_offset room at }
    ensures left { result.left ≡ pieces.piece_left room at }
    ensures low { result.offset ≤ at }
    ensures some { 0 < result.left }
{
    if at < room {
        return Position {
            piece: 0,
            offset: at as usize,
            left: room - at,
        };
    }
    let behind = at - room;
    let offset = behind % PAGE;
    Position {
        piece: behind / PAGE + 1,
        offset: offset as usize,
        left: PAGE - offset,
    }
}
