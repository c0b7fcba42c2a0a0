//! The frame in front of the bytes that were read.
ghost use Rattle.std.specs.Prelude.{◌≡◌, ◌<◌, length};
ghost use Rattle.sftp_frames.specs.Fronts.{IsFront, held_limit};

use sftp_strings::take_number;

/// The most bytes of a client's stream in one frame.
pub const FRAME_LIMIT: usize = 65_536;

/// What is in front of the bytes that were read.
#[derive(Clone, Copy)]
pub enum Front<'a> {
    /// A whole frame: the client's number, and some bytes of its stream; none if its stream ends.
    Whole(u32, &'a [u8]),
    /// No whole frame, and nothing that cannot become one.
    Part,
    /// The beginning of a frame that says that it has more than `FRAME_LIMIT` bytes.
    TooLong,
}

/// What is in front of the bytes.
pub fn front_frame(bytes: &[u8]) -> Front<'_>
    ensures front { IsFront bytes.now result }
    // There is room for more of a frame that is not whole.
    ensures room { result ≡ Front.Part → length bytes.now < held_limit }
{
    let Some((client, after)) = take_number(bytes) else {
        return Front::Part;
    };
    let Some((size, rest)) = take_number(after) else {
        return Front::Part;
    };
    let size = size as usize;
    if size > FRAME_LIMIT {
        return Front::TooLong;
    }
    match rest.split_at_checked(size) {
        Some((part, _)) => Front::Whole(client, part),
        None => Front::Part,
    }
}
