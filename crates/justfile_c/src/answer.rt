//! Answers, and the rooms that they go into.
ghost use Rattle.std.specs.Prelude.{◌≡◌, string_bytes};
ghost use Rattle.justfile_c.specs.Answers.{IsAt, IsLaid, IsNowhere};

use crate::JustfileAnswer;
use justfile_canonical::fault::Rejection;

/// The status of a text that was formatted.
pub(crate) const FORMATTED: u32 = 0;
/// The status of a text that has no formatted text.
pub(crate) const REJECTED: u32 = 2;
/// The status if the text isn't UTF-8, or memory or numbers ran out.
pub(crate) const FAILED: u32 = 3;

/// Puts a text into the room, if it fits there. The answer tells no place.
pub(crate) fn put(status: u32, text: &str, room: &mut [u8]) -> JustfileAnswer
    ensures status { result.status ≡ status }
    ensures nowhere { IsNowhere result }
    ensures laid { IsLaid text.now room.old room.new result }
{
    let bytes = text.as_bytes();
    let fits = bytes.len() <= room.len();
    if fits {
        room[..bytes.len()].copy_from_slice(bytes);
    }
    JustfileAnswer {
        status,
        fits: u32::from(fits),
        length: bytes.len(),
        offset: 0,
        width: 0,
        line: 0,
        column: 0,
    }
}

/// Puts the lines of a rejection into the room, if they fit there. The answer tells its place.
pub(crate) fn put_rejection(rejection: &Rejection, room: &mut [u8]) -> JustfileAnswer
    ensures status { result.status ≡ 2 }
    ensures place { IsAt rejection.now.offset rejection.now.length rejection.now.line
        rejection.now.column result }
    ensures laid { IsLaid (string_bytes rejection.now.lines) room.old room.new result }
{
    let answer = put(REJECTED, &rejection.lines, room);
    JustfileAnswer {
        offset: rejection.offset,
        width: rejection.length,
        line: rejection.line,
        column: rejection.column,
        ..answer
    }
}
