//! What C, Python, Node or a page calls: formats a justfile from bytes into bytes that the caller
//! owns. `library/justfile.h` declares it to C.
#![tactic(auto)]

mod answer;
#[cfg(test)]
mod tests;

ghost use Rattle.std.specs.Prelude.{◌≡◌, ◌≢◌, ◌<◌, drop, length};
ghost use Rattle.std.specs.Str.{IsUtf8};
ghost use Rattle.justfile_canonical.specs.Formatting.{HasNone, IsFormatted};
ghost use Rattle.justfile_c.specs.Answers.{Gives, IsFailure, IsNowhere, IsRejected, IsStatus};

use crate::answer::{FAILED, FORMATTED, REJECTED, put, put_rejection};
use justfile_canonical::fault::FormatFault;
use justfile_canonical::formatting::format_text;
use std::alloc::Global;
use std::str;

/// What a call tells. It has numbers alone, so that a caller may pass one that holds anything.
#[derive(Clone, Copy)]
#[repr(C)]
pub struct JustfileAnswer {
    /// 0 if the answer is the formatted text, 2 if it is the lines that tell why the text has none,
    /// and 3 if it is the line that tells that the text isn't UTF-8, or that memory or numbers ran
    /// out.
    pub status: u32,
    /// 1 if the room begins with the answer, 0 if the answer is longer than the room.
    pub fits: u32,
    /// How many bytes the answer has, also if it doesn't fit. No zero follows them.
    pub length: usize,
    /// The number of bytes of the text before the token of the error; 0 if no token is told.
    pub offset: usize,
    /// The number of bytes of that token, or 0.
    pub width: usize,
    /// The line on which it begins, from 0, or 0.
    pub line: usize,
    /// The number of bytes on that line before it, or 0.
    pub column: usize,
}

/// Formats a text. The answer tells what became of it, and is in the room if it fits there. If it
/// doesn't, the room is as it was, and the caller can call again with a room of the length that is
/// told. Nothing is kept between calls.
#[unsafe(no_mangle)]
pub extern "C" fn justfile_format(
    alloc: Global,
    text: &[u8],
    room: &mut [u8],
    answer: &mut JustfileAnswer,
)
    ensures status { IsStatus answer.new.status }
    ensures formatted { answer.new.status ≡ 0 → Gives (IsFormatted text.now) answer.new room.new }
    ensures rejected { answer.new.status ≡ 2 → HasNone text.now }
    ensures told { answer.new.status ≡ 2
        → Gives (IsRejected text.now answer.new) answer.new room.new }
    ensures failed { answer.new.status ≡ 3 → Gives (IsFailure text.now) answer.new room.new }
    ensures not_utf8 { ¬ IsUtf8 text.now → answer.new.status ≡ 3 }
    ensures nowhere { answer.new.status ≢ 2 → IsNowhere answer.new }
    ensures unfitting { answer.new.fits ≡ 0
        → (room.new ≡ room.old) × (length room.old < answer.new.length) }
    ensures rest { answer.new.fits ≢ 0 → (answer.new.fits ≡ 1)
        × (drop answer.new.length room.new ≡ drop answer.new.length room.old) }
{
    *answer = match str::from_utf8(text) {
        Err(_) => put(FAILED, "error: input is not UTF-8\n", room),
        Ok(source) => match format_text(alloc, "justfile", source) {
            Ok(canonical) => put(FORMATTED, &canonical, room),
            Err(FormatFault::Rejected(rejection)) => put_rejection(&rejection, room),
            Err(FormatFault::NotPrintable) => put(
                REJECTED,
                FormatFault::NotPrintable.lines(),
                room,
            ),
            Err(fault) => put(FAILED, fault.lines(), room),
        },
    };
}
