//! Going along a line up to a column.
ghost use Rattle.std.specs.Prelude.{◌≡◌, ℕ, ◌+◌, ◌≤◌, length, drop, take};
ghost use Rattle.std.specs.Str.{IsCharBoundary};
ghost use Rattle.justfile_lines.specs.Positions.{feeds, last_line, width};

use crate::encoding::Encoding;
use memchr::memrchr;
use std::simd::prelude::*;

/// How many bytes are looked at at once.
const LANES: usize = 64;

/// Returns how many line feeds are among so many bytes from an offset on.
#[inline(always)]
fn feeds_at(text: &[u8], at: usize) -> usize
    requires { at + LANES ≤ length text.now }
    ensures is { result ≡ feeds (take LANES (drop at text.now)) }
    ensures bound { result ≤ LANES }
{
    let bytes = u8x64::from_slice(&text[at..]);
    let feeds = bytes.simd_eq(u8x64::splat(b'\n')).to_bitmask();
    feeds.count_ones() as usize
}

/// Returns how many line feeds a text has.
#[tactic(auto, using(crate::proofs::Feeds::feeds_step))]
fn feeds(text: &[u8]) -> usize
    ensures is { result ≡ feeds text.now }
    ensures bound { result ≤ length text.now }
{
    let blocks = text.len() / LANES;
    let mut count = 0;
    for block in 0..blocks {
        count += feeds_at(text, block * LANES);
    }
    for at in blocks * LANES..text.len() {
        count += usize::from(text[at] == b'\n');
    }
    count
}

/// Returns where the last line of a text begins.
fn last_start(text: &[u8]) -> usize
    ensures within { result ≤ length text.now }
    ensures is { drop result text.now ≡ last_line text.now }
{
    match memrchr(b'\n', text) {
        Some(feed) => feed + 1,
        None => 0,
    }
}

/// Returns the number of the last line of a text, from 0, and that line.
pub(crate) fn last_line(text: &[u8]) -> (usize, &[u8])
    ensures number { result.0 ≡ feeds text.now }
    ensures line { result.1.now ≡ last_line text.now }
{
    let start = last_start(text);
    (feeds(text), &text[start..])
}

/// Returns the width of a text.
pub(crate) fn width(encoding: Encoding, text: &[u8]) -> usize
    ensures { result ≡ width encoding text.now }
{
    let mut width = 0;
    for byte in text {
        width += encoding.byte_units(*byte);
    }
    width
}

/// Returns the last bound of a character from `start` to `end` up to which the text from `start` on
/// has no more units than the column.
pub(crate) fn last_up_to(
    encoding: Encoding,
    text: &str,
    start: usize,
    end: usize,
    column: usize,
) -> usize
    requires order { start ≤ end }
    requires within { end ≤ length text.now }
    requires bound { IsCharBoundary text.now start }
    ensures boundary { IsCharBoundary text.now result }
    ensures from { start ≤ result }
    ensures to { result ≤ end }
    ensures column { width encoding (take result text.now)
        ≤ width encoding (take start text.now) + column }
    ensures last { (other : ℕ) → IsCharBoundary text.now other → other ≤ end
        → width encoding (take other text.now) ≤ width encoding (take start text.now) + column
        → other ≤ result }
{
    let bytes = text.as_bytes();
    let mut last = start;
    let mut at = start;
    let mut units = 0;
    'bytes: while at < end {
        units += encoding.byte_units(bytes[at]);
        if units > column {
            break;
        }
        at += 1;
        if text.is_char_boundary(at) {
            last = at;
        }
    }
    last
}
