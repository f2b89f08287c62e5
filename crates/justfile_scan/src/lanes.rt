//! How many of the next sixteen bytes come before the first that isn't of a class, by one load.
ghost use Rattle.std.specs.Prelude.{◌≡◌, ◌+◌, ◌≤◌, ◌==◌, if◌then◌else◌, length, take, drop};
ghost use Rattle.std.specs.List.{prefix_len};
ghost use Rattle.std.specs.Int.{w64, trailing_zeros};
ghost use Rattle.justfile_model.specs.declared.raw_text.RawText.TheVariants.{Body, Comment};
ghost use Rattle.justfile_model.specs.Lexing.Bytes.{word_len};
ghost use Rattle.justfile_scan.specs.RawTexts.{is_plain, is_plain_in};

use std::simd::prelude::*;

/// The number of bytes of a load.
pub const LANES: usize = 16;

/// Returns the index of the lowest bit that is set, or `LANES` if none is.
#[inline(always)]
fn first_set(mask: u64) -> usize
    ensures { result ≡ (if mask == 0 then LANES else trailing_zeros w64 mask) }
{
    if mask == 0 {
        LANES
    } else {
        mask.trailing_zeros() as usize
    }
}

/// Returns how many bytes from `at` on, at most `LANES`, come before the first that an identifier
/// can't contain.
#[inline(always)]
pub fn word_run(bytes: &[u8], at: usize) -> usize
    requires { at + LANES ≤ length bytes.now }
    ensures { result ≡ word_len (take LANES (drop at bytes.now)) }
{
    let v = u8x16::from_slice(&bytes[at..]);
    let from_a = (v | u8x16::splat(0x20)) - u8x16::splat(b'a');
    let from_0 = v - u8x16::splat(b'0');
    let stops = from_a.simd_ge(u8x16::splat(26))
        & from_0.simd_ge(u8x16::splat(10))
        & v.simd_ne(u8x16::splat(b'_'))
        & v.simd_ne(u8x16::splat(b'-'));
    first_set(stops.to_bitmask())
}

/// Returns how many bytes from `at` on, at most `LANES`, come before the first that isn't plain in
/// a comment.
#[inline(always)]
pub fn comment_run(bytes: &[u8], at: usize) -> usize
    requires { at + LANES ≤ length bytes.now }
    ensures { result ≡ prefix_len (is_plain Comment) (take LANES (drop at bytes.now)) }
{
    let v = u8x16::from_slice(&bytes[at..]);
    first_set(v.simd_le(u8x16::splat(b'\r')).to_bitmask())
}

/// Returns how many bytes from `at` on, at most `LANES`, come before the first that isn't plain in
/// a body.
#[inline(always)]
pub fn body_run(bytes: &[u8], at: usize) -> usize
    requires { at + LANES ≤ length bytes.now }
    ensures { result ≡ prefix_len (is_plain Body) (take LANES (drop at bytes.now)) }
{
    let v = u8x16::from_slice(&bytes[at..]);
    let stops = v.simd_le(u8x16::splat(b'\r')) | v.simd_eq(u8x16::splat(b'{'));
    first_set(stops.to_bitmask())
}

/// Returns how many bytes from `at` on, at most `LANES`, come before the first that isn't plain in
/// a literal with this quote.
#[inline(always)]
pub fn literal_run(quote: u8, bytes: &[u8], at: usize) -> usize
    requires { at + LANES ≤ length bytes.now }
    ensures { result ≡ prefix_len (is_plain_in quote) (take LANES (drop at bytes.now)) }
{
    let v = u8x16::from_slice(&bytes[at..]);
    let stops = v.simd_eq(u8x16::splat(quote))
        | v.simd_eq(u8x16::splat(b'\\'))
        | v.simd_eq(u8x16::splat(b'{'));
    first_set(stops.to_bitmask())
}
