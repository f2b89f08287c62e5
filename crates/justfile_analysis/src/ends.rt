//! Where a part of a justfile may end.
ghost use Rattle.std.specs.Prelude.{◌<◌, ◌≤◌, IfSome, length};
ghost use Rattle.text_parts.specs.Places.{IsPartStart};
ghost use Rattle.justfile_analysis.specs.Ends.{IsEnd, IsFurther};

use crate::reading::read_start;
use crate::rejection::Cause;
use justfile_recovery::{next_start, part_end};

/// How many ends are tried one after the other. Then each is twice as far as the one before.
pub(crate) const STEPS: usize = 8;

/// In how many bytes lines of attributes and comments are taken with what follows them.
const JOINED: usize = 512;

/// Returns the first end of the part that begins at an offset.
pub(crate) fn first_end(bytes: &[u8], start: usize) -> usize
    requires { IsPartStart bytes.now start }
    ensures { IsEnd bytes.now start result }
{
    if start < bytes.len() {
        part_end(bytes, start, JOINED)
    } else {
        bytes.len()
    }
}

/// Returns the end after this one. The ends before this one were as many as `step`.
pub(crate) fn further_end(bytes: &[u8], start: usize, end: usize, step: usize) -> usize
    requires end { IsEnd bytes.now start end }
    requires within { end < length bytes.now }
    ensures { IsFurther bytes.now end result }
{
    if step < STEPS {
        return part_end(bytes, end, JOINED);
    }
    let far = end.saturating_add(end - start);
    if far < bytes.len() {
        next_start(bytes, far.max(end + 1))
    } else {
        bytes.len()
    }
}

/// Returns the end after one up to which a part was rejected, if more of the text can make it right.
pub(crate) fn end_after(
    bytes: &[u8],
    start: usize,
    end: usize,
    step: usize,
    cause: Cause,
) -> Option<usize>
    requires end { IsEnd bytes.now start end }
    requires within { end < length bytes.now }
    ensures { IfSome result (IsFurther bytes.now end) }
{
    match cause {
        Cause::Error => None,
        Cause::EarlyEnd | Cause::OpenInterpolation => { Some(further_end(bytes, start, end, step)) }
        Cause::OpenLiteral(at) => {
            let at = read_start(start).saturating_add(at);
            end_past_literal(bytes, start, end, step, at)
        }
    }
}

/// Returns the end after the literal that begins at an offset and isn't closed before an end, if it is
/// closed. A literal that is no string and no backtick is closed like what else may end early.
fn end_past_literal(bytes: &[u8], start: usize, end: usize, step: usize, at: usize) -> Option<usize>
    requires end { IsEnd bytes.now start end }
    requires within { end < length bytes.now }
    ensures { IfSome result (IsFurther bytes.now end) }
{
    match bytes.get(at) {
        Some(quote) if is_quote(*quote) => {
            let closed = closing_quote(bytes, end, *quote, quote_length(bytes, at, *quote))?;
            Some(next_start(bytes, past_literal(bytes, start, end, step, closed)))
        }
        _ => Some(further_end(bytes, start, end, step)),
    }
}

/// Returns an offset after a literal that is closed at one: twice as far as an end, if many were tried.
fn past_literal(bytes: &[u8], start: usize, end: usize, step: usize, closed: usize) -> usize
    requires forward { start ≤ end }
    requires after { end ≤ closed }
    requires within { closed < length bytes.now }
    ensures after { end < result }
    ensures within { result ≤ length bytes.now }
{
    let after = closed + 1;
    if step < STEPS {
        return after;
    }
    after.max(end.saturating_add(end - start)).min(bytes.len())
}

/// Whether a byte is a quote or a backtick.
fn is_quote(byte: u8) -> bool {
    matches!(byte, b'"' | b'\'' | b'`')
}

/// Returns how many quotes open the literal at an offset: three or one.
fn quote_length(bytes: &[u8], at: usize, quote: u8) -> usize {
    if are_quotes(bytes, at, quote, 3) {
        3
    } else {
        1
    }
}

/// Whether there are this many quotes at an offset.
fn are_quotes(bytes: &[u8], at: usize, quote: u8, count: usize) -> bool {
    match bytes.get(at..at.saturating_add(count)) {
        Some(found) => found.iter().all(|byte| *byte == quote),
        None => false,
    }
}

/// Returns the first offset from `from` on at which there are this many quotes.
fn closing_quote(bytes: &[u8], from: usize, quote: u8, count: usize) -> Option<usize>
    ensures { IfSome result (λ at. (from ≤ at) × (at < length bytes.now)) }
{
    for at in from..bytes.len() {
        if bytes[at] == quote && are_quotes(bytes, at, quote, count) {
            return Some(at);
        }
    }
    None
}
