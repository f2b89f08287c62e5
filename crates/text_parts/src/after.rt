//! The parts of a text after a change.
ghost use Rattle.std.specs.Prelude.{◌≡◌, ℕ, ◌<◌, ◌≤◌, ◌++◌, List, IfOk, IfSome, IsTrue, drop, length, true};
ghost use Rattle.text_parts.specs.Kept.{AreLeft, IsBegun, IsFront, IsFrontOrAll, IsJoined, IsKeptTo};
ghost use Rattle.text_parts.specs.Parts.{AreParts};
ghost use Rattle.text_parts.specs.Places.{IsLineStart, IsPartStart};
ghost use Rattle.text_parts.specs.Shared.{IsShared};
ghost use Rattle.text_parts.specs.declared.part.Part.{Part as PartOf};

use crate::cut::Cut;
use crate::found::find_part;
use crate::part::Part;
use crate::shared::Shared;
use std::alloc::{AllocError, Global};

/// Returns the parts of a text, by the parts of an old text, which it was before a change: those that
/// the change doesn't concern are kept.
///
/// # Errors
///
/// Memory ran out.
pub fn parts_after<C: Cut>(
    cut: &C,
    alloc: Global,
    old_text: &str,
    old: Vec<Part<C::Known>>,
    text: &str,
) -> Result<Vec<Part<C::Known>>, AllocError>
    ensures { AreParts C.is_part true old_text.now old.items
        → IfOk result (λ parts. AreParts C.is_part true text.now parts.items) }
{
    let shared = Shared::between(old_text.as_bytes(), text.as_bytes());
    let mut parts = old;
    let mut front = Front { count: 0, end: 0 };
    'stretches: loop {
        front = kept_from::<C>(&parts, text, shared, front);
        match find_stretch(cut, alloc, text, shared, &mut parts, front)? {
            Some(next) => front = next,
            None => return Ok(parts),
        }
    }
}

/// The first parts, which are those of the text already. The others are those of the old text from
/// the same offset on.
#[derive(Clone, Copy)]
struct Front {
    /// How many they are.
    count: usize,
    /// The offset at which they end.
    end: usize,
}

/// Adds the next parts of the old text to the first ones, which are kept: those that were found in
/// what both texts begin with, as long as a line begins after each.
fn kept_from<C: Cut>(
    parts: &[Part<C::Known>],
    text: &str,
    shared: Shared,
    mut front: Front,
) -> Front
    requires start { IsPartStart text.now front.end }
    requires count { front.count ≤ length parts.now }
    ensures start { IsPartStart text.now result.end }
    ensures count { result.count ≤ length parts.now }
    ensures after { front.end ≤ result.end }
    ensures are { (old_text : List ℕ) → IsShared old_text text.now shared
        → IsFront C.is_part old_text text.now parts.now front
        → IsFront C.is_part old_text text.now parts.now result }
{
    'kept: while front.count < parts.len() {
        let part = &parts[front.count];
        let Some(end) = kept_end(part, front.end, text.as_bytes(), shared.front) else {
            break;
        };
        front.count += 1;
        front.end = end;
    }
    front
}

/// Returns where a part of an old text, which begins at an offset, ends, if it is kept.
fn kept_end<K>(part: &Part<K>, start: usize, text: &[u8], front: usize) -> Option<usize>
    ensures { IfSome result (IsKeptTo text.now start front part.now) }
{
    let end = start.checked_add(part.size)?;
    let read = start.checked_add(part.reach)?;
    if part.size == 0 || read > front || !is_line_start(text, end) {
        return None;
    }
    Some(end)
}

/// Whether a line begins at an offset, other than the first one.
fn is_line_start(text: &[u8], at: usize) -> bool
    ensures { IsTrue result → IsLineStart text.now at }
{
    at > 0 && at < text.len() && text[at - 1] == b'\n'
}

/// Finds parts in place of those of the old text, after the first ones, until one would begin where a
/// part of the old text begins that may be kept. Returns which parts are the first ones then, or
/// nothing if all others are those of the text, too.
///
/// # Errors
///
/// Memory ran out.
fn find_stretch<C: Cut>(
    cut: &C,
    alloc: Global,
    text: &str,
    shared: Shared,
    parts: &mut Vec<Part<C::Known>>,
    front: Front,
) -> Result<Option<Front>, AllocError>
    requires start { IsPartStart text.now front.end }
    requires count { front.count ≤ length parts.old.items }
    ensures start { IfOk result (λ next. IfSome next (λ n. IsPartStart text.now n.end)) }
    ensures count { IfOk result (λ next. IfSome next (λ n. n.count ≤ length parts.new.items)) }
    ensures after { IfOk result (λ next. IfSome next (λ n. front.end < n.end)) }
    ensures are { (old_text : List ℕ) → IsShared old_text text.now shared
        → IsFront C.is_part old_text text.now parts.old.items front
        → IfOk result (IsFrontOrAll C.is_part old_text text.now parts.new.items) }
{
    let mut found = Vec::new(alloc);
    let joint = find_until(cut, alloc, text, parts, shared, front, &mut found)?;
    let count = front.count + found.len();
    parts.splice(front.count..joint.index, found)?;
    Ok(match joint.next {
        Some(end) => Some(Front { count, end }),
        None => None,
    })
}

/// Where parts that were found meet parts of the old text.
#[derive(Clone, Copy)]
struct Joint {
    /// The index of the part of the old text that comes next.
    index: usize,
    /// The offset at which it begins in both texts, if it comes before the change: otherwise it and
    /// all after it are kept.
    next: Option<usize>,
}

/// Where the next part is sought.
#[derive(Clone, Copy)]
struct Place {
    /// The offset at which it begins.
    at: usize,
    /// The index of the part of the old text that may be kept next.
    index: usize,
    /// The offset at which that part begins in the old text.
    from: usize,
}

/// Finds parts of a text, at least one, until one would begin where a part of the old text begins:
/// before the change, or where both texts go on the same, with the line feed before it. Appends them
/// to those that were found.
///
/// # Errors
///
/// Memory ran out.
fn find_until<C: Cut>(
    cut: &C,
    alloc: Global,
    text: &str,
    parts: &[Part<C::Known>],
    shared: Shared,
    front: Front,
    found: &mut Vec<Part<C::Known>>,
) -> Result<Joint, AllocError>
    requires start { IsPartStart text.now front.end }
    requires count { front.count ≤ length parts.now }
    ensures after { IfOk result (λ joint. front.count ≤ joint.index) }
    ensures within { IfOk result (λ joint. joint.index ≤ length parts.now) }
    ensures start { IfOk result (λ joint. IfSome joint.next (IsPartStart text.now)) }
    ensures some { IfOk result (λ joint. IfSome joint.next (λ at. front.end < at)) }
    ensures whole { (old_text : List ℕ) (kept : List (PartOf C.Known))
        → IsShared old_text text.now shared
        → IsBegun C.is_part text.now (kept ++ found.old.items) front.end
        → AreLeft C.is_part old_text front.end (drop front.count parts.now)
        → IfOk result (λ joint. IsJoined C.is_part old_text text.now (kept ++ found.new.items)
        (drop joint.index parts.now) joint.next) }
{
    let mut place = Place {
        at: front.end,
        index: front.count,
        from: front.end,
    };
    'parts: loop {
        place.at = find_part(cut, alloc, text, place.at, found)?;
        if place.at == text.len() {
            let index = parts.len();
            return Ok(Joint { index, next: None });
        }
        place = passed::<C>(parts, place, shared);
        let index = place.index;
        if index < parts.len() && shared.is_same_end(place.from, place.at) {
            return Ok(Joint { index, next: None });
        }
        if place.from == place.at && place.at < shared.front {
            let next = Some(place.at);
            return Ok(Joint { index, next });
        }
    }
}

/// Passes the parts of the old text that begin before what begins at a place.
fn passed<C: Cut>(parts: &[Part<C::Known>], mut place: Place, shared: Shared) -> Place
    requires { place.index ≤ length parts.now }
    ensures at { result.at ≡ place.at }
    ensures after { place.index ≤ result.index }
    ensures within { result.index ≤ length parts.now }
    ensures left { (old_text : List ℕ)
        → AreLeft C.is_part old_text place.from (drop place.index parts.now)
        → AreLeft C.is_part old_text result.from (drop result.index parts.now) }
{
    'old: while place.index < parts.len() && shared.is_before(place.from, place.at) {
        let part = &parts[place.index];
        let Some(from) = place.from.checked_add(part.size) else {
            break;
        };
        place.index += 1;
        place.from = from;
    }
    place
}
