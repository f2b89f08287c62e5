//! Hunks: the changes that lie near one another, with the lines around them.
ghost use Rattle.std.specs.Prelude.{◌≡◌, ◌+◌, ◌-◌, ◌≤◌, ◌<◌, All, Any, IfNone, IfSome, length, take, drop};
ghost use Rattle.std.specs.List.{HoldsAt};
ghost use Rattle.line_diff.specs.Edits.{IsChange, IsKept, new_lines, old_lines};

use crate::edits::{Change, Edit};

/// How many kept lines are written before and after a change.
const CONTEXT: usize = 3;

/// Returns the index of the next change from an index on.
fn next_change(edits: &[Edit<'_>], from: usize) -> Option<usize>
    ensures none { IfNone result (All IsKept (drop from edits.now)) }
    ensures before { IfSome result (λ at. All IsKept (take (at - from) (drop from edits.now))) }
    ensures bounds { IfSome result (λ at. (from ≤ at) × (at < length edits.now)) }
    ensures change { IfSome result (HoldsAt IsChange edits.now) }
{
    let mut index = from;
    'changes: while index < edits.len() {
        if edits[index].change != Change::Keep {
            return Some(index);
        }
        index += 1;
    }
    None
}

/// Returns the index of the last change of the hunk that has a change at an index. The next hunk is
/// so far away that the lines around the two don't meet.
fn last_change(edits: &[Edit<'_>], first: usize) -> usize
    requires { first < length edits.now }
    ensures from { first ≤ result }
    ensures within { result < length edits.now }
{
    let mut last = first;
    'changes: while let Some(next) = next_change(edits, last + 1) {
        if next - last - 1 > 2 * CONTEXT {
            break;
        }
        last = next;
    }
    last
}

/// Returns where the next hunk from an index on begins, and where it ends.
pub(crate) fn next_hunk(edits: &[Edit<'_>], from: usize) -> Option<(usize, usize)>
    ensures none { IfNone result (All IsKept (drop from edits.now)) }
    ensures before { IfSome result (λ p. All IsKept (take (p.0 - from) (drop from edits.now))) }
    ensures bounds { IfSome result
        (λ p. (from ≤ p.0) × (p.0 < p.1) × (p.1 ≤ length edits.now)) }
    ensures change { IfSome result
        (λ p. Any IsChange (take (p.1 - p.0) (drop p.0 edits.now))) }
{
    let first = next_change(edits, from)?;
    let start = first.saturating_sub(CONTEXT).max(from);
    let last = last_change(edits, first);
    let end = if edits.len() - last > CONTEXT {
        last + CONTEXT + 1
    } else {
        edits.len()
    };
    Some((start, end))
}

/// Returns how many of the edits have an old line, and how many a new one.
pub(crate) fn line_counts(edits: &[Edit<'_>]) -> (usize, usize)
    ensures old { result.0 ≡ length (old_lines edits.now) }
    ensures new { result.1 ≡ length (new_lines edits.now) }
    ensures old_bound { result.0 ≤ length edits.now }
    ensures new_bound { result.1 ≤ length edits.now }
{
    let mut old = 0;
    let mut new = 0;
    for edit in edits {
        if edit.change != Change::Insert {
            old += 1;
        }
        if edit.change != Change::Remove {
            new += 1;
        }
    }
    (old, new)
}
