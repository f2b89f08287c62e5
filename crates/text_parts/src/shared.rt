//! What two texts have in common.
ghost use Rattle.std.specs.Prelude.{◌≡◌, ℕ, List, IsTrue, ◌-◌, ◌≤◌, drop, length, take};
ghost use Rattle.text_parts.specs.Shared.{IsSameEnd, IsShared};

/// What two texts begin with that is the same, and what they end with. These may overlap.
#[derive(Clone, Copy)]
pub(crate) struct Shared {
    /// How many bytes they begin with that are the same.
    pub(crate) front: usize,
    /// The offset in the old text from which on both are the same.
    pub(crate) old_end: usize,
    /// The offset in the new text from which on both are the same.
    pub(crate) new_end: usize,
}

impl Shared {
    /// Returns what two texts have in common.
    pub(crate) fn between(old: &[u8], new: &[u8]) -> Shared
        ensures { IsShared old.now new.now result }
    {
        let shorter = old.len().min(new.len());
        let end = equal_end(old, new, shorter);
        Shared {
            front: equal_front(old, new, shorter),
            old_end: old.len() - end,
            new_end: new.len() - end,
        }
    }

    /// Whether the texts go on the same from an offset of the old one and an offset of the new one,
    /// with the byte before these.
    pub(crate) fn is_same_end(self, from: usize, at: usize) -> bool
        ensures { IsTrue result → IsSameEnd self from at }
    {
        from > self.old_end && at > self.new_end && from - self.old_end == at - self.new_end
    }

    /// Whether an offset of the old text comes before an offset of the new one, by what they end with,
    /// or else by what they begin with.
    pub(crate) fn is_before(self, from: usize, at: usize) -> bool {
        if at > self.new_end {
            from.saturating_sub(self.old_end) < at - self.new_end
        } else {
            at < self.front && from < at
        }
    }
}

/// How many bytes are compared at once.
const BLOCK: usize = 256;

/// Returns how many bytes both texts begin with, at most a limit.
fn equal_front(old: &[u8], new: &[u8], limit: usize) -> usize
    requires old { limit ≤ length old.now }
    requires new { limit ≤ length new.now }
    ensures within { result ≤ limit }
    ensures equal { take result old.now ≡ take result new.now }
{
    let blocks = limit / BLOCK;
    for block in 0..blocks {
        let start = block * BLOCK;
        let end = start + BLOCK;
        if old[start..end] != new[start..end] {
            return equal_from(old, new, start, limit);
        }
    }
    equal_from(old, new, blocks * BLOCK, limit)
}

/// Returns how many bytes both texts begin with, from a number on that is known, and at most a
/// limit.
fn equal_from(old: &[u8], new: &[u8], known: usize, limit: usize) -> usize
    requires known { known ≤ limit }
    requires old { limit ≤ length old.now }
    requires new { limit ≤ length new.now }
    requires equal { take known old.now ≡ take known new.now }
    ensures within { result ≤ limit }
    ensures equal { take result old.now ≡ take result new.now }
{
    for count in known..limit {
        if old[count] != new[count] {
            return count;
        }
    }
    limit
}

/// Returns how many bytes both texts end with, at most a limit.
fn equal_end(old: &[u8], new: &[u8], limit: usize) -> usize
    requires old { limit ≤ length old.now }
    requires new { limit ≤ length new.now }
    ensures within { result ≤ limit }
    ensures equal { drop (length old.now - result) old.now
        ≡ drop (length new.now - result) new.now }
{
    let blocks = limit / BLOCK;
    for block in 0..blocks {
        let known = block * BLOCK;
        let in_old = old.len() - known;
        let in_new = new.len() - known;
        if old[in_old - BLOCK..in_old] != new[in_new - BLOCK..in_new] {
            return equal_from_end(old, new, known, limit);
        }
    }
    equal_from_end(old, new, blocks * BLOCK, limit)
}

/// Returns how many bytes both texts end with, from a number on that is known, and at most a limit.
fn equal_from_end(old: &[u8], new: &[u8], known: usize, limit: usize) -> usize
    requires known { known ≤ limit }
    requires old { limit ≤ length old.now }
    requires new { limit ≤ length new.now }
    requires equal { drop (length old.now - known) old.now
        ≡ drop (length new.now - known) new.now }
    ensures within { result ≤ limit }
    ensures equal { drop (length old.now - result) old.now
        ≡ drop (length new.now - result) new.now }
{
    for count in known..limit {
        if old[old.len() - count - 1] != new[new.len() - count - 1] {
            return count;
        }
    }
    limit
}
