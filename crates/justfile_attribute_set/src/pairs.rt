//! Attributes with their names and comments: removal of equal ones, search, and order.
ghost use Rattle.std.specs.Prelude.{◌≡◌, find, IfOk, OnOk};
ghost use Rattle.std.specs.Cmp.Lexicographic.{pointwise};
ghost use Rattle.std.specs.List.{list_any};
ghost use Rattle.std.specs.Option.{option_copied};
ghost use Rattle.justfile_model.specs.Lists.Distinct.{kept_last};
ghost use Rattle.justfile_model.specs.Lists.Order.{in_order};
ghost use Rattle.justfile_attribute.specs.Order.{attribute_content_cmp};
ghost use Rattle.justfile_attribute_set.specs.InOrder.{AreInOrder};
ghost use Rattle.justfile_attribute_set.specs.Pairs.{pair_cmp};

use crate::places::sort_stably;
use justfile_attribute::{Attribute, attribute_content_cmp};
use justfile_written::Written;
use std::alloc::{AllocError, Global};

/// Returns the pairs without those that have an equal first component after them. The order of the
/// others stays.
pub(crate) fn last_of_each<K: PartialEq + Drop, V: Drop>(
    alloc: Global,
    pairs: Vec<(K, V)>,
) -> Result<Vec<(K, V)>, AllocError>
    ensures { IfOk result (λ kept. kept.items ≡ kept_last (λ p q. K.eq p.0 q.0) pairs.items) }
{
    let mut pairs = pairs;
    let mut kept = Vec::new(alloc);
    while let Some(pair) = pairs.pop() {
        if !has_key(&kept, &pair.0) {
            kept.push(pair)?;
        }
    }
    kept.reverse();
    Ok(kept)
}

/// Whether a pair has this first component.
fn has_key<K: PartialEq, V>(pairs: &[(K, V)], key: &K) -> bool
    ensures { result ≡ list_any (λ p. K.eq key.now p.0) pairs.now }
{
    pairs.iter().any(|pair| *key == pair.0)
}

/// Returns the first pair with this first component.
pub(crate) fn find_key<'pairs, K: PartialEq, V>(
    pairs: &'pairs [(K, V)],
    key: &K,
) -> Option<&'pairs (K, V)>
    ensures { option_copied result ≡ find (λ p. K.eq key.now p.0) pairs.now }
{
    pairs.iter().find(|pair| *key == pair.0)
}

/// Sorts pairs by the content of their attributes. The sort is stable. Most constructs have fewer
/// than two attributes, so nothing to sort.
#[tactic(auto, using(crate::proofs::Sorts::few_sorted))]
pub(crate) fn sort_pairs<'src>(
    pairs: &mut Vec<(Attribute<'src>, Written<'src>)>,
) -> Result<(), AllocError>
    ensures ordered { OnOk result (pairs.new.items ≡ in_order pair_cmp pairs.old.items) }
    ensures sorted { OnOk result (AreInOrder attribute_content_cmp pairs.new.items) }
{
    if pairs.len() < 2 {
        return Ok(());
    }
    sort_stably(
        pairs,
        |pair, other| attribute_content_cmp(&pair.0, &other.0),
    )
}

/// Whether the first components of these pairs are equal, one by one.
pub(crate) fn have_same_keys<K: PartialEq, V>(pairs: &[(K, V)], others: &[(K, V)]) -> bool
    ensures { result ≡ pointwise (λ p q. K.eq p.0 q.0) pairs.now others.now }
{
    let mut left = pairs;
    let mut right = others;
    while let Some((pair, pairs_left)) = left.split_first() {
        let Some((other, others_left)) = right.split_first() else {
            return false;
        };
        if pair.0 != other.0 {
            return false;
        }
        left = pairs_left;
        right = others_left;
    }
    right.is_empty()
}
