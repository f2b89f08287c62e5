//! Pairs in the order of their content, and the trait of that order.
ghost use Rattle.std.specs.Prelude.{◌≡◌};
ghost use Rattle.std.specs.declared.cmp.Ordering.{Ordering};
ghost use Rattle.justfile_attribute.specs.Order.{attribute_content_cmp};
ghost use Rattle.justfile_attribute_set.specs.InOrder.{AreInOrder, prop_in_order};
ghost use Rattle.justfile_attribute_set.specs.IntoKeys.{owned_left};
ghost use Rattle.justfile_attribute_set.specs.Keys.{keys_left};

use crate::keys::{IntoKeys, Keys};
use justfile_attribute::Attribute;

/// Values that have an order by content.
pub trait ContentOrder {
    ghost content_cmp: { Self → Self → Ordering };
}

/// Attributes compare by their kinds, and within a kind by the content of their fields.
impl ContentOrder for Attribute<'_> {
    ghost content_cmp = { attribute_content_cmp };
}

/// Pairs in the order of the content of their first components.
#[derive(Debug, Drop)]
pub struct PairSet<K: ContentOrder, V> {
    pub(crate) pairs: Vec<(K, V)>,
    pub(crate) ghost are_in_order: { AreInOrder K.content_cmp pairs.items } by { prop_in_order K.content_cmp pairs.items },
}

impl<K: ContentOrder + Drop, V: Drop> IntoIterator for PairSet<K, V> {
    ghost use Rattle.justfile_attribute_set.specs.PairSet.{keys_of};

    type Item = K;

    type IntoIter = IntoKeys<K, V>;

    ghost into_iter_gives = { λ set it. owned_left it ≡ keys_of set };

    fn into_iter(self) -> IntoKeys<K, V> {
        IntoKeys::new(self.pairs)
    }
}

impl<'set, K: ContentOrder, V> IntoIterator for &'set PairSet<K, V> {
    ghost use Rattle.justfile_attribute_set.specs.PairSet.{keys_of};

    type Item = &'set K;

    type IntoIter = Keys<'set, K, V>;

    ghost into_iter_gives = { λ set it. keys_left it ≡ keys_of set.now };

    fn into_iter(self) -> Keys<'set, K, V> {
        Keys::new(&self.pairs)
    }
}
