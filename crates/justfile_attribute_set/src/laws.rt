//! Laws of sets of attributes. Each is the contract of a function that does nothing.
ghost use Rattle.std.specs.Prelude.{◌≡◌, List};
ghost use Rattle.std.specs.Cmp.{IsTotalOrder};
ghost use Rattle.justfile_model.specs.Lists.Order.{IsStableSort, in_order};
ghost use Rattle.justfile_attribute.specs.Order.{attribute_content_cmp};
ghost use Rattle.justfile_attribute.specs.declared.attribute.Attribute.{Attribute};
ghost use Rattle.justfile_attribute_set.specs.Pairs.{pair_cmp};

/// Attributes, with a name or anything else, are ordered by the content of the attributes. This
/// order is total. `in_order` is the stable sort by it: the only one, and idempotent.
pub fn sets_in_order<V>()
    ensures order { (p q : Attribute × V) → pair_cmp p q ≡ attribute_content_cmp p.0 q.0 }
    ensures total { IsTotalOrder attribute_content_cmp }
    ensures sorted { (pairs : List (Attribute × V))
        → IsStableSort pair_cmp pairs (in_order pair_cmp pairs) }
    ensures one { (pairs others : List (Attribute × V)) → IsStableSort pair_cmp pairs others
        → others ≡ in_order pair_cmp pairs }
    ensures twice { (pairs : List (Attribute × V))
        → in_order pair_cmp (in_order pair_cmp pairs) ≡ in_order pair_cmp pairs }
{}
