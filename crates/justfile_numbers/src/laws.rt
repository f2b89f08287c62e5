//! Laws of the definitions in `specs/`. Each is the contract of a function with an empty body.
ghost use Rattle.std.specs.Prelude.{◌≡◌};
ghost use Rattle.std.specs.Cmp.{IsTotalOrder};
ghost use Rattle.std.specs.Ordering.{eq_by_cmp};
ghost use Rattle.justfile_numbers.specs.VersionOrder.{version_cmp};
ghost use Rattle.justfile_numbers.specs.contracts.version.VersionOrd.TheImpl as version_order;
ghost use Rattle.justfile_numbers.specs.contracts.version.VersionPartialEq.TheImpl as version_equality;
ghost use Rattle.justfile_numbers.specs.declared.version.Version.{Version};

/// Versions are compared by their major numbers, then the minor ones, then the patch numbers. The
/// order is total and agrees with `==`.
pub fn versions_ordered()
    ensures order { (v w : Version) → version_order.cmp-value.it v w ≡ version_cmp v w }
    ensures total { IsTotalOrder version_cmp }
    ensures ties { (v w : Version) → version_equality.eq-value.it v w ≡ eq_by_cmp version_cmp v w }
{}
