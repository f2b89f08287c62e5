//! The kinds of attributes in a list.
ghost use Rattle.std.specs.Prelude.{◌≡◌, ◌||◌, find, not};
ghost use Rattle.std.specs.List.{list_any};
ghost use Rattle.std.specs.Option.{option_copied};
ghost use Rattle.justfile_vocabulary.specs.AttributeKind.{is_enabler_kind};
ghost use Rattle.justfile_model.specs.Meanings.AttributeKinds.{is_allowed};
ghost use Rattle.justfile_attribute_set.specs.Attributes as definitions;

use justfile_attribute::Attribute;
use justfile_vocabulary::{AttributeKind, ItemKind};
use justfile_written::Written;

/// Whether any of the attributes is of this kind.
pub(crate) fn has_kind(pairs: &[(Attribute<'_>, Written<'_>)], kind: AttributeKind) -> bool
    ensures { result ≡ list_any (λ p. definitions.is_of_kind kind p.0) pairs.now }
{
    pairs.iter().any(|pair| is_of_kind(&pair.0, kind))
}

/// Returns the first pair whose attribute is of this kind.
pub(crate) fn first_of_kind<'pairs, 'src>(
    pairs: &'pairs [(Attribute<'src>, Written<'src>)],
    kind: AttributeKind,
) -> Option<&'pairs (Attribute<'src>, Written<'src>)>
    ensures { option_copied result ≡ find (λ p. definitions.is_of_kind kind p.0) pairs.now }
{
    pairs.iter().find(|pair| is_of_kind(&pair.0, kind))
}

/// Whether an attribute is of this kind.
#[tactic(auto, unfolding(justfile_model::specs::Meanings::AttributeKinds::same_attribute))]
fn is_of_kind(attribute: &Attribute<'_>, kind: AttributeKind) -> bool
    ensures { result ≡ definitions.is_of_kind kind attribute.now }
{
    kind_of(attribute) == kind
}

/// Whether any of the attributes restricts the item to some systems.
pub(crate) fn has_enabler(pairs: &[(Attribute<'_>, Written<'_>)]) -> bool
    ensures { result ≡ list_any (λ p. is_enabler_kind (definitions.kind_of p.0)) pairs.now }
{
    pairs.iter().any(|pair| kind_of(&pair.0).is_enabler())
}

/// Returns the kind of an attribute.
#[tactic(auto, unfolding(crate::specs::Attributes::kind_of))]
pub(crate) fn kind_of(attribute: &Attribute<'_>) -> AttributeKind
    ensures { result ≡ definitions.kind_of attribute.now }
{
    attribute.kind()
}

/// Whether an item is enabled on this system, which is Linux: its attributes name no system, or
/// Linux, or Unix.
pub(crate) fn enables_here(names_any: bool, names_linux: bool, names_unix: bool) -> bool
    ensures { result ≡ (not names_any || names_linux || names_unix) }
{
    !names_any || names_linux || names_unix
}

/// Whether an item of this kind may have an attribute of that kind.
pub(crate) fn may_have(item_kind: ItemKind, kind: AttributeKind) -> bool
    ensures { result ≡ is_allowed item_kind kind }
{
    match item_kind {
        ItemKind::Alias | ItemKind::Assignment => {
            kind.is_enabler() || matches!(kind, AttributeKind::Private)
        }
        ItemKind::Comment | ItemKind::Newline => false,
        ItemKind::Module => {
            kind.is_enabler()
                || matches!(
                    kind,
                    AttributeKind::Doc | AttributeKind::Group | AttributeKind::Private
                )
        }
        ItemKind::Recipe => true,
        _ => kind.is_enabler(),
    }
}
