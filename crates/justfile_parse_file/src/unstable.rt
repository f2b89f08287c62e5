//! The unstable features that a file uses.
ghost use Rattle.std.specs.Prelude.{◌≡◌, IfOk, OnOk};
ghost use Rattle.std.specs.List.{list_any};
ghost use Rattle.justfile_attribute_set.specs.AttributeSet.{entries_of};
ghost use Rattle.justfile_vocabulary.specs.declared.attribute_kind.AttributeKind.TheVariants as kinds;
ghost use Rattle.justfile_vocabulary.specs.declared.unstable_feature.UnstableFeature.TheVariants as features;
ghost use Rattle.justfile_model.specs.Trees.ContentKeys.{has_attribute};
ghost use Rattle.justfile_model.specs.Meanings.UnstableFeatures.{is_lists};
ghost use Rattle.justfile_parse_file.specs.Unstable.{unstable_of, uses_feature, with_used};
ghost use Rattle.justfile_setting.specs.Setting.{keyword_of};

use justfile_attribute_set::AttributeSet;
use justfile_item::Item;
use justfile_setting::Setting;
use justfile_vocabulary::{AttributeKind, UnstableFeature};
use std::alloc::{AllocError, Global};
use std::collections::BTreeSet;

/// Returns the items, together with the unstable features that they use.
///
/// # Errors
///
/// `AllocError` if memory runs out.
pub(crate) fn with_unstable<'src>(
    alloc: Global,
    mut items: Vec<Item<'src>>,
) -> Result<(Vec<Item<'src>>, BTreeSet<UnstableFeature>), AllocError>
    ensures items { IfOk result (λ x. x.0.items ≡ items.entry.items) }
    ensures features { IfOk result (λ x. x.1.keys ≡ unstable_of x.0.items) }
{
    let features = unstable_features(alloc, &mut items)?;
    Ok((items, features))
}

/// Returns the unstable features that these items use, and leaves the items unchanged. It takes
/// them by `&mut`, since the checker can't check a shared reference to a local list of items
/// (`docs/TOOLCHAIN.md`).
///
/// # Errors
///
/// `AllocError` if memory runs out.
#[tactic(auto, using(crate::proofs::UsedFeatures::features_are))]
fn unstable_features(
    alloc: Global,
    items: &mut Vec<Item<'_>>,
) -> Result<BTreeSet<UnstableFeature>, AllocError>
    ensures features { IfOk result (λ features. features.keys ≡ unstable_of items.old.items) }
    ensures same { items.new ≡ items.old }
{
    let mut features = BTreeSet::new(alloc);
    let cached = any_uses(items.as_slice(), UnstableFeature::CachedRecipes);
    insert_if(cached, UnstableFeature::CachedRecipes, &mut features)?;
    let listed = any_uses(items.as_slice(), UnstableFeature::ListsSetting);
    insert_if(listed, UnstableFeature::ListsSetting, &mut features)?;
    let defined = any_uses(items.as_slice(), UnstableFeature::UserDefinedFunctions);
    insert_if(
        defined,
        UnstableFeature::UserDefinedFunctions,
        &mut features,
    )?;
    Ok(features)
}

/// Adds a feature, if it is used.
fn insert_if(
    used: bool,
    feature: UnstableFeature,
    features: &mut BTreeSet<UnstableFeature>,
) -> Result<(), AllocError>
    ensures { OnOk result (features.new.keys ≡ with_used used feature features.old.keys) }
{
    if used {
        features.insert(feature)?;
    }
    Ok(())
}

/// Whether one of the items uses the feature.
#[tactic(auto, using(crate::proofs::UsedFeatures::none_here, crate::proofs::UsedFeatures::found_here, crate::proofs::UsedFeatures::none_left))]
fn any_uses(items: &[Item<'_>], feature: UnstableFeature) -> bool
    ensures { result ≡ list_any (uses_feature feature) items.now }
{
    for item in items {
        if uses_feature(item, feature) {
            return true;
        }
    }
    false
}

/// Whether an item uses the feature.
fn uses_feature(item: &Item<'_>, feature: UnstableFeature) -> bool
    ensures { result ≡ uses_feature feature item.now }
{
    match feature {
        UnstableFeature::CachedRecipes => is_cached(item),
        UnstableFeature::ListsSetting => sets_lists(item),
        UnstableFeature::UserDefinedFunctions => defines_function(item),
    }
}

/// Whether an item has the attribute `cache`.
fn is_cached(item: &Item<'_>) -> bool
    ensures { result ≡ uses_feature features.CachedRecipes item.now }
{
    match item {
        Item::Alias(alias) => has_cache(&alias.attributes),
        Item::Assignment(assignment) => has_cache(&assignment.attributes),
        Item::Comment(_) | Item::Newline => false,
        Item::Function(function) => has_cache(&function.attributes),
        Item::Import { attributes, .. }
        | Item::Module { attributes, .. }
        | Item::Unexport { attributes, .. } => has_cache(attributes),
        Item::Recipe(recipe) => has_cache(&recipe.attributes),
        Item::Setting(set) => has_cache(&set.attributes),
    }
}

#[tactic(auto, using(crate::proofs::UsedFeatures::has_written))]
fn has_cache(attributes: &AttributeSet<'_>) -> bool
    ensures { result ≡ has_attribute kinds.Cache (entries_of attributes.now) }
{
    attributes.contains(AttributeKind::Cache)
}

/// Whether an item is the setting `lists`.
fn sets_lists(item: &Item<'_>) -> bool
    ensures { result ≡ uses_feature features.ListsSetting item.now }
{
    match item {
        Item::Setting(set) => is_lists(&set.value),
        _ => false,
    }
}

fn is_lists(setting: &Setting<'_>) -> bool
    ensures { result ≡ is_lists (keyword_of setting.now) }
{
    matches!(setting, Setting::Lists(_))
}

/// Whether an item defines a function.
fn defines_function(item: &Item<'_>) -> bool
    ensures { result ≡ uses_feature features.UserDefinedFunctions item.now }
{
    matches!(item, Item::Function(_))
}
