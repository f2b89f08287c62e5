//! What a file allows.
ghost use Rattle.std.specs.Prelude.{◌≡◌};
ghost use Rattle.justfile_facts.specs.Rules.{comments_ignored, guards_set, has_guards, has_lists, is_import, recipes_allowed, rules_of, scripts_by_default, sets, variables_allowed, with_item};

use justfile_item::Item;
use justfile_problems::Rules;
use justfile_setting::Setting;

/// Returns what a file with these items allows. A setting for another system counts, too, unless more
/// is wrong with it.
pub(crate) fn rules(items: &[Item<'_>], imported: bool) -> Rules
    ensures { result ≡ rules_of imported items.now }
{
    let mut rules = Rules {
        default_script: false,
        duplicate_recipes: false,
        duplicate_variables: false,
        guards: false,
        ignore_comments: false,
        lists: false,
        open: imported,
    };
    for item in items {
        rules = with_item(rules, item);
    }
    rules
}

/// Returns what a file allows that has one more item.
fn with_item(rules: Rules, item: &Item<'_>) -> Rules
    ensures { result ≡ with_item rules item.now }
{
    Rules {
        default_script: rules.default_script || scripts_by_default(item),
        duplicate_recipes: rules.duplicate_recipes || allows_recipes(item),
        duplicate_variables: rules.duplicate_variables || allows_variables(item),
        guards: rules.guards || has_guards(item),
        ignore_comments: rules.ignore_comments || ignores_comments(item),
        lists: rules.lists || has_lists(item),
        open: rules.open || is_import(item),
    }
}

/// Whether the item allows that recipes are defined twice.
fn allows_recipes(item: &Item<'_>) -> bool
    ensures { result ≡ sets recipes_allowed item.now }
{
    match item {
        Item::Setting(set) => match set.value {
            Setting::AllowDuplicateRecipes(allowed) => allowed,
            _ => false,
        },
        _ => false,
    }
}

/// Whether the item allows that variables are defined twice.
fn allows_variables(item: &Item<'_>) -> bool
    ensures { result ≡ sets variables_allowed item.now }
{
    match item {
        Item::Setting(set) => match set.value {
            Setting::AllowDuplicateVariables(allowed) => allowed,
            _ => false,
        },
        _ => false,
    }
}

/// Whether the item makes lines of bodies that begin with `#` comments.
fn ignores_comments(item: &Item<'_>) -> bool
    ensures { result ≡ sets comments_ignored item.now }
{
    match item {
        Item::Setting(set) => match set.value {
            Setting::IgnoreComments(ignored) => ignored,
            _ => false,
        },
        _ => false,
    }
}

/// Whether the item makes recipes scripts.
fn scripts_by_default(item: &Item<'_>) -> bool
    ensures { result ≡ sets scripts_by_default item.now }
{
    match item {
        Item::Setting(set) => match set.value {
            Setting::DefaultScript(set) => set,
            _ => false,
        },
        _ => false,
    }
}

/// Whether the item makes `?` a sigil on this system.
fn has_guards(item: &Item<'_>) -> bool
    ensures { result ≡ has_guards item.now }
{
    item.is_enabled() && sets_guards(item)
}

/// Whether the item makes `?` a sigil, on this system or another one.
fn sets_guards(item: &Item<'_>) -> bool
    ensures { result ≡ sets guards_set item.now }
{
    match item {
        Item::Setting(set) => match set.value {
            Setting::Guards(set) => set,
            _ => false,
        },
        _ => false,
    }
}

/// Whether the item lets values be lists.
fn has_lists(item: &Item<'_>) -> bool
    ensures { result ≡ sets has_lists item.now }
{
    match item {
        Item::Setting(set) => match set.value {
            Setting::Lists(set) => set,
            _ => false,
        },
        _ => false,
    }
}

/// Whether the item is an import.
fn is_import(item: &Item<'_>) -> bool
    ensures { result ≡ is_import item.now }
{
    match item {
        Item::Import { .. } => true,
        _ => false,
    }
}
