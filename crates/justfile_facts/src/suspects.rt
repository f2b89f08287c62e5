//! Where an item is wrong under some settings.
ghost use Rattle.std.specs.Prelude.{◌≡◌, ◌++◌, ◌∷◌, [], OnOk, cond, false};
ghost use Rattle.std.specs.List.{flat_map};
ghost use Rattle.justfile_token.specs.Token.{lexeme_of};
ghost use Rattle.justfile_facts.specs.Suspects.{attribute_suspects, begins_with_blank, body_suspects, dependency_suspects, enabled_suspects, ends_in_backslash, first_token, has_both_sigils, is_continued, is_for_shell, item_suspects, last_token, line_suspects, noted, script_suspects, suspect, token_in, token_suspects};

use justfile_item::{Item, UnresolvedRecipe};
use justfile_line::{Fragment, Line};
use justfile_problems::{Suspect, SuspectKind};
use justfile_recipe_header::UnresolvedDependency;
use justfile_token::Token;
use justfile_vocabulary::{AttributeKind, ListFeature};
use std::alloc::AllocError;

/// Appends the suspects of items.
#[tactic(auto, using(std::proofs::lemmas::List::flat_map_more, std::proofs::lemmas::List::take_more))]
pub(crate) fn push_suspects<'src>(
    items: &[Item<'src>],
    found: &mut Vec<Suspect<'src>>,
) -> Result<(), AllocError>
    ensures { OnOk result (found.new.items ≡ found.old.items ++ flat_map item_suspects items.now) }
{
    for item in items {
        push_item(item, found)?;
    }
    Ok(())
}

/// Appends the features that need the setting `lists`.
#[tactic(auto, using(std::proofs::lemmas::List::flat_map_more, std::proofs::lemmas::List::take_more))]
pub(crate) fn push_features<'src>(
    features: &[(ListFeature, Token<'src>)],
    found: &mut Vec<Suspect<'src>>,
) -> Result<(), AllocError>
    ensures { OnOk result (found.new.items ≡ found.old.items ++ flat_map noted features.now) }
{
    for feature in features {
        push_feature(feature, found)?;
    }
    Ok(())
}

/// Appends a feature that needs the setting `lists`.
fn push_feature<'src>(
    feature: &(ListFeature, Token<'src>),
    found: &mut Vec<Suspect<'src>>,
) -> Result<(), AllocError>
    ensures { OnOk result (found.new.items ≡ found.old.items ++ noted feature.now) }
{
    push(feature.1, SuspectKind::ListFeature(feature.0), found)
}

/// Appends a suspect.
fn push<'src>(
    token: Token<'src>,
    kind: SuspectKind,
    found: &mut Vec<Suspect<'src>>,
) -> Result<(), AllocError>
    ensures { OnOk result (found.new.items ≡ found.old.items ++ suspect token.entry kind ∷ []) }
{
    found.push(Suspect { token, kind })?;
    Ok(())
}

/// Appends the suspects of an item, if it is for this system.
fn push_item<'src>(item: &Item<'src>, found: &mut Vec<Suspect<'src>>) -> Result<(), AllocError>
    ensures { OnOk result (found.new.items ≡ found.old.items ++ item_suspects item.now) }
{
    if item.is_enabled() {
        push_enabled(item, found)
    } else {
        Ok(())
    }
}

/// Appends the suspects of an item that is for this system.
fn push_enabled<'src>(item: &Item<'src>, found: &mut Vec<Suspect<'src>>) -> Result<(), AllocError>
    ensures { OnOk result (found.new.items ≡ found.old.items ++ enabled_suspects item.now) }
{
    match item {
        Item::Recipe(recipe) => push_recipe(recipe, found),
        Item::Alias(_)
        | Item::Assignment(_)
        | Item::Comment(_)
        | Item::Function(_)
        | Item::Import { .. }
        | Item::Module { .. }
        | Item::Newline
        | Item::Setting(_)
        | Item::Unexport { .. } => Ok(()),
    }
}

/// Appends the suspects of a recipe.
fn push_recipe<'src>(
    recipe: &UnresolvedRecipe<'src>,
    found: &mut Vec<Suspect<'src>>,
) -> Result<(), AllocError>
    ensures { OnOk result (found.new.items ≡ found.old.items
        ++ flat_map dependency_suspects recipe.now.dependencies.items
        ++ script_suspects recipe.now.shebang recipe.now) }
{
    push_dependencies(&recipe.dependencies, found)?;
    if recipe.shebang {
        return Ok(());
    }
    push_attributes(recipe, found)?;
    push_lines(is_for_shell(recipe), &recipe.body, found)
}

/// Appends the starred ones of dependencies.
#[tactic(auto, using(std::proofs::lemmas::List::flat_map_more, std::proofs::lemmas::List::take_more))]
fn push_dependencies<'src>(
    dependencies: &[UnresolvedDependency<'src>],
    found: &mut Vec<Suspect<'src>>,
) -> Result<(), AllocError>
    ensures { OnOk result (found.new.items
        ≡ found.old.items ++ flat_map dependency_suspects dependencies.now) }
{
    for dependency in dependencies {
        push_dependency(dependency, found)?;
    }
    Ok(())
}

/// Appends a dependency, if it is starred.
#[tactic(auto, using(crate::proofs::Bodies::mapped_last))]
fn push_dependency<'src>(
    dependency: &UnresolvedDependency<'src>,
    found: &mut Vec<Suspect<'src>>,
) -> Result<(), AllocError>
    ensures { OnOk result
        (found.new.items ≡ found.old.items ++ dependency_suspects dependency.now) }
{
    if dependency.starred() {
        let (last, _) = dependency.recipe.split_last();
        push(last.token, SuspectKind::MappedDependency, found)
    } else {
        Ok(())
    }
}

/// Whether the attribute `shell` says that the recipe is no script.
fn is_for_shell(recipe: &UnresolvedRecipe<'_>) -> bool
    ensures { result ≡ is_for_shell recipe.now }
{
    recipe.attributes.contains(AttributeKind::Shell)
}

/// Appends the attribute `extension`, which is for scripts.
fn push_attributes<'src>(
    recipe: &UnresolvedRecipe<'src>,
    found: &mut Vec<Suspect<'src>>,
) -> Result<(), AllocError>
    ensures { OnOk result (found.new.items ≡ found.old.items ++ attribute_suspects recipe.now) }
{
    if recipe.attributes.contains(AttributeKind::Extension) {
        let kind = SuspectKind::ScriptAttribute {
            attribute: AttributeKind::Extension,
            shell: is_for_shell(recipe),
        };
        push(recipe.name.token, kind, found)
    } else {
        Ok(())
    }
}

/// Appends the suspects of the lines of a body.
fn push_lines<'src>(
    shell: bool,
    lines: &[Line<'src>],
    found: &mut Vec<Suspect<'src>>,
) -> Result<(), AllocError>
    ensures { OnOk result
        (found.new.items ≡ found.old.items ++ body_suspects shell false lines.now) }
{
    let mut continues = false;
    for line in lines {
        push_line(shell, continues, line, found)?;
        continues = is_continued(line);
    }
    Ok(())
}

/// Appends the suspects of a line, unless it continues another one.
fn push_line<'src>(
    shell: bool,
    continues: bool,
    line: &Line<'src>,
    found: &mut Vec<Suspect<'src>>,
) -> Result<(), AllocError>
    ensures { OnOk result
        (found.new.items ≡ found.old.items ++ line_suspects shell continues line.now) }
{
    if continues {
        Ok(())
    } else {
        push_token(shell, first_token(line), found)
    }
}

/// Appends the suspects of the text at the front of a line.
fn push_token<'src>(
    shell: bool,
    token: Option<Token<'src>>,
    found: &mut Vec<Suspect<'src>>,
) -> Result<(), AllocError>
    ensures { OnOk result
        (found.new.items ≡ found.old.items ++ token_suspects shell token.entry) }
{
    let Some(token) = token else {
        return Ok(());
    };
    push_if(
        begins_with_blank(token),
        token,
        SuspectKind::Blanks { shell },
        found,
    )?;
    push_if(
        has_both_sigils(token),
        token,
        SuspectKind::Sigils { shell },
        found,
    )
}

/// Appends a suspect, if it is one.
fn push_if<'src>(
    is: bool,
    token: Token<'src>,
    kind: SuspectKind,
    found: &mut Vec<Suspect<'src>>,
) -> Result<(), AllocError>
    ensures { OnOk result (found.new.items
        ≡ found.old.items ++ cond is (suspect token.entry kind ∷ []) []) }
{
    if is { push(token, kind, found) } else { Ok(()) }
}

/// Returns the token of a fragment that is a text.
fn token_in<'src>(fragment: &Fragment<'src>) -> Option<Token<'src>>
    ensures { result ≡ token_in fragment.now }
{
    match fragment {
        Fragment::Interpolation { .. } => None,
        Fragment::Text { token } => Some(*token),
    }
}

/// Returns the text at the front of a line, if there is one.
fn first_token<'src>(line: &Line<'src>) -> Option<Token<'src>>
    ensures { result ≡ first_token line.now }
{
    token_in(line.fragments.first()?)
}

/// Returns the text at the end of a line, if there is one.
fn last_token<'src>(line: &Line<'src>) -> Option<Token<'src>>
    ensures { result ≡ last_token line.now }
{
    token_in(line.fragments.last()?)
}

/// Whether the line after this one continues it.
fn is_continued(line: &Line<'_>) -> bool
    ensures { result ≡ is_continued line.now }
{
    match last_token(line) {
        None => false,
        Some(token) => token.lexeme().as_bytes().ends_with(b"\\"),
    }
}

/// Whether a text begins with a blank.
fn begins_with_blank(token: Token<'_>) -> bool
    ensures { result ≡ begins_with_blank (lexeme_of token.entry) }
{
    let text = token.lexeme().as_bytes();
    text.starts_with(b" ") || text.starts_with(b"\t")
}

/// Whether a text has `?` and `-` among its sigils, which are at its front.
fn has_both_sigils(token: Token<'_>) -> bool
    ensures { result ≡ has_both_sigils (lexeme_of token.entry) }
{
    let text = token.lexeme().as_bytes();
    text.starts_with(b"?-")
        || text.starts_with(b"-?")
        || text.starts_with(b"?@-")
        || text.starts_with(b"-@?")
        || text.starts_with(b"@?-")
        || text.starts_with(b"@-?")
}
