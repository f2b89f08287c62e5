//! How problems are set right.
ghost use Rattle.std.specs.Prelude.{◌≡◌, ◌∷◌, ◌++◌, [], IfOk, OnOk, map, option_to_list, string_bytes};
ghost use Rattle.std.specs.List.{AllZip, flat_map, list_any};
ghost use Rattle.justfile_findings.specs.Suggestions.{suggestion};
ghost use Rattle.justfile_findings.specs.Fixes.{AreFixes, Does, DoesIf, allowing_lists, creating, creating_if, empty_at, fix_of, fixes_for, is_run_as, lists_by, new_recipe, renaming, renaming_if, replaced, unknown_recipe, unknown_token};

use crate::codes::span_of;
use crate::listing::SUGGESTED;
use crate::near::suggestion;
use crate::settings::setting_place;
use editor_language::{QuickFix, Replacement, Span};
use justfile_problems::{Definition, Problem, Space, Use, What};
use justfile_token::Token;
use std::alloc::{AllocError, Global};

/// Returns how the first problems of a file are set right, as far as they can be: by the name that may be
/// meant, by a recipe of the unknown name, or by a setting. The file has these definitions and uses of
/// names.
///
/// # Errors
///
/// `AllocError` if memory runs out.
#[tactic(auto, using(crate::proofs::SetRight::of_first))]
pub fn fixes<'src>(
    alloc: Global,
    problems: &[Problem<'src>],
    definitions: &[Definition<'src>],
    uses: &[Use<'src>],
) -> Result<Vec<QuickFix>, AllocError>
    ensures { IfOk result (λ found.
        AreFixes definitions.now uses.now problems.now found.items) }
{
    let (first, _) = problems.split_at(SUGGESTED.min(problems.len()));
    fixes_of(alloc, first, definitions, uses)
}

/// Returns how problems are set right, as far as they can be.
#[tactic(auto, using(crate::proofs::SetRight::one_more))]
fn fixes_of<'src>(
    alloc: Global,
    problems: &[Problem<'src>],
    definitions: &[Definition<'src>],
    uses: &[Use<'src>],
) -> Result<Vec<QuickFix>, AllocError>
    ensures { IfOk result (λ found. AllZip Does
        (flat_map (fixes_for definitions.now uses.now) problems.now) found.items) }
{
    let mut found = Vec::new(alloc);
    for problem in problems {
        let fix = fix_of(alloc, problem, definitions, uses)?;
        push(&mut found, fix)?;
        let creation = creation_for(alloc, problem, definitions)?;
        push(&mut found, creation)?;
    }
    Ok(found)
}

/// Appends a fix, if there is one.
fn push(found: &mut Vec<QuickFix>, fix: Option<QuickFix>) -> Result<(), AllocError>
    ensures { OnOk result (found.new.items ≡ found.old.items ++ option_to_list fix) }
{
    if let Some(fix) = fix {
        found.push(fix)?;
    }
    Ok(())
}

/// Returns how a problem is set right, if it can be.
#[tactic(auto, using(crate::proofs::SetRight::by_first, crate::proofs::SetRight::by_second))]
fn fix_of<'src>(
    alloc: Global,
    problem: &Problem<'src>,
    definitions: &[Definition<'src>],
    uses: &[Use<'src>],
) -> Result<Option<QuickFix>, AllocError>
    ensures { IfOk result (DoesIf (fix_of definitions.now uses.now problem.now)) }
{
    match lists_fix(alloc, problem)? {
        Some(fix) => Ok(Some(fix)),
        None => renaming_fix(alloc, problem, definitions, uses),
    }
}

/// Returns the fix that allows lists, if a problem is that they aren't.
fn lists_fix(alloc: Global, problem: &Problem<'_>) -> Result<Option<QuickFix>, AllocError>
    ensures { IfOk result (DoesIf (lists_by problem.now.token problem.now.what)) }
{
    match problem.what {
        What::ListFeature(_) | What::MappedDependency => {
            Ok(Some(allowing_lists(alloc, &problem.token)?))
        }
        _ => Ok(None),
    }
}

/// Returns the fix that allows lists by a setting, where a token needs them.
fn allowing_lists(alloc: Global, token: &Token<'_>) -> Result<QuickFix, AllocError>
    ensures { IfOk result (Does (allowing_lists token.now)) }
{
    let title = String::from_str(alloc, "Add `set lists`")?;
    let at = empty_at(setting_place(token.src.as_bytes()));
    one(alloc, span_of(token), title, at, "set lists\n")
}

/// Returns the empty part at an offset.
fn empty_at(offset: usize) -> Span
    ensures { result ≡ empty_at offset }
{
    Span {
        start: offset,
        end: offset,
    }
}

/// Returns the token of the name that no recipe has, if a problem is that.
fn unknown_recipe<'src>(what: &What<'src>) -> Option<Token<'src>>
    ensures { result ≡ unknown_recipe what.now }
{
    match what {
        What::UnknownAliasTarget { target } => Some(target.token),
        What::UnknownDependency { unknown, .. } => Some(unknown.token),
        _ => None,
    }
}

/// Whether a definition is of what is run, and has a name.
fn is_run_as(definition: &Definition<'_>, name: &str) -> bool
    ensures { result ≡ is_run_as name.now definition.now }
{
    definition.space == Space::Commands && definition.name.lexeme() == name
}

/// Whether one of these definitions is of what is run, and has a name.
fn is_taken(definitions: &[Definition<'_>], name: &str) -> bool
    ensures { result ≡ list_any (is_run_as name.now) definitions.now }
{
    definitions
        .iter()
        .any(|definition| is_run_as(definition, name))
}

/// Returns the fix that adds a recipe, if a problem is that none has a name, and nothing else has it.
fn creation_for(
    alloc: Global,
    problem: &Problem<'_>,
    definitions: &[Definition<'_>],
) -> Result<Option<QuickFix>, AllocError>
    ensures { IfOk result (DoesIf (creating_if definitions.now problem.now.token
        (unknown_recipe problem.now.what))) }
{
    match unknown_recipe(&problem.what) {
        Some(unknown) if !is_taken(definitions, unknown.lexeme()) => {
            Ok(Some(creating(alloc, &problem.token, &unknown)?))
        }
        _ => Ok(None),
    }
}

/// Returns the fix that adds a recipe at the end of the text, where its name is unknown.
fn creating(alloc: Global, token: &Token<'_>, unknown: &Token<'_>) -> Result<QuickFix, AllocError>
    ensures { IfOk result (Does (creating token.now unknown.now)) }
{
    let name = unknown.lexeme();
    let title = format!(in alloc; "Create the recipe `{name}`")?;
    let added = new_recipe(alloc, token.src.as_bytes(), name)?;
    let at = empty_at(token.src.len());
    one(alloc, span_of(token), title, at, added.as_str())
}

/// Returns what is added to a text for an empty recipe.
fn new_recipe(alloc: Global, text: &[u8], name: &str) -> Result<String, AllocError>
    ensures { IfOk result (λ made. string_bytes made ≡ new_recipe text.now name.now) }
{
    if text.ends_with(b"\n") {
        format!(in alloc; "\n{name}:\n")
    } else {
        format!(in alloc; "\n\n{name}:\n")
    }
}

/// Returns the token of the name that is unknown, if a problem is that.
fn unknown_token<'src>(problem: &Problem<'src>) -> Option<Token<'src>>
    ensures { result ≡ unknown_token problem.now.token problem.now.what }
{
    match problem.what {
        What::UndefinedFunction | What::UndefinedVariable => Some(problem.token),
        What::UnknownAliasTarget { target } => Some(target.token),
        What::UnknownDependency { unknown, .. } => Some(unknown.token),
        _ => None,
    }
}

/// Returns the fix that puts a name over an unknown one, if a problem is that one is unknown and another
/// may be meant.
fn renaming_fix<'src>(
    alloc: Global,
    problem: &Problem<'src>,
    definitions: &[Definition<'src>],
    uses: &[Use<'src>],
) -> Result<Option<QuickFix>, AllocError>
    ensures { IfOk result (DoesIf (renaming_if problem.now.token
        (unknown_token problem.now.token problem.now.what)
        (suggestion definitions.now uses.now problem.now))) }
{
    let Some(unknown) = unknown_token(problem) else {
        return Ok(None);
    };
    match suggestion(alloc, definitions, uses, problem)? {
        Some(name) => Ok(Some(renaming(alloc, &problem.token, &unknown, name)?)),
        None => Ok(None),
    }
}

/// Returns the fix that puts a name over an unknown one.
fn renaming(
    alloc: Global,
    token: &Token<'_>,
    unknown: &Token<'_>,
    name: &str,
) -> Result<QuickFix, AllocError>
    ensures { IfOk result (Does (renaming token.now unknown.now name.now)) }
{
    let old = unknown.lexeme();
    let title = format!(in alloc; "Replace `{old}` with `{name}`")?;
    one(alloc, span_of(token), title, span_of(unknown), name)
}

/// Returns the fix by which a text takes the place of a part, where something is wrong in another one.
fn one(
    alloc: Global,
    span: Span,
    title: String,
    at: Span,
    text: &str,
) -> Result<QuickFix, AllocError>
    ensures span { IfOk result (λ made. made.span ≡ span) }
    ensures title { IfOk result (λ made. made.title ≡ title) }
    ensures is { IfOk result (λ made. map replaced made.replacements.items ≡ (at, text.now) ∷ []) }
{
    let text = text.to_string(alloc)?;
    let mut replacements = Vec::new(alloc);
    replacements.push(Replacement { span: at, text })?;
    Ok(QuickFix {
        span,
        title,
        replacements,
    })
}
