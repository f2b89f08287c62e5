//! The recipes that can be run as they are.
ghost use Rattle.std.specs.Prelude.{◌≡◌, ◌++◌, IfOk, OnOk, map, option_copied};
ghost use Rattle.std.specs.List.{list_any};
ghost use Rattle.std.specs.Option.{option_to_list};
ghost use Rattle.justfile_recipe_header.specs.Parameter.{is_required};
ghost use Rattle.justfile_server.specs.Runs.{AreRuns, AreRunsIn, ran, runnable, to_run};

use editor_language::{Run, Span};
use justfile_ast::Ast;
use justfile_canonical::reading::{Query, query_root};
use justfile_item::Item as TreeItem;
use justfile_recipe_header::Parameter;
use justfile_token::{Fault, Token};
use std::alloc::{AllocError, Global};

/// Asks a justfile which of its recipes can be run as they are.
#[derive(Drop)]
struct RunQuery;

impl Query for RunQuery {
    type Answer = Vec<Run>;

    ghost answers = { λ query ast runs. AreRuns ast.items.items runs.items };

    fn answer(ast: &mut Ast<'_>, alloc: Global, _query: &Self) -> Result<Vec<Run>, AllocError> {
        runs_among(alloc, &ast.items)
    }
}

/// Whether an argument is required for one of these parameters.
fn needs_argument(parameters: &[Parameter<'_>]) -> bool
    ensures { result ≡ list_any is_required parameters.now }
{
    parameters.iter().any(|parameter| parameter.is_required())
}

/// Returns the name of an item, if it is a recipe that is enabled on this system and needs no argument.
fn runnable<'a, 'src>(item: &'a TreeItem<'src>) -> Option<&'a Token<'src>>
    ensures { option_copied result ≡ runnable item.now }
{
    let TreeItem::Recipe(recipe) = item else {
        return None;
    };
    if recipe.attributes.is_enabled() && !needs_argument(&recipe.parameters) {
        Some(&recipe.name.token)
    } else {
        None
    }
}

/// Returns what can be run by the token of its name.
fn run_of(alloc: Global, name: &Token<'_>) -> Result<Run, AllocError>
    ensures { IfOk result (λ run. ran run ≡ to_run name.now) }
{
    let span = Span {
        start: name.offset,
        end: name.end(),
    };
    let name = name.lexeme().to_string(alloc)?;
    Ok(Run { span, name })
}

/// Appends what can be run, if there is a name.
fn push_run(alloc: Global, name: Option<&Token<'_>>, runs: &mut Vec<Run>) -> Result<(), AllocError>
    ensures { OnOk result (map ran runs.new.items
        ≡ map ran runs.old.items ++ map to_run (option_to_list (option_copied name.entry))) }
{
    if let Some(name) = name {
        runs.push(run_of(alloc, name)?)?;
    }
    Ok(())
}

/// Returns the recipes among items that can be run as they are.
fn runs_among(alloc: Global, items: &[TreeItem<'_>]) -> Result<Vec<Run>, AllocError>
    ensures { IfOk result (λ runs. AreRuns items.now runs.items) }
{
    let mut runs = Vec::new(alloc);
    for item in items {
        push_run(alloc, runnable(item), &mut runs)?;
    }
    Ok(runs)
}

/// Returns the recipes of a text that can be run as they are, if it is a justfile.
pub(crate) fn runs_of(alloc: Global, text: &str) -> Result<Vec<Run>, AllocError>
    ensures { IfOk result (λ runs. AreRunsIn text.now runs.items) }
{
    match query_root(alloc, "justfile", text, &RunQuery) {
        Ok(runs) => Ok(runs),
        Err(Fault::Memory) => Err(AllocError),
        Err(_) => Ok(Vec::new(alloc)),
    }
}
