//! Checks that copies of items and of their parts are equal to their originals.

use justfile_item::{Alias, Assignment, FunctionDefinition, Item, UnresolvedRecipe};
use justfile_token::Namepath;
use row_notation::{Answer, push_copy};
use row_parts::copies::{copies_dependency, copies_parameter};

/// Writes `uncopied` if the copy of an assignment isn't equal to it.
pub(crate) fn copies_assignment(assignment: &Assignment<'_>, answer: &mut Answer) {
    push_copy(assignment, assignment.clone(answer.alloc()), answer);
}

/// Writes `uncopied` for each copy that isn't equal to its original: of an alias or a function, and
/// of the parameters, the dependencies and the arguments of a recipe.
pub(crate) fn copies_item(item: &Item<'_>, answer: &mut Answer) {
    match item {
        Item::Alias(alias) => copies_alias(alias, answer),
        Item::Function(function) => copies_function(function, answer),
        Item::Recipe(recipe) => copies_header(recipe, answer),
        _ => {}
    }
}

fn copies_alias<'src>(alias: &Alias<'src, Namepath<'src>>, answer: &mut Answer) {
    push_copy(alias, alias.clone(answer.alloc()), answer);
}

fn copies_function(function: &FunctionDefinition<'_>, answer: &mut Answer) {
    push_copy(function, function.clone(answer.alloc()), answer);
}

fn copies_header(recipe: &UnresolvedRecipe<'_>, answer: &mut Answer) {
    for parameter in &recipe.parameters {
        copies_parameter(parameter, answer);
    }
    for dependency in &recipe.dependencies {
        copies_dependency(dependency, answer);
    }
}
