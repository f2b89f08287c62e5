//! The first recipe of a file and its body, as rows show them.

use justfile_item::{Item, UnresolvedRecipe};
use justfile_line::Line;
use row_notation::{Answer, Text};
use row_parts::headers::{push_arguments, push_defaults, push_dependencies, push_parameters};
use row_parts::lines::{push_line, push_sigils};
use row_parts::sets::push_joined;
use row_parts::shown::put_marked;

/// The depth at which rows parse files.
pub const FILE_DEPTH: u32 = 2;

/// The import offsets with which rows parse files.
pub const IMPORT_OFFSETS: &[usize] = &[3, 14];

/// What is shown of a recipe.
#[derive(Clone, Copy)]
pub enum RecipePart {
    /// The parts of the arguments of its dependencies.
    Arguments,
    /// The parts of the defaults of its parameters.
    Defaults,
    /// Its dependencies.
    Dependencies,
    /// The line of its body at this index.
    Line(usize),
    /// Whether it is private, quiet and a script, and the comment before its body.
    Marks,
    /// Its parameters.
    Parameters,
    /// The sigils of the first line of its body, with or without guards.
    Sigils(bool),
}

/// Writes a part of an item, if it is a recipe, and returns whether it is one.
pub(crate) fn push_recipe_part(item: &Item<'_>, answer: &mut Answer, part: RecipePart) -> bool {
    if let Item::Recipe(recipe) = item {
        push_part(recipe, answer, part);
        return true;
    }
    false
}

/// Writes the set that is made from the attributes of an item, if it is a recipe, and returns
/// whether it is one.
pub(crate) fn push_set_of(item: &Item<'_>, answer: &mut Answer) -> bool {
    if let Item::Recipe(recipe) = item {
        push_joined(&recipe.attributes, answer, recipe.name, recipe.comment);
        return true;
    }
    false
}

/// Writes a part of a recipe.
fn push_part(recipe: &UnresolvedRecipe<'_>, answer: &mut Answer, part: RecipePart) {
    match part {
        RecipePart::Arguments => push_arguments(recipe.dependencies.as_slice(), answer),
        RecipePart::Defaults => push_defaults(recipe.parameters.as_slice(), answer),
        RecipePart::Dependencies => {
            push_dependencies(recipe.dependencies.as_slice(), answer, recipe.priors)
        }
        RecipePart::Line(at) => push_line_at(recipe.body.as_slice(), answer, at),
        RecipePart::Marks => push_recipe(recipe, answer),
        RecipePart::Parameters => push_parameters(recipe.parameters.as_slice(), answer),
        RecipePart::Sigils(guards) => push_first_sigils(recipe.body.as_slice(), answer, guards),
    }
}

/// Writes the marks of a recipe, which of its fields aren't what was passed to `parse`, and in ‹›
/// the comment before its body if it has one.
fn push_recipe(recipe: &UnresolvedRecipe<'_>, answer: &mut Answer) {
    answer.push_if("private", recipe.private);
    answer.push_if("quiet", recipe.quiet);
    answer.push_if("shebang", recipe.shebang);
    answer.push_if("depth", recipe.file_depth != FILE_DEPTH);
    answer.push_if(
        "imports",
        recipe.import_offsets.as_slice() != IMPORT_OFFSETS,
    );
    if let Some(comment) = recipe.comment {
        push_comment(answer, comment);
    }
}

/// Writes a comment in ‹›.
fn push_comment(answer: &mut Answer, comment: &str) {
    let mut shown = Text::new(answer.alloc());
    put_marked(&mut shown, "", comment);
    answer.push_text(shown);
}

/// Writes the line of a body at an index, counted from 0.
fn push_line_at(body: &[Line<'_>], answer: &mut Answer, at: usize) {
    match body.get(at) {
        Some(line) => push_line(line, answer),
        None => answer.push("none"),
    }
}

/// Writes the sigils of the first line of a body.
fn push_first_sigils(body: &[Line<'_>], answer: &mut Answer, guards: bool) {
    match body.first() {
        Some(line) => push_sigils(line, answer, guards),
        None => answer.push("none"),
    }
}
