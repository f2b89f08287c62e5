//! Items of files, as rows show them.

use crate::items_part::{ItemsPart, push_of_items};
use justfile_ast::Ast;
use justfile_attribute_set::AttributeSet;
use justfile_item::{Alias, Assignment, FunctionDefinition, Item, Set, UnresolvedRecipe};
use justfile_token::{Namepath, StringLiteral};
use row_notation::{Answer, Text};
use row_parts::attributes::put_attributes;
use row_parts::headers::{put_dependencies, put_parameters};
use row_parts::lines::put_line;
use row_parts::settings::put_setting;
use row_parts::shown::{put_doc, put_if, put_literal, put_marked, put_name, put_value};

/// The working directory with which rows parse files.
pub const WORKING_DIRECTORY: &str = "/home";

/// Writes a recipe: its doc, its attributes, whether it is quiet, its name, its number, its
/// parameters, its dependencies, and each line of its body.
fn put_recipe(recipe: &UnresolvedRecipe<'_>, shown: &mut Text) {
    put_doc(shown, &recipe.doc);
    put_attributes(&recipe.attributes, shown);
    shown.put(if recipe.quiet {
        "quiet recipe "
    } else {
        "recipe "
    });
    put_name(shown, recipe.name);
    shown.put(" ");
    shown.put_number(recipe.number.0 as usize);
    put_parameters(recipe.parameters.as_slice(), shown);
    put_dependencies(recipe.dependencies.as_slice(), shown, recipe.priors);
    for line in &recipe.body {
        put_line(line, shown);
    }
}

/// Writes an assignment: its attributes, its marks, its name, its number, its depth, whether it is
/// private, and its value.
fn put_assignment(assignment: &Assignment<'_>, shown: &mut Text) {
    put_attributes(&assignment.attributes, shown);
    put_if(shown, "eager ", assignment.eager);
    put_if(shown, "export ", assignment.export);
    put_if(shown, "prelude ", assignment.prelude);
    put_name(shown, assignment.name);
    shown.put(" ");
    shown.put_number(assignment.number.0 as usize);
    shown.put(" ");
    shown.put_number(assignment.file_depth as usize);
    shown.put(if assignment.private {
        " true "
    } else {
        " false "
    });
    put_value(&assignment.value, shown);
}

/// Writes an alias: its attributes, its name, and the names of its target's path.
fn put_alias(alias: &Alias<'_, Namepath<'_>>, shown: &mut Text) {
    put_attributes(&alias.attributes, shown);
    shown.put("alias ");
    put_name(shown, alias.name);
    for name in alias.target.iter() {
        shown.put(" ");
        put_name(shown, *name);
    }
}

/// Writes a function: its attributes, its name, its parameters, each with its number, and its
/// value.
fn put_function(function: &FunctionDefinition<'_>, shown: &mut Text) {
    put_attributes(&function.attributes, shown);
    shown.put("function ");
    put_name(shown, function.name);
    for (name, number) in &function.parameters {
        shown.put(" ");
        put_name(shown, *name);
        shown.put("@");
        shown.put_number(number.0 as usize);
    }
    shown.put(" ");
    put_value(&function.body, shown);
}

/// Writes the beginning of an import or a module: its attributes, and its keyword, with `?` if the
/// file is optional.
fn put_word(attributes: &AttributeSet<'_>, shown: &mut Text, word: &str, optional: bool) {
    put_attributes(attributes, shown);
    shown.put(word);
    put_if(shown, "?", optional);
    shown.put(" ");
}

/// Writes the path of a module after a blank, if it has one.
fn put_path(path: &Option<StringLiteral<'_>>, shown: &mut Text) {
    if let Some(literal) = path {
        shown.put(" ");
        put_literal(literal, shown);
    }
}

/// Writes a setting: its attributes, its name, and its value.
fn put_set(set: &Set<'_>, shown: &mut Text) {
    put_attributes(&set.attributes, shown);
    shown.put("set ");
    put_name(shown, set.name);
    shown.put(" ");
    put_setting(&set.value, shown);
}

/// Writes an item.
fn put_item(item: &Item<'_>, shown: &mut Text) {
    match item {
        Item::Alias(alias) => put_alias(alias, shown),
        Item::Assignment(assignment) => put_assignment(assignment, shown),
        Item::Comment(text) => put_marked(shown, "comment ", text),
        Item::Function(function) => put_function(function, shown),
        Item::Import {
            attributes,
            optional,
            relative,
        } => {
            put_word(attributes, shown, "import", *optional);
            put_literal(relative, shown);
        }
        Item::Module {
            attributes,
            doc,
            name,
            optional,
            relative,
        } => {
            put_doc(shown, doc);
            put_word(attributes, shown, "mod", *optional);
            put_name(shown, *name);
            put_path(relative, shown);
        }
        Item::Newline => shown.put("newline"),
        Item::Recipe(recipe) => put_recipe(recipe, shown),
        Item::Setting(set) => put_set(set, shown),
        Item::Unexport { attributes, name } => {
            put_word(attributes, shown, "unexport", false);
            put_name(shown, *name);
        }
    }
}

/// Writes an item as a field.
pub(crate) fn push_item(item: &Item<'_>, answer: &mut Answer) {
    let mut shown = Text::new(answer.alloc());
    put_item(item, &mut shown);
    answer.push_text(shown);
}

/// Writes a file: a field for each item, whether the working directory isn't the one passed to
/// `parse`, whether a feature is unstable, and whether the file sets an indentation.
pub fn file(ast: &Ast<'_>, answer: &mut Answer) {
    push_of_items(&ast.items, answer, ItemsPart::Items);
    answer.push_if(
        "directory",
        ast.working_directory.as_str() != WORKING_DIRECTORY,
    );
    answer.push_if("unstable", !ast.unstable_features.is_empty());
    answer.push_if("indentation", ast.indentation().is_some());
}
