//! Parameters and dependencies of recipes, as rows show them.

use crate::shown::{put_expression, put_if, put_marked, put_name};
use crate::values::push_parts;
use justfile_expression::Expression;
use justfile_recipe_header::{DependencyArgument, Parameter, UnresolvedDependency};
use row_notation::{Answer, Text};

/// Writes parameters as they are printed, each with its number.
pub fn put_parameters(parameters: &[Parameter<'_>], shown: &mut Text) {
    for parameter in parameters {
        shown.put(" ");
        shown.put_display(parameter);
        shown.put("@");
        shown.put_number(parameter.number.0 as usize);
    }
}

/// Writes dependencies as they are printed, after a colon if there are any, with `&&` before the
/// first that runs after the recipe.
pub fn put_dependencies(
    dependencies: &[UnresolvedDependency<'_>],
    shown: &mut Text,
    priors: usize,
) {
    put_if(shown, " :", !dependencies.is_empty());
    for (index, dependency) in dependencies.iter().enumerate() {
        shown.put(if index == priors { " && " } else { " " });
        shown.put_display(dependency);
    }
}

/// Writes each parameter of a recipe: its printed text, and its fields.
pub fn push_parameters(parameters: &[Parameter<'_>], answer: &mut Answer) {
    for parameter in parameters {
        answer.push_display(parameter);
        push_parameter(parameter, answer);
    }
}

fn push_parameter(parameter: &Parameter<'_>, answer: &mut Answer) {
    let mut shown = Text::new(answer.alloc());
    put_name(&mut shown, parameter.name);
    shown.put(" ");
    shown.put_number(parameter.number.0 as usize);
    put_kind(parameter, &mut shown);
    put_if(&mut shown, " exported", parameter.export);
    put_value(&parameter.default, &mut shown, " default");
    put_argument_rules(parameter, &mut shown);
    put_if(&mut shown, " option", parameter.is_option());
    put_if(&mut shown, " required", parameter.is_required());
    answer.push_text(shown);
}

/// Writes the kind of a parameter, its prefix, and whether it takes several arguments.
fn put_kind(parameter: &Parameter<'_>, shown: &mut Text) {
    shown.put(" ");
    shown.put_debug(&parameter.kind);
    if let Some(prefix) = parameter.kind.prefix() {
        put_marked(shown, " ", prefix);
    }
    put_if(shown, " variadic", parameter.kind.is_variadic());
}

/// Writes a word and an expression in (), if there is one.
fn put_value(value: &Option<Expression<'_>>, shown: &mut Text, word: &str) {
    if let Some(expression) = value {
        shown.put(word);
        shown.put(" (");
        put_expression(expression, shown);
        shown.put(")");
    }
}

/// Writes a word and a number, if there is one.
fn put_bound(shown: &mut Text, word: &str, bound: Option<u64>) {
    if let Some(number) = bound {
        shown.put(word);
        shown.put_display(&number);
    }
}

/// Writes the name of a long option in ‹›, if there is one.
fn put_long(shown: &mut Text, long: &Option<String>) {
    if let Some(long) = long {
        put_marked(shown, " long ", long.as_str());
    }
}

/// Writes the name of a short option in ‹›, if there is one.
fn put_short(shown: &mut Text, short: Option<char>) {
    if let Some(short) = short {
        shown.put(" short ‹");
        shown.put_character(short);
        shown.put("›");
    }
}

/// Writes what the `arg` attribute of a parameter sets, in the order of the fields' names.
fn put_argument_rules(parameter: &Parameter<'_>, shown: &mut Text) {
    put_if(shown, " flag", parameter.flag);
    put_if(shown, " help", parameter.help.is_some());
    put_long(shown, &parameter.long);
    put_bound(shown, " max ", parameter.max);
    put_bound(shown, " min ", parameter.min);
    put_if(shown, " multiple", parameter.multiple);
    put_short(shown, parameter.short);
    put_value(&parameter.value, shown, " value");
}

/// Writes the parts of each parameter's default, or `none`.
pub fn push_defaults(parameters: &[Parameter<'_>], answer: &mut Answer) {
    for parameter in parameters {
        match &parameter.default {
            Some(expression) => push_parts(expression, answer),
            None => answer.push("none"),
        }
    }
}

/// Writes how many dependencies run before a recipe, and each dependency: its printed text, and its
/// fields.
pub fn push_dependencies(
    dependencies: &[UnresolvedDependency<'_>],
    answer: &mut Answer,
    priors: usize,
) {
    answer.push_number(priors);
    for dependency in dependencies {
        answer.push_display(dependency);
        push_dependency(dependency, answer);
    }
}

/// Writes whether a dependency has a starred argument, the names of its path, and its arguments.
fn push_dependency(dependency: &UnresolvedDependency<'_>, answer: &mut Answer) {
    let mut shown = Text::new(answer.alloc());
    shown.put(if dependency.starred() {
        "starred"
    } else {
        "plain"
    });
    put_path(dependency, &mut shown);
    for argument in &dependency.arguments {
        put_argument(argument, &mut shown);
    }
    answer.push_text(shown);
}

/// Writes the names of a dependency's path, each after a blank.
fn put_path(dependency: &UnresolvedDependency<'_>, shown: &mut Text) {
    for name in dependency.recipe.iter() {
        shown.put(" ");
        put_name(shown, *name);
    }
}

/// Writes an argument in (), as it is printed, after a star if it is starred.
fn put_argument(argument: &DependencyArgument<'_>, shown: &mut Text) {
    shown.put(" (");
    shown.put_display(argument);
    shown.put(")");
}

/// Writes the parts of each argument of each dependency.
pub fn push_arguments(dependencies: &[UnresolvedDependency<'_>], answer: &mut Answer) {
    for dependency in dependencies {
        push_arguments_of(dependency.arguments.as_slice(), answer);
    }
}

fn push_arguments_of(arguments: &[DependencyArgument<'_>], answer: &mut Answer) {
    for argument in arguments {
        push_parts(&argument.expression, answer);
    }
}
