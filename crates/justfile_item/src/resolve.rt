//! Resolution of the variables in items.
ghost use Rattle.justfile_expression.specs.Resolved.{number_of};
ghost use Rattle.justfile_item.specs.Resolved.{IsResolvedAlias, IsResolvedAssignment, IsResolvedFunction, IsResolvedItem, IsResolvedRecipe, IsResolvedSet};

use crate::alias::Alias;
use crate::assignment::Assignment;
use crate::function_definition::FunctionDefinition;
use crate::item::Item;
use crate::recipe::UnresolvedRecipe;
use crate::set::Set;
use justfile_inner_expressions::resolve_each;
use justfile_numbers::Number;
use justfile_token::Namepath;
use std::collections::HashMap;

impl<'src> Item<'src> {
    /// Sets the number of each variable in the item's expressions, those of its attributes
    /// included, to that of its name in the context, or else in the bindings, or else to `None`.
    /// Nothing else changes.
    pub fn resolve_variables(
        &mut self,
        context: Option<&HashMap<&'src str, Number>>,
        bindings: &HashMap<&'src str, Number>,
    )
        ensures { IsResolvedItem (number_of context.entry bindings.now) self.new self.old }
    {
        match self {
            Item::Alias(alias) => resolve_alias(alias, context, bindings),
            Item::Assignment(assignment) => resolve_assignment(assignment, context, bindings),
            Item::Comment(_) => {}
            Item::Function(function) => resolve_function(function, context, bindings),
            Item::Import { attributes, .. } => attributes.resolve_variables(context, bindings),
            Item::Module { attributes, .. } => attributes.resolve_variables(context, bindings),
            Item::Newline => {}
            Item::Recipe(recipe) => resolve_recipe(recipe, context, bindings),
            Item::Setting(set) => resolve_set(set, context, bindings),
            Item::Unexport { attributes, .. } => attributes.resolve_variables(context, bindings),
        }
    }
}

/// Sets the numbers of the variables of an alias.
fn resolve_alias<'src>(
    alias: &mut Alias<'src, Namepath<'src>>,
    context: Option<&HashMap<&'src str, Number>>,
    bindings: &HashMap<&'src str, Number>,
)
    ensures { IsResolvedAlias (number_of context.entry bindings.now) alias.new alias.old }
{
    alias.attributes.resolve_variables(context, bindings);
}

/// Sets the numbers of the variables of an assignment.
fn resolve_assignment<'src>(
    assignment: &mut Assignment<'src>,
    context: Option<&HashMap<&'src str, Number>>,
    bindings: &HashMap<&'src str, Number>,
)
    ensures { IsResolvedAssignment (number_of context.entry bindings.now) assignment.new
        assignment.old }
{
    assignment.attributes.resolve_variables(context, bindings);
    assignment.value.resolve_variables(context, bindings);
}

/// Sets the numbers of the variables of a function.
fn resolve_function<'src>(
    function: &mut FunctionDefinition<'src>,
    context: Option<&HashMap<&'src str, Number>>,
    bindings: &HashMap<&'src str, Number>,
)
    ensures { IsResolvedFunction (number_of context.entry bindings.now) function.new
        function.old }
{
    function.attributes.resolve_variables(context, bindings);
    function.body.resolve_variables(context, bindings);
}

/// Sets the numbers of the variables of a recipe.
fn resolve_recipe<'src>(
    recipe: &mut UnresolvedRecipe<'src>,
    context: Option<&HashMap<&'src str, Number>>,
    bindings: &HashMap<&'src str, Number>,
)
    ensures { IsResolvedRecipe (number_of context.entry bindings.now) recipe.new recipe.old }
{
    recipe.attributes.resolve_variables(context, bindings);
    resolve_each(&mut recipe.parameters, context, bindings);
    resolve_each(&mut recipe.dependencies, context, bindings);
    resolve_each(&mut recipe.body, context, bindings);
}

/// Sets the numbers of the variables of a setting.
fn resolve_set<'src>(
    set: &mut Set<'src>,
    context: Option<&HashMap<&'src str, Number>>,
    bindings: &HashMap<&'src str, Number>,
)
    ensures { IsResolvedSet (number_of context.entry bindings.now) set.new set.old }
{
    set.attributes.resolve_variables(context, bindings);
    set.value.resolve_variables(context, bindings);
}
