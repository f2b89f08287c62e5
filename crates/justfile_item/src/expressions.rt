//! The expressions of items.
ghost use Rattle.std.specs.Prelude.{◌≡◌, ◌++◌, ◌∷◌, [], IfOk, OnOk};
ghost use Rattle.justfile_attribute_set.specs.Expressions.{set_expressions};
ghost use Rattle.justfile_inner_expressions.specs.Pushed.{ArePushed, referents};
ghost use Rattle.justfile_item.specs.Expressions.{item_expressions, recipe_expressions};
ghost use Rattle.justfile_setting.specs.Expressions.{setting_expressions};

use crate::item::Item;
use crate::recipe::UnresolvedRecipe;
use justfile_attribute_set::{AttributeSet, push_attributes};
use justfile_expression::Expression;
use justfile_inner_expressions::{push_each, push_expression};
use justfile_setting::{Setting, push_setting};
use std::alloc::{AllocError, Global};

impl<'src> Item<'src> {
    /// Returns the expressions that the item has directly, in the order in which they are printed:
    /// those of its attributes, then the defaults of parameters, the arguments of dependencies and
    /// the interpolations of the body, or the value of an assignment or a setting, or the body of a
    /// function. Those inside of other expressions are left out.
    ///
    /// # Errors
    ///
    /// `AllocError` if out of memory.
    pub fn expressions(&self, alloc: Global) -> Result<Vec<&Expression<'src>>, AllocError>
        ensures { IfOk result (λ found. referents found.items ≡ item_expressions self.now) }
    {
        let mut found = Vec::new(alloc);
        push_item(self, &mut found)?;
        Ok(found)
    }
}

/// Pushes references to the expressions that an item has directly, in the order in which they are
/// printed.
fn push_item<'a, 'src>(
    item: &'a Item<'src>,
    found: &mut Vec<&'a Expression<'src>>,
) -> Result<(), AllocError>
    ensures { OnOk result (ArePushed found.new found.old (item_expressions item.now)) }
{
    match item {
        Item::Alias(alias) => push_attributes(&alias.attributes, found),
        Item::Assignment(assignment) => {
            push_with_attributes(&assignment.attributes, &assignment.value, found)
        }
        Item::Comment(_) | Item::Newline => Ok(()),
        Item::Function(function) => {
            push_with_attributes(&function.attributes, &function.body, found)
        }
        Item::Import { attributes, .. }
        | Item::Module { attributes, .. }
        | Item::Unexport { attributes, .. } => push_attributes(attributes, found),
        Item::Recipe(recipe) => push_recipe(recipe, found),
        Item::Setting(set) => push_set(&set.attributes, &set.value, found),
    }
}

/// Pushes references to the expressions of attributes, and then to one more expression.
fn push_with_attributes<'a, 'src>(
    attributes: &'a AttributeSet<'src>,
    expression: &'a Expression<'src>,
    found: &mut Vec<&'a Expression<'src>>,
) -> Result<(), AllocError>
    ensures { OnOk result (ArePushed found.new found.old
        (set_expressions attributes.now ++ expression.now ∷ [])) }
{
    push_attributes(attributes, found)?;
    push_expression(expression, found)
}

/// Pushes references to the expressions of a setting, after those of its attributes.
fn push_set<'a, 'src>(
    attributes: &'a AttributeSet<'src>,
    setting: &'a Setting<'src>,
    found: &mut Vec<&'a Expression<'src>>,
) -> Result<(), AllocError>
    ensures { OnOk result (ArePushed found.new found.old
        (set_expressions attributes.now ++ setting_expressions setting.now)) }
{
    push_attributes(attributes, found)?;
    push_setting(setting, found)
}

/// Pushes references to the expressions of a recipe, after those of its attributes.
fn push_recipe<'a, 'src>(
    recipe: &'a UnresolvedRecipe<'src>,
    found: &mut Vec<&'a Expression<'src>>,
) -> Result<(), AllocError>
    ensures { OnOk result (ArePushed found.new found.old
        (set_expressions recipe.now.attributes ++ recipe_expressions recipe.now)) }
{
    push_attributes(&recipe.attributes, found)?;
    push_each(&recipe.parameters, found)?;
    push_each(&recipe.dependencies, found)?;
    push_each(&recipe.body, found)
}
