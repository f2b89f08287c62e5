//! The expressions of attributes.
ghost use Rattle.std.specs.Prelude.{◌≡◌, ◌++◌, ◌∷◌, [], IfOk, OnOk};
ghost use Rattle.justfile_attribute.specs.Expressions.{attribute_expressions, property_expressions};
ghost use Rattle.justfile_inner_expressions.specs.Pushed.{ArePushed, optional_expressions, referents};

use crate::attribute::Attribute;
use justfile_expression::Expression;
use justfile_inner_expressions::{push_expression, push_optional};
use justfile_token::Name;
use std::alloc::{AllocError, Global};

impl<'src> Attribute<'src> {
    /// Returns the expressions that the attribute has directly, in the order in which they are
    /// printed. Those inside of other expressions are left out.
    ///
    /// # Errors
    ///
    /// `AllocError` if out of memory.
    pub fn expressions(&self, alloc: Global) -> Result<Vec<&Expression<'src>>, AllocError>
        ensures { IfOk result (λ found. referents found.items ≡ attribute_expressions self.now) }
    {
        let mut found = Vec::new(alloc);
        push_attribute(self, &mut found)?;
        Ok(found)
    }
}

/// Pushes references to the expressions that an attribute has directly, in the order in which they
/// are printed.
///
/// # Errors
///
/// Memory runs out.
pub fn push_attribute<'a, 'src>(
    attribute: &'a Attribute<'src>,
    found: &mut Vec<&'a Expression<'src>>,
) -> Result<(), AllocError>
    ensures { OnOk result (ArePushed found.new found.old (attribute_expressions attribute.now)) }
{
    match attribute {
        Attribute::Arg {
            help_property,
            pattern_property,
            value,
            ..
        } => push_arg(pattern_property, value, help_property, found),
        Attribute::Cache {
            extra,
            inputs,
            outputs,
        } => push_cache(extra, inputs, outputs, found),
        Attribute::Confirm(prompt) => push_optional(prompt, found),
        Attribute::Doc(doc) => push_optional(doc, found),
        Attribute::Env(name, value) => push_pair(name, value, found),
        Attribute::Timestamp(format) => push_optional(format, found),
        Attribute::WorkingDirectory(path) => push_expression(path, found),
        _ => Ok(()),
    }
}

/// Pushes references to the expressions of an `arg` attribute, given by its fields.
fn push_arg<'a, 'src>(
    pattern: &'a Option<(Name<'src>, Box<Expression<'src>>)>,
    value: &'a Option<Box<Expression<'src>>>,
    help: &'a Option<(Name<'src>, Box<Expression<'src>>)>,
    found: &mut Vec<&'a Expression<'src>>,
) -> Result<(), AllocError>
    ensures { OnOk result (ArePushed found.new found.old (property_expressions pattern.now
        ++ optional_expressions value.now ++ property_expressions help.now)) }
{
    push_property(pattern, found)?;
    push_optional(value, found)?;
    push_property(help, found)
}

/// Pushes references to the expressions of a `cache` attribute, given by its fields.
fn push_cache<'a, 'src>(
    extra: &'a Option<Box<Expression<'src>>>,
    inputs: &'a Option<Box<Expression<'src>>>,
    outputs: &'a Option<Box<Expression<'src>>>,
    found: &mut Vec<&'a Expression<'src>>,
) -> Result<(), AllocError>
    ensures { OnOk result (ArePushed found.new found.old (optional_expressions extra.now
        ++ optional_expressions inputs.now ++ optional_expressions outputs.now)) }
{
    push_optional(extra, found)?;
    push_optional(inputs, found)?;
    push_optional(outputs, found)
}

/// Pushes references to two expressions.
fn push_pair<'a, 'src>(
    first: &'a Expression<'src>,
    second: &'a Expression<'src>,
    found: &mut Vec<&'a Expression<'src>>,
) -> Result<(), AllocError>
    ensures { OnOk result (ArePushed found.new found.old (first.now ∷ second.now ∷ [])) }
{
    push_expression(first, found)?;
    push_expression(second, found)
}

/// Pushes a reference to the value of a key, if there is one.
fn push_property<'a, 'src>(
    property: &'a Option<(Name<'src>, Box<Expression<'src>>)>,
    found: &mut Vec<&'a Expression<'src>>,
) -> Result<(), AllocError>
    ensures { OnOk result (ArePushed found.new found.old (property_expressions property.now)) }
{
    match property {
        None => Ok(()),
        Some((_, value)) => push_expression(value, found),
    }
}
