//! Resolution of the variables in attributes.
ghost use Rattle.std.specs.Prelude.{◌≡◌};
ghost use Rattle.justfile_attribute.specs.Form.{case_kind};
ghost use Rattle.justfile_attribute.specs.Resolved.{IsResolvedAttribute, IsResolvedProperty};
ghost use Rattle.justfile_expression.specs.Resolved.{number_of};
ghost use Rattle.justfile_vocabulary.specs.declared.attribute_kind.AttributeKind.TheVariants as kinds;

use crate::attribute::Attribute;
use justfile_expression::Expression;
use justfile_inner_expressions::resolve_optional;
use justfile_numbers::Number;
use justfile_token::Name;
use std::collections::HashMap;

impl<'src> Attribute<'src> {
    /// Sets the number of each variable in the attribute's expressions to that of its name in the
    /// context, or else in the bindings, or else to `None`. Nothing else changes.
    pub fn resolve_variables(
        &mut self,
        context: Option<&HashMap<&'src str, Number>>,
        bindings: &HashMap<&'src str, Number>,
    )
        ensures { IsResolvedAttribute (number_of context.entry bindings.now) self.new self.old }
    {
        match self {
            Attribute::Arg { .. } => resolve_arg(self, context, bindings),
            Attribute::Cache { .. } => resolve_cache(self, context, bindings),
            Attribute::Confirm(prompt) => resolve_optional(prompt, context, bindings),
            Attribute::Doc(doc) => resolve_optional(doc, context, bindings),
            Attribute::Env(_, _) => resolve_env(self, context, bindings),
            Attribute::Timestamp(format) => resolve_optional(format, context, bindings),
            Attribute::WorkingDirectory(path) => path.resolve_variables(context, bindings),
            _ => {}
        }
    }
}

/// Sets the numbers of the variables of an `arg` attribute.
fn resolve_arg<'src>(
    attribute: &mut Attribute<'src>,
    context: Option<&HashMap<&'src str, Number>>,
    bindings: &HashMap<&'src str, Number>,
)
    requires { kinds.Arg ≡ case_kind attribute.old }
    ensures { IsResolvedAttribute (number_of context.entry bindings.now) attribute.new
        attribute.old }
{
    if let Attribute::Arg { help_property, .. } = attribute {
        resolve_property(help_property, context, bindings);
    }
    if let Attribute::Arg {
        pattern_property,
        ..
    } = attribute
    {
        resolve_property(pattern_property, context, bindings);
    }
    if let Attribute::Arg { value, .. } = attribute {
        resolve_optional(value, context, bindings);
    }
}

/// Sets the numbers of the variables of a `cache` attribute.
fn resolve_cache<'src>(
    attribute: &mut Attribute<'src>,
    context: Option<&HashMap<&'src str, Number>>,
    bindings: &HashMap<&'src str, Number>,
)
    requires { kinds.Cache ≡ case_kind attribute.old }
    ensures { IsResolvedAttribute (number_of context.entry bindings.now) attribute.new
        attribute.old }
{
    if let Attribute::Cache { extra, .. } = attribute {
        resolve_optional(extra, context, bindings);
    }
    if let Attribute::Cache { inputs, .. } = attribute {
        resolve_optional(inputs, context, bindings);
    }
    if let Attribute::Cache { outputs, .. } = attribute {
        resolve_optional(outputs, context, bindings);
    }
}

/// Sets the numbers of the variables of an `env` attribute.
fn resolve_env<'src>(
    attribute: &mut Attribute<'src>,
    context: Option<&HashMap<&'src str, Number>>,
    bindings: &HashMap<&'src str, Number>,
)
    requires { kinds.Env ≡ case_kind attribute.old }
    ensures { IsResolvedAttribute (number_of context.entry bindings.now) attribute.new
        attribute.old }
{
    if let Attribute::Env(name, _) = attribute {
        name.resolve_variables(context, bindings);
    }
    if let Attribute::Env(_, value) = attribute {
        value.resolve_variables(context, bindings);
    }
}

/// Sets the numbers of the variables in the value of a key, if there is one.
fn resolve_property<'src>(
    property: &mut Option<(Name<'src>, Box<Expression<'src>>)>,
    context: Option<&HashMap<&'src str, Number>>,
    bindings: &HashMap<&'src str, Number>,
)
    ensures { IsResolvedProperty (number_of context.entry bindings.now) property.new
        property.old }
{
    match property {
        None => {}
        Some(property) => property.1.resolve_variables(context, bindings),
    }
}
