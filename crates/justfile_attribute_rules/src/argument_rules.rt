//! The type of what an `arg` attribute sets for its parameter.

use justfile_expression::Expression;
use justfile_token::{Name, StringLiteral, Token};

/// What an `arg` attribute sets for a parameter of a recipe.
#[derive(Drop)]
pub struct ArgumentRules<'src> {
    /// The key `flag`: the option takes no value.
    pub flag: Option<Token<'src>>,
    /// The key `help` and its value.
    pub help_property: Option<(Name<'src>, Box<Expression<'src>>)>,
    /// The name of the long option.
    pub long: Option<StringLiteral<'src>>,
    /// The key `long` if it has no value, so that the option has the parameter's name.
    pub long_key: Option<Name<'src>>,
    /// The key `max` and its number: the most arguments that the parameter takes.
    pub max: Option<(Name<'src>, u64)>,
    /// The key `min` and its number: the fewest arguments that the parameter takes.
    pub min: Option<(Name<'src>, u64)>,
    /// The key `multiple`: the option may be given more than once.
    pub multiple: Option<Token<'src>>,
    /// The parameter's name.
    pub name: StringLiteral<'src>,
    /// The key `pattern` and its value.
    pub pattern_property: Option<(Name<'src>, Box<Expression<'src>>)>,
    /// The name of the short option.
    pub short: Option<StringLiteral<'src>>,
    /// The key `short` if it has no value, so that the option has the parameter's name.
    pub short_key: Option<Name<'src>>,
    /// The parameter's value if the option is given without one.
    pub value: Option<Box<Expression<'src>>>,
}
