//! Parameters of recipes.
ghost use Rattle.std.specs.Prelude.{◌≡◌, ◌++◌, IfOk};
ghost use Rattle.justfile_token.specs.Sink.{Puts};
ghost use Rattle.justfile_recipe_header.specs.Header.{default_text, parameter_text_of, parameters_text};
ghost use Rattle.justfile_recipe_header.specs.Parameter.{is_positive};

use crate::optional::{copy_in_box, unboxed};
use crate::parameter_kind::prefix;
use crate::write_to::{WriteTo, write_each};
use justfile_expression::Expression;
use justfile_inner_expressions::write_expression;
use justfile_leaves::{put_piece, put_piece_if};
use justfile_model::ParameterKind;
use justfile_numbers::Number;
use justfile_token::{Name, Sink, TryClone, copy_optional_text};
use std::alloc::{AllocError, Global};
use std::fmt;

/// A parameter of a recipe, with what an `arg` attribute sets for it.
#[derive(Drop, PartialEq)]
pub struct Parameter<'src> {
    /// The value if no argument is given.
    pub default: Option<Expression<'src>>,
    /// Whether the parameter is also exported as an environment variable, with `$` before its name.
    pub export: bool,
    /// Whether the parameter is an option without a value.
    pub flag: bool,
    /// The help text in the recipe's usage.
    pub help: Option<String>,
    /// How many arguments the parameter takes: one, any number, or at least one.
    pub kind: ParameterKind,
    /// The name as a long option.
    pub long: Option<String>,
    /// The greatest number of arguments, if it is limited.
    pub max: Option<u64>,
    /// The least number of arguments, if one is set.
    pub min: Option<u64>,
    /// Whether the option may be given more than once.
    pub multiple: bool,
    /// The name.
    pub name: Name<'src>,
    /// The number of the parameter. The numerator gives no other binding the same number.
    pub number: Number,
    /// The name as a short option.
    pub short: Option<char>,
    /// The value if the option is given without one.
    pub value: Option<Expression<'src>>,
}

impl<'src> Parameter<'src> {
    ghost use Rattle.justfile_token.specs.Copies.{IsSameIfPresent, IsSameText};
    ghost use Rattle.justfile_recipe_header.specs.Copies.{IsCopyInBox, IsSameParameter};
    ghost use Rattle.justfile_recipe_header.specs.Parameter.{is_option, is_required};

    /// Returns a copy of the parameter, or an error if out of memory.
    pub fn clone(&self, alloc: Global) -> Result<Self, AllocError>
        ensures { IfOk result (λ copy. IsSameParameter copy self.now) }
    {
        let help = copy_optional_text(alloc, &self.help)?;
        let long = copy_optional_text(alloc, &self.long)?;
        let default = copy_in_box(alloc, &self.default)?;
        let value = copy_in_box(alloc, &self.value)?;
        Ok(self.with_copies(help, long, default, value))
    }

    /// Makes a copy of the parameter, of copies of those of its parts that take memory.
    fn with_copies(
        &self,
        help: Option<String>,
        long: Option<String>,
        default: Option<Box<Expression<'src>>>,
        value: Option<Box<Expression<'src>>>,
    ) -> Self
        requires help { IsSameIfPresent IsSameText help self.now.help }
        requires long { IsSameIfPresent IsSameText long self.now.long }
        requires default { IsCopyInBox default self.now.default }
        requires value { IsCopyInBox value self.now.value }
        ensures { IsSameParameter result self.now }
    {
        Parameter {
            default: unboxed(default),
            export: self.export,
            flag: self.flag,
            help,
            kind: self.kind,
            long,
            max: self.max,
            min: self.min,
            multiple: self.multiple,
            name: self.name,
            number: self.number,
            short: self.short,
            value: unboxed(value),
        }
    }

    /// Whether the parameter is an option: it has a long or a short option name.
    pub fn is_option(&self) -> bool
        ensures { result ≡ is_option self.now }
    {
        self.long.is_some() || self.short.is_some()
    }

    /// Whether an argument is required: the parameter has no default, isn't a flag, and either its
    /// kind isn't `*` or its `min` is above 0.
    pub fn is_required(&self) -> bool
        ensures { result ≡ is_required self.now }
    {
        self.default.is_none()
            && !self.flag
            && (self.kind != ParameterKind::Star || is_positive(self.min))
    }
}

impl TryClone for Parameter<'_> {
    ghost use Rattle.justfile_recipe_header.specs.Copies.{IsSameParameter};

    ghost is_copy = { IsSameParameter };

    fn try_clone(&self, alloc: Global) -> Result<Self, AllocError> {
        self.clone(alloc)
    }
}

impl WriteTo for Parameter<'_> {
    ghost piece_text = { parameter_text_of };

    fn write<S: Sink>(&self, sink: &mut S) -> Result<(), S::Fault> {
        write_parameter(self, sink)
    }
}

impl fmt::Display for Parameter<'_> {
    ghost use Rattle.std.specs.Prelude.{Some};

    ghost output = { λ parameter. Some (parameter_text_of parameter) };

    fn fmt<W: fmt::Write>(&self, f: &mut fmt::Formatter<W>) -> fmt::Result {
        write_parameter(self, f)
    }
}

/// Writes the same text as `Display`.
impl fmt::Debug for Parameter<'_> {
    fn fmt<W: fmt::Write>(&self, f: &mut fmt::Formatter<W>) -> fmt::Result {
        write_parameter(self, f)
    }
}

/// Whether a number is present and above 0.
fn is_positive(number: Option<u64>) -> bool
    ensures { result ≡ is_positive number }
{
    match number {
        None => false,
        Some(number) => 0 < number,
    }
}

/// Writes the text of a parameter.
pub fn write_parameter<S: Sink>(parameter: &Parameter<'_>, sink: &mut S) -> Result<(), S::Fault>
    ensures { Puts S.took S.failed sink.old result (parameter_text_of parameter.now) sink.new }
{
    sink.put(prefix(parameter.kind))?;
    put_piece_if(parameter.export, "$", sink)?;
    sink.put(parameter.name.lexeme())?;
    write_default(&parameter.default, sink)
}

/// Writes the default of a parameter with `=` before it, or nothing if there is none.
fn write_default<S: Sink>(default: &Option<Expression<'_>>, sink: &mut S) -> Result<(), S::Fault>
    ensures { Puts S.took S.failed sink.old result (default_text default.now) sink.new }
{
    match default {
        None => Ok(()),
        Some(expression) => {
            put_piece("=", sink)?;
            write_expression(expression, sink)
        }
    }
}

/// Writes the parameters of a recipe, each after a space.
#[tactic(auto, using(crate::proofs::Parts::parameters_parts))]
pub fn write_parameters<S: Sink>(parameters: &[Parameter<'_>], sink: &mut S) -> Result<(), S::Fault>
    ensures { Puts S.took S.failed sink.old result (parameters_text parameters.now) sink.new }
{
    write_each(" ", parameters, sink)?;
    Ok(())
}
