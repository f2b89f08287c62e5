//! Definitions of functions.
ghost use Rattle.std.specs.Prelude.{◌≡◌, ◌++◌, ◌&&◌, IfOk, codes};
ghost use Rattle.std.specs.Cmp.{and_per, on_per};
ghost use Rattle.std.specs.Cmp.Lexicographic.{lists_per, pointwise};
ghost use Rattle.justfile_attribute_set.specs.contracts.attribute_set.PairSetAttributeWrittenPartialEq.TheImpl as sets;
ghost use Rattle.justfile_attribute_set.specs.contracts.attribute_set.PairSetAttributeWrittenPartialEq.TheImpl.Laws.{laws-law as set_per};
ghost use Rattle.justfile_token.specs.contracts.name.NamePartialEq.TheImpl as names;
ghost use Rattle.justfile_token.specs.contracts.name.NamePartialEq.TheImpl.Laws.{laws-law as name_per};
ghost use Rattle.justfile_token.specs.Token.{lexeme_of};
ghost use Rattle.justfile_model.specs.Printed.Printing.{fixed_text};
ghost use Rattle.justfile_token.specs.Sink.{Puts};
ghost use Rattle.justfile_expression.specs.contracts.order.ExpressionPartialEq.TheImpl as expressions;
ghost use Rattle.justfile_expression.specs.contracts.order.ExpressionPartialEq.TheImpl.Laws.{laws-law as expression_per};
ghost use Rattle.justfile_item.specs.Copies.{IsSameFunction};
ghost use Rattle.justfile_item.specs.FunctionParameter.{parameter_per, same_parameter};
ghost use Rattle.justfile_item.specs.ItemText.{function_text_of, later_names_text, parameter_names_text};

use crate::attributes::are_equal;
use justfile_attribute_set::AttributeSet;
use justfile_expression::{Expression, copy_boxed};
use justfile_inner_expressions::write_expression;
use justfile_leaves::put_piece;
use justfile_numbers::Number;
use justfile_token::{Keyed, Name, Sink};
use std::alloc::{AllocError, Global};
use std::fmt;

/// The definition of a function.
#[derive(Drop)]
pub struct FunctionDefinition<'src> {
    /// The attributes.
    pub attributes: AttributeSet<'src>,
    /// The expression that a call evaluates.
    pub body: Expression<'src>,
    /// The name.
    pub name: Name<'src>,
    /// The parameters, in order, each with its number. The numerator gives no other binding the
    /// same number.
    pub parameters: Vec<(Name<'src>, Number)>,
}

impl<'src> FunctionDefinition<'src> {
    /// Returns a copy of the function, or an error if out of memory.
    pub fn clone(&self, alloc: Global) -> Result<Self, AllocError>
        ensures { IfOk result (λ copy. IsSameFunction copy self.now) }
    {
        let body = copy_boxed(alloc, &self.body)?;
        let parameters = self.parameters.as_slice().to_vec(alloc)?;
        match self.attributes.clone(alloc) {
            Ok(attributes) => Ok(FunctionDefinition {
                attributes,
                body: Box::into_inner(body),
                name: self.name,
                parameters,
            }),
            Err(fault) => Err(fault),
        }
    }
}

/// The key of a function is its name.
impl<'src> Keyed<'src> for FunctionDefinition<'src> {
    ghost use Rattle.justfile_token.specs.Name.{name_text};

    ghost key_text = { λ function. name_text function.name };

    fn key(&self) -> &'src str {
        self.name.token.lexeme()
    }
}

/// Two functions are equal if all their fields are.
impl<'src> PartialEq for FunctionDefinition<'src> {
    ghost eq = { λ a b. sets.eq-value.it a.attributes b.attributes
        && (expressions.eq-value.it a.body b.body
        && (names.eq-value.it a.name b.name
        && pointwise same_parameter a.parameters.items b.parameters.items)) };

    ghost laws = { and_per (on_per (λ f. f.attributes) set_per)
        (and_per (on_per (λ f. f.body) expression_per)
        (and_per (on_per (λ f. f.name) name_per)
        (on_per (λ f. f.parameters.items) (lists_per parameter_per)))) };

    fn eq(&self, other: &Self) -> bool {
        are_equal(&self.attributes, &other.attributes)
            && self.body == other.body
            && self.name == other.name
            && have_same_parameters(&self.parameters, &other.parameters)
    }
}

/// Writes the text of the function, without its attributes.
impl fmt::Debug for FunctionDefinition<'_> {
    fn fmt<W: fmt::Write>(&self, f: &mut fmt::Formatter<W>) -> fmt::Result {
        write_function(self, f)
    }
}

/// Whether two lists of parameters are equal.
fn have_same_parameters<'src>(
    parameters: &[(Name<'src>, Number)],
    others: &[(Name<'src>, Number)],
) -> bool
    ensures { result ≡ pointwise same_parameter parameters.now others.now }
{
    parameters == others
}

/// Writes the text of a function, without its attributes.
pub(crate) fn write_function<S: Sink>(
    function: &FunctionDefinition<'_>,
    sink: &mut S,
) -> Result<(), S::Fault>
    ensures { Puts S.took S.failed sink.old result (function_text_of function.now) sink.new }
{
    sink.put(function.name.lexeme())?;
    put_piece("(", sink)?;
    write_names(&function.parameters, sink)?;
    put_piece(") := ", sink)?;
    write_expression(&function.body, sink)
}

/// Writes the names of parameters with a comma and a space between them.
#[tactic(auto, using(crate::proofs::ItemTexts::names_none))]
fn write_names<S: Sink>(parameters: &[(Name<'_>, Number)], sink: &mut S) -> Result<(), S::Fault>
    ensures { Puts S.took S.failed sink.old result (parameter_names_text parameters.now) sink.new }
{
    let Some((first, rest)) = parameters.split_first() else {
        return Ok(());
    };
    sink.put(first.0.lexeme())?;
    write_later_names(rest, sink)?;
    Ok(())
}

/// Writes the names of parameters, each with a comma and a space before it.
fn write_later_names<S: Sink>(
    parameters: &[(Name<'_>, Number)],
    sink: &mut S,
) -> Result<(), S::Fault>
    ensures { Puts S.took S.failed sink.old result (later_names_text parameters.now) sink.new }
{
    for parameter in parameters {
        write_later_name(&parameter.0, sink)?;
    }
    Ok(())
}

/// Writes the name of a parameter with a comma and a space before it.
fn write_later_name<S: Sink>(name: &Name<'_>, sink: &mut S) -> Result<(), S::Fault>
    ensures { Puts S.took S.failed sink.old result
        (fixed_text (codes ", ") ++ lexeme_of name.now.token) sink.new }
{
    put_piece(", ", sink)?;
    sink.put(name.lexeme())
}
