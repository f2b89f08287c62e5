//! What names stand for in an item.
ghost use Rattle.std.specs.Prelude.{◌≡◌, IfOk};
ghost use Rattle.std.specs.List.{list_any};
ghost use Rattle.justfile_mentions.specs.Mentions.{defines_parameter, is_between, is_of_parameter, is_seen, meaning, names_parameter, parameters_among, variable_role};

use editor_language::Role;
use justfile_builtins::is_constant;
use justfile_references::{Defaults, Reference};
use justfile_token::Token;
use std::alloc::{AllocError, Global};

/// Whether a reference is where a parameter is defined.
fn defines_parameter(reference: &Reference<'_>) -> bool
    ensures { result ≡ defines_parameter reference.now }
{
    match reference.role {
        justfile_references::Role::Parameter => true,
        justfile_references::Role::Function
        | justfile_references::Role::Recipe
        | justfile_references::Role::Variable => false,
    }
}

/// Returns the names that are defined as parameters among references.
pub(crate) fn parameters_among<'src>(
    alloc: Global,
    references: &[Reference<'src>],
) -> Result<Vec<Token<'src>>, AllocError>
    ensures { IfOk result (λ parameters. parameters.items ≡ parameters_among references.now) }
{
    let mut parameters = Vec::new(alloc);
    for reference in references {
        if defines_parameter(reference) {
            parameters.push(reference.token)?;
        }
    }
    Ok(parameters)
}

/// Whether a token is between two other ones.
fn is_between(first: &Token<'_>, token: &Token<'_>, last: &Token<'_>) -> bool
    ensures { result ≡ is_between first.now last.now token.now }
{
    first.offset < token.offset && token.offset < last.offset
}

/// Whether one of the parameters is between two tokens.
fn has_between(parameters: &[Token<'_>], first: &Token<'_>, last: &Token<'_>) -> bool
    ensures { result ≡ list_any (is_between first.now last.now) parameters.now }
{
    parameters
        .iter()
        .any(|other| is_between(first, other, last))
}

/// Whether a parameter is seen where a name is used. The default of a parameter sees only the
/// parameters before it.
fn is_seen(
    defaults: Defaults,
    parameters: &[Token<'_>],
    used: &Token<'_>,
    parameter: &Token<'_>,
) -> bool
    ensures { result ≡ is_seen defaults parameters.now used.now parameter.now }
{
    !defaults.has(used) || has_between(parameters, parameter, used)
}

/// Whether a name that is used as a variable is that of a parameter that is seen there.
fn is_of_parameter(
    defaults: Defaults,
    parameters: &[Token<'_>],
    used: &Token<'_>,
    parameter: &Token<'_>,
) -> bool
    ensures { result ≡ is_of_parameter defaults parameters.now used.now parameter.now }
{
    parameter.lexeme() == used.lexeme() && is_seen(defaults, parameters, used, parameter)
}

/// Whether a name that is used as a variable is that of one of the parameters that are seen there.
fn names_parameter(defaults: Defaults, parameters: &[Token<'_>], used: &Token<'_>) -> bool
    ensures { result ≡ names_parameter defaults parameters.now used.now }
{
    parameters.iter().any(|parameter| is_of_parameter(defaults, parameters, used, parameter))
}

/// Returns what a name stands for that is no parameter's: a constant that `just` has, even if the
/// file assigns it too, or a variable.
fn variable_role(name: &str) -> Role
    ensures { result ≡ variable_role name.now }
{
    if is_constant(name) {
        Role::Constant
    } else {
        Role::Variable
    }
}

/// Returns what the name of a reference of an item stands for.
pub(crate) fn meaning(
    defaults: Defaults,
    parameters: &[Token<'_>],
    reference: &Reference<'_>,
) -> Role
    ensures { result ≡ meaning defaults parameters.now reference.now }
{
    match reference.role {
        justfile_references::Role::Function => Role::Function,
        justfile_references::Role::Parameter => Role::Parameter,
        justfile_references::Role::Recipe => Role::Recipe,
        justfile_references::Role::Variable => {
            if names_parameter(defaults, parameters, &reference.token) {
                Role::Parameter
            } else {
                variable_role(reference.token.lexeme())
            }
        }
    }
}
