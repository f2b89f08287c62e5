//! Where names are defined and used.
ghost use Rattle.std.specs.Prelude.{◌≡◌, ◌&&◌, IfOk, filter, map};
ghost use Rattle.std.specs.List.{find};
ghost use Rattle.std.specs.Option.{option_copied};
ghost use Rattle.editor_language.specs.Mentions.{is_at, is_like, role_number, same_scope};

use crate::parts::Span;
use std::alloc::{AllocError, Global};

/// What a name stands for.
#[derive(Clone, Copy, Debug, PartialEq, Eq)]
pub enum Role {
    /// What is run.
    Recipe,
    /// A variable.
    Variable,
    /// A function.
    Function,
    /// A parameter.
    Parameter,
    /// A variable that the language has, which a text may define too. It isn't known everywhere which
    /// of both is meant.
    Constant,
}

impl Role {
    /// Returns a number of its own for each.
    pub fn number(self) -> u8
        ensures { result ≡ role_number self }
    {
        match self {
            Role::Recipe => 0,
            Role::Variable => 1,
            Role::Function => 2,
            Role::Parameter => 3,
            Role::Constant => 4,
        }
    }
}

/// A place where a name is defined or used.
#[derive(Drop)]
pub struct Mention {
    /// What the name stands for.
    pub role: Role,
    /// The name.
    pub name: String,
    /// The item in which alone the name is known, if there is one: each has a number of its own.
    pub scope: Option<usize>,
    /// Where the name is.
    pub span: Span,
    /// Whether it is defined there.
    pub defines: bool,
}

/// Whether an offset is in a mention, or at its end.
fn is_at(mention: &Mention, offset: usize) -> bool
    ensures { result ≡ is_at offset mention.now }
{
    mention.span.start <= offset && offset <= mention.span.end
}

/// Returns the first mention that an offset is in, or at the end of.
pub fn mention_at(mentions: &[Mention], offset: usize) -> Option<&Mention>
    ensures { option_copied result ≡ find (is_at offset) mentions.now }
{
    mentions.iter().find(|mention| is_at(mention, offset))
}

/// Whether two scopes are the same.
pub fn same_scope(first: Option<usize>, second: Option<usize>) -> bool
    ensures { result ≡ same_scope first second }
{
    match (first, second) {
        (None, None) => true,
        (Some(first), Some(second)) => first == second,
        _ => false,
    }
}

/// Whether two mentions are of the same name.
pub fn is_like(first: &Mention, second: &Mention) -> bool
    ensures { result ≡ is_like first.now second.now }
{
    first.role.number() == second.role.number()
        && same_scope(first.scope, second.scope)
        && first.name.as_str() == second.name.as_str()
}

/// Returns the places of the mentions of the same name, in their order.
///
/// # Errors
///
/// Memory ran out.
pub fn mentions_like(
    alloc: Global,
    mentions: &[Mention],
    name: &Mention,
) -> Result<Vec<Span>, AllocError>
    ensures { IfOk result
        (λ spans. spans.items ≡ map (λ m. m.span) (filter (is_like name.now) mentions.now)) }
{
    let mut spans = Vec::new(alloc);
    for mention in mentions {
        if is_like(name, mention) {
            spans.push(mention.span)?;
        }
    }
    Ok(spans)
}

/// Returns the first mention that defines a name, if one does.
pub fn definition_of<'a>(mentions: &'a [Mention], name: &Mention) -> Option<&'a Mention>
    ensures { option_copied result ≡ find (λ m. m.defines && is_like name.now m) mentions.now }
{
    mentions
        .iter()
        .find(|mention| mention.defines && is_like(name, mention))
}
