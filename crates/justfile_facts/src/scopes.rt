//! Which parameters are seen where a name is used.
ghost use Rattle.std.specs.Prelude.{◌≡◌};
ghost use Rattle.justfile_facts.specs.Scopes.{end_at, last_before, offset_before};

use justfile_recipe_header::Parameter;
use justfile_references::Defaults;
use justfile_token::{Name, Token};

/// What a name in an item sees.
#[derive(Clone, Copy)]
pub(crate) struct Scope<'a, 'src> {
    /// The name of the item. What is before it is in an attribute.
    pub(crate) item: Name<'src>,
    /// The parameters that can have defaults.
    pub(crate) parameters: &'a [Parameter<'src>],
    /// Where their defaults are.
    pub(crate) defaults: Defaults,
}

impl Scope<'_, '_> {
    /// Returns the offset before which the parameters are that are seen at a token, or `None` if all
    /// are.
    pub(crate) fn end_at(self, token: &Token<'_>) -> Option<usize>
        ensures { result ≡ end_at self.entry.defaults self.entry.parameters.now token.now }
    {
        if self.defaults.has(token) {
            last_before(token, self.parameters)
        } else {
            None
        }
    }
}

/// Returns the offset of the last of these parameters before a token.
fn last_before(token: &Token<'_>, parameters: &[Parameter<'_>]) -> Option<usize>
    ensures { result ≡ last_before token.now parameters.now }
{
    let mut last = None;
    for parameter in parameters {
        last = offset_before(token.offset, parameter.name.token.offset).or(last);
    }
    last
}

/// Returns the offset, if it is before an end.
fn offset_before(end: usize, offset: usize) -> Option<usize>
    ensures { result ≡ offset_before end offset }
{
    if offset < end { Some(offset) } else { None }
}
