//! The expressions of items, at every depth.
ghost use Rattle.std.specs.Prelude.{◌≡◌, ◌++◌, IfOk, OnOk};
ghost use Rattle.justfile_inner_expressions.specs.Pushed.{ArePushed, referents};
ghost use Rattle.justfile_item.specs.AllExpressions.{all_expressions, with_inner};

use crate::item::Item;
use justfile_expression::Expression;
use std::alloc::{AllocError, Global};

impl<'src> Item<'src> {
    /// Returns all expressions of the item, at every depth: those that `expressions` returns, in
    /// that order, each followed by those in it. So an expression comes before its parts, and its
    /// parts come in the order in which they are written.
    ///
    /// # Errors
    ///
    /// `AllocError` if out of memory.
    pub fn all_expressions(&self, alloc: Global) -> Result<Vec<&Expression<'src>>, AllocError>
        ensures { IfOk result (λ found. referents found.items ≡ all_expressions self.now) }
    {
        let direct = self.expressions(alloc)?;
        let mut found = Vec::new(alloc);
        for index in 0..direct.len() {
            push_with_inner(direct[index], alloc, &mut found)?;
        }
        Ok(found)
    }
}

/// Pushes references to an expression and to those in it, each before its parts. Expressions nest
/// without a limit, so a loop follows them: `path` has the expressions from the first one down to
/// the one whose part is next, each with the index of its next part.
fn push_with_inner<'a, 'src>(
    expression: &'a Expression<'src>,
    alloc: Global,
    found: &mut Vec<&'a Expression<'src>>,
) -> Result<(), AllocError>
    ensures { OnOk result (ArePushed found.new found.old (with_inner expression.now)) }
{
    let mut path = Vec::new(alloc);
    found.push(expression)?;
    path.push((expression, 0))?;
    while let Some((whole, index)) = path.pop() {
        if let Some(part) = whole.child(index) {
            found.push(part)?;
            path.push((whole, index + 1))?;
            path.push((part, 0))?;
        }
    }
    Ok(())
}
