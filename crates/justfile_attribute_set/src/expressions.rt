//! The expressions of sets of attributes.
ghost use Rattle.std.specs.Prelude.{◌≡◌, IfOk, OnOk};
ghost use Rattle.std.specs.List.{flat_map};
ghost use Rattle.justfile_attribute.specs.Expressions.{attribute_expressions};
ghost use Rattle.justfile_attribute_set.specs.Expressions.{set_expressions};
ghost use Rattle.justfile_attribute_set.specs.Keys.{firsts};
ghost use Rattle.justfile_inner_expressions.specs.Pushed.{ArePushed, referents};

use crate::attribute_set::AttributeSet;
use crate::pair_set::PairSet;
use justfile_attribute::{Attribute, push_attribute};
use justfile_expression::Expression;
use justfile_written::Written;
use std::alloc::{AllocError, Global};

impl<'src> PairSet<Attribute<'src>, Written<'src>> {
    /// Returns the expressions that the attributes have directly, in the order in which they are
    /// printed. Those inside of other expressions are left out.
    ///
    /// # Errors
    ///
    /// `AllocError` if out of memory.
    pub fn expressions(&self, alloc: Global) -> Result<Vec<&Expression<'src>>, AllocError>
        ensures { IfOk result (λ found. referents found.items ≡ set_expressions self.now) }
    {
        let mut found = Vec::new(alloc);
        push_pairs(&self.pairs, &mut found)?;
        Ok(found)
    }
}

/// Pushes references to the expressions that the attributes have directly, in the order in which
/// they are printed.
///
/// # Errors
///
/// `AllocError` if memory runs out.
pub fn push_attributes<'a, 'src>(
    attributes: &'a AttributeSet<'src>,
    found: &mut Vec<&'a Expression<'src>>,
) -> Result<(), AllocError>
    ensures { OnOk result (ArePushed found.new found.old (set_expressions attributes.now)) }
{
    push_pairs(&attributes.pairs, found)
}

/// Pushes references to the expressions of attributes.
fn push_pairs<'a, 'src>(
    pairs: &'a [(Attribute<'src>, Written<'src>)],
    found: &mut Vec<&'a Expression<'src>>,
) -> Result<(), AllocError>
    ensures { OnOk result
        (ArePushed found.new found.old (flat_map attribute_expressions (firsts pairs.now))) }
{
    for pair in pairs {
        push_attribute(&pair.0, found)?;
    }
    Ok(())
}
