//! Resolution of the variables in sets of attributes.
ghost use Rattle.std.specs.List.{AllZip};
ghost use Rattle.justfile_attribute_set.specs.Resolved.{IsResolvedPair};
ghost use Rattle.justfile_expression.specs.Resolved.{number_of};

use crate::pair_set::PairSet;
use justfile_attribute::Attribute;
use justfile_numbers::Number;
use justfile_written::Written;
use std::collections::HashMap;

impl<'src> PairSet<Attribute<'src>, Written<'src>> {
    ghost use Rattle.justfile_attribute_set.specs.Resolved.{AreResolvedAttributes};

    /// Sets the number of each variable in the attributes' expressions to that of its name in the
    /// context, or else in the bindings, or else to `None`. Nothing else changes.
    #[tactic(auto, using(crate::proofs::ResolvedPairs::resolved_in_order))]
    pub fn resolve_variables(
        &mut self,
        context: Option<&HashMap<&'src str, Number>>,
        bindings: &HashMap<&'src str, Number>,
    )
        ensures { AreResolvedAttributes (number_of context.entry bindings.now) self.new self.old }
    {
        resolve_pairs(&mut self.pairs, context, bindings);
    }
}

/// Sets the numbers of the variables of each attribute.
fn resolve_pairs<'src>(
    pairs: &mut Vec<(Attribute<'src>, Written<'src>)>,
    context: Option<&HashMap<&'src str, Number>>,
    bindings: &HashMap<&'src str, Number>,
)
    ensures { AllZip (IsResolvedPair (number_of context.entry bindings.now)) pairs.new.items
        pairs.old.items }
{
    for pair in pairs.iter_mut() {
        pair.0.resolve_variables(context, bindings);
    }
}
