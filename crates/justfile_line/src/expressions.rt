//! The expressions of fragments and lines: how they are collected and resolved.

use crate::fragment::Fragment;
use crate::line::Line;
use justfile_expression::Expression;
use justfile_inner_expressions::{
    HasExpressions, HasVariables, push_each, push_expression, resolve_each,
};
use justfile_numbers::Number;
use std::alloc::AllocError;
use std::collections::HashMap;

impl<'src> HasExpressions<'src> for Fragment<'src> {
    ghost use Rattle.justfile_line.specs.Expressions.{fragment_expressions};

    ghost expressions = { fragment_expressions };

    fn push_expressions<'a>(
        &'a self,
        found: &mut Vec<&'a Expression<'src>>,
    ) -> Result<(), AllocError> {
        match self {
            Fragment::Interpolation { expression } => push_expression(expression, found),
            Fragment::Text { .. } => Ok(()),
        }
    }
}

impl<'src> HasExpressions<'src> for Line<'src> {
    ghost use Rattle.justfile_line.specs.Expressions.{line_expressions};

    ghost expressions = { line_expressions };

    fn push_expressions<'a>(
        &'a self,
        found: &mut Vec<&'a Expression<'src>>,
    ) -> Result<(), AllocError> {
        push_each(&self.fragments, found)
    }
}

impl<'src> HasVariables<'src> for Fragment<'src> {
    ghost use Rattle.justfile_line.specs.Resolved.{IsResolvedFragment};

    ghost is_resolved = { IsResolvedFragment };

    fn resolve(
        &mut self,
        context: Option<&HashMap<&'src str, Number>>,
        bindings: &HashMap<&'src str, Number>,
    ) {
        match self {
            Fragment::Interpolation { expression } => {
                expression.resolve_variables(context, bindings)
            }
            Fragment::Text { .. } => {}
        }
    }
}

impl<'src> HasVariables<'src> for Line<'src> {
    ghost use Rattle.justfile_line.specs.Resolved.{IsResolvedLine};

    ghost is_resolved = { IsResolvedLine };

    fn resolve(
        &mut self,
        context: Option<&HashMap<&'src str, Number>>,
        bindings: &HashMap<&'src str, Number>,
    ) {
        resolve_each(&mut self.fragments, context, bindings);
    }
}
