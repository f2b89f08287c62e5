//! The expressions of parameters and dependencies: how they are collected and resolved.

use crate::optional::{push_present, resolve_present};
use crate::parameter::Parameter;
use crate::unresolved_dependency::{DependencyArgument, UnresolvedDependency};
use justfile_expression::Expression;
use justfile_inner_expressions::{
    HasExpressions, HasVariables, push_each, push_expression, resolve_each,
};
use justfile_numbers::Number;
use std::alloc::AllocError;
use std::collections::HashMap;

impl<'src> HasExpressions<'src> for Parameter<'src> {
    ghost use Rattle.justfile_recipe_header.specs.Expressions.{parameter_expressions};

    ghost expressions = { parameter_expressions };

    fn push_expressions<'a>(
        &'a self,
        found: &mut Vec<&'a Expression<'src>>,
    ) -> Result<(), AllocError> {
        push_present(&self.default, found)
    }
}

impl<'src> HasExpressions<'src> for DependencyArgument<'src> {
    ghost use Rattle.justfile_recipe_header.specs.Expressions.{argument_expressions};

    ghost expressions = { argument_expressions };

    fn push_expressions<'a>(
        &'a self,
        found: &mut Vec<&'a Expression<'src>>,
    ) -> Result<(), AllocError> {
        push_expression(&self.expression, found)
    }
}

impl<'src> HasExpressions<'src> for UnresolvedDependency<'src> {
    ghost use Rattle.justfile_recipe_header.specs.Expressions.{dependency_expressions};

    ghost expressions = { dependency_expressions };

    fn push_expressions<'a>(
        &'a self,
        found: &mut Vec<&'a Expression<'src>>,
    ) -> Result<(), AllocError> {
        push_each(&self.arguments, found)
    }
}

impl<'src> HasVariables<'src> for Parameter<'src> {
    ghost use Rattle.justfile_recipe_header.specs.Resolved.{IsResolvedParameter};

    ghost is_resolved = { IsResolvedParameter };

    fn resolve(
        &mut self,
        context: Option<&HashMap<&'src str, Number>>,
        bindings: &HashMap<&'src str, Number>,
    ) {
        resolve_present(&mut self.default, context, bindings);
        resolve_present(&mut self.value, context, bindings);
    }
}

impl<'src> HasVariables<'src> for DependencyArgument<'src> {
    ghost use Rattle.justfile_recipe_header.specs.Resolved.{IsResolvedArgument};

    ghost is_resolved = { IsResolvedArgument };

    fn resolve(
        &mut self,
        context: Option<&HashMap<&'src str, Number>>,
        bindings: &HashMap<&'src str, Number>,
    ) {
        self.expression.resolve_variables(context, bindings);
    }
}

impl<'src> HasVariables<'src> for UnresolvedDependency<'src> {
    ghost use Rattle.justfile_recipe_header.specs.Resolved.{IsResolvedDependency};

    ghost is_resolved = { IsResolvedDependency };

    fn resolve(
        &mut self,
        context: Option<&HashMap<&'src str, Number>>,
        bindings: &HashMap<&'src str, Number>,
    ) {
        resolve_each(&mut self.arguments, context, bindings);
    }
}
