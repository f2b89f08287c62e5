//! Interpreters with texts and with expressions.
ghost use Rattle.std.specs.Prelude.{IfOk};
ghost use Rattle.std.specs.List.{AllZip};
ghost use Rattle.justfile_token.specs.Copies.{IsSameText};
ghost use Rattle.justfile_attribute.specs.Interpreters.{IsDefault, IsSameExpressionInterpreter, IsSameTextInterpreter};
ghost use Rattle.justfile_expression.specs.Copies.{IsSameExpression};

use crate::interpreter::Interpreter;
use justfile_expression::Expression;
use std::alloc::{AllocError, Global};

impl Interpreter<String> {
    /// Returns the interpreter of scripts if none is set: `sh -eu`.
    pub fn default_script_interpreter(alloc: Global) -> Result<Self, AllocError>
        ensures { IfOk result IsDefault }
    {
        let mut arguments = Vec::new(alloc);
        arguments.push("-eu".to_string(alloc)?)?;
        Ok(Interpreter {
            command: "sh".to_string(alloc)?,
            arguments,
        })
    }

    /// Returns a copy of the interpreter, or an error if out of memory.
    pub fn clone(&self, alloc: Global) -> Result<Self, AllocError>
        ensures { IfOk result (λ copy. IsSameTextInterpreter copy self.now) }
    {
        let arguments = copy_texts(alloc, &self.arguments)?;
        Ok(Interpreter {
            command: self.command.as_str().to_string(alloc)?,
            arguments,
        })
    }
}

impl<'src> Interpreter<Expression<'src>> {
    /// Returns a copy of the interpreter, or an error if out of memory.
    pub fn clone(&self, alloc: Global) -> Result<Self, AllocError>
        ensures { IfOk result (λ copy. IsSameExpressionInterpreter copy self.now) }
    {
        let arguments = copy_expressions(alloc, &self.arguments)?;
        Ok(Interpreter {
            command: self.command.clone(alloc)?,
            arguments,
        })
    }
}

/// Returns copies of texts.
fn copy_texts(alloc: Global, texts: &[String]) -> Result<Vec<String>, AllocError>
    ensures { IfOk result (λ copies. AllZip IsSameText copies.items texts.now) }
{
    let mut copies = Vec::new(alloc);
    for text in texts {
        copies.push(text.as_str().to_string(alloc)?)?;
    }
    Ok(copies)
}

/// Returns copies of expressions.
fn copy_expressions<'src>(
    alloc: Global,
    expressions: &[Expression<'src>],
) -> Result<Vec<Expression<'src>>, AllocError>
    ensures { IfOk result (λ copies. AllZip IsSameExpression copies.items expressions.now) }
{
    let mut copies = Vec::new(alloc);
    for expression in expressions {
        copies.push(expression.clone(alloc)?)?;
    }
    Ok(copies)
}
