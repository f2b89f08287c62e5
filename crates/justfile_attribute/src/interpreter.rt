//! Interpreters of scripts, and how they are displayed.
ghost use Rattle.std.specs.Prelude.{Some, codes};
ghost use Rattle.std.specs.Fmt.{DisplaysOnOk, ◌++?◌};

use std::fmt;

/// A command that runs scripts, with its arguments.
#[derive(Debug, Drop, PartialEq, Eq, PartialOrd, Ord)]
pub struct Interpreter<T> {
    /// The program.
    pub command: T,
    /// The arguments before the script.
    pub arguments: Vec<T>,
}

impl<T: fmt::Display> fmt::Display for Interpreter<T> {
    ghost use Rattle.justfile_attribute.specs.Interpreter.{interpreter_output};

    ghost output = { λ interpreter. interpreter_output T.output interpreter };

    fn fmt<W: fmt::Write>(&self, f: &mut fmt::Formatter<W>) -> fmt::Result {
        write!(f, "{}", self.command)?;
        for argument in &self.arguments {
            write_later(argument, f)?;
        }
        Ok(())
    }
}

/// Writes an argument with a comma and a space before it.
fn write_later<T: fmt::Display, W: fmt::Write>(
    argument: &T,
    f: &mut fmt::Formatter<W>,
) -> fmt::Result
    ensures { DisplaysOnOk W.write_str_gives f.old result (Some (codes ", ")
        ++? T.output argument.now) f.new }
{
    write!(f, ", {argument}")
}
