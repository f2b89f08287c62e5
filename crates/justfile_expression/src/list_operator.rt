//! The operators that join lists.
ghost use Rattle.std.specs.Prelude.{◌≡◌};
ghost use Rattle.justfile_expression.specs.ListOperator.{list_operator_separator, list_operator_sign};

use std::fmt;

/// An operator that joins the elements of a list to one text.
#[derive(Clone, Copy, Debug, PartialEq, Eq)]
pub enum ListOperator {
    /// `+`: joins the elements without a separator.
    Concatenate,
    /// `/`: joins the elements with a slash between them.
    Join,
}

impl ListOperator {
    /// Returns the text between two joined elements.
    pub fn separator(self) -> &'static str
        ensures { result.now ≡ list_operator_separator self }
    {
        match self {
            ListOperator::Concatenate => "",
            ListOperator::Join => "/",
        }
    }

    /// Returns the operator as it is written.
    fn sign(self) -> &'static str
        ensures { result.now ≡ list_operator_sign self }
    {
        match self {
            ListOperator::Concatenate => "+",
            ListOperator::Join => "/",
        }
    }
}

/// Writes the operator. Width and alignment are ignored.
impl fmt::Display for ListOperator {
    ghost use Rattle.std.specs.Prelude.{Some};

    ghost output = { λ operator. Some (list_operator_sign operator) };

    ghost styled_output = { λ operator spec. Some (list_operator_sign operator) };

    fn fmt<W: fmt::Write>(&self, f: &mut fmt::Formatter<W>) -> fmt::Result {
        f.write_str(self.sign())
    }
}
