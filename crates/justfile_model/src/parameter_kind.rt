//! The kinds of parameters.
ghost use Rattle.std.specs.Prelude.{◌≡◌};
ghost use Rattle.std.specs.Option.{option_copied};
ghost use Rattle.justfile_model.specs.Trees.ParameterKind.{kind_prefix};
ghost use Rattle.justfile_model.specs.Meanings.RecipeRules.{is_variadic};

/// The number of arguments that a parameter takes.
#[derive(Clone, Copy, Debug, PartialEq, Eq)]
pub enum ParameterKind {
    /// `+name`: one or more.
    Plus,
    /// `name`: one.
    Singular,
    /// `*name`: any number.
    Star,
}

impl ParameterKind {
    /// Returns the prefix of the parameter, if it has one.
    pub fn prefix(self) -> Option<&'static str>
        ensures { option_copied result ≡ kind_prefix self }
    {
        match self {
            ParameterKind::Plus => Some("+"),
            ParameterKind::Singular => None,
            ParameterKind::Star => Some("*"),
        }
    }

    /// Whether the parameter is variadic.
    pub fn is_variadic(self) -> bool
        ensures { result ≡ is_variadic self }
    {
        match self {
            ParameterKind::Plus | ParameterKind::Star => true,
            ParameterKind::Singular => false,
        }
    }
}
