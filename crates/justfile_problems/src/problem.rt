//! Problems: what is wrong, and where.
use justfile_builtins::functions::Arguments;
use justfile_token::{Name, Token};
use justfile_vocabulary::{AttributeKind, ItemKind, Keyword, ListFeature};

/// What is wrong with a name, or with another token.
#[derive(Clone, Copy)]
pub enum What<'src> {
    /// A dependency has a wrong number of arguments.
    DependencyCount {
        dependency: Name<'src>,
        found: usize,
        takes: Arguments,
    },
    /// An earlier recipe has the attribute `default`, too.
    DuplicateDefault {
        first: Name<'src>,
    },
    /// An earlier parameter of the function has the name.
    DuplicateFunctionParameter {
        function: Name<'src>,
        first: Name<'src>,
    },
    /// An earlier parameter of the recipe has the name.
    DuplicateParameter {
        recipe: Name<'src>,
        first: Name<'src>,
    },
    /// The setting is set before.
    DuplicateSet {
        first: Name<'src>,
    },
    /// The variable is unexported before.
    DuplicateUnexport {
        first: Name<'src>,
    },
    /// An earlier assignment has the name.
    DuplicateVariable {
        first: Name<'src>,
    },
    /// The variable that is exported here is unexported.
    ExportUnexported {
        first: Name<'src>,
    },
    /// A line of a body begins with blanks behind the indentation.
    ExtraLeadingWhitespace,
    /// A function is called with a wrong number of arguments.
    FunctionCount {
        found: usize,
        takes: Arguments,
    },
    /// A line of a body has the sigils `?` and `-`.
    GuardAndInfallibleSigil,
    /// An earlier setting excludes this one.
    IncompatibleSettings {
        own: Keyword,
        other: Keyword,
        first: Name<'src>,
    },
    /// A recipe that isn't run as a script has an attribute for scripts.
    InvalidShellRecipeAttribute {
        attribute: AttributeKind,
    },
    /// What needs the setting `lists` stands in a file without it.
    ListFeature(ListFeature),
    /// A dependency is starred in a file without the setting `lists`.
    MappedDependency,
    /// An earlier item has the name.
    Redefinition {
        kind: ItemKind,
        first_kind: ItemKind,
        first: Name<'src>,
    },
    /// A required parameter follows one with a default.
    RequiredParameter {
        first: Name<'src>,
    },
    /// There is no such function.
    UndefinedFunction,
    /// There is no such variable.
    UndefinedVariable,
    /// The target of an alias isn't a recipe.
    UnknownAliasTarget {
        target: Name<'src>,
    },
    /// A recipe depends on what isn't a recipe.
    UnknownDependency {
        item: Name<'src>,
        unknown: Name<'src>,
    },
}

/// What is wrong, and where.
#[derive(Clone, Copy)]
pub struct Problem<'src> {
    /// The token at which the error is.
    pub token: Token<'src>,
    /// What is wrong with it.
    pub what: What<'src>,
}
