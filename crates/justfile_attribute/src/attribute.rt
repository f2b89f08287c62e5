//! The type of attributes, and their kinds.

use crate::interpreter::Interpreter;
use justfile_expression::Expression;
use justfile_token::{Name, StringLiteral, Token};
use justfile_vocabulary::{AttributeKind, Signal};
use std::collections::BTreeSet;

/// An attribute of a construct, written in brackets before it, as in `docs/LANGUAGE.md`.
#[derive(Drop, PartialEq, Eq)]
pub enum Attribute<'src> {
    Android,
    /// What an `arg` attribute sets for a parameter of a recipe.
    Arg {
        /// The key `flag`: the option takes no value.
        flag: Option<Token<'src>>,
        /// The evaluated help text. The parser leaves it `None`.
        help: Option<String>,
        /// The key `help` and its value.
        help_property: Option<(Name<'src>, Box<Expression<'src>>)>,
        /// The name of the long option.
        long: Option<StringLiteral<'src>>,
        /// The key `long` if it has no value, so that the option has the parameter's name.
        long_key: Option<Name<'src>>,
        /// The most arguments that the parameter takes.
        max: Option<u64>,
        /// The key `max`, if it is given.
        max_key: Option<Name<'src>>,
        /// The fewest arguments that the parameter takes.
        min: Option<u64>,
        /// The key `min`, if it is given.
        min_key: Option<Name<'src>>,
        /// The key `multiple`: the option may be given more than once.
        multiple: Option<Token<'src>>,
        /// The parameter's name.
        name: StringLiteral<'src>,
        /// The key `pattern` and its value.
        pattern_property: Option<(Name<'src>, Box<Expression<'src>>)>,
        /// The name of the short option.
        short: Option<StringLiteral<'src>>,
        /// The key `short` if it has no value, so that the option has the parameter's name.
        short_key: Option<Name<'src>>,
        /// The parameter's value if the option is given without one.
        value: Option<Box<Expression<'src>>>,
    },
    Cache {
        extra: Option<Box<Expression<'src>>>,
        inputs: Option<Box<Expression<'src>>>,
        outputs: Option<Box<Expression<'src>>>,
    },
    Confirm(Option<Box<Expression<'src>>>),
    Continue(BTreeSet<Signal>),
    Default,
    Doc(Option<Box<Expression<'src>>>),
    Dragonfly,
    /// The name of an environment variable and its value.
    Env(Box<Expression<'src>>, Box<Expression<'src>>),
    ExitMessage,
    Extension(StringLiteral<'src>),
    Freebsd,
    Group(StringLiteral<'src>),
    Linux,
    Macos,
    Metadata(Vec<StringLiteral<'src>>),
    Netbsd,
    NoCd,
    NoExitMessage,
    NoQuiet,
    Openbsd,
    Parallel,
    PositionalArguments,
    Private,
    Script(Option<Interpreter<StringLiteral<'src>>>),
    Shell,
    Timestamp(Option<Box<Expression<'src>>>),
    Unix,
    Windows,
    WorkingDirectory(Box<Expression<'src>>),
}

impl<'src> Attribute<'src> {
    ghost use Rattle.std.specs.Prelude.{◌≡◌};
    ghost use Rattle.justfile_vocabulary.specs.AttributeKind.{attribute_name};
    ghost use Rattle.justfile_model.specs.Meanings.AttributeKinds.{is_repeatable};
    ghost use Rattle.justfile_model.specs.Trees.ContentKeys.{kind_of_attribute};
    ghost use Rattle.justfile_attribute.specs.Attribute.{attribute_of};

    /// Returns the name of the attribute's kind.
    pub fn name(&self) -> &'static str
        ensures { result.now ≡ attribute_name (kind_of_attribute (attribute_of self.now)) }
    {
        self.kind().name()
    }

    /// Whether an item may have several attributes of this kind.
    pub fn repeatable(&self) -> bool
        ensures { result ≡ is_repeatable (kind_of_attribute (attribute_of self.now)) }
    {
        matches!(
            self.kind(),
            AttributeKind::Arg | AttributeKind::Env | AttributeKind::Group | AttributeKind::Metadata
        )
    }

    /// Returns the kind of the attribute.
    pub fn kind(&self) -> AttributeKind
        ensures { result ≡ kind_of_attribute (attribute_of self.now) }
    {
        match self {
            Attribute::Android => AttributeKind::Android,
            Attribute::Arg { .. } => AttributeKind::Arg,
            Attribute::Cache { .. } => AttributeKind::Cache,
            Attribute::Confirm(_) => AttributeKind::Confirm,
            Attribute::Continue(_) => AttributeKind::Continue,
            Attribute::Default => AttributeKind::Default,
            Attribute::Doc(_) => AttributeKind::Doc,
            Attribute::Dragonfly => AttributeKind::Dragonfly,
            Attribute::Env(_, _) => AttributeKind::Env,
            Attribute::ExitMessage => AttributeKind::ExitMessage,
            Attribute::Extension(_) => AttributeKind::Extension,
            Attribute::Freebsd => AttributeKind::Freebsd,
            Attribute::Group(_) => AttributeKind::Group,
            Attribute::Linux => AttributeKind::Linux,
            Attribute::Macos => AttributeKind::Macos,
            Attribute::Metadata(_) => AttributeKind::Metadata,
            Attribute::Netbsd => AttributeKind::Netbsd,
            Attribute::NoCd => AttributeKind::NoCd,
            Attribute::NoExitMessage => AttributeKind::NoExitMessage,
            Attribute::NoQuiet => AttributeKind::NoQuiet,
            Attribute::Openbsd => AttributeKind::Openbsd,
            Attribute::Parallel => AttributeKind::Parallel,
            Attribute::PositionalArguments => AttributeKind::PositionalArguments,
            Attribute::Private => AttributeKind::Private,
            Attribute::Script(_) => AttributeKind::Script,
            Attribute::Shell => AttributeKind::Shell,
            Attribute::Timestamp(_) => AttributeKind::Timestamp,
            Attribute::Unix => AttributeKind::Unix,
            Attribute::Windows => AttributeKind::Windows,
            Attribute::WorkingDirectory(_) => AttributeKind::WorkingDirectory,
        }
    }
}
