//! The kinds of attributes, and their names.
ghost use Rattle.std.specs.Prelude.{◌≡◌};

/// The kind of an attribute. The order is the one in which attributes are printed.
#[derive(Clone, Copy, Debug, PartialEq, Eq, PartialOrd, Ord)]
pub enum AttributeKind {
    Android,
    Arg,
    Cache,
    Confirm,
    Continue,
    Default,
    Doc,
    Dragonfly,
    Env,
    ExitMessage,
    Extension,
    Freebsd,
    Group,
    Linux,
    Macos,
    Metadata,
    Netbsd,
    NoCd,
    NoExitMessage,
    NoQuiet,
    Openbsd,
    Parallel,
    PositionalArguments,
    Private,
    Script,
    Shell,
    Timestamp,
    Unix,
    Windows,
    WorkingDirectory,
}

/// The table that `from_name` searches.
static KINDS: [AttributeKind; 30] = AttributeKind::ALL;

impl AttributeKind {
    ghost use Rattle.justfile_vocabulary.specs.AttributeKind.{attribute_name, is_enabler_kind, kind_named, takes_keys};

    /// All kinds, in declaration order.
    pub const ALL: [AttributeKind; 30] = [
        AttributeKind::Android,
        AttributeKind::Arg,
        AttributeKind::Cache,
        AttributeKind::Confirm,
        AttributeKind::Continue,
        AttributeKind::Default,
        AttributeKind::Doc,
        AttributeKind::Dragonfly,
        AttributeKind::Env,
        AttributeKind::ExitMessage,
        AttributeKind::Extension,
        AttributeKind::Freebsd,
        AttributeKind::Group,
        AttributeKind::Linux,
        AttributeKind::Macos,
        AttributeKind::Metadata,
        AttributeKind::Netbsd,
        AttributeKind::NoCd,
        AttributeKind::NoExitMessage,
        AttributeKind::NoQuiet,
        AttributeKind::Openbsd,
        AttributeKind::Parallel,
        AttributeKind::PositionalArguments,
        AttributeKind::Private,
        AttributeKind::Script,
        AttributeKind::Shell,
        AttributeKind::Timestamp,
        AttributeKind::Unix,
        AttributeKind::Windows,
        AttributeKind::WorkingDirectory,
    ];

    /// Returns the kind with this name, or `None` if no kind has it. Compares lengths first: few
    /// kinds have names of one length.
    pub fn from_name(name: &str) -> Option<Self>
        ensures { result ≡ kind_named name.now }
    {
        KINDS.iter().copied().find(|kind| kind.name().len() == name.len() && kind.name() == name)
    }

    /// Returns the kind's name.
    pub fn name(self) -> &'static str
        ensures { result.now ≡ attribute_name self }
    {
        match self {
            AttributeKind::Android => "android",
            AttributeKind::Arg => "arg",
            AttributeKind::Cache => "cache",
            AttributeKind::Confirm => "confirm",
            AttributeKind::Continue => "continue",
            AttributeKind::Default => "default",
            AttributeKind::Doc => "doc",
            AttributeKind::Dragonfly => "dragonfly",
            AttributeKind::Env => "env",
            AttributeKind::ExitMessage => "exit-message",
            AttributeKind::Extension => "extension",
            AttributeKind::Freebsd => "freebsd",
            AttributeKind::Group => "group",
            AttributeKind::Linux => "linux",
            AttributeKind::Macos => "macos",
            AttributeKind::Metadata => "metadata",
            AttributeKind::Netbsd => "netbsd",
            AttributeKind::NoCd => "no-cd",
            AttributeKind::NoExitMessage => "no-exit-message",
            AttributeKind::NoQuiet => "no-quiet",
            AttributeKind::Openbsd => "openbsd",
            AttributeKind::Parallel => "parallel",
            AttributeKind::PositionalArguments => "positional-arguments",
            AttributeKind::Private => "private",
            AttributeKind::Script => "script",
            AttributeKind::Shell => "shell",
            AttributeKind::Timestamp => "timestamp",
            AttributeKind::Unix => "unix",
            AttributeKind::Windows => "windows",
            AttributeKind::WorkingDirectory => "working-directory",
        }
    }

    /// Whether attributes of this kind enable an item on some systems only.
    pub fn is_enabler(self) -> bool
        ensures { result ≡ is_enabler_kind self }
    {
        matches!(
            self,
            AttributeKind::Android
                | AttributeKind::Dragonfly
                | AttributeKind::Freebsd
                | AttributeKind::Linux
                | AttributeKind::Macos
                | AttributeKind::Netbsd
                | AttributeKind::Openbsd
                | AttributeKind::Unix
                | AttributeKind::Windows
        )
    }

    /// Whether attributes of this kind take arguments by key.
    pub fn accepts_keyword_arguments(self) -> bool
        ensures { result ≡ takes_keys self }
    {
        matches!(self, AttributeKind::Arg | AttributeKind::Cache)
    }
}
