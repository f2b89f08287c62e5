//! The keywords, and how they are spelled.
ghost use Rattle.std.specs.Prelude.{◌≡◌, ◌↔◌, IsTrue, MatchOption};

use std::fmt;

/// A word with a meaning of its own where the grammar expects it. Elsewhere it is a name.
#[derive(Clone, Copy, Debug, PartialEq, Eq)]
pub enum Keyword {
    Alias,
    AllowDuplicateRecipes,
    AllowDuplicateVariables,
    Assert,
    DefaultList,
    DefaultScript,
    DotenvCommand,
    DotenvFilename,
    DotenvLoad,
    DotenvOverride,
    DotenvPath,
    DotenvRequired,
    Eager,
    Else,
    Export,
    F,
    Fallback,
    False,
    Guards,
    If,
    IgnoreComments,
    Import,
    Indentation,
    Lazy,
    Lists,
    MinimumVersion,
    Mod,
    NoCd,
    NoExitMessage,
    PositionalArguments,
    Quiet,
    ScriptInterpreter,
    Set,
    Shell,
    Tempdir,
    True,
    Unexport,
    Unstable,
    WindowsPowershell,
    WindowsShell,
    WorkingDirectory,
    X,
}

/// The table that `from_lexeme` searches.
static KEYWORDS: [Keyword; 42] = Keyword::ALL;

impl Keyword {
    ghost use Rattle.justfile_vocabulary.specs.Keyword.{is_setting_name, keyword_text};

    /// All keywords, in declaration order.
    pub const ALL: [Keyword; 42] = [
        Keyword::Alias,
        Keyword::AllowDuplicateRecipes,
        Keyword::AllowDuplicateVariables,
        Keyword::Assert,
        Keyword::DefaultList,
        Keyword::DefaultScript,
        Keyword::DotenvCommand,
        Keyword::DotenvFilename,
        Keyword::DotenvLoad,
        Keyword::DotenvOverride,
        Keyword::DotenvPath,
        Keyword::DotenvRequired,
        Keyword::Eager,
        Keyword::Else,
        Keyword::Export,
        Keyword::F,
        Keyword::Fallback,
        Keyword::False,
        Keyword::Guards,
        Keyword::If,
        Keyword::IgnoreComments,
        Keyword::Import,
        Keyword::Indentation,
        Keyword::Lazy,
        Keyword::Lists,
        Keyword::MinimumVersion,
        Keyword::Mod,
        Keyword::NoCd,
        Keyword::NoExitMessage,
        Keyword::PositionalArguments,
        Keyword::Quiet,
        Keyword::ScriptInterpreter,
        Keyword::Set,
        Keyword::Shell,
        Keyword::Tempdir,
        Keyword::True,
        Keyword::Unexport,
        Keyword::Unstable,
        Keyword::WindowsPowershell,
        Keyword::WindowsShell,
        Keyword::WorkingDirectory,
        Keyword::X,
    ];

    /// Returns the keyword with this spelling.
    pub fn from_lexeme(lexeme: &str) -> Option<Self>
        ensures { MatchOption result ((k : Keyword) → ¬ (lexeme.now ≡ keyword_text k))
            (λ k. lexeme.now ≡ keyword_text k) }
    {
        KEYWORDS
            .iter()
            .copied()
            .find(|keyword| keyword.spells(lexeme))
    }

    /// Returns the spelling of the keyword.
    pub fn lexeme(self) -> &'static str
        ensures { result.now ≡ keyword_text self }
    {
        match self {
            Keyword::Alias => "alias",
            Keyword::AllowDuplicateRecipes => "allow-duplicate-recipes",
            Keyword::AllowDuplicateVariables => "allow-duplicate-variables",
            Keyword::Assert => "assert",
            Keyword::DefaultList => "default-list",
            Keyword::DefaultScript => "default-script",
            Keyword::DotenvCommand => "dotenv-command",
            Keyword::DotenvFilename => "dotenv-filename",
            Keyword::DotenvLoad => "dotenv-load",
            Keyword::DotenvOverride => "dotenv-override",
            Keyword::DotenvPath => "dotenv-path",
            Keyword::DotenvRequired => "dotenv-required",
            Keyword::Eager => "eager",
            Keyword::Else => "else",
            Keyword::Export => "export",
            Keyword::F => "f",
            Keyword::Fallback => "fallback",
            Keyword::False => "false",
            Keyword::Guards => "guards",
            Keyword::If => "if",
            Keyword::IgnoreComments => "ignore-comments",
            Keyword::Import => "import",
            Keyword::Indentation => "indentation",
            Keyword::Lazy => "lazy",
            Keyword::Lists => "lists",
            Keyword::MinimumVersion => "minimum-version",
            Keyword::Mod => "mod",
            Keyword::NoCd => "no-cd",
            Keyword::NoExitMessage => "no-exit-message",
            Keyword::PositionalArguments => "positional-arguments",
            Keyword::Quiet => "quiet",
            Keyword::ScriptInterpreter => "script-interpreter",
            Keyword::Set => "set",
            Keyword::Shell => "shell",
            Keyword::Tempdir => "tempdir",
            Keyword::True => "true",
            Keyword::Unexport => "unexport",
            Keyword::Unstable => "unstable",
            Keyword::WindowsPowershell => "windows-powershell",
            Keyword::WindowsShell => "windows-shell",
            Keyword::WorkingDirectory => "working-directory",
            Keyword::X => "x",
        }
    }

    /// Whether the keyword is the name of a setting: whether the parser takes it after `set`.
    pub fn is_setting(self) -> bool
        ensures { result ≡ is_setting_name self }
    {
        matches!(
            self,
            Keyword::AllowDuplicateRecipes
                | Keyword::AllowDuplicateVariables
                | Keyword::DefaultList
                | Keyword::DefaultScript
                | Keyword::DotenvCommand
                | Keyword::DotenvFilename
                | Keyword::DotenvLoad
                | Keyword::DotenvOverride
                | Keyword::DotenvPath
                | Keyword::DotenvRequired
                | Keyword::Export
                | Keyword::Fallback
                | Keyword::Guards
                | Keyword::IgnoreComments
                | Keyword::Indentation
                | Keyword::Lazy
                | Keyword::Lists
                | Keyword::MinimumVersion
                | Keyword::NoCd
                | Keyword::NoExitMessage
                | Keyword::PositionalArguments
                | Keyword::Quiet
                | Keyword::ScriptInterpreter
                | Keyword::Shell
                | Keyword::Tempdir
                | Keyword::Unstable
                | Keyword::WindowsPowershell
                | Keyword::WindowsShell
                | Keyword::WorkingDirectory
        )
    }

    /// Whether this is the spelling of the keyword.
    pub fn spells(self, lexeme: &str) -> bool
        ensures { IsTrue result ↔ (lexeme.now ≡ keyword_text self) }
    {
        self.lexeme() == lexeme
    }
}

/// Ignores width and alignment: the text is written as it is.
impl fmt::Display for Keyword {
    ghost use Rattle.std.specs.Prelude.{Some};
    ghost use Rattle.justfile_vocabulary.specs.Keyword.{keyword_text};

    ghost output = { λ keyword. Some (keyword_text keyword) };

    ghost styled_output = { λ keyword spec. Some (keyword_text keyword) };

    fn fmt<W: fmt::Write>(&self, f: &mut fmt::Formatter<W>) -> fmt::Result {
        f.write_str(self.lexeme())
    }
}
