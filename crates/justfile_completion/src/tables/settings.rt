//! What is always offered of settings.
use crate::offer::OfferKind;
use crate::tables::Entry;

/// The settings.
pub(crate) static SETTINGS: [Entry; 29] = [
    (
        OfferKind::Property,
        "allow-duplicate-recipes",
        "true or false",
        "A recipe may be defined again: the last definition holds.",
    ),
    (
        OfferKind::Property,
        "allow-duplicate-variables",
        "true or false",
        "A variable may be assigned again: the last value holds.",
    ),
    (
        OfferKind::Property,
        "default-list",
        "true or false",
        "Without a recipe's name, `just` lists the recipes.",
    ),
    (
        OfferKind::Property,
        "default-script",
        "true or false",
        "Each recipe is run as a script, as with the attribute `script`.",
    ),
    (
        OfferKind::Property,
        "dotenv-command",
        "expression",
        "A command that prints variables for the environment.",
    ),
    (
        OfferKind::Property,
        "dotenv-filename",
        "expression",
        "The name of the file with variables for the environment.",
    ),
    (
        OfferKind::Property,
        "dotenv-load",
        "true or false",
        "Loads a file `.env` with variables for the environment, if there is one.",
    ),
    (
        OfferKind::Property,
        "dotenv-override",
        "true or false",
        "Variables of the file replace those of the environment.",
    ),
    (
        OfferKind::Property,
        "dotenv-path",
        "expression",
        "The path of the file with variables for the environment.",
    ),
    (
        OfferKind::Property,
        "dotenv-required",
        "true or false",
        "The file with variables for the environment must exist.",
    ),
    (
        OfferKind::Property,
        "export",
        "true or false",
        "All variables are passed on to the environment of commands.",
    ),
    (
        OfferKind::Property,
        "fallback",
        "true or false",
        "A recipe that isn't here is looked for in the justfile of a folder above.",
    ),
    (
        OfferKind::Property,
        "guards",
        "true or false",
        "A line that begins with `?` ends its recipe without an error if its command fails.",
    ),
    (
        OfferKind::Property,
        "ignore-comments",
        "true or false",
        "Lines of bodies that begin with `#` are comments, and aren't run.",
    ),
    (
        OfferKind::Property,
        "indentation",
        "string",
        "How lines of bodies are indented when the file is formatted: spaces, or tabs.",
    ),
    (
        OfferKind::Property,
        "lazy",
        "true or false",
        "Variables that aren't used aren't evaluated.",
    ),
    (
        OfferKind::Property,
        "lists",
        "true or false",
        "Values may be lists of texts.",
    ),
    (
        OfferKind::Property,
        "minimum-version",
        "string",
        "The version of `just` that the file needs at least.",
    ),
    (
        OfferKind::Property,
        "no-cd",
        "true or false",
        "Recipes run in the folder in which `just` was called.",
    ),
    (
        OfferKind::Property,
        "no-exit-message",
        "true or false",
        "No message is printed where a recipe fails.",
    ),
    (
        OfferKind::Property,
        "positional-arguments",
        "true or false",
        "Arguments are passed to commands as `$1`, `$2` and so on, too.",
    ),
    (
        OfferKind::Property,
        "quiet",
        "true or false",
        "Lines of bodies aren't printed before they are run.",
    ),
    (
        OfferKind::Property,
        "script-interpreter",
        "[command, argument, ..]",
        "The command that runs scripts.",
    ),
    (
        OfferKind::Property,
        "shell",
        "[command, argument, ..]",
        "The command that runs lines of bodies and commands in backticks.",
    ),
    (
        OfferKind::Property,
        "tempdir",
        "expression",
        "The folder for temporary files.",
    ),
    (
        OfferKind::Property,
        "unstable",
        "true or false",
        "Features that may still change are allowed.",
    ),
    (
        OfferKind::Property,
        "windows-powershell",
        "true or false",
        "On Windows lines of bodies are run by PowerShell. Instead there is `windows-shell`.",
    ),
    (
        OfferKind::Property,
        "windows-shell",
        "[command, argument, ..]",
        "On Windows the command that runs lines of bodies and commands in backticks.",
    ),
    (
        OfferKind::Property,
        "working-directory",
        "expression",
        "The folder in which recipes run.",
    ),
];

/// The values of settings that are true or false.
pub(crate) static TRUTHS: [Entry; 2] = [
    (OfferKind::Keyword, "false", "", "It isn't so."),
    (OfferKind::Keyword, "true", "", "It is so."),
];

/// The settings that are true or false.
pub(crate) static SWITCHES: [&str; 19] = [
    "allow-duplicate-recipes",
    "allow-duplicate-variables",
    "default-list",
    "default-script",
    "dotenv-load",
    "dotenv-override",
    "dotenv-required",
    "export",
    "fallback",
    "guards",
    "ignore-comments",
    "lazy",
    "lists",
    "no-cd",
    "no-exit-message",
    "positional-arguments",
    "quiet",
    "unstable",
    "windows-powershell",
];

/// The settings whose value is an expression.
pub(crate) static EXPRESSION_SETTINGS: [&str; 5] = [
    "dotenv-command",
    "dotenv-filename",
    "dotenv-path",
    "tempdir",
    "working-directory",
];
