//! What is always offered of attributes and their arguments.
use crate::offer::OfferKind;
use crate::tables::Entry;

/// The attributes.
pub(crate) static ATTRIBUTES: [Entry; 30] = [
    (
        OfferKind::Property,
        "android",
        "",
        "The item is there on Android only.",
    ),
    (
        OfferKind::Property,
        "arg",
        "('name', key, ..)",
        "A parameter's options on the command line, its help and its pattern.",
    ),
    (
        OfferKind::Property,
        "cache",
        "(key=value, ..)",
        "The recipe isn't run again while what it depends on stays the same.",
    ),
    (
        OfferKind::Property,
        "confirm",
        "(prompt?)",
        "Asks before the recipe is run.",
    ),
    (
        OfferKind::Property,
        "continue",
        "('signal', ..)",
        "The signals after which the recipe goes on.",
    ),
    (
        OfferKind::Property,
        "default",
        "",
        "The recipe that is run if none is named.",
    ),
    (
        OfferKind::Property,
        "doc",
        "(text?)",
        "The text that lists show of the item, or none.",
    ),
    (
        OfferKind::Property,
        "dragonfly",
        "",
        "The item is there on DragonFly BSD only.",
    ),
    (
        OfferKind::Property,
        "env",
        "(name, value)",
        "A variable in the environment of the recipe.",
    ),
    (
        OfferKind::Property,
        "exit-message",
        "",
        "A message is printed where the recipe fails.",
    ),
    (
        OfferKind::Property,
        "extension",
        "('.extension')",
        "The extension of the file that a script is written to.",
    ),
    (
        OfferKind::Property,
        "freebsd",
        "",
        "The item is there on FreeBSD only.",
    ),
    (
        OfferKind::Property,
        "group",
        "('name')",
        "The group that lists show the item in.",
    ),
    (
        OfferKind::Property,
        "linux",
        "",
        "The item is there on Linux only.",
    ),
    (
        OfferKind::Property,
        "macos",
        "",
        "The item is there on macOS only.",
    ),
    (
        OfferKind::Property,
        "metadata",
        "('text', ..)",
        "Texts that `just` itself doesn't use.",
    ),
    (
        OfferKind::Property,
        "netbsd",
        "",
        "The item is there on NetBSD only.",
    ),
    (
        OfferKind::Property,
        "no-cd",
        "",
        "The recipe runs in the folder in which `just` was called.",
    ),
    (
        OfferKind::Property,
        "no-exit-message",
        "",
        "No message is printed where the recipe fails.",
    ),
    (
        OfferKind::Property,
        "no-quiet",
        "",
        "Lines of the body are printed before they are run, in a quiet file, too.",
    ),
    (
        OfferKind::Property,
        "openbsd",
        "",
        "The item is there on OpenBSD only.",
    ),
    (
        OfferKind::Property,
        "parallel",
        "",
        "The recipes that it depends on run at the same time.",
    ),
    (
        OfferKind::Property,
        "positional-arguments",
        "",
        "Arguments are passed to commands as `$1`, `$2` and so on, too.",
    ),
    (
        OfferKind::Property,
        "private",
        "",
        "Lists don't show the item.",
    ),
    (
        OfferKind::Property,
        "script",
        "('command', ..)",
        "The body is run as one script.",
    ),
    (
        OfferKind::Property,
        "shell",
        "",
        "The lines of the body are run by the shell, in a file of scripts, too.",
    ),
    (
        OfferKind::Property,
        "timestamp",
        "(format?)",
        "The time is printed before each line that is run.",
    ),
    (
        OfferKind::Property,
        "unix",
        "",
        "The item is there on Unix only.",
    ),
    (
        OfferKind::Property,
        "windows",
        "",
        "The item is there on Windows only.",
    ),
    (
        OfferKind::Property,
        "working-directory",
        "(path)",
        "The folder in which the recipe runs.",
    ),
];

/// The keys of attributes whose value is an expression. That of any other is a string.
pub(crate) static EXPRESSION_KEYS: [&str; 6] = [
    "extra", "help", "inputs", "outputs", "pattern", "value",
];

/// The keys of the attribute `arg`.
pub(crate) static ARG_KEYS: [Entry; 9] = [
    (
        OfferKind::Property,
        "flag",
        "",
        "The option takes no value.",
    ),
    (
        OfferKind::Property,
        "help",
        "=text",
        "What the help shows of the parameter.",
    ),
    (
        OfferKind::Property,
        "long",
        "='name'",
        "The parameter is an option with two hyphens. Without a name it has the parameter's.",
    ),
    (
        OfferKind::Property,
        "max",
        "='number'",
        "How many values the parameter takes at most.",
    ),
    (
        OfferKind::Property,
        "min",
        "='number'",
        "How many values the parameter takes at least.",
    ),
    (
        OfferKind::Property,
        "multiple",
        "",
        "The option may be given several times.",
    ),
    (
        OfferKind::Property,
        "pattern",
        "=regex",
        "The regular expression that values must match.",
    ),
    (
        OfferKind::Property,
        "short",
        "='letter'",
        "The parameter is an option with one hyphen. Without a letter it has the first of the parameter's name.",
    ),
    (
        OfferKind::Property,
        "value",
        "=text",
        "The value that the option stands for if it is given.",
    ),
];

/// The keys of the attribute `cache`.
pub(crate) static CACHE_KEYS: [Entry; 3] = [
    (
        OfferKind::Property,
        "extra",
        "=value",
        "A further value that the recipe depends on.",
    ),
    (
        OfferKind::Property,
        "inputs",
        "=paths",
        "The files that the recipe reads.",
    ),
    (
        OfferKind::Property,
        "outputs",
        "=paths",
        "The files that the recipe makes.",
    ),
];

/// The signals that the attribute `continue` may name.
pub(crate) static SIGNALS: [Entry; 3] = [
    (
        OfferKind::Property,
        "'SIGHUP'",
        "",
        "The terminal was closed.",
    ),
    (
        OfferKind::Property,
        "'SIGINT'",
        "",
        "The run was interrupted by the keys Control and C.",
    ),
    (
        OfferKind::Property,
        "'SIGQUIT'",
        "",
        "The run was ended by the keys Control and \\.",
    ),
];
