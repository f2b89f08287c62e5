//! What is always offered, with what is shown of it: the words of the language, each with a short text.
ghost use Rattle.std.specs.Prelude.{◌≡◌, ◌++◌, filter, map, option_copied};
ghost use Rattle.std.specs.List.{find};
ghost use Rattle.std.specs.Str.{bytes_eq};
ghost use Rattle.justfile_builtins.specs.declared.constants.TheConstants as built_in_constants;
ghost use Rattle.justfile_builtins.specs.declared.functions.TheConstants as built_in_functions;
ghost use Rattle.justfile_vocabulary.specs.AttributeKind.{attribute_kinds, attribute_name};
ghost use Rattle.justfile_vocabulary.specs.Keyword.{is_setting_name, keyword_text, keywords};
ghost use Rattle.justfile_completion.specs.Offers.{told_by};
ghost use Rattle.justfile_completion.specs.Tables.{built_in, shown_in, shown_parameters, table_of};

pub(crate) mod attributes;
pub(crate) mod constants;
pub(crate) mod functions;
pub(crate) mod settings;

use crate::offer::OfferKind;
use crate::place::Place;
use crate::tables::attributes::{ARG_KEYS, ATTRIBUTES, CACHE_KEYS, SIGNALS};
use crate::tables::constants::CONSTANTS;
use crate::tables::functions::{FUNCTIONS_TO_D, FUNCTIONS_TO_J, FUNCTIONS_TO_R, FUNCTIONS_TO_Z};
use crate::tables::settings::{SETTINGS, TRUTHS};

/// A word of the language: what it stands for, the word, what is shown beside it, and what it is for.
pub(crate) type Entry = (OfferKind, &'static str, &'static str, &'static str);

/// The keywords that items begin with.
pub(crate) static ITEM_KEYWORDS: [Entry; 7] = [
    (
        OfferKind::Keyword,
        "alias",
        "name := recipe",
        "Another name for a recipe.",
    ),
    (
        OfferKind::Keyword,
        "eager",
        "name := value",
        "A variable that is evaluated though nothing uses it.",
    ),
    (
        OfferKind::Keyword,
        "export",
        "name := value",
        "A variable that is passed on to the environment of commands.",
    ),
    (
        OfferKind::Keyword,
        "import",
        "'path'",
        "The items of another file.",
    ),
    (
        OfferKind::Keyword,
        "mod",
        "name 'path'?",
        "A module: the recipes of another file, under a name.",
    ),
    (OfferKind::Keyword, "set", "name := value", "A setting."),
    (
        OfferKind::Keyword,
        "unexport",
        "name",
        "A variable that is taken out of the environment of commands.",
    ),
];

/// The keywords that operands begin with.
pub(crate) static OPERAND_KEYWORDS: [Entry; 2] = [
    (
        OfferKind::Keyword,
        "assert",
        "(condition, message?)",
        "Ends the run with the message unless the condition holds.",
    ),
    (
        OfferKind::Keyword,
        "if",
        "condition { .. } else { .. }",
        "One value or another one, by a condition.",
    ),
];

/// The keyword of the other branch of a conditional.
pub(crate) static ELSE: [Entry; 1] = [(
    OfferKind::Keyword,
    "else",
    "{ .. }",
    "The value if the condition doesn't hold.",
)];

/// The keyword of a further condition.
pub(crate) static IF: [Entry; 1] = [(
    OfferKind::Keyword,
    "if",
    "condition { .. } else { .. }",
    "A further condition.",
)];

/// Returns what is always offered at a place.
#[tactic(auto, unfolding(crate::specs::Tables::table_of))]
pub(crate) fn table_of(place: Place) -> &'static [Entry]
    ensures { map (λ w. told_by w.0 w.1.now w.2.now w.3.now) result.now ≡ table_of place }
{
    match place {
        Place::LineStart => &ITEM_KEYWORDS,
        Place::Settings => &SETTINGS,
        Place::Truth => &TRUTHS,
        Place::Attributes => &ATTRIBUTES,
        Place::ArgKeys => &ARG_KEYS,
        Place::CacheKeys => &CACHE_KEYS,
        Place::Signals => &SIGNALS,
        Place::Else => &ELSE,
        Place::If => &IF,
        _ => &[],
    }
}

/// A part of what operands begin with.
#[derive(Clone, Copy, Debug, PartialEq, Eq)]
pub(crate) enum BuiltIns {
    /// The constants.
    Constants,
    /// The functions with names from `a` to `d`.
    FunctionsToD,
    /// The functions with names from `e` to `j`.
    FunctionsToJ,
    /// The functions with names from `k` to `r`.
    FunctionsToR,
    /// The functions with names from `s` to `z`.
    FunctionsToZ,
    /// The keywords.
    Keywords,
}

/// Returns a part of what operands begin with.
#[tactic(auto, unfolding(crate::specs::Tables::built_in))]
pub(crate) fn built_in(part: BuiltIns) -> &'static [Entry]
    ensures { map (λ w. told_by w.0 w.1.now w.2.now w.3.now) result.now ≡ built_in part }
{
    match part {
        BuiltIns::Constants => &CONSTANTS,
        BuiltIns::FunctionsToD => &FUNCTIONS_TO_D,
        BuiltIns::FunctionsToJ => &FUNCTIONS_TO_J,
        BuiltIns::FunctionsToR => &FUNCTIONS_TO_R,
        BuiltIns::FunctionsToZ => &FUNCTIONS_TO_Z,
        BuiltIns::Keywords => &OPERAND_KEYWORDS,
    }
}

/// Returns what is shown beside the name of a function in a part of what is built in, if it is there.
#[tactic(auto, using(crate::proofs::Shown::shown_beside, crate::proofs::Shown::not_shown))]
fn shown_in(part: BuiltIns, name: &str) -> Option<&'static str>
    ensures { option_copied result ≡ shown_in name.now part }
{
    match entry_named(built_in(part), name) {
        Some(entry) => Some(entry.2),
        None => None,
    }
}

/// Returns the first word that is this one.
fn entry_named(entries: &'static [Entry], name: &str) -> Option<&'static Entry>
    ensures { option_copied result ≡ find (λ e. bytes_eq e.1.now name.now) entries.now }
{
    entries.iter().find(|entry| entry.1 == name)
}

/// Returns the parameters of the built-in function with a name, in parentheses, if there is one.
pub fn parameters_shown(name: &str) -> Option<&'static str>
    ensures { option_copied result ≡ shown_parameters name.now }
{
    let first = shown_in(BuiltIns::FunctionsToD, name);
    let second = shown_in(BuiltIns::FunctionsToJ, name);
    let third = shown_in(BuiltIns::FunctionsToR, name);
    let last = shown_in(BuiltIns::FunctionsToZ, name);
    first.or(second).or(third).or(last)
}

/// The settings that are offered are all settings, in their order.
pub fn offered_settings()
    ensures { map (λ w. w.1.now) SETTINGS ≡ map keyword_text (filter is_setting_name keywords) }
{}

/// The attributes that are offered are all attributes, in their order.
pub fn offered_attributes()
    ensures { map (λ w. w.1.now) ATTRIBUTES ≡ map attribute_name attribute_kinds }
{}

/// The constants that are offered are all built-in constants, in their order.
pub fn offered_constants()
    ensures { map (λ w. w.1.now) CONSTANTS
        ≡ map (λ name. name.now) built_in_constants.CONSTANTS }
{}

/// The functions that are offered are all built-in functions, in their order.
pub fn offered_functions()
    ensures { map (λ w. w.1.now) FUNCTIONS_TO_D ++ map (λ w. w.1.now) FUNCTIONS_TO_J
        ++ map (λ w. w.1.now) FUNCTIONS_TO_R ++ map (λ w. w.1.now) FUNCTIONS_TO_Z
        ≡ map (λ f. f.0.now) built_in_functions.FUNCTIONS }
{}
