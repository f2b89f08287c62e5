//! The words that rows begin with.

use crate::displayed::{
    alternatives, constants, count, delimiters, faults, interpolations, item_kinds, list_features,
    marks, operators, padded, unpadded, version_order,
};
use crate::format_parts::format_parts;
use crate::lexing::{lex, push_token_count};
use crate::messages::{argument_counts, circle, error, unexpanded, unknown, untrue};
use crate::names::{attribute_kind, signal, switch};
use crate::paths::{modulepath, namepath};
use crate::texts::{class, cooks, identifier, indentation, keyword, opens, unindents, version};
use row_notation::{Answer, RowWord, field_at, is_number};

/// What a row does.
#[derive(Clone, Copy, PartialEq, Eq)]
pub(crate) enum Word {
    /// Characters: these as alternatives, without and with backticks.
    Alternatives,
    /// The number that is found, the least, and the most or `any`: the message of a wrong number of
    /// arguments.
    ArgumentCounts,
    /// Text: the kind of attributes with this name: as a value, its name, `enabler` if it limits an
    /// item to a system, `keys` if it takes arguments by key; or `none`.
    AttributeKind,
    /// T: where the text is cut at its items: the offsets from which and up to which each chunk is.
    Chunks,
    /// Names: the message of a circle of recipes with these names.
    Circle,
    /// Byte, a number: the byte's class.
    Class,
    /// Numbers of constants.
    Constants,
    /// Text: the text with its escapes replaced; or the error, at a token with offset 5 and length
    /// 2.
    Cooks,
    /// Number: this number of dogs and of feet, and the noun alone.
    Count,
    /// What each displays, and what it belongs to.
    Delimiters,
    /// One of the words in `messages.rt`: the message of this error (`unequal` or `equal` if it
    /// compares wrongly).
    Error,
    /// `first` or `last`, text: the excerpt of this token, or of the error's.
    Excerpt,
    /// Faults of failed allocations.
    Faults,
    /// The texts of format strings with four braces.
    FormatParts,
    /// The first number, and the one after the last: of the characters with these numbers those
    /// that an identifier may begin with, and those that it may continue with.
    Identifier,
    /// Text: the indentation as it is written, or why it isn't one.
    Indentation,
    /// What each displays, and what it belongs to.
    Interpolations,
    /// What each displays, and what it belongs to.
    ItemKinds,
    /// Text: the name of the keyword, and how it is written; or `none`.
    Keyword,
    /// T: the delimiter of the literal that is the first token, and `tripled` or `single`; else the
    /// error.
    KindOf,
    /// T: the kinds of the tokens as messages name them.
    Kinds,
    /// T: each token: its kind, with its lexeme in ‹› unless it is the usual one of its kind; of a
    /// rejected text the kind of the error, and the kind, offset, line, column and length of its
    /// token.
    Lexes,
    /// What each displays, and what it belongs to.
    ListFeatures,
    /// Mark, part: how a literal with them is displayed.
    Marks,
    /// Names: the path, and its parts (`apart`, `unjoined`, `lost`, `changed`).
    Modulepath,
    /// Names: the path, and its parts (`apart`, `unjoined`, `lost`, `changed`).
    Namepath,
    /// Text: of the literal that a text begins with: its delimiter, `tripled` or `single`, the
    /// delimiter's text, the kind of its token, the error if it does not end, and `escapes` if it
    /// has some; or `none`.
    Opens,
    /// What each displays, and what it belongs to.
    Operators,
    /// Padding, text: each name with the padding (`unfound` by its key).
    Padded,
    /// Text: the signal with this name, as a value, and how it is written; or `none`.
    Signal,
    /// T: the kinds of the tokens that the parser sees, with `glued` after one that directly
    /// follows another.
    Significant,
    /// `long` or `short`, name: how the option is written on a command line; of a `short` one the
    /// first character of the name counts.
    Switch,
    /// T: `tokens: ` and their number, or `rejected at offset ` and the offset of the error's
    /// token.
    TokenCount,
    /// Reason: the message of a text that can't be expanded for it.
    Unexpanded,
    /// Text: the text without the blanks that its lines share.
    Unindents,
    /// Names: the message of a dependency on a recipe with this path that isn't known.
    Unknown,
    /// Kinds of tokens, which ignore a padding.
    Unpadded,
    /// Text: the message of a word in place of `true` or `false`.
    Untrue,
    /// Text: the version as it is written, and its three numbers; or why it isn't one.
    Version,
    /// Two versions: `<`, `=` or `>`.
    VersionOrder,
}

/// The words, each with the least number of fields of its rows.
static WORDS: &[(&str, Word, usize)] = &[
    ("alternatives", Word::Alternatives, 1),
    ("argument_counts", Word::ArgumentCounts, 3),
    ("attribute_kind", Word::AttributeKind, 1),
    ("chunks", Word::Chunks, 1),
    ("circle", Word::Circle, 1),
    ("class", Word::Class, 1),
    ("constants", Word::Constants, 0),
    ("cooks", Word::Cooks, 1),
    ("count", Word::Count, 1),
    ("delimiters", Word::Delimiters, 0),
    ("error", Word::Error, 1),
    ("excerpt", Word::Excerpt, 2),
    ("faults", Word::Faults, 0),
    ("format_parts", Word::FormatParts, 0),
    ("identifier", Word::Identifier, 2),
    ("indentation", Word::Indentation, 1),
    ("interpolations", Word::Interpolations, 0),
    ("item_kinds", Word::ItemKinds, 0),
    ("keyword", Word::Keyword, 1),
    ("kind_of", Word::KindOf, 1),
    ("kinds", Word::Kinds, 1),
    ("lexes", Word::Lexes, 1),
    ("list_features", Word::ListFeatures, 0),
    ("marks", Word::Marks, 2),
    ("modulepath", Word::Modulepath, 1),
    ("namepath", Word::Namepath, 1),
    ("opens", Word::Opens, 1),
    ("operators", Word::Operators, 0),
    ("padded", Word::Padded, 2),
    ("signal", Word::Signal, 1),
    ("significant", Word::Significant, 1),
    ("switch", Word::Switch, 2),
    ("token_count", Word::TokenCount, 1),
    ("unexpanded", Word::Unexpanded, 1),
    ("unindents", Word::Unindents, 1),
    ("unknown", Word::Unknown, 1),
    ("unpadded", Word::Unpadded, 0),
    ("untrue", Word::Untrue, 1),
    ("version", Word::Version, 1),
    ("version_order", Word::VersionOrder, 2),
];

impl RowWord for Word {
    fn of(written: &str) -> Option<(Word, usize)> {
        let (_, word, least) = WORDS.iter().find(|row| row.0 == written)?;
        Some((*word, *least))
    }

    fn are_readable(self, fields: &[String]) -> bool {
        let first = field_at(fields, 0);
        match self {
            Word::Class => first.parse::<u8>().is_ok(),
            Word::ArgumentCounts | Word::Identifier => {
                is_number(fields, 0) && is_number(fields, 1)
            }
            Word::Count => is_number(fields, 0),
            Word::Excerpt => matches!(first, "first" | "last"),
            Word::Marks => matches!(first, "expanded" | "plain"),
            Word::Switch => matches!(first, "long" | "short"),
            _ => true,
        }
    }

    fn is_expected(self, least: usize, place: usize) -> bool {
        place >= least
    }

    fn push_found(self, answer: &mut Answer, fields: &[String]) {
        let text = field_at(fields, 0);
        match self {
            Word::Alternatives => alternatives(answer, text),
            Word::ArgumentCounts => argument_counts(answer, fields),
            Word::AttributeKind => attribute_kind(answer, text),
            Word::Chunks
            | Word::Excerpt
            | Word::KindOf
            | Word::Kinds
            | Word::Lexes
            | Word::Significant => lex(answer, self, fields),
            Word::Circle => circle(answer, text),
            Word::Class => class(answer, text),
            Word::Constants => constants(answer),
            Word::Cooks => cooks(answer, text),
            Word::Count => count(answer, fields),
            Word::Delimiters => delimiters(answer),
            Word::Error => error(answer, text),
            Word::Faults => faults(answer),
            Word::FormatParts => format_parts(answer),
            Word::Identifier => identifier(answer, fields),
            Word::Indentation => indentation(answer, text),
            Word::Interpolations => interpolations(answer),
            Word::ItemKinds => item_kinds(answer),
            Word::Keyword => keyword(answer, text),
            Word::ListFeatures => list_features(answer),
            Word::Marks => marks(answer, fields),
            Word::Modulepath => modulepath(answer, text),
            Word::Namepath => namepath(answer, text),
            Word::Opens => opens(answer, text),
            Word::Operators => operators(answer),
            Word::Padded => padded(answer, fields),
            Word::Signal => signal(answer, text),
            Word::Switch => switch(answer, fields),
            Word::TokenCount => push_token_count(answer, text),
            Word::Unexpanded => unexpanded(answer, text),
            Word::Unindents => unindents(answer, text),
            Word::Unknown => unknown(answer, text),
            Word::Unpadded => unpadded(answer),
            Word::Untrue => untrue(answer, text),
            Word::Version => version(answer, text),
            Word::VersionOrder => version_order(answer, fields),
        }
    }
}
