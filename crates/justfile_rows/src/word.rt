//! The words that rows begin with.

use crate::callers::{fault_lines, formats_at, in_parts, item_count, variables};
use crate::calls::{in_module, roots};
use crate::fields::are_readable;
use crate::files::push_fields;
use crate::lints::lints;
use crate::program::{breaks_each, formats, runs};
use crate::scarce::scarcely;
use crate::surveys::surveys;
use crate::symbols::push_symbols_of;
use row_items::interpreters::{push_default, push_interpreter};
use row_items::made::makes;
use row_notation::{Answer, RowWord, field_at};

/// What a row does.
#[derive(Clone, Copy, PartialEq, Eq)]
pub(crate) enum Word {
    /// T: for each argument of the first recipe's dependencies the fields of `value`.
    Arguments,
    /// T: the attributes of the first item that has some, each with the offset of its name, and in
    /// ‹› its comment if it has one.
    Attributes,
    /// `file` or `rejected`, the pieces of T: each beginning of T is a file or rejected with an
    /// error that isn't internal, and what each printable file prints at four spaces, two spaces
    /// and a tab prints as itself; T itself is a file or rejected.
    Beginnings,
    /// What fails, after how many calls, and the fields of `run`: the same, where `reading`,
    /// `writing`, `flushing` or `reporting` fails, or the input is the byte 255 (`encoding`).
    Breaks,
    /// What fails, arguments, standard input: the status where `reading`, `writing` or `reporting`
    /// fails, and the standard error unless that is what fails.
    BreaksEach,
    /// T: T, which prints as itself.
    Canonical,
    /// Limit of depth, T: T, which prints as itself under this limit.
    CanonicalUnder,
    /// T: what the file is printed as, and its copy. Copies of its aliases, its functions, and the
    /// parameters and dependencies of its recipes are equal to them (`uncopied`).
    Copies,
    /// T: for each parameter of the first recipe the fields of `value` for its default, or `none`.
    Defaults,
    /// T: of the first recipe how many dependencies are priors, and each dependency: as it is
    /// written, and in one field `starred` or `plain`, the names of its path, and its arguments in
    /// () as they are written.
    Dependencies,
    /// T: the doc of each recipe and each module in ‹›, or `none`.
    Docs,
    /// T: the name of each item that its attributes enable on Linux; for an import the path as it
    /// is written. Comments and ends of lines are always enabled (`missing`).
    Enabled,
    /// `unchanged`, `bracketed`: the fields of `value`, with an expander that leaves texts,
    /// encloses them in `[]`, rejects them with `no`, or finds no memory (`memory`).
    Expands,
    /// Result, T: the fields of `value`, with an expander that returns this, and what the file is
    /// printed as.
    ExpandsTo,
    /// T: of an unexpected token the kinds that are expected in its place, and after `but` its
    /// kind; of another error the fields of `rejected`; `taken` if the text is a file.
    Expected,
    /// T: of each item the expressions of each attribute after its name, of all attributes after
    /// `attributes`, of the value of a setting after `value`, and of the whole item at every depth
    /// after `all`, each of these that has some in one field.
    Expressions,
    /// `memory`, `list` or `numbers`: the lines of the fault.
    FaultLines,
    /// T: each feature that needs the setting for lists, with the offset and lexeme of its token.
    Features,
    /// Standard input: the standard output of `justfmt`, which ends with 0; over its output it
    /// writes the same, and with `--check` ends with 0. `format_text` and `formatted_as_set` return
    /// that text too, and `format_parts` no other one (`library`, `caller`,
    /// `parts`).
    Formats,
    /// Indentation, T: what `formatted` of the crate `formatted` returns at this indentation.
    FormatsAt,
    /// Names, T: the file's module, its working directory and its items.
    InModule,
    /// Number, text: what `format_parts` returns of parts of at least this many bytes, if anything.
    InParts,
    /// T: the indentation that the file sets, or `none`; the file is printed at this one, or else
    /// at four spaces (`own`).
    Indented,
    /// Words: one of these words (`uncopied`), and how it compares.
    Interpreter,
    /// T: what a query answers.
    ItemCount,
    /// T: each item, after its doc in ‹› and its attributes in [].
    Items,
    /// T: the names by which aliases, assignments, functions, settings and recipes are found.
    Keys,
    /// Index, T: of this line of the first body: its number, and `comment`, `shebang`,
    /// `continuation`, `empty`, if it is so. A copy of it is equal to it (`uncopied`).
    Line,
    /// `root`, or `imported` if another file may import the text; the text: of each problem with its
    /// names the offset and the message of its error.
    Lints,
    /// T: of a value that is a string: its delimiter, `tripled` or `single`, `marked` or
    /// `unmarked`, its lexeme and the offset of that.
    Literal,
    /// Number, names: the attribute with the first name, the others as keys, and this number of
    /// arguments.
    Makes,
    /// Keys, two names: the attribute with the first name and these keys, which have the second
    /// name.
    MakesKeyed,
    /// T: the message of the error, and `undisplayed` if the fault doesn't display it with the
    /// excerpt of its token; `taken` if the text is a file.
    Message,
    /// Number of the first binding, of the first recipe, T: the number that the next binding and
    /// the next recipe would get, or `none`, and the fields of `items`; `numbers` if they ran out.
    Numbers,
    /// T: for each two assignments on successive lines the signs of two orders of their values:
    /// that with their places, and that by content. All ways to compare them with their places
    /// agree (`apart`), and a copy of each, and of each assignment, is equal to it (`uncopied`).
    Orders,
    /// T: each parameter of the first recipe, as it is written, and in one field its name, its
    /// number, its kind, its prefix in ‹›, and what it is.
    Parameters,
    /// T: of each item, in one field: its kind, its name in ‹› if it has one, `private` or, of an
    /// alias, `public` if it is so, the kinds of its attributes, its groups, its doc, a setting's
    /// truth, and its expressions in the order of printing: each as shown below.
    Parts,
    /// T: what the file is printed as, with four spaces before the lines of bodies; `unprintable`
    /// after it if the file isn't printable.
    Prints,
    /// Indentation, T: the fields of `prints`, at this indentation.
    PrintsAt,
    /// Indentation, T: of the first item: `body` or `bodiless`, and what it is printed as alone; of
    /// an alias, an assignment or a setting also what it is written as. A file of this item alone
    /// prints this text and a line end to the two writers of `prints`.
    PrintsItem,
    /// Limit of depth, T: the fields of `prints`, where T and the printed text are parsed under
    /// this limit.
    PrintsUnder,
    /// T: `private`, `quiet` and `shebang`, if the first recipe is so, and in ‹› the comment before
    /// its body, if it has one. It also checks what was passed in (`depth`, `imports`).
    Recipe,
    /// T: of each item the names that it defines and uses, each with `=` before it if it is
    /// defined, its role, its offset and in ‹› its lexeme.
    References,
    /// Or `exhausted`, T: the fields of `value`, with an expander that leaves texts, encloses them
    /// in `[]`, rejects them with `no`, or finds no memory (`memory`).
    Rejected,
    /// Limit of depth, T: the fields of `rejected`, under this limit.
    RejectedUnder,
    /// Numbers of names in a context, as `a=1,b=2`, those of the bindings, T: of the expressions of
    /// the first item, at every depth, their variables with the numbers that they get from the
    /// bindings alone, from the context and the bindings, and from neither.
    Resolves,
    /// Number of constants, T: the numbers that the next binding and the next recipe would get, or
    /// `none`, and then the items as in `items`; `numbers` if they ran out. The file has no working
    /// directory (`placed`).
    Roots,
    /// Arguments, with blanks between them, standard input: the status of `justfmt`, its standard
    /// output and its standard error. Each read and write is of at most two bytes. Without
    /// arguments, `format_text` returns the same (`library`).
    Run,
    /// Too little memory (docs/FAULTS.md).
    Scarcely,
    /// The default one.
    ScriptInterpreter,
    /// T: the attributes of a set made of those of the first recipe: each with the offset of its
    /// name, in ‹› its comment if it has one, `after` with the first one of its kind if that is
    /// another, `in` with the name of each group, and `private` if one is so.
    Sets,
    /// T: of each setting its keyword, `default` if it has the value that may be left out, and
    /// after `!` the settings that it conflicts with, in one field; and how it is written.
    Settings,
    /// `guarded` or `unguarded`, T: the sigils of the first line of the first body.
    Sigils,
    /// `broken`, `interrupted` or `nothing`, calls, T: what is printed to a writer of one byte a
    /// call that fails then, and the fault.
    Stops,
    /// Text: of each item kind, name, offsets and `private`; of each error offsets, line, column
    /// and message.
    Surveys,
    /// T: of each item that has one its symbol, in one field: its kind, and in ‹› its name, its
    /// `parameters` as they are printed, its `doc` and each `group`; the `target` of an alias,
    /// `private` and `disabled` if it is so. Parsed and lent files have the same (`parsed`,
    /// `read`).
    Symbols,
    /// T: each feature that is unstable.
    Unstable,
    /// T: the form of the value, with the offset of its token, and the texts of its parts: `+@7 b
    /// c`, `group b`, `call f@5 b`, `name b`, `command b «`b`»`; of a literal `text`, `marked` or
    /// which part of a format string it is, and its text.
    Value,
    /// T: what `variables_of` of `variables` returns.
    Variables,
}

/// The words, each with the least number of fields of its rows.
static WORDS: &[(&str, Word, usize)] = &[
    ("arguments", Word::Arguments, 1),
    ("attributes", Word::Attributes, 1),
    ("beginnings", Word::Beginnings, 2),
    ("breaks", Word::Breaks, 4),
    ("breaks_each", Word::BreaksEach, 3),
    ("canonical", Word::Canonical, 1),
    ("canonical_under", Word::CanonicalUnder, 2),
    ("copies", Word::Copies, 1),
    ("defaults", Word::Defaults, 1),
    ("dependencies", Word::Dependencies, 1),
    ("docs", Word::Docs, 1),
    ("enabled", Word::Enabled, 1),
    ("expands", Word::Expands, 2),
    ("expands_to", Word::ExpandsTo, 2),
    ("expected", Word::Expected, 1),
    ("expressions", Word::Expressions, 1),
    ("fault_lines", Word::FaultLines, 1),
    ("features", Word::Features, 1),
    ("formats", Word::Formats, 1),
    ("formats_at", Word::FormatsAt, 2),
    ("in_module", Word::InModule, 2),
    ("in_parts", Word::InParts, 2),
    ("indented", Word::Indented, 1),
    ("interpreter", Word::Interpreter, 1),
    ("item_count", Word::ItemCount, 1),
    ("items", Word::Items, 1),
    ("keys", Word::Keys, 1),
    ("line", Word::Line, 2),
    ("lints", Word::Lints, 2),
    ("literal", Word::Literal, 1),
    ("makes", Word::Makes, 2),
    ("makes_keyed", Word::MakesKeyed, 2),
    ("message", Word::Message, 1),
    ("numbers", Word::Numbers, 3),
    ("orders", Word::Orders, 1),
    ("parameters", Word::Parameters, 1),
    ("parts", Word::Parts, 1),
    ("prints", Word::Prints, 1),
    ("prints_at", Word::PrintsAt, 2),
    ("prints_item", Word::PrintsItem, 2),
    ("prints_under", Word::PrintsUnder, 2),
    ("recipe", Word::Recipe, 1),
    ("references", Word::References, 1),
    ("rejected", Word::Rejected, 1),
    ("rejected_under", Word::RejectedUnder, 2),
    ("resolves", Word::Resolves, 3),
    ("roots", Word::Roots, 2),
    ("run", Word::Run, 2),
    ("scarcely", Word::Scarcely, 0),
    ("script_interpreter", Word::ScriptInterpreter, 0),
    ("sets", Word::Sets, 1),
    ("settings", Word::Settings, 1),
    ("sigils", Word::Sigils, 2),
    ("stops", Word::Stops, 3),
    ("surveys", Word::Surveys, 1),
    ("symbols", Word::Symbols, 1),
    ("unstable", Word::Unstable, 1),
    ("value", Word::Value, 1),
    ("variables", Word::Variables, 1),
];

impl RowWord for Word {
    fn of(written: &str) -> Option<(Word, usize)> {
        let (_, word, least) = WORDS.iter().find(|row| row.0 == written)?;
        Some((*word, *least))
    }

    fn are_readable(self, fields: &[String]) -> bool {
        are_readable(self, fields)
    }

    /// `beginnings` expects its first field, `canonical` its input, `canonical_under` its input
    /// without the limit, and another word the fields after its input.
    fn is_expected(self, least: usize, place: usize) -> bool {
        match self {
            Word::Beginnings => place == 0,
            Word::Canonical => true,
            Word::CanonicalUnder => place >= 1,
            _ => place >= least,
        }
    }

    fn push_found(self, answer: &mut Answer, fields: &[String]) {
        let text = field_at(fields, 0);
        match self {
            Word::Breaks | Word::Run => runs(answer, self, fields),
            Word::BreaksEach => breaks_each(answer, fields),
            Word::FaultLines => fault_lines(answer, text),
            Word::Formats => formats(answer, text),
            Word::FormatsAt => formats_at(answer, fields),
            Word::InModule => in_module(answer, fields),
            Word::InParts => in_parts(answer, fields),
            Word::Interpreter => push_interpreter(answer, text),
            Word::ItemCount => item_count(answer, text),
            Word::Lints => lints(answer, fields),
            Word::Makes | Word::MakesKeyed => makes(answer, fields, self == Word::MakesKeyed),
            Word::Roots => roots(answer, fields),
            Word::Scarcely => scarcely(answer),
            Word::ScriptInterpreter => push_default(answer),
            Word::Surveys => surveys(answer, text),
            Word::Symbols => push_symbols_of(answer, text),
            Word::Variables => variables(answer, text),
            _ => push_fields(answer, self, fields),
        }
    }
}
