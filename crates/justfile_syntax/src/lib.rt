//! The syntax of justfiles: its parts, under the module names of the Rust crate where it has them.
#![tactic(auto)]

pub mod alias {
    //! Aliases of recipes.

    pub use justfile_item::Alias;
}

pub mod assignment {
    //! Assignments of variables.

    pub use justfile_item::Assignment;
}

pub mod ast {
    //! Files: `Ast` has the items, and prints them to a text or to a writer, which can fail.

    pub use justfile_ast::{Ast, WriteFault};
}

pub mod attribute {
    //! Attributes: their kinds, what they hold, what they are made of, and their order.

    pub use justfile_attribute::{Attribute, attribute_content_cmp};
    pub use justfile_attribute_rules::KeyMap;
    pub use justfile_vocabulary::AttributeKind;
}

pub mod attribute_set {
    //! The attributes of an item, in the order of their content. A set of them is a `PairSet`,
    //! which keeps pairs of any type in the `ContentOrder` of their first parts.

    pub use justfile_attribute_set::{
        AttributeSet, ContentOrder, IntoKeys, IntoNamed, Keys, PairSet, Written,
    };
}

pub mod binding {
    //! Names with a value.

    pub use justfile_item::Binding;
}

pub mod byte_class {
    //! The classes of bytes that the lexer tells apart.

    pub use justfile_vocabulary::byte_class::{ByteClass, byte_class};
}

pub mod chunks {
    //! The chunks of a text, which is cut at its items.

    pub use justfile_chunks::{Span, chunks};
}

pub mod compile_error {
    //! Errors: what is wrong, and at which token.

    pub use justfile_token::CompileError;
}

pub mod compile_error_kind {
    //! What can be wrong with a text. Displayed by `CompileError` as `just`'s message.

    pub use justfile_token::CompileErrorKind;
}

pub mod conditional_operator {
    //! The operators that compare: `==`, `!=`, `=~`, `!~`.

    pub use justfile_model::ConditionalOperator;
}

pub mod count {
    //! Counts with their nouns, as messages show them.

    pub use justfile_vocabulary::Count;
}

pub mod delimiter {
    //! Delimiters that a text can leave open: braces, brackets, parentheses and interpolations.

    pub use justfile_token::Delimiter;
}

pub mod expander {
    //! What expands the texts of `x'..'`.

    pub use justfile_token::{ExpandFault, Expander, Unchanged};
}

pub mod expression {
    //! Expressions.

    pub use justfile_expression::Expression;
}

pub mod fault {
    //! Why a call that parses has no result.

    pub use justfile_token::{CompileResult, Fault};
}

pub mod format {
    //! From a text to its canonical text.

    pub use justfile_canonical::fault::{FormatFault, Rejection};
    pub use justfile_canonical::formatting::{format_and_forget, format_text};
    pub use justfile_indentation::own_indentation;
}

pub mod fragment {
    //! The parts of body lines: texts and interpolations.

    pub use justfile_line::Fragment;
}

pub mod function_definition {
    //! Functions that a file defines.

    pub use justfile_item::FunctionDefinition;
}

pub mod indentation {
    //! The indentation of printed body lines.

    pub use justfile_vocabulary::Indentation;
}

pub mod interpreter {
    //! Commands that run scripts, with their arguments.

    pub use justfile_attribute::Interpreter;
}

pub mod item {
    //! The items of files, and their kinds.

    pub use justfile_item::{Item, is_private_item};
    pub use justfile_vocabulary::ItemKind;
}

pub mod keyed {
    //! Values that have a name by which they are found.

    pub use justfile_token::Keyed;
}

pub mod keyword {
    //! The words that have a meaning where the grammar allows them.

    pub use justfile_vocabulary::Keyword;
}

pub mod laws {
    //! Statements about the definitions, as contracts of functions that do nothing.

    // What users rely on: tokens and lines, joined, are the text; there is one answer; printed
    // texts read back; the orders are total; sorting, normalizing and formatting again change
    // nothing; and offsets and numbers rise.
    pub use justfile_ast::laws::same_numbers;
    pub use justfile_attribute_set::laws::sets_in_order;
    pub use justfile_canonical::laws::formatted_texts;
    pub use justfile_chunks::{chunks_derive, chunks_derive_trees, parts_join};
    pub use justfile_expression::laws::{
        expressions_ordered, literals_ordered, namepaths_ordered, names_ordered, tokens_ordered,
    };
    pub use justfile_literal::laws::{lines_joined, one_answer as one_literal, unindented_already};
    pub use justfile_model::attribute_laws::content_order;
    pub use justfile_model::grammar_laws::{normal_twice, numbers_rise, reads};
    pub use justfile_model::laws::{eof_is_last, offsets_rise, one_answer, tiling};
    pub use justfile_round_trip::{least_need, reads_back};

    // The other laws, by crate.
    pub use justfile_ast::laws::write_faults_equal;
    pub use justfile_attribute::laws::{attributes_equal, interpreters_ordered, new_attributes};
    pub use justfile_expression::laws::{
        cases_equal, cases_ordered, errors_equal, expression_contents_ordered, modulepaths_ordered,
        numbers_ordered, string_kinds_ordered, words_equal,
    };
    pub use justfile_item::laws::bindings_equal;
    pub use justfile_line::laws::{lines_equal, sigils_ordered};
    pub use justfile_literal::laws::{
        answer_for_all as literal_for_all, cooked_is_utf8, indentation_is_longest, longest_front,
    };
    pub use justfile_model::attribute_laws::attributes_made;
    pub use justfile_model::grammar_laws::{
        counts, expanders, indentations, needs, printing, shapes, uncommented,
    };
    pub use justfile_model::laws::{answer_for_all, in_order, lines_start_at_column_0};
    pub use justfile_model::lexing_laws::{
        bodies_follow_colons, levels_close_before_blank_lines, literals_end_at_first_end,
        open_is_unclosed, reads_up_to_first_end,
    };
    pub use justfile_numbers::laws::versions_ordered;
    pub use justfile_recipe_header::laws::header_parts_equal;
    pub use justfile_round_trip::modes_agree;
    pub use justfile_vocabulary::laws::{
        attribute_names, indentation_texts, one_spelling, signal_names,
    };
}

pub mod lexer {
    //! From a text to its tokens, by the classes of its bytes.

    pub use justfile_lex::Lexer;
    pub use justfile_vocabulary::byte_class::{ByteClass, byte_class};
}

pub mod line {
    //! The lines of bodies.

    pub use justfile_line::Line;
}

pub mod list {
    //! Lists of alternatives, as messages show them, and what can be an alternative.

    pub use justfile_message::List;
    pub use justfile_vocabulary::alternative::Alternative;
}

pub mod list_feature {
    //! The uses of the language that need `set lists`.

    pub use justfile_vocabulary::ListFeature;
}

pub mod list_operator {
    //! The operators that join the elements of a list to one text: `+` and `/`.

    pub use justfile_expression::ListOperator;
}

pub mod modulepath {
    //! The names of the modules that contain a file.

    pub use justfile_token::Modulepath;
}

pub mod name {
    //! Names, with their tokens.

    pub use justfile_token::Name;
}

pub mod namepath {
    //! Paths of names, with `::` between them.

    pub use justfile_token::Namepath;
}

pub mod numerator {
    //! The numbers of bindings and recipes, and what hands them out.

    pub use justfile_numbers::{Number, Numerator};
}

pub mod outline {
    //! The symbols of a file: its named items as plain values.

    pub use justfile_canonical::reading::symbols;
    pub use justfile_outline::{Symbol, outline};
}

pub mod parameter {
    //! Parameters of recipes.

    pub use justfile_recipe_header::Parameter;
}

pub mod parameter_kind {
    //! How many arguments a parameter takes.

    pub use justfile_recipe_header::ParameterKind;
}

pub mod parser {
    //! From a text or its tokens to a file.

    pub use justfile_canonical::reading::{Inspector, Query, inspect_root, query_root, release};
    pub use justfile_canonical::root::{parse_root, parse_root_with};
    pub use justfile_canonical::{Parser, RECURSION_LIMIT};
    pub use justfile_lex::significant;
    pub use justfile_literal::cook_string;
}

pub mod recipe {
    //! Recipes.

    pub use justfile_item::UnresolvedRecipe;
}

pub mod set {
    //! Settings with their attributes.

    pub use justfile_item::Set;
}

pub mod setting {
    //! What settings hold, their forms, their defaults and their conflicts.

    pub use justfile_setting::{Setting, SettingForm, Value, setting_form};
}

pub mod sigil {
    //! The marks before body lines: `@`, `-` and `?`.

    pub use justfile_line::Sigil;
}

pub mod signal {
    //! The signals that `continue` takes.

    pub use justfile_vocabulary::Signal;
}

pub mod source {
    //! Where a text comes from: its imports and its module.

    pub use justfile_token::Source;
}

pub mod string_kind {
    //! The delimiters of literals.

    pub use justfile_token::{StringDelimiter, StringKind};
}

pub mod string_literal {
    //! Literals with their texts, and what their escapes stand for.

    pub use justfile_literal::cook_string;
    pub use justfile_token::StringLiteral;
    pub use justfile_vocabulary::FormatStringPart;
}

pub mod switch {
    //! How options of recipes are written on the command line.

    pub use justfile_vocabulary::Switch;
}

pub mod token {
    //! Tokens: parts of a text, with their kinds and positions.

    pub use justfile_token::Token;
}

pub mod token_kind {
    //! The kinds of tokens.

    pub use justfile_vocabulary::TokenKind;
}

pub mod unindent {
    //! Texts without their indentation.

    pub use justfile_literal_parts::unindent::unindent;
}

pub mod unresolved_dependency {
    //! Dependencies of recipes, by name.

    pub use justfile_recipe_header::{DependencyArgument, UnresolvedDependency};
}

pub mod unstable_feature {
    //! The features that need `set unstable`.

    pub use justfile_vocabulary::UnstableFeature;
}

pub mod version {
    //! Versions of `just`.

    pub use justfile_numbers::Version;
}
