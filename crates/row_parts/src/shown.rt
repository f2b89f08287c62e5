//! Words, texts, names and values, as rows show them.

use justfile_expression::Expression;
use justfile_token::{Name, StringLiteral};
use row_notation::Text;

/// Writes a word if `is_so`.
pub fn put_if(shown: &mut Text, word: &str, is_so: bool) {
    if is_so {
        shown.put(word);
    }
}

/// Writes a word, and a text in ‹›.
pub fn put_marked(shown: &mut Text, word: &str, text: &str) {
    shown.put(word);
    shown.put("‹");
    shown.put(text);
    shown.put("›");
}

/// Writes a name.
pub fn put_name(shown: &mut Text, name: Name<'_>) {
    shown.put_display(&name);
}

/// Writes the printed text of an expression.
pub fn put_expression(expression: &Expression<'_>, shown: &mut Text) {
    shown.put_display(expression);
}

/// Writes a literal: whether it is expanded, and its text.
pub fn put_literal(literal: &StringLiteral<'_>, shown: &mut Text) {
    let word = if literal.expand { "marked " } else { "text " };
    put_marked(shown, word, literal.cooked.as_str());
}

/// Writes a value, after a word for its form.
pub fn put_value(value: &Expression<'_>, shown: &mut Text) {
    match value {
        Expression::Backtick { contents, .. } => put_marked(shown, "command ", contents.as_str()),
        Expression::StringLiteral { string_literal } => put_literal(string_literal, shown),
        Expression::Variable { name, .. } => {
            shown.put("name ");
            put_name(shown, *name);
        }
        value => {
            shown.put("expression ");
            put_expression(value, shown);
        }
    }
}

/// Writes the doc of a recipe or a module in ‹›, if it has one.
pub fn put_doc(shown: &mut Text, doc: &Option<String>) {
    if let Some(text) = doc {
        put_marked(shown, "doc ", text.as_str());
        shown.put(" ");
    }
}

/// Writes an expression after a blank: a literal by its text in ‹›, and another in brackets after
/// the lexeme that it begins with.
pub fn put_expression_of(expression: &Expression<'_>, shown: &mut Text) {
    if let Some(literal) = expression.as_string_literal() {
        return put_marked(shown, " ", literal.cooked.as_str());
    }
    shown.put(" ");
    shown.put(expression.token().lexeme());
    shown.put(" (");
    put_expression(expression, shown);
    shown.put(")");
}
