//! Strings and commands, made of their tokens.
ghost use Rattle.std.specs.Prelude.{◌≡◌, ℕ, List, Result, Ok, Err, IfErr, IfOk, IfSome, IsFalse, IsTrue, string_bytes};
ghost use Rattle.justfile_token.specs.StringKind.{kind_of};
ghost use Rattle.justfile_token.specs.Token.{lexeme_of};
ghost use Rattle.justfile_model.specs.LiteralTexts.Cook.{Cooks};
ghost use Rattle.justfile_model.specs.LiteralTexts.Literals.{Expansions, Command, LiteralFault, Refused, Shebang, between_quotes, by_answer, cooked_text, flush_text, string_of, string_text};
ghost use Rattle.justfile_literal.specs.Literal.{IsStringOf, IsTextFault, answers_by, is_quoted};

use crate::cook::replace_escapes;
use justfile_literal_parts::unindent::unindent;
use justfile_token::{
    CompileError, CompileErrorKind, CompileResult, ExpandFault, Expander, Fault, StringKind,
    StringLiteral, Token,
};
use std::alloc::{AllocError, Global};

/// Returns the literal for a string token. With the mark `x` its text is expanded. The lexeme must
/// begin and end with its delimiter, as that of each lexed literal does.
///
/// # Errors
///
/// `Compile` at the token for the first invalid escape, or if the expander can't expand the text;
/// `Memory` if memory runs out.
pub fn string_literal<'src, X: Expander>(
    alloc: Global,
    token: Token<'src>,
    expand: bool,
    expander: &X,
) -> CompileResult<'src, StringLiteral<'src>>
    requires { IsTrue (is_quoted (lexeme_of token)) }
    ensures ok { IfOk result (IsStringOf (answers_by X.answer expander.now) token.entry expand) }
    ensures err { IfErr result (IsTextFault (cooked_text (answers_by X.answer expander.now)
        (string_of expand (lexeme_of token.entry))) token.entry) }
{
    let text = match read_string_text(alloc, token) {
        Ok(text) => text,
        Err(fault) => return Err(fault),
    };
    let cooked = if expand {
        match expand_text(alloc, token, text.as_str(), expander) {
            Ok(expanded) => expanded,
            Err(fault) => return Err(fault),
        }
    } else {
        text
    };
    Ok(StringLiteral {
        cooked,
        expand,
        kind: literal_kind(token.lexeme()),
        part: None,
        token,
    })
}

/// Returns the text between the quotes, if that is the text of the string: the quotes aren't
/// tripled, and there is no escape between them. The lexeme must begin and end with its delimiter,
/// as that of each lexed literal does.
#[inline(always)]
pub fn verbatim_text(lexeme: &str) -> Option<&str>
    requires { IsTrue (is_quoted lexeme.now) }
    ensures { IfSome result (λ text. string_text lexeme.now ≡ Ok text.now) }
{
    let kind = literal_kind(lexeme);
    if kind.indented() {
        return None;
    }
    let text = between_quotes(lexeme);
    if kind.processes_escape_sequences() && has_backslash(text) {
        return None;
    }
    Some(text)
}

/// Whether there is a backslash in the text.
fn has_backslash(text: &str) -> bool
    ensures { IsFalse result → Cooks text.now text.now }
{
    text.contains('\\')
}

/// Returns the command between backticks, unindented if they are tripled. The lexeme must begin and
/// end with its delimiter, as that of each lexed literal does.
///
/// # Errors
///
/// `Compile` at the token if the command begins with `#!`, `Memory` if memory runs out.
pub fn command<'src>(alloc: Global, token: Token<'src>) -> CompileResult<'src, String>
    requires { IsTrue (is_quoted (lexeme_of token)) }
    ensures ok { IfOk result (λ contents. (expander : Expansions)
        → cooked_text expander (Command (lexeme_of token.entry)) ≡ Ok (string_bytes contents)) }
    ensures err { IfErr result (λ fault. (expander : Expansions)
        → IsTextFault (cooked_text expander (Command (lexeme_of token.entry))) token.entry fault) }
{
    match read_flush_text(alloc, token.lexeme()) {
        Ok(text) => {
            if text.as_str().starts_with("#!") {
                Err(shebang_fault(token))
            } else {
                Ok(text)
            }
        }
        Err(_) => Err(Fault::Memory),
    }
}

/// Returns the error at the token for a command that begins with `#!`.
fn shebang_fault(token: Token<'_>) -> Fault<'_>
    ensures { (text : Result (List ℕ) LiteralFault) → text ≡ Err Shebang
        → IsTextFault text token.entry result }
{
    let kind = CompileErrorKind::BacktickShebang;
    Fault::Compile(CompileError { kind, token })
}

/// Returns the text of a string, with its escapes replaced if the quotes are double.
fn read_string_text<'src>(alloc: Global, token: Token<'src>) -> CompileResult<'src, String>
    requires { IsTrue (is_quoted (lexeme_of token)) }
    ensures ok { IfOk result (λ text. string_text (lexeme_of token.entry)
        ≡ Ok (string_bytes text)) }
    ensures err { IfErr result (IsTextFault (string_text (lexeme_of token.entry)) token.entry) }
{
    match read_flush_text(alloc, token.lexeme()) {
        Ok(text) => replace_escapes(alloc, token, literal_kind(token.lexeme()), text),
        Err(_) => Err(Fault::Memory),
    }
}

/// Returns the text between the quotes, unindented if the quotes are tripled.
fn read_flush_text(alloc: Global, lexeme: &str) -> Result<String, AllocError>
    requires { IsTrue (is_quoted lexeme.now) }
    ensures { IfOk result (λ text. string_bytes text ≡ flush_text lexeme.now) }
{
    let text = between_quotes(lexeme);
    if literal_kind(lexeme).indented() {
        unindent(alloc, text)
    } else {
        text.to_string(alloc)
    }
}

/// Returns the text between the quotes.
fn between_quotes(lexeme: &str) -> &str
    requires { IsTrue (is_quoted lexeme.now) }
    ensures { result.now ≡ between_quotes lexeme.now }
{
    let quotes = literal_kind(lexeme).delimiter_len();
    &lexeme[quotes..lexeme.len() - quotes]
}

/// Returns the kind of the literal.
fn literal_kind(lexeme: &str) -> StringKind
    ensures { result ≡ kind_of lexeme.now }
{
    StringKind::of_opening(lexeme.as_bytes())
}

/// Returns the expanded text. If the expander refuses it, the error is at the token; if memory runs
/// out, it is `Memory`.
fn expand_text<'src, X: Expander>(
    alloc: Global,
    token: Token<'src>,
    text: &str,
    expander: &X,
) -> CompileResult<'src, String>
    ensures ok { IfOk result (λ expanded. by_answer (answers_by X.answer expander.now text.now)
        ≡ Ok (string_bytes expanded)) }
    ensures err { IfErr result
        (IsTextFault (by_answer (answers_by X.answer expander.now text.now)) token.entry) }
{
    match expander.expand(alloc, text) {
        Ok(expanded) => Ok(expanded),
        Err(ExpandFault::Refused(err)) => Err(expansion_fault(token, err)),
        Err(ExpandFault::Memory) => Err(Fault::Memory),
    }
}

/// Returns the error at the token for a text that the expander can't expand, for this reason.
fn expansion_fault(token: Token<'_>, err: String) -> Fault<'_>
    ensures { (text : Result (List ℕ) LiteralFault) → text ≡ Err (Refused (string_bytes err))
        → IsTextFault text token.entry result }
{
    let kind = CompileErrorKind::ShellExpansion { err };
    Fault::Compile(CompileError { kind, token })
}
