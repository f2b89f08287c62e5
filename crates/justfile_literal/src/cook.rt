//! The text of a literal with its escapes replaced.
ghost use Rattle.std.specs.Prelude.{◌≡◌, ◌++◌, ℕ, List, IfErr, IfOk, Ok, OnOk, encode_utf8_all, option_to_list, string_bytes};
ghost use Rattle.justfile_model.specs.LiteralTexts.Cook.{Cooks, IsCookFault, Refused};
ghost use Rattle.justfile_model.specs.LiteralTexts.Literals.{escaped};
ghost use Rattle.justfile_literal.specs.Literal.{IsTextFault};
ghost use Rattle.justfile_literal_parts.specs.Pieces.{piece_fault};

use justfile_literal_parts::escape::{read_piece, split_first};
use justfile_literal_parts::escape_fault::EscapeFault;
use justfile_token::{CompileError, CompileResult, Fault, StringKind, Token};
use std::alloc::{AllocError, Global};

/// Returns the text of a literal of this kind, with its escapes replaced if its quotes are double.
///
/// # Errors
///
/// `Compile` at the token for the first invalid escape, `Memory` if memory runs out.
pub(crate) fn replace_escapes<'src>(
    alloc: Global,
    token: Token<'src>,
    kind: StringKind,
    text: String,
) -> CompileResult<'src, String>
    ensures ok { IfOk result (λ cooked. escaped kind (string_bytes text)
        ≡ Ok (string_bytes cooked)) }
    ensures err { IfErr result (IsTextFault (escaped kind (string_bytes text)) token.entry) }
{
    if kind.processes_escape_sequences() {
        cook_string(alloc, token, text.as_str())
    } else {
        Ok(text)
    }
}

/// Returns the text with its escapes replaced.
///
/// # Errors
///
/// `Compile` at the token for the first invalid escape, `Memory` if memory runs out.
pub fn cook_string<'src>(
    alloc: Global,
    token: Token<'src>,
    text: &str,
) -> CompileResult<'src, String>
    ensures ok { IfOk result (λ cooked. Cooks text.now (string_bytes cooked)) }
    ensures err { IfErr result (IsCookFault text.now token.entry) }
{
    let mut cooked = String::new(alloc);
    let mut rest = text;
    while let Some((character, after_first)) = split_first(rest) {
        match read_piece(character, after_first) {
            Ok((value, next)) => {
                match push_piece(&mut cooked, value) {
                    Ok(()) => rest = next,
                    Err(_) => return Err(Fault::Memory),
                }
            }
            Err(fault) => return Err(escape_fault(alloc, token, fault)),
        }
    }
    Ok(cooked)
}

/// Returns the error at the token for the fault of the first invalid escape.
fn escape_fault<'src>(alloc: Global, token: Token<'src>, fault: EscapeFault<'_>) -> Fault<'src>
    ensures { (text : List ℕ) → Refused text (piece_fault fault.entry)
        → IsCookFault text token.entry result }
{
    match fault.into_kind(alloc) {
        Ok(kind) => Fault::Compile(CompileError { kind, token }),
        Err(_) => Fault::Memory,
    }
}

/// Appends the character of a piece, if it has one.
fn push_piece(cooked: &mut String, value: Option<char>) -> Result<(), AllocError>
    ensures { OnOk result (string_bytes cooked.new
        ≡ string_bytes cooked.old ++ encode_utf8_all (option_to_list value)) }
{
    match value {
        Some(character) => cooked.push(character),
        None => Ok(()),
    }
}
