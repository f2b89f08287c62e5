//! The delimiters of literals.
ghost use Rattle.std.specs.Prelude.{◌≡◌, IfErr, IfSome, slice_index, take, if◌then◌else◌};
ghost use Rattle.std.specs.Result.{result_ok};
ghost use Rattle.justfile_token.specs.CompileErrorKind.{internal_message};
ghost use Rattle.justfile_token.specs.StringKind.{delimiter_at, delimiter_len, delimiter_text, escapes, is_quote, kind_at_start, kind_of, no_literal_message, token_kind_of, unterminated_kind_of};
ghost use Rattle.justfile_token.specs.Token.{lexeme_of};

use crate::compile_error::CompileError;
use crate::compile_error_kind::CompileErrorKind;
use crate::token::Token;
use justfile_vocabulary::TokenKind;
use justfile_vocabulary::bytes::byte_at;

/// The quote that delimits a literal.
#[derive(Clone, Copy, Debug, PartialEq, Eq, PartialOrd, Ord)]
pub enum StringDelimiter {
    /// `` ` ``, for a command.
    Backtick,
    /// `"`, for a text with escapes.
    QuoteDouble,
    /// `'`, for a text that is taken as it is.
    QuoteSingle,
}

/// The delimiter of a literal: its quote, and whether it is tripled.
#[derive(Clone, Copy, Debug, PartialEq, Eq, PartialOrd, Ord)]
pub struct StringKind {
    /// The quote.
    pub delimiter: StringDelimiter,
    /// Whether the delimiter is tripled.
    pub indented: bool,
}

impl StringKind {
    /// Returns the text that opens and closes the literal.
    pub fn delimiter(self) -> &'static str
        ensures { result.now ≡ delimiter_text self }
    {
        match (self.delimiter, self.indented) {
            (StringDelimiter::Backtick, false) => "`",
            (StringDelimiter::Backtick, true) => "```",
            (StringDelimiter::QuoteDouble, false) => "\"",
            (StringDelimiter::QuoteDouble, true) => "\"\"\"",
            (StringDelimiter::QuoteSingle, false) => "'",
            (StringDelimiter::QuoteSingle, true) => "'''",
        }
    }

    /// Returns the number of bytes of the delimiter.
    pub fn delimiter_len(self) -> usize
        ensures { result ≡ delimiter_len self }
    {
        if self.indented { 3 } else { 1 }
    }

    /// Returns the kind of the literal's token.
    pub fn token_kind(self) -> TokenKind
        ensures { result ≡ token_kind_of self.delimiter }
    {
        match self.delimiter {
            StringDelimiter::Backtick => TokenKind::Backtick,
            StringDelimiter::QuoteDouble | StringDelimiter::QuoteSingle => TokenKind::StringToken,
        }
    }

    /// Returns the error of a literal that isn't terminated.
    pub fn unterminated_error_kind(self) -> CompileErrorKind<'static>
        ensures { result ≡ unterminated_kind_of self.delimiter }
    {
        match self.delimiter {
            StringDelimiter::Backtick => CompileErrorKind::UnterminatedBacktick,
            StringDelimiter::QuoteDouble | StringDelimiter::QuoteSingle => {
                CompileErrorKind::UnterminatedString
            }
        }
    }

    /// Whether `\` begins an escape in the literal.
    pub fn processes_escape_sequences(self) -> bool
        ensures { result ≡ escapes self.delimiter }
    {
        matches!(self.delimiter, StringDelimiter::QuoteDouble)
    }

    /// Whether the delimiter is tripled, in which case the literal's indentation is removed.
    pub fn indented(self) -> bool
        ensures { result ≡ self.indented }
    {
        self.indented
    }

    /// Returns the kind of the literal that begins with these bytes. A missing byte counts as 0,
    /// and a byte that isn't a quote counts as `'`.
    pub fn of_opening(bytes: &[u8]) -> Self
        ensures { result ≡ kind_of bytes.now }
    {
        StringKind {
            delimiter: delimiter_of(byte_at(bytes, 0)).unwrap_or(StringDelimiter::QuoteSingle),
            indented: is_tripled(bytes),
        }
    }

    /// Returns the kind of the literal with which a text begins, if it begins with a quote. The
    /// kind is tripled if the first three bytes are equal.
    #[tactic(auto, using(crate::proofs::TokenStart::begins_with_delimiter))]
    pub fn from_token_start(token_start: &str) -> Option<Self>
        ensures kind { result ≡ kind_at_start token_start.now }
        ensures begins { IfSome result
            (λ kind. take (delimiter_len kind) token_start.now ≡ delimiter_text kind) }
    {
        let bytes = token_start.as_bytes();
        let delimiter = delimiter_of(*bytes.first()?)?;
        Some(StringKind {
            delimiter,
            indented: is_tripled(bytes),
        })
    }

    /// Returns the kind of a string or backtick token.
    ///
    /// # Errors
    ///
    /// `Internal` at any other token.
    pub fn from_string_or_backtick(token: Token<'_>) -> Result<Self, CompileError<'_>>
        ensures ok { result_ok result ≡ kind_at_start (lexeme_of token.entry) }
        ensures token { IfErr result (λ error. error.token ≡ token.entry) }
        ensures kind { IfErr result
            (λ error. internal_message error.kind ≡ Some no_literal_message) }
    {
        match StringKind::from_token_start(token.lexeme()) {
            Some(kind) => Ok(kind),
            None => Err(no_literal(token)),
        }
    }
}

/// Returns the error that the token isn't a literal.
fn no_literal(token: Token<'_>) -> CompileError<'_>
    ensures token { result.token ≡ token.entry }
    ensures kind { internal_message result.kind ≡ Some no_literal_message }
{
    let kind = CompileErrorKind::Internal {
        message: "StringKind::from_token: expected string or backtick",
    };
    CompileError { kind, token }
}

/// Whether the first three bytes are equal. A missing byte counts as 0.
fn is_tripled(bytes: &[u8]) -> bool
    ensures { result ≡ (kind_of bytes.now).indented }
{
    let quote = byte_at(bytes, 0);
    byte_at(bytes, 1) == quote && byte_at(bytes, 2) == quote
}

/// Returns the delimiter that consists of this byte, or `None` if the byte isn't a quote.
fn delimiter_of(byte: u8) -> Option<StringDelimiter>
    ensures { result ≡ (if is_quote byte then Some (delimiter_at byte) else None) }
{
    match byte {
        b'`' => Some(StringDelimiter::Backtick),
        b'"' => Some(StringDelimiter::QuoteDouble),
        b'\'' => Some(StringDelimiter::QuoteSingle),
        _ => None,
    }
}
