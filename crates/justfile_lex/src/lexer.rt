//! The lexer: from a text to its tokens, or to its lexical fault.
ghost use Rattle.std.specs.Prelude.{◌≡◌, ◌+◌, ◌≤◌, ◌||◌, ◌==◌, length, drop, map, Ok, Err, IfOk, IfErr, All, IfNone, IfSome, None, Some, []};
ghost use Rattle.std.specs.Result.{result_ok};
ghost use Rattle.std.specs.Str.{IsCharBoundary, IsUtf8};
ghost use Rattle.std.specs.Char.{is_ascii_alphabetic, is_ascii_digit};
ghost use Rattle.justfile_token.specs.Slice.{IsWithin};
ghost use Rattle.justfile_vocabulary.specs.ByteNames as byte;
ghost use Rattle.justfile_vocabulary.specs.declared.token_kind.TokenKind.TheVariants.{Unspecified};
ghost use Rattle.justfile_model.specs.Lexing.Next.{next};
ghost use Rattle.justfile_model.specs.Lexing.Tok.{tok_of};
ghost use Rattle.justfile_model.specs.Lexing.Lexed.{Lexed, StandsAt};
ghost use Rattle.justfile_model.specs.Lexing.LexResult.{IsFrom, IsLexicalError, IsLexerFault};
ghost use Rattle.justfile_model.specs.Lexing.Places.{IsPlace};
ghost use Rattle.justfile_lex.specs.Lexing.{is_on_line, is_searched};
ghost use Rattle.justfile_scan.specs.Modes.{mode_of};
ghost use Rattle.justfile_lex.specs.SignificantTable.{IsTableOf};
ghost use Rattle.justfile_model.specs.Lexing.SignificantTokens.{is_whitespace};

use crate::explain::explain;
use crate::place::{Place, after_byte, place_after};
use justfile_scan::bytes::is_blank;
use justfile_scan::layout;
use justfile_scan::mode::Mode;
use justfile_scan::white_run::WhiteRun;
use justfile_token::{CompileError, CompileErrorKind, CompileResult, Fault, Token};
use justfile_vocabulary::byte_class::byte_class;
use justfile_vocabulary::bytes::byte_at;
use justfile_vocabulary::{TokenKind, interpolation};
use std::alloc::{AllocError, Global};

/// The lexer, which cuts a text into tokens.
#[derive(Drop)]
pub struct Lexer<'src> {
    mode: Mode<'src>,
    /// The offset of the next token, in bytes.
    offset: usize,
    path: &'src str,
    /// The line and the column of the offset.
    place: Place,
    src: &'src str,
}

impl<'src> Lexer<'src> {
    ghost use Rattle.justfile_lex.specs.Lexing.{IsLexerToken, IsLexing, IsPlaced, IsReading, Takes, TakesInto};

    /// Opens an interpolation.
    pub const INTERPOLATION_START: &'static str = interpolation::INTERPOLATION_START;
    /// Closes an interpolation.
    pub const INTERPOLATION_END: &'static str = interpolation::INTERPOLATION_END;
    /// Stands for two opening braces in text.
    pub const INTERPOLATION_ESCAPE: &'static str = interpolation::INTERPOLATION_ESCAPE;

    /// Returns the tokens of a text. They are in order and cover the whole text, and the last one
    /// is the empty `Eof`. Each has this path and this source.
    ///
    /// # Errors
    ///
    /// `Compile` with the kind and position of the first lexical fault, if there is one; `Memory`
    /// if memory runs out.
    pub fn lex(
        alloc: Global,
        path: &'src str,
        src: &'src str,
    ) -> CompileResult<'src, Vec<Token<'src>>>
        ensures tokens { IfOk result (λ tokens. Lexed src.now (map tok_of tokens.items)) }
        ensures source { IfOk result (λ tokens. All (IsFrom path.now src.now) tokens.items) }
        ensures fault { IfErr result (IsLexerFault path.now src.now) }
    {
        let mut lexer = Lexer::new(alloc, path, src);
        let mut run = WhiteRun::before(src);
        let mut tokens = Vec::new(alloc);
        'tokens: loop {
            if let Some(start) = lexer.unclosed_interpolation() {
                return Err(lexer.interpolation_fault(start));
            }
            let scanned = layout::scan_token(&lexer.mode, &mut run, lexer.rest());
            let Some((kind, length)) = scanned.found() else {
                return Err(lexer.make_fault(alloc));
            };
            let token = lexer.take(kind, length)?;
            tokens.push(token)?;
            if kind == TokenKind::Eof {
                return Ok(tokens);
            }
        }
    }

    /// Returns the tokens of a text that aren't whitespace, each with whether it directly follows
    /// the token before. They are those that `lex` returns, without making a list of all tokens.
    ///
    /// # Errors
    ///
    /// As for `lex`.
    pub fn lex_significant(
        alloc: Global,
        path: &'src str,
        src: &'src str,
    ) -> CompileResult<'src, Vec<(Token<'src>, bool)>>
        ensures table { IfOk result (λ table. IsTableOf path.now src.now table.items) }
        ensures fault { IfErr result (IsLexerFault path.now src.now) }
    {
        let mut lexer = Lexer::new(alloc, path, src);
        let mut run = WhiteRun::before(src);
        let mut table = new_table(alloc, src)?;
        let mut glued = false;
        'tokens: loop {
            if let Some(start) = lexer.unclosed_interpolation() {
                return Err(lexer.interpolation_fault(start));
            }
            let scanned = layout::scan_token(&lexer.mode, &mut run, lexer.rest());
            let Some((kind, length)) = scanned.found() else {
                return Err(lexer.make_fault(alloc));
            };
            glued = lexer.take_into(&mut table, kind, length, glued)?;
            if kind == TokenKind::Eof {
                return Ok(table);
            }
        }
    }

    /// Whether an identifier can contain the character after its first one.
    pub fn is_identifier_continue(c: char) -> bool
        ensures { result ≡ (is_ascii_alphabetic c || c == byte.underscore || is_ascii_digit c
            || c == byte.minus) }
    {
        Self::is_identifier_start(c) || c.is_ascii_digit() || c == '-'
    }

    /// Whether an identifier can begin with the character.
    pub fn is_identifier_start(c: char) -> bool
        ensures { result ≡ (is_ascii_alphabetic c || c == byte.underscore) }
    {
        c.is_ascii_alphabetic() || c == '_'
    }

    /// Returns the lexer at the start of a text.
    fn new(alloc: Global, path: &'src str, src: &'src str) -> Self
        ensures lexing { IsLexing result [] }
        ensures offset { result.offset ≡ 0 }
        ensures path { result.path.now ≡ path.now }
        ensures src { result.src.now ≡ src.now }
    {
        Lexer {
            mode: Mode::new(alloc),
            offset: 0,
            path,
            place: Place { line: 0, column: 0 },
            src,
        }
    }

    /// Returns the first token of the interpolation that is open at the end of the text. `None` if
    /// text is left or no interpolation is open.
    fn unclosed_interpolation(&self) -> Option<Token<'src>>
        requires { IsCharBoundary self.now.src.now self.now.offset }
        ensures none { IfNone result (length (drop self.now.offset self.now.src.now) ≡ 0
            → self.now.mode.interpolation ≡ None) }
        ensures at_end { IfSome result
            (λ start. length (drop self.now.offset self.now.src.now) ≡ 0) }
        ensures open { IfSome result (λ start. self.now.mode.interpolation ≡ Some start) }
    {
        if self.rest().is_empty() {
            self.mode.interpolation
        } else {
            None
        }
    }

    /// Returns the text after the tokens so far.
    fn rest(&self) -> &'src str
        requires { IsCharBoundary self.now.src.now self.now.offset }
        ensures { result.now ≡ drop self.now.offset self.now.src.now }
    {
        &self.src[self.offset..]
    }

    /// Returns the fault of a text that ends inside the interpolation that begins with this token.
    fn interpolation_fault(&self, start: Token<'src>) -> Fault<'src>
        requires reading { IsReading self.now }
        requires at_end { length (drop self.now.offset self.now.src.now) ≡ 0 }
        requires open { self.now.mode.interpolation ≡ Some start }
        ensures { IsLexerFault self.now.path.now self.now.src.now result }
    {
        Fault::Compile(CompileError::new(start, CompileErrorKind::UnterminatedInterpolation))
    }

    /// Returns the fault at the current position, where there is no token.
    fn make_fault(&self, alloc: Global) -> Fault<'src>
        requires reading { IsReading self.now }
        requires utf8 { IsUtf8 self.now.src.now }
        requires closed { length (drop self.now.offset self.now.src.now) ≡ 0
            → self.now.mode.interpolation ≡ None }
        requires no_token { result_ok (next (mode_of self.now.mode)
            (drop self.now.offset self.now.src.now)) ≡ None }
        ensures { IsLexerFault self.now.path.now self.now.src.now result }
    {
        match self.make_error(alloc) {
            Ok(error) => Fault::Compile(error),
            Err(_) => Fault::Memory,
        }
    }

    /// Returns the error at the current position, where there is no token.
    fn make_error(&self, alloc: Global) -> Result<CompileError<'src>, AllocError>
        requires reading { IsReading self.now }
        requires utf8 { IsUtf8 self.now.src.now }
        requires closed { length (drop self.now.offset self.now.src.now) ≡ 0
            → self.now.mode.interpolation ≡ None }
        requires no_token { result_ok (next (mode_of self.now.mode)
            (drop self.now.offset self.now.src.now)) ≡ None }
        ensures { IfOk result (IsLexicalError self.now.path.now self.now.src.now) }
    {
        let refusal = explain(&self.mode, self.rest());
        let token = self.make_error_token(refusal.skip, refusal.length);
        let kind = refusal.fault.into_kind(alloc)?;
        Ok(CompileError::new(token, kind))
    }

    /// Returns the token at which an error is reported: the `length` bytes after the next `skip`
    /// ones.
    fn make_error_token(&self, skip: usize, length: usize) -> Token<'src>
        requires reading { IsReading self.now }
        requires within { IsWithin self.now.src.now (self.now.offset + skip) length }
        ensures at { StandsAt self.now.src.now (self.now.offset + skip) (tok_of result) }
        ensures kind { result.kind ≡ Unspecified }
        ensures length { result.length ≡ length }
        ensures source { IsFrom self.now.path.now self.now.src.now result }
    {
        let offset = self.offset + skip;
        let place = place_after(self.src.as_bytes(), self.place, self.offset, offset);
        Token {
            column: place.column,
            kind: TokenKind::Unspecified,
            length,
            line: place.line,
            offset,
            path: self.path,
            src: self.src,
        }
    }

    /// Moves past the next token, which has this kind and length, and appends it to a table of
    /// significant tokens, unless it is whitespace. Returns whether it was appended, so whether a
    /// token after it is glued to it.
    ///
    /// Whitespace has a branch of its own, without the work that other kinds need. The token is
    /// made in the table, since one that `take` returned would be copied twice.
    #[inline(always)]
    fn take_into(
        &mut self,
        table: &mut Vec<(Token<'src>, bool)>,
        kind: TokenKind,
        length: usize,
        glued: bool,
    ) -> Result<bool, AllocError>
        requires reading { IsReading self.old }
        requires boundary { IsCharBoundary (drop self.old.offset self.old.src.now) length }
        requires next_token { next (mode_of self.old.mode) (drop self.old.offset self.old.src.now)
            ≡ Ok (kind, length) }
        ensures { IfOk result (λ after. TakesInto self.old self.new kind length
            glued after table.old.items table.new.items) }
    {
        if is_whitespace(kind) {
            let _ = self.take(kind, length)?;
            return Ok(false);
        }
        table.push((self.make_token(kind, length), glued))?;
        let _ = self.take(kind, length)?;
        Ok(true)
    }

    /// Returns the next token, which has this kind and length, and moves to its end.
    #[inline(always)]
    fn take(&mut self, kind: TokenKind, length: usize) -> Result<Token<'src>, AllocError>
        requires reading { IsReading self.old }
        requires boundary { IsCharBoundary (drop self.old.offset self.old.src.now) length }
        requires next_token { next (mode_of self.old.mode) (drop self.old.offset self.old.src.now)
            ≡ Ok (kind, length) }
        ensures takes { IfOk result (Takes self.old self.new) }
        ensures kind { IfOk result (λ token. token.kind ≡ kind) }
        ensures length { IfOk result (λ token. token.length ≡ length) }
    {
        let token = self.make_token(kind, length);
        let place = self.place_past(kind, length);
        self.mode.note(token)?;
        self.place = place;
        self.offset += length;
        Ok(token)
    }

    /// Returns the token of this kind and length at the current position.
    #[inline(always)]
    fn make_token(&self, kind: TokenKind, length: usize) -> Token<'src>
        requires { IsWithin self.now.src.now self.now.offset length }
        ensures at { IsLexerToken self.now kind length (tok_of result) }
        ensures length { result.length ≡ length }
        ensures source { IsFrom self.now.path.now self.now.src.now result }
    {
        Token {
            column: self.place.column,
            kind,
            length,
            line: self.place.line,
            offset: self.offset,
            path: self.path,
            src: self.src,
        }
    }

    /// Returns the position after the next token, which has this kind and length.
    #[inline(always)]
    fn place_past(&self, kind: TokenKind, length: usize) -> Place
        requires placed { IsPlaced self.now }
        requires within { IsWithin self.now.src.now self.now.offset length }
        requires next_token { next (mode_of self.now.mode) (drop self.now.offset self.now.src.now)
            ≡ Ok (kind, length) }
        ensures { IsPlace self.now.src.now (self.now.offset + length) result.line result.column }
    {
        let bytes = self.src.as_bytes();
        if is_on_line(kind, byte_at(bytes, self.offset)) {
            return Place {
                line: self.place.line,
                column: self.place.column + length,
            };
        }
        if length == 1 {
            return after_byte(bytes, self.place, self.offset);
        }
        place_after(bytes, self.place, self.offset, self.offset + length)
    }
}

/// Returns an empty table with room for the tokens of a text: one token for each byte, but at most
/// 16,384 tokens, so that a long text with few tokens asks for little.
#[inline(never)]
fn new_table<'src>(alloc: Global, src: &str) -> Result<Vec<(Token<'src>, bool)>, AllocError>
    ensures { IfOk result (λ table. table.items ≡ []) }
{
    Vec::with_capacity(alloc, src.len().min(16_384))
}

/// Whether a token of the kind that begins with this byte is known to have no line feed. The other
/// ones are searched.
#[inline(always)]
fn is_on_line(kind: TokenKind, first: u8) -> bool
    ensures { result ≡ is_on_line kind first }
{
    match kind {
        TokenKind::Whitespace => is_blank(byte_class(first)),
        _ => !is_searched(kind),
    }
}

/// Whether tokens of the kind are whitespace.
pub(crate) fn is_whitespace(kind: TokenKind) -> bool
    ensures { result ≡ is_whitespace kind }
{
    matches!(kind, TokenKind::Whitespace)
}

/// Whether tokens of the kind are searched for line feeds. The other kinds have none.
fn is_searched(kind: TokenKind) -> bool
    ensures { result ≡ is_searched kind }
{
    matches!(
        kind,
        TokenKind::Backtick
            | TokenKind::ByteOrderMark
            | TokenKind::Eol
            | TokenKind::FormatStringContinue
            | TokenKind::FormatStringEnd
            | TokenKind::FormatStringStart
            | TokenKind::InterpolationStart
            | TokenKind::StringToken
            | TokenKind::Whitespace
    )
}
