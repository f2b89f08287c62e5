//! The mode: what the lexer has to know of the earlier tokens.
ghost use Rattle.std.specs.Prelude.{◌≡◌, ◌||◌, ◌+◌, ◌≤◌, map, not, length, ◌==◌, [], ◌∷◌, OnOk, None, true, false};
ghost use Rattle.std.specs.List.{list_any, count_by};
ghost use Rattle.std.specs.Str.{bytes_eq};
ghost use Rattle.justfile_vocabulary.specs.ByteNames as byte;
ghost use Rattle.justfile_model.specs.Lexing.Places.{is_line_feed};
ghost use Rattle.justfile_model.specs.Lexing.Modes.{ends_in_line_feed};

use justfile_model::OpenDelimiter;
use justfile_token::{Delimiter, StringKind, Token};
use justfile_vocabulary::TokenKind;
use std::alloc::{AllocError, Global};

/// The state of the lexer after the earlier tokens, which determines the next one.
#[derive(Drop)]
pub struct Mode<'src> {
    /// Whether the last token is the identifier `f`.
    pub after_f: bool,
    /// Whether there was a colon after the last dedent.
    pub colon: bool,
    /// Whether the lines belong to a body.
    pub in_body: bool,
    /// The token that began the open interpolation.
    pub interpolation: Option<Token<'src>>,
    /// The open levels, innermost last.
    pub levels: Vec<&'src str>,
    /// Whether the next token is at column 0.
    pub line_start: bool,
    /// The open delimiters, innermost last.
    pub openers: Vec<OpenDelimiter>,
}

impl<'src> Mode<'src> {
    ghost use Rattle.justfile_model.specs.Lexing.Modes.{mode, mode_after, innermost, nested, start_mode, is_empty, head_of, tail_of, opener};
    ghost use Rattle.justfile_model.specs.Lexing.Next.{is_level};
    ghost use Rattle.justfile_token.specs.StringKind.{kind_of};
    ghost use Rattle.justfile_token.specs.declared.delimiter.Delimiter.TheVariants.{FormatString};
    ghost use Rattle.justfile_model.specs.Lexing.Tok.{tok_of};
    ghost use Rattle.justfile_scan.specs.Modes.{mode_of, interpolation_after};

    /// Returns the mode at the start of a text.
    pub fn new(alloc: Global) -> Self
        ensures mode { mode_of result ≡ start_mode }
        ensures interpolation { result.interpolation ≡ None }
    {
        Mode {
            after_f: false,
            colon: false,
            in_body: false,
            interpolation: None,
            levels: Vec::new(alloc),
            line_start: true,
            openers: Vec::new(alloc),
        }
    }

    /// Returns the innermost level, which is empty if none is open.
    pub fn level(&self) -> &'src str
        ensures { result.now ≡ innermost (mode_of self.now) }
    {
        match self.levels.last() {
            Some(level) => level,
            None => "",
        }
    }

    /// Returns the innermost open delimiter.
    pub fn opener(&self) -> Option<OpenDelimiter>
        ensures { result ≡ head_of (mode_of self.now).openers }
    {
        match self.openers.last() {
            Some(opener) => Some(*opener),
            None => None,
        }
    }

    /// Whether no level is open.
    pub fn no_level(&self) -> bool
        ensures { result ≡ is_empty (mode_of self.now).levels }
    {
        self.levels.is_empty()
    }

    /// Whether a delimiter or an interpolation is open.
    pub fn is_nested(&self) -> bool
        ensures { result ≡ nested (mode_of self.now) }
    {
        !self.no_delimiter_open() || self.interpolation.is_some()
    }

    /// Whether no delimiter is open.
    pub fn no_delimiter_open(&self) -> bool
        ensures { result ≡ is_empty (mode_of self.now).openers }
    {
        self.openers.is_empty()
    }

    /// Whether the text is one of the open levels, or empty.
    pub fn is_level(&self, text: &str) -> bool
        ensures { result ≡ is_level (mode_of self.now).levels text.now }
    {
        text.is_empty() || contains(&self.levels, text)
    }

    /// Updates the mode with the next token.
    #[inline(always)]
    pub fn note(&mut self, token: Token<'src>) -> Result<(), AllocError>
        requires { token.line ≤ token.offset }
        ensures mode { OnOk result (mode_of self.new
            ≡ mode_after token.entry.kind (tok_of token.entry) (mode_of self.old)) }
        ensures interpolation { OnOk result (self.new.interpolation
            ≡ interpolation_after token.entry self.old.interpolation) }
    {
        let line_start = self.line_start;
        self.line_start = false;
        self.after_f = false;
        match token.kind {
            TokenKind::BraceL => self.open(Delimiter::Brace, token.line)?,
            TokenKind::BracketL => self.open(Delimiter::Bracket, token.line)?,
            TokenKind::ParenL => self.open(Delimiter::Paren, token.line)?,
            TokenKind::FormatStringStart => {
                let bytes = token.lexeme().as_bytes();
                self.open_format_string(bytes, token.line + count_line_feeds(bytes))?
            }
            TokenKind::BraceR
            | TokenKind::BracketR
            | TokenKind::ParenR
            | TokenKind::FormatStringEnd => self.close(),
            TokenKind::Colon => self.colon = true,
            TokenKind::Indent => self.indent(token.lexeme())?,
            TokenKind::Dedent => {
                self.dedent();
                self.line_start = line_start;
            }
            TokenKind::InterpolationStart => self.interpolation = Some(token),
            TokenKind::InterpolationEnd => self.interpolation = None,
            TokenKind::Eol => self.line_start = true,
            TokenKind::Whitespace => self.line_start = ends_in_line_feed(token.lexeme().as_bytes()),
            TokenKind::Identifier => self.after_f = is_letter_f(token.lexeme().as_bytes()),
            _ => {}
        }
        Ok(())
    }

    /// Opens the format string that begins with this text, which ends on the line.
    #[inline(never)]
    fn open_format_string(&mut self, start: &[u8], line: usize) -> Result<(), AllocError>
        ensures mode { OnOk result (mode_of self.new ≡ record
            (mode_of self.old) {
              openers = opener (FormatString (kind_of start.now)) line ∷ (mode_of self.old).openers;
            }) }
        ensures interpolation { self.new.interpolation ≡ self.old.interpolation }
    {
        self.open(Delimiter::FormatString(StringKind::of_opening(start)), line)
    }

    /// Opens a delimiter whose token ends on the line. It isn't inlined, since LLVM would clear the
    /// room for a delimiter before it looks at the kind of each token.
    #[inline(never)]
    fn open(&mut self, delimiter: Delimiter, line: usize) -> Result<(), AllocError>
        ensures mode { OnOk result (mode_of self.new ≡ record
            (mode_of self.old) { openers = opener delimiter line ∷ (mode_of self.old).openers }) }
        ensures interpolation { self.new.interpolation ≡ self.old.interpolation }
    {
        self.openers.push(OpenDelimiter { delimiter, line })?;
        Ok(())
    }

    /// Closes the innermost delimiter.
    fn close(&mut self)
        ensures mode { mode_of self.new
            ≡ record (mode_of self.old) { openers = tail_of (mode_of self.old).openers } }
        ensures interpolation { self.new.interpolation ≡ self.old.interpolation }
    {
        let _ = self.openers.pop();
    }

    /// Opens a level. It is a body if there was a colon before.
    fn indent(&mut self, level: &'src str) -> Result<(), AllocError>
        ensures mode { OnOk result (mode_of self.new ≡ record
            (mode_of self.old) {
              levels = level.now ∷ (mode_of self.old).levels;
              in_body = (mode_of self.old).in_body ||
                  (mode_of self.old).colon;
            }) }
        ensures interpolation { self.new.interpolation ≡ self.old.interpolation }
    {
        self.levels.push(level)?;
        self.in_body = self.in_body || self.colon;
        Ok(())
    }

    /// Closes the innermost level.
    fn dedent(&mut self)
        ensures mode { mode_of self.new ≡ record (mode_of self.old) {
          levels = tail_of
              (mode_of self.old).levels;
          colon = false;
          in_body = false;
        } }
        ensures interpolation { self.new.interpolation ≡ self.old.interpolation }
    {
        let _ = self.levels.pop();
        self.colon = false;
        self.in_body = false;
    }
}

/// Whether `text` is among the texts.
fn contains(texts: &[&str], text: &str) -> bool
    ensures { result ≡ list_any (λ t. bytes_eq t.now text.now) texts.now }
{
    texts.iter().any(|t| *t == text)
}

/// Whether the text is the letter `f`.
fn is_letter_f(text: &[u8]) -> bool
    ensures { result ≡ bytes_eq text.now (byte.letter_f ∷ []) }
{
    text.len() == 1 && text[0] == b'f'
}

/// Returns the number of line feeds.
fn count_line_feeds(bytes: &[u8]) -> usize
    ensures { result ≡ count_by is_line_feed bytes.now }
{
    bytes.iter().filter(|b| **b == b'\n').count()
}

/// Whether the last byte is a line feed.
fn ends_in_line_feed(bytes: &[u8]) -> bool
    ensures { result ≡ ends_in_line_feed bytes.now }
{
    match bytes.last() {
        Some(byte) => *byte == b'\n',
        None => false,
    }
}
