//! A token's text with the fixed texts written directly before and after it.
ghost use Rattle.std.specs.Prelude.{◌≡◌, ◌++◌, ◌↔◌, [], IsTrue};
ghost use Rattle.justfile_token.specs.StringLiteral.{literal_marks};
ghost use Rattle.justfile_token.specs.Token.{lexeme_of};
ghost use Rattle.justfile_token.specs.Sink.{Puts};
ghost use Rattle.justfile_leaves.specs.OtherBranch.{after_other, before_other};
ghost use Rattle.justfile_leaves.specs.Texts.{texts_of, text_alone, lexeme_alone, literal_texts, part_texts, texts_joined};

use justfile_token::{Name, Sink, StringLiteral, Token};

/// The texts written around and for a token, in the order of writing. Absent ones are empty.
#[derive(Clone, Copy)]
pub struct Words<'src> {
    /// A fixed piece before the marks.
    pub before: &'static str,
    /// The marks of a literal, such as `x` or `f`.
    pub marks: &'static str,
    /// The token's text.
    pub lexeme: &'src str,
    /// A fixed piece after the token.
    pub after: &'static str,
}

impl<'src> Words<'src> {
    /// Returns a fixed piece without a token.
    pub fn piece(piece: &'static str) -> Self
        ensures { texts_of result ≡ text_alone piece.now }
    {
        Words {
            before: "",
            marks: "",
            lexeme: "",
            after: piece,
        }
    }

    /// Returns the text of a name with nothing around it.
    pub fn name(name: &Name<'src>) -> Self
        ensures { texts_of result ≡ lexeme_alone (lexeme_of name.now.token) }
    {
        Words::token(&name.token)
    }

    /// Returns the text of a token with nothing around it.
    pub fn token(token: &Token<'src>) -> Self
        ensures { texts_of result ≡ lexeme_alone (lexeme_of token.now) }
    {
        Words {
            before: "",
            marks: "",
            lexeme: token.lexeme(),
            after: "",
        }
    }

    /// Returns the text of a literal with its marks.
    pub fn literal(literal: &StringLiteral<'src>) -> Self
        ensures { texts_of result ≡ literal_texts literal.now }
    {
        Words {
            before: "",
            marks: literal.marks(),
            lexeme: literal.token.lexeme(),
            after: "",
        }
    }

    /// Returns a later part of a format string: a space, its marks and text, and then `after`.
    pub fn part(part: &StringLiteral<'src>, after: &'static str) -> Self
        ensures { texts_of result ≡ part_texts part.now after.now }
    {
        Words {
            before: " ",
            marks: part.marks(),
            lexeme: part.token.lexeme(),
            after,
        }
    }

    /// Whether the joined text is empty.
    #[tactic(auto, using(crate::proofs::EmptyTexts::all_empty))]
    pub fn is_empty(&self) -> bool
        ensures { IsTrue result ↔ (texts_joined (texts_of self.now) ≡ []) }
    {
        if !self.before.is_empty() {
            return false;
        }
        if !self.marks.is_empty() {
            return false;
        }
        if !self.lexeme.is_empty() {
            return false;
        }
        self.after.is_empty()
    }
}

/// Returns the piece before the other branch of a conditional. It opens braces, unless the branch
/// is a conditional itself.
pub fn before_other(is_conditional: bool) -> &'static str
    ensures { result.now ≡ before_other is_conditional }
{
    match is_conditional {
        true => " } else ",
        false => " } else { ",
    }
}

/// Returns the piece after the other branch of a conditional. It closes braces, unless the branch
/// is a conditional itself.
pub fn after_other(is_conditional: bool) -> &'static str
    ensures { result.now ≡ after_other is_conditional }
{
    match is_conditional {
        true => "",
        false => " }",
    }
}

/// Writes the texts of `words` one after another.
#[inline(always)]
pub fn write_words<S: Sink>(words: &Words<'_>, sink: &mut S) -> Result<(), S::Fault>
    ensures { Puts S.took S.failed sink.old result (texts_joined (texts_of words.now)) sink.new }
{
    put_text(words.before, sink)?;
    put_text(words.marks, sink)?;
    put_text(words.lexeme, sink)?;
    put_text(words.after, sink)
}

/// Writes a text, unless it is empty.
#[inline(always)]
fn put_text<S: Sink>(text: &str, sink: &mut S) -> Result<(), S::Fault>
    ensures { Puts S.took S.failed sink.old result text.now sink.new }
{
    if text.is_empty() {
        return Ok(());
    }
    sink.put(text)
}
