//! The parser's state: how it takes tokens from the table of significant tokens.
ghost use Rattle.std.specs.Option.{is_some};
ghost use Rattle.std.specs.Prelude.{◌≡◌, ◌<◌, ◌≤◌, ◌+◌, ℕ, false, List, None, drop, length, map, IsTrue, IfOk, OnOk, OnSome, IfSome};
ghost use Rattle.std.specs.List.{list_all};
ghost use Rattle.justfile_vocabulary.specs.Keyword.{keyword_text};
ghost use Rattle.justfile_vocabulary.specs.declared.token_kind.TokenKind.TheVariants as kinds;
ghost use Rattle.justfile_model.specs.Grammars.Expressions.{front};
ghost use Rattle.justfile_parse_expression.specs.Conditions.{conditions_of};
ghost use Rattle.justfile_parse_expression.specs.FormatStrings.{AreEnded, IsTable, prop_ended};
ghost use Rattle.justfile_parse_expression.specs.Literal.{IsOf, is_sound};
ghost use Rattle.justfile_model.specs.Readers.ReaderState.{at, is_word, marks};
ghost use Rattle.justfile_model.specs.Meanings.Versions.{version_numbers};
ghost use Rattle.justfile_parse_expression.specs.TableReader as reader;
ghost use Rattle.justfile_parse_expression.specs.MethodResults.{Peeks, Reads, TakesTableToken};
ghost use Rattle.justfile_parse_expression.specs.Significant.{significant_of};

use crate::expected_tokens::ExpectedTokens;
use crate::expression_error::{ExpressionError, SyntaxError};
use crate::significant::SignificantToken;
use justfile_expression::ListFeature;
use justfile_numbers::Version;
use justfile_token::{Expander, Token};
use justfile_vocabulary::{Keyword, TokenKind};
use std::alloc::Global;

/// Reads a table of significant tokens from left to right.
///
/// The beginning of a method's name says what it does with the next tokens: `peek_` and `probe_`
/// look at them and take none, `accept_` takes what the name says if it comes next, `expect_` takes
/// it and refuses anything else, and `parse_` parses a construct, or returns why it can't.
///
/// If `peek_if`, `peek_kinds`, `accept` or `expect` don't find the kind of token that they look
/// for, they add it to `expected_tokens`. `probe_if`, `probe_kinds` and `accept_unrecorded` add
/// nothing, nor do the methods for keywords, marks and operators.
#[derive(Drop)]
pub struct ParserState<'run, 'src, X> {
    /// Where what is parsed takes its memory.
    pub alloc: Global,
    /// The version of `just` that is running.
    pub(crate) current: Version,
    /// How many expressions are open: begun, and not yet ended.
    pub(crate) depth: usize,
    /// What expands the texts of literals with the mark `x`.
    pub(crate) expander: &'run X,
    /// How many imports and modules lie between the file and the root.
    pub file_depth: u32,
    /// The byte offsets of the imports that lead to this file, the outermost first.
    pub import_offsets: &'run [usize],
    /// How many expressions may be nested in one another.
    pub(crate) limit: usize,
    /// The uses of features that need the setting `lists`, each with its token, in order. The
    /// methods that parse them note them as they go.
    pub list_features: Vec<(ListFeature, Token<'src>)>,
    /// The index of the next token.
    pub(crate) next: usize,
    /// The table.
    pub tokens: &'run [SignificantToken<'src>],
    /// The kinds that were looked for at the next token and not found.
    pub expected_tokens: ExpectedTokens,
    ghost within: { next ≤ length tokens.now },
    ghost shallow: { depth ≤ limit },
    ghost nonempty: { 0 < length tokens.now },
    ghost sound: { IsTrue (list_all is_sound tokens.now) },
    ghost ended: { AreEnded (map significant_of tokens.now) } by { prop_ended (map significant_of tokens.now) },
}

impl<'run, 'src, X: Expander> ParserState<'run, 'src, X> {
    ghost use Rattle.justfile_parse_expression.specs.View.{Moves, tokens_left, state_from, state_of};

    /// Returns the state at the first token of a table, with no expression open, and up to `limit`
    /// nested expressions allowed. Requires all significant tokens of one text.
    #[tactic(auto, using(crate::proofs::Rest::begin_is), unfolding(crate::specs::View::state_of))]
    pub fn new(
        alloc: Global,
        current: Version,
        expander: &'run X,
        file_depth: u32,
        import_offsets: &'run [usize],
        tokens: &'run [SignificantToken<'src>],
        limit: usize,
    ) -> Self
        requires { IsTable tokens.now }
        ensures { state_of X.answer result ≡ reader.begin (record {
          conditions = conditions_of X.answer expander.now current limit;
          table = tokens.now;
          file_depth = file_depth;
          import_offsets = import_offsets.now;
        }) }
    {
        ParserState {
            alloc,
            current,
            depth: 0,
            expander,
            file_depth,
            import_offsets,
            limit,
            list_features: Vec::new(alloc),
            next: 0,
            tokens,
            expected_tokens: ExpectedTokens::new(),
        }
    }

    /// Returns the version of `just` that is running.
    #[tactic(auto, unfolding(crate::specs::View::state_at, crate::specs::View::state_of))]
    pub fn current(&self) -> Version
        ensures { (state_of X.answer self.now).run.conditions.current ≡ version_numbers result }
    {
        self.current
    }

    /// Returns the next token without taking it: `peek`, with a shorter contract for callers that
    /// need only the token.
    pub fn peek_front(&self) -> Option<SignificantToken<'src>>
        ensures { result ≡ front (state_of X.answer self.now).left }
    {
        match self.peek() {
            Some(table_token) => Some(*table_token),
            None => None,
        }
    }

    /// Returns the next token if it is of this kind, without taking it.
    pub fn peek_if(&self, kind: TokenKind) -> Option<&'run SignificantToken<'src>>
        ensures within { OnSome result (self.now.next < length self.now.tokens.now) }
        ensures takes { TakesTableToken result (state_from X.answer self.now (self.now.next + 1))
            (reader.accept kind (state_of X.answer self.now)) }
        ensures table_token { IfSome result (λ table_token. IsOf kind table_token.now) }
    {
        let Some(table_token) = self.probe_if(kind) else {
            self.expected_tokens.add(kind);
            return None;
        };
        Some(table_token)
    }

    /// Takes the next token if it is this keyword.
    #[tactic(auto, unfolding(crate::specs::TableReader::leaves, justfile_model::specs::Readers::ReaderState::accept_keyword, crate::specs::View::state_of, crate::specs::View::tokens_left))]
    #[inline(always)]
    pub fn accept_keyword(&mut self, keyword: Keyword) -> Option<&'run SignificantToken<'src>>
        ensures takes { TakesTableToken result (state_of X.answer self.new)
            (reader.accept_keyword (keyword_text keyword) (state_of X.answer self.old)) }
        ensures moves { Moves result self.old self.new }
        ensures kind { IfSome result (λ table_token. table_token.now.0.kind ≡ kinds.Identifier) }
    {
        let table_token = self.peek()?;
        if is_word(table_token, keyword.lexeme()) {
            self.next += 1;
            self.expected_tokens.clear();
            Some(table_token)
        } else {
            None
        }
    }

    /// Whether the next token is this keyword.
    #[tactic(auto, unfolding(crate::specs::TableReader::leaves, justfile_model::specs::Readers::ReaderState::accept_keyword))]
    #[inline(always)]
    pub fn peek_keyword(&self, keyword: Keyword) -> bool
        ensures { result
            ≡ is_some (reader.accept_keyword (keyword_text keyword) (state_of X.answer self.now)) }
    {
        match self.peek() {
            Some(table_token) => is_word(table_token, keyword.lexeme()),
            None => false,
        }
    }

    /// Takes the next token if it is this mark, together with the string of this kind that is glued
    /// to it, and returns the string. Tests first whether the second token is a string, because it
    /// rarely is.
    #[tactic(auto, unfolding(crate::specs::View::state_of, crate::specs::View::tokens_left))]
    #[inline(always)]
    pub(crate) fn accept_marked(
        &mut self,
        mark: Keyword,
        kind: TokenKind,
    ) -> Option<&'run SignificantToken<'src>>
        ensures takes { TakesTableToken result (state_of X.answer self.new)
            (reader.accept_marked (keyword_text mark) kind (state_of X.answer self.old)) }
        ensures moves { Moves result self.old self.new }
        ensures table_token { IfSome result (λ table_token. IsOf kind table_token.now) }
    {
        if self.is_second(kind) {
            return self.take_marked(mark, kind);
        }
        None
    }

    /// Whether the token after the next one is of this kind. If it isn't, no mark precedes such a
    /// token here.
    #[tactic(auto, using(crate::proofs::Lengths::unmarked, crate::proofs::Rest::marked_end), unfolding(crate::specs::View::state_of))]
    #[inline(always)]
    fn is_second(&self, kind: TokenKind) -> bool
        ensures { result ≡ false → (word : List ℕ)
            → reader.accept_marked word kind (state_of X.answer self.now) ≡ None }
    {
        if self.tokens.len() - self.next < 2 {
            return false;
        }
        let (token, _) = &self.tokens[self.next + 1];
        token.kind == kind
    }

    /// Takes the next token if it is this mark, together with the string of this kind that is glued
    /// to it, and returns the string.
    #[tactic(auto, using(crate::proofs::Rest::marked_here, crate::proofs::Rest::marked_end, crate::proofs::Rest::sound_at), unfolding(crate::specs::View::state_of, crate::specs::View::tokens_left))]
    #[inline(never)]
    fn take_marked(
        &mut self,
        mark: Keyword,
        kind: TokenKind,
    ) -> Option<&'run SignificantToken<'src>>
        ensures takes { TakesTableToken result (state_of X.answer self.new)
            (reader.accept_marked (keyword_text mark) kind (state_of X.answer self.old)) }
        ensures moves { Moves result self.old self.new }
        ensures table_token { IfSome result (λ table_token. IsOf kind table_token.now) }
    {
        if self.tokens.len() - self.next < 2 {
            return None;
        }
        let first = &self.tokens[self.next];
        let table_token = &self.tokens[self.next + 1];
        if is_marked(first, mark.lexeme(), table_token, kind) {
            self.next += 2;
            self.expected_tokens.clear();
            Some(table_token)
        } else {
            None
        }
    }

    /// Whether the next token is this mark, with a string of this kind glued to it. Tests first
    /// whether the second token is a string, because it rarely is.
    #[inline(always)]
    pub fn peek_marked(&self, mark: Keyword, kind: TokenKind) -> bool
        ensures { result
            ≡ is_some (reader.accept_marked (keyword_text mark) kind (state_of X.answer self.now)) }
    {
        if self.is_second(kind) {
            return self.marks_next(mark, kind);
        }
        false
    }

    /// Whether the next token is this mark, with a string of this kind glued to it.
    #[tactic(auto, using(crate::proofs::Rest::marked_is, crate::proofs::Rest::marked_none), unfolding(crate::specs::View::state_of, crate::specs::View::tokens_left))]
    #[inline(never)]
    fn marks_next(&self, mark: Keyword, kind: TokenKind) -> bool
        ensures { result
            ≡ is_some (reader.accept_marked (keyword_text mark) kind (state_of X.answer self.now)) }
    {
        if self.tokens.len() - self.next < 2 {
            return false;
        }
        let first = &self.tokens[self.next];
        let table_token = &self.tokens[self.next + 1];
        is_marked(first, mark.lexeme(), table_token, kind)
    }

    /// Takes the next token, which has to be of this kind.
    ///
    /// # Errors
    ///
    /// It is of another kind.
    #[tactic(auto, unfolding(justfile_model::specs::Readers::ReaderState::expect))]
    pub fn expect(
        &mut self,
        kind: TokenKind,
    ) -> Result<&'run SignificantToken<'src>, ExpressionError<'src>>
        ensures reads { Reads (λ table_token. table_token.now) result (state_of X.answer self.new)
            (reader.expect kind (state_of X.answer self.old)) }
        ensures progress { OnOk result (tokens_left self.new < tokens_left self.old) }
        ensures kind { IfOk result (λ table_token. table_token.now.0.kind ≡ kind) }
    {
        match self.accept(kind) {
            Some(table_token) => Ok(table_token),
            None => Err(ExpressionError::Refused(SyntaxError::Unexpected)),
        }
    }

    /// Takes the next token if it is of this kind.
    pub fn accept(&mut self, kind: TokenKind) -> Option<&'run SignificantToken<'src>>
        ensures takes { TakesTableToken result (state_of X.answer self.new)
            (reader.accept kind (state_of X.answer self.old)) }
        ensures moves { Moves result self.old self.new }
        ensures table_token { IfSome result (λ table_token. IsOf kind table_token.now) }
    {
        let Some(table_token) = self.accept_unrecorded(kind) else {
            self.expected_tokens.add(kind);
            return None;
        };
        Some(table_token)
    }

    /// Takes the next token if it is of this kind. Doesn't add the kind to the expected tokens: the
    /// caller looks for one of the kinds that a value begins with, and those are added all at once.
    #[tactic(auto, unfolding(crate::specs::View::state_of, crate::specs::View::tokens_left))]
    pub(crate) fn accept_unrecorded(
        &mut self,
        kind: TokenKind,
    ) -> Option<&'run SignificantToken<'src>>
        ensures takes { TakesTableToken result (state_of X.answer self.new)
            (reader.accept kind (state_of X.answer self.old)) }
        ensures moves { Moves result self.old self.new }
        ensures table_token { IfSome result (λ table_token. IsOf kind table_token.now) }
    {
        let table_token = self.probe_if(kind)?;
        self.next += 1;
        self.expected_tokens.clear();
        Some(table_token)
    }

    /// Returns the next token if it is of this kind, without taking it. Doesn't add the kind to the
    /// expected tokens.
    #[tactic(auto, unfolding(crate::specs::TableReader::leaves, justfile_model::specs::Readers::ReaderState::accept, justfile_model::specs::Readers::ReaderState::same_kind))]
    pub fn probe_if(&self, kind: TokenKind) -> Option<&'run SignificantToken<'src>>
        ensures within { OnSome result (self.now.next < length self.now.tokens.now) }
        ensures takes { TakesTableToken result (state_from X.answer self.now (self.now.next + 1))
            (reader.accept kind (state_of X.answer self.now)) }
        ensures table_token { IfSome result (λ table_token. IsOf kind table_token.now) }
    {
        match self.peek() {
            Some(table_token @ (token, _)) if token.kind == kind => Some(table_token),
            _ => None,
        }
    }

    /// Returns the next token without taking it, or `None` if no token is left.
    #[tactic(auto, using(crate::proofs::Rest::peeked, crate::proofs::Rest::ended, crate::proofs::Rest::sound_at))]
    pub(crate) fn peek(&self) -> Option<&'run SignificantToken<'src>>
        ensures within { OnSome result (self.now.next < length self.now.tokens.now) }
        ensures peeks { Peeks result (state_of X.answer self.now)
            (state_from X.answer self.now (self.now.next + 1)) }
        ensures sound { IfSome result (λ table_token. IsTrue (is_sound table_token.now)) }
    {
        if self.next < self.tokens.len() {
            Some(&self.tokens[self.next])
        } else {
            None
        }
    }

    /// Whether the next tokens are of these kinds; takes none. If they aren't, adds the first kind
    /// to the expected tokens.
    pub fn peek_kinds(&self, kinds: &[TokenKind]) -> bool
        ensures next { result ≡ reader.next_are kinds.now (state_of X.answer self.now) }
        ensures within { IsTrue result → length kinds.now ≤ tokens_left self.now }
    {
        if self.probe_kinds(kinds) {
            return true;
        }
        self.add_first(kinds);
        false
    }

    /// Adds the first of these kinds to the expected tokens.
    fn add_first(&self, kinds: &[TokenKind]) {
        if let Some(kind) = kinds.first() {
            self.expected_tokens.add(*kind);
        }
    }

    /// Whether the next tokens are of these kinds; takes none, and adds none to the expected
    /// tokens.
    pub fn probe_kinds(&self, kinds: &[TokenKind]) -> bool
        ensures next { result ≡ reader.next_are kinds.now (state_of X.answer self.now) }
        ensures within { IsTrue result → length kinds.now ≤ tokens_left self.now }
    {
        let mut next = self.next;
        for kind in kinds {
            match self.tokens.get(next) {
                Some((token, _)) if token.kind == *kind => next += 1,
                _ => return false,
            }
        }
        true
    }

    /// Returns how many tokens are left.
    #[tactic(auto, unfolding(crate::specs::View::tokens_left))]
    pub(crate) fn count_left(&self) -> usize
        ensures { result ≡ tokens_left self.now }
    {
        self.tokens.len() - self.next
    }

    /// Takes `count` tokens. Requires that as many are left.
    #[tactic(auto, using(crate::proofs::NextKinds::state_skip), unfolding(crate::specs::View::state_of, crate::specs::View::tokens_left))]
    pub fn skip(&mut self, count: usize)
        requires { count ≤ tokens_left self.old }
        ensures rest { state_of X.answer self.new
            ≡ at (state_of X.answer self.old) (drop count (state_of X.answer self.old).left) }
        ensures progress { tokens_left self.new ≤ tokens_left self.old }
    {
        self.next += count;
        self.expected_tokens.clear();
    }
}

/// Whether the token is a string of this kind that is glued to a mark with this word.
#[tactic(auto, unfolding(justfile_model::specs::Readers::ReaderState::same_kind))]
pub(crate) fn is_marked(
    mark: &SignificantToken<'_>,
    word: &str,
    table_token: &SignificantToken<'_>,
    kind: TokenKind,
) -> bool
    ensures marked { result
        ≡ marks word.now kind (significant_of mark.now) (significant_of table_token.now) }
    ensures kind { IsTrue result → table_token.now.0.kind ≡ kind }
{
    let (token, glued) = table_token;
    token.kind == kind && *glued && is_word(mark, word)
}

/// Whether the token is this word. Compares the lengths first, because most names differ in length
/// from the word.
#[tactic(auto, using(crate::proofs::Lengths::unequal), unfolding(justfile_model::specs::Readers::ReaderState::is_word, justfile_model::specs::Readers::ReaderState::same_kind))]
#[inline(always)]
pub fn is_word(table_token: &SignificantToken<'_>, word: &str) -> bool
    ensures word { result ≡ is_word word.now (significant_of table_token.now) }
    ensures kind { IsTrue result → table_token.now.0.kind ≡ kinds.Identifier }
{
    let (token, _) = table_token;
    if token.kind != TokenKind::Identifier {
        return false;
    }
    let lexeme = token.lexeme();
    lexeme.len() == word.len() && lexeme == word
}
