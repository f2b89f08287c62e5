//! Parsing of literals outside of format strings.
ghost use Rattle.std.specs.Prelude.{◌≡◌, ◌<◌, IsTrue, IfOk, OnOk, Ok, false};
ghost use Rattle.justfile_token.specs.StringKind.{kind_of};
ghost use Rattle.justfile_token.specs.Token.{lexeme_of};
ghost use Rattle.justfile_vocabulary.specs.declared.token_kind.TokenKind.TheVariants as kinds;
ghost use Rattle.justfile_model.specs.LiteralTexts.Literals.{string_text};
ghost use Rattle.justfile_literal.specs.Literal.{is_part};
ghost use Rattle.justfile_parse_expression.specs.Fault.{IsLiteralFault};
ghost use Rattle.justfile_parse_expression.specs.Literal.{IsOf};
ghost use Rattle.justfile_parse_expression.specs.TableReader as reader;
ghost use Rattle.justfile_parse_expression.specs.MethodResults.{IsErrorOfLiteral};
ghost use Rattle.justfile_parse_expression.specs.ParsedResults.{Parses};
ghost use Rattle.justfile_parse_expression.specs.ValueForms as values;
ghost use Rattle.justfile_expression.specs.LeafTree.{Literal, literal_of, leaf_tree_of};

use crate::expression_error::{ExpressionError, LiteralError};
use crate::parser_state::ParserState;
use crate::significant::SignificantToken;
use crate::value::make_format_string;
use justfile_expression::Expression;
use justfile_literal::{command, format_part, string_literal, verbatim_text};
use justfile_token::{Expander, Fault, StringKind, StringLiteral};
use justfile_vocabulary::{FormatStringPart, Keyword, TokenKind};
use std::alloc::Global;

impl<'run, 'src, X: Expander> ParserState<'run, 'src, X> {
    ghost use Rattle.justfile_parse_expression.specs.View.{tokens_left};

    /// Parses a literal.
    #[tactic(auto, unfolding(crate::specs::ValueForms::literal))]
    #[inline(never)]
    pub(crate) fn parse_literal(&mut self) -> Result<Box<Expression<'src>>, ExpressionError<'src>>
        ensures reads { Parses X.answer (λ e. leaf_tree_of e.value) result self.old self.new
            values.literal }
        ensures progress { OnOk result (tokens_left self.new < tokens_left self.old) }
    {
        if let Some(table_token) = self.accept_unrecorded(TokenKind::StringToken) {
            return self.cook_string(table_token, false);
        }
        if let Some(table_token) = self.accept_marked(Keyword::X, TokenKind::StringToken) {
            return self.cook_string(table_token, true);
        }
        if let Some(table_token) = self.accept_marked(Keyword::F, TokenKind::StringToken) {
            return self.cook_single(table_token);
        }
        match self.accept_unrecorded(TokenKind::Backtick) {
            Some(table_token) => self.cook_backtick(table_token),
            None => self.refuse_value(),
        }
    }

    /// Makes the expression for a string.
    #[inline(always)]
    #[tactic(auto, using(crate::proofs::Cooked::quoted_string))]
    fn cook_string(
        &self,
        table_token: &'run SignificantToken<'src>,
        expand: bool,
    ) -> Result<Box<Expression<'src>>, ExpressionError<'src>>
        requires { IsOf kinds.StringToken table_token.now }
        ensures reads { Parses X.answer (λ e. leaf_tree_of e.value) result self.now self.now
            (λ s. reader.literal_string expand (table_token.now, s)) }
    {
        if !expand {
            let (token, _) = table_token;
            if let Some(text) = verbatim_text(token.lexeme()) {
                return self.box_verbatim(table_token, text);
            }
        }
        self.box_cooked(table_token, expand)
    }

    /// Makes the expression for a string whose text has to be cooked or expanded. It isn't inlined,
    /// since most strings need neither.
    #[inline(never)]
    #[tactic(auto, using(crate::proofs::Rules::string_is))]
    fn box_cooked(
        &self,
        table_token: &'run SignificantToken<'src>,
        expand: bool,
    ) -> Result<Box<Expression<'src>>, ExpressionError<'src>>
        requires { IsOf kinds.StringToken table_token.now }
        ensures reads { Parses X.answer (λ e. leaf_tree_of e.value) result self.now self.now
            (λ s. reader.literal_string expand (table_token.now, s)) }
    {
        let string_literal = self.cook_literal(table_token, expand)?;
        self.box_expression(Expression::StringLiteral { string_literal })
    }

    /// Makes the expression for a string whose text is this one, which is between its quotes.
    #[inline(always)]
    #[tactic(auto, using(crate::proofs::Rules::string_is))]
    fn box_verbatim(
        &self,
        table_token: &'run SignificantToken<'src>,
        text: &str,
    ) -> Result<Box<Expression<'src>>, ExpressionError<'src>>
        requires { string_text (lexeme_of table_token.now.0) ≡ Ok text.now }
        ensures reads { Parses X.answer (λ e. leaf_tree_of e.value) result self.now self.now
            (λ s. reader.literal_string false (table_token.now, s)) }
    {
        let string_literal = self.copy_literal(table_token, text)?;
        self.box_expression(Expression::StringLiteral { string_literal })
    }

    /// Makes the literal for a string whose text is this one, which is between its quotes.
    #[inline(always)]
    #[tactic(auto, using(crate::proofs::Cooked::verbatim_given))]
    fn copy_literal(
        &self,
        table_token: &'run SignificantToken<'src>,
        text: &str,
    ) -> Result<StringLiteral<'src>, ExpressionError<'src>>
        requires { string_text (lexeme_of table_token.now.0) ≡ Ok text.now }
        ensures reads { Parses X.answer (λ l. Literal (literal_of l)) result self.now self.now
            (λ s. reader.string_leaf false (table_token.now, s)) }
        ensures expand { IfOk result (λ l. l.expand ≡ false) }
    {
        let (token, _) = table_token;
        let cooked = text.to_string(self.alloc)?;
        Ok(StringLiteral {
            cooked,
            expand: false,
            kind: find_kind(table_token),
            part: None,
            token: *token,
        })
    }

    /// Makes the literal for a string, with its text expanded if `expand`. Requires that the token
    /// is a string.
    ///
    /// # Errors
    ///
    /// The literal has no text, or memory runs out.
    #[tactic(auto, using(crate::proofs::Cooked::quoted_string, crate::proofs::Cooked::string_given, crate::proofs::Cooked::string_refused, crate::proofs::Cooked::is_literal))]
    pub fn cook_literal(
        &self,
        table_token: &'run SignificantToken<'src>,
        expand: bool,
    ) -> Result<StringLiteral<'src>, ExpressionError<'src>>
        requires { IsOf kinds.StringToken table_token.now }
        ensures reads { Parses X.answer (λ l. Literal (literal_of l)) result self.now self.now
            (λ s. reader.string_leaf expand (table_token.now, s)) }
        ensures expand { IfOk result (λ l. l.expand ≡ expand) }
    {
        let (token, _) = table_token;
        match string_literal(self.alloc, *token, expand, self.expander) {
            Ok(literal) => Ok(literal),
            Err(fault) => Err(literal_error(self.alloc, fault)),
        }
    }

    /// Makes the expression for a backtick.
    #[tactic(auto, using(crate::proofs::Cooked::quoted_command, crate::proofs::Cooked::command_given, crate::proofs::Cooked::command_refused, crate::proofs::Cooked::command_is_literal))]
    fn cook_backtick(
        &self,
        table_token: &'run SignificantToken<'src>,
    ) -> Result<Box<Expression<'src>>, ExpressionError<'src>>
        requires { IsOf kinds.Backtick table_token.now }
        ensures reads { Parses X.answer (λ e. leaf_tree_of e.value) result self.now self.now
            (λ s. reader.backtick (table_token.now, s)) }
    {
        let (token, _) = table_token;
        match command(self.alloc, *token) {
            Ok(contents) => Ok(self.box_expression(Expression::Backtick {
                contents,
                token: *token,
            })?),
            Err(fault) => Err(literal_error(self.alloc, fault)),
        }
    }

    /// Makes the expression for a format string without interpolations.
    #[tactic(auto, using(crate::proofs::Cooked::framed_single, crate::proofs::Rules::single_is))]
    fn cook_single(
        &self,
        table_token: &'run SignificantToken<'src>,
    ) -> Result<Box<Expression<'src>>, ExpressionError<'src>>
        requires { IsOf kinds.StringToken table_token.now }
        ensures reads { Parses X.answer (λ e. leaf_tree_of e.value) result self.now self.now
            (λ s. reader.whole_format_string (table_token.now, s)) }
    {
        let literal = self.cook_part(
            table_token,
            find_kind(table_token),
            FormatStringPart::Single,
        )?;
        self.box_expression(make_format_string(literal, Vec::new(self.alloc)))
    }

    /// Makes a part of a format string with delimiters of this kind.
    #[tactic(auto, using(crate::proofs::Cooked::part_given, crate::proofs::Cooked::part_refused, crate::proofs::Cooked::is_literal))]
    pub(crate) fn cook_part(
        &self,
        table_token: &'run SignificantToken<'src>,
        kind: StringKind,
        part: FormatStringPart,
    ) -> Result<StringLiteral<'src>, ExpressionError<'src>>
        requires framed { IsTrue (is_part kind part (lexeme_of table_token.now.0)) }
        ensures reads { Parses X.answer (λ l. Literal (literal_of l)) result self.now self.now
            (λ s. reader.part_by kind part (table_token.now, s)) }
    {
        let (token, _) = table_token;
        match format_part(self.alloc, *token, kind, part) {
            Ok(literal) => Ok(literal),
            Err(fault) => Err(literal_error(self.alloc, fault)),
        }
    }
}

/// Returns how the literal is delimited.
pub(crate) fn find_kind(table_token: &SignificantToken<'_>) -> StringKind
    ensures { result ≡ kind_of (lexeme_of table_token.now.0) }
{
    let (token, _) = table_token;
    StringKind::of_opening(token.lexeme().as_bytes())
}

/// Makes the error for the fault of a literal. It is `Memory` if there is no memory for its box.
fn literal_error<'src>(alloc: Global, fault: Fault<'src>) -> ExpressionError<'src>
    requires { IsLiteralFault fault }
    ensures { IsErrorOfLiteral result fault.entry }
{
    match fault {
        Fault::Compile(error) => match Box::new(alloc, LiteralError { error }) {
            Ok(refused) => ExpressionError::Literal(refused),
            Err(_failed) => ExpressionError::Memory,
        },
        Fault::Memory => ExpressionError::Memory,
        Fault::Numbers => ExpressionError::Numbers,
    }
}
