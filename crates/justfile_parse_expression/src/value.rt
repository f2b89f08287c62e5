//! How values are parsed: what can be on either side of an operator. Literals stand in a file of
//! their own.
ghost use Rattle.std.specs.Prelude.{◌≡◌, ◌<◌, ◌≤◌, Err, OnOk, None};
ghost use Rattle.justfile_token.specs.StringKind.{kind_of};
ghost use Rattle.justfile_token.specs.Token.{lexeme_of};
ghost use Rattle.justfile_vocabulary.specs.declared.token_kind.TokenKind.TheVariants as kinds;
ghost use Rattle.justfile_model.specs.Trees.Tree as tree;
ghost use Rattle.justfile_parse_expression.specs.FormatStrings.{IsEndedAt, IsEndedFrom};
ghost use Rattle.justfile_parse_expression.specs.Literal.{IsOf};
ghost use Rattle.justfile_parse_expression.specs.Chains as chains;
ghost use Rattle.justfile_parse_expression.specs.Chains.{negated};
ghost use Rattle.justfile_parse_expression.specs.TableReader as reader;
ghost use Rattle.justfile_parse_expression.specs.MethodResults.{UnlessMemory};
ghost use Rattle.justfile_parse_expression.specs.ParsedResults.{Parses};
ghost use Rattle.justfile_parse_expression.specs.ValueForms as values;
ghost use Rattle.justfile_parse_expression.specs.declared.expression_error.ExpressionError.TheVariants as causes;
ghost use Rattle.justfile_parse_expression.specs.declared.expression_error.SyntaxError.TheVariants.{Unexpected};
ghost use Rattle.justfile_expression.specs.LeafTree.{Literal, Named, format_string_tree, literal_of, leaf_tree_of, trees_of};

use crate::expression_error::{ExpressionError, SyntaxError};
use crate::feature::find_function_feature;
use crate::literal::find_kind;
use crate::parser_state::ParserState;
use crate::significant::SignificantToken;
use justfile_expression::{Expression, ListFeature};
use justfile_model::Level;
use justfile_token::{Expander, Name, StringLiteral, Token};
use justfile_vocabulary::{FormatStringPart, Keyword, TokenKind};

/// The forms of a value without `!`.
#[derive(Clone, Copy)]
pub(crate) enum ValueForm {
    /// A string, a command in backticks, or a format string without interpolations.
    Literal,
    /// A format string with interpolations.
    FormatString,
    Assertion,
    /// A variable or a call.
    Name,
    /// An expression in parentheses.
    Group,
    List,
    /// No value comes next.
    Missing,
}

impl<'run, 'src, X: Expander> ParserState<'run, 'src, X> {
    ghost use Rattle.justfile_parse_expression.specs.View.{tokens_left, state_of};

    /// Parses what can be on either side of an operator: a value after `!`, or a value without
    /// operators outside of delimiters.
    ///
    /// # Errors
    ///
    /// The tokens are refused, a literal has no text, or memory runs out.
    #[cycle(expression)]
    #[tactic(auto, using(crate::proofs::Negations::bare_is))]
    #[inline(never)]
    pub fn parse_value(&mut self) -> Result<Box<Expression<'src>>, ExpressionError<'src>>
        ensures reads { Parses X.answer (λ e. leaf_tree_of e.value) result self.old self.new
            reader.value }
        ensures progress { OnOk result (tokens_left self.new < tokens_left self.old) }
    {
        match self.probe_if(TokenKind::Bang) {
            Some(_bang) => self.parse_negation(),
            None => self.parse_bare(),
        }
    }

    /// Parses a value after any number of `!`.
    #[cycle(expression)]
    #[tactic(auto, unfolding(crate::specs::Chains::negation))]
    #[inline(never)]
    fn parse_negation(&mut self) -> Result<Box<Expression<'src>>, ExpressionError<'src>>
        ensures reads { Parses X.answer (λ e. leaf_tree_of e.value) result self.old self.new
            reader.value }
        ensures progress { OnOk result (tokens_left self.new < tokens_left self.old) }
    {
        let count = self.accept_bangs()?;
        let operand = self.parse_bare()?;
        self.negate(operand, count)
    }

    /// Takes the `!` that come next, notes each, and returns how many there are.
    #[tactic(auto, using(crate::proofs::Negations::begins, crate::proofs::Negations::goes_on, crate::proofs::Negations::ends))]
    fn accept_bangs(&mut self) -> Result<usize, ExpressionError<'src>>
        ensures reads { UnlessMemory result (λ count. reader.value (state_of X.answer self.old)
            ≡ chains.negation count (state_of X.answer self.new)) }
        ensures progress { tokens_left self.new ≤ tokens_left self.old }
    {
        let most = self.count_left();
        let mut count = 0;
        while let Some((bang, _)) = self.accept_unrecorded(TokenKind::Bang) {
            self.note(ListFeature::NegationOperator, *bang)?;
            prove!(count < most);
            count += 1;
        }
        Ok(count)
    }

    /// Negates a value `count` times.
    fn negate(
        &self,
        operand: Box<Expression<'src>>,
        count: usize,
    ) -> Result<Box<Expression<'src>>, ExpressionError<'src>>
        ensures { UnlessMemory result (λ e. leaf_tree_of e.value
            ≡ negated count (leaf_tree_of operand.entry.value)) }
    {
        let mut whole = operand;
        for _bang in 0..count {
            whole = self.box_expression(Expression::Not { operand: whole })?;
        }
        Ok(whole)
    }

    /// Parses a value without `!` before it.
    #[cycle(expression)]
    #[inline(always)]
    fn parse_bare(&mut self) -> Result<Box<Expression<'src>>, ExpressionError<'src>>
        ensures reads { Parses X.answer (λ e. leaf_tree_of e.value) result self.old self.new
            chains.bare }
        ensures progress { OnOk result (tokens_left self.new < tokens_left self.old) }
    {
        match self.value_form() {
            ValueForm::Literal => self.parse_literal(),
            ValueForm::FormatString => self.parse_format(),
            ValueForm::Assertion => self.parse_assert(),
            ValueForm::Name => self.parse_name(),
            ValueForm::Group => self.parse_group(),
            ValueForm::List => self.parse_list(),
            ValueForm::Missing => self.refuse_value(),
        }
    }

    /// Returns the form of the value that comes next, by its first two tokens. Takes none.
    #[tactic(auto, using(crate::proofs::ValueForms::at_string, crate::proofs::ValueForms::at_command, crate::proofs::ValueForms::at_group, crate::proofs::ValueForms::at_list, crate::proofs::ValueForms::at_other, crate::proofs::ValueForms::at_word, crate::proofs::ValueForms::at_end))]
    #[inline(always)]
    fn value_form(&self) -> ValueForm
        ensures { chains.bare (state_of X.answer self.now)
            ≡ values.read_form result (state_of X.answer self.now) }
    {
        let Some((token, _)) = self.peek() else {
            return ValueForm::Missing;
        };
        match token.kind {
            TokenKind::StringToken | TokenKind::Backtick => ValueForm::Literal,
            TokenKind::Identifier => self.form_of_word(),
            TokenKind::ParenL => ValueForm::Group,
            TokenKind::BracketL => ValueForm::List,
            _ => ValueForm::Missing,
        }
    }

    /// Returns the form of the value that begins with the next token, a word: most are names.
    #[tactic(auto, using(crate::proofs::ValueForms::at_expanded, crate::proofs::ValueForms::at_single, crate::proofs::ValueForms::at_format_string, crate::proofs::ValueForms::at_assertion, crate::proofs::ValueForms::at_name))]
    #[inline(always)]
    fn form_of_word(&self) -> ValueForm
        requires { values.BeginsWord (state_of X.answer self.now) }
        ensures { chains.bare (state_of X.answer self.now)
            ≡ values.read_form result (state_of X.answer self.now) }
    {
        if self.peek_marked(Keyword::X, TokenKind::StringToken)
            || self.peek_marked(Keyword::F, TokenKind::StringToken)
        {
            ValueForm::Literal
        } else if self.peek_marked(Keyword::F, TokenKind::FormatStringStart) {
            ValueForm::FormatString
        } else if self.peek_keyword(Keyword::Assert) {
            ValueForm::Assertion
        } else {
            ValueForm::Name
        }
    }

    /// Refuses the next token, which begins no value.
    #[inline(never)]
    pub(crate) fn refuse_value(&self) -> Result<Box<Expression<'src>>, ExpressionError<'src>>
        ensures { result ≡ Err (causes.Refused Unexpected) }
    {
        self.expected_tokens.add_value();
        Err(ExpressionError::Refused(SyntaxError::Unexpected))
    }

    /// Parses a format string with interpolations.
    #[cycle(expression)]
    #[tactic(auto, unfolding(crate::specs::ValueForms::format_string))]
    #[inline(never)]
    fn parse_format(&mut self) -> Result<Box<Expression<'src>>, ExpressionError<'src>>
        ensures reads { Parses X.answer (λ e. leaf_tree_of e.value) result self.old self.new
            values.format_string }
        ensures progress { OnOk result (tokens_left self.new < tokens_left self.old) }
    {
        match self.accept_marked(Keyword::F, TokenKind::FormatStringStart) {
            Some(start) => self.parse_format_string(start),
            None => self.refuse_value(),
        }
    }

    /// Parses a format string, after its start.
    #[cycle(expression)]
    #[tactic(auto, using(crate::proofs::Cooked::framed_start, crate::proofs::Rules::format_string_is))]
    #[inline(never)]
    fn parse_format_string(
        &mut self,
        start: &'run SignificantToken<'src>,
    ) -> Result<Box<Expression<'src>>, ExpressionError<'src>>
        requires start { IsOf kinds.FormatStringStart start.now }
        requires ended { IsEndedFrom (kind_of (lexeme_of start.now.0))
            (state_of X.answer self.old) }
        ensures reads { Parses X.answer (λ e. leaf_tree_of e.value) result self.old self.new
            (λ s. reader.format_string (start.now, s)) }
        ensures progress { OnOk result (tokens_left self.new < tokens_left self.old) }
    {
        let literal = self.cook_part(start, find_kind(start), FormatStringPart::Start)?;
        let expressions = self.parse_parts(start)?;
        self.box_expression(make_format_string(literal, expressions))
    }

    /// Parses the expressions after the start of a format string, each with the part after it.
    #[cycle(expression)]
    #[tactic(auto, using(crate::proofs::Parts::begins, crate::proofs::Parts::goes_on, crate::proofs::Parts::ends, crate::proofs::Parts::stops_at))]
    fn parse_parts(
        &mut self,
        start: &'run SignificantToken<'src>,
    ) -> Result<Vec<(Expression<'src>, StringLiteral<'src>)>, ExpressionError<'src>>
        requires ended { IsEndedFrom (kind_of (lexeme_of start.now.0))
            (state_of X.answer self.old) }
        ensures reads { Parses X.answer (λ parts. format_string_tree parts.items) result
            self.old self.new (reader.format_parts (lexeme_of start.now.0)) }
        ensures progress { OnOk result (tokens_left self.new < tokens_left self.old) }
    {
        let mut parts = Vec::new(self.alloc);
        'parts: loop {
            let (expression, literal, is_last) = self.parse_pair(start)?;
            parts.push((expression, literal))?;
            if is_last {
                return Ok(parts);
            }
        }
    }

    /// Parses an expression of a format string and the part after it. Also returns whether that
    /// part is the last.
    #[cycle(expression)]
    #[tactic(auto, unfolding(crate::specs::TableReader::pair))]
    fn parse_pair(
        &mut self,
        start: &'run SignificantToken<'src>,
    ) -> Result<(Expression<'src>, StringLiteral<'src>, bool), ExpressionError<'src>>
        requires ended { IsEndedFrom (kind_of (lexeme_of start.now.0))
            (state_of X.answer self.old) }
        ensures reads { Parses X.answer (λ x. (leaf_tree_of x.0, Literal (literal_of x.1), x.2))
            result self.old self.new (reader.pair (lexeme_of start.now.0)) }
        ensures progress { OnOk result (tokens_left self.new < tokens_left self.old) }
    {
        let expression = self.parse_level(Level::Expression, false)?;
        let (literal, is_last) = self.parse_part(start)?;
        Ok((Box::into_inner(expression), literal, is_last))
    }

    /// Parses the part of a format string after an expression. Also returns whether it is the last.
    #[tactic(auto, using(crate::proofs::Cooked::framed_continue, crate::proofs::FormatStrings::last_ended, crate::proofs::Rules::part_is))]
    fn parse_part(
        &mut self,
        start: &'run SignificantToken<'src>,
    ) -> Result<(StringLiteral<'src>, bool), ExpressionError<'src>>
        requires ended { IsEndedAt (kind_of (lexeme_of start.now.0))
            (state_of X.answer self.old) }
        ensures reads { Parses X.answer (λ x. (Literal (literal_of x.0), x.1)) result
            self.old self.new (reader.part (lexeme_of start.now.0)) }
        ensures progress { OnOk result (tokens_left self.new < tokens_left self.old) }
    {
        if let Some(table_token) = self.accept(TokenKind::FormatStringContinue) {
            let literal = self.cook_part(
                table_token,
                find_kind(start),
                FormatStringPart::Continue,
            )?;
            return Ok((literal, false));
        }
        let table_token = self.expect(TokenKind::FormatStringEnd)?;
        let literal = self.cook_part(table_token, find_kind(start), FormatStringPart::End)?;
        Ok((literal, true))
    }

    /// Parses an assertion.
    #[cycle(expression)]
    #[tactic(auto, unfolding(crate::specs::ValueForms::assertion))]
    #[inline(never)]
    fn parse_assert(&mut self) -> Result<Box<Expression<'src>>, ExpressionError<'src>>
        ensures reads { Parses X.answer (λ e. leaf_tree_of e.value) result self.old self.new
            values.assertion }
        ensures progress { OnOk result (tokens_left self.new < tokens_left self.old) }
    {
        let Some((word, _)) = self.accept_keyword(Keyword::Assert) else {
            return self.refuse_value();
        };
        let name = Name::from_identifier(*word);
        self.expect(TokenKind::ParenL)?;
        let condition = self.parse_condition()?;
        let Some(_comma) = self.accept(TokenKind::Comma) else {
            self.expect(TokenKind::ParenR)?;
            return self.box_expression(Expression::Assert {
                condition,
                message: None,
                name,
            });
        };
        let message = Some(self.parse_enclosed(TokenKind::ParenR)?);
        self.box_expression(Expression::Assert {
            condition,
            message,
            name,
        })
    }

    /// Parses a call or a variable.
    #[cycle(expression)]
    #[tactic(auto, unfolding(crate::specs::ValueForms::name))]
    #[inline(always)]
    fn parse_name(&mut self) -> Result<Box<Expression<'src>>, ExpressionError<'src>>
        ensures reads { Parses X.answer (λ e. leaf_tree_of e.value) result self.old self.new
            values.name }
        ensures progress { OnOk result (tokens_left self.new < tokens_left self.old) }
    {
        let Some(table_token) = self.accept_unrecorded(TokenKind::Identifier) else {
            return self.refuse_value();
        };
        let Some(_opening) = self.accept(TokenKind::ParenL) else {
            return self.box_variable(table_token);
        };
        self.parse_call(table_token)
    }

    /// Makes the expression for a variable, in a box.
    #[inline(never)]
    fn box_variable(
        &self,
        table_token: &'run SignificantToken<'src>,
    ) -> Result<Box<Expression<'src>>, ExpressionError<'src>>
        requires { table_token.now.0.kind ≡ kinds.Identifier }
        ensures { UnlessMemory result (λ e. leaf_tree_of e.value
            ≡ tree.Variable (Named table_token.now.0 None)) }
    {
        let (token, _) = table_token;
        self.box_expression(Expression::Variable {
            name: Name::from_identifier(*token),
            number: None,
        })
    }

    /// Parses a call of the function with this name, after the opening parenthesis.
    #[cycle(expression)]
    #[tactic(auto, unfolding(crate::specs::TableReader::call))]
    #[inline(never)]
    fn parse_call(
        &mut self,
        table_token: &'run SignificantToken<'src>,
    ) -> Result<Box<Expression<'src>>, ExpressionError<'src>>
        requires { table_token.now.0.kind ≡ kinds.Identifier }
        ensures reads { Parses X.answer (λ e. leaf_tree_of e.value) result self.old self.new
            (reader.call table_token.now) }
        ensures progress { OnOk result (tokens_left self.new < tokens_left self.old) }
    {
        let (token, _) = table_token;
        let arguments = self.parse_sequence(TokenKind::ParenR)?;
        self.note_if(find_function_feature(token.lexeme()), *token)?;
        let name = Name::from_identifier(*token);
        self.box_expression(make_call(name, arguments))
    }

    /// Parses an expression in parentheses.
    #[cycle(expression)]
    #[tactic(auto, unfolding(crate::specs::ValueForms::group))]
    #[inline(never)]
    fn parse_group(&mut self) -> Result<Box<Expression<'src>>, ExpressionError<'src>>
        ensures reads { Parses X.answer (λ e. leaf_tree_of e.value) result self.old self.new
            values.group }
        ensures progress { OnOk result (tokens_left self.new < tokens_left self.old) }
    {
        let Some(_opening) = self.accept_unrecorded(TokenKind::ParenL) else {
            return self.refuse_value();
        };
        let contents = self.parse_enclosed(TokenKind::ParenR)?;
        self.box_expression(Expression::Group { contents })
    }

    /// Parses a list.
    #[cycle(expression)]
    #[tactic(auto, unfolding(justfile_model::specs::Readers::ExpressionReader::list_rule, crate::specs::TableReader::leaves))]
    #[inline(never)]
    fn parse_list(&mut self) -> Result<Box<Expression<'src>>, ExpressionError<'src>>
        ensures reads { Parses X.answer (λ e. leaf_tree_of e.value) result self.old self.new
            reader.list }
        ensures progress { OnOk result (tokens_left self.new < tokens_left self.old) }
    {
        let Some((opener, _)) = self.accept_unrecorded(TokenKind::BracketL) else {
            return self.refuse_value();
        };
        self.note(ListFeature::ListLiteral, *opener)?;
        let elements = self.parse_sequence(TokenKind::BracketR)?;
        self.box_expression(make_list(*opener, elements))
    }

    /// Parses expressions separated by commas, and the closing delimiter.
    ///
    /// # Errors
    ///
    /// The tokens are refused, a literal has no text, or memory runs out.
    #[cycle(expression)]
    #[tactic(auto, using(crate::proofs::Elements::begins, crate::proofs::Elements::goes_on, crate::proofs::Elements::closes, crate::proofs::Elements::closes_last))]
    #[inline(never)]
    pub fn parse_sequence(
        &mut self,
        closing: TokenKind,
    ) -> Result<Vec<Expression<'src>>, ExpressionError<'src>>
        ensures reads { Parses X.answer (λ es. trees_of es.items) result self.old self.new
            (λ s. reader.read (reader.Sequence closing s)) }
        ensures progress { OnOk result (tokens_left self.new < tokens_left self.old) }
    {
        // most lists and calls have at most two elements
        let mut elements = Vec::with_capacity(self.alloc, 2)?;
        'elements: loop {
            if let Some(_closing) = self.accept(closing) {
                return Ok(elements);
            }
            let (element, is_last) = self.parse_element(closing)?;
            elements.push(Box::into_inner(element))?;
            if is_last {
                return Ok(elements);
            }
        }
    }

    /// Parses an element of a sequence. Also returns whether the sequence is closed after it.
    ///
    /// # Errors
    ///
    /// The tokens are refused, a literal has no text, or memory runs out.
    #[cycle(expression)]
    #[tactic(auto, unfolding(justfile_model::specs::Readers::ExpressionReader::element_rule))]
    #[inline(always)]
    pub fn parse_element(
        &mut self,
        closing: TokenKind,
    ) -> Result<(Box<Expression<'src>>, bool), ExpressionError<'src>>
        ensures reads { Parses X.answer (λ x. (leaf_tree_of x.0.value, x.1)) result
            self.old self.new (reader.element closing) }
        ensures progress { OnOk result (tokens_left self.new < tokens_left self.old) }
    {
        let element = self.parse_level(Level::Expression, false)?;
        if let Some(_comma) = self.accept(TokenKind::Comma) {
            return Ok((element, false));
        }
        self.expect(closing)?;
        Ok((element, true))
    }
}

#[tactic(auto, using(crate::proofs::Rows::call_is))]
fn make_call<'src>(name: Name<'src>, arguments: Vec<Expression<'src>>) -> Expression<'src>
    ensures { leaf_tree_of result
        ≡ tree.Call (Named name.entry.token None) (trees_of arguments.entry.items) }
{
    Expression::Call { name, arguments }
}

#[tactic(auto, using(crate::proofs::Rows::list_is))]
fn make_list<'src>(opener: Token<'src>, elements: Vec<Expression<'src>>) -> Expression<'src>
    ensures { leaf_tree_of result ≡ tree.ListOf opener.entry (trees_of elements.entry.items) }
{
    Expression::List { elements, opener }
}

#[tactic(auto, using(crate::proofs::Rows::format_is))]
pub(crate) fn make_format_string<'src>(
    start: StringLiteral<'src>,
    expressions: Vec<(Expression<'src>, StringLiteral<'src>)>,
) -> Expression<'src>
    ensures { leaf_tree_of result
        ≡ format_string_tree expressions.entry.items (Literal (literal_of start.entry)) }
{
    Expression::FormatString { start, expressions }
}
