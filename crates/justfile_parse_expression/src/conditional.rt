//! How conditionals are parsed, and the conditions of `if` and `assert`.
ghost use Rattle.std.specs.Prelude.{◌≡◌, ◌<◌, OnOk};
ghost use Rattle.justfile_model.specs.Grammars.Expressions.{ends_open};
ghost use Rattle.justfile_model.specs.Trees.Tree as tree;
ghost use Rattle.justfile_parse_expression.specs.Chains as chains;
ghost use Rattle.justfile_parse_expression.specs.Chains.{branch_of, link_of};
ghost use Rattle.justfile_parse_expression.specs.TableReader as reader;
ghost use Rattle.justfile_parse_expression.specs.MethodResults.{UnlessMemory};
ghost use Rattle.justfile_parse_expression.specs.ParsedResults.{Parses};
ghost use Rattle.justfile_expression.specs.LeafTree.{leaf_tree_of};

use crate::expression::Link;
use crate::expression_error::{ExpressionError, SyntaxError};
use crate::parser_state::{ParserState, is_word};
use crate::significant::SignificantToken;
use justfile_expression::{Expression, ListFeature};
use justfile_model::Level;
use justfile_token::Expander;
use justfile_vocabulary::{Keyword, TokenKind};

/// What comes next in a conditional: its end, or a branch and the `if` after it.
#[derive(Drop)]
pub(crate) enum Branch<'run, 'src> {
    Last(Box<Expression<'src>>),
    Next(Link<'run, 'src>, &'run SignificantToken<'src>),
}

impl<'run, 'src, X: Expander> ParserState<'run, 'src, X> {
    ghost use Rattle.justfile_parse_expression.specs.View.{tokens_left};

    /// Parses a conditional, after its `if`.
    #[cycle(expression)]
    #[tactic(auto, using(crate::proofs::Branches::conditional_is))]
    #[inline(never)]
    pub(crate) fn parse_conditional(
        &mut self,
        word: &'run SignificantToken<'src>,
    ) -> Result<Box<Expression<'src>>, ExpressionError<'src>>
        ensures reads { Parses X.answer (λ e. leaf_tree_of e.value) result self.old self.new
            (λ s. reader.read (reader.Conditional word.now s)) }
        ensures progress { OnOk result (tokens_left self.new < tokens_left self.old) }
    {
        match self.parse_branch(word)? {
            Branch::Last(last) => Ok(last),
            Branch::Next(link, next) => self.parse_branches(link, next),
        }
    }

    /// Parses the conditional that is the `else` branch of a link, after its `if`, and joins it
    /// with the link. Such branches can follow one another in any number.
    #[cycle(expression)]
    #[tactic(auto, using(crate::proofs::Chains::begins, crate::proofs::Branches::goes_on, crate::proofs::Branches::ends, crate::proofs::Branches::stops))]
    #[inline(never)]
    fn parse_branches(
        &mut self,
        first: Link<'run, 'src>,
        word: &'run SignificantToken<'src>,
    ) -> Result<Box<Expression<'src>>, ExpressionError<'src>>
        ensures reads { Parses X.answer (λ e. leaf_tree_of e.value) result self.old self.new
            (chains.branches (link_of first.entry) word.now) }
        ensures progress { OnOk result (tokens_left self.new < tokens_left self.old) }
    {
        let mut chain = Vec::new(self.alloc);
        let mut link = first;
        let mut word = *word;
        'branches: loop {
            match self.parse_branch(&word)? {
                Branch::Last(last) => return self.join_chain(chain, link, last, Level::Conjunct),
                Branch::Next(next, after) => {
                    chain.push(link)?;
                    link = next;
                    word = *after;
                }
            }
        }
    }

    /// Parses the next part of a conditional, after an `if`.
    #[cycle(expression)]
    #[tactic(auto, unfolding(crate::specs::Chains::branch))]
    fn parse_branch(
        &mut self,
        word: &SignificantToken<'src>,
    ) -> Result<Branch<'run, 'src>, ExpressionError<'src>>
        ensures reads { Parses X.answer branch_of result self.old self.new
            (chains.branch word.now) }
        ensures progress { OnOk result (tokens_left self.new < tokens_left self.old) }
    {
        let condition = self.parse_condition()?;
        let then = self.parse_braced()?;
        let Some(_else) = self.accept_keyword(Keyword::Else) else {
            let (token, _) = word;
            self.note(ListFeature::IfWithoutElse, *token)?;
            return self.end_if(condition, then);
        };
        let Some(word) = self.accept_keyword(Keyword::If) else {
            let otherwise = self.parse_last_branch()?;
            return self.make_conditional(condition, then, otherwise);
        };
        Ok(Branch::Next(Link::Branch { condition, then }, word))
    }

    /// Makes a conditional without `else`.
    fn end_if(
        &self,
        condition: Box<Expression<'src>>,
        then: Box<Expression<'src>>,
    ) -> Result<Branch<'run, 'src>, ExpressionError<'src>>
        ensures { UnlessMemory result (λ branch. branch_of branch ≡ chains.End
            (tree.If (leaf_tree_of condition.entry.value) (leaf_tree_of then.entry.value))) }
    {
        let end = self.box_expression(Expression::Conditional {
            condition,
            then,
            otherwise: None,
        })?;
        Ok(Branch::Last(end))
    }

    /// Makes a conditional whose `else` branch is in braces.
    fn make_conditional(
        &self,
        condition: Box<Expression<'src>>,
        then: Box<Expression<'src>>,
        otherwise: Box<Expression<'src>>,
    ) -> Result<Branch<'run, 'src>, ExpressionError<'src>>
        ensures { UnlessMemory result (λ branch. branch_of branch
            ≡ chains.End (tree.IfElse (leaf_tree_of condition.entry.value)
            (leaf_tree_of then.entry.value) (leaf_tree_of otherwise.entry.value))) }
    {
        let end = self.box_expression(Expression::Conditional {
            condition,
            then,
            otherwise: Some(otherwise),
        })?;
        Ok(Branch::Last(end))
    }

    /// Parses the `else` branch of a conditional, after `else`, if it is in braces.
    #[cycle(expression)]
    #[tactic(auto, unfolding(crate::specs::Chains::last_branch))]
    fn parse_last_branch(&mut self) -> Result<Box<Expression<'src>>, ExpressionError<'src>>
        ensures reads { Parses X.answer (λ e. leaf_tree_of e.value) result self.old self.new
            chains.last_branch }
        ensures progress { OnOk result (tokens_left self.new < tokens_left self.old) }
    {
        let otherwise = self.parse_braced()?;
        self.expect_no_else(&otherwise)?;
        Ok(otherwise)
    }

    /// Parses the condition of an `if` or `assert`. Notes it at its first token if it isn't a
    /// comparison.
    #[cycle(expression)]
    #[tactic(auto, using(crate::proofs::Rules::note_is), unfolding(justfile_model::specs::Readers::ExpressionReader::condition_rule))]
    pub(crate) fn parse_condition(&mut self) -> Result<Box<Expression<'src>>, ExpressionError<'src>>
        ensures reads { Parses X.answer (λ e. leaf_tree_of e.value) result self.old self.new
            reader.condition }
        ensures progress { OnOk result (tokens_left self.new < tokens_left self.old) }
    {
        let first = self.peek_front();
        let condition = self.parse_level(Level::Expression, true)?;
        self.note_condition(&condition, first)?;
        Ok(condition)
    }

    /// Parses an expression between braces.
    #[cycle(expression)]
    #[tactic(auto, using(crate::proofs::Rules::braced_is))]
    fn parse_braced(&mut self) -> Result<Box<Expression<'src>>, ExpressionError<'src>>
        ensures reads { Parses X.answer (λ e. leaf_tree_of e.value) result self.old self.new
            reader.braced }
        ensures progress { OnOk result (tokens_left self.new < tokens_left self.old) }
    {
        self.expect(TokenKind::BraceL)?;
        self.parse_enclosed(TokenKind::BraceR)
    }

    /// Refuses an `else` after a branch that ends in a conditional without `else`.
    #[tactic(auto, unfolding(justfile_model::specs::Readers::ReaderState::accept_keyword, justfile_model::specs::Readers::ReaderState::refused, crate::specs::TableReader::leaves))]
    fn expect_no_else(&self, branch: &Expression<'src>) -> Result<(), ExpressionError<'src>>
        ensures reads { Parses X.answer (λ _. leaf_tree_of branch.now) result self.now self.now
            (reader.ended_by (ends_open (leaf_tree_of branch.now)) (leaf_tree_of branch.now)) }
    {
        if !ends_open(branch) {
            return Ok(());
        }
        match self.peek() {
            Some(table_token) if is_word(table_token, Keyword::Else.lexeme()) => {
                self.expected_tokens.add_operators_to(Level::Expression);
                Err(ExpressionError::Refused(SyntaxError::Unexpected))
            }
            _ => Ok(()),
        }
    }
}

/// Whether the expression is a conditional whose chain of `else` branches ends in a conditional
/// without `else`.
#[tactic(auto, using(crate::proofs::Shapes::assert_ends, crate::proofs::Shapes::format_ends, crate::proofs::Shapes::join_ends))]
fn ends_open(expression: &Expression<'_>) -> bool
    ensures { result ≡ ends_open (leaf_tree_of expression.now) }
{
    let mut last = expression;
    'branches: loop {
        match last {
            Expression::Conditional { otherwise, .. } => match otherwise {
                None => return true,
                Some(other) => last = &**other,
            },
            Expression::And { .. }
            | Expression::Assert { .. }
            | Expression::Backtick { .. }
            | Expression::Call { .. }
            | Expression::Comparison { .. }
            | Expression::Concatenation { .. }
            | Expression::FormatString { .. }
            | Expression::Group { .. }
            | Expression::Join { .. }
            | Expression::List { .. }
            | Expression::ListConcatenation { .. }
            | Expression::Not { .. }
            | Expression::Or { .. }
            | Expression::StringLiteral { .. }
            | Expression::Variable { .. } => return false,
        }
    }
}
