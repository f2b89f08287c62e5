//! How expressions are parsed: the operators of each level and their operands.
//!
//! Constructs that can nest to the right without limit are parsed in loops, as a chain of links: each
//! link holds what comes before its right side.
ghost use Rattle.std.specs.Prelude.{◌≡◌, ◌<◌, ◌≤◌, IsTrue, false, Ok, OnOk, IfSome, IfNone, Some, None};
ghost use Rattle.justfile_model.specs.Readers.ExpressionReader.{closed};
ghost use Rattle.justfile_model.specs.Trees.Operators.{is_binary};
ghost use Rattle.justfile_parse_expression.specs.Chains as chains;
ghost use Rattle.justfile_parse_expression.specs.Chains.{link_of, chain_closed, chain_tree, step_of};
ghost use Rattle.justfile_parse_expression.specs.TableReader as reader;
ghost use Rattle.justfile_parse_expression.specs.MethodResults.{UnlessMemory};
ghost use Rattle.justfile_parse_expression.specs.ParsedResults.{Parses};
ghost use Rattle.justfile_expression.specs.LeafTree.{leaf_tree_of};
ghost use Rattle.justfile_model.specs.declared.level.Level.TheVariants as levels;

use crate::expression_error::{ExpressionError, SyntaxError};
use crate::operator::{find_feature, find_left_level, find_operator, is_at, make_operation};
use crate::parser_state::ParserState;
use crate::significant::SignificantToken;
use justfile_expression::Expression;
use justfile_model::{Level, Operator};
use justfile_token::{Expander, Token};
use justfile_vocabulary::{Keyword, TokenKind};

/// The usual limit of depth: how many expressions may be nested in one another.
pub const RECURSION_LIMIT: usize = 256;

/// What an expression consists of besides its right side.
#[derive(Drop)]
pub(crate) enum Link<'run, 'src> {
    Operation {
        lhs: Box<Expression<'src>>,
        operator: Operator,
        token: &'run Token<'src>,
    },
    /// A `/` without a left side.
    Root {
        token: &'run Token<'src>,
    },
    /// A conditional up to its `else` branch.
    Branch {
        condition: Box<Expression<'src>>,
        then: Box<Expression<'src>>,
    },
}

/// What comes next in a chain: its last expression, or a link, after which the chain goes on.
#[derive(Drop)]
pub(crate) enum Step<'run, 'src> {
    Last(Box<Expression<'src>>),
    Next(Link<'run, 'src>),
}

impl<'run, 'src, X: Expander> ParserState<'run, 'src, X> {
    ghost use Rattle.justfile_parse_expression.specs.View.{Moves, tokens_left, state_of};

    /// Parses an expression, and returns it in a box.
    ///
    /// # Errors
    ///
    /// The tokens are refused, a literal has no text, or memory runs out.
    pub fn parse_expression(&mut self) -> Result<Box<Expression<'src>>, ExpressionError<'src>>
        ensures reads { Parses X.answer (λ e. leaf_tree_of e.value) result self.old self.new
            (λ s. reader.read (reader.At levels.Expression false s)) }
        ensures progress { OnOk result (tokens_left self.new < tokens_left self.old) }
    {
        self.parse_level(Level::Expression, false)
    }

    /// Parses an expression of a level that has operators. `condition` tells whether it is a
    /// condition.
    #[cycle(expression)]
    #[tactic(auto, using(crate::proofs::Operators::level_is))]
    pub(crate) fn parse_level(
        &mut self,
        level: Level,
        condition: bool,
    ) -> Result<Box<Expression<'src>>, ExpressionError<'src>>
        requires { IsTrue (is_binary level) }
        ensures reads { Parses X.answer (λ e. leaf_tree_of e.value) result self.old self.new
            (λ s. reader.read (reader.At level condition s)) }
        ensures progress { OnOk result (tokens_left self.new < tokens_left self.old) }
    {
        self.enter(level)?;
        let conjunct = self.parse_conjunct(condition)?;
        self.parse_operations(conjunct, level, condition)
    }

    /// Parses an expression without comparisons, `&&` and `||`: a conditional, or operands joined
    /// by `/`, `+` or `++`, which `/` may precede.
    #[cycle(expression)]
    #[tactic(auto, using(crate::proofs::Operators::conjunct_is))]
    fn parse_conjunct(
        &mut self,
        condition: bool,
    ) -> Result<Box<Expression<'src>>, ExpressionError<'src>>
        ensures reads { Parses X.answer (λ e. leaf_tree_of e.value) result self.old self.new
            (λ s. reader.read (reader.At levels.Conjunct condition s)) }
        ensures progress { OnOk result (tokens_left self.new < tokens_left self.old) }
    {
        if let Some(word) = self.accept_keyword(Keyword::If) {
            return self.parse_conditional(word);
        }
        let Some((token, _)) = self.accept(TokenKind::Slash) else {
            let lhs = self.parse_value()?;
            return self.parse_operation(lhs, Level::Conjunct, condition);
        };
        self.parse_chain(Link::Root { token }, Level::Conjunct)
    }

    /// Parses the right side of an operator of a level, and joins it with its link. Operators of
    /// one level nest to the right, so the right side is a chain of any length.
    #[cycle(expression)]
    #[tactic(auto, using(crate::proofs::Chains::begins, crate::proofs::Chains::goes_on, crate::proofs::Chains::ends, crate::proofs::Chains::stops))]
    #[inline(never)]
    fn parse_chain(
        &mut self,
        first: Link<'run, 'src>,
        level: Level,
    ) -> Result<Box<Expression<'src>>, ExpressionError<'src>>
        ensures reads { Parses X.answer (λ e. leaf_tree_of e.value) result self.old self.new
            (chains.chain level (link_of first.entry)) }
        ensures progress { OnOk result (tokens_left self.new ≤ tokens_left self.old) }
    {
        let mut chain = Vec::new(self.alloc);
        let mut link = first;
        'chain: loop {
            match self.parse_step(level)? {
                Step::Last(last) => return self.join_chain(chain, link, last, level),
                Step::Next(next) => {
                    chain.push(link)?;
                    link = next;
                }
            }
        }
    }

    /// Parses the next part of a chain, after an operator of the level. Comparisons don't form chains.
    #[cycle(expression)]
    #[tactic(auto, unfolding(crate::specs::Chains::step))]
    fn parse_step(&mut self, level: Level) -> Result<Step<'run, 'src>, ExpressionError<'src>>
        ensures reads { Parses X.answer step_of result self.old self.new (chains.step level) }
        ensures progress { OnOk result (tokens_left self.new < tokens_left self.old) }
    {
        match level {
            Level::Conjunct => self.parse_operand(),
            Level::Value => Ok(Step::Last(self.parse_value()?)),
            Level::Compared => Ok(Step::Last(self.parse_conjunct(false)?)),
            Level::Expression | Level::Disjunct => {
                self.enter(level)?;
                let lhs = self.parse_level(find_left_level(level), false)?;
                self.parse_link(lhs, level)
            }
        }
    }

    /// Parses an operand and the operator after it, if there is one. Where a `/` may come first, an
    /// `if` begins a conditional.
    #[cycle(expression)]
    #[tactic(auto, unfolding(crate::specs::Chains::operand_step))]
    fn parse_operand(&mut self) -> Result<Step<'run, 'src>, ExpressionError<'src>>
        ensures reads { Parses X.answer step_of result self.old self.new chains.operand_step }
        ensures progress { OnOk result (tokens_left self.new < tokens_left self.old) }
    {
        if let Some(word) = self.accept_keyword(Keyword::If) {
            return Ok(Step::Last(self.parse_conditional(word)?));
        }
        if let Some((token, _)) = self.accept(TokenKind::Slash) {
            return Ok(Step::Next(Link::Root { token }));
        }
        let lhs = self.parse_value()?;
        self.parse_link(lhs, Level::Conjunct)
    }

    /// Takes the operator of the level after a left side, if there is one, and notes its feature.
    /// Returns both as a link, or the left side as the last expression.
    #[tactic(auto, unfolding(crate::specs::Chains::link, crate::specs::TableReader::leaves))]
    #[inline(always)]
    fn parse_link(
        &mut self,
        lhs: Box<Expression<'src>>,
        level: Level,
    ) -> Result<Step<'run, 'src>, ExpressionError<'src>>
        ensures reads { Parses X.answer step_of result self.old self.new
            (λ s. chains.link level (leaf_tree_of lhs.entry.value, s)) }
        ensures progress { OnOk result (tokens_left self.new ≤ tokens_left self.old) }
    {
        let Some((operator, (token, _))) = self.accept_operator(level) else {
            self.expected_tokens.add_operators(level);
            return Ok(Step::Last(lhs));
        };
        self.note_if(find_feature(operator, false), *token)?;
        Ok(Step::Next(Link::Operation {
            lhs,
            operator,
            token,
        }))
    }

    /// Parses the operators of the levels from comparisons up to this one after a conjunct, each
    /// with its right side. Most expressions have none.
    #[cycle(expression)]
    #[tactic(auto, using(crate::proofs::Operators::operations_end), unfolding(crate::specs::TableReader::operations))]
    fn parse_operations(
        &mut self,
        lhs: Box<Expression<'src>>,
        level: Level,
        condition: bool,
    ) -> Result<Box<Expression<'src>>, ExpressionError<'src>>
        ensures reads { Parses X.answer (λ e. leaf_tree_of e.value) result self.old self.new
            (λ s. reader.operations level condition (leaf_tree_of lhs.entry.value, s)) }
        ensures progress { OnOk result (tokens_left self.new ≤ tokens_left self.old) }
    {
        let Some(_operator) = self.peek_operator() else {
            self.expected_tokens.add_operators_to(level);
            self.leave(level);
            return Ok(lhs);
        };
        match level {
            Level::Conjunct | Level::Value => Ok(lhs),
            Level::Expression | Level::Disjunct | Level::Compared => {
                let lhs = self.parse_operations(lhs, find_left_level(level), condition)?;
                self.parse_operation(lhs, level, condition)
            }
        }
    }

    /// Parses an operator of a level after its left side, and its right side. Returns the left side
    /// alone if there is no such operator.
    #[cycle(expression)]
    #[tactic(auto, unfolding(crate::specs::TableReader::operation, crate::specs::TableReader::leaves, crate::specs::Chains::chain))]
    #[inline(always)]
    fn parse_operation(
        &mut self,
        lhs: Box<Expression<'src>>,
        level: Level,
        condition: bool,
    ) -> Result<Box<Expression<'src>>, ExpressionError<'src>>
        requires { IsTrue (is_binary level) }
        ensures reads { Parses X.answer (λ e. leaf_tree_of e.value) result self.old self.new
            (λ s. reader.operation level condition (leaf_tree_of lhs.entry.value, s)) }
        ensures progress { OnOk result (tokens_left self.new ≤ tokens_left self.old) }
    {
        let Some((operator, (token, _))) = self.accept_operator(level) else {
            self.expected_tokens.add_operators(level);
            self.leave(level);
            return Ok(lhs);
        };
        self.note_if(find_feature(operator, condition), *token)?;
        self.parse_chain(
            Link::Operation {
                lhs,
                operator,
                token,
            },
            level,
        )
    }

    /// Parses an expression and the closing delimiter after it.
    ///
    /// # Errors
    ///
    /// The tokens are refused, a literal has no text, or memory runs out.
    #[cycle(expression)]
    #[tactic(auto, unfolding(crate::specs::TableReader::enclosed))]
    pub fn parse_enclosed(
        &mut self,
        closing: TokenKind,
    ) -> Result<Box<Expression<'src>>, ExpressionError<'src>>
        ensures reads { Parses X.answer (λ e. leaf_tree_of e.value) result self.old self.new
            (reader.enclosed closing) }
        ensures progress { OnOk result (tokens_left self.new < tokens_left self.old) }
    {
        let expression = self.parse_level(Level::Expression, false)?;
        self.expect(closing)?;
        Ok(expression)
    }

    /// Joins the links of a chain with its last expression: first `link`, the last one, which isn't
    /// in the vector, and then those in it, from the last to the first. Closes the expression that
    /// each link is part of.
    #[tactic(auto, using(crate::proofs::Chains::chain_pushed, crate::proofs::Chains::closed_pushed))]
    pub(crate) fn join_chain(
        &mut self,
        chain: Vec<Link<'run, 'src>>,
        link: Link<'run, 'src>,
        last: Box<Expression<'src>>,
        level: Level,
    ) -> Result<Box<Expression<'src>>, ExpressionError<'src>>
        ensures reads { Parses X.answer (λ e. leaf_tree_of e.value) result self.old self.new
            (λ s. Ok (
              chain_tree chain.entry.items (link_of link.entry (leaf_tree_of last.entry.value)),
              chain_closed level chain.entry.items (closed level (closed level s)),
            )) }
        ensures stays { OnOk result (tokens_left self.new ≡ tokens_left self.old) }
    {
        self.leave(level);
        let mut whole = self.join_link(link, last, level)?;
        let mut chain = chain;
        while let Some(link) = chain.pop() {
            whole = self.join_link(link, whole, level)?;
        }
        Ok(whole)
    }

    /// Joins a link with its right side, and closes the expression that the link is part of.
    #[inline(always)]
    fn join_link(
        &mut self,
        link: Link<'run, 'src>,
        rhs: Box<Expression<'src>>,
        level: Level,
    ) -> Result<Box<Expression<'src>>, ExpressionError<'src>>
        ensures tree { UnlessMemory result (λ e. leaf_tree_of e.value
            ≡ link_of link.entry (leaf_tree_of rhs.entry.value)) }
        ensures closed { state_of X.answer self.new ≡ closed level (state_of X.answer self.old) }
        ensures stays { tokens_left self.new ≡ tokens_left self.old }
    {
        self.leave(level);
        self.box_expression(make_link(link, rhs))
    }

    /// Opens an expression if this is the level of whole expressions; operands aren't counted.
    ///
    /// # Errors
    ///
    /// Too many expressions are open.
    #[tactic(auto, unfolding(crate::specs::TableReader::enter, crate::specs::View::state_at, crate::specs::View::state_of, crate::specs::View::tokens_left))]
    fn enter(&mut self, level: Level) -> Result<(), ExpressionError<'src>>
        ensures reads { Parses X.answer (λ done. done) result self.old self.new
            (reader.enter level) }
        ensures stays { tokens_left self.new ≡ tokens_left self.old }
    {
        if matches!(level, Level::Expression) {
            if self.depth == self.limit {
                return Err(ExpressionError::Refused(SyntaxError::TooDeep));
            }
            self.depth += 1;
        }
        Ok(())
    }

    /// Closes an expression if this is the level of whole expressions.
    #[tactic(auto, unfolding(crate::specs::View::state_at, crate::specs::View::state_of, crate::specs::View::tokens_left))]
    fn leave(&mut self, level: Level)
        ensures closed { state_of X.answer self.new ≡ closed level (state_of X.answer self.old) }
        ensures stays { tokens_left self.new ≡ tokens_left self.old }
    {
        if matches!(level, Level::Expression) {
            self.depth = self.depth.saturating_sub(1);
        }
    }

    /// Moves an expression into a box.
    #[inline(always)]
    pub(crate) fn box_expression(
        &self,
        expression: Expression<'src>,
    ) -> Result<Box<Expression<'src>>, ExpressionError<'src>>
        ensures { UnlessMemory result (λ e. e.value ≡ expression.entry) }
    {
        match Box::new(self.alloc, expression) {
            Ok(expression) => Ok(expression),
            Err(_failed) => Err(ExpressionError::Memory),
        }
    }

    /// Takes the next token if it is an operator of the level.
    #[tactic(auto, unfolding(justfile_model::specs::Readers::ExpressionReader::accept_operator, crate::specs::TableReader::leaves, crate::specs::View::state_of, crate::specs::View::tokens_left))]
    #[inline(always)]
    fn accept_operator(&mut self, level: Level) -> Option<(Operator, &'run SignificantToken<'src>)>
        ensures some { IfSome result (λ found.
            reader.accept_operator level (state_of X.answer self.old)
            ≡ Some (found.0, found.1.now, state_of X.answer self.new)) }
        ensures none { IfNone result
            (reader.accept_operator level (state_of X.answer self.old) ≡ None) }
        ensures moves { Moves result self.old self.new }
    {
        let table_token = self.peek()?;
        let (token, _) = table_token;
        let operator = find_operator(token.kind)?;
        if is_at(level, operator) {
            self.next += 1;
            self.expected_tokens.clear();
            Some((operator, table_token))
        } else {
            None
        }
    }

    /// Returns the operator that comes next, if one does.
    fn peek_operator(&self) -> Option<Operator>
        ensures { result ≡ reader.front_operator (state_of X.answer self.now).left }
    {
        let (token, _) = self.peek()?;
        find_operator(token.kind)
    }
}

/// Makes the expression that consists of a link and its right side.
fn make_link<'src>(link: Link<'_, 'src>, rhs: Box<Expression<'src>>) -> Expression<'src>
    ensures { leaf_tree_of result ≡ link_of link.entry (leaf_tree_of rhs.entry.value) }
{
    match link {
        Link::Operation {
            lhs,
            operator,
            token,
        } => make_operation(lhs, operator, *token, rhs),
        Link::Root { token } => Expression::Join {
            lhs: None,
            operator: *token,
            rhs,
        },
        Link::Branch { condition, then } => Expression::Conditional {
            condition,
            then,
            otherwise: Some(rhs),
        },
    }
}
