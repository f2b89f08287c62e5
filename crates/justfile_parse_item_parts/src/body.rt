//! How bodies of recipes are parsed.
ghost use Rattle.std.specs.Prelude.{◌≡◌, ◌<◌, ◌-◌, ◌↔◌, length, IsSomeAnd, IsTrue, OnOk, map};
ghost use Rattle.std.specs.List.{slice_get};
ghost use Rattle.justfile_line.specs.Line.{IsEmpty};
ghost use Rattle.justfile_model.specs.Trees.Tree.{trimmed};
ghost use Rattle.justfile_parse_item_parts.specs.BodyTable as reader;
ghost use Rattle.justfile_parse_expression.specs.ParsedResults.{Parses};
ghost use Rattle.justfile_parse_item_parts.specs.BodyTrees.{fragment_tree, line_tree};
ghost use Rattle.justfile_parse_expression.specs.View.{state_of, tokens_left};

use justfile_line::{Fragment, Line};
use justfile_parse_expression::significant::SignificantToken;
use justfile_parse_expression::{ExpressionError, ParserState, SyntaxError};
use justfile_token::Expander;
use justfile_vocabulary::TokenKind;

/// The comment before a body, if there is one, and the lines of the body.
pub type CommentedBody<'src> = (Option<SignificantToken<'src>>, Vec<Line<'src>>);

/// Parses the body of a recipe, from the end of its header on, and the comment before it. Returns
/// neither if the recipe has no body.
///
/// # Errors
///
/// The tokens are refused, a literal has no text, or memory runs out.
#[tactic(auto, using(crate::proofs::Bodies::body_at_once, crate::proofs::Bodies::body_commented, crate::proofs::Bodies::body_missing))]
pub fn parse_body_after_header<'src, X: Expander>(
    parser: &mut ParserState<'_, 'src, X>,
) -> Result<CommentedBody<'src>, ExpressionError<'src>>
    ensures { Parses X.answer (λ b. (b.0, map line_tree b.1.items)) result
        parser.old parser.new reader.optional_body }
{
    if parser.peek_kinds(&[TokenKind::Eol, TokenKind::Indent]) {
        parser.skip(2);
        return parse_body_after(parser, None);
    }
    if parser.peek_kinds(&[TokenKind::Comment, TokenKind::Eol, TokenKind::Indent]) {
        let comment = parser.peek_front();
        parser.skip(3);
        return parse_body_after(parser, comment);
    }
    parser.expected_tokens.add(TokenKind::Indent);
    Ok((None, Vec::new(parser.alloc)))
}

/// Parses a body from its first line on, and returns it with the comment before it, if there is
/// one.
#[tactic(auto, unfolding(justfile_model::specs::Readers::Reader::body_after))]
fn parse_body_after<'src, X: Expander>(
    parser: &mut ParserState<'_, 'src, X>,
    comment: Option<SignificantToken<'src>>,
) -> Result<CommentedBody<'src>, ExpressionError<'src>>
    ensures { Parses X.answer (λ b. (b.0, map line_tree b.1.items)) result
        parser.old parser.new (reader.body_after comment.entry) }
{
    let lines = parse_body(parser)?;
    Ok((comment, lines))
}

/// Parses a body from its first line on, without the empty lines at its end. At least one line
/// isn't empty.
#[tactic(auto, using(crate::proofs::Bodies::body_some, crate::proofs::Bodies::body_none))]
fn parse_body<'src, X: Expander>(
    parser: &mut ParserState<'_, 'src, X>,
) -> Result<Vec<Line<'src>>, ExpressionError<'src>>
    ensures { Parses X.answer (λ lines. map line_tree lines.items) result
        parser.old parser.new reader.body }
{
    let mut lines = parse_lines(parser)?;
    trim_lines(&mut lines);
    if lines.is_empty() {
        return Err(ExpressionError::Refused(SyntaxError::Unexpected));
    }
    Ok(lines)
}

/// Parses the lines of a body, and its end.
#[tactic(auto, using(crate::proofs::Bodies::lines_end, crate::proofs::Bodies::lines_go_on, crate::proofs::Bodies::body_line_shrinks, crate::proofs::Bodies::lines_stop))]
fn parse_lines<'src, X: Expander>(
    parser: &mut ParserState<'_, 'src, X>,
) -> Result<Vec<Line<'src>>, ExpressionError<'src>>
    ensures { Parses X.answer (λ lines. map line_tree lines.items) result
        parser.old parser.new reader.lines }
{
    let mut lines = Vec::new(parser.alloc);
    'lines: loop {
        if let Some(_end) = parser.accept(TokenKind::Dedent) {
            return Ok(lines);
        }
        let line = parse_body_line(parser)?;
        lines.reserve(1)?;
        lines.push_reserved(line);
    }
}

/// Parses a line of a body.
#[tactic(auto, unfolding(justfile_model::specs::Readers::Reader::body_line))]
fn parse_body_line<'src, X: Expander>(
    parser: &mut ParserState<'_, 'src, X>,
) -> Result<Line<'src>, ExpressionError<'src>>
    ensures { Parses X.answer line_tree result parser.old parser.new reader.body_line }
{
    let number = peek_line(parser);
    let fragments = parse_line_rest(parser)?;
    Ok(Line { fragments, number })
}

/// Returns the line of the source that the next token begins on, counted from 0, or 0 if no token
/// is left.
#[tactic(auto, unfolding(justfile_parse_expression::specs::TableReader::leaves))]
fn peek_line<X: Expander>(parser: &ParserState<'_, '_, X>) -> usize
    ensures { result ≡ reader.line_at (state_of X.answer parser.now).left }
{
    match parser.peek_front() {
        Some((token, _)) => token.line,
        None => 0,
    }
}

/// A line that is a text alone.
const TEXT_ALONE: [TokenKind; 2] = [TokenKind::Text, TokenKind::Eol];
/// A line that ends in the interpolation of a name.
const NAME_LAST: [TokenKind; 5] = [
    TokenKind::Text,
    TokenKind::InterpolationStart,
    TokenKind::Identifier,
    TokenKind::InterpolationEnd,
    TokenKind::Eol,
];
/// A line with the interpolation of a name between texts.
const NAME_WITHIN: [TokenKind; 6] = [
    TokenKind::Text,
    TokenKind::InterpolationStart,
    TokenKind::Identifier,
    TokenKind::InterpolationEnd,
    TokenKind::Text,
    TokenKind::Eol,
];

/// Parses the rest of a line of a body. Takes the end of the line, but not the end of the body.
#[tactic(auto, using(crate::proofs::Bodies::line_ends, crate::proofs::Bodies::line_left, crate::proofs::Bodies::line_goes_on, crate::proofs::Bodies::line_stops))]
fn parse_line_rest<'src, X: Expander>(
    parser: &mut ParserState<'_, 'src, X>,
) -> Result<Vec<Fragment<'src>>, ExpressionError<'src>>
    ensures { Parses X.answer (λ fragments. map fragment_tree fragments.items) result
        parser.old parser.new reader.line_rest }
{
    let mut fragments = Vec::with_capacity(parser.alloc, first_room(parser))?;
    'fragments: loop {
        if let Some(_newline) = parser.accept(TokenKind::Eol) {
            return Ok(fragments);
        }
        if parser.peek_kinds(&[TokenKind::Dedent]) {
            return Ok(fragments);
        }
        push_fragment(parser, &mut fragments)?;
    }
}

/// Returns how many texts and interpolations the next line has, or 4 if that isn't seen at once: most
/// lines are a text alone, or have one interpolation, of a name.
fn first_room<X: Expander>(parser: &ParserState<'_, '_, X>) -> usize {
    if parser.probe_kinds(&TEXT_ALONE) {
        return 1;
    }
    if parser.probe_kinds(&NAME_LAST) {
        return 2;
    }
    if parser.probe_kinds(&NAME_WITHIN) {
        return 3;
    }
    4
}

/// Parses a text, or an expression between `{{` and `}}`, and appends it. Reserves room first, and
/// makes a text in it, since most fragments are texts.
#[tactic(auto, using(crate::proofs::Bodies::one_more_is))]
fn push_fragment<'src, X: Expander>(
    parser: &mut ParserState<'_, 'src, X>,
    fragments: &mut Vec<Fragment<'src>>,
) -> Result<(), ExpressionError<'src>>
    ensures reads { Parses X.answer (λ _. map fragment_tree fragments.new.items) result
        parser.old parser.new (reader.one_more (map fragment_tree fragments.old.items)) }
    ensures progress { OnOk result (tokens_left parser.new < tokens_left parser.old) }
{
    fragments.reserve(1)?;
    if let Some((text, _)) = parser.accept(TokenKind::Text) {
        fragments.push_reserved(Fragment::Text { token: *text });
        return Ok(());
    }
    fragments.push_reserved(parse_interpolation(parser)?);
    Ok(())
}

/// Parses an expression between `{{` and `}}`.
fn parse_interpolation<'src, X: Expander>(
    parser: &mut ParserState<'_, 'src, X>,
) -> Result<Fragment<'src>, ExpressionError<'src>>
    ensures reads { Parses X.answer fragment_tree result parser.old parser.new
        reader.interpolation }
    ensures progress { OnOk result (tokens_left parser.new < tokens_left parser.old) }
{
    parser.expect(TokenKind::InterpolationStart)?;
    let expression = parser.parse_enclosed(TokenKind::InterpolationEnd)?;
    Ok(Fragment::Interpolation {
        expression: Box::into_inner(expression),
    })
}

/// Removes the empty lines at the end.
fn trim_lines(lines: &mut Vec<Line<'_>>)
    ensures { map line_tree lines.new.items ≡ trimmed (map line_tree lines.old.items) }
{
    while ends_empty(lines.as_slice()) {
        lines.pop();
    }
}

/// Whether there is a last line, and it is empty.
fn ends_empty(lines: &[Line<'_>]) -> bool
    ensures { IsTrue result ↔ IsSomeAnd (slice_get lines.now (length lines.now - 1)) IsEmpty }
{
    lines.last().is_some_and(Line::is_empty)
}
