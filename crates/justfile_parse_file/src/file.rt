//! Files from tokens and from texts, and how a file begins.
ghost use Rattle.std.specs.Prelude.{◌≡◌, ◌<◌, List, length, map, Contains, IfOk, IfErr, OnErr, string_bytes};
ghost use Rattle.justfile_token.specs.Modulepath.{module_names, names_of};
ghost use Rattle.justfile_numbers.specs.Numerator.{constants_of};
ghost use Rattle.justfile_model.specs.Lexing.Lexed.{Lexed};
ghost use Rattle.justfile_model.specs.Lexing.SignificantTokens.{identifiers, significant_tokens};
ghost use Rattle.justfile_model.specs.Lexing.Tok.{Tok, tok_of};
ghost use Rattle.justfile_parse_file.specs.Parsing.{HasNoTree, IsOneLex, IsParsed, IsParsedText, IsUnparsed};
ghost use Rattle.justfile_parse_expression.specs.Conditions.{conditions_of};
ghost use Rattle.justfile_parse_expression.specs.FormatStrings.{IsTable};
ghost use Rattle.justfile_parse_docs.specs.ParsedItems.{IsInTable};
ghost use Rattle.justfile_parse_docs.specs.ParsedItems as reader;
ghost use Rattle.justfile_parse_docs.specs.ParsedItems.{after_byte_order_mark};
ghost use Rattle.justfile_parse_file.specs.MethodResults.{IsErrorAt, IsFaultOfExpression, IsNextPlace, IsRead, IsReadFile, IsUnread, run_from};
ghost use Rattle.justfile_parse_docs.specs.ParsedItems.{CountersMoved};
ghost use Rattle.justfile_parse_file.specs.ErrorFaults.{IsFaultOfError};
ghost use Rattle.justfile_parse_docs.specs.ParsedItems.{HaveDerivedFields};
ghost use Rattle.justfile_parse_expression.specs.Significant.{significant_of};
ghost use Rattle.justfile_parse_expression.specs.View.{state_of};
ghost use Rattle.justfile_parse_expression.specs.declared.expression_error.SyntaxError.TheVariants.{Unexpected};
ghost use Rattle.justfile_parse_base.specs.Counting.{counters_of};
ghost use Rattle.justfile_parse_docs.specs.ReadItems.{ReadsDocumented};

use crate::unstable::with_unstable;
use justfile_ast::Ast;
use justfile_expression::ListFeature;
use justfile_item::Item;
use justfile_lex::{Lexer, significant};
use justfile_numbers::{Numerator, Version};
use justfile_parse_base::ParseError;
use justfile_parse_docs::parse_items;
use justfile_parse_expression::significant::SignificantToken;
use justfile_parse_expression::{ExpectedTokens, ExpressionError, ParserState, SyntaxError};
use justfile_token::{
    CompileError, CompileErrorKind, CompileResult, Expander, Fault, Modulepath, Namepath, Source,
    Token,
};
use justfile_vocabulary::TokenKind;
use std::alloc::{AllocError, Global};

/// Parses a file from its text, under a limit as for `parse`.
///
/// # Errors
///
/// `Compile`, with a part of the text, if the text can't be lexed or its tokens aren't a file;
/// `Numbers` and `Memory` as for `parse`. If the text can't be lexed, the numerator is
/// unchanged.
pub fn parse_source<'src, X: Expander>(
    alloc: Global,
    numerator: &mut Numerator,
    path: &'src str,
    source: &Source<'_, '_>,
    src: &'src str,
    expander: &X,
    current: Version,
    limit: usize,
) -> CompileResult<'src, Ast<'src>>
    ensures parsed { IfOk result
        (IsParsedText (conditions_of X.answer expander.now current limit) path.now src.now
        source.now.file_depth source.now.import_offsets.now numerator.old numerator.new) }
    ensures module_path { IfOk result (λ ast. names_of ast.module_path
        ≡ module_names source.now.namepath) }
    ensures working_directory { IfOk result (λ ast. string_bytes ast.working_directory
        ≡ source.now.working_directory.now) }
    ensures no_tree { IfErr result
        (HasNoTree (conditions_of X.answer expander.now current limit) path.now src.now
        numerator.old numerator.new) }
    ensures moved { (tokens : List Tok) → Lexed src.now tokens
        → CountersMoved numerator.old numerator.new (identifiers (significant_tokens tokens)) }
    ensures unmoved { ((tokens : List Tok) → Lexed src.now tokens → ⊥)
        → numerator.new ≡ numerator.old }
    ensures constants { constants_of numerator.new ≡ constants_of numerator.old }
{
    let table = Lexer::lex_significant(alloc, path, src)?;
    parse_significant(
        alloc,
        numerator,
        source,
        table.as_slice(),
        expander,
        current,
        limit,
    )
}

/// Parses a file from its tokens, which have to be those of one source. At most `limit`
/// expressions may be nested in one another; `RECURSION_LIMIT` is the usual limit.
///
/// # Errors
///
/// `Compile`, with one of the tokens, if they aren't a file; `Numbers` if a binding or a recipe
/// needs a number and the counter has reached its maximum; `Memory` if memory runs out. On an
/// error, the numerator's counters have moved up by at most the number of identifiers.
pub fn parse<'src, X: Expander>(
    alloc: Global,
    file_depth: u32,
    import_offsets: &[usize],
    module_namepath: Option<&Namepath<'_>>,
    numerator: &mut Numerator,
    tokens: &[Token<'src>],
    working_directory: &str,
    expander: &X,
    current: Version,
    limit: usize,
) -> CompileResult<'src, Ast<'src>>
    requires { IsOneLex tokens.now }
    ensures parsed { IfOk result (IsParsed (conditions_of X.answer expander.now current limit)
        (map tok_of tokens.now) (Contains tokens.now) file_depth import_offsets.now
        numerator.old numerator.new) }
    ensures module_path { IfOk result (λ ast. names_of ast.module_path
        ≡ module_names module_namepath.entry) }
    ensures working_directory { IfOk result (λ ast. string_bytes ast.working_directory
        ≡ working_directory.now) }
    ensures unparsed { IfErr result
        (IsUnparsed (conditions_of X.answer expander.now current limit)
        (map tok_of tokens.now) (Contains tokens.now) numerator.old numerator.new) }
    ensures moved { CountersMoved numerator.old numerator.new
        (identifiers (significant_tokens (map tok_of tokens.now))) }
{
    let table = significant(alloc, tokens)?;
    let source = Source {
        file_depth,
        import_offsets,
        namepath: module_namepath,
        working_directory,
    };
    parse_significant(
        alloc,
        numerator,
        &source,
        table.as_slice(),
        expander,
        current,
        limit,
    )
}

/// Parses a file from the table of its tokens, under a limit as for `parse`.
///
/// # Errors
///
/// As for `parse`.
pub fn parse_significant<'src, X: Expander>(
    alloc: Global,
    numerator: &mut Numerator,
    source: &Source<'_, '_>,
    table: &[SignificantToken<'src>],
    expander: &X,
    current: Version,
    limit: usize,
) -> CompileResult<'src, Ast<'src>>
    requires { IsTable table.now }
    ensures file { IfOk result (IsReadFile (conditions_of X.answer expander.now current limit)
        table.now source.now numerator.old numerator.new) }
    ensures unread { IfErr result (IsUnread (conditions_of X.answer expander.now current limit)
        (map significant_of table.now) (IsInTable table.now) numerator.old numerator.new) }
    ensures moved { CountersMoved numerator.old numerator.new
        (identifiers (map significant_of table.now)) }
{
    let (items, list_features) = parse_table(
        alloc, numerator, source, table, expander, current, limit,
    )?;
    let (items, unstable_features) = with_unstable(alloc, items)?;
    Ok(Ast {
        items,
        list_features,
        module_path: Modulepath::from_namepath(alloc, source.namepath)?,
        unstable_features,
        working_directory: source.working_directory.to_string(alloc)?,
    })
}

/// Parses the items of a file from the table of its tokens. Also returns the uses of features.
fn parse_table<'run, 'src, X: Expander>(
    alloc: Global,
    numerator: &mut Numerator,
    source: &Source<'run, '_>,
    tokens: &'run [SignificantToken<'src>],
    expander: &'run X,
    current: Version,
    limit: usize,
) -> CompileResult<'src, (Vec<Item<'src>>, Vec<(ListFeature, Token<'src>)>)>
    requires { IsTable tokens.now }
    ensures ok { IfOk result (λ x. IsRead
        (run_from (conditions_of X.answer expander.now current limit) tokens.now source.now)
        numerator.old numerator.new (x.0.items, x.1.items)) }
    ensures err { IfErr result (IsUnread (conditions_of X.answer expander.now current limit)
        (map significant_of tokens.now) (IsInTable tokens.now) numerator.old numerator.new) }
    ensures moved { CountersMoved numerator.old numerator.new
        (identifiers (map significant_of tokens.now)) }
{
    let mut parser = ParserState::new(
        alloc,
        current,
        expander,
        source.file_depth,
        source.import_offsets,
        tokens,
        limit,
    );
    match parse_file(&mut parser, numerator) {
        Ok(items) => Ok((items, parser.list_features)),
        Err(error) => Err(make_fault(
            alloc,
            tokens,
            parser.peek_front(),
            &parser.expected_tokens,
            error,
        )),
    }
}

/// Parses the items of a file, with docs, which may begin with a byte order mark. Requires that no expression
/// is open.
#[tactic(auto, using(justfile_parse_docs::proofs::Loop::file_is))]
fn parse_file<'src, X: Expander>(
    parser: &mut ParserState<'_, 'src, X>,
    numerator: &mut Numerator,
) -> Result<Vec<Item<'src>>, ParseError<'src>>
    requires { (state_of X.answer parser.old).depth ≡ 0 }
    ensures reads { ReadsDocumented result numerator.new (state_of X.answer parser.new)
        (reader.file (counters_of numerator.old) (state_of X.answer parser.old)) }
    ensures fields { IfOk result (λ items. HaveDerivedFields items.items) }
    ensures moved { CountersMoved numerator.old numerator.new
        (identifiers (map significant_of (state_of X.answer parser.old).left)) }
{
    accept_byte_order_mark(parser);
    parse_items(parser, numerator)
}

/// Takes the byte order mark that a file may begin with.
fn accept_byte_order_mark<X: Expander>(parser: &mut ParserState<'_, '_, X>)
    ensures { state_of X.answer parser.new ≡ after_byte_order_mark (state_of X.answer parser.old) }
{
    let _mark = parser.accept(TokenKind::ByteOrderMark);
}

/// Makes the fault for a parse error, where `next` is the next token and `expected_tokens` are the
/// kinds that were looked for there.
fn make_fault<'src>(
    alloc: Global,
    tokens: &[SignificantToken<'src>],
    next: Option<SignificantToken<'src>>,
    expected_tokens: &ExpectedTokens,
    error: ParseError<'src>,
) -> Fault<'src>
    requires { 0 < length tokens.now }
    ensures { IsFaultOfError tokens.now next.entry error.entry result }
{
    match error {
        ParseError::Expression(cause) => expression_fault(
            alloc,
            tokens,
            next,
            expected_tokens,
            cause,
        ),
        ParseError::Compile(broken) => Fault::Compile(Box::into_inner(broken)),
    }
}

/// Makes the fault for an expression error, where `next` is the next token and `expected_tokens`
/// are the kinds that were looked for there.
fn expression_fault<'src>(
    alloc: Global,
    tokens: &[SignificantToken<'src>],
    next: Option<SignificantToken<'src>>,
    expected_tokens: &ExpectedTokens,
    cause: ExpressionError<'src>,
) -> Fault<'src>
    requires { 0 < length tokens.now }
    ensures { IsFaultOfExpression tokens.now next.entry cause.entry result }
{
    match cause {
        ExpressionError::Refused(syntax_error) => {
            match make_error(
                alloc,
                token_for_error(tokens, next),
                expected_tokens,
                syntax_error,
            ) {
                Ok(error) => Fault::Compile(error),
                Err(_) => Fault::Memory,
            }
        }
        ExpressionError::Literal(refused) => Fault::Compile(Box::into_inner(refused).error),
        ExpressionError::Memory => Fault::Memory,
        ExpressionError::Numbers => Fault::Numbers,
    }
}

/// Makes the error for a token that is refused, where `expected_tokens` are the kinds that were
/// looked for there. Only the list of these takes memory.
fn make_error<'src>(
    alloc: Global,
    token: Token<'src>,
    expected_tokens: &ExpectedTokens,
    cause: SyntaxError,
) -> Result<CompileError<'src>, AllocError>
    ensures error { IfOk result (IsErrorAt cause token.entry) }
    ensures memory { OnErr result (cause ≡ Unexpected) }
{
    let kind = match cause {
        SyntaxError::Unexpected => CompileErrorKind::UnexpectedToken {
            expected: expected_tokens.kinds(alloc)?,
            found: token.kind,
        },
        SyntaxError::TooDeep => CompileErrorKind::ParsingRecursionDepthExceeded,
    };
    Ok(token.error(kind))
}

/// Returns the token where a syntax error is reported: the next one, or the last if none is left.
#[tactic(auto, using(crate::proofs::Tables::in_table, crate::proofs::Tables::last_at))]
fn token_for_error<'src>(
    tokens: &[SignificantToken<'src>],
    next: Option<SignificantToken<'src>>,
) -> Token<'src>
    requires { 0 < length tokens.now }
    ensures { IsNextPlace tokens.now next.entry result }
{
    match next {
        Some((token, _)) => token,
        None => {
            let (last, _) = tokens[tokens.len() - 1];
            last
        }
    }
}
