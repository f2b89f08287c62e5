//! The keywords that items begin with. A keyword is an ordinary name unless what follows it fits.
ghost use Rattle.std.specs.Prelude.{◌≡◌};
ghost use Rattle.justfile_vocabulary.specs.Keyword.{keyword_text};
ghost use Rattle.justfile_parse_expression.specs.MethodResults.{TakesTableToken};
ghost use Rattle.justfile_parse_expression.specs.View.{Moves, state_of};
ghost use Rattle.justfile_parse_item_parts.specs.PartTable as reader;

use justfile_parse_expression::ParserState;
use justfile_parse_expression::significant::SignificantToken;
use justfile_token::Expander;
use justfile_vocabulary::{Keyword, TokenKind};

/// What has to follow a keyword for an item to begin with it.
#[derive(Clone, Copy, Debug, PartialEq, Eq)]
pub enum Lookahead {
    /// A name and `:=`.
    Assignment,
    /// `?` or a path.
    Import,
    /// A name alone on its line.
    Line,
    /// `?`, or a name that is alone on its line or before a path.
    Module,
    /// A name that is before `:=` or alone on its line.
    Set,
}

/// Takes the next token if it is this keyword and is followed as the lookahead asks.
pub fn accept_keyword_before<'run, 'src, X: Expander>(
    parser: &mut ParserState<'run, 'src, X>,
    keyword: Keyword,
    lookahead: Lookahead,
) -> Option<&'run SignificantToken<'src>>
    ensures takes { TakesTableToken result (state_of X.answer parser.new) (reader.accept_keyword_before
        (keyword_text keyword) (reader.follows lookahead) (state_of X.answer parser.old)) }
    ensures moves { Moves result parser.old parser.new }
{
    if parser.peek_keyword(keyword) && follows_keyword(parser, lookahead) {
        parser.accept_keyword(keyword)
    } else {
        None
    }
}

/// Whether a name and `:=` come next.
pub fn peek_assignment<X: Expander>(parser: &ParserState<'_, '_, X>) -> bool
    ensures { result ≡ reader.peek_assignment (state_of X.answer parser.now) }
{
    parser.peek_kinds(&[TokenKind::Identifier, TokenKind::ColonEquals])
}

/// Whether the next token, a keyword, is followed as the lookahead asks.
fn follows_keyword<X: Expander>(parser: &ParserState<'_, '_, X>, lookahead: Lookahead) -> bool
    ensures { result ≡ reader.follows_past lookahead (state_of X.answer parser.now) }
{
    match lookahead {
        Lookahead::Assignment => peek_assignment_past(parser),
        Lookahead::Import => peek_import_past(parser),
        Lookahead::Line => peek_line_past(parser),
        Lookahead::Module => peek_module_past(parser),
        Lookahead::Set => peek_assignment_past(parser) || peek_line_past(parser),
    }
}

/// Whether a name and `:=` follow a keyword.
fn peek_assignment_past<X: Expander>(parser: &ParserState<'_, '_, X>) -> bool
    ensures { result ≡ reader.assigned_past (state_of X.answer parser.now) }
{
    let keyword = TokenKind::Identifier;
    let name = TokenKind::Identifier;
    parser.peek_kinds(&[keyword, name, TokenKind::ColonEquals])
}

/// Whether `?` or a path follows a keyword.
fn peek_import_past<X: Expander>(parser: &ParserState<'_, '_, X>) -> bool
    ensures { result ≡ reader.imported_past (state_of X.answer parser.now) }
{
    let keyword = TokenKind::Identifier;
    parser.peek_kinds(&[keyword, TokenKind::QuestionMark]) || peek_path_past(parser)
}

/// Whether a path, with or without a mark, follows a keyword.
fn peek_path_past<X: Expander>(parser: &ParserState<'_, '_, X>) -> bool
    ensures { result ≡ reader.path_past (state_of X.answer parser.now) }
{
    let keyword = TokenKind::Identifier;
    let mark = TokenKind::Identifier;
    parser.peek_kinds(&[keyword, TokenKind::StringToken])
        || parser.peek_kinds(&[keyword, mark, TokenKind::StringToken])
}

/// Whether `?`, or a name that is alone on its line or before a path, follows a keyword.
fn peek_module_past<X: Expander>(parser: &ParserState<'_, '_, X>) -> bool
    ensures { result ≡ reader.module_past (state_of X.answer parser.now) }
{
    let keyword = TokenKind::Identifier;
    let name = TokenKind::Identifier;
    let mark = TokenKind::Identifier;
    parser.peek_kinds(&[keyword, TokenKind::QuestionMark])
        || peek_line_past(parser)
        || parser.peek_kinds(&[keyword, name, TokenKind::StringToken])
        || parser.peek_kinds(&[keyword, name, mark, TokenKind::StringToken])
}

/// Whether a name alone on its line follows a keyword.
fn peek_line_past<X: Expander>(parser: &ParserState<'_, '_, X>) -> bool
    ensures { result ≡ reader.line_past (state_of X.answer parser.now) }
{
    let keyword = TokenKind::Identifier;
    let name = TokenKind::Identifier;
    parser.peek_kinds(&[keyword, name, TokenKind::Comment])
        || parser.peek_kinds(&[keyword, name, TokenKind::Eol])
        || parser.peek_kinds(&[keyword, name, TokenKind::Eof])
}
