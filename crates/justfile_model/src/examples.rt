//! Examples of texts with their tokens or faults, checked by computation.
ghost use Rattle.std.specs.Prelude.{false, [], ◌∷◌, codes};
ghost use Rattle.justfile_token.specs.declared.delimiter.Delimiter.TheVariants.{Bracket, FormatString, Paren};
ghost use Rattle.justfile_token.specs.declared.string_kind.StringDelimiter.TheVariants.{QuoteSingle};
ghost use Rattle.justfile_vocabulary.specs.declared.token_kind.TokenKind.TheVariants.{AmpersandAmpersand, Asterisk, At, Backtick, Bang, BangEquals, BangTilde, BarBar, BraceL, BraceR, ByteOrderMark, Colon, ColonColon, ColonEquals, Comma, Comment, Dedent, Dollar, Eof, Eol, Equals, EqualsEquals, EqualsTilde, FormatStringContinue, FormatStringEnd, FormatStringStart, Identifier, Indent, InterpolationEnd, InterpolationStart, ParenL, ParenR, Plus, PlusPlus, QuestionMark, Slash, StringToken, Text, Unspecified, Whitespace};
ghost use Rattle.justfile_model.specs.Lexing.Tok.{tok};
ghost use Rattle.justfile_model.specs.Lexing.LexicalFault.{EscapeEndOfFile, InconsistentLeadingWhitespace, InvalidEscapeSequence, MismatchedClosingDelimiter, MixedLeadingWhitespace, UnexpectedCharacter, UnexpectedClosingDelimiter, UnexpectedEndOfToken, UnknownStartOfToken, UnpairedCarriageReturn, UnterminatedBacktick, UnterminatedInterpolation, UnterminatedString};
ghost use Rattle.justfile_model.specs.Lexing.Lexed.{IsFault, Lexed};

/// Assignments, and all tokens of fixed text: the longest one is taken.
pub fn one_line()
    ensures bare { Lexed (codes "a:=b")
        (tok Identifier (codes "a") 0 0 0 ∷ tok ColonEquals (codes ":=") 1 0 1 ∷
        tok Identifier (codes "b") 3 0 3 ∷ tok Eof [] 4 0 4 ∷ []) }
    ensures last_newline { Lexed (codes "a := 'b'\n")
        (tok Identifier (codes "a") 0 0 0 ∷ tok Whitespace (codes " ") 1 0 1 ∷
        tok ColonEquals (codes ":=") 2 0 2 ∷ tok Whitespace (codes " ") 4 0 4 ∷
        tok StringToken (codes "'b'") 5 0 5 ∷
        tok Eol (codes "\n") 8 0 8 ∷ tok Eof [] 9 0 9 ∷ []) }
    ensures byte_order_mark { Lexed (239 ∷ 187 ∷ 191 ∷ 97 ∷ [])
        (tok ByteOrderMark (239 ∷ 187 ∷ 191 ∷ []) 0 0 0 ∷
        tok Identifier (codes "a") 3 0 3 ∷ tok Eof [] 4 0 4 ∷ []) }
    ensures fixed { Lexed (codes "!=!~!&&||+++===~=:=:::$*,/?@")
        (tok BangEquals (codes "!=") 0 0 0 ∷ tok BangTilde (codes "!~") 2 0 2 ∷
        tok Bang (codes "!") 4 0 4 ∷ tok AmpersandAmpersand (codes "&&") 5 0 5 ∷
        tok BarBar (codes "||") 7 0 7 ∷
        tok PlusPlus (codes "++") 9 0 9 ∷ tok Plus (codes "+") 11 0 11 ∷
        tok EqualsEquals (codes "==") 12 0 12 ∷
        tok EqualsTilde (codes "=~") 14 0 14 ∷ tok Equals (codes "=") 16 0 16 ∷
        tok ColonEquals (codes ":=") 17 0 17 ∷
        tok ColonColon (codes "::") 19 0 19 ∷ tok Colon (codes ":") 21 0 21 ∷
        tok Dollar (codes "$") 22 0 22 ∷
        tok Asterisk (codes "*") 23 0 23 ∷ tok Comma (codes ",") 24 0 24 ∷
        tok Slash (codes "/") 25 0 25 ∷
        tok QuestionMark (codes "?") 26 0 26 ∷ tok At (codes "@") 27 0 27 ∷ tok Eof [] 28 0 28 ∷
        []) }
{}

/// A single `&`, and bytes that don't begin a token.
pub fn refused_tokens()
    ensures at_end { IsFault (codes "&") (UnexpectedEndOfToken (codes "&"))
        (tok Unspecified [] 1 0 1) }
    ensures before_another { IsFault (codes "&a") (UnexpectedCharacter (codes "&"))
        (tok Unspecified (codes "a") 1 0 1) }
    ensures unknown { IsFault (codes "a%") (UnknownStartOfToken 37)
        (tok Unspecified (codes "%") 1 0 1) }
    ensures two_bytes { IsFault (195 ∷ 169 ∷ []) (UnknownStartOfToken 233)
        (tok Unspecified (195 ∷ 169 ∷ []) 0 0 0) }
    ensures before_two_bytes { IsFault (124 ∷ 195 ∷ 169 ∷ []) (UnexpectedCharacter (codes "|"))
        (tok Unspecified (195 ∷ 169 ∷ []) 1 0 1) }
    ensures digit { IsFault (codes "0") (UnknownStartOfToken 48)
        (tok Unspecified (codes "0") 0 0 0) }
{}

/// A closing delimiter has to match the innermost open one.
pub fn refused_delimiters()
    ensures other { IsFault (codes "(]") (MismatchedClosingDelimiter Bracket 0 Paren)
        (tok Unspecified [] 1 0 1) }
    ensures none { IsFault (codes "]") (UnexpectedClosingDelimiter Bracket)
        (tok Unspecified [] 0 0 0) }
    ensures format_string { IsFault (codes "f'\n{{)")
        (MismatchedClosingDelimiter Paren 1
        (FormatString (record { delimiter = QuoteSingle; indented = false })))
        (tok Unspecified [] 5 1 2) }
{}

/// Leading blanks that differ from the level, or that mix spaces and tabs. In a body only the first
/// blanks are checked for a mix, as many as the level has.
pub fn refused_indentation()
    ensures other { IsFault (codes "a:\n 0\n 1\n\t2\n")
        (InconsistentLeadingWhitespace (codes " ") (codes "\t"))
        (tok Unspecified (codes "\t") 9 3 0) }
    ensures longer_than_level { IsFault (codes "a:\n\t0\n \t1\n")
        (InconsistentLeadingWhitespace (codes "\t") (codes " \t"))
        (tok Unspecified (codes " \t") 6 2 0) }
    ensures mixed { IsFault (codes "a:\n \tb\n") (MixedLeadingWhitespace (codes " \t"))
        (tok Unspecified (codes " \t") 3 1 0) }
    ensures mixed_in_body { IsFault (codes "a:\n  b\n \t c\n")
        (MixedLeadingWhitespace (codes " \t"))
        (tok Unspecified (codes " \t") 7 2 0) }
{}

/// A literal without an end is reported where it begins, and a continued part of a format string at
/// its `}}`.
pub fn unterminated()
    ensures string { IsFault (codes "r a='asdf") UnterminatedString
        (tok Unspecified (codes "'") 4 0 4) }
    ensures tripled { IsFault (codes "'''a''") UnterminatedString
        (tok Unspecified (codes "'''") 0 0 0) }
    ensures backtick { IsFault (codes "`a") UnterminatedBacktick
        (tok Unspecified (codes "`") 0 0 0) }
    ensures format_string { IsFault (codes "x := f'a{{b}}c") UnterminatedString
        (tok Unspecified (codes "}}") 11 0 11) }
    ensures interpolation { IsFault (codes "a:\n echo {{ foo") UnterminatedInterpolation
        (tok InterpolationStart (codes "{{") 9 1 6) }
{}

/// A single carriage return is text in a body. If another item follows, the levels close before the
/// blank line, and the carriage return is an error.
pub fn carriage_returns()
    ensures in_body { Lexed (codes "foo:\n  a\n\n  \r \n")
        (tok Identifier (codes "foo") 0 0 0 ∷ tok Colon (codes ":") 3 0 3 ∷
        tok Eol (codes "\n") 4 0 4 ∷ tok Indent (codes "  ") 5 1 0 ∷ tok Text (codes "a") 7 1 2 ∷
        tok Eol (codes "\n") 8 1 3 ∷
        tok Eol (codes "\n") 9 2 0 ∷ tok Whitespace (codes "  ") 10 3 0 ∷
        tok Text (codes "\r ") 12 3 2 ∷ tok Eol (codes "\n") 14 3 4 ∷
        tok Dedent [] 15 3 5 ∷ tok Eof [] 15 3 5 ∷ []) }
    ensures after_body { IsFault (codes "foo:\n  a\n\n  \r \nb:\n") UnpairedCarriageReturn
        (tok Unspecified (codes "\r") 12 3 2) }
{}

/// An empty line inside a body belongs to the body. The levels close before the first of the blank
/// lines after the body.
pub fn bodies()
    ensures empty_line { Lexed (codes "a:\n  b\n\n  c\n\n\nd:\n")
        (tok Identifier (codes "a") 0 0 0 ∷ tok Colon (codes ":") 1 0 1 ∷
        tok Eol (codes "\n") 2 0 2 ∷ tok Indent (codes "  ") 3 1 0 ∷ tok Text (codes "b") 5 1 2 ∷
        tok Eol (codes "\n") 6 1 3 ∷
        tok Eol (codes "\n") 7 2 0 ∷ tok Whitespace (codes "  ") 8 3 0 ∷
        tok Text (codes "c") 10 3 2 ∷ tok Eol (codes "\n") 11 3 3 ∷
        tok Dedent [] 12 4 0 ∷ tok Eol (codes "\n") 12 4 0 ∷ tok Eol (codes "\n") 13 5 0 ∷
        tok Identifier (codes "d") 14 6 0 ∷
        tok Colon (codes ":") 15 6 1 ∷ tok Eol (codes "\n") 16 6 2 ∷ tok Eof [] 17 6 3 ∷ []) }
    ensures interpolation { Lexed (codes "a:\n {{{{b}}{{(c)}}\n   d\n")
        (tok Identifier (codes "a") 0 0 0 ∷ tok Colon (codes ":") 1 0 1 ∷
        tok Eol (codes "\n") 2 0 2 ∷ tok Indent (codes " ") 3 1 0 ∷
        tok Text (codes "{{{{b}}") 4 1 1 ∷
        tok InterpolationStart (codes "{{") 11 1 8 ∷ tok ParenL (codes "(") 13 1 10 ∷
        tok Identifier (codes "c") 14 1 11 ∷
        tok ParenR (codes ")") 15 1 12 ∷ tok InterpolationEnd (codes "}}") 16 1 13 ∷
        tok Eol (codes "\n") 18 1 15 ∷
        tok Whitespace (codes " ") 19 2 0 ∷ tok Text (codes "  d") 20 2 1 ∷
        tok Eol (codes "\n") 23 2 4 ∷ tok Dedent [] 24 2 5 ∷
        tok Eof [] 24 2 5 ∷ []) }
{}

/// An indent opens a level, and a line with fewer leading blanks closes the levels above. At the
/// end of the text all levels close, whether there are blank lines or not.
pub fn levels()
    ensures closes_two { Lexed (codes " a\n  b\nc")
        (tok Indent (codes " ") 0 0 0 ∷ tok Identifier (codes "a") 1 0 1 ∷
        tok Eol (codes "\n") 2 0 2 ∷ tok Indent (codes "  ") 3 1 0 ∷
        tok Identifier (codes "b") 5 1 2 ∷ tok Eol (codes "\n") 6 1 3 ∷
        tok Dedent [] 7 2 0 ∷ tok Dedent [] 7 2 0 ∷ tok Identifier (codes "c") 7 2 0 ∷
        tok Eof [] 8 2 1 ∷ []) }
    ensures closes_one { Lexed (codes " a\n  b\n c")
        (tok Indent (codes " ") 0 0 0 ∷ tok Identifier (codes "a") 1 0 1 ∷
        tok Eol (codes "\n") 2 0 2 ∷ tok Indent (codes "  ") 3 1 0 ∷
        tok Identifier (codes "b") 5 1 2 ∷ tok Eol (codes "\n") 6 1 3 ∷
        tok Dedent [] 7 2 0 ∷ tok Whitespace (codes " ") 7 2 0 ∷ tok Identifier (codes "c") 8 2 1 ∷
        tok Dedent [] 9 2 2 ∷
        tok Eof [] 9 2 2 ∷ []) }
    ensures blank_line_at_end { Lexed (codes "a:\n b\n\n")
        (tok Identifier (codes "a") 0 0 0 ∷ tok Colon (codes ":") 1 0 1 ∷
        tok Eol (codes "\n") 2 0 2 ∷ tok Indent (codes " ") 3 1 0 ∷ tok Text (codes "b") 4 1 1 ∷
        tok Eol (codes "\n") 5 1 2 ∷
        tok Eol (codes "\n") 6 2 0 ∷ tok Dedent [] 7 2 1 ∷ tok Eof [] 7 2 1 ∷ []) }
    ensures blanks_at_end { Lexed (codes "a:\n b\n  ")
        (tok Identifier (codes "a") 0 0 0 ∷ tok Colon (codes ":") 1 0 1 ∷
        tok Eol (codes "\n") 2 0 2 ∷ tok Indent (codes " ") 3 1 0 ∷ tok Text (codes "b") 4 1 1 ∷
        tok Eol (codes "\n") 5 1 2 ∷
        tok Whitespace (codes "  ") 6 2 0 ∷ tok Dedent [] 8 2 2 ∷ tok Eof [] 8 2 2 ∷ []) }
{}

/// In an interpolation a line end is whitespace, and `}}` ends it if no delimiter is open. At the
/// end of the text an open interpolation is an error; open delimiters aren't.
pub fn interpolations()
    ensures line_end { Lexed (codes "a:\n {{\n b}}")
        (tok Identifier (codes "a") 0 0 0 ∷ tok Colon (codes ":") 1 0 1 ∷
        tok Eol (codes "\n") 2 0 2 ∷ tok Indent (codes " ") 3 1 0 ∷
        tok InterpolationStart (codes "{{") 4 1 1 ∷
        tok Whitespace (codes "\n") 6 1 3 ∷ tok Whitespace (codes " ") 7 2 0 ∷
        tok Identifier (codes "b") 8 2 1 ∷
        tok InterpolationEnd (codes "}}") 9 2 2 ∷ tok Dedent [] 11 2 4 ∷ tok Eof [] 11 2 4 ∷ []) }
    ensures braces { Lexed (codes "a:\n {{ {b}}}")
        (tok Identifier (codes "a") 0 0 0 ∷ tok Colon (codes ":") 1 0 1 ∷
        tok Eol (codes "\n") 2 0 2 ∷ tok Indent (codes " ") 3 1 0 ∷
        tok InterpolationStart (codes "{{") 4 1 1 ∷
        tok Whitespace (codes " ") 6 1 3 ∷ tok BraceL (codes "{") 7 1 4 ∷
        tok Identifier (codes "b") 8 1 5 ∷
        tok BraceR (codes "}") 9 1 6 ∷ tok InterpolationEnd (codes "}}") 10 1 7 ∷
        tok Dedent [] 12 1 9 ∷ tok Eof [] 12 1 9 ∷ []) }
    ensures open_interpolation { IsFault (codes "a:\n {{(") UnterminatedInterpolation
        (tok InterpolationStart (codes "{{") 4 1 1) }
    ensures open_delimiter { Lexed (codes "(")
        (tok ParenL (codes "(") 0 0 0 ∷ tok Eof [] 1 0 1 ∷ []) }
{}

/// A line end is a line feed, or a carriage return and a line feed. While a delimiter is open it is
/// whitespace.
pub fn line_ends()
    ensures crlf { Lexed (codes "a:\r\n\tb\r\n")
        (tok Identifier (codes "a") 0 0 0 ∷ tok Colon (codes ":") 1 0 1 ∷
        tok Eol (codes "\r\n") 2 0 2 ∷ tok Indent (codes "\t") 4 1 0 ∷ tok Text (codes "b") 5 1 1 ∷
        tok Eol (codes "\r\n") 6 1 2 ∷
        tok Dedent [] 8 1 4 ∷ tok Eof [] 8 1 4 ∷ []) }
    ensures nested { Lexed (codes "(\n  a)\n")
        (tok ParenL (codes "(") 0 0 0 ∷ tok Whitespace (codes "\n") 1 0 1 ∷
        tok Whitespace (codes "  ") 2 1 0 ∷ tok Identifier (codes "a") 4 1 2 ∷
        tok ParenR (codes ")") 5 1 3 ∷ tok Eol (codes "\n") 6 1 4 ∷
        tok Eof [] 7 1 5 ∷ []) }
    ensures comment { Lexed (codes "#a\rb\n")
        (tok Comment (codes "#a\rb") 0 0 0 ∷ tok Eol (codes "\n") 4 0 4 ∷ tok Eof [] 5 0 5 ∷ []) }
{}

/// A backslash and a line end are whitespace, together with the blanks after them. Without such
/// blanks the next token is at column 0.
pub fn escaped_line_ends()
    ensures with_blanks { Lexed (codes "a := \\\n  b\n")
        (tok Identifier (codes "a") 0 0 0 ∷ tok Whitespace (codes " ") 1 0 1 ∷
        tok ColonEquals (codes ":=") 2 0 2 ∷ tok Whitespace (codes " ") 4 0 4 ∷
        tok Whitespace (codes "\\\n  ") 5 0 5 ∷
        tok Identifier (codes "b") 9 1 2 ∷ tok Eol (codes "\n") 10 1 3 ∷ tok Eof [] 11 1 4 ∷ []) }
    ensures without { Lexed (codes "a := \\\r\nb")
        (tok Identifier (codes "a") 0 0 0 ∷ tok Whitespace (codes " ") 1 0 1 ∷
        tok ColonEquals (codes ":=") 2 0 2 ∷ tok Whitespace (codes " ") 4 0 4 ∷
        tok Whitespace (codes "\\\r\n") 5 0 5 ∷
        tok Identifier (codes "b") 8 1 0 ∷ tok Eof [] 9 1 1 ∷ []) }
    ensures closes_level { Lexed (codes " a\\\nb")
        (tok Indent (codes " ") 0 0 0 ∷ tok Identifier (codes "a") 1 0 1 ∷
        tok Whitespace (codes "\\\n") 2 0 2 ∷ tok Dedent [] 4 1 0 ∷
        tok Identifier (codes "b") 4 1 0 ∷ tok Eof [] 5 1 1 ∷ []) }
    ensures at_end { IsFault (codes "a \\") EscapeEndOfFile (tok Unspecified (codes "\\") 2 0 2) }
    ensures before_another { IsFault (codes "\\a") (InvalidEscapeSequence 97)
        (tok Unspecified (codes "\\") 0 0 0) }
    ensures carriage_return { IsFault (codes "\\\ra") UnpairedCarriageReturn
        (tok Unspecified (codes "\\\r") 0 0 0) }
{}

/// A quote directly after the identifier `f` begins a format string, and a backtick doesn't. Four
/// braces are text.
pub fn format_strings()
    ensures nested { Lexed (codes "x := f'a{{ f\"b{{c}}\" }}d'\n")
        (tok Identifier (codes "x") 0 0 0 ∷ tok Whitespace (codes " ") 1 0 1 ∷
        tok ColonEquals (codes ":=") 2 0 2 ∷ tok Whitespace (codes " ") 4 0 4 ∷
        tok Identifier (codes "f") 5 0 5 ∷
        tok FormatStringStart (codes "'a{{") 6 0 6 ∷ tok Whitespace (codes " ") 10 0 10 ∷
        tok Identifier (codes "f") 11 0 11 ∷
        tok FormatStringStart (codes "\"b{{") 12 0 12 ∷ tok Identifier (codes "c") 16 0 16 ∷
        tok FormatStringEnd (codes "}}\"") 17 0 17 ∷
        tok Whitespace (codes " ") 20 0 20 ∷ tok FormatStringEnd (codes "}}d'") 21 0 21 ∷
        tok Eol (codes "\n") 25 0 25 ∷
        tok Eof [] 26 0 26 ∷ []) }
    ensures continued { Lexed (codes "f'{{a}}{{b}}'")
        (tok Identifier (codes "f") 0 0 0 ∷ tok FormatStringStart (codes "'{{") 1 0 1 ∷
        tok Identifier (codes "a") 4 0 4 ∷ tok FormatStringContinue (codes "}}{{") 5 0 5 ∷
        tok Identifier (codes "b") 9 0 9 ∷
        tok FormatStringEnd (codes "}}'") 10 0 10 ∷ tok Eof [] 13 0 13 ∷ []) }
    ensures blank_between { Lexed (codes "f \"{{x}}\"")
        (tok Identifier (codes "f") 0 0 0 ∷ tok Whitespace (codes " ") 1 0 1 ∷
        tok StringToken (codes "\"{{x}}\"") 2 0 2 ∷ tok Eof [] 9 0 9 ∷ []) }
    ensures four_braces { Lexed (codes "f'a{{{{b'")
        (tok Identifier (codes "f") 0 0 0 ∷ tok StringToken (codes "'a{{{{b'") 1 0 1 ∷
        tok Eof [] 9 0 9 ∷ []) }
    ensures hidden_braces { Lexed (codes "f\"\\{{{{a{{b}}\"") (tok Identifier (codes "f") 0 0 0 ∷
        tok FormatStringStart (codes "\"\\{{{{a{{") 1 0 1 ∷ tok Identifier (codes "b") 10 0 10 ∷
        tok FormatStringEnd (codes "}}\"") 11 0 11 ∷ tok Eof [] 14 0 14 ∷ []) }
    ensures backtick { Lexed (codes "f`{{`")
        (tok Identifier (codes "f") 0 0 0 ∷ tok Backtick (codes "`{{`") 1 0 1 ∷
        tok Eof [] 5 0 5 ∷ []) }
{}

/// In double quotes a backslash hides the character after it. Three quotes are always a tripled
/// delimiter.
pub fn strings()
    ensures hidden { Lexed (codes "\"\\\"\"")
        (tok StringToken (codes "\"\\\"\"") 0 0 0 ∷ tok Eof [] 4 0 4 ∷ []) }
    ensures raw { Lexed (codes "'\\'")
        (tok StringToken (codes "'\\'") 0 0 0 ∷ tok Eof [] 3 0 3 ∷ []) }
    ensures tripled { Lexed (codes "'''a\n''b'''")
        (tok StringToken (codes "'''a\n''b'''") 0 0 0 ∷ tok Eof [] 11 1 6 ∷ []) }
    ensures empty { Lexed (codes "''")
        (tok StringToken (codes "''") 0 0 0 ∷ tok Eof [] 2 0 2 ∷ []) }
{}
