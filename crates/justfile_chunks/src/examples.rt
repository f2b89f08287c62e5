//! Examples of texts in parts, checked by computation.
ghost use Rattle.std.specs.Prelude.{[], ◌∷◌, codes};
ghost use Rattle.justfile_vocabulary.specs.declared.token_kind.TokenKind.TheVariants.{BracketL, BracketR, Colon, ColonEquals, Comment, Dedent, Eof, Eol, Identifier, Indent, StringToken, Text, Whitespace};
ghost use Rattle.justfile_model.specs.Lexing.Lexed.{Lexed};
ghost use Rattle.justfile_model.specs.Lexing.Tok.{tok};
ghost use Rattle.justfile_chunks.specs.Chunks.{AreParts};

/// A recipe with a doc and a body, a blank line, and an assignment: the recipe is a part up to its
/// `Dedent`, and the blank line is one of its own.
pub fn recipe_and_assignment()
    ensures lexed { Lexed (codes "# d\nfoo:\n  a\n\nx:='y'\n")
        (tok Comment (codes "# d") 0 0 0 ∷ tok Eol (codes "\n") 3 0 3 ∷
        tok Identifier (codes "foo") 4 1 0 ∷ tok Colon (codes ":") 7 1 3 ∷ tok Eol (codes "\n") 8 1 4 ∷
        tok Indent (codes "  ") 9 2 0 ∷ tok Text (codes "a") 11 2 2 ∷ tok Eol (codes "\n") 12 2 3 ∷ tok Dedent [] 13 3 0 ∷
        tok Eol (codes "\n") 13 3 0 ∷
        tok Identifier (codes "x") 14 4 0 ∷ tok ColonEquals (codes ":=") 15 4 1 ∷ tok StringToken (codes "'y'") 17 4 3 ∷
        tok Eol (codes "\n") 20 4 6 ∷ tok Eof [] 21 4 7 ∷ []) }
    ensures parts { AreParts
        (tok Comment (codes "# d") 0 0 0 ∷ tok Eol (codes "\n") 3 0 3 ∷
        tok Identifier (codes "foo") 4 1 0 ∷ tok Colon (codes ":") 7 1 3 ∷ tok Eol (codes "\n") 8 1 4 ∷
        tok Indent (codes "  ") 9 2 0 ∷ tok Text (codes "a") 11 2 2 ∷ tok Eol (codes "\n") 12 2 3 ∷ tok Dedent [] 13 3 0 ∷
        tok Eol (codes "\n") 13 3 0 ∷
        tok Identifier (codes "x") 14 4 0 ∷ tok ColonEquals (codes ":=") 15 4 1 ∷ tok StringToken (codes "'y'") 17 4 3 ∷
        tok Eol (codes "\n") 20 4 6 ∷ tok Eof [] 21 4 7 ∷ [])
        ((tok Comment (codes "# d") 0 0 0 ∷ tok Eol (codes "\n") 3 0 3 ∷
        tok Identifier (codes "foo") 4 1 0 ∷ tok Colon (codes ":") 7 1 3 ∷ tok Eol (codes "\n") 8 1 4 ∷
        tok Indent (codes "  ") 9 2 0 ∷ tok Text (codes "a") 11 2 2 ∷ tok Eol (codes "\n") 12 2 3 ∷ tok Dedent [] 13 3 0 ∷ []) ∷
        (tok Eol (codes "\n") 13 3 0 ∷ []) ∷
        (tok Identifier (codes "x") 14 4 0 ∷ tok ColonEquals (codes ":=") 15 4 1 ∷ tok StringToken (codes "'y'") 17 4 3 ∷
        tok Eol (codes "\n") 20 4 6 ∷ tok Eof [] 21 4 7 ∷ []) ∷ []) }
{}

/// Attributes, a comment before an item, and a comment before a blank line: only the last one is a
/// part of its own, without the blank line.
pub fn attributes_and_comments()
    ensures lexed { Lexed (codes "[a]\nb:\n# c\n\n# d\ne:\n")
        (tok BracketL (codes "[") 0 0 0 ∷ tok Identifier (codes "a") 1 0 1 ∷ tok BracketR (codes "]") 2 0 2 ∷ tok Eol (codes "\n") 3 0 3 ∷
        tok Identifier (codes "b") 4 1 0 ∷ tok Colon (codes ":") 5 1 1 ∷ tok Eol (codes "\n") 6 1 2 ∷
        tok Comment (codes "# c") 7 2 0 ∷ tok Eol (codes "\n") 10 2 3 ∷ tok Eol (codes "\n") 11 3 0 ∷
        tok Comment (codes "# d") 12 4 0 ∷ tok Eol (codes "\n") 15 4 3 ∷ tok Identifier (codes "e") 16 5 0 ∷ tok Colon (codes ":") 17 5 1 ∷
        tok Eol (codes "\n") 18 5 2 ∷ tok Eof [] 19 5 3 ∷ []) }
    ensures parts { AreParts
        (tok BracketL (codes "[") 0 0 0 ∷ tok Identifier (codes "a") 1 0 1 ∷ tok BracketR (codes "]") 2 0 2 ∷ tok Eol (codes "\n") 3 0 3 ∷
        tok Identifier (codes "b") 4 1 0 ∷ tok Colon (codes ":") 5 1 1 ∷ tok Eol (codes "\n") 6 1 2 ∷
        tok Comment (codes "# c") 7 2 0 ∷ tok Eol (codes "\n") 10 2 3 ∷ tok Eol (codes "\n") 11 3 0 ∷
        tok Comment (codes "# d") 12 4 0 ∷ tok Eol (codes "\n") 15 4 3 ∷ tok Identifier (codes "e") 16 5 0 ∷ tok Colon (codes ":") 17 5 1 ∷
        tok Eol (codes "\n") 18 5 2 ∷ tok Eof [] 19 5 3 ∷ [])
        ((tok BracketL (codes "[") 0 0 0 ∷ tok Identifier (codes "a") 1 0 1 ∷ tok BracketR (codes "]") 2 0 2 ∷ tok Eol (codes "\n") 3 0 3 ∷
        tok Identifier (codes "b") 4 1 0 ∷ tok Colon (codes ":") 5 1 1 ∷ tok Eol (codes "\n") 6 1 2 ∷ []) ∷
        (tok Comment (codes "# c") 7 2 0 ∷ tok Eol (codes "\n") 10 2 3 ∷ []) ∷
        (tok Eol (codes "\n") 11 3 0 ∷ []) ∷
        (tok Comment (codes "# d") 12 4 0 ∷ tok Eol (codes "\n") 15 4 3 ∷ tok Identifier (codes "e") 16 5 0 ∷ tok Colon (codes ":") 17 5 1 ∷
        tok Eol (codes "\n") 18 5 2 ∷ tok Eof [] 19 5 3 ∷ []) ∷ []) }
{}

/// A text is cut after a body and again after the blank line that follows. What is before the
/// second cut is no text with these tokens: at the end of a text a blank line is the body's, and
/// the `Dedent` comes after it. So chunks are from each cut to the next one.
pub fn blank_line_after_body()
    ensures lexed { Lexed (codes "a:\n b\n\n#")
        (tok Identifier (codes "a") 0 0 0 ∷ tok Colon (codes ":") 1 0 1 ∷ tok Eol (codes "\n") 2 0 2 ∷
        tok Indent (codes " ") 3 1 0 ∷ tok Text (codes "b") 4 1 1 ∷ tok Eol (codes "\n") 5 1 2 ∷ tok Dedent [] 6 2 0 ∷
        tok Eol (codes "\n") 6 2 0 ∷
        tok Comment (codes "#") 7 3 0 ∷ tok Eof [] 8 3 1 ∷ []) }
    ensures parts { AreParts
        (tok Identifier (codes "a") 0 0 0 ∷ tok Colon (codes ":") 1 0 1 ∷ tok Eol (codes "\n") 2 0 2 ∷
        tok Indent (codes " ") 3 1 0 ∷ tok Text (codes "b") 4 1 1 ∷ tok Eol (codes "\n") 5 1 2 ∷ tok Dedent [] 6 2 0 ∷
        tok Eol (codes "\n") 6 2 0 ∷
        tok Comment (codes "#") 7 3 0 ∷ tok Eof [] 8 3 1 ∷ [])
        ((tok Identifier (codes "a") 0 0 0 ∷ tok Colon (codes ":") 1 0 1 ∷ tok Eol (codes "\n") 2 0 2 ∷
        tok Indent (codes " ") 3 1 0 ∷ tok Text (codes "b") 4 1 1 ∷ tok Eol (codes "\n") 5 1 2 ∷ tok Dedent [] 6 2 0 ∷ []) ∷
        (tok Eol (codes "\n") 6 2 0 ∷ []) ∷
        (tok Comment (codes "#") 7 3 0 ∷ tok Eof [] 8 3 1 ∷ []) ∷ []) }
    ensures before { Lexed (codes "a:\n b\n\n")
        (tok Identifier (codes "a") 0 0 0 ∷ tok Colon (codes ":") 1 0 1 ∷ tok Eol (codes "\n") 2 0 2 ∷
        tok Indent (codes " ") 3 1 0 ∷ tok Text (codes "b") 4 1 1 ∷ tok Eol (codes "\n") 5 1 2 ∷
        tok Eol (codes "\n") 6 2 0 ∷ tok Dedent [] 7 2 1 ∷ tok Eof [] 7 2 1 ∷ []) }
{}
