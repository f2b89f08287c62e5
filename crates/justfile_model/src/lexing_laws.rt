//! Laws that state what lexing computes for whole lists. Each is the contract of a function with an
//! empty body.
ghost use Rattle.std.specs.Prelude.{◌≡◌, ◌≢◌, ◌↔◌, ℕ, Bool, IsTrue, List, [], ◌++◌, length, drop, reverse, option_to_list, Ok};
ghost use Rattle.justfile_token.specs.declared.string_kind.StringKind.{StringKind};
ghost use Rattle.justfile_vocabulary.specs.declared.token_kind.TokenKind.{TokenKind};
ghost use Rattle.justfile_vocabulary.specs.declared.token_kind.TokenKind.TheVariants.{Dedent};
ghost use Rattle.justfile_model.specs.declared.open_delimiter.OpenDelimiter.{OpenDelimiter};
ghost use Rattle.justfile_model.specs.declared.raw_text.RawText.{RawText};
ghost use Rattle.justfile_model.specs.Lexing.BlankLines.{BeginsWithBlankLine, BeginsWithWhiteLines, IsAtLineStart, LevelsClose};
ghost use Rattle.justfile_model.specs.Lexing.Bodies.{IsAfterColon, IsInBody};
ghost use Rattle.justfile_model.specs.Lexing.Lexed.{Begins, end_of};
ghost use Rattle.justfile_model.specs.Lexing.LiteralParts.{IsPart};
ghost use Rattle.justfile_model.specs.Lexing.LiteralText.{raw_len};
ghost use Rattle.justfile_model.specs.Lexing.Modes.{Mode, mode};
ghost use Rattle.justfile_model.specs.Lexing.Next.{NextToken, literal_part, next};
ghost use Rattle.justfile_model.specs.Lexing.Pieces.{HasNoEnd, IsInside};
ghost use Rattle.justfile_model.specs.Lexing.Tok.{Tok};
ghost use Rattle.justfile_model.specs.Lexing.Unclosed.{UnclosedDelimiters, UnclosedInterpolations, UnclosedLevels};

/// Comments, body text and the inside of literals are sequences of pieces up to the first end
/// between two pieces. All of the text is read exactly if there is no such end.
pub fn reads_up_to_first_end()
    ensures end { (s : RawText) (inside follows : List ℕ)
        → ((raw_len s (inside ++ follows) ≡ length inside) × (follows ≢ []))
        ↔ IsInside s inside follows }
    ensures no_end { (s : RawText) (text : List ℕ)
        → (raw_len s text ≡ length text) ↔ HasNoEnd s text }
{}

/// The token of a literal, or of a part of a format string, is its opener, an inside, and an end.
/// It is an error exactly if no position between pieces is an end.
pub fn literals_end_at_first_end()
    ensures { (k : StringKind) (format : Bool) (continued ended : TokenKind) (opener text : List ℕ)
        (found : NextToken)
        → (literal_part k format (length opener) continued ended (opener ++ text) ≡ found)
        ↔ IsPart k format continued ended opener text found }
{}

/// At each position of a text the open delimiters, the levels and the open interpolation are those
/// that the earlier tokens open and don't close, last one first.
pub fn open_is_unclosed()
    ensures delimiters { (text : List ℕ) (earlier : List Tok) → Begins text earlier
        → (delimiters : List OpenDelimiter)
        → ((mode earlier).openers ≡ delimiters) ↔ UnclosedDelimiters (reverse earlier) delimiters }
    ensures levels { (text : List ℕ) (earlier : List Tok) → Begins text earlier
        → (levels : List (List ℕ))
        → ((mode earlier).levels ≡ levels) ↔ UnclosedLevels (reverse earlier) levels }
    ensures interpolation { (text : List ℕ) (earlier : List Tok) → Begins text earlier
        → (starts : List Tok)
        → (option_to_list (mode earlier).interpolation ≡ starts)
        ↔ UnclosedInterpolations (reverse earlier) starts }
{}

/// A position is in a body exactly if there is an indent after a colon, and no dedent since that
/// colon.
pub fn bodies_follow_colons()
    ensures colon { (earlier : List Tok)
        → IsTrue (mode earlier).colon ↔ IsAfterColon (reverse earlier) }
    ensures body { (earlier : List Tok)
        → IsTrue (mode earlier).in_body ↔ IsInBody (reverse earlier) }
{}

/// A level closes before a blank line exactly if the white bytes from there on end in a line feed,
/// and another byte follows them. Then all levels close there.
pub fn levels_close_before_blank_lines()
    ensures one { (m : Mode) → IsAtLineStart m → m.levels ≢ [] → (text : List ℕ) → text ≢ []
        → BeginsWithBlankLine text
        → (next m text ≡ Ok (Dedent, 0)) ↔ BeginsWithWhiteLines text }
    ensures all { (text : List ℕ) (earlier : List Tok) → Begins text earlier
        → IsAtLineStart (mode earlier)
        → BeginsWithBlankLine (drop (end_of earlier) text)
        → BeginsWithWhiteLines (drop (end_of earlier) text) → LevelsClose text earlier }
{}
