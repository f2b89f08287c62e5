//! Laws of the definitions in `specs/`. Each is the contract of a function with an empty body.
ghost use Rattle.std.specs.Prelude.{◌≡◌, ℕ, ◌<◌, ◌&&◌, ◌==◌, List, [], length};
ghost use Rattle.std.specs.List.{flat_map};
ghost use Rattle.std.specs.List.Sorted.{IsNonDecreasingBy};
ghost use Rattle.std.specs.Str.{IsUtf8};
ghost use Rattle.justfile_model.specs.Lexing.Tok.{Tok};
ghost use Rattle.justfile_model.specs.Lexing.LexicalFault.{LexicalFault};
ghost use Rattle.justfile_model.specs.Lexing.Modes.{mode};
ghost use Rattle.justfile_model.specs.Lexing.Places.{column_at};
ghost use Rattle.justfile_model.specs.Lexing.Lexed.{Begins, EndsInEof, Follows, IsAnswered, IsFault, Lexed, end_of};

/// A text has at most one list of tokens or one fault, and never both.
pub fn one_answer()
    ensures list { (text : List ℕ) (ts us : List Tok) → Lexed text ts → Lexed text us → ts ≡ us }
    ensures fault { (text : List ℕ) (p q : LexicalFault) (t u : Tok) → IsFault text p t
        → IsFault text q u → (p ≡ q) × (t ≡ u) }
    ensures never_both { (text : List ℕ) (ts : List Tok) (p : LexicalFault) (t : Tok)
        → Lexed text ts → IsFault text p t → ⊥ }
{}

/// The tokens of a text, concatenated, are the text.
pub fn tiling()
    ensures { (text : List ℕ) (ts : List Tok) → IsUtf8 text → Lexed text ts
        → flat_map (λ t. t.lexeme) ts ≡ text }
{}

/// If each token of a list is the one that the text has after the tokens before it, these are the
/// tokens of the text.
pub fn in_order()
    ensures { (text : List ℕ) (ts : List Tok) → Follows text [] ts → Lexed text ts }
{}

/// The offsets of the tokens never decrease.
pub fn offsets_rise()
    ensures { (text : List ℕ) (ts : List Tok) → Lexed text ts
        → IsNonDecreasingBy (λ t. t.offset) ts }
{}

/// The last token is the only `Eof`. It is empty and at the end of the text.
pub fn eof_is_last()
    ensures { (text : List ℕ) (ts : List Tok) → IsUtf8 text → Lexed text ts → EndsInEof text ts }
{}

/// Before the end of the text, a position is at column 0 exactly if the mode says that a line
/// starts: at the start of the text, and after a token that ends a line. The end of a text that
/// isn't empty is never at column 0.
pub fn lines_start_at_column_0()
    ensures text_left { (text : List ℕ) (earlier : List Tok) → IsUtf8 text → Begins text earlier
        → end_of earlier < length text
        → (mode earlier).line_start ≡ (column_at text (end_of earlier) == 0) }
    ensures no_text_left { (text : List ℕ) → 0 < length text → 0 < column_at text (length text) }
{}

/// Each text has tokens or a fault.
pub fn answer_for_all()
    ensures { (text : List ℕ) → IsUtf8 text → IsAnswered text }
{}
