//! Laws of the definitions of literals. Each is the contract of a function with an empty body.
ghost use Rattle.std.specs.Prelude.{◌≡◌, ◌≤◌, ◌++◌, ◌⊎◌, [], false, true, ℕ, List, Err, Ok, encode_utf8_all, flat_map, length};
ghost use Rattle.std.specs.List.{concat, list_all, list_any};
ghost use Rattle.std.specs.Str.{IsUtf8};
ghost use Rattle.justfile_vocabulary.specs.Indentation.{is_space_or_tab};
ghost use Rattle.justfile_model.specs.LiteralTexts.Cook.{AreEscapedPieces, Cooks, Piece, Refused, raw_of};
ghost use Rattle.justfile_model.specs.LiteralTexts.EscapeFault.{EscapeFault};
ghost use Rattle.justfile_model.specs.LiteralTexts.FirstPiece.{cooked_from_left};
ghost use Rattle.justfile_model.specs.LiteralTexts.Unindent.{IsLongestRun, is_first, indentation, is_blank_line, lines_of_text, unindented};

/// A text has at most one cooked text or one fault, and never both.
pub fn one_answer()
    ensures cooked { (text one other : List ℕ) → Cooks text one → Cooks text other → one ≡ other }
    ensures fault { (text : List ℕ) (one other : EscapeFault) → Refused text one
        → Refused text other → one ≡ other }
    ensures never_both { (text cooked : List ℕ) (fault : EscapeFault) → Cooks text cooked
        → Refused text fault → ⊥ }
{}

/// The pieces before the first bad one are the longest prefix of the text that consists of pieces.
pub fn longest_front()
    ensures { (text : List ℕ)
        (fault : EscapeFault) (refused : Refused text fault) (pieces : List Piece) (rest : List ℕ)
        → AreEscapedPieces pieces → encode_utf8_all (flat_map raw_of pieces ++ rest) ≡ text
        → length (flat_map raw_of pieces) ≤ length (flat_map raw_of refused.pieces) }
{}

/// Each text has a cooked text or a fault, and cooking from left to right finds it.
pub fn answer_for_all()
    ensures one { (text : List ℕ) → IsUtf8 text → ((cooked : List ℕ) × Cooks text cooked)
        ⊎ ((fault : EscapeFault) × Refused text fault) }
    ensures sound { (text cooked : List ℕ) → IsUtf8 text → cooked_from_left text ≡ Ok cooked
        → Cooks text cooked }
    ensures complete { (text cooked : List ℕ) → IsUtf8 text → Cooks text cooked
        → cooked_from_left text ≡ Ok cooked }
    ensures sound_fault { (text : List ℕ) (fault : EscapeFault) → IsUtf8 text
        → cooked_from_left text ≡ Err fault → Refused text fault }
    ensures complete_fault { (text : List ℕ) (fault : EscapeFault) → IsUtf8 text
        → Refused text fault → cooked_from_left text ≡ Err fault }
{}

/// The cooked text of a text in UTF-8 is in UTF-8.
pub fn cooked_is_utf8()
    ensures { (text cooked : List ℕ) → IsUtf8 text → Cooks text cooked → IsUtf8 cooked }
{}

/// The lines of a text, concatenated, are the text.
pub fn lines_joined()
    ensures { (text : List ℕ) → concat (lines_of_text text) ≡ text }
{}

/// The indentation of lines is the longest run of blanks with which all lines begin, except blank
/// ones.
pub fn indentation_is_longest()
    ensures { (ls : List (List ℕ)) → IsLongestRun (indentation ls) ls }
{}

/// The empty text is its own unindented text, and so is a text without blank lines whose lines
/// don't all begin with the same blank.
#[tactic(auto, unfolding(justfile_model::specs::LiteralTexts::Unindent::unindented))]
pub fn unindented_already()
    ensures empty { unindented [] ≡ [] }
    ensures nothing_shared { (text : List ℕ) → list_any is_blank_line (lines_of_text text) ≡ false
        → ((b : ℕ) → is_space_or_tab b ≡ true → list_all (is_first b) (lines_of_text text) ≡ false)
        → unindented text ≡ text }
{}
