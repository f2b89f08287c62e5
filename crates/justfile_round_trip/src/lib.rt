//! The round trip: printed text parses to what was printed. It is proved of the definitions,
//! without code.
#![tactic(auto)]

ghost use Rattle.std.specs.Prelude.{◌≡◌, ℕ, ◌<◌, ◌≤◌, min, List, ◌++◌, length, take, drop, slice_index, Ok, true, false};
ghost use Rattle.justfile_vocabulary.specs.Indentation.{IsIndentation};
ghost use Rattle.justfile_token.specs.declared.string_kind.StringKind.{StringKind};
ghost use Rattle.justfile_vocabulary.specs.declared.token_kind.TokenKind.TheVariants.{StringToken};
ghost use Rattle.justfile_token.specs.StringKind.{is_quote};
ghost use Rattle.justfile_model.specs.Lexing.Bytes.{is_interpolation_start};
ghost use Rattle.justfile_model.specs.Grammars.Conditions.{Conditions, with_limit};
ghost use Rattle.justfile_model.specs.Grammars.Features.{Noted};
ghost use Rattle.justfile_model.specs.Lexing.LiteralText.{raw_len};
ghost use Rattle.justfile_model.specs.Lexing.Modes.{Mode};
ghost use Rattle.justfile_model.specs.Lexing.Next.{literal_token};
ghost use Rattle.justfile_model.specs.Printed.NormalShape.{normal};
ghost use Rattle.justfile_model.specs.Printed.Printing.{printable};
ghost use Rattle.justfile_model.specs.Lexing.Tok.{Tok};
ghost use Rattle.justfile_model.specs.Trees.Tree.{Tree, Shape, shape_of};
ghost use Rattle.justfile_model.specs.declared.raw_text.RawText.TheVariants.{Literal};
ghost use Rattle.justfile_round_trip.specs.LiteralModes.{before_start, has_no_start};
ghost use Rattle.justfile_round_trip.specs.Need.{TextNeeds};
ghost use Rattle.justfile_round_trip.specs.RoundTrip.{TextDerives, ReadsBack, printed};

/// The printed text of a printable shape derives the normal form of that shape, with each feature
/// equally often, the same texts of literals, and the same numbers of bindings and recipes. Two
/// such shapes have the same printed text, with the same indentation, exactly if their normal forms
/// are equal, whatever the depth limits under which they are derived. Printing the printed text
/// gives the same text.
pub fn reads_back()
    ensures back { (conditions : Conditions) (source : List ℕ) (tree : Tree)
        (features : List (Noted Tok))
        (indentation : List ℕ) → IsIndentation indentation
        → TextDerives conditions source tree features → printable (shape_of tree) ≡ true
        → ReadsBack conditions (shape_of tree) features indentation
        (printed (shape_of tree) indentation) }
    ensures alike { (shape other : Shape) (indentation : List ℕ) → normal shape ≡ normal other
        → printed shape indentation ≡ printed other indentation }
    ensures injective { (conditions : Conditions) (limit : ℕ) (source other : List ℕ)
        (tree twin : Tree) (features others : List (Noted Tok))
        (indentation : List ℕ) → IsIndentation indentation
        → TextDerives conditions source tree features
        → TextDerives (with_limit limit conditions) other twin others
        → printable (shape_of tree) ≡ true
        → printable (shape_of twin) ≡ true
        → printed (shape_of tree) indentation ≡ printed (shape_of twin) indentation
        → normal (shape_of tree) ≡ normal (shape_of twin) }
    ensures fixed { (conditions : Conditions) (source : List ℕ) (tree again : Tree)
        (features found : List (Noted Tok))
        (indentation : List ℕ) → IsIndentation indentation
        → TextDerives conditions source tree features → printable (shape_of tree) ≡ true
        → TextDerives conditions (printed (shape_of tree) indentation) again found
        → printed (shape_of again) indentation ≡ printed (shape_of tree) indentation }
    ensures stays_printable { (shape : Shape) → printable (normal shape) ≡ printable shape }
{}

/// A text that derives a tree has a need, the least depth limit under which it derives the tree.
/// The printed text of a printable shape has the least need of all texts with the same normal form,
/// whatever their expander and version.
pub fn least_need()
    ensures need { (conditions : Conditions) (source : List ℕ) (tree : Tree)
        (features : List (Noted Tok)) → TextDerives conditions source tree features
        → (need : ℕ) × TextNeeds conditions source need × (need ≤ conditions.limit) }
    ensures least { (conditions others : Conditions) (source other : List ℕ) (tree twin : Tree)
        (features noted : List (Noted Tok)) (indentation : List ℕ) (need : ℕ)
        → IsIndentation indentation → TextDerives conditions source tree features
        → printable (shape_of tree) ≡ true → TextDerives others other twin noted
        → normal (shape_of twin) ≡ normal (shape_of tree)
        → TextNeeds conditions (printed (shape_of tree) indentation) need → need ≤ others.limit }
{}

/// Format mode and plain mode find the same end of a literal's inside, except at a `{{` that isn't
/// hidden. Both skip a `{{{{` and what a backslash hides.
pub fn modes_agree()
    // Format mode ends at the end of plain mode or at such a `{{`, whichever is first.
    ensures first_end { (kind : StringKind) (text : List ℕ)
        → raw_len (Literal kind true) text
        ≡ min (raw_len (Literal kind false) text) (before_start kind text) }
    // If format mode ends at a delimiter or at the end of the text, plain mode ends there, too.
    ensures whole { (kind : StringKind) (text : List ℕ)
        → is_interpolation_start (drop (raw_len (Literal kind true) text) text) ≡ false
        → raw_len (Literal kind false) text ≡ raw_len (Literal kind true) text }
    // If format mode ends at a `{{`, plain mode ends later.
    ensures part { (kind : StringKind) (text : List ℕ)
        → is_interpolation_start (drop (raw_len (Literal kind true) text) text) ≡ true
        → raw_len (Literal kind true) text < raw_len (Literal kind false) text }
    // If the inside in plain mode has no `{{`, format mode ends at the same position.
    ensures plain { (kind : StringKind) (text : List ℕ)
        → has_no_start (take (raw_len (Literal kind false) text) text) ≡ true
        → raw_len (Literal kind true) text ≡ raw_len (Literal kind false) text }
    // A string token of either mode is the same token in plain mode, before any text that doesn't
    // begin with a quote.
    ensures again { (m n : Mode) (lexeme following more : List ℕ)
        → is_quote (slice_index lexeme 0) ≡ true
        → literal_token m (lexeme ++ following) ≡ Ok (StringToken, length lexeme)
        → n.after_f ≡ false
        → is_quote (slice_index more 0) ≡ false
        → literal_token n (lexeme ++ more) ≡ Ok (StringToken, length lexeme) }
{}
