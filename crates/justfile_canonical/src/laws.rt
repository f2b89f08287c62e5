//! Laws of formatted texts. Each is the contract of a function that does nothing.
ghost use Rattle.std.specs.Prelude.{◌≡◌, ℕ, true, List};
ghost use Rattle.justfile_model.specs.Grammars.Features.{Noted};
ghost use Rattle.justfile_model.specs.Printed.NormalShape.{normal};
ghost use Rattle.justfile_model.specs.Printed.Printing.{printable};
ghost use Rattle.justfile_model.specs.Lexing.Tok.{Tok};
ghost use Rattle.justfile_model.specs.Trees.Tree.{Tree, shape_of};
ghost use Rattle.justfile_round_trip.specs.RoundTrip.{TextDerives};
ghost use Rattle.justfile_canonical.specs.Formatting.{HasNone, IsFormatted};
ghost use Rattle.justfile_canonical.specs.Root.{conditions};

/// A text that derives a printable tree has exactly one canonical text, at its own indentation, and
/// isn't one of those without a canonical text. Formatting the canonical text returns it unchanged.
/// Texts with the same canonical text have equal normal shapes and equal indentations; and texts
/// with equal normal shapes have the same canonical text.
pub fn formatted_texts()
    ensures formatted { (source : List ℕ) (tree : Tree) (features : List (Noted Tok))
        → TextDerives conditions source tree features → printable (shape_of tree) ≡ true
        → (canonical : List ℕ) × IsFormatted source canonical }
    ensures one { (source canonical other : List ℕ)
        → IsFormatted source canonical → IsFormatted source other → canonical ≡ other }
    ensures never_both { (source canonical : List ℕ)
        → IsFormatted source canonical → HasNone source → ⊥ }
    ensures settled { (source canonical : List ℕ)
        → IsFormatted source canonical → IsFormatted canonical canonical }
    ensures same_shape { (source other canonical : List ℕ)
        (f : IsFormatted source canonical) (g : IsFormatted other canonical)
        → (normal (shape_of f.tree) ≡ normal (shape_of g.tree)) × (f.indentation ≡ g.indentation) }
    ensures same_text { (source other canonical twin : List ℕ)
        (f : IsFormatted source canonical) (g : IsFormatted other twin)
        → normal (shape_of f.tree) ≡ normal (shape_of g.tree) → canonical ≡ twin }
{}
