//! Laws of the definitions in `specs/`. Each is the contract of a function with an empty body.
ghost use Rattle.std.specs.Prelude.{◌≡◌, ◌↔◌, ◌∷◌, [], ℕ, List, None, Some};
ghost use Rattle.std.specs.List.{filter};
ghost use Rattle.justfile_vocabulary.specs.AttributeKind.{attribute_kinds, attribute_name, kind_named};
ghost use Rattle.justfile_vocabulary.specs.contracts.attribute_kind.AttributeKindPartialEq.TheImpl as kinds;
ghost use Rattle.justfile_vocabulary.specs.Indentation.{IsIndentation, indentation_refusal, indentation_text};
ghost use Rattle.justfile_vocabulary.specs.Keyword.{keyword_text, keywords};
ghost use Rattle.justfile_vocabulary.specs.contracts.keyword.KeywordPartialEq.TheImpl as same_keywords;
ghost use Rattle.justfile_vocabulary.specs.Signal.{signal_name, signal_named};
ghost use Rattle.justfile_vocabulary.specs.declared.attribute_kind.AttributeKind.{AttributeKind};
ghost use Rattle.justfile_vocabulary.specs.declared.indentation.Indentation.{Indentation};
ghost use Rattle.justfile_vocabulary.specs.declared.keyword.Keyword.{Keyword};
ghost use Rattle.justfile_vocabulary.specs.declared.signal.Signal.{Signal};

use crate::attribute_kind::AttributeKind;
use crate::keyword::Keyword;

/// The texts of indentations are exactly those of one or more copies of the same blank.
pub fn indentation_texts()
    ensures sound { (i : Indentation) → IsIndentation (indentation_text i) }
    ensures complete { (text : List ℕ)
        → IsIndentation text → (i : Indentation) × (indentation_text i ≡ text) }
    ensures refused { (text : List ℕ) → (indentation_refusal text ≡ None) ↔ IsIndentation text }
{}

/// No two keywords have the same spelling.
pub fn one_spelling()
    ensures { (j k : Keyword) → keyword_text j ≡ keyword_text k → j ≡ k }
{}

/// A text is parsed to a kind of attribute exactly if it is the name of that kind.
pub fn attribute_names()
    ensures { (text : List ℕ) (k : AttributeKind)
        → (kind_named text ≡ Some k) ↔ (text ≡ attribute_name k) }
{}

/// A text is parsed to a signal exactly if it is the name of that signal.
pub fn signal_names()
    ensures { (text : List ℕ) (s : Signal) → (signal_named text ≡ Some s) ↔ (text ≡ signal_name s) }
{}

/// The table of keywords has each of them once.
pub fn all_keywords()
    ensures all { Keyword.ALL ≡ keywords }
    ensures once { (k : Keyword) → filter (same_keywords.eq-value.it k) Keyword.ALL ≡ k ∷ [] }
{}

/// The table of kinds of attributes has each of them once.
pub fn all_attribute_kinds()
    ensures all { AttributeKind.ALL ≡ attribute_kinds }
    ensures once { (k : AttributeKind) → filter (kinds.eq-value.it k) AttributeKind.ALL ≡ k ∷ [] }
{}
