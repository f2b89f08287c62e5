//! Laws of the grammar. Each is the contract of a function with an empty body.
ghost use Rattle.std.specs.Prelude.{◌≡◌, ◌<◌, ◌≤◌, ◌⊎◌, ℕ, ◌+◌, Bool, IsTrue, List, length, map, slice_index, Option, Some, IfSome, Ok, Err};
ghost use Rattle.std.specs.Option.{is_some, option_map};
ghost use Rattle.justfile_vocabulary.specs.Indentation.{IsIndentation};
ghost use Rattle.justfile_vocabulary.specs.Keyword.{is_setting_name};
ghost use Rattle.justfile_vocabulary.specs.declared.keyword.Keyword.{Keyword};
ghost use Rattle.justfile_model.specs.Grammars.Conditions.{Conditions, with_expander, with_limit};
ghost use Rattle.justfile_model.specs.Meanings.Enabled.{indentation_of};
ghost use Rattle.justfile_model.specs.Grammars.Expressions.{BelowLimit, PastLimitAt};
ghost use Rattle.justfile_model.specs.Grammars.Features.{ConstructFeatures, Noted, over_noted};
ghost use Rattle.justfile_model.specs.Grammars.Files.{FileTree, FileDerives, NumbersFrom, Obeys, ShapeDerives, all_features, to_tokens, literals, ordered, bindings, recipes};
ghost use Rattle.justfile_model.specs.Grammars.Grammar.{File};
ghost use Rattle.justfile_model.specs.Lexing.Lexed.{Lexed};
ghost use Rattle.justfile_model.specs.LiteralTexts.Literals.{Literal, Expansions, Within, AreCookedTexts, restricted_to, string_text};
ghost use Rattle.justfile_model.specs.Grammars.Settings.{setting_form};
ghost use Rattle.justfile_model.specs.Grammars.Need.{DerivesUnder, IsNeed};
ghost use Rattle.justfile_model.specs.Printed.NormalShape.{normal};
ghost use Rattle.justfile_model.specs.Printed.Printing.{printable, text};
ghost use Rattle.justfile_model.specs.Readers.Reader.{items};
ghost use Rattle.justfile_model.specs.Readers.ReaderState.{Counters, TooDeep};
ghost use Rattle.justfile_model.specs.Readers.ReadErrors.{IsDue};
ghost use Rattle.justfile_model.specs.Trees.LeafView.{views_tokens};
ghost use Rattle.justfile_model.specs.Lexing.SignificantTokens.{AllSpelled, SignificantToken, identifiers, significant_tokens};
ghost use Rattle.justfile_model.specs.Lexing.Tok.{Tok};
ghost use Rattle.justfile_model.specs.Trees.Tree.{Tree, Shape, WrittenTree, lexeme, nothing, shape_of};
ghost use Rattle.justfile_model.specs.Printed.Uncommented.{HasNoComments, uncommented_text};
ghost use Rattle.justfile_model.specs.Readers.TreeReader.{ReadError, State, tree_of_tokens, token_attributes, token_leaves};

/// The parser and the grammar agree, and tokens derive at most one tree with its features.
pub fn reads()
    // A written tree is parsed exactly if the grammar derives it under the limit, and it obeys the
    // conditions.
    ensures derives { (C : Conditions) (ts : List SignificantToken) (written : WrittenTree)
        (features : List (Noted Tok))
        → tree_of_tokens C ts ≡ Ok (written, features)
        → (fs : List (ConstructFeatures Tok)) × File to_tokens (BelowLimit C.limit) written fs ts
        × Obeys C written
        × (features ≡ all_features (views_tokens C.expander) written fs) }
    ensures read { (C : Conditions) (ts : List SignificantToken) (written : WrittenTree)
        (fs : List (ConstructFeatures Tok))
        → File to_tokens (BelowLimit C.limit) written fs ts → Obeys C written
        → tree_of_tokens C ts ≡ Ok (written, all_features (views_tokens C.expander) written fs) }
    // A tree is derived exactly if a written tree with its meaning is parsed.
    ensures sound { (C : Conditions) (ts : List SignificantToken) (written : WrittenTree)
        (features : List (Noted Tok))
        → tree_of_tokens C ts ≡ Ok (written, features)
        → (tree : Tree) × (ordered (views_tokens C.expander) written ≡ Some tree)
        × FileDerives C ts tree features }
    ensures complete { (C : Conditions) (ts : List SignificantToken) (tree : Tree)
        (features : List (Noted Tok))
        → FileDerives C ts tree features
        → (written : WrittenTree) × (ordered (views_tokens C.expander) written ≡ Some tree)
        × (tree_of_tokens C ts ≡ Ok (written, features)) }
    // If only expressions that begin at the given tokens exceed the limit, the tree is parsed, or
    // the error is the depth at one of these tokens.
    ensures past_limit { (C : Conditions) (ts : List SignificantToken) (written : WrittenTree)
        (fs : List (ConstructFeatures Tok))
        (Hit : Option SignificantToken → Bool)
        → File to_tokens (PastLimitAt C.limit (λ at. IsTrue (Hit at))) written fs ts
        → Obeys C written
        → (tree_of_tokens C ts ≡ Ok (written, all_features (views_tokens C.expander) written fs))
        ⊎ ((at : Option SignificantToken) × IsTrue (Hit at)
        × (tree_of_tokens C ts ≡ Err (TooDeep at))) }
    // If the grammar derives a tree without the limit, the tree is parsed, or the error is the
    // depth at some token.
    ensures without_limit { (C : Conditions) (ts : List SignificantToken) (written : WrittenTree)
        (fs : List (ConstructFeatures Tok))
        → FileTree ts written fs → Obeys C written
        → (tree_of_tokens C ts ≡ Ok (written, all_features (views_tokens C.expander) written fs))
        ⊎ ((at : Option SignificantToken) × (tree_of_tokens C ts ≡ Err (TooDeep at))) }
    // If only expressions that begin at the given tokens exceed the limit, an error is the first
    // literal without a text, a broken rule, or the depth at one of these tokens.
    ensures error_past_limit { (C : Conditions) (ts : List SignificantToken) (written : WrittenTree)
        (fs : List (ConstructFeatures Tok))
        (Hit : Option SignificantToken → Bool)
        → File to_tokens (PastLimitAt C.limit (λ at. IsTrue (Hit at))) written fs ts
        → (r : ReadError) → tree_of_tokens C ts ≡ Err r
        → IsDue C (λ at. IsTrue (Hit at)) written r }
    // By the grammar alone: an error is the first literal without a text, a broken rule, or the
    // depth at some token.
    ensures error_without_limit { (C : Conditions) (ts : List SignificantToken)
        (written : WrittenTree) (fs : List (ConstructFeatures Tok))
        → FileTree ts written fs
        → (r : ReadError) → tree_of_tokens C ts ≡ Err r → IsDue C (λ at. Unit {0}) written r }
    ensures one { (C : Conditions) (ts : List SignificantToken) (tree other : Tree)
        (features others : List (Noted Tok))
        → FileDerives C ts tree features → FileDerives C ts other others
        → (tree ≡ other) × (features ≡ others) }
{}

/// A tree has at most as many bindings and recipes as its tokens have identifiers. The counters
/// grow by the numbers of bindings and recipes in the tree.
pub fn counts()
    ensures whole { (C : Conditions) (ts : List SignificantToken)
        (x : WrittenTree × List (Noted Tok)) → tree_of_tokens C ts ≡ Ok x
        → bindings x.0 + recipes x.0 ≤ identifiers ts }
    ensures bindings { (n : Counters) (s : State) (x : (WrittenTree × Counters) × State)
        → items token_leaves token_attributes n s ≡ Ok x
        → x.0.1.bindings ≡ n.bindings + bindings x.0.0 }
    ensures recipes { (n : Counters) (s : State) (x : (WrittenTree × Counters) × State)
        → items token_leaves token_attributes n s ≡ Ok x
        → x.0.1.recipes ≡ n.recipes + recipes x.0.0 }
    ensures constants { (n : Counters) (s : State) (x : (WrittenTree × Counters) × State)
        → items token_leaves token_attributes n s ≡ Ok x
        → x.0.1.constants ≡ n.constants }
{}

/// Tokens that derive a tree under a limit derive it under each greater one. Such tokens have
/// exactly one need, the least limit under which they derive a tree, and every limit from there on
/// suffices.
pub fn needs()
    ensures raised { (C : Conditions) (ts : List SignificantToken) (limit : ℕ) → C.limit ≤ limit
        → (tree : Tree) (features : List (Noted Tok)) → FileDerives C ts tree features
        → FileDerives (with_limit limit C) ts tree features }
    ensures need { (C : Conditions) (ts : List SignificantToken) (tree : Tree)
        (features : List (Noted Tok)) → FileDerives C ts tree features
        → (need : ℕ) × IsNeed C ts need × (need ≤ C.limit) }
    ensures one { (C : Conditions) (ts : List SignificantToken) (m n : ℕ) → IsNeed C ts m
        → IsNeed C ts n → m ≡ n }
    ensures enough { (C : Conditions) (ts : List SignificantToken) (need limit : ℕ)
        → IsNeed C ts need → need ≤ limit → DerivesUnder C ts limit }
    // Whether a limit suffices depends neither on the expander nor on the version: tokens that
    // derive under these conditions and under others derive under these with the limit of the
    // others.
    ensures relimited { (C D : Conditions) (ts : List SignificantToken) (tree other : Tree)
        (features others : List (Noted Tok)) → FileDerives C ts tree features
        → FileDerives D ts other others → FileDerives (with_limit D.limit C) ts tree features }
    // Tokens that derive under another limit, but not under this one, are too deep. If only
    // expressions that begin at the given tokens exceed the limit, the error is at one of these
    // tokens.
    ensures deep { (C : Conditions) (ts : List SignificantToken) (limit : ℕ) (tree : Tree)
        (features : List (Noted Tok)) → FileDerives (with_limit limit C) ts tree features
        → (r : ReadError) → tree_of_tokens C ts ≡ Err r
        → (at : Option SignificantToken) × (r ≡ TooDeep at) }
    ensures deep_at { (C : Conditions) (ts : List SignificantToken) (limit : ℕ) (tree : Tree)
        (features : List (Noted Tok)) (h : FileDerives (with_limit limit C) ts tree features)
        (r : ReadError) → tree_of_tokens C ts ≡ Err r
        → (fs : List (ConstructFeatures Tok)) (Hit : Option SignificantToken → Bool)
        → File to_tokens (PastLimitAt C.limit (λ at. IsTrue (Hit at))) h.written fs ts
        → (at : Option SignificantToken) × IsTrue (Hit at) × (r ≡ TooDeep at) }
{}

/// For tokens with the lexemes of their kinds, such as the tokens of a text: they derive a tree
/// exactly if they derive its shape, with the same features up to the projections of their tokens.
/// They derive at most one shape with its features. Literals have at most one list of texts.
pub fn shapes()
    ensures spelled { (source : List ℕ) (tokens : List Tok) → Lexed source tokens
        → AllSpelled (significant_tokens tokens) }
    ensures shape_of_tree { (C : Conditions) (ts : List SignificantToken) → AllSpelled ts
        → (tree : Tree) (features : List (Noted Tok))
        → FileDerives C ts tree features
        → ShapeDerives C ts (shape_of tree) (map (over_noted nothing) features) }
    ensures tree_of_shape { (C : Conditions) (ts : List SignificantToken) → AllSpelled ts
        → (shape : Shape) (features : List (Noted (Unit {0})))
        → ShapeDerives C ts shape features
        → (tree : Tree) × (noted : List (Noted Tok)) × FileDerives C ts tree noted
        × (shape_of tree ≡ shape)
        × (map (over_noted nothing) noted ≡ features) }
    ensures one { (C : Conditions) (ts : List SignificantToken) → AllSpelled ts
        → (shape other : Shape)
        (features others : List (Noted (Unit {0})))
        → ShapeDerives C ts shape features → ShapeDerives C ts other others
        → (shape ≡ other) × (features ≡ others) }
    ensures texts { (E : Expansions) (literals : List (Literal (List ℕ)))
        (texts others : List (List ℕ)) → AreCookedTexts E literals texts
        → AreCookedTexts E literals others → texts ≡ others }
{}

/// Normalizing a shape twice is the same as once. It keeps the literals, the numbers of bindings
/// and recipes, and whether the shape is printable.
pub fn normal_twice()
    ensures twice { (s : Shape) → normal (normal s) ≡ normal s }
    ensures same_literals { (s : Shape) → literals (normal s) ≡ literals s }
    ensures same_bindings { (s : Shape) → bindings (normal s) ≡ bindings s }
    ensures same_recipes { (s : Shape) → recipes (normal s) ≡ recipes s }
    ensures same_printable { (s : Shape) → printable (normal s) ≡ printable s }
{}

/// The indentation of a file depends on its shape only, and is the same for the normal form. The
/// literal that sets it is an indentation.
pub fn indentations()
    ensures shape { (tree : Tree)
        → indentation_of (shape_of tree) ≡ option_map lexeme (indentation_of tree) }
    ensures normal { (s : Shape) → indentation_of (normal s) ≡ indentation_of s }
    ensures literal { (C : Conditions) (ts : List SignificantToken) (shape : Shape)
        (features : List (Noted (Unit {0})))
        → ShapeDerives C ts shape features → IfSome (indentation_of shape)
        (λ literal. (text : List ℕ) × (string_text literal ≡ Ok text) × IsIndentation text) }
{}

/// Tokens that derive with an expander derive the same with an expander that has more results, and
/// with one that has its results for finitely many texts alone.
pub fn expanders()
    ensures tree { (C : Conditions) (F : Expansions) → Within C.expander F
        → (ts : List SignificantToken) (tree : Tree) (features : List (Noted Tok))
        → FileDerives C ts tree features
        → FileDerives (with_expander F C) ts tree features }
    ensures shape { (C : Conditions) (F : Expansions) → Within C.expander F
        → (ts : List SignificantToken) (shape : Shape) (features : List (Noted (Unit {0})))
        → ShapeDerives C ts shape features
        → ShapeDerives (with_expander F C) ts shape features }
    ensures tree_asks { (C : Conditions) (ts : List SignificantToken) (tree : Tree)
        (features : List (Noted Tok))
        → FileDerives C ts tree features
        → (texts : List (List ℕ))
        × FileDerives (with_expander (restricted_to texts C.expander) C) ts tree features }
    ensures shape_asks { (C : Conditions) (ts : List SignificantToken) (shape : Shape)
        (features : List (Noted (Unit {0})))
        → ShapeDerives C ts shape features
        → (texts : List (List ℕ))
        × ShapeDerives (with_expander (restricted_to texts C.expander) C) ts shape features }
{}

/// The printed text depends on the normal shape and the indentation only.
pub fn printing()
    ensures { (s r : Shape) (indentation : List ℕ) → normal s ≡ normal r
        → text (normal s) indentation ≡ text (normal r) indentation }
{}

/// If no attribute and no recipe has a comment, the printed text is the one that ignores comments.
pub fn uncommented()
    ensures { (s : Shape) (indentation : List ℕ) → HasNoComments s
        → text (normal s) indentation ≡ uncommented_text (normal s) indentation }
{}

/// The numbers of a parse are distinct and ascend in the order of parsing.
pub fn numbers_rise()
    ensures { (first : ℕ) (numbers : List ℕ) → NumbersFrom first numbers → (i j : ℕ) → i < j
        → j < length numbers
        → slice_index numbers i < slice_index numbers j }
{}

/// A keyword is the name of a setting exactly if that setting has a form.
pub fn setting_names()
    ensures { (k : Keyword) → is_setting_name k ≡ is_some (setting_form k) }
{}
