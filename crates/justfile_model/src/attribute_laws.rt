//! Laws of attributes. Each is the contract of a function with an empty body. They hold for every
//! view of the tokens of trees.
ghost use Rattle.std.specs.Prelude.{◌≡◌, List, [], Contains, Some, Ok, Err};
ghost use Rattle.std.specs.Cmp.{IsTotalOrder};
ghost use Rattle.justfile_vocabulary.specs.declared.attribute_kind.AttributeKind.{AttributeKind};
ghost use Rattle.justfile_model.specs.Meanings.ArgumentTexts.{HasTexts};
ghost use Rattle.justfile_model.specs.Meanings.AttributeRules.{arguments_broken};
ghost use Rattle.justfile_model.specs.Trees.ContentKeys.{entry_cmp};
ghost use Rattle.justfile_model.specs.Meanings.Meaning.{KeyArgument, PositionalArgument, attribute_of};
ghost use Rattle.justfile_model.specs.Readers.NewAttribute.{new_attribute};
ghost use Rattle.justfile_model.specs.Lists.Order.{IsStableSort, in_order};
ghost use Rattle.justfile_model.specs.Meanings.Rules.{Broken};
ghost use Rattle.justfile_model.specs.Trees.LeafView.{LeafView};
ghost use Rattle.justfile_model.specs.Trees.Tree.{Attribute, Entry};

/// The content order of attributes is total. Sorting the attributes of a construct is stable, a
/// stable sort is unique, and sorting twice changes nothing.
pub fn content_order<A, B>()
    ensures total { (view : LeafView A B) → IsTotalOrder (entry_cmp view) }
    ensures sorted { (view : LeafView A B) (entries : List (Entry A B))
        → IsStableSort (entry_cmp view) entries (in_order (entry_cmp view) entries) }
    ensures one { (view : LeafView A B) (entries others : List (Entry A B))
        → IsStableSort (entry_cmp view) entries others
        → others ≡ in_order (entry_cmp view) entries }
    ensures twice { (view : LeafView A B) (entries : List (Entry A B))
        → in_order (entry_cmp view) (in_order (entry_cmp view) entries)
        ≡ in_order (entry_cmp view) entries }
{}

/// An attribute that is made from arguments is what the arguments mean, and they break no rule. If
/// the literals among the arguments have texts, an error names a rule that is broken, and arguments
/// that break no rule make an attribute.
pub fn attributes_made<A, B>()
    ensures made { (view : LeafView A B) (at : B) (kind : AttributeKind)
        (placed : List (PositionalArgument A B)) (keys : List (KeyArgument A B))
        (a : Attribute A B) → new_attribute view at kind placed keys ≡ Ok a
        → (attribute_of view kind placed keys ≡ Some a)
        × (arguments_broken view at kind placed keys ≡ []) }
    ensures refused { (view : LeafView A B) (at : B) (kind : AttributeKind)
        (placed : List (PositionalArgument A B)) (keys : List (KeyArgument A B))
        (r : Broken B) → new_attribute view at kind placed keys ≡ Err r → HasTexts view placed keys
        → Contains (arguments_broken view at kind placed keys) r }
    ensures unbroken { (view : LeafView A B) (at : B) (kind : AttributeKind)
        (placed : List (PositionalArgument A B)) (keys : List (KeyArgument A B))
        → arguments_broken view at kind placed keys ≡ [] → HasTexts view placed keys
        → (a : Attribute A B) × (new_attribute view at kind placed keys ≡ Ok a) }
{}
