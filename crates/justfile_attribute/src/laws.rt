//! Laws of attributes. Each is the contract of a function that does nothing.
ghost use Rattle.std.specs.Prelude.{◌≡◌, List, [], Contains, Some, Ok, Err, map};
ghost use Rattle.std.specs.Global.{Box};
ghost use Rattle.justfile_vocabulary.specs.declared.attribute_kind.AttributeKind.{AttributeKind};
ghost use Rattle.justfile_token.specs.declared.token.Token.{Token};
ghost use Rattle.justfile_model.specs.Meanings.AttributeRules.{arguments_broken};
ghost use Rattle.justfile_model.specs.Meanings.Meaning.{attribute_of};
ghost use Rattle.justfile_model.specs.Readers.NewAttribute.{new_attribute};
ghost use Rattle.justfile_model.specs.Meanings.Rules.{Broken};
ghost use Rattle.justfile_model.specs.Trees.Tree.{Attribute};
ghost use Rattle.justfile_expression.specs.LeafTree.{Leaf};
ghost use Rattle.justfile_expression.specs.Orders.{IsOrder};
ghost use Rattle.justfile_expression.specs.declared.expression.Expression.{Expression};
ghost use Rattle.justfile_attribute.specs.Boxes.{unboxed_entry, unboxed_pair};
ghost use Rattle.justfile_attribute.specs.ByValue.{GivenKey, Placed, given_leaves, placed_leaves};
ghost use Rattle.justfile_attribute.specs.Equal.{attribute_eq};
ghost use Rattle.justfile_attribute.specs.InterpreterOrder.{interpreter_cmp, interpreter_eq};
ghost use Rattle.justfile_attribute.specs.contracts.attribute.AttributePartialEq.TheImpl as equality;
ghost use Rattle.justfile_attribute.specs.declared.attribute.Attribute as code;
ghost use Rattle.justfile_attribute.specs.declared.interpreter.Interpreter.{Interpreter};
ghost use Rattle.justfile_attribute_rules.specs.Keys.{KeyMap, key_arguments, views_keys};
ghost use Rattle.justfile_attribute_rules.specs.Made.{positional_leaves};

use crate::interpreter::Interpreter;

/// `Attribute::new` returns what its arguments mean by the definitions, and then they break no
/// rule. If it returns an error, they break the rule that the error reports. If the arguments break
/// no rule, it returns an attribute. Arguments in boxes, as `Attribute::from_boxes` takes them, are
/// to the definitions those that the boxes hold.
pub fn new_attributes()
    ensures made { (at : Token) (kind : AttributeKind)
        (placed : List Placed) (keys : List GivenKey) (a : Attribute Leaf Token)
        → new_attribute views_keys at kind (placed_leaves placed) (given_leaves keys) ≡ Ok a
        → (attribute_of views_keys kind (placed_leaves placed) (given_leaves keys) ≡ Some a)
        × (arguments_broken views_keys at kind (placed_leaves placed)
        (given_leaves keys) ≡ []) }
    ensures refused { (at : Token) (kind : AttributeKind)
        (placed : List Placed) (keys : List GivenKey) (r : Broken Token)
        → new_attribute views_keys at kind (placed_leaves placed)
        (given_leaves keys) ≡ Err r
        → Contains (arguments_broken views_keys at kind (placed_leaves placed)
        (given_leaves keys)) r }
    ensures unbroken { (at : Token) (kind : AttributeKind)
        (placed : List Placed) (keys : List GivenKey)
        → arguments_broken views_keys at kind (placed_leaves placed)
        (given_leaves keys) ≡ []
        → (a : Attribute Leaf Token)
        × (new_attribute views_keys at kind (placed_leaves placed)
        (given_leaves keys) ≡ Ok a) }
    ensures boxed { (placed : List (Token × Box Expression))
        → positional_leaves placed ≡ placed_leaves (map unboxed_pair placed) }
    ensures boxed_keys { (keys : KeyMap)
        → key_arguments keys ≡ given_leaves (map unboxed_entry keys.entries) }
{}

/// Two attributes are equal exactly if they are of the same case and all their fields are equal,
/// positions included.
pub fn attributes_equal()
    ensures { (a b : code.Attribute) → equality.eq-value.it a b ≡ attribute_eq a b }
{}

/// Interpreters compare by their commands, and then by their arguments, from the left. The order is
/// total and agrees with `==`, which holds if the commands and the arguments are equal.
pub fn interpreters_ordered<T: Ord>()
    ensures equal { (i j : Interpreter T)
        → ⟦<Interpreter<T> as PartialEq>⟧.eq i j ≡ interpreter_eq T.eq i j }
    ensures order { IsOrder ⟦<Interpreter<T> as PartialEq>⟧.eq ⟦<Interpreter<T> as Ord>⟧.cmp
        (interpreter_cmp T.cmp) }
{}
