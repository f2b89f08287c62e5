//! Laws of equalities. Each is the contract of a function that does nothing.
ghost use Rattle.std.specs.Prelude.{◌≡◌};
ghost use Rattle.justfile_item.specs.Equal.{alias_eq, binding_eq, function_eq};
ghost use Rattle.justfile_item.specs.declared.alias.Alias.{Alias};
ghost use Rattle.justfile_item.specs.declared.binding.Binding.{Binding};
ghost use Rattle.justfile_item.specs.declared.function_definition.FunctionDefinition.{FunctionDefinition};

use crate::alias::Alias;
use crate::binding::Binding;
use crate::function_definition::FunctionDefinition;

/// Bindings of values of any type are equal exactly if all their fields are. The same holds for
/// aliases and functions.
pub fn bindings_equal<V: PartialEq>()
    ensures bindings { (a b : Binding V)
        → ⟦<Binding<'static, V> as PartialEq>⟧.eq a b ≡ binding_eq V.eq a b }
    ensures aliases { (a b : Alias V)
        → ⟦<Alias<'static, V> as PartialEq>⟧.eq a b ≡ alias_eq V.eq a b }
    ensures functions { (f g : FunctionDefinition)
        → ⟦<FunctionDefinition<'static> as PartialEq>⟧.eq f g ≡ function_eq f g }
{}
