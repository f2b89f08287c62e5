//! Laws of files and of faults of writing. Each is the contract of a function that does nothing.
ghost use Rattle.std.specs.Prelude.{◌≡◌, ℕ};
ghost use Rattle.justfile_ast.specs.Ast.{binding_numbers, recipe_numbers, tree_of};
ghost use Rattle.justfile_ast.specs.contracts.write_fault.WriteFaultPartialEq.TheImpl as fault_equality;
ghost use Rattle.justfile_ast.specs.declared.ast.Ast.{Ast};
ghost use Rattle.justfile_expression.specs.Cases.{IsExact};
ghost use Rattle.justfile_model.specs.Grammars.Files.{NumbersFrom, bindings, recipes};

/// Two files whose numbers count up from the same first number have the same numbers if their trees
/// have equally many bindings. The same holds for recipes.
pub fn same_numbers()
    ensures of_bindings { (first : ℕ) (a b : Ast)
        → NumbersFrom first (binding_numbers a) → NumbersFrom first (binding_numbers b)
        → bindings (tree_of a) ≡ bindings (tree_of b) → binding_numbers a ≡ binding_numbers b }
    ensures of_recipes { (first : ℕ) (a b : Ast)
        → NumbersFrom first (recipe_numbers a) → NumbersFrom first (recipe_numbers b)
        → recipes (tree_of a) ≡ recipes (tree_of b) → recipe_numbers a ≡ recipe_numbers b }
{}

/// Faults of writing are equal exactly if they are of the same case.
pub fn write_faults_equal()
    ensures { IsExact fault_equality.eq-value.it }
{}
