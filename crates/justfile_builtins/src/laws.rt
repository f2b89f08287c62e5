//! Laws of the table: each is the contract of a function with an empty body.
ghost use Rattle.std.specs.Prelude.{◌≡◌, ℕ, true, List, map, Some};
ghost use Rattle.std.specs.Option.{is_some};
ghost use Rattle.justfile_vocabulary.specs.declared.list_feature.ListFeature.{ListFeature};
ghost use Rattle.justfile_model.specs.Grammars.Features.{function_feature};
ghost use Rattle.justfile_builtins.specs.Functions.{arguments_of};

use crate::functions::FUNCTIONS;

/// Each name in the table takes the numbers of arguments beside it.
#[tactic(auto, unfolding(crate::specs::Functions::arguments_of))]
pub fn built_in_functions()
    ensures { map (λ f. arguments_of f.0.now) FUNCTIONS ≡ map (λ f. Some f.1) FUNCTIONS }
{}

/// Each function whose call needs the setting `lists` is in the table.
pub fn list_functions()
    ensures { (name : List ℕ) (feature : ListFeature)
        → function_feature name ≡ Some feature → is_some (arguments_of name) ≡ true }
{}
