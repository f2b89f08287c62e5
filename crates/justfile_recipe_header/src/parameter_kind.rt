//! The prefixes of kinds of parameters.
ghost use Rattle.std.specs.Prelude.{◌≡◌};
ghost use Rattle.justfile_model.specs.Printed.Printing.{prefix_text};

use justfile_model::ParameterKind;

/// Returns what is written before the name of a parameter of this kind.
#[tactic(auto, unfolding(justfile_model::specs::Printed::Printing::fixed_text))]
pub(crate) fn prefix(kind: ParameterKind) -> &'static str
    ensures { result.now ≡ prefix_text kind }
{
    match kind {
        ParameterKind::Plus => "+",
        ParameterKind::Singular => "",
        ParameterKind::Star => "*",
    }
}
