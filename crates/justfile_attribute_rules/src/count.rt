//! The number of positional arguments that each kind of attribute takes.
ghost use Rattle.std.specs.Prelude.{◌≡◌};
ghost use Rattle.justfile_model.specs.Meanings.AttributeKinds.{least_count, most_count, takes_expressions};
ghost use Rattle.justfile_model.specs.Readers.NewAttribute as new;
ghost use Rattle.justfile_attribute_rules.specs.Keys.{views_keys};
ghost use Rattle.justfile_attribute_rules.specs.Made.{Makes};
ghost use Rattle.justfile_attribute_rules.specs.RuleErrors.{IsMost};

use justfile_token::{CompileError, CompileErrorKind, CompileResult, Fault, Name};
use justfile_vocabulary::AttributeKind;

/// Whether an attribute of this kind takes any expressions as its positional arguments. Other kinds
/// take string literals only.
pub fn accepts_expressions(kind: AttributeKind) -> bool
    ensures { result ≡ takes_expressions kind }
{
    matches!(
        kind,
        AttributeKind::Confirm
            | AttributeKind::Doc
            | AttributeKind::Env
            | AttributeKind::Timestamp
            | AttributeKind::WorkingDirectory
    )
}

/// Refuses too few or too many positional arguments.
///
/// # Errors
///
/// `Compile` at the attribute's name.
#[tactic(auto, using(crate::proofs::Counts::more_is))]
pub fn check_count<'src>(name: Name<'src>, kind: AttributeKind, found: usize) -> CompileResult<'src>
    ensures { Makes (λ _. tt) result (new.check_count views_keys name.entry.token kind found) }
{
    let (min, max) = argument_range(kind);
    if found < min || max < found {
        return Err(Fault::Compile(CompileError {
            kind: CompileErrorKind::AttributeArgumentCountMismatch {
                attribute: name,
                found,
                min,
                max,
            },
            token: *name,
        }));
    }
    Ok(())
}

/// Returns the least and the greatest number of positional arguments. `usize::MAX` means no limit.
fn argument_range(kind: AttributeKind) -> (usize, usize)
    ensures least { result.0 ≡ least_count kind }
    ensures most { IsMost (most_count kind) result.1 }
{
    match kind {
        AttributeKind::Confirm | AttributeKind::Doc | AttributeKind::Timestamp => (0, 1),
        AttributeKind::Continue | AttributeKind::Script => (0, usize::MAX),
        AttributeKind::Arg
        | AttributeKind::Extension
        | AttributeKind::Group
        | AttributeKind::WorkingDirectory => (1, 1),
        AttributeKind::Env => (2, 2),
        AttributeKind::Metadata => (1, usize::MAX),
        _ => (0, 0),
    }
}
