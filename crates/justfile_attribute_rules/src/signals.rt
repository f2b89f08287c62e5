//! Signals from literals.
ghost use Rattle.std.specs.Prelude.{◌≡◌};
ghost use Rattle.justfile_attribute_rules.specs.Made.{Makes, quoted_leaf, quoted_leaves, signal_made, signals_made};

use justfile_token::{CompileError, CompileErrorKind, CompileResult, Fault, StringLiteral};
use justfile_vocabulary::Signal;
use std::alloc::Global;
use std::collections::BTreeSet;

/// Returns the signals that literals name.
///
/// # Errors
///
/// `Compile` at the first literal that doesn't name a signal; `Memory` if out of memory.
pub fn signal_set<'src>(
    alloc: Global,
    literals: Vec<StringLiteral<'src>>,
) -> CompileResult<'src, BTreeSet<Signal>>
    ensures { Makes (λ signals. signals.keys) result
        (signals_made (quoted_leaves literals.entry.items)) }
{
    let mut signals = BTreeSet::new(alloc);
    for literal in literals {
        let signal = match signal(alloc, &literal) {
            Ok(signal) => signal,
            Err(fault) => return Err(fault),
        };
        match signals.insert(signal) {
            Ok(_) => {}
            Err(_) => return Err(Fault::Memory),
        }
    }
    Ok(signals)
}

/// Returns the signal that a literal names.
fn signal<'src>(alloc: Global, literal: &StringLiteral<'src>) -> CompileResult<'src, Signal>
    ensures { Makes (λ signal. signal) result (signal_made (quoted_leaf literal.now)) }
{
    match Signal::from_name(literal.cooked.as_str()) {
        Some(signal) => Ok(signal),
        None => match literal.cooked.as_str().to_string(alloc) {
            Ok(signal) => Err(Fault::Compile(CompileError {
                kind: CompileErrorKind::InvalidSignal { signal },
                token: literal.token,
            })),
            Err(_) => Err(Fault::Memory),
        },
    }
}
