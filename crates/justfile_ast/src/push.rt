//! Appends values, and values of results, to lists.
ghost use Rattle.std.specs.Prelude.{◌≡◌, ◌++◌, ◌∷◌, [], Ok, OnOk};

use std::alloc::AllocError;

/// Appends the value of a result, or returns the result's error.
pub(crate) fn push_made<T: Drop>(
    items: &mut Vec<T>,
    made: Result<T, AllocError>,
) -> Result<(), AllocError>
    ensures { OnOk result ((item : T) × (made ≡ Ok item)
        × (items.new.items ≡ items.old.items ++ item ∷ [])) }
{
    push(items, made?)
}

/// Appends a value.
fn push<T: Drop>(items: &mut Vec<T>, item: T) -> Result<(), AllocError>
    ensures { OnOk result (items.new.items ≡ items.old.items ++ item ∷ []) }
{
    items.push(item)?;
    Ok(())
}
