//! A stable sort that takes memory for few machine words an item, however large an item is.
ghost use Rattle.std.specs.Prelude.{◌≡◌, IfOk, List, OnOk, length};
ghost use Rattle.std.specs.Cmp.{IsTotalOrder};
ghost use Rattle.std.specs.declared.cmp.Ordering.{Ordering};
ghost use Rattle.justfile_model.specs.Lists.Order.{in_order};
ghost use Rattle.justfile_attribute_set.specs.Places.{AreAt, AreNumbered, ArePlaces, ComparesBy, HaveNumbers, IsInverse};

use std::alloc::{AllocError, Global};
use std::cmp::Ordering;

/// Up to so many items `sort_by` sorts without memory.
const FEW: usize = 20;

/// Sorts the items. The sort is stable. `sort_by` takes memory for all items, this sort for four
/// machine words an item.
pub(crate) fn sort_stably<T, F: Fn(&T, &T) -> Ordering>(
    items: &mut Vec<T>,
    compare: F,
) -> Result<(), AllocError>
    requires { F.IsAlwaysCallable compare }
    ensures { OnOk result ((R : T → T → Ordering) → IsTotalOrder R → ComparesBy F.Fn R compare
        → items.new.items ≡ in_order R items.old.items) }
{
    if items.len() <= FEW {
        return items.sort_by(|item, other| compare(item, other));
    }
    let mut places = places_in_order(*items.allocator(), items, compare)?;
    move_to_places(items, &mut places);
    Ok(())
}

/// Returns the place of each item in their order.
fn places_in_order<T, F: Fn(&T, &T) -> Ordering>(
    alloc: Global,
    items: &[T],
    compare: F,
) -> Result<Vec<usize>, AllocError>
    requires { F.IsAlwaysCallable compare }
    ensures places { IfOk result (λ places. ArePlaces places.items (length items.now)) }
    ensures ordered { IfOk result (λ places. (R : T → T → Ordering) → IsTotalOrder R
        → ComparesBy F.Fn R compare → AreAt places.items items.now (in_order R items.now)) }
{
    let mut numbered = number_items(alloc, items)?;
    numbered.sort_by(|first, second| compare(first.0, second.0))?;
    invert(alloc, &numbered)
}

/// Returns the items, each with its index.
fn number_items<T>(alloc: Global, items: &[T]) -> Result<Vec<(&T, usize)>, AllocError>
    ensures { IfOk result (λ numbered. AreNumbered (length items.now) items.now numbered.items) }
{
    let mut numbered = Vec::with_capacity(alloc, items.len())?;
    for (index, item) in items.iter().enumerate() {
        numbered.push((item, index))?;
    }
    Ok(numbered)
}

/// Returns the new index of each item, by its number.
fn invert<T>(alloc: Global, sorted: &[(&T, usize)]) -> Result<Vec<usize>, AllocError>
    requires { HaveNumbers sorted.now }
    ensures { IfOk result (λ places. IsInverse (length sorted.now) sorted.now places.items) }
{
    let mut places = vec![in alloc; 0; sorted.len()]?;
    for (index, item) in sorted.iter().enumerate() {
        places[item.1] = index;
    }
    Ok(places)
}

/// Moves each item to its place.
fn move_to_places<T>(items: &mut Vec<T>, places: &mut Vec<usize>)
    requires { ArePlaces places.old.items (length items.old.items) }
    ensures { (ys : List T) → AreAt places.old.items items.old.items ys → items.new.items ≡ ys }
{
    let mut index = 0;
    while index < places.len() {
        let place = places[index];
        if place == index {
            index += 1;
        } else {
            items.swap(index, place);
            places.swap(index, place);
        }
    }
}
