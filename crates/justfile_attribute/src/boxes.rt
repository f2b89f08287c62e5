//! Values moved into boxes of their own.
ghost use Rattle.std.specs.Prelude.{◌≡◌, ◌∷◌, IfOk, OnOk, map};
ghost use Rattle.std.specs.Option.{option_map};
ghost use Rattle.justfile_attribute.specs.Boxes.{IsBelowFirst, unboxed_entry, unboxed_pair};

use std::alloc::{AllocError, Global};
use std::collections::BTreeMap;

/// Returns the pairs with each second component in a box.
#[tactic(auto, using(crate::proofs::Boxed::pair_moved, crate::proofs::Boxed::pairs_moved))]
pub(crate) fn boxed_pairs<A: Drop, T: Drop>(
    alloc: Global,
    pairs: Vec<(A, T)>,
) -> Result<Vec<(A, Box<T>)>, AllocError>
    ensures { IfOk result (λ boxed. map unboxed_pair boxed.items ≡ pairs.items) }
{
    let mut pairs = pairs;
    let mut boxed = Vec::new(alloc);
    while let Some((first, value)) = pairs.pop() {
        let value = Box::new(alloc, value)?;
        boxed.push((first, value))?;
    }
    boxed.reverse();
    Ok(boxed)
}

/// Returns the map with the second component of each value in a box, if there is one.
pub(crate) fn boxed_values<K: Ord + Drop, A: Drop, T: Drop>(
    alloc: Global,
    values: BTreeMap<K, (A, Option<T>)>,
) -> Result<BTreeMap<K, (A, Option<Box<T>>)>, AllocError>
    ensures { IfOk result (λ boxed. map unboxed_entry boxed.entries ≡ values.entries) }
{
    let mut values = values;
    let mut boxed = BTreeMap::new(alloc);
    while let Some((key, given)) = values.pop_last() {
        let value = boxed_option(alloc, given.1)?;
        put_first(&mut boxed, key, (given.0, value))?;
    }
    Ok(boxed)
}

/// Returns an optional value in a box.
fn boxed_option<T: Drop>(alloc: Global, value: Option<T>) -> Result<Option<Box<T>>, AllocError>
    ensures { IfOk result (λ boxed. option_map (λ b. b.value) boxed ≡ value) }
{
    match value {
        None => Ok(None),
        Some(value) => Ok(Some(Box::new(alloc, value)?)),
    }
}

/// Inserts an entry whose key is below all others.
#[tactic(auto, using(crate::proofs::Boxed::first_put))]
fn put_first<K: Ord + Drop, V: Drop>(
    entries: &mut BTreeMap<K, V>,
    key: K,
    value: V,
) -> Result<(), AllocError>
    requires { IsBelowFirst K.cmp entries.old.entries key }
    ensures { OnOk result (entries.new.entries ≡ (key, value) ∷ entries.old.entries) }
{
    match entries.insert(key, value) {
        Ok(_before) => Ok(()),
        Err(_failed) => Err(AllocError),
    }
}
