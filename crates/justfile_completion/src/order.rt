//! Offers in the order of their names.
ghost use Rattle.std.specs.Prelude.{OnOk};
ghost use Rattle.justfile_completion.specs.Order.{AreInOrder};

use crate::offer::Offer;
use std::alloc::AllocError;

/// Puts offers in the order of their names, each once: of those with one name the first one.
pub(crate) fn put_in_order(offers: &mut Vec<Offer<'_>>) -> Result<(), AllocError>
    ensures { OnOk result (AreInOrder offers.old.items offers.new.items) }
{
    offers.sort_by_key(|offer| offer.name)?;
    offers.dedup_by_key(|offer| offer.name);
    Ok(())
}
