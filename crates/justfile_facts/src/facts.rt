//! The facts of a file.
ghost use Rattle.std.specs.Prelude.{IfOk};
ghost use Rattle.justfile_facts.specs.Facts.{AreFactsOf};

use crate::definitions::push_definitions;
use crate::members::push_members;
use crate::rules::rules;
use crate::suspects::{push_features, push_suspects};
use crate::uses::push_uses;
use justfile_item::Item;
use justfile_problems::Facts;
use justfile_token::Token;
use justfile_vocabulary::ListFeature;
use std::alloc::{AllocError, Global};

/// Returns what the items of a file say, with the features that need the setting `lists`. `imported`
/// is whether another file may import it.
///
/// # Errors
///
/// `AllocError` if memory runs out.
pub fn facts_of<'src>(
    items: &[Item<'src>],
    features: &[(ListFeature, Token<'src>)],
    imported: bool,
    alloc: Global,
) -> Result<Facts<'src>, AllocError>
    ensures { IfOk result (λ found. AreFactsOf imported items.now features.now found) }
{
    let mut definitions = Vec::new(alloc);
    push_definitions(items, &mut definitions)?;
    let mut uses = Vec::new(alloc);
    push_uses(items, alloc, &mut uses)?;
    let mut members = Vec::new(alloc);
    push_members(items, &mut members)?;
    let mut suspects = Vec::new(alloc);
    push_suspects(items, &mut suspects)?;
    push_features(features, &mut suspects)?;
    Ok(Facts {
        rules: rules(items, imported),
        definitions,
        uses,
        members,
        suspects,
    })
}
