//! `arg` attributes by the names of their parameters.
ghost use Rattle.std.specs.Prelude.{◌≡◌, IfOk, OnOk};
ghost use Rattle.justfile_attribute_set.specs.AttributeSet.{attributes_of};
ghost use Rattle.justfile_parse_header.specs.Arguments.{HaveBoundKeys};
ghost use Rattle.justfile_parse_header.specs.ArgNames.{AreFirsts, IsPut, IsPutAt, first_at};
ghost use Rattle.justfile_parse_header.specs.Tree.{rules_of};

use justfile_attribute::Attribute;
use justfile_attribute_set::AttributeSet;
use std::alloc::{AllocError, Global};
use std::collections::BTreeMap;

/// For each name, the first `arg` attribute with this name.
pub(crate) type Firsts<'run, 'src> = BTreeMap<&'run str, &'run Attribute<'src>>;

/// Attributes, and the first `arg` attribute for each name.
#[derive(Drop)]
pub(crate) struct ArgAttributes<'run, 'src> {
    pub(crate) attributes: &'run AttributeSet<'src>,
    pub(crate) firsts: Firsts<'run, 'src>,
}

/// Returns the first `arg` attribute for each name.
#[tactic(auto, using(crate::proofs::Firsts::firsts_end))]
pub(crate) fn find_firsts<'run, 'src>(
    attributes: &'run AttributeSet<'src>,
    alloc: Global,
) -> Result<Firsts<'run, 'src>, AllocError>
    requires { HaveBoundKeys (attributes_of attributes.now) }
    ensures { IfOk result (λ firsts. AreFirsts firsts (rules_of attributes.now)) }
{
    let mut firsts: Firsts<'run, 'src> = BTreeMap::new(alloc);
    let mut left = attributes.iter();
    'attributes: loop {
        let Some(attribute) = left.next() else {
            return Ok(firsts);
        };
        put(attribute, &mut firsts)?;
    }
}

/// Inserts an attribute at its name if it is an `arg`, unless the name already has one.
#[tactic(auto, using(crate::proofs::Firsts::unnamed_put))]
fn put<'run, 'src>(
    attribute: &'run Attribute<'src>,
    firsts: &mut Firsts<'run, 'src>,
) -> Result<(), AllocError>
    ensures { OnOk result (IsPut attribute.now firsts.old firsts.new) }
{
    match attribute {
        Attribute::Arg { name, .. } => put_at(attribute, firsts, name.cooked.as_str()),
        _ => Ok(()),
    }
}

/// Inserts an attribute at a name, unless the name already has one.
fn put_at<'run, 'src>(
    attribute: &'run Attribute<'src>,
    firsts: &mut Firsts<'run, 'src>,
    name: &'run str,
) -> Result<(), AllocError>
    ensures { OnOk result (IsPutAt name.now attribute.now firsts.old firsts.new) }
{
    if firsts.contains_key(name) {
        return Ok(());
    }
    match firsts.insert(name, attribute) {
        Ok(_before) => Ok(()),
        Err(_failed) => Err(AllocError),
    }
}

/// Returns the first `arg` attribute with this name.
pub(crate) fn find_first<'run, 'src>(
    firsts: &Firsts<'run, 'src>,
    name: &str,
) -> Option<&'run Attribute<'src>>
    ensures { result ≡ first_at firsts.now name.now }
{
    firsts.get(name).copied()
}
