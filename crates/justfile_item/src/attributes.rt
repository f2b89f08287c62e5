//! Attributes of constructs: how they are compared and printed.
ghost use Rattle.std.specs.Prelude.{◌≡◌};
ghost use Rattle.justfile_token.specs.Sink.{Puts};
ghost use Rattle.justfile_attribute_set.specs.contracts.attribute_set.PairSetAttributeWrittenPartialEq.TheImpl as sets;
ghost use Rattle.justfile_item.specs.Attributes.{attribute_line, attributes_text, lines_text};

use justfile_attribute::{Attribute, write_attribute};
use justfile_attribute_set::{AttributeSet, Written};
use justfile_leaves::{put_piece, write_comment};
use justfile_token::Sink;

/// Whether two sets have equal attributes.
pub(crate) fn are_equal<'src>(attributes: &AttributeSet<'src>, others: &AttributeSet<'src>) -> bool
    ensures { result ≡ sets.eq-value.it attributes.now others.now }
{
    *attributes == *others
}

/// Writes the attributes of a construct, each on a line of its own.
pub(crate) fn write_attributes<S: Sink>(
    attributes: &AttributeSet<'_>,
    sink: &mut S,
) -> Result<(), S::Fault>
    ensures { Puts S.took S.failed sink.old result (attributes_text attributes.now) sink.new }
{
    write_lines(attributes.written(), sink)
}

/// Writes attributes, each on a line of its own.
fn write_lines<S: Sink>(
    pairs: &[(Attribute<'_>, Written<'_>)],
    sink: &mut S,
) -> Result<(), S::Fault>
    ensures { Puts S.took S.failed sink.old result (lines_text pairs.now) sink.new }
{
    for pair in pairs {
        write_attribute_line(pair, sink)?;
    }
    Ok(())
}

/// Writes an attribute in brackets and its comment, on a line of its own.
fn write_attribute_line<S: Sink>(
    pair: &(Attribute<'_>, Written<'_>),
    sink: &mut S,
) -> Result<(), S::Fault>
    ensures { Puts S.took S.failed sink.old result (attribute_line pair.now) sink.new }
{
    put_piece("[", sink)?;
    write_attribute(&pair.0, sink)?;
    put_piece("]", sink)?;
    write_comment(pair.1.comment, sink)?;
    put_piece("\n", sink)
}
